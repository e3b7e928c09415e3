//! Units under headers of their own, and files as they are in bytes.
use crate::compile::{Row, first_other_under, has_bytes};
use std::test::*;

const FEW: &[u8] = b"void PrintInteger(int n);";

const FEW_ROWS: &[Row] = &[
    // The routine has the number 0 here.
    (
        b"void main() { PrintInteger(2 + 3); }",
        b"JSR 00 @21\nRETN 00\n\
          CONST 03 2\nCONST 03 3\nADD 20\nACTION 00 0 1\nRETN 00\n",
    ),
];

const WORLD: &[u8] = b"#define ENGINE_STRUCTURE_0 effect\n\
    string S = \"k\"; int N = -3; int Z();\n\
    void W(effect e, int a = N, string s = S, object o = OBJECT_INVALID);";

const WORLD_ROWS: &[Row] = &[
    // Defaults and constants of the header.
    (
        b"void main() { effect e; W(e); W(e, N, S + \"x\"); }",
        b"JSR 00 @21\nRETN 00\n\
          RSADD 10\nCONST 06 1\nCONST 05 \"k\"\nCONST 03 -3\nCPTOPSP 01 -16 4\nACTION 00 1 4\n\
          CONST 06 1\nCONST 05 \"k\"\nCONST 05 \"x\"\nADD 23\nCONST 03 -3\nCPTOPSP 01 -16 4\n\
          ACTION 00 1 4\nMOVSP 00 -4\nRETN 00\n",
    ),
    // A routine without parameters.
    (
        b"int f() { return Z(); } void main() { f(); }",
        b"JSR 00 @44\nRETN 00\n\
          ACTION 00 0 0\nCPDOWNSP 01 -8 4\nMOVSP 00 -4\nRETN 00\nRETN 00\n\
          RSADD 03\nJSR 00 @21\nMOVSP 00 -4\nRETN 00\n",
    ),
];

#[test]
fn few_routines(rt: HostRuntime) {
    let alike = first_other_under(rt.alloc(), FEW, FEW_ROWS);
    assert_eq!(rt; alike, Some(FEW_ROWS.len()));
}

#[test]
fn world_routines(rt: HostRuntime) {
    let alike = first_other_under(rt.alloc(), WORLD, WORLD_ROWS);
    assert_eq!(rt; alike, Some(WORLD_ROWS.len()));
}

#[test]
fn bytes(rt: HostRuntime) -> Result<(), Fail> {
    let nothing = b"NCS V1.0B\x00\x00\x00\x17\x1e\x00\x00\x00\x00\x08\x20\x00\x20\x00";
    let sum = b"NCS V1.0B\x00\x00\x00\x2a\x1e\x00\x00\x00\x00\x08\x20\x00\
        \x04\x03\x00\x00\x00\x02\x04\x03\x00\x00\x00\x03\x14\x20\x05\x00\x00\x04\x01\x20\x00";
    let invalid = b"NCS V1.0B\x00\x00\x00\x22\x1e\x00\x00\x00\x00\x08\x20\x00\
        \x04\x06\x00\x00\x00\x01\x05\x00\x00\x05\x01\x20\x00";
    let units: [(&[u8], &[u8]); 3] = [
        (b"void main() {}", nothing),
        (b"void main() { PrintInteger(2+3); }", sum),
        (b"void main() { PrintObject(OBJECT_INVALID); }", invalid),
    ];
    for (source, bytes) in units {
        assert!(rt; has_bytes(rt.alloc(), source, bytes)?);
    }
    Ok(())
}
