//! Hooks that find no memory, each in its turn, and cells that the hooks look up in a table.

use nwq_top::Status;
use test_rows::answers::{Held, PLAIN, Row};
use test_rows::bases::Base;
use test_rows::samples::Sample;

/// The number of the hook that finds none beside these rows: IntToString.
pub const REFUSED: u8 = 1;

/// A script that asks a hook, and what comes of it where that hook finds memory, and where not.
macro_rules! asks {
    ($source:literal, $text:literal) => {
        [
            Row {
                line: "run - p",
                own: &[("p.nss", Held::Bytes($source))],
                puts: Some(2),
                text: $text,
                ..PLAIN
            },
            Row {
                line: "run - p",
                own: &[("p.nss", Held::Bytes($source))],
                status: Status::Memory,
                puts: Some(0),
                ..PLAIN
            },
        ]
    };
}

/// A script for each of the ten hooks.
pub const ASKED: &[[Row; 2]] = &[
    asks!(
        b"void main() { PrintInteger(abs(-1)); }",
        "0 #0 print 1\nend done clock 0 entries 1 instructions 7\n"
    ),
    asks!(
        b"void main() { PrintString(IntToString(1)); }",
        "0 #0 print 1\nend done clock 0 entries 1 instructions 6\n"
    ),
    asks!(
        b"void main() { PrintInteger(StringToInt(\"1\")); }",
        "0 #0 print 1\nend done clock 0 entries 1 instructions 6\n"
    ),
    asks!(
        b"void main() { PrintString(IntToHexString(1)); }",
        "0 #0 print 0x00000001\nend done clock 0 entries 1 instructions 6\n"
    ),
    asks!(
        b"void main() { PrintInteger(GetStringLength(\"a\")); }",
        "0 #0 print 1\nend done clock 0 entries 1 instructions 6\n"
    ),
    asks!(
        b"void main() { PrintString(GetStringLeft(\"ab\", 1)); }",
        "0 #0 print a\nend done clock 0 entries 1 instructions 7\n"
    ),
    asks!(
        b"void main() { PrintString(GetStringRight(\"ab\", 1)); }",
        "0 #0 print b\nend done clock 0 entries 1 instructions 7\n"
    ),
    asks!(
        b"void main() { PrintString(GetSubString(\"ab\", 1, 1)); }",
        "0 #0 print b\nend done clock 0 entries 1 instructions 8\n"
    ),
    asks!(
        b"void main() { PrintString(InsertString(\"a\", \"b\", 0)); }",
        "0 #0 print ba\nend done clock 0 entries 1 instructions 8\n"
    ),
    asks!(
        b"void main() { PrintString(Get2DAString(\"x\", \"COST\", 0)); }",
        "0 #0 print 10\nend done clock 0 entries 1 instructions 8\n"
    ),
];

pub const LINE: &str = "play - a.git x.plan f.git t.txt";

/// Scripts that ask hooks.
pub const ROWS: &[Row] = &[
    // What comes of a hook without memory is told, and nothing in its place.
    Row {
        line: "run - p",
        own: &[(
            "p.nss",
            Held::Bytes(b"void main() { PrintString(IntToString(1)); }"),
        )],
        status: Status::Memory,
        puts: Some(0),
        ..PLAIN
    },
    // Where it isn't asked nothing is wanting.
    Row {
        line: "run - p",
        own: &[("p.nss", Held::Bytes(b"void main() { PrintInteger(2+3); }"))],
        puts: Some(2),
        text: "0 #0 print 5\nend done clock 0 entries 1 instructions 7\n",
        ..PLAIN
    },
    // Names of tables and columns are folded; no such row, and no such table.
    Row {
        line: LINE,
        base: Base::Cells,
        own: &[(
            "p.nss",
            Held::Bytes(
                b"void main() { PrintString(Get2DAString(\"x\",\"cost\",0)); \
                    PrintString(Get2DAString(\"x\",\"LABEL\",1)); \
                    PrintString(Get2DAString(\"x\",\"COST\",7)); \
                    PrintString(Get2DAString(\"y\",\"COST\",0)); }",
            ),
        )],
        puts: Some(2),
        text: "0 #0 print 10\n0 #0 print \n0 #0 print \n0 #0 print \n\
            end done clock 0 entries 1 instructions 23\n",
        after: &[("f.git", Held::Of(Sample::Empty))],
        ..PLAIN
    },
    Row {
        line: LINE,
        base: Base::Cells,
        own: &[(
            "p.nss",
            Held::Bytes(b"void main() { PrintString(Get2DAString(\"x\",\"COST\",0)); }"),
        )],
        puts: Some(2),
        text: "0 #0 print 10\nend done clock 0 entries 1 instructions 8\n",
        after: &[("f.git", Held::Of(Sample::Empty))],
        ..PLAIN
    },
];
