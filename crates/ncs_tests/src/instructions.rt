use ncs_code::{CodeFault, decode, opcode_named};
use nwq_value::NoMemory;
use std::alloc::Global;
use std::test::*;

const COPY: &[u8] = &[0xff, 0xff, 0xff, 0xf8, 0x00, 0x04];

const OFFSET: &[u8] = &[0xff, 0xff, 0xff, 0xfc];

const PAIRS: &[u8] = &[
    0x20, 0x21, 0x22, 0x23, 0x30, 0x31, 0x32, 0x33, 0x34, 0x35, 0x36, 0x37, 0x38, 0x39,
];

const STARTS: &[u8] = &[
    0x03, 0x04, 0x05, 0x06, 0x10, 0x11, 0x12, 0x13, 0x14, 0x15, 0x16, 0x17, 0x18, 0x19,
];

const SUMS: &[u8] = &[0x20, 0x21, 0x25, 0x26];

/// The rows of the table: opcode, type bytes, and arguments for those.
const ROWS: [(u8, &[u8], &[u8]); 47] = [
    (0x01, &[0x01], COPY),
    (0x02, STARTS, &[]),
    (0x03, &[0x01], COPY),
    (0x04, &[0x03, 0x04, 0x06], &[0x80, 0x00, 0x00, 0x01]),
    (0x04, &[0x05], &[0x00, 0x02, 0x68, 0x69]),
    (0x05, &[0x00], &[0x01, 0x02, 0x03]),
    (0x06, &[0x20], &[]),
    (0x07, &[0x20], &[]),
    (0x08, &[0x20], &[]),
    (0x09, &[0x20], &[]),
    (0x0a, &[0x20], &[]),
    (0x0b, PAIRS, &[]),
    (0x0b, &[0x24], &[0x00, 0x0c]),
    (0x0c, PAIRS, &[]),
    (0x0c, &[0x24], &[0x00, 0x0c]),
    (0x0d, &[0x20, 0x21], &[]),
    (0x0e, &[0x20, 0x21], &[]),
    (0x0f, &[0x20, 0x21], &[]),
    (0x10, &[0x20, 0x21], &[]),
    (0x11, &[0x20], &[]),
    (0x12, &[0x20], &[]),
    (0x13, &[0x20], &[]),
    (0x14, &[0x20, 0x21, 0x23, 0x25, 0x26], &[]),
    (0x15, SUMS, &[]),
    (0x16, SUMS, &[]),
    (0x17, SUMS, &[]),
    (0x18, &[0x20], &[]),
    (0x19, &[0x03, 0x04], &[]),
    (0x1a, &[0x03], &[]),
    (0x1b, &[0x00], OFFSET),
    (0x1d, &[0x00], OFFSET),
    (0x1e, &[0x00], OFFSET),
    (0x1f, &[0x00], OFFSET),
    (0x20, &[0x00], &[]),
    (0x21, &[0x01], &[0x00, 0x10, 0x00, 0x04, 0x00, 0x08]),
    (0x22, &[0x03], &[]),
    (0x23, &[0x03], OFFSET),
    (0x24, &[0x03], OFFSET),
    (0x25, &[0x00], OFFSET),
    (0x26, &[0x01], COPY),
    (0x27, &[0x01], COPY),
    (0x28, &[0x03], OFFSET),
    (0x29, &[0x03], OFFSET),
    (0x2a, &[0x00], &[]),
    (0x2b, &[0x00], &[]),
    (
        0x2c,
        &[0x10],
        &[0x00, 0x00, 0x00, 0x08, 0x00, 0x00, 0x00, 0x0c],
    ),
    (0x2d, &[0x00], &[]),
];

const STATE: [u8; 10] = [0x2c, 0x10, 0, 0, 0, 0, 0, 0, 0, 0];

/// Are these bytes one instruction, which is spelled so again and has the name of their opcode?
fn reads_back(alloc: Global, bytes: &[u8]) -> Result<bool, NoMemory> {
    if bytes.is_empty() || bytes.len() > 20 {
        return Ok(false);
    }
    match decode(bytes, 0) {
        Err(_) => Ok(false),
        Ok((op, size)) => {
            let mut out = Vec::new(alloc);
            op.encode(&mut out)?;
            let spelled = out.as_slice() == bytes && op.opcode() == bytes[0];
            let named = opcode_named(op.name().as_bytes()) == Some(bytes[0]);
            Ok(spelled && named && op.size() == size && size as usize == bytes.len())
        }
    }
}

/// Does the row read back at each of its types?
fn is_read_back(alloc: Global, row: &(u8, &[u8], &[u8])) -> Result<bool, NoMemory> {
    let (code, kinds, arguments) = row;
    for kind in *kinds {
        let mut bytes = Vec::new(alloc);
        bytes.push(*code)?;
        bytes.push(*kind)?;
        bytes.extend_from_slice(arguments)?;
        if !reads_back(alloc, bytes.as_slice())? {
            return Ok(false);
        }
    }
    Ok(true)
}

#[test]
fn every_row_at_every_type(rt: HostRuntime) -> Result<(), Fail> {
    for row in &ROWS {
        assert!(rt; is_read_back(rt.alloc(), row)?, "at {}", row.0);
    }
    Ok(())
}

#[test]
fn faults(rt: HostRuntime) {
    assert!(rt; matches!(decode(&[0x1c], 0), Err(CodeFault::Opcode)));
    assert!(rt; matches!(decode(&[0x14, 0x40], 0), Err(CodeFault::TypeByte)));
    assert!(rt; matches!(decode(&[0x20, 0x00, 0x1e], 2), Err(CodeFault::Short)));
    assert!(rt;
        matches!(
            decode(&[0x04, 0x05, 0x00, 0x02, 0x68], 0),
            Err(CodeFault::Short)
        )
    );
}

#[test]
fn kinds_and_names(rt: HostRuntime) {
    assert!(rt; matches!(decode(&[0x02, 0x11], 0), Ok((op, 2)) if op.kind() == 0x11));
    assert!(rt; matches!(decode(&STATE, 0), Ok((op, 10)) if op.name() == "STORE_STATE"));
    assert!(rt; opcode_named(b"JNZ") == Some(0x25));
    assert!(rt; opcode_named(b"").is_none());
    assert!(rt; opcode_named(b"STORE_STATEALL").is_none());
}
