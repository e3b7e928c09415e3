ghost use Rattle.std.specs.Prelude.{◌<◌, ◌^◌, length};

use ncs_file::load;
use ncs_text::{AsmFault, assemble, disassemble};
use nwq_text::put_quoted;
use nwq_value::NoMemory;
use std::alloc::Global;
use std::test::*;

/// Every instruction, with its arguments at their least and greatest.
const EVERY: &[u8] = b"CPDOWNSP 01 -2147483648 0\n\
CPDOWNSP 01 2147483647 65535\n\
RSADD 03\n\
RSADD 19\n\
CPTOPSP 01 -4 4\n\
CONST 03 -2147483648\n\
CONST 03 2147483647\n\
CONST 03 0\n\
CONST 04 3f80ff00\n\
CONST 05 \"\"\n\
CONST 05 \"a b \\x22;\\\\\\n\"\n\
CONST 06 0\n\
CONST 06 4294967295\n\
ACTION 00 0 0\n\
ACTION 00 65535 255\n\
LOGAND 20\n\
LOGOR 20\n\
INCOR 20\n\
EXCOR 20\n\
BOOLAND 20\n\
EQUAL 20\n\
EQUAL 24 0\n\
EQUAL 24 65535\n\
NEQUAL 24 4\n\
NEQUAL 39\n\
GEQ 20\n\
GT 21\n\
LT 20\n\
LEQ 21\n\
SHLEFT 20\n\
SHRIGHT 20\n\
USHRIGHT 20\n\
ADD 26\n\
SUB 25\n\
MUL 21\n\
DIV 20\n\
MOD 20\n\
NEG 04\n\
COMP 03\n\
MOVSP 00 -8\n\
JMP 00 @13\n\
JSR 00 @21\n\
JZ 00 @13\n\
RETN 00\n\
DESTRUCT 01 65535 0 4\n\
NOT 03\n\
DECISP 03 -4\n\
INCISP 03 -4\n\
JNZ 00 @13\n\
CPDOWNBP 01 -4 4\n\
CPTOPBP 01 -4 4\n\
DECIBP 03 -4\n\
INCIBP 03 -4\n\
SAVEBP 00\n\
RESTOREBP 00\n\
STORE_STATE 10 0 4294967295\n\
JMP 00 @13\n\
NOP 00\n";

/// Is the file of the text the 13 bytes of its header and these?
fn gives(alloc: Global, text: &[u8], body: &[u8]) -> bool
    requires { length text.now < 2 ^ 32 }
{
    match assemble(alloc, text) {
        Err(_) => false,
        Ok(file) => file.len() >= 13 && &file[13..] == body,
    }
}

fn stops_at(alloc: Global, text: &[u8], line: u64) -> bool
    requires { length text.now < 2 ^ 32 }
{
    match assemble(alloc, text) {
        Err(AsmFault::Line(n)) => n == line,
        _ => false,
    }
}

fn leads_astray(alloc: Global, text: &[u8], line: u64) -> bool
    requires { length text.now < 2 ^ 32 }
{
    match assemble(alloc, text) {
        Err(AsmFault::Target(n)) => n == line,
        _ => false,
    }
}

fn listed(alloc: Global, file: Vec<u8>) -> Option<Vec<u8>> {
    if file.len() > 16_777_216 {
        return None;
    }
    match load(alloc, file) {
        Err(_) => None,
        Ok(code) => disassemble(alloc, &code).ok(),
    }
}

/// Is this the text of its file?
fn comes_back(alloc: Global, text: &[u8]) -> bool
    requires { length text.now < 2 ^ 32 }
{
    match assemble(alloc, text) {
        Err(_) => false,
        Ok(file) => match listed(alloc, file) {
            None => false,
            Some(again) => again.as_slice() == text,
        },
    }
}

/// The line that pushes the string of all bytes.
fn every_byte(alloc: Global) -> Result<Vec<u8>, NoMemory> {
    let mut bytes = Vec::new(alloc);
    for byte in 0..=255u8 {
        bytes.push(byte)?;
    }
    let mut text = Vec::from_slice(alloc, b"CONST 05 ")?;
    put_quoted(&mut text, bytes.as_slice())?;
    text.push(b'\n')?;
    Ok(text)
}

#[test]
fn listings_come_back(rt: HostRuntime) {
    assert!(rt; comes_back(rt.alloc(), EVERY));
    assert!(rt; comes_back(rt.alloc(), b"JSR 00 @21\nRETN 00\nRETN 00\n"));
    assert!(rt; comes_back(rt.alloc(), b""));
    let alloc = rt.alloc();
    let back = match every_byte(alloc) {
        Err(_) => false,
        Ok(text) => text.len() < 4096 && comes_back(alloc, text.as_slice()),
    };
    assert!(rt; back);
}

fn loose_texts(alloc: Global) -> bool {
    gives(alloc, b"", b"")
        && gives(
            alloc,
            b"\n; a remark\n\r\nNOP 00\r\n;\nRETN 00",
            b"\x2d\x00\x20\x00",
        )
        && gives(
            alloc,
            b"CONST 03 -0\nCONST 06 0000000007\n",
            b"\x04\x03\x00\x00\x00\x00\x04\x06\x00\x00\x00\x07",
        )
        && gives(alloc, b"CONST 04 0102ff10", b"\x04\x04\x01\x02\xff\x10")
        && gives(alloc, b"CONST 05 \"a b\"", b"\x04\x05\x00\x03a b")
        && gives(alloc, b"RSADD 10", b"\x02\x10")
        && gives(
            alloc,
            b"NOP 00\nJMP 00 @13",
            b"\x2d\x00\x1d\x00\xff\xff\xff\xfe",
        )
}

#[test]
fn assembled_texts(rt: HostRuntime) {
    assert!(rt; loose_texts(rt.alloc()));
}

fn bad_heads(alloc: Global) -> bool {
    stops_at(alloc, b"FOO 00", 1)
        && stops_at(alloc, b"NOP 00\n\nNOP", 3)
        && stops_at(alloc, b"NOP 00 ; no\n", 1)
        && stops_at(alloc, b" NOP 00\n", 1)
        && stops_at(alloc, b"nop 00\n", 1)
        && stops_at(alloc, b"NOP 0\n", 1)
        && stops_at(alloc, b"RETN 00\nNOP 01\n", 2)
        && stops_at(alloc, b"RSADD 1G\n", 1)
        && stops_at(alloc, b"NOP 00\r", 1)
        && stops_at(alloc, b"ADD 22\n", 1)
}

fn bad_arguments(alloc: Global) -> bool {
    stops_at(alloc, b"CONST 03 2147483648\n", 1)
        && stops_at(alloc, b"CONST 03 -2147483649\n", 1)
        && stops_at(alloc, b"CONST 03 00000000001\n", 1)
        && stops_at(alloc, b"CONST 04 3F800000\n", 1)
        && stops_at(alloc, b"CONST 04 3f8000\n", 1)
        && stops_at(alloc, b"CONST 05 \"\\x41\"\n", 1)
        && stops_at(alloc, b"CONST 06 4294967296\n", 1)
        && stops_at(alloc, b"ACTION 00 65536 0\n", 1)
        && stops_at(alloc, b"ACTION 00 1 256\n", 1)
        && stops_at(alloc, b"ACTION 00 1\n", 1)
        && stops_at(alloc, b"EQUAL 20 4\n", 1)
        && stops_at(alloc, b"JMP 00 13\n", 1)
        && stops_at(alloc, b"JMP 00 @14\nMOVSP 00  -4\n", 2)
}

fn bad_targets(alloc: Global) -> bool {
    leads_astray(alloc, b"JMP 00 @14\nRETN 00\n", 1)
        && leads_astray(alloc, b"; one\nNOP 00\n\nJZ 00 @4294967295\nJMP 00 @0\n", 4)
        && leads_astray(alloc, b"NOP 00\nJSR 00 @21\n", 2)
        && leads_astray(alloc, b"STORE_STATE 10 0 0\n", 1)
}

#[test]
fn refused_texts(rt: HostRuntime) {
    assert!(rt; bad_heads(rt.alloc()));
    assert!(rt; bad_arguments(rt.alloc()));
    assert!(rt; bad_targets(rt.alloc()));
}
