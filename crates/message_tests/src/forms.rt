//! The column of a place, and the line that is shown.

use message_text::{column, put_place};
use std::alloc::Global;

/// What is shown of a place.
fn shown(alloc: Global, text: &[u8], at: usize) -> Option<Vec<u8>> {
    if at > text.len() {
        return None;
    }
    let mut out = Vec::new(alloc);
    match put_place(&mut out, text, at) {
        Ok(()) => Some(out),
        Err(_) => None,
    }
}

fn is_shown(alloc: Global, text: &[u8], at: usize, wanted: &[u8]) -> bool {
    match shown(alloc, text, at) {
        Some(made) => made.as_slice() == wanted,
        None => false,
    }
}

fn column_in(text: &[u8], at: usize) -> u64 {
    if at > text.len() { 0 } else { column(text, at) }
}

#[test]
fn columns(rt: HostRuntime) {
    assert!(rt; column_in(b"int n;", 0) == 1);
    assert!(rt; column_in(b"int n;\n\tn = m;", 8) == 2);
    assert!(rt; column_in(b"a\n", 2) == 1);
    // A letter of two bytes in UTF-8 is one character, and one byte of another code is one too.
    assert!(rt; column_in("\"ä\" x".as_bytes(), 5) == 5);
    assert!(rt; column_in(b"\"\xe4\" x", 4) == 5);
}

#[test]
fn lines(rt: HostRuntime) {
    let alloc = rt.alloc();
    assert!(rt; is_shown(alloc, b"int n;\r\n\tn = m;\r\n", 13, b"\tn = m;\n\t    ^\n"));
    assert!(rt;
        is_shown(
            alloc,
            "\"ä\" x".as_bytes(),
            5,
            "\"ä\" x\n    ^\n".as_bytes()
        )
    );
    assert!(rt; is_shown(alloc, b"\"\xe4\" x", 4, b"\"\\xe4\" x\n       ^\n"));
    assert!(rt; is_shown(alloc, b"", 0, b"\n^\n"));
}

/// Of a long line 70 bytes are shown on each side. The tabs stand above tabs.
#[test]
fn windows(rt: HostRuntime) {
    let alloc = rt.alloc();
    assert!(rt;
        is_shown(
            alloc,
            b"\t\t\t\t\t\t\t\t\t\t\t\t\t\t\t\t\t\t\t\t\t\t\t\t\t\t\t\t\t\t\t\t\t\t\t\t\t\t\t\
                \t\t\t\t\t\t\t\t\t\t\t\t\t\t\t\t\t\t\t\t\t\t\t\t\t\t\t\t\t\t\t\t!yyyyyyyyyyyyy\
                yyyyyyyyyyyyyyyyyyyyyyyyyyyyyyyyyyyyyyyyyyyyyyyyyyyyyyyyyy",
            71,
            b"...\t\t\t\t\t\t\t\t\t\t\t\t\t\t\t\t\t\t\t\t\t\t\t\t\t\t\t\t\t\t\t\t\t\t\t\t\t\
                \t\t\t\t\t\t\t\t\t\t\t\t\t\t\t\t\t\t\t\t\t\t\t\t\t\t\t\t\t\t\t\t\t!yyyyyyyyyyy\
                yyyyyyyyyyyyyyyyyyyyyyyyyyyyyyyyyyyyyyyyyyyyyyyyyyyyyyyyyy...\n   \t\t\t\t\t\t\
                \t\t\t\t\t\t\t\t\t\t\t\t\t\t\t\t\t\t\t\t\t\t\t\t\t\t\t\t\t\t\t\t\t\t\t\t\t\t\t\
                \t\t\t\t\t\t\t\t\t\t\t\t\t\t\t\t\t\t\t\t\t\t\t\t\t^\n"
        )
    );
    // No character is cut.
    assert!(rt;
        is_shown(
            alloc,
            "ä\t\t\t\t\t\t\t\t\t\t\t\t\t\t\t\t\t\t\t\t\t\t\t\t\t\t\t\t\t\t\t\t\t\t\t\t\t\t\
                \t\t\t\t\t\t\t\t\t\t\t\t\t\t\t\t\t\t\t\t\t\t\t\t\t\t\t\t\t\t\t!"
                .as_bytes(),
            71,
            b"...\t\t\t\t\t\t\t\t\t\t\t\t\t\t\t\t\t\t\t\t\t\t\t\t\t\t\t\t\t\t\t\t\t\t\t\t\t\
                \t\t\t\t\t\t\t\t\t\t\t\t\t\t\t\t\t\t\t\t\t\t\t\t\t\t\t\t\t\t\t\t!\n   \t\t\t\t\
                \t\t\t\t\t\t\t\t\t\t\t\t\t\t\t\t\t\t\t\t\t\t\t\t\t\t\t\t\t\t\t\t\t\t\t\t\t\t\t\
                \t\t\t\t\t\t\t\t\t\t\t\t\t\t\t\t\t\t\t\t\t\t\t\t\t\t^\n"
        )
    );
}
