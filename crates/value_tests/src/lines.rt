//! The lines of texts.

use nwq_text::{Lines, line_of, put_count, put_quoted};
use nwq_value::NoMemory;
use std::test::Fail;

#[test]
fn places_have_lines(rt: HostRuntime) {
    assert_eq!(rt;
        [
            line_of(b"a\nb\n", 1),
            line_of(b"a\nb\n", 2),
            line_of(b"a\nb\n", 4)
        ],
        [1, 2, 3]
    );
}

/// Lists the lines of a text, each behind its number and the place where it begins.
fn list(text: &[u8], out: &mut Vec<u8>) -> Result<(), NoMemory> {
    let mut lines = Lines::of(text);
    while let Some(line) = lines.next_line() {
        put_count(out, line.number)?;
        out.push(b'@')?;
        put_count(out, line.place as u64)?;
        out.push(b'=')?;
        put_quoted(out, line.bytes)?;
        out.push(b' ')?;
    }
    Ok(())
}

/// Texts, and their lines as they are listed.
const TEXTS: &[(&[u8], &[u8])] = &[
    (b"", b""),
    (b"\n", b"1@0=\"\" "),
    (b"\r", b"1@0=\"\\x0d\" "),
    (
        b"a\r\nb\rc\n\n\r\nd\r",
        b"1@0=\"a\" 2@3=\"b\\x0dc\" 3@7=\"\" 4@8=\"\" 5@10=\"d\\x0d\" ",
    ),
    (b"a\r\r\nb\n", b"1@0=\"a\\x0d\" 2@4=\"b\" "),
];

#[test]
fn texts_have_lines(rt: HostRuntime) -> Result<(), Fail> {
    let mut out = Vec::new(rt.alloc());
    for (text, lines) in TEXTS {
        list(text, &mut out)?;
        assert!(rt; out.as_slice() == *lines, "{text:?}");
        out.clear();
    }
    Ok(())
}
