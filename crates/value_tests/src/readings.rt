//! What texts are read as: numbers, escaped and quoted texts, names of scripts.

use nwq_text::{is_script_name, put_quoted, read_number, read_quoted, read_text};
use nwq_value::NoMemory;
use std::alloc::Global;
use std::test::Fail;

/// A text, which stands first, and what it is read as.
#[derive(Clone, Copy)]
enum Reading {
    Number(&'static [u8], u64),
    NoNumber(&'static [u8]),
    Text(&'static [u8], &'static [u8]),
    NoText(&'static [u8]),
    NoQuoted(&'static [u8]),
    Name(&'static [u8]),
    NoName(&'static [u8]),
}

const READINGS: &[Reading] = &[
    Reading::Number(b"0042", 42),
    Reading::Number(b"9999999999", 9_999_999_999),
    Reading::NoNumber(b"10000000000"),
    Reading::NoNumber(b""),
    Reading::NoNumber(b"-1"),
    Reading::Text(b"a \\\\\\n\"~\\x7f\\x00\\xfe", b"a \\\n\"~\x7f\x00\xfe"),
    Reading::NoText(b"\\x41"),
    Reading::NoText(b"\\x5c"),
    Reading::NoText(b"\\x0a"),
    Reading::NoText(b"\\xFE"),
    Reading::NoText(b"\\q"),
    Reading::NoText(b"a\\"),
    Reading::NoText(b"\n"),
    Reading::NoQuoted(b"\"a"),
    Reading::NoQuoted(b"a\""),
    Reading::NoQuoted(b"\""),
    Reading::NoQuoted(b"\"a\"b\""),
    Reading::NoQuoted(b"\"\\x41\""),
    Reading::Name(b"a"),
    Reading::Name(b"nw_s0_burnhand01"),
    Reading::NoName(b""),
    Reading::NoName(b"nw_s0_burnhand001"),
    Reading::NoName(b"Beat"),
    Reading::NoName(b"a-b"),
    Reading::NoName(b"a b"),
    Reading::NoName(b"a\xfe"),
];

/// Whether this is what a text is read as.
fn reads_text(alloc: Global, text: &[u8], wanted: Option<&[u8]>) -> Result<bool, NoMemory> {
    match read_text(alloc, text)? {
        None => Ok(wanted.is_none()),
        Some(read) => Ok(wanted == Some(read.bytes())),
    }
}

/// Whether this is what a quoted text is read as.
fn reads_quoted(alloc: Global, text: &[u8], wanted: Option<&[u8]>) -> Result<bool, NoMemory> {
    match read_quoted(alloc, text)? {
        None => Ok(wanted.is_none()),
        Some(read) => Ok(wanted == Some(read.as_slice())),
    }
}

/// Whether a text is read so.
fn is_read(alloc: Global, reading: Reading) -> Result<bool, NoMemory> {
    match reading {
        Reading::Number(text, number) => Ok(read_number(text) == Some(number)),
        Reading::NoNumber(text) => Ok(read_number(text).is_none()),
        Reading::Text(text, read) => reads_text(alloc, text, Some(read)),
        Reading::NoText(text) => reads_text(alloc, text, None),
        Reading::NoQuoted(text) => reads_quoted(alloc, text, None),
        Reading::Name(name) => Ok(is_script_name(name)),
        Reading::NoName(name) => Ok(!is_script_name(name)),
    }
}

#[test]
fn texts_are_read(rt: HostRuntime) -> Result<(), Fail> {
    for (place, reading) in READINGS.iter().enumerate() {
        assert!(rt; is_read(rt.alloc(), *reading)?, "reading {place}");
    }
    Ok(())
}

/// Whether a text of 9,000 quotes is read back: a quoted text may have more than 8,192 bytes.
fn reads_quotes(alloc: Global) -> Result<bool, NoMemory> {
    let quotes = vec![in alloc; b'"'; 9000]?;
    let mut out = Vec::new(alloc);
    put_quoted(&mut out, quotes.as_slice())?;
    reads_quoted(alloc, out.as_slice(), Some(quotes.as_slice()))
}

#[test]
fn long_quoted_texts_are_read_back(rt: HostRuntime) -> Result<(), Fail> {
    assert!(rt; reads_quotes(rt.alloc())?);
    Ok(())
}
