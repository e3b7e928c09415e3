use nss_lexer::{Lexed, TokenKind, literal, next};
use nwq_value::{FILE_BYTES, NoMemory, Text};
use std::alloc::Global;
use std::test::Fail;

/// The first token's kind and span, or the bad place.
fn seen(bytes: &[u8]) -> (Option<TokenKind>, u32, u32) {
    if bytes.len() > FILE_BYTES {
        return (None, 0, 0);
    }
    match next(bytes, 0, 0) {
        Lexed::Token(token) => (Some(token.kind), token.start, token.end),
        Lexed::Bad(place) => (None, place, 1),
        Lexed::End => (None, 0, 0),
    }
}

#[test]
fn the_longest_token_counts(rt: HostRuntime) {
    for (text, kind, start, end) in [
        (b"0x".as_slice(), TokenKind::Int(0), 0, 1),
        (b"0XfFg", TokenKind::Int(255), 0, 4),
        (b"0x.5", TokenKind::Int(0), 0, 1),
        (b"4294967295;", TokenKind::Int(4294967295), 0, 10),
        (b"4294967296f", TokenKind::Float, 0, 11),
        (b"5f", TokenKind::Float, 0, 2),
        (b"1.f+", TokenKind::Float, 0, 3),
        (b"1..2", TokenKind::Float, 0, 2),
        (b".5f", TokenKind::Float, 0, 3),
        (b".x", TokenKind::Sign, 0, 1),
        (b">>>=1", TokenKind::Sign, 0, 4),
        (b">>>>", TokenKind::Sign, 0, 3),
        (b" \t// a\n/* b **/ /=", TokenKind::Sign, 16, 18),
        (b"while1", TokenKind::Name, 0, 6),
        (b"OBJECT_SELF.", TokenKind::Word, 0, 11),
        (b"\"\\\"//\\\\\" \"", TokenKind::Text, 0, 8),
    ] {
        assert_eq!(rt; seen(text), (Some(kind), start, end), "{start}..{end}");
    }
}

#[test]
fn nothing_begins_at_a_bad_place(rt: HostRuntime) {
    let name = [b'n'; 256];
    for (text, place) in [
        (b"\"a".as_slice(), 0),
        (b" \"a\nb\"", 1),
        (b"\"a\\\nb\"", 0),
        (b"\"\\x4g\"", 0),
        (b"4294967296", 0),
        (b"0x100000000", 0),
        (b"  /*/", 2),
        (b"@", 0),
        (name.as_slice(), 0),
    ] {
        assert_eq!(rt; seen(text), (None, place, 1), "{place}");
    }
    assert_eq!(rt; seen(b" // the end"), (None, 0, 0));
}

/// What the string at the front stands for, or the empty text.
fn value(alloc: Global, bytes: &[u8]) -> Result<Text, NoMemory> {
    if bytes.len() > FILE_BYTES {
        return Text::empty(alloc);
    }
    match next(bytes, 0, 0) {
        Lexed::Token(token) => match token.kind {
            TokenKind::Text => literal(alloc, token.text),
            _ => Text::empty(alloc),
        },
        _ => Text::empty(alloc),
    }
}

#[test]
fn a_string_stands_for_its_bytes(rt: HostRuntime) -> Result<(), Fail> {
    let text = value(rt.alloc(), b"\"a\\n\\q\\x41\\xfF\\\"\\\\\" + 1")?;
    assert!(rt; text.bytes() == b"a\nqA\xff\"\\".as_slice());
    Ok(())
}
