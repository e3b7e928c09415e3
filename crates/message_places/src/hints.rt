//! What is told beside the sentence of a refusal: the bracket that isn't closed, a word of the
//! language in place of a name, and what the header has under a name.

ghost use Rattle.std.specs.Prelude.{◌≤◌, length};
ghost use Rattle.nwq_value.specs.Limits.{file_limit};

use crate::places::{Spot, put_cause, token_at, token_from};
use message_sentences::{put_sentence, put_words, same};
use message_text::column;
use nss_lexer::{Lexed, Token, TokenKind, next};
use nwq_text::put_count;
use nwq_value::{NoMemory, Table};
use std::alloc::Global;

/// Opens or closes a bracket of those that are open.
fn note_bracket(open: &mut Vec<u32>, token: Token<'_>) -> Result<(), NoMemory> {
    if same(token.text, b"(") || same(token.text, b"{") {
        open.push(token.start)?;
    } else if same(token.text, b")") || same(token.text, b"}") {
        open.pop();
    }
    Ok(())
}

/// Where the last bracket of a text begins that nothing closes.
fn open_bracket(alloc: Global, bytes: &[u8]) -> Result<Option<u32>, NoMemory>
    requires size { length bytes.now ≤ file_limit }
{
    let mut open = Vec::new(alloc);
    let mut place = 0u32;
    for _turn in 0..bytes.len() {
        match next(bytes, 0, place) {
            Lexed::Token(token) => {
                place = token.end;
                note_bracket(&mut open, token)?;
            }
            _ => return Ok(open.pop()),
        }
    }
    Ok(open.pop())
}

/// The number of the line of a place, counted from 1.
fn line_number(bytes: &[u8], at: usize) -> u64 {
    let mut line = 1u64;
    for byte in bytes.iter().take(at) {
        if *byte == b'\n' {
            line = line.saturating_add(1);
        }
    }
    line
}

/// Appends, at the end of a text, which bracket isn't closed.
fn put_open(out: &mut Vec<u8>, bytes: &[u8], at: usize) -> Result<(), NoMemory> {
    if at >= bytes.len() {
        return Ok(());
    }
    put_sentence(out, ": the `%` of line ", &bytes[at..at + 1])?;
    put_count(out, line_number(bytes, at))?;
    put_words(out, ", column ")?;
    put_count(out, column(bytes, at))?;
    put_words(out, ", isn't closed")
}

/// Appends the sentence for a place of a text, and at its end which bracket isn't closed.
pub fn put_cause_open(alloc: Global, out: &mut Vec<u8>, spot: Spot<'_>) -> Result<(), NoMemory>
    requires size { length spot.bytes.now ≤ file_limit }
    requires place { spot.at ≤ length spot.bytes.now }
{
    put_cause(out, spot)?;
    if !same(spot.cause, b"syntax") || token_from(spot.bytes, spot.at).is_some() {
        return Ok(());
    }
    match open_bracket(alloc, spot.bytes)? {
        Some(at) => put_open(out, spot.bytes, at as usize),
        None => Ok(()),
    }
}

/// Appends, where a name alone could stand, that a word of the language stands there.
pub(crate) fn put_no_name(
    out: &mut Vec<u8>,
    token: Token<'_>,
    able: &[Token<'_>],
) -> Result<(), NoMemory> {
    match able {
        [only] if matches!(only.kind, TokenKind::Name) && matches!(token.kind, TokenKind::Word) => {
            put_sentence(out, "; `%` is a word of the language", token.text)
        }
        _ => Ok(()),
    }
}

/// Whether a place of a text lies in no bracket.
fn is_outer(alloc: Global, bytes: &[u8], at: u32) -> Result<bool, NoMemory>
    requires size { length bytes.now ≤ file_limit }
    requires place { at ≤ length bytes.now }
{
    let open = open_bracket(alloc, &bytes[..at as usize])?;
    Ok(open.is_none())
}

/// What the header has under a name, in a sentence.
fn header_sentence(table: &Table, name: &[u8]) -> Option<&'static str> {
    if table.by_name(name).is_some() {
        Some("`%` is a routine of the header, and can't be declared again")
    } else if table.constant(name).is_some() {
        Some("`%` is a constant of the header, and can't be declared again")
    } else {
        None
    }
}

/// The sentence for a name that the header has, where it is declared again outside of functions, or
/// is that of a routine which isn't called.
fn sentence_by_header(
    alloc: Global,
    spot: Spot<'_>,
    token: Token<'_>,
    table: &Table,
) -> Result<Option<&'static str>, NoMemory>
    requires size { length spot.bytes.now ≤ file_limit }
    requires place { spot.at ≤ length spot.bytes.now }
    requires token { token.end ≤ length spot.bytes.now }
{
    if same(spot.cause, b"redeclared") && is_outer(alloc, spot.bytes, spot.at)? {
        return Ok(header_sentence(table, token.text));
    }
    if !same(spot.cause, b"unknown") || table.by_name(token.text).is_none() {
        return Ok(None);
    }
    match token_from(spot.bytes, token.end) {
        Some(after) if same(after.text, b"(") => Ok(None),
        _ => Ok(Some(
            "`%` is a routine of the header, and no value: its arguments in brackets are \
                missing",
        )),
    }
}

/// Appends the sentence for a place by the token there, or by what the header has under its name.
pub fn put_by_token(
    alloc: Global,
    out: &mut Vec<u8>,
    spot: Spot<'_>,
    table: Option<&Table>,
) -> Result<(), NoMemory>
    requires size { length spot.bytes.now ≤ file_limit }
    requires place { spot.at ≤ length spot.bytes.now }
{
    let (Some(token), Some(table)) = (token_at(spot.bytes, spot.at), table) else {
        return put_cause(out, spot);
    };
    match sentence_by_header(alloc, spot, token, table)? {
        Some(sentence) => put_sentence(out, sentence, token.text),
        None => put_cause(out, spot),
    }
}
