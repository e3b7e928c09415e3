//! Messages on a place of a source text.

ghost use Rattle.std.specs.Prelude.{◌≤◌, length, IfSome};
ghost use Rattle.std.specs.List.{AllByRecursion};
ghost use Rattle.nwq_value.specs.Limits.{file_limit, token_limit};
ghost use Rattle.nss_lexer.specs.Lexemes.{IsToken};

use crate::hints::put_no_name;
use message_sentences::{bad_sentence, end_sentence, put_sentence, put_words, same, sentence_of};
use message_tokens::{candidates, following};
use nss_lexer::{Lexed, Token, next};
use nwq_value::NoMemory;
use std::alloc::Global;

/// How many tokens are named at most that could stand at a place.
const MOST_NAMED: usize = 6;

/// A place of a source text.
#[derive(Clone, Copy)]
pub struct Spot<'a> {
    pub name: &'a [u8],
    pub bytes: &'a [u8],
    pub at: u32,
    pub cause: &'a [u8],
}

/// The token that begins at a place.
pub fn token_at(bytes: &[u8], at: u32) -> Option<Token<'_>>
    requires size { length bytes.now ≤ file_limit }
    requires place { at ≤ length bytes.now }
    ensures { IfSome result (λ token. token.end ≤ length bytes.now) }
{
    match next(bytes, 0, at) {
        Lexed::Token(token) => { if token.start == at { Some(token) } else { None } }
        _ => None,
    }
}

/// The first token from a place on.
pub(crate) fn token_from(bytes: &[u8], at: u32) -> Option<Token<'_>>
    requires size { length bytes.now ≤ file_limit }
    requires place { at ≤ length bytes.now }
{
    match next(bytes, 0, at) {
        Lexed::Token(token) => Some(token),
        _ => None,
    }
}

/// How a token is named among those that could stand at a place.
fn name_of(text: &[u8]) -> Option<&'static str> {
    if same(text, b"a") {
        Some("a name")
    } else if same(text, b"1") {
        Some("a number")
    } else if same(text, b"1.0") {
        Some("a number with a point")
    } else if same(text, b"\"\"") {
        Some("a string")
    } else {
        None
    }
}

fn put_named(out: &mut Vec<u8>, text: &[u8]) -> Result<(), NoMemory> {
    match name_of(text) {
        Some(name) => put_words(out, name),
        None => put_sentence(out, "`%`", text),
    }
}

/// Appends the tokens that could stand at a place, the first of them.
fn put_able(out: &mut Vec<u8>, able: &[Token<'_>]) -> Result<(), NoMemory> {
    for (i, token) in able.iter().enumerate() {
        if i == MOST_NAMED {
            return put_words(out, " and more");
        }
        put_words(out, if i == 0 { "; here could stand " } else { ", " })?;
        put_named(out, token.text)?;
    }
    Ok(())
}

/// Appends the tokens that could stand in place of token `at` of a unit.
pub(crate) fn put_following(
    alloc: Global,
    out: &mut Vec<u8>,
    tokens: &[Token<'_>],
    at: usize,
) -> Result<(), NoMemory>
    requires few { length tokens.now ≤ token_limit }
    requires tokens { AllByRecursion IsToken tokens.now }
    requires place { at ≤ length tokens.now }
{
    let tried = candidates(alloc)?;
    let able = following(alloc, tokens, at, tried.as_slice())?;
    put_able(out, able.as_slice())?;
    match tokens.get(at) {
        Some(token) => put_no_name(out, *token, able.as_slice()),
        None => Ok(()),
    }
}

/// Appends the sentence for a place at which a token stands.
fn put_token_sentence(out: &mut Vec<u8>, spot: Spot<'_>, token: Token<'_>) -> Result<(), NoMemory>
    requires size { length spot.bytes.now ≤ file_limit }
    requires token { token.end ≤ length spot.bytes.now }
{
    let after = token_from(spot.bytes, token.end);
    let sentence = sentence_of(spot.cause, Some(token), after);
    let piece = match after {
        Some(name) if same(token.text, b".") && same(spot.cause, b"unknown") => name.text,
        _ => token.text,
    };
    put_sentence(out, sentence, piece)
}

/// Appends the sentence for a place, by its cause and the token that stands there.
pub fn put_cause(out: &mut Vec<u8>, spot: Spot<'_>) -> Result<(), NoMemory>
    requires size { length spot.bytes.now ≤ file_limit }
    requires place { spot.at ≤ length spot.bytes.now }
{
    if same(spot.cause, b"bad") {
        let byte = spot.bytes.get(spot.at as usize).copied();
        return put_words(out, bad_sentence(byte));
    }
    match token_at(spot.bytes, spot.at) {
        Some(token) => put_token_sentence(out, spot, token),
        None => put_words(out, end_sentence(spot.cause)),
    }
}
