ghost use Rattle.std.specs.Prelude.{◌≡◌, ◌≤◌, length, IfOk, IfSome, bytes_eq};
ghost use Rattle.std.specs.List.{list_all};
ghost use Rattle.nwq_value.specs.Limits.{file_limit};
ghost use Rattle.nss_lexer.specs.Bytes.{is_name_byte};
ghost use Rattle.nss_lexer.specs.Strings.{IsString};
ghost use Rattle.nss_include.specs.Names.{is_include_name};
ghost use Rattle.nss_include.specs.Steps.{IsStep, IsWithin, Behind, DirectiveGoesOn, named_step};

use nss_lexer::{Lexed, TokenKind, literal, next};
use nwq_value::{NoMemory, Text};
use std::alloc::Global;

/// How many bytes the name of an include has at most.
const NAME_BYTES: usize = 16;

/// Where a token of a unit stands.
#[derive(Clone, Copy)]
pub struct Span {
    pub kind: TokenKind,
    pub file: u16,
    pub start: u32,
    pub end: u32,
}

/// What a file goes on with at a place.
#[derive(Drop)]
pub enum Step {
    Ends,
    /// No token, blank or closed comment begins at this place.
    Breaks(u32),
    Gives(Span),
    /// The directive with its `#` at the first place names this include, and ends before the
    /// second.
    Mentions(u32, Text, u32),
    /// The directive with its `#` at this place names no include.
    Misses(u32),
}

/// What the file goes on with at this place.
#[tactic(auto, using(crate::proofs::StepLemmas::token_within))]
pub fn next_step(alloc: Global, bytes: &[u8], file: u16, at: u32) -> Result<Step, NoMemory>
    requires size { length bytes.now ≤ file_limit }
    requires place { at ≤ length bytes.now }
    ensures step { IfOk result (λ step. IsStep bytes.now file at step) }
    ensures within { IfOk result (λ step. IsWithin bytes.now file step) }
{
    match next(bytes, file, at) {
        Lexed::End => Ok(Step::Ends),
        Lexed::Bad(place) => Ok(Step::Breaks(place)),
        Lexed::Token(token) => match include_behind(bytes, file, token.text, token.end) {
            None => Ok(Step::Gives(Span {
                kind: token.kind,
                file: token.file,
                start: token.start,
                end: token.end,
            })),
            Some(end) => {
                let step = behind_include(alloc, bytes, file, token.start, end)?;
                Ok(step)
            }
        },
    }
}

/// The end of the name `include` that stands first behind a `#`.
fn include_behind(bytes: &[u8], file: u16, text: &[u8], end: u32) -> Option<u32>
    requires size { length bytes.now ≤ file_limit }
    requires place { end ≤ length bytes.now }
    ensures behind { Behind bytes.now file text.now end result }
    ensures within { IfSome result (λ last. last ≤ length bytes.now) }
{
    if !reads(text, b"#") {
        return None;
    }
    match next(bytes, file, end) {
        Lexed::Token(word) => {
            if reads(word.text, b"include") {
                Some(word.end)
            } else {
                None
            }
        }
        Lexed::End => None,
        Lexed::Bad(_) => None,
    }
}

fn reads(text: &[u8], word: &[u8]) -> bool
    ensures { result ≡ bytes_eq text.now word.now }
{
    text == word
}

/// What a directive with its `#` at `hash` goes on with behind its `include`.
#[tactic(auto, using(crate::proofs::StepLemmas::named_within))]
fn behind_include(
    alloc: Global,
    bytes: &[u8],
    file: u16,
    hash: u32,
    at: u32,
) -> Result<Step, NoMemory>
    requires size { length bytes.now ≤ file_limit }
    requires place { at ≤ length bytes.now }
    requires before { hash ≤ length bytes.now }
    ensures step { IfOk result (λ step. DirectiveGoesOn bytes.now file hash at step) }
    ensures within { IfOk result (λ step. IsWithin bytes.now file step) }
{
    match next(bytes, file, at) {
        Lexed::End => Ok(Step::Misses(hash)),
        Lexed::Bad(place) => Ok(Step::Breaks(place)),
        Lexed::Token(token) => match token.kind {
            TokenKind::Text => {
                let step = named(alloc, token.text, hash, token.end)?;
                Ok(step)
            }
            _ => Ok(Step::Misses(hash)),
        },
    }
}

/// A directive whose string this is.
fn named(alloc: Global, text: &[u8], hash: u32, end: u32) -> Result<Step, NoMemory>
    requires { IsString text.now }
    ensures { IfOk result (λ step. step ≡ named_step hash text.now end) }
{
    let name = literal(alloc, text)?;
    if is_name(name.bytes()) {
        Ok(Step::Mentions(hash, name, end))
    } else {
        Ok(Step::Misses(hash))
    }
}

/// Whether an include may have this name.
#[tactic(auto, unfolding(crate::specs::Names::is_include_name))]
fn is_name(name: &[u8]) -> bool
    ensures { result ≡ is_include_name name.now }
{
    !name.is_empty() && name.len() <= NAME_BYTES && are_word_bytes(name)
}

fn are_word_bytes(bytes: &[u8]) -> bool
    ensures { result ≡ list_all is_name_byte bytes.now }
{
    bytes.iter().all(|byte| is_word_byte(*byte))
}

fn is_word_byte(byte: u8) -> bool
    ensures { result ≡ is_name_byte byte }
{
    match byte {
        b'a'..=b'z' | b'A'..=b'Z' | b'0'..=b'9' | b'_' => true,
        _ => false,
    }
}
