//! What the last line on standard output tells of a refusal.

ghost use Rattle.std.specs.Prelude.{◌≡◌, ◌<◌, ◌⊎◌, bytes_eq, length, slice_index, IfOk};
ghost use Rattle.std.specs.Option.{option_map};
ghost use Rattle.nwq_text.specs.Number.{number_of};
ghost use Rattle.message_sentences.specs.Told as spec;
ghost use Rattle.message_sentences.specs.Told.{fitting, last_cut_at, or_nothing};
ghost use Rattle.message_sentences.specs.Told.{place_told, plain};
ghost use Rattle.message_sentences.specs.Told.{IsTold, IsToldBy, TellsFlaw};

use command_work::Status;
use nwq_text::{cut, put_text, read_number};
use nwq_value::NoMemory;
use std::alloc::Global;

/// What a line of refusal tells. Names are escaped as they stand there.
#[derive(Clone, Copy)]
pub enum Told<'a> {
    Nothing,
    /// A file isn't there.
    Missing(&'a [u8]),
    /// A file is too long.
    Long(&'a [u8]),
    /// A source text is refused at an offset.
    Place {
        name: &'a [u8],
        at: u32,
        cause: &'a [u8],
    },
    /// Another file is refused.
    Flaw {
        name: &'a [u8],
        flaw: &'a [u8],
    },
}

/// The words that begin what is said of a file that is no source text.
const FLAWS: [&[u8]; 16] = [
    b"short",
    b"version",
    b"section",
    b"range",
    b"type",
    b"shared",
    b"deep",
    b"label",
    b"line",
    b"shape",
    b"large",
    b"magic",
    b"length",
    b"unstacked",
    b"state",
    b"unfit",
];

pub fn same(a: &[u8], b: &[u8]) -> bool
    ensures same { result ≡ bytes_eq a.now b.now }
{
    a == b
}

/// The first word of a text.
pub fn first_word(text: &[u8]) -> &[u8] {
    match cut(text, b' ') {
        Some((word, _rest)) => word,
        None => text,
    }
}

/// What follows the first word of a text.
pub fn second_word(text: &[u8]) -> &[u8] {
    match cut(text, b' ') {
        Some((_word, rest)) => rest,
        None => b"",
    }
}

/// What stands before the last blank of a text, and behind it.
#[tactic(auto, using(crate::proofs::ToldLemmas::cut_here, crate::proofs::ToldLemmas::none_behind, crate::proofs::ToldLemmas::cut_more))]
fn last_cut(text: &[u8]) -> Option<(&[u8], &[u8])>
    ensures cut { option_map (λ p. (p.0.now, p.1.now)) result ≡ last_cut_at 32 text.now }
{
    let mut at = text.len();
    while at > 0 {
        at -= 1;
        if text[at] == b' ' {
            return Some((&text[..at], &text[at + 1..]));
        }
    }
    None
}

fn begins_flaw(text: &[u8]) -> bool {
    let word = first_word(text);
    let is_offset = read_number(word).is_some();
    is_offset || same(word, b"target") || FLAWS.iter().any(|flaw| *flaw == word)
}

/// How long the name is with which a text begins, if it is this one and a flaw follows.
#[tactic(auto, using(crate::proofs::ToldLemmas::ends_here, crate::proofs::ToldLemmas::ends_nowhere))]
fn length_named(alloc: Global, text: &[u8], name: &str) -> Result<usize, NoMemory>
    ensures { IfOk result (spec.EndsName text.now) }
{
    let mut escaped = Vec::new(alloc);
    put_text(&mut escaped, name.as_bytes())?;
    let len = escaped.len();
    if text.len() > len
        && &text[..len] == escaped.as_slice()
        && text[len] == b' '
        && begins_flaw(&text[len + 1..])
    {
        Ok(len)
    } else {
        Ok(0)
    }
}

/// The length of the longest of these names with which a text begins, 0 if there is none.
#[tactic(auto, using(crate::proofs::ToldLemmas::ends_nowhere))]
fn longest_named(alloc: Global, text: &[u8], names: &[String]) -> Result<usize, NoMemory>
    ensures { IfOk result (spec.EndsName text.now) }
{
    let mut longest = 0;
    for name in names {
        let len = length_named(alloc, text, name.as_str())?;
        if len > longest {
            longest = len;
        }
    }
    Ok(longest)
}

/// What a line tells of a file that is no source text, whose name is one of the command's words, or
/// else goes as far as the first word of a flaw.
#[tactic(auto, using(crate::proofs::ToldLemmas::flaw_named))]
fn flaw_told<'a>(alloc: Global, text: &'a [u8], names: &[String]) -> Result<Told<'a>, NoMemory>
    ensures tells { IfOk result (λ told. TellsFlaw text.now (plain told)) }
{
    let len = longest_named(alloc, text, names)?;
    if len == 0 || len >= text.len() {
        return Ok(flaw_in(text));
    }
    Ok(Told::Flaw {
        name: &text[..len],
        flaw: &text[len + 1..],
    })
}

/// What a line tells of a file that is no source text: its name goes as far as the first word of a
/// flaw.
#[tactic(auto, using(crate::proofs::ToldLemmas::flaw_is))]
fn flaw_in(text: &[u8]) -> Told<'_>
    ensures tells { TellsFlaw text.now (plain result) }
{
    for (i, byte) in text.iter().enumerate() {
        if *byte == b' ' && begins_flaw(&text[i + 1..]) {
            return Told::Flaw {
                name: &text[..i],
                flaw: &text[i + 1..],
            };
        }
    }
    Told::Nothing
}

#[tactic(auto, using(crate::proofs::ToldLemmas::no_offset_read, crate::proofs::ToldLemmas::offset_read, crate::proofs::ToldLemmas::offset_over))]
fn offset_in(digits: &[u8]) -> Option<u32>
    ensures { result ≡ fitting (number_of digits.now) }
{
    match read_number(digits) {
        None => None,
        Some(at) => {
            if at <= u64::from(u32::MAX) {
                Some(at as u32)
            } else {
                None
            }
        }
    }
}

/// What a line tells of a source text.
#[tactic(auto, using(crate::proofs::ToldLemmas::no_cause, crate::proofs::ToldLemmas::no_offset, crate::proofs::ToldLemmas::no_name, crate::proofs::ToldLemmas::no_place, crate::proofs::ToldLemmas::place_is))]
fn place_in(text: &[u8]) -> Option<Told<'_>>
    ensures place { option_map plain result ≡ place_told text.now }
{
    let (front, cause) = last_cut(text)?;
    let (front, digits) = last_cut(front)?;
    let (name, _line) = last_cut(front)?;
    let at = offset_in(digits)?;
    Some(Told::Place { name, at, cause })
}

/// What a line tells of a source text, or nothing.
#[tactic(auto, using(crate::proofs::ToldLemmas::nothing_told, crate::proofs::ToldLemmas::some_told))]
fn script_told(text: &[u8]) -> Told<'_>
    ensures { plain result ≡ or_nothing (place_told text.now) }
{
    match place_in(text) {
        None => Told::Nothing,
        Some(told) => told,
    }
}

/// A line without its newline.
#[tactic(auto, using(crate::proofs::ToldLemmas::ended, crate::proofs::ToldLemmas::unended, crate::proofs::ToldLemmas::empty_line))]
fn without_newline(line: &[u8]) -> &[u8]
    ensures { result.now ≡ spec.without_newline line.now }
{
    match line.split_last() {
        None => line,
        Some((last, before)) => { if *last == b'\n' { before } else { line } }
    }
}

/// What follows the first word of a line tells, where a command ended with this status.
#[tactic(auto, using(crate::proofs::ToldLemmas::told_done, crate::proofs::ToldLemmas::told_words, crate::proofs::ToldLemmas::told_limit, crate::proofs::ToldLemmas::told_fault, crate::proofs::ToldLemmas::told_memory, crate::proofs::ToldLemmas::told_missing, crate::proofs::ToldLemmas::told_long, crate::proofs::ToldLemmas::told_script, crate::proofs::ToldLemmas::told_code, crate::proofs::ToldLemmas::told_area))]
fn told_in<'a>(
    alloc: Global,
    words: &[String],
    status: Status,
    rest: &'a [u8],
) -> Result<Told<'a>, NoMemory>
    ensures told { IfOk result (λ told. IsTold status rest.now (plain told)) }
{
    match status {
        Status::Missing => Ok(Told::Missing(rest)),
        Status::Long => Ok(Told::Long(rest)),
        Status::Script => Ok(script_told(rest)),
        Status::Code => flaw_told(alloc, rest, words),
        Status::Area => flaw_told(alloc, rest, words),
        Status::Done => Ok(Told::Nothing),
        Status::Words => Ok(Told::Nothing),
        Status::Limit => Ok(Told::Nothing),
        Status::Fault => Ok(Told::Nothing),
        Status::Memory => Ok(Told::Nothing),
    }
}

/// What the last line tells where a command with these words ended with this status.
#[tactic(auto, using(crate::proofs::ToldLemmas::told_none, crate::proofs::ToldLemmas::told_some))]
pub fn told_by<'a>(
    alloc: Global,
    words: &[String],
    status: Status,
    line: &'a [u8],
) -> Result<Told<'a>, NoMemory>
    ensures told { IfOk result (λ told. IsToldBy status line.now (plain told)) }
{
    let text = without_newline(line);
    match cut(text, b' ') {
        None => Ok(Told::Nothing),
        Some((_word, rest)) => told_in(alloc, words, status, rest),
    }
}
