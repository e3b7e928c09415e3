ghost use Rattle.std.specs.Prelude.{◌≡◌, ◌↔◌, ◌+◌, ◌++◌, ◌≤◌, ◌<◌, ◌^◌, List, ℕ, length};
ghost use Rattle.std.specs.Prelude.{IsTrue, IfOk};
ghost use Rattle.std.specs.Option.{option_map};
ghost use Rattle.table_2da.specs.Words.{is_blank, cell_of_word, text_in, Bare};
ghost use Rattle.table_2da.specs.Words.{name_of, AreBlanks, AreUnblank, BeginsWith, EndsWord};
ghost use Rattle.table_2da.specs.Fronts.{plain, IsFront};
ghost use Rattle.table_2da.specs.Ranges.{bytes_at, cells_at, SaysFew, StandsAt};
ghost use Rattle.table_2da.specs.Steps.{behind_blanks, Found};

use crate::range::{Range, Ranges};
use nwq_text::cut;
use nwq_value::NoMemory;
use std::alloc::Global;

/// The part of a file that a line belongs to: the columns' names, or the rows.
#[derive(Clone, Copy)]
pub enum Part {
    Columns,
    Row,
}

/// A word of a line, which stands bare or between quotes.
#[derive(Clone, Copy)]
pub enum Word<'a> {
    Bare(&'a [u8]),
    Quoted(&'a [u8]),
}

/// What a line begins with behind its blanks: nothing, a quote that stays open, or a word and what
/// follows it.
#[derive(Clone, Copy)]
pub enum Front<'a> {
    Nothing,
    Open,
    Begins(Word<'a>, &'a [u8]),
}

/// What a bare word says as a cell: four stars stand for the empty one.
fn bare_cell(bytes: &[u8]) -> &[u8]
    ensures cell { result.now ≡ cell_of_word (Bare bytes.now) }
{
    if bytes == b"****".as_slice() {
        &bytes[..0]
    } else {
        bytes
    }
}

/// What a word says in this part of a file.
fn text_in<'a>(part: Part, word: Word<'a>) -> &'a [u8]
    ensures text { result.now ≡ text_in part (plain word.entry) }
{
    match word {
        Word::Quoted(bytes) => bytes,
        Word::Bare(bytes) => match part {
            Part::Columns => bytes,
            Part::Row => bare_cell(bytes),
        },
    }
}

fn is_blank(byte: u8) -> bool
    ensures blank { result ≡ is_blank byte }
{
    byte == b' ' || byte == b'\t'
}

/// What follows the blanks at the front.
#[tactic(auto, using(crate::proofs::FrontLemmas::blank_passed, crate::proofs::FrontLemmas::blank_stops, crate::proofs::FrontLemmas::blank_end))]
fn behind_blanks(line: &[u8]) -> &[u8]
    ensures rest { result.now ≡ behind_blanks line.now }
{
    let mut rest = line;
    while let Some((first, after)) = rest.split_first() {
        if !is_blank(*first) {
            return rest;
        }
        rest = after;
    }
    rest
}

/// Whether there is nothing but blanks.
pub fn are_blanks(line: &[u8]) -> bool
    ensures blanks { IsTrue result ↔ AreBlanks line.now }
{
    behind_blanks(line).is_empty()
}

/// What stands before the first blank, or all where there is none, and what follows.
#[tactic(auto, using(crate::proofs::FrontLemmas::unblank_more, crate::proofs::FrontLemmas::ends_here))]
fn bare_word(line: &[u8]) -> (&[u8], &[u8])
    ensures whole { line.now ≡ result.0.now ++ result.1.now }
    ensures word { AreUnblank result.0.now }
    ensures rest { EndsWord result.1.now }
{
    for (i, byte) in line.iter().enumerate() {
        if is_blank(*byte) {
            return line.split_at(i);
        }
    }
    (line, &line[line.len()..])
}

/// What a line begins with.
#[tactic(auto, using(crate::proofs::FrontLemmas::opens, crate::proofs::FrontLemmas::quoted_before, crate::proofs::FrontLemmas::bare_before))]
pub fn front_of(line: &[u8]) -> Front<'_>
    ensures front { IsFront line.now result }
{
    let rest = behind_blanks(line);
    match rest.split_first() {
        None => Front::Nothing,
        Some((b'"', after)) => match cut(after, b'"') {
            None => Front::Open,
            Some((word, after)) => Front::Begins(Word::Quoted(word), after),
        },
        Some(_) => {
            let (word, after) = bare_word(rest);
            Front::Begins(Word::Bare(word), after)
        }
    }
}

/// Where the word stands in the line that begins with it, with this behind it.
fn place_of(line: &[u8], word: Word<'_>, rest: &[u8]) -> usize
    requires begins { BeginsWith line.now (plain word) rest.now }
    ensures stands { StandsAt line.now result (name_of (plain word.entry)) }
    ensures inside { result + length (name_of (plain word.entry)) ≤ length line.now }
{
    match word {
        Word::Bare(bytes) => line.len() - rest.len() - bytes.len(),
        Word::Quoted(bytes) => line.len() - rest.len() - 1 - bytes.len(),
    }
}

/// Where what a word says stands in the file in which the line that begins with it stands there.
fn range_of(part: Part, place: u32, line: &[u8], word: Word<'_>, rest: &[u8]) -> Range
    requires begins { BeginsWith line.now (plain word) rest.now }
    requires fits { place + length line.now < 2 ^ 32 }
    ensures text { (file : List ℕ) → StandsAt file place line.now
        → bytes_at file result ≡ text_in part (plain word.entry) }
{
    let start = place_of(line, word, rest);
    let text = text_in(part, word);
    Range {
        start: place + start as u32,
        len: text.len() as u32,
    }
}

/// Where what the words of a line say stands in the file in which the line stands there; `None`
/// where they are more than `most`, or where a quote stays open.
pub(crate) fn ranges_of(
    alloc: Global,
    part: Part,
    place: u32,
    line: &[u8],
    most: usize,
) -> Result<Option<Ranges>, NoMemory>
    requires fits { place + length line.now < 2 ^ 32 }
    ensures said { IfOk result (λ read. (file : List ℕ) → StandsAt file place line.now
        → Found (SaysFew part most line.now) (option_map (cells_at file) read)) }
{
    let mut ranges = Ranges::new(alloc);
    let mut at = place;
    let mut rest = line;
    'words: loop {
        match front_of(rest) {
            Front::Nothing => return Ok(Some(Ranges::of_slice(alloc, ranges.as_slice())?)),
            Front::Open => return Ok(None),
            Front::Begins(word, after) => {
                if ranges.len() >= most {
                    return Ok(None);
                }
                ranges.push(range_of(part, at, rest, word, after))?;
                at += (rest.len() - after.len()) as u32;
                rest = after;
            }
        }
    }
}
