//! Words over files and a sink that are held in memory, and what is to come of them, row by row.

ghost use Rattle.hook_table.specs.InHooks.{known_by};
ghost use Rattle.world_core.specs.Calls.{AreServing};

use crate::bases::{Base, files_of};
use crate::samples::{Sample, bytes_of, changed, repeated};
use crate::town::{AREA, TEXTS};
use hook_table::Hooks;
use nwq_outside::{MemFiles, MemSink};
use nwq_top::{Status, nwq_main};
use nwq_value::NoMemory;
use std::alloc::Global;

/// The call of the outside that fails, counted from 0, if one does.
#[derive(Clone, Copy)]
pub enum Failing {
    Nothing,
    File(u64),
    Put(u64),
}

/// What a name holds.
#[derive(Clone, Copy)]
pub enum Held<'a> {
    Nothing,
    /// Whatever it is: of what is to come.
    Something,
    Bytes(&'a [u8]),
    Of(Sample),
    /// The first so many bytes of a sample.
    First(Sample, usize),
    /// A sample with these numbers in the four bytes from these places.
    Changed(Sample, &'a [(usize, u32)]),
    /// Parts of a front, so many of a byte, and a rest.
    Repeated(&'a [&'a [u8]], u8, usize, &'a [u8]),
}

/// A name, and what it holds.
pub type Named<'a> = (&'a str, Held<'a>);

/// Words, and what is to come of them.
#[derive(Clone, Copy)]
pub struct Row<'a> {
    /// The words, parted by spaces.
    pub line: &'a str,
    /// The names that they are over.
    pub base: Base,
    /// Names beside those, or in their place.
    pub own: &'a [Named<'a>],
    /// Whether they go on over what the row before left of such names.
    pub left: bool,
    pub failing: Failing,
    pub status: Status,
    /// How often something is put, where it is asked.
    pub puts: Option<u64>,
    /// What is put.
    pub text: &'a str,
    /// Whether the text is all, or the line of an end that is done follows it.
    pub whole: bool,
    /// Names, and what they hold afterwards. Every other name holds what it held.
    pub after: &'a [Named<'a>],
}

/// No words, which are done and put nothing: a row says what is otherwise.
pub const PLAIN: Row = Row {
    line: "",
    base: Base::Nothing,
    own: &[],
    left: false,
    failing: Failing::Nothing,
    status: Status::Done,
    puts: None,
    text: "",
    whole: true,
    after: &[],
};

/// What came of words.
#[derive(Drop)]
pub struct Outcome {
    pub status: Status,
    /// What names held at first.
    pub first: MemFiles,
    pub files: MemFiles,
    pub out: MemSink,
}

/// The words of a line.
pub fn words_of(alloc: Global, line: &str) -> Result<Vec<String>, NoMemory> {
    let mut words: Vec<String> = Vec::new(alloc);
    for word in line.split_whitespace() {
        words.push(String::from_str(alloc, word)?)?;
    }
    Ok(words)
}

impl Outcome {
    /// Before anything is done.
    pub fn new(alloc: Global) -> Outcome {
        Outcome {
            status: Status::Done,
            first: MemFiles::new(alloc),
            files: MemFiles::new(alloc),
            out: MemSink::new(alloc),
        }
    }
}

/// The bytes that are held, none where that is nothing.
pub fn made(alloc: Global, held: Held) -> Result<Vec<u8>, NoMemory> {
    match held {
        Held::Nothing | Held::Something => Ok(Vec::new(alloc)),
        Held::Bytes(bytes) => Ok(Vec::from_slice(alloc, bytes)?),
        Held::Of(sample) => Ok(Vec::from_slice(alloc, bytes_of(sample))?),
        Held::First(sample, count) => {
            let first = bytes_of(sample).get(..count).unwrap_or(b"");
            Ok(Vec::from_slice(alloc, first)?)
        }
        Held::Changed(sample, changes) => changed(alloc, bytes_of(sample), changes),
        Held::Repeated(fronts, byte, count, rest) => repeated(alloc, fronts, byte, count, rest),
    }
}

fn add_bytes(name: &str, bytes: &[u8], found: &mut Outcome) -> Result<(), NoMemory> {
    found.first.add(name, bytes)?;
    found.files.add(name, bytes)
}

fn add(alloc: Global, name: &str, held: Held, found: &mut Outcome) -> Result<(), NoMemory> {
    match held {
        Held::Nothing => Ok(()),
        _ => {
            let bytes = made(alloc, held)?;
            add_bytes(name, bytes.as_slice(), found)
        }
    }
}

/// Whether a name is among others.
fn is_among(name: &str, names: &[Named]) -> bool {
    for (other, _held) in names {
        if *other == name {
            return true;
        }
    }
    false
}

/// Adds these names but those that stand among others.
fn add_all(
    alloc: Global,
    names: &[Named],
    but: &[Named],
    found: &mut Outcome,
) -> Result<(), NoMemory> {
    for (name, held) in names {
        if !is_among(name, but) {
            add(alloc, name, *held, found)?;
        }
    }
    Ok(())
}

fn add_town(found: &mut Outcome) -> Result<(), NoMemory> {
    for (name, text) in TEXTS {
        add_bytes(name, text.as_bytes(), found)?;
    }
    add_bytes("town.git", AREA, found)
}

/// Holds these names and no others.
pub fn begin(
    alloc: Global,
    base: Base,
    own: &[Named],
    found: &mut Outcome,
) -> Result<(), NoMemory> {
    found.first = MemFiles::new(alloc);
    found.files = MemFiles::new(alloc);
    match base {
        Base::Town => add_town(found)?,
        _ => add_all(alloc, files_of(base), own, found)?,
    }
    add_all(alloc, own, &[], found)
}

pub fn let_fail(failing: Failing, found: &mut Outcome) -> Result<(), NoMemory> {
    match failing {
        Failing::Nothing => Ok(()),
        Failing::File(call) => found.files.fail_at(call),
        Failing::Put(call) => found.out.fail_at(call),
    }
}

/// Does what a line says over what was begun.
pub fn carry_on(
    alloc: Global,
    line: &str,
    found: &mut Outcome,
    hooks: &Hooks,
) -> Result<(), NoMemory>
    requires hooks { AreServing (known_by hooks.now) }
{
    let words = words_of(alloc, line)?;
    found.status = nwq_main(
        alloc,
        words.as_slice(),
        &mut found.files,
        &mut found.out,
        hooks,
    );
    Ok(())
}

fn is_held(alloc: Global, found: Option<&[u8]>, held: Held) -> Result<bool, NoMemory> {
    match held {
        Held::Nothing => Ok(found.is_none()),
        Held::Something => Ok(found.is_some()),
        _ => {
            let bytes = made(alloc, held)?;
            Ok(found == Some(bytes.as_slice()))
        }
    }
}

/// Whether each of these names holds what is told of it.
fn are_held(alloc: Global, files: &MemFiles, after: &[Named]) -> Result<bool, NoMemory> {
    for (name, held) in after {
        if !is_held(alloc, files.get(name), *held)? {
            return Ok(false);
        }
    }
    Ok(true)
}

/// Whether each of these names of which nothing is told holds what it held at first.
fn are_kept(found: &Outcome, names: &[Named], after: &[Named]) -> bool {
    for (name, _held) in names {
        if !is_among(name, after) && found.files.get(name) != found.first.get(name) {
            return false;
        }
    }
    true
}

fn are_so_many(found: u64, puts: Option<u64>) -> bool {
    match puts {
        None => true,
        Some(number) => found == number,
    }
}

/// Whether a text is what a row says.
fn is_text(found: &[u8], row: &Row) -> bool {
    match found.strip_prefix(row.text.as_bytes()) {
        None => false,
        Some(rest) => {
            if row.whole {
                rest.is_empty()
            } else {
                rest.starts_with(b"end done ")
            }
        }
    }
}

/// Whether what came of words is what a row says.
fn is_as(alloc: Global, found: &Outcome, row: &Row) -> Result<bool, NoMemory> {
    let is = found.status == row.status
        && are_so_many(found.out.calls(), row.puts)
        && is_text(found.out.bytes(), row)
        && are_kept(found, files_of(row.base), row.after)
        && are_kept(found, row.own, row.after);
    if is {
        are_held(alloc, &found.files, row.after)
    } else {
        Ok(false)
    }
}

/// Whether what is to come of a row does.
pub fn comes(alloc: Global, row: &Row, found: &mut Outcome, hooks: &Hooks) -> Result<bool, NoMemory>
    requires hooks { AreServing (known_by hooks.now) }
{
    if !row.left {
        begin(alloc, row.base, row.own, found)?;
    }
    found.out = MemSink::new(alloc);
    let_fail(row.failing, found)?;
    carry_on(alloc, row.line, found, hooks)?;
    is_as(alloc, found, row)
}
