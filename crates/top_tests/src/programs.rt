//! The whole program, but for real files and streams.

ghost use Rattle.hook_table.specs.InHooks.{known_by};
ghost use Rattle.world_core.specs.Calls.{AreServing};

use command_messages::{End, LastLine, tell_end};
use hook_table::Hooks;
use nwq_outside::{MemFiles, MemSink};
use nwq_top::{Remarks, nwq_program};
use nwq_value::NoMemory;
use std::alloc::Global;
use test_rows::answers::{Outcome, begin, words_of};
use test_rows::bases::Base;

/// All words, and what comes of them.
#[derive(Clone, Copy)]
pub struct Program<'a> {
    line: &'a str,
    base: Base,
    /// Whether it goes on over what the one before left of such names.
    left: bool,
    /// The number with which it ends.
    number: u8,
    /// What it prints, where it is asked.
    text: Option<&'a str>,
    /// What it notes, where it is asked: else no more than that it does, where it fails.
    said: Option<&'a str>,
}

/// Words over the two scripts.
macro_rules! ended {
    ($line:expr, $number:expr, $text:expr) => {
        Program {
            line: $line,
            base: Base::Two,
            left: false,
            number: $number,
            text: Some($text),
            said: None,
        }
    };
}

pub const ROWS: &[Program] = &[
    ended!(
        "nwq run - p",
        0,
        "0 #0 print 5\nend done clock 0 entries 1 instructions 7\n"
    ),
    ended!("nwq run - q", 2, "refused q.nss 1 13 syntax\n"),
    ended!("nwq run - r", 6, "missing r.nss\n"),
    ended!("", 1, "refused words\n"),
    ended!("nwq", 1, "refused words\n"),
    ended!("nwq run", 1, "refused words\n"),
];

/// Words over files of which all that is noted is asked.
macro_rules! noted_of {
    ($base:expr, $line:expr, $left:expr, $said:expr) => {
        Program {
            line: $line,
            base: $base,
            left: $left,
            number: 0,
            text: None,
            said: Some($said),
        }
    };
}

/// Words over the plans.
macro_rules! noted {
    ($line:expr, $left:expr, $said:expr) => {
        noted_of!(Base::Randoms, $line, $left, $said)
    };
}

/// Words over the script that divides by 0.
macro_rules! divided {
    ($line:expr, $left:expr, $said:expr) => {
        noted_of!(Base::Divided, $line, $left, $said)
    };
}

/// What is noted of random numbers, and of entries that ended before their end, after each of these
/// commands over the same files, of which the later ones go on from states that the earlier ones
/// left.
pub const NOTED: &[Program] = &[
    noted!(
        "nwq play - a.git none.plan b.git",
        false,
        "none.plan: note: the script `r` calls `Random`, which gives 0: the play has no random \
            numbers\n"
    ),
    noted!(
        "nwq play - a.git used.plan b.git",
        true,
        "used.plan: note: the plan's random numbers, 2 in all, are used up: each further \
            `Random` gives 0\n"
    ),
    noted!("nwq play - a.git left.plan b.git", true, ""),
    noted!("nwq save - a.git used.plan 1 s.nwq", true, ""),
    noted!(
        "nwq resume s.nwq b.git",
        true,
        "s.nwq: note: the state's random numbers, 1 in all, are used up: each further `Random` \
            gives 0\n"
    ),
    noted!(
        "nwq save - a.git used.plan 2 s.nwq",
        true,
        "used.plan: note: the plan's random numbers, 2 in all, are used up: each further \
            `Random` gives 0\n"
    ),
    noted!("nwq resume s.nwq b.git", true, ""),
    divided!(
        "nwq run - d",
        false,
        "d.nss:2:14: note: a division by 0 ended the entry at 0 here, in `Half` [divide]\n    \
            return 1 / n;\n             ^\nd.nss:6:18: note: called from `main`\n"
    ),
    divided!(
        "nwq play - a.git d.plan b.git",
        true,
        "d.nss:2:14: note: a division by 0 ended the entry at 5 here, in `Half` [divide]\n    \
            return 1 / n;\n             ^\nd.nss:6:18: note: called from `main`\nd.nss:2:14: \
            note: a division by 0 ended the entry at 9 here, in `Half` [divide]\n    return 1 / \
            n;\n             ^\nd.nss:6:18: note: called from `main`\n"
    ),
    divided!(
        "nwq save - a.git d.plan 1 s.nwq",
        true,
        "d.nss:2:14: note: a division by 0 ended the entry at 5 here, in `Half` [divide]\n    \
            return 1 / n;\n             ^\nd.nss:6:18: note: called from `main`\n"
    ),
    divided!(
        "nwq resume s.nwq b.git",
        true,
        "d: note: a division by 0 ended the entry at 9 at offset 35 [divide]\n"
    ),
];

/// Whether standard error is told why the program ended, exactly where that is no success.
fn is_told(number: u8, told: &[u8]) -> bool {
    match number {
        0 => told.is_empty(),
        1 => told.starts_with(b"nwq 1.1") && told.ends_with(b"\n"),
        _ => told.ends_with(b"]\n") || told.ends_with(b"^\n"),
    }
}

/// Whether what came of a program is what is to come of it.
fn is_end(row: &Program, number: u8, text: &[u8], told: &[u8]) -> bool {
    let is_text = match row.text {
        None => true,
        Some(whole) => text == whole.as_bytes(),
    };
    let is_said = match row.said {
        None => is_told(number, told),
        Some(said) => told == said.as_bytes(),
    };
    number == row.number && is_text && is_said
}

/// The whole program over these files: the number with which it ends.
fn end_of(
    alloc: Global,
    all: &[String],
    files: &mut MemFiles,
    out: &mut LastLine<MemSink>,
    err: &mut MemSink,
    hooks: &Hooks,
) -> u8
    requires hooks { AreServing (known_by hooks.now) }
{
    let mut remarks = Remarks::none(alloc);
    let number = nwq_program(alloc, all, files, out, hooks, &mut remarks);
    let end = End {
        number,
        line: out.line(),
        trouble: None,
        random_used_up: remarks.random_used_up,
        remarks: remarks.endings.as_slice(),
        names: remarks.scripts.as_slice(),
        no_text: None,
    };
    tell_end(alloc, all, end, files, err);
    number
}

/// Whether what is to come of the program over these files does.
fn ends(alloc: Global, row: &Program, all: &[String], files: &mut MemFiles, hooks: &Hooks) -> bool
    requires hooks { AreServing (known_by hooks.now) }
{
    let mut out = LastLine::new(alloc, MemSink::new(alloc));
    let mut err = MemSink::new(alloc);
    let number = end_of(alloc, all, files, &mut out, &mut err, hooks);
    is_end(row, number, out.inner().bytes(), err.bytes())
}

/// The same over the files that it is over.
fn comes(alloc: Global, row: &Program, found: &mut Outcome, hooks: &Hooks) -> Result<bool, NoMemory>
    requires hooks { AreServing (known_by hooks.now) }
{
    if !row.left {
        begin(alloc, row.base, &[], found)?;
    }
    let all = words_of(alloc, row.line)?;
    Ok(ends(alloc, row, all.as_slice(), &mut found.files, hooks))
}

/// The place of the first row of which something else comes, if there is one.
pub fn first_program(
    alloc: Global,
    rows: &[Program],
    found: &mut Outcome,
    hooks: &Hooks,
) -> Result<Option<usize>, NoMemory>
    requires hooks { AreServing (known_by hooks.now) }
{
    for (place, row) in rows.iter().enumerate() {
        if !comes(alloc, row, found, hooks)? {
            return Ok(Some(place));
        }
    }
    Ok(None)
}
