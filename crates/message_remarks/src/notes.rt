//! The notes on where entries ended.

ghost use Rattle.std.specs.Prelude.{◌≡◌};

use crate::callers::{Caller, Tally, before, callers_of, most_called};
use crate::codes::{Code, Play, codes_of};
use crate::offsets::{DEFERRING, FIRST, call_before, routine_around, routine_of};
use crate::there::{Saying, put_there};
use crate::words::{put_ending, put_kind, put_most, put_offset, put_times, put_values};
use message_sentences::{put_name, put_note, put_plain, put_words};
use nwq_outside::Files;
use nwq_value::NoMemory;
use play_remarks::{Ending, Remark, Spot};
use run_places::Compiled;
use std::alloc::Global;

/// How many entries are noted at most.
const MOST_NOTES: usize = 16;

/// How many places are told at most from which calls were made.
const MOST_CALLERS: usize = 16;

/// A remark, and the code and the calls that it speaks of.
#[derive(Clone, Copy)]
struct Subject<'a> {
    play: Play<'a>,
    codes: &'a [Code],
    remark: &'a Remark,
    callers: &'a [Caller],
}

/// Whether an entry began as a deferred action.
fn is_deferred(remark: &Remark) -> bool {
    remark.begun.place > FIRST
}

/// Appends the name of a script's file.
fn put_file(out: &mut Vec<u8>, play: Play<'_>, script: u32, ending: &str) -> Result<(), NoMemory> {
    match play.names.get(script as usize) {
        Some(name) => put_name(out, name.bytes())?,
        None => put_name(out, play.name)?,
    }
    put_words(out, ending)
}

/// The function of which most calls are under way, where the limit was met.
fn most_of<'a>(alloc: Global, subject: Subject<'a>) -> Result<Option<Tally<'a>>, NoMemory> {
    match subject.remark.ending {
        Ending::Divide => Ok(None),
        Ending::Limit => most_called(alloc, subject.codes, subject.remark, subject.callers),
    }
}

/// Appends the note on the place of a source at which an entry ended. Whether the place is found.
fn put_in_source(
    alloc: Global,
    out: &mut Vec<u8>,
    subject: Subject<'_>,
    script: &Compiled,
) -> Result<bool, NoMemory> {
    let remark = subject.remark;
    let mut before = Vec::new(alloc);
    put_ending(&mut before, remark.ending, remark.time)?;
    put_words(&mut before, " here, in ")?;
    let mut behind = Vec::new(alloc);
    put_most(&mut behind, most_of(alloc, subject)?)?;
    put_kind(&mut behind, remark.ending)?;
    let saying = Saying {
        at: remark.at.place,
        before: before.as_slice(),
        in_action: is_deferred(remark) && remark.returns.as_slice().is_empty(),
        behind: behind.as_slice(),
        shows_line: true,
    };
    put_there(alloc, out, script, saying)
}

/// Appends the note on the offset at which an entry ended, in a binary with that of the routine.
fn put_by_offset(
    out: &mut Vec<u8>,
    subject: Subject<'_>,
    bytes: Option<&[u8]>,
) -> Result<(), NoMemory> {
    let remark = subject.remark;
    let ending = if bytes.is_some() {
        ".ncs: note: "
    } else {
        ": note: "
    };
    put_file(out, subject.play, remark.at.script, ending)?;
    put_ending(out, remark.ending, remark.time)?;
    put_offset(out, " at offset ", remark.at.place)?;
    if let Some(bytes) = bytes {
        put_offset(
            out,
            ", in the routine at offset ",
            routine_of(bytes, remark),
        )?;
    }
    put_kind(out, remark.ending)?;
    put_words(out, "\n")
}

/// Appends the note on where an entry ended.
fn put_ended(alloc: Global, out: &mut Vec<u8>, subject: Subject<'_>) -> Result<(), NoMemory> {
    match subject.codes.get(subject.remark.at.script as usize) {
        Some(Code::Source(script)) => {
            if put_in_source(alloc, out, subject, script)? {
                return Ok(());
            }
            put_by_offset(out, subject, None)
        }
        Some(Code::Binary(bytes)) => put_by_offset(out, subject, Some(bytes.as_slice())),
        _ => put_by_offset(out, subject, None),
    }
}

/// Appends from which place of a source calls were made. The start of a script is none.
fn put_caller_in_source(
    alloc: Global,
    out: &mut Vec<u8>,
    subject: Subject<'_>,
    caller: Caller,
    script: &Compiled,
) -> Result<(), NoMemory> {
    let mut behind = Vec::new(alloc);
    put_times(&mut behind, caller.count)?;
    let saying = Saying {
        at: before(caller.behind).place,
        before: b"called from ",
        in_action: is_deferred(subject.remark) && caller.outer.is_none(),
        behind: behind.as_slice(),
        shows_line: false,
    };
    let _told = put_there(alloc, out, script, saying)?;
    Ok(())
}

/// Appends from which offset of a binary calls were made.
fn put_caller_in_binary(
    out: &mut Vec<u8>,
    subject: Subject<'_>,
    caller: Caller,
    bytes: &[u8],
) -> Result<(), NoMemory> {
    let routine = routine_around(bytes, caller, subject.remark.begun);
    put_file(out, subject.play, caller.behind.script, ".ncs: note: ")?;
    put_offset(
        out,
        "called from offset ",
        call_before(bytes, caller.behind.place),
    )?;
    put_offset(out, ", in the routine at offset ", routine)?;
    put_times(out, caller.count)?;
    put_words(out, "\n")
}

fn put_caller(
    alloc: Global,
    out: &mut Vec<u8>,
    subject: Subject<'_>,
    caller: Caller,
) -> Result<(), NoMemory> {
    match subject.codes.get(caller.behind.script as usize) {
        Some(Code::Source(script)) => put_caller_in_source(alloc, out, subject, caller, script),
        Some(Code::Binary(bytes)) => put_caller_in_binary(out, subject, caller, bytes.as_slice()),
        _ => Ok(()),
    }
}

/// Appends from where calls were made that are under way.
fn put_callers(alloc: Global, out: &mut Vec<u8>, subject: Subject<'_>) -> Result<(), NoMemory> {
    for (i, caller) in subject.callers.iter().enumerate() {
        if i == MOST_CALLERS {
            return put_note(
                out,
                subject.play.name,
                "calls of further places are under way",
                b"",
            );
        }
        put_caller(alloc, out, subject, *caller)?;
    }
    Ok(())
}

/// Appends where in a source an action was deferred. Whether that is found.
fn put_deferred_in_source(
    alloc: Global,
    out: &mut Vec<u8>,
    script: &Compiled,
    at: u32,
    values: &[u8],
) -> Result<bool, NoMemory> {
    let saying = Saying {
        at,
        before: b"the action was deferred here, in ",
        in_action: false,
        behind: values,
        shows_line: false,
    };
    put_there(alloc, out, script, saying)
}

/// Appends at which offset of a script an action was deferred.
fn put_deferred_by_offset(
    out: &mut Vec<u8>,
    subject: Subject<'_>,
    at: Spot,
    ending: &str,
    values: &[u8],
) -> Result<(), NoMemory> {
    put_file(out, subject.play, at.script, ending)?;
    put_offset(out, "the action was deferred at offset ", at.place)?;
    put_plain(out, values)?;
    put_words(out, "\n")
}

/// Appends where an action was deferred, and what it captured.
fn put_deferring(
    alloc: Global,
    out: &mut Vec<u8>,
    subject: Subject<'_>,
    at: Spot,
    values: &[u8],
) -> Result<(), NoMemory> {
    match subject.codes.get(at.script as usize) {
        Some(Code::Source(script)) => {
            if put_deferred_in_source(alloc, out, script, at.place, values)? {
                return Ok(());
            }
            put_deferred_by_offset(out, subject, at, ": note: ", values)
        }
        Some(Code::Binary(_)) => put_deferred_by_offset(out, subject, at, ".ncs: note: ", values),
        _ => put_deferred_by_offset(out, subject, at, ": note: ", values),
    }
}

/// Appends where an entry that was deferred was deferred, and what it captured.
fn put_deferred(alloc: Global, out: &mut Vec<u8>, subject: Subject<'_>) -> Result<(), NoMemory> {
    let remark = subject.remark;
    if !is_deferred(remark) {
        return Ok(());
    }
    let at = Spot {
        script: remark.begun.script,
        place: remark.begun.place.saturating_sub(DEFERRING),
    };
    let mut values = Vec::new(alloc);
    put_values(&mut values, remark.values.as_slice())?;
    put_deferring(alloc, out, subject, at, values.as_slice())
}

/// Appends the notes on one entry.
fn put_remark(
    alloc: Global,
    out: &mut Vec<u8>,
    play: Play<'_>,
    codes: &[Code],
    remark: &Remark,
) -> Result<(), NoMemory> {
    let callers = callers_of(alloc, remark.returns.as_slice())?;
    let subject = Subject {
        play,
        codes,
        remark,
        callers: callers.as_slice(),
    };
    put_ended(alloc, out, subject)?;
    put_callers(alloc, out, subject)?;
    put_deferred(alloc, out, subject)
}

/// Appends the notes on entries, and that there are more.
fn put_all(
    alloc: Global,
    out: &mut Vec<u8>,
    play: Play<'_>,
    codes: &[Code],
) -> Result<(), NoMemory> {
    for (i, remark) in play.remarks.iter().enumerate() {
        if i == MOST_NOTES {
            return put_note(
                out,
                play.name,
                "further entries ended before their end",
                b"",
            );
        }
        put_remark(alloc, out, play, codes, remark)?;
    }
    Ok(())
}

/// Appends the notes on where entries of a play ended before their end.
pub fn put_remarks<F: Files>(
    alloc: Global,
    out: &mut Vec<u8>,
    play: Play<'_>,
    files: &mut F,
) -> Result<(), NoMemory>
    ensures same { F.contents files.new ≡ F.contents files.old }
{
    if play.remarks.is_empty() {
        return Ok(());
    }
    let codes = codes_of(alloc, play, files)?;
    put_all(alloc, out, play, codes.as_slice())
}
