//! Notes on a command that did its work.

ghost use Rattle.std.specs.Prelude.{◌≡◌, ◌≤◌, length};
ghost use Rattle.nwq_value.specs.Limits.{file_limit};

use crate::inputs::{Inputs, inputs_of};
use crate::overwritten::put_overwritten;
use crate::scripts::{binaries_of, names_of, scripts_of};
use crate::tell::End;
use command_words::Command;
use message_notes::{Input, put_play_notes};
use message_places::{read_named, table_of};
use message_remarks::{Play, put_remarks};
use message_sentences::{put_note, same};
use nss_include::{Unit, gather};
use nss_lexer::Token;
use nwq_outside::Files;
use nwq_text::put_count;
use nwq_value::{NoMemory, Role, Table, Text};
use plan_text::{Plan, read_plan};
use state_format::read_parts;
use std::alloc::Global;

/// The number of `Random` among the engine's own routines.
const RANDOM: u16 = 0;

const PLAN_USED_UP: &str =
    "the plan's random numbers, % in all, are used up: each further `Random` gives 0";

const STATE_USED_UP: &str =
    "the state's random numbers, % in all, are used up: each further `Random` gives 0";

/// Whether tokens call `Random`.
fn calls_random(tokens: &[Token<'_>]) -> bool {
    for (i, token) in tokens.iter().enumerate() {
        if same(token.text, b"Random") && calls_here(&tokens[i..]) {
            return true;
        }
    }
    false
}

/// Whether a bracket follows the first of these tokens.
fn calls_here(tokens: &[Token<'_>]) -> bool {
    match tokens {
        [_name, open, ..] => same(open.text, b"("),
        _ => false,
    }
}

fn unit_calls_random(alloc: Global, unit: &Unit) -> Result<bool, NoMemory> {
    let tokens = unit.tokens(alloc)?;
    Ok(calls_random(tokens.as_slice()))
}

/// Whether the unit of a script calls `Random`.
fn script_calls_random<F: Files>(
    alloc: Global,
    script: &Text,
    files: &mut F,
) -> Result<bool, NoMemory>
    ensures same { F.contents files.new ≡ F.contents files.old }
{
    let name = String::from_utf8_lossy(alloc, script.bytes())?;
    match gather(alloc, files, name.as_str()) {
        Err(fault) => {
            drop(fault);
            Ok(false)
        }
        Ok(unit) => unit_calls_random(alloc, &unit),
    }
}

/// The first of these scripts whose unit calls `Random`.
fn caller<'a, F: Files>(
    alloc: Global,
    scripts: &'a [Text],
    files: &mut F,
) -> Result<Option<&'a Text>, NoMemory>
    ensures same { F.contents files.new ≡ F.contents files.old }
{
    for script in scripts {
        if script_calls_random(alloc, script, files)? {
            return Ok(Some(script));
        }
    }
    Ok(None)
}

/// Whether `Random` is the engine's own in this table.
fn is_engines(table: &Table) -> bool {
    match table.by_name(b"Random") {
        None => false,
        Some(number) => match table.routine(number) {
            Some(routine) => matches!(routine.role, Role::Built(RANDOM)),
            None => false,
        },
    }
}

/// Whether `Random` is the engine's own under the header of a command.
fn has_random<F: Files>(alloc: Global, inputs: Inputs<'_>, files: &mut F) -> bool
    ensures same { F.contents files.new ≡ F.contents files.old }
{
    let Some(header) = inputs.header else {
        return false;
    };
    match table_of(alloc, header, files) {
        Some(table) => is_engines(&table),
        None => false,
    }
}

/// Appends a note where one of these scripts calls `Random` in a play that has no random numbers.
fn put_random_note<F: Files>(
    alloc: Global,
    out: &mut Vec<u8>,
    inputs: Inputs<'_>,
    scripts: &[Text],
    name: &[u8],
    files: &mut F,
) -> Result<(), NoMemory>
    ensures same { F.contents files.new ≡ F.contents files.old }
{
    let Some(script) = caller(alloc, scripts, files)? else {
        return Ok(());
    };
    if !has_random(alloc, inputs, files) {
        return Ok(());
    }
    put_note(
        out,
        name,
        "the script `%` calls `Random`, which gives 0: the play has no random numbers",
        script.bytes(),
    )
}

/// How many random numbers a state has, if there is one in the file of this name.
fn held_by<F: Files>(alloc: Global, name: &str, files: &mut F) -> Option<usize>
    ensures same { F.contents files.new ≡ F.contents files.old }
{
    let bytes = read_named(alloc, name, files)?;
    match read_parts(alloc, bytes.as_slice()) {
        Ok(parts) => {
            let count = parts.random.len();
            drop(parts);
            Some(count)
        }
        Err(_) => None,
    }
}

/// Appends a note on random numbers that are used up, of which there were so many.
fn put_used_up(
    alloc: Global,
    out: &mut Vec<u8>,
    name: &[u8],
    sentence: &str,
    count: usize,
) -> Result<(), NoMemory> {
    let mut digits = Vec::new(alloc);
    put_count(&mut digits, count as u64)?;
    put_note(out, name, sentence, digits.as_slice())
}

/// Whether the play of a plan, or the part of it that was saved, has left no random numbers. A
/// state that was written tells it; none is where a limit stopped an entry.
fn used_up<F: Files>(alloc: Global, inputs: Inputs<'_>, end: End<'_>, files: &mut F) -> bool
    ensures same { F.contents files.new ≡ F.contents files.old }
{
    match inputs.state {
        None => end.random_used_up,
        Some(state) if end.number == 0 => matches!(held_by(alloc, state, files), Some(0)),
        Some(_) => false,
    }
}

/// Appends a note where the play of a plan had no random numbers, or has used them up.
fn put_numbers_note<F: Files>(
    alloc: Global,
    out: &mut Vec<u8>,
    inputs: Inputs<'_>,
    end: End<'_>,
    plan: &Plan,
    name: &[u8],
    files: &mut F,
) -> Result<(), NoMemory>
    ensures same { F.contents files.new ≡ F.contents files.old }
{
    let given = plan.random.len();
    if given == 0 {
        let scripts = names_of(alloc, plan)?;
        return put_random_note(alloc, out, inputs, scripts.as_slice(), name, files);
    }
    if used_up(alloc, inputs, end, files) {
        put_used_up(alloc, out, name, PLAN_USED_UP, given)
    } else {
        Ok(())
    }
}

/// Appends the notes on the play of a plan over an area.
fn put_plan_notes<F: Files>(
    alloc: Global,
    out: &mut Vec<u8>,
    inputs: Inputs<'_>,
    end: End<'_>,
    area: &str,
    plan: &str,
    files: &mut F,
) -> Result<(), NoMemory>
    ensures same { F.contents files.new ≡ F.contents files.old }
{
    let (Some(area_bytes), Some(plan_bytes)) = (
        read_named(alloc, area, files),
        read_named(alloc, plan, files),
    ) else {
        return Ok(());
    };
    let Ok(read) = read_plan(alloc, plan_bytes.as_slice()) else {
        return Ok(());
    };
    let area_input = Input {
        name: area.as_bytes(),
        bytes: area_bytes.as_slice(),
    };
    let plan_input = Input {
        name: plan.as_bytes(),
        bytes: plan_bytes.as_slice(),
    };
    put_play_notes(alloc, out, plan_input, &read, area_input)?;
    put_numbers_note(alloc, out, inputs, end, &read, plan.as_bytes(), files)
}

/// Appends the notes on the rest of a play, which began with the random numbers of a state.
fn put_rest_notes<F: Files>(
    alloc: Global,
    out: &mut Vec<u8>,
    end: End<'_>,
    state: &str,
    files: &mut F,
) -> Result<(), NoMemory>
    ensures same { F.contents files.new ≡ F.contents files.old }
{
    if !end.random_used_up {
        return Ok(());
    }
    match held_by(alloc, state, files) {
        None | Some(0) => Ok(()),
        Some(held) => put_used_up(alloc, out, state.as_bytes(), STATE_USED_UP, held),
    }
}

/// Appends the notes on the play of one script.
fn put_run_notes<F: Files>(
    alloc: Global,
    out: &mut Vec<u8>,
    inputs: Inputs<'_>,
    script: &str,
    files: &mut F,
) -> Result<(), NoMemory>
    ensures same { F.contents files.new ≡ F.contents files.old }
{
    let mut name = Vec::from_slice(alloc, script.as_bytes())?;
    name.extend_from_slice(b".nss")?;
    let scripts = scripts_of(alloc, inputs, files)?;
    put_random_note(
        alloc,
        out,
        inputs,
        scripts.as_slice(),
        name.as_slice(),
        files,
    )
}

/// Appends the notes on a command that played what it reads.
fn put_played<F: Files>(
    alloc: Global,
    out: &mut Vec<u8>,
    inputs: Inputs<'_>,
    end: End<'_>,
    files: &mut F,
) -> Result<(), NoMemory>
    ensures same { F.contents files.new ≡ F.contents files.old }
{
    if let Some(script) = inputs.script {
        put_run_notes(alloc, out, inputs, script, files)?;
    }
    match (inputs.area, inputs.plan, inputs.state) {
        (Some(area), Some(plan), _) => put_plan_notes(alloc, out, inputs, end, area, plan, files),
        (_, _, Some(state)) => put_rest_notes(alloc, out, end, state, files),
        _ => Ok(()),
    }
}

/// The table of a command's header, if it has one.
fn table_in<F: Files>(alloc: Global, inputs: Inputs<'_>, files: &mut F) -> Option<Table>
    ensures same { F.contents files.new ≡ F.contents files.old }
{
    table_of(alloc, inputs.header?, files)
}

/// The word that names what a command plays.
fn played_by<'a>(inputs: Inputs<'a>) -> &'a [u8] {
    match (inputs.plan, inputs.state, inputs.script) {
        (Some(plan), _, _) => plan.as_bytes(),
        (None, Some(state), _) => state.as_bytes(),
        (None, None, Some(script)) => script.as_bytes(),
        (None, None, None) => b"",
    }
}

/// Appends the notes on entries that ended before their end, by the table and the binaries that
/// were read.
fn put_endings<'a, F: Files>(
    alloc: Global,
    out: &mut Vec<u8>,
    name: &'a [u8],
    table: Option<&'a Table>,
    binaries: &'a [Text],
    end: End<'a>,
    files: &mut F,
) -> Result<(), NoMemory>
    ensures same { F.contents files.new ≡ F.contents files.old }
{
    let play = Play {
        name,
        table,
        names: end.names,
        binaries,
        remarks: end.remarks,
    };
    put_remarks(alloc, out, play, files)
}

/// Appends the notes on entries that ended before their end.
fn put_ended<F: Files>(
    alloc: Global,
    out: &mut Vec<u8>,
    inputs: Inputs<'_>,
    end: End<'_>,
    files: &mut F,
) -> Result<(), NoMemory>
    ensures same { F.contents files.new ≡ F.contents files.old }
{
    if end.remarks.is_empty() {
        return Ok(());
    }
    let table = table_in(alloc, inputs, files);
    let binaries = binaries_of(alloc, inputs, files)?;
    let name = played_by(inputs);
    put_endings(
        alloc,
        out,
        name,
        table.as_ref(),
        binaries.as_slice(),
        end,
        files,
    )
}

/// The notes on a command that did its work, for standard error.
pub(crate) fn notes_on<F: Files>(
    alloc: Global,
    command: Command<'_>,
    end: End<'_>,
    files: &mut F,
) -> Result<Vec<u8>, NoMemory>
    ensures same { F.contents files.new ≡ F.contents files.old }
{
    let mut out = Vec::new(alloc);
    let inputs = inputs_of(command);
    if inputs.plays {
        put_ended(alloc, &mut out, inputs, end, files)?;
        put_played(alloc, &mut out, inputs, end, files)?;
    }
    put_overwritten(alloc, &mut out, command, end.number == 0, files)?;
    Ok(out)
}
