//! Tables of rows: each is gone through, and the first row of which something else comes is told.

ghost use Rattle.hook_table.specs.InHooks.{known_by};
ghost use Rattle.world_core.specs.Calls.{AreServing};

use crate::answers::{Failing, Held, Named, Outcome, PLAIN, Row, comes};
use crate::samples::Sample;
use hook_table::Hooks;
use nwq_top::Status;
use nwq_value::NoMemory;
use std::alloc::Global;

/// A call that fails, how often something is put, what is put, and what names hold after it.
pub type Cut<'a> = (Failing, u64, &'a str, &'a [Named<'a>]);

/// Words over a file `in`, what it holds, how they end, what they print, and what `out` holds then.
pub type Told<'a> = (&'a str, Held<'a>, Status, &'a str, Held<'a>);

/// How many first bytes of a file are refused so: from this number to less than that.
pub type Short<'a> = (usize, usize, &'a str);

/// A table, where that isn't of rows with the row that each of its lines fills in.
#[derive(Clone, Copy)]
pub enum Table<'a> {
    Rows(&'a [Row<'a>]),
    /// Words.
    Lines(Row<'a>, &'a [&'a str]),
    /// Scripts `p`, and what is put.
    Sources(Row<'a>, &'a [(&'a str, &'a str)]),
    Cuts(Row<'a>, &'a [Cut<'a>]),
    /// Words over a file `in`.
    Told(&'a [Told<'a>]),
    /// Words over the begins of a file `in`.
    Shorts(Row<'a>, Sample, &'a [Short<'a>]),
    /// Words, and a name of the base that holds this.
    Reads(Row<'a>, Held<'a>, &'a [(&'a str, &'a str)]),
}

fn first_row(
    alloc: Global,
    rows: &[Row],
    found: &mut Outcome,
    hooks: &Hooks,
) -> Result<Option<usize>, NoMemory>
    requires hooks { AreServing (known_by hooks.now) }
{
    for (place, row) in rows.iter().enumerate() {
        if !comes(alloc, row, found, hooks)? {
            return Ok(Some(place));
        }
    }
    Ok(None)
}

fn first_line(
    alloc: Global,
    row: Row,
    lines: &[&str],
    found: &mut Outcome,
    hooks: &Hooks,
) -> Result<Option<usize>, NoMemory>
    requires hooks { AreServing (known_by hooks.now) }
{
    for (place, line) in lines.iter().enumerate() {
        let row = Row { line, ..row };
        if !comes(alloc, &row, found, hooks)? {
            return Ok(Some(place));
        }
    }
    Ok(None)
}

fn first_source(
    alloc: Global,
    row: Row,
    sources: &[(&str, &str)],
    found: &mut Outcome,
    hooks: &Hooks,
) -> Result<Option<usize>, NoMemory>
    requires hooks { AreServing (known_by hooks.now) }
{
    for (place, (source, text)) in sources.iter().enumerate() {
        let row = Row {
            own: &[("p.nss", Held::Bytes(source.as_bytes()))],
            text,
            ..row
        };
        if !comes(alloc, &row, found, hooks)? {
            return Ok(Some(place));
        }
    }
    Ok(None)
}

fn first_cut(
    alloc: Global,
    row: Row,
    cuts: &[Cut],
    found: &mut Outcome,
    hooks: &Hooks,
) -> Result<Option<usize>, NoMemory>
    requires hooks { AreServing (known_by hooks.now) }
{
    for (place, (failing, puts, text, after)) in cuts.iter().enumerate() {
        let row = Row {
            failing: *failing,
            puts: Some(*puts),
            text,
            after,
            ..row
        };
        if !comes(alloc, &row, found, hooks)? {
            return Ok(Some(place));
        }
    }
    Ok(None)
}

fn first_told(
    alloc: Global,
    lines: &[Told],
    found: &mut Outcome,
    hooks: &Hooks,
) -> Result<Option<usize>, NoMemory>
    requires hooks { AreServing (known_by hooks.now) }
{
    for (place, (line, held, status, text, out)) in lines.iter().enumerate() {
        let row = Row {
            line,
            own: &[("in", *held)],
            status: *status,
            puts: Some(1),
            text,
            after: &[("out", *out)],
            ..PLAIN
        };
        if !comes(alloc, &row, found, hooks)? {
            return Ok(Some(place));
        }
    }
    Ok(None)
}

/// The least number of first bytes of which something else comes, if there is one.
fn first_size(
    alloc: Global,
    row: Row,
    sample: Sample,
    short: &Short,
    found: &mut Outcome,
    hooks: &Hooks,
) -> Result<Option<usize>, NoMemory>
    requires hooks { AreServing (known_by hooks.now) }
{
    let (from, below, text) = *short;
    for size in from..below {
        let row = Row {
            own: &[("in", Held::First(sample, size))],
            text,
            ..row
        };
        if !comes(alloc, &row, found, hooks)? {
            return Ok(Some(size));
        }
    }
    Ok(None)
}

fn first_short(
    alloc: Global,
    row: Row,
    sample: Sample,
    shorts: &[Short],
    found: &mut Outcome,
    hooks: &Hooks,
) -> Result<Option<usize>, NoMemory>
    requires hooks { AreServing (known_by hooks.now) }
{
    for short in shorts {
        if let Some(size) = first_size(alloc, row, sample, short, found, hooks)? {
            return Ok(Some(size));
        }
    }
    Ok(None)
}

/// Whether what is to come of words does where this is held under a name: a word and the name are
/// put.
fn is_read(
    alloc: Global,
    row: Row,
    name: &str,
    held: Held,
    found: &mut Outcome,
    hooks: &Hooks,
) -> Result<bool, NoMemory>
    requires hooks { AreServing (known_by hooks.now) }
{
    let text = format!(in alloc; "{} {name}\n", row.text)?;
    let row = Row {
        own: &[(name, held)],
        text: &text,
        ..row
    };
    comes(alloc, &row, found, hooks)
}

fn first_read(
    alloc: Global,
    row: Row,
    held: Held,
    reads: &[(&str, &str)],
    found: &mut Outcome,
    hooks: &Hooks,
) -> Result<Option<usize>, NoMemory>
    requires hooks { AreServing (known_by hooks.now) }
{
    for (place, (line, name)) in reads.iter().enumerate() {
        let row = Row { line, ..row };
        if !is_read(alloc, row, name, held, found, hooks)? {
            return Ok(Some(place));
        }
    }
    Ok(None)
}

/// The place of the first row of a table of which something else comes, if there is one: of begins
/// of files their size.
pub fn first_wrong(
    alloc: Global,
    table: Table,
    found: &mut Outcome,
    hooks: &Hooks,
) -> Result<Option<usize>, NoMemory>
    requires hooks { AreServing (known_by hooks.now) }
{
    match table {
        Table::Rows(rows) => first_row(alloc, rows, found, hooks),
        Table::Lines(row, lines) => first_line(alloc, row, lines, found, hooks),
        Table::Sources(row, sources) => first_source(alloc, row, sources, found, hooks),
        Table::Cuts(row, cuts) => first_cut(alloc, row, cuts, found, hooks),
        Table::Told(lines) => first_told(alloc, lines, found, hooks),
        Table::Shorts(row, sample, shorts) => {
            first_short(alloc, row, sample, shorts, found, hooks)
        }
        Table::Reads(row, held, reads) => first_read(alloc, row, held, reads, found, hooks),
    }
}
