ghost use Rattle.std.specs.Prelude.{◌≡◌, ◌++◌, ◌+◌, ◌^◌, ◌<◌, ◌≤◌, [], List, ℕ, codes, length};
ghost use Rattle.std.specs.Prelude.{true, false, IfOk, IfErr, MatchBool};
ghost use Rattle.std.specs.List.{list_any};
ghost use Rattle.std.specs.Option.{option_map};
ghost use Rattle.table_2da.specs.Grammar.{are_columns, are_distinct, Adds, AddsCells, HasTable};
ghost use Rattle.table_2da.specs.Grammar.{IsColumns, IsFaulty, IsHeading, IsSecond};
ghost use Rattle.table_2da.specs.Look.{same_name};
ghost use Rattle.table_2da.specs.Ranges.{bytes_at, cells_at, rows_at, StandsAt};
ghost use Rattle.table_2da.specs.Steps.{Comes, Found, ReadsOn, SecondOn, TableStopsAt, ThirdOn};
ghost use Rattle.table_2da.specs.Steps.{Took};

use crate::fault::TableFault;
use crate::prefix::behind_prefix;
use crate::range::{Range, Ranges, Rows, bytes_at};
use crate::table::{Table2, same_name};
use crate::words::{Front, Part, are_blanks, front_of, ranges_of};
use nwq_text::Lines;
use nwq_value::NoMemory;
use std::alloc::Global;

/// How many columns a table has at most.
const MOST_COLUMNS: usize = 1024;

/// How many rows a table has at most.
const MOST_ROWS: usize = 65_536;

/// How many bytes a file has at most, as places in it have 32 bits.
const MOST_BYTES: usize = 4_294_967_295;

/// Whether this is the format and its version, and nothing but blanks behind it.
fn is_heading(line: &[u8]) -> bool
    ensures heading { MatchBool result (IsHeading line.now) (IsHeading line.now → ⊥) }
{
    match behind_prefix(line, b"2DA V2.0") {
        Some(rest) => are_blanks(rest),
        None => false,
    }
}

/// Whether a second line is a default or nothing but blanks.
fn is_second(line: &[u8]) -> bool
    ensures second { MatchBool result (IsSecond line.now) (IsSecond line.now → ⊥) }
{
    match behind_prefix(line, b"DEFAULT:") {
        Some(_) => true,
        None => are_blanks(line),
    }
}

/// Whether a column has this name.
fn has_name(file: &[u8], columns: &[Range], name: &[u8]) -> bool
    ensures named { result
        ≡ list_any (λ column. same_name (bytes_at file.now column) name.now) columns.now }
{
    columns
        .iter()
        .any(|column| same_name(bytes_at(file, *column), name))
}

/// Whether no two names are the same.
fn are_distinct(file: &[u8], names: &[Range]) -> bool
    ensures distinct { result ≡ are_distinct (cells_at file.now names.now) }
{
    let mut rest = names;
    while let Some((name, others)) = rest.split_first() {
        if has_name(file, others, bytes_at(file, *name)) {
            return false;
        }
        rest = others;
    }
    true
}

/// Whether these are the names of columns.
#[tactic(auto, unfolding(crate::specs::Grammar::are_columns))]
fn are_columns(file: &[u8], names: &[Range]) -> bool
    ensures columns { result ≡ are_columns (cells_at file.now names.now) }
{
    !names.is_empty() && names.len() <= MOST_COLUMNS && are_distinct(file, names)
}

/// The columns that a third line names, which stands there in its file.
fn columns_of(
    alloc: Global,
    file: &[u8],
    place: u32,
    line: &[u8],
) -> Result<Option<Ranges>, NoMemory>
    requires stands { StandsAt file.now place line.now }
    requires fits { place + length line.now < 2 ^ 32 }
    ensures columns { IfOk result (λ columns.
        Found (IsColumns line.now) (option_map (cells_at file.now) columns)) }
{
    match ranges_of(alloc, Part::Columns, place, line, MOST_COLUMNS)? {
        None => Ok(None),
        Some(names) => {
            if are_columns(file, names.as_slice()) {
                return Ok(Some(names));
            }
            Ok(None)
        }
    }
}

/// Adds the cells of a row, or answers that they can't be added.
fn add_cells(
    alloc: Global,
    rows: &mut Rows,
    width: usize,
    place: u32,
    line: &[u8],
) -> Result<bool, NoMemory>
    requires fits { place + length line.now < 2 ^ 32 }
    ensures took { IfOk result (λ took. (file : List ℕ) → StandsAt file place line.now
        → Took (AddsCells width (rows_at file rows.old) line.now) took (rows_at file rows.new)) }
{
    if rows.len() >= MOST_ROWS {
        return Ok(false);
    }
    match ranges_of(alloc, Part::Row, place, line, width)? {
        None => Ok(false),
        Some(cells) => {
            rows.push(cells)?;
            Ok(true)
        }
    }
}

/// Adds what a line behind the third adds, or answers that it breaks a rule.
fn add_row(
    alloc: Global,
    rows: &mut Rows,
    width: usize,
    place: u32,
    line: &[u8],
) -> Result<bool, NoMemory>
    requires fits { place + length line.now < 2 ^ 32 }
    ensures took { IfOk result (λ took. (file : List ℕ) → StandsAt file place line.now
        → Took (Adds width (rows_at file rows.old) line.now) took (rows_at file rows.new)) }
{
    match front_of(line) {
        Front::Nothing => Ok(true),
        Front::Open => Ok(false),
        Front::Begins(_, rest) => {
            let further = place + (line.len() - rest.len()) as u32;
            add_cells(alloc, rows, width, further, rest)
        }
    }
}

/// Reads the lines behind the third.
fn read_rows(alloc: Global, width: usize, lines: &mut Lines<'_>) -> Result<Rows, TableFault>
    requires third { lines.old.read ≡ 3 }
    requires fits { length lines.old.text < 2 ^ 32 }
    ensures rows { IfOk result (λ rows.
        ReadsOn width lines.old.left (rows_at lines.old.text rows)) }
    ensures fault { IfErr result (TableStopsAt width lines.old.left) }
{
    let mut rows = Rows::new(alloc);
    while let Some(line) = lines.next_line() {
        if !add_row(alloc, &mut rows, width, line.place as u32, line.bytes)? {
            return Err(TableFault::Line(line.number));
        }
    }
    Ok(rows)
}

/// Reads the lines behind the second.
fn read_third(alloc: Global, file: &[u8], lines: &mut Lines<'_>) -> Result<Table2, TableFault>
    requires second { lines.old.read ≡ 2 }
    requires file { lines.old.text ≡ file.now }
    requires fits { length file.now < 2 ^ 32 }
    ensures comes { Comes (ThirdOn lines.old.left) result }
{
    let Some(line) = lines.next_line() else {
        return Err(TableFault::Line(3));
    };
    let Some(columns) = columns_of(alloc, file, line.place as u32, line.bytes)? else {
        return Err(TableFault::Line(3));
    };
    match read_rows(alloc, columns.len(), lines) {
        Err(fault) => Err(fault),
        Ok(rows) => Ok(Table2::of(alloc, file, columns, rows)?),
    }
}

/// Reads the lines behind the first.
fn read_second(alloc: Global, file: &[u8], lines: &mut Lines<'_>) -> Result<Table2, TableFault>
    requires first { lines.old.read ≡ 1 }
    requires file { lines.old.text ≡ file.now }
    requires fits { length file.now < 2 ^ 32 }
    ensures comes { Comes (SecondOn lines.old.left) result }
{
    let Some(line) = lines.next_line() else {
        return Err(TableFault::Line(2));
    };
    if !is_second(line.bytes) {
        return Err(TableFault::Line(2));
    }
    read_third(alloc, file, lines)
}

/// The table of a file, or its first line that breaks a rule. `NoMemory` may come at any file, and
/// comes at one of 4 GiB or more.
pub fn read_table(alloc: Global, bytes: &[u8]) -> Result<Table2, TableFault>
    ensures table { IfOk result (λ table. HasTable bytes.now table) }
    ensures fault { IfErr result (IsFaulty bytes.now) }
{
    if bytes.len() > MOST_BYTES {
        return Err(TableFault::NoMemory);
    }
    let mut lines = Lines::of(bytes);
    let Some(line) = lines.next_line() else {
        return Err(TableFault::Line(1));
    };
    if !is_heading(line.bytes) {
        return Err(TableFault::Line(1));
    }
    read_second(alloc, bytes, &mut lines)
}
