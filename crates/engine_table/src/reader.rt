ghost use Rattle.std.specs.Prelude.{◌≡◌, ◌<◌, ◌≤◌, length, MatchOption, IfOk, IfErr, OnOk, Err};
ghost use Rattle.nwq_value.specs.Header.{header_text};
ghost use Rattle.nwq_value.specs.HeaderTable.{header_table};
ghost use Rattle.nwq_value.specs.Limits.{file_limit};
ghost use Rattle.engine_table.specs.declared.fault.HeaderFault.TheVariants as fault;
ghost use Rattle.engine_table.specs.declared.stage.Stage.TheVariants as stage;
ghost use Rattle.nss_lexer.specs.Lexemes.{IsToken};
ghost use Rattle.nss_lexer.specs.Splitting.{plain};
ghost use Rattle.engine_table.specs.Symbols.{IsSymbol, at as placed, placed_of};
ghost use Rattle.engine_table.specs.Headers.{HasTable, IsRefused, IsWithin, nothing};
ghost use Rattle.engine_table.specs.Held.{IsCounted, held, held_limit};
ghost use Rattle.engine_table.specs.Turns.{Answers, KeepsStage, KeepsTurn, Leads, Follows};
ghost use Rattle.engine_table.specs.Turns.{depth_of};
ghost use Rattle.engine_table.specs.Turns.{HasTokens, HasTokensUpTo, ended, known_of, turn_at};

use crate::fault::HeaderFault;
use crate::known::Known;
use crate::laws::{built_in_has_table, one_header};
use crate::stage::{Stage, Turn};
use crate::symbol::{Symbol, symbol_of};
use nss_lexer::{Lexed, Token, next};
use nwq_value::header::built_in_is_the_header;
use nwq_value::{BUILT_IN, NoMemory, Table};
use std::alloc::Global;

/// Goes on by a turn: how far the line has come then.
fn go(known: &mut Known, turn: Turn) -> Result<Stage, NoMemory>
    requires keeps { KeepsTurn (known_of known.old) turn }
    requires counted { IsCounted known.old }
    ensures counted { OnOk result (IsCounted known.new) }
    ensures keeps { IfOk result (λ stage. KeepsStage (known_of known.new) stage) }
    ensures goes { IfOk result (λ stage.
        Leads (known_of known.old) turn (known_of known.new) stage) }
{
    match turn {
        Turn::Goes(stage) => Ok(stage),
        Turn::Gives(declaration, new) => {
            known.declare(declaration, new)?;
            Ok(Stage::Start)
        }
    }
}

/// Takes one token more: how far the line has come then.
fn take(
    known: &mut Known,
    alloc: Global,
    stage: Stage,
    place: u32,
    symbol: Symbol,
) -> Result<Stage, HeaderFault>
    requires keeps { KeepsStage (known_of known.old) stage }
    requires few { depth_of stage < 4294967295 }
    requires counted { IsCounted known.old }
    requires bounds { IsSymbol symbol }
    ensures counted { OnOk result (IsCounted known.new) }
    ensures keeps { IfOk result (λ next. KeepsStage (known_of known.new) next) }
    ensures goes { IfOk result (λ next. Follows (known_of known.old) stage
        (placed place symbol) (known_of known.new) next) }
    ensures fails { IfErr result (λ fault. Answers
        (turn_at (known_of known.old) stage (placed place symbol)) (Err fault)) }
{
    known.table.keeps();
    match known.turn(alloc, stage, place, symbol) {
        Err(fault) => Err(fault),
        Ok(turn) => Ok(go(known, turn)?),
    }
}

/// Takes one token more, as the grammar sees it.
fn read(
    known: &mut Known,
    alloc: Global,
    stage: Stage,
    token: &Token<'_>,
) -> Result<Stage, HeaderFault>
    requires keeps { KeepsStage (known_of known.old) stage }
    requires few { depth_of stage < 4294967295 }
    requires counted { IsCounted known.old }
    requires token { IsToken token.now }
    ensures counted { OnOk result (IsCounted known.new) }
    ensures keeps { IfOk result (λ next. KeepsStage (known_of known.new) next) }
    ensures goes { IfOk result (λ next. Follows (known_of known.old) stage
        (placed_of (plain token.now)) (known_of known.new) next) }
    ensures fails { IfErr result (λ fault. Answers
        (turn_at (known_of known.old) stage (placed_of (plain token.now))) (Err fault)) }
{
    let symbol = symbol_of(alloc, token)?;
    take(known, alloc, stage, token.start, symbol)
}

/// The table, where no line is left open.
fn finish(known: Known, stage: Stage, end: u32) -> Result<Table, HeaderFault>
    requires counted { IsCounted known }
    ensures ended { result ≡ ended end (known_of known) stage }
    ensures budget { IfOk result (λ table. held table ≤ held_limit) }
{
    let is_whole = matches!(&stage, Stage::Start);
    drop(stage);
    let Known { words, table, .. } = known;
    drop(words);
    if is_whole {
        Ok(table)
    } else {
        drop(table);
        Err(HeaderFault::Header(end))
    }
}

/// The first place of the text, from this one on, where no token, blank or closed comment begins.
fn first_bad(bytes: &[u8], from: u32) -> Option<u32>
    requires size { length bytes.now ≤ file_limit }
    requires within { from ≤ length bytes.now }
    ensures { MatchOption result (HasTokens bytes.now from) (HasTokensUpTo bytes.now from) }
{
    let mut at = from;
    loop {
        match next(bytes, 0, at) {
            Lexed::End => return None,
            Lexed::Bad(place) => return Some(place),
            Lexed::Token(token) => at = token.end,
        }
    }
}

/// The table of a text, or its first fault: a bad byte comes before all else, wherever it stands.
fn read_lines(alloc: Global, bytes: &[u8]) -> Result<Table, HeaderFault>
    requires size { length bytes.now ≤ file_limit }
    ensures table { IfOk result (HasTable bytes.now) }
    ensures budget { IfOk result (λ table. held table ≤ held_limit) }
    ensures refused { IfErr result (IsRefused bytes.now) }
{
    let mut known = Known::new(alloc);
    let mut stage = Stage::Start;
    let mut at = 0;
    loop {
        match next(bytes, 0, at) {
            Lexed::End => return finish(known, stage, bytes.len() as u32),
            Lexed::Bad(place) => {
                drop(stage);
                drop(known);
                return Err(HeaderFault::Bad(place));
            }
            Lexed::Token(token) => match read(&mut known, alloc, stage, &token) {
                Err(fault) => {
                    drop(known);
                    return match first_bad(bytes, token.end) {
                        Some(place) => Err(HeaderFault::Bad(place)),
                        None => Err(fault),
                    };
                }
                Ok(next) => {
                    stage = next;
                    at = token.end;
                }
            },
        }
    }
}

/// The table of a header's text, or its first fault, with a place within the text. `NoMemory` comes
/// where memory is refused, or where the strings of the lines so far have more than 268,435,456
/// bytes in all.
pub fn read_header(alloc: Global, bytes: &[u8]) -> Result<Table, HeaderFault>
    requires size { length bytes.now ≤ file_limit }
    ensures table { IfOk result (HasTable bytes.now) }
    // No table that is read holds more than its budget.
    ensures budget { IfOk result (λ table. held table ≤ held_limit) }
    ensures refused { IfErr result (IsRefused bytes.now) }
    ensures within { IfErr result (IsWithin (length bytes.now)) }
{
    read_lines(alloc, bytes)
}

/// The one fault that the built-in header can have.
fn want_of_memory(met: HeaderFault) -> NoMemory
    requires { met ≡ fault.NoMemory }
{
    match met {
        HeaderFault::NoMemory => NoMemory,
        _ => unreachable!(),
    }
}

/// The table of the built-in header: the functions and constants of its data, with their defaults,
/// values and roles.
pub fn built_in(alloc: Global) -> Result<Table, NoMemory>
    ensures table { IfOk result (λ table. table ≡ header_table) }
    ensures text { IfOk result (HasTable header_text) }
{
    built_in_is_the_header();
    built_in_has_table();
    one_header();
    match read_header(alloc, BUILT_IN) {
        Ok(table) => Ok(table),
        Err(fault) => Err(want_of_memory(fault)),
    }
}
