//! 2,000 scripts whose types are drawn: of each that is refused the types and counts are told that
//! it was made with.

ghost use Rattle.std.specs.Prelude.{◌≤◌, length};
ghost use Rattle.std.specs.List.{AllByRecursion};
ghost use Rattle.nwq_value.specs.Limits.{token_limit};
ghost use Rattle.nss_lexer.specs.Lexemes.{IsToken};

use crate::scripts::{Made, script};
use engine_table::built_in;
use message_types::put_why;
use nss_lexer::Token;
use nss_parser::parse;
use nss_types::{TypeFault, type_unit};
use nwq_value::{NoMemory, Table};
use std::alloc::Global;
use std::test::Fail;
use test_units::tokens_of;

/// How many scripts are made.
const SCRIPTS: u32 = 2000;

/// How long one is at most.
const MOST_BYTES: usize = 1000;

/// What became of a script.
#[derive(Clone, Copy)]
enum Outcome {
    Typed,
    Told,
    Untold,
}

/// The token at which the rules of types refuse a unit of these tokens.
fn refused_at<'a>(
    alloc: Global,
    table: &Table,
    tokens: &[Token<'a>],
) -> Result<Option<Token<'a>>, NoMemory>
    requires few { length tokens.now ≤ token_limit }
    requires tokens { AllByRecursion IsToken tokens.now }
{
    let Ok(tree) = parse(alloc, tokens) else {
        return Ok(None);
    };
    match type_unit(alloc, tree, table) {
        Ok(typed) => {
            drop(typed);
            Ok(None)
        }
        Err(TypeFault::Fault(fault)) => match tokens.get(fault.token as usize) {
            Some(token) => Ok(Some(*token)),
            None => Ok(None),
        },
        Err(TypeFault::NoMemory) => Err(NoMemory),
    }
}

/// What became of a script that was made.
fn outcome_of(alloc: Global, table: &Table, made: &Made) -> Result<Outcome, NoMemory> {
    let source = made.source.as_slice();
    if source.len() > MOST_BYTES {
        return Ok(Outcome::Untold);
    }
    let tokens = tokens_of(alloc, source)?;
    let Some(at) = refused_at(alloc, table, tokens.as_slice())? else {
        return Ok(Outcome::Typed);
    };
    let mut said = Vec::new(alloc);
    let is_told = put_why(
        alloc,
        &mut said,
        tokens.as_slice(),
        at.start,
        at.text,
        table,
    )?;
    if is_told && said.as_slice() == made.said.as_slice() {
        Ok(Outcome::Told)
    } else {
        Ok(Outcome::Untold)
    }
}

fn outcome_numbered(alloc: Global, table: &Table, number: u32) -> Result<Outcome, NoMemory> {
    let made = script(alloc, number)?;
    let outcome = outcome_of(alloc, table, &made);
    drop(made);
    outcome
}

/// How many scripts were refused, if each of them is told as it was made.
fn told_scripts(alloc: Global) -> Result<Option<u32>, NoMemory> {
    let table = built_in(alloc)?;
    let mut told = 0u32;
    for number in 0..SCRIPTS {
        match outcome_numbered(alloc, &table, number)? {
            Outcome::Typed => {}
            Outcome::Told => told = told.saturating_add(1),
            Outcome::Untold => return Ok(None),
        }
    }
    Ok(Some(told))
}

/// Whether more than half of the scripts are refused, and all these are told.
fn are_told(alloc: Global) -> bool {
    match told_scripts(alloc) {
        Ok(Some(told)) => told > SCRIPTS / 2,
        _ => false,
    }
}

#[test]
fn drawn_types_are_told(rt: HostRuntime) {
    let alloc = rt.alloc();
    assert!(rt; are_told(alloc));
}
