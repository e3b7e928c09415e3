//! The files that a message is made of, as they were kept: headers and units of scripts. Nothing is
//! written.

ghost use Rattle.std.specs.Prelude.{◌≡◌, ◌≤◌, length, IfSome};
ghost use Rattle.nwq_value.specs.Limits.{file_limit, token_limit};

use crate::asked::include_of;
use crate::places::{Spot, put_following};
use engine_table::{built_in, read_header};
use message_sentences::same;
use message_tokens::syntax_fault;
use message_types::put_why;
use nss_include::{Unit, gather};
use nss_lexer::Token;
use nwq_outside::{Files, Read};
use nwq_text::read_text;
use nwq_value::{Items, NoMemory, Table, Text};
use std::alloc::Global;

/// The content of a name, if it can be read.
pub fn read_named<F: Files>(alloc: Global, name: &str, files: &mut F) -> Option<Items<u8>>
    ensures same { F.contents files.new ≡ F.contents files.old }
    ensures size { IfSome result (λ bytes. length bytes ≤ file_limit) }
{
    match files.read(alloc, name) {
        Read::Bytes(bytes) => Some(Items::of_vec(bytes)),
        _ => None,
    }
}

/// The name that an escaped text stands for, or the text where it stands for none.
pub fn name_in(alloc: Global, escaped: &[u8]) -> Result<String, NoMemory> {
    match read_text(alloc, escaped)? {
        None => Ok(String::from_utf8_lossy(alloc, escaped)?),
        Some(name) => Ok(String::from_utf8_lossy(alloc, name.bytes())?),
    }
}

fn table_in(alloc: Global, bytes: &[u8]) -> Option<Table>
    requires { length bytes.now ≤ file_limit }
{
    match read_header(alloc, bytes) {
        Ok(table) => Some(table),
        Err(_) => None,
    }
}

/// The table of a header, if it has one.
pub fn table_of<F: Files>(alloc: Global, header: &str, files: &mut F) -> Option<Table>
    ensures same { F.contents files.new ≡ F.contents files.old }
{
    if header == "-" {
        return built_in(alloc).ok();
    }
    match read_named(alloc, header, files) {
        None => None,
        Some(bytes) => table_in(alloc, bytes.as_slice()),
    }
}

/// Whether token `i` stands at this offset, or all tokens end before it.
fn stands_at(tokens: &[Token<'_>], i: usize, at: u32) -> bool {
    match tokens.get(i) {
        Some(token) => token.start == at,
        None => i == tokens.len(),
    }
}

/// Appends what could stand at a place, where a unit is refused there by the grammar.
#[tactic(auto, using(crate::proofs::UnitTokens::few_tokens))]
fn put_following_in(
    alloc: Global,
    out: &mut Vec<u8>,
    unit: &Unit,
    spot: Spot<'_>,
) -> Result<bool, NoMemory> {
    let tokens = unit.tokens(alloc)?;
    match syntax_fault(alloc, tokens.as_slice())? {
        Some(i) if stands_at(tokens.as_slice(), i, spot.at) => {
            put_following(alloc, out, tokens.as_slice(), i)?;
            Ok(true)
        }
        _ => Ok(false),
    }
}

/// Appends why the rules of types refuse a unit at a place, where they do.
#[tactic(auto, using(crate::proofs::UnitTokens::few_tokens))]
fn put_why_in(
    alloc: Global,
    out: &mut Vec<u8>,
    unit: &Unit,
    table: Option<&Table>,
    spot: Spot<'_>,
    piece: &[u8],
) -> Result<bool, NoMemory> {
    let Some(table) = table else {
        return Ok(false);
    };
    let tokens = unit.tokens(alloc)?;
    put_why(alloc, out, tokens.as_slice(), spot.at, piece, table)
}

/// What a message asks of the unit of a script.
#[derive(Clone, Copy)]
pub enum Ask<'a> {
    /// What could stand at the place.
    Following,
    /// Why the rules of types refuse the token of this text there.
    Why(&'a [u8]),
}

/// Appends what a unit answers. Whether it did.
fn put_answer(
    alloc: Global,
    out: &mut Vec<u8>,
    unit: &Unit,
    table: Option<&Table>,
    spot: Spot<'_>,
    ask: Ask<'_>,
) -> Result<bool, NoMemory> {
    match ask {
        Ask::Following => put_following_in(alloc, out, unit, spot),
        Ask::Why(piece) => put_why_in(alloc, out, unit, table, spot, piece),
    }
}

/// Appends what the unit of a script answers, if it has one. Whether it did.
fn put_of_script<F: Files>(
    alloc: Global,
    out: &mut Vec<u8>,
    script: &Text,
    table: Option<&Table>,
    spot: Spot<'_>,
    ask: Ask<'_>,
    files: &mut F,
) -> Result<bool, NoMemory>
    ensures same { F.contents files.new ≡ F.contents files.old }
{
    let name = String::from_utf8_lossy(alloc, script.bytes())?;
    match gather(alloc, files, name.as_str()) {
        Err(fault) => {
            drop(fault);
            Ok(false)
        }
        Ok(unit) => put_answer(alloc, out, &unit, table, spot, ask),
    }
}

/// Whether a file is that of a script, or of an include of it.
fn has_file<F: Files>(
    alloc: Global,
    script: &Text,
    name: &[u8],
    files: &mut F,
) -> Result<bool, NoMemory>
    ensures same { F.contents files.new ≡ F.contents files.old }
{
    if is_source_of(name, script.bytes()) {
        return Ok(true);
    }
    let asking = include_of(alloc, script, name, files)?;
    Ok(asking.is_some())
}

/// Whether a file is that of a script.
fn is_source_of(name: &[u8], script: &[u8]) -> bool {
    name.len() > 4 && &name[..name.len() - 4] == script && same(&name[name.len() - 4..], b".nss")
}

/// Appends what the first of the scripts with the file of the place answers that does. Whether one
/// did.
pub fn put_of_scripts<F: Files>(
    alloc: Global,
    out: &mut Vec<u8>,
    scripts: &[Text],
    table: Option<&Table>,
    spot: Spot<'_>,
    ask: Ask<'_>,
    files: &mut F,
) -> Result<bool, NoMemory>
    ensures same { F.contents files.new ≡ F.contents files.old }
{
    for script in scripts {
        if has_file(alloc, script, spot.name, files)?
            && put_of_script(alloc, out, script, table, spot, ask, files)?
        {
            return Ok(true);
        }
    }
    Ok(false)
}
