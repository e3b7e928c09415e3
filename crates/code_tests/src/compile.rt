ghost use Rattle.std.specs.Prelude.{◌≤◌, length, IfSome};
ghost use Rattle.std.specs.List.{AllByRecursion};
ghost use Rattle.nwq_value.specs.Limits.{token_limit};
ghost use Rattle.nss_lexer.specs.Lexemes.{IsToken};
ghost use Rattle.nss_tree.specs.Reading.{plain_tree};
ghost use Rattle.nss_parser.specs.Sizes.{IsKnownTree};
ghost use Rattle.typing_rules.specs.UnitReading.{typed_unit};
ghost use Rattle.typing_laws.specs.Laws.{HasCode};

use codegen_unit::generate;
use engine_table::{built_in, read_header};
use ncs_text::assemble;
use nss_lexer::Token;
use nss_parser::parse;
use nss_tree::Tree;
use nss_types::type_unit;
use nwq_value::{NoMemory, Table};
use std::alloc::Global;
use test_units::tokens_of;
use typing_laws::laws::typed_units_have_code;
use typing_rules::Typed;

/// A unit, with the listing of its file.
pub type Row = (&'static [u8], &'static [u8]);

/// The most bytes of a text here: so a unit has few tokens.
const MOST_BYTES: usize = 100_000;

/// The tree of a unit's tokens.
#[tactic(auto, using(crate::proofs::Trees::tree_few))]
fn parsed(alloc: Global, tokens: &[Token<'_>]) -> Option<Tree>
    requires count { length tokens.now ≤ token_limit }
    requires spelled { AllByRecursion IsToken tokens.now }
    ensures few { IfSome result (λ tree. (plain_tree tree).count ≤ token_limit) }
    ensures known { IfSome result (λ tree. IsKnownTree (plain_tree tree)) }
{
    match parse(alloc, tokens) {
        Ok(tree) => Some(tree),
        Err(_) => None,
    }
}

/// The typed unit of a tree, of which there is code.
fn typed(alloc: Global, table: &Table, tree: Tree) -> Option<Typed>
    requires few { (plain_tree tree).count ≤ token_limit }
    requires known { IsKnownTree (plain_tree tree) }
    ensures { IfSome result (λ unit. HasCode (typed_unit unit)) }
{
    table.keeps();
    typed_units_have_code();
    match type_unit(alloc, tree, table) {
        Ok(unit) => Some(unit),
        Err(_) => None,
    }
}

/// The typed unit of a text.
fn unit_of(alloc: Global, table: &Table, source: &[u8]) -> Option<Typed>
    ensures { IfSome result (λ unit. HasCode (typed_unit unit)) }
{
    if source.len() > MOST_BYTES {
        return None;
    }
    match tokens_of(alloc, source) {
        Err(NoMemory) => None,
        Ok(tokens) => match parsed(alloc, tokens.as_slice()) {
            None => None,
            Some(tree) => typed(alloc, table, tree),
        },
    }
}

/// The file of a typed unit.
fn code_of(alloc: Global, unit: &Typed) -> Option<Vec<u8>>
    requires { HasCode (typed_unit unit.now) }
{
    match generate(alloc, unit) {
        Ok(bytes) => Some(bytes),
        Err(_) => None,
    }
}

/// The file of a text.
fn file_of(alloc: Global, table: &Table, source: &[u8]) -> Option<Vec<u8>> {
    match unit_of(alloc, table, source) {
        None => None,
        Some(unit) => code_of(alloc, &unit),
    }
}

/// The file of a listing.
fn listed(alloc: Global, listing: &[u8]) -> Option<Vec<u8>> {
    if listing.len() > MOST_BYTES {
        return None;
    }
    match assemble(alloc, listing) {
        Ok(bytes) => Some(bytes),
        Err(_) => None,
    }
}

/// Whether the file of a unit is that of its listing.
fn is_as_listed(alloc: Global, table: &Table, row: &Row) -> bool {
    match (file_of(alloc, table, row.0), listed(alloc, row.1)) {
        (Some(file), Some(wanted)) => file.as_slice() == wanted.as_slice(),
        _ => false,
    }
}

/// The number of the first unit whose file isn't as it is listed, counted from 0, or their count.
fn first_under(alloc: Global, table: &Table, rows: &[Row]) -> usize {
    for (i, row) in rows.iter().enumerate() {
        if !is_as_listed(alloc, table, row) {
            return i;
        }
    }
    rows.len()
}

/// The same under the built-in header.
pub fn first_other(alloc: Global, rows: &[Row]) -> Result<usize, NoMemory> {
    let table = built_in(alloc)?;
    Ok(first_under(alloc, &table, rows))
}

/// The same under a header of these lines.
pub fn first_other_under(alloc: Global, header: &[u8], rows: &[Row]) -> Option<usize> {
    if header.len() > MOST_BYTES {
        return None;
    }
    match read_header(alloc, header) {
        Ok(table) => Some(first_under(alloc, &table, rows)),
        Err(_) => None,
    }
}

/// Whether the file of a unit under the built-in header has these bytes.
pub fn has_bytes(alloc: Global, source: &[u8], bytes: &[u8]) -> Result<bool, NoMemory> {
    let table = built_in(alloc)?;
    match file_of(alloc, &table, source) {
        None => Ok(false),
        Some(file) => Ok(file.as_slice() == bytes),
    }
}
