//! Why a unit is refused at a token.

ghost use Rattle.std.specs.Prelude.{◌≡◌, ◌++◌, ◌≤◌, length, is_some, IfOk, OnOk};
ghost use Rattle.std.specs.List.{AllByRecursion};
ghost use Rattle.nwq_value.specs.Limits.{token_limit};
ghost use Rattle.nss_lexer.specs.Lexemes.{IsToken};
ghost use Rattle.nss_symbols.specs.Tokens.{symbols_of};
ghost use Rattle.nss_tree.specs.Reading.{plain_tree};
ghost use Rattle.nss_reasons.specs.Reasons.{reason_at};
ghost use Rattle.message_types.specs.Sentences.{or_nothing, said_there};
ghost use Rattle.message_types.specs.Told.{Answers, Told};

use crate::sentences::put_reason;
use nss_lexer::Token;
use nss_parser::{ParseFault, parse};
use nss_reasons::explain;
use nss_tree::Tree;
use nwq_value::{NoMemory, Table};
use std::alloc::Global;

/// Appends the sentence for the reason of the node with this token, if there is one.
fn put_at(
    alloc: Global,
    out: &mut Vec<u8>,
    table: &Table,
    tree: &Tree,
    token: u32,
    piece: &[u8],
) -> Result<bool, NoMemory>
    ensures told { IfOk result (λ told. told
        ≡ is_some (said_there piece.now (reason_at table.now (plain_tree tree.now) token))) }
    ensures appends { OnOk result (out.new.items ≡ out.old.items
        ++ or_nothing (said_there piece.now (reason_at table.now (plain_tree tree.now) token))) }
{
    match explain(alloc, table, tree, token)? {
        None => Ok(false),
        Some(reason) => put_reason(out, piece, reason),
    }
}

/// Appends why the tree of a unit is refused at the token of this text that begins at a place of
/// its file. Whether it is found.
fn put_of_tree(
    alloc: Global,
    out: &mut Vec<u8>,
    tokens: &[Token<'_>],
    tree: &Tree,
    place: u32,
    piece: &[u8],
    table: &Table,
) -> Result<bool, NoMemory>
    requires few { length tokens.now ≤ token_limit }
    ensures told { IfOk result
        (Told table.now (plain_tree tree.now) piece.now out.old.items out.new.items) }
{
    for (i, token) in tokens.iter().enumerate() {
        if token.start == place
            && token.text == piece
            && put_at(alloc, out, table, tree, i as u32, piece)?
        {
            return Ok(true);
        }
    }
    Ok(false)
}

/// Appends why the rules of types refuse a unit at the token of this text that begins at a place of
/// its file. Whether it is found.
pub fn put_why(
    alloc: Global,
    out: &mut Vec<u8>,
    tokens: &[Token<'_>],
    place: u32,
    piece: &[u8],
    table: &Table,
) -> Result<bool, NoMemory>
    requires few { length tokens.now ≤ token_limit }
    requires tokens { AllByRecursion IsToken tokens.now }
    ensures answers { IfOk result (Answers table.now (symbols_of tokens.now) piece.now
        out.old.items out.new.items) }
{
    match parse(alloc, tokens) {
        Err(ParseFault::NoMemory) => Err(NoMemory),
        Err(_) => Ok(false),
        Ok(tree) => {
            let told = put_of_tree(alloc, out, tokens, &tree, place, piece, table);
            drop(tree);
            told
        }
    }
}
