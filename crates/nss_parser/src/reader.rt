ghost use Rattle.std.specs.Prelude.{◌^◌, ◌<◌, length, map, IfOk, IfErr};
ghost use Rattle.std.specs.List.{AllByRecursion};
ghost use Rattle.nss_lexer.specs.Lexemes.{IsToken};
ghost use Rattle.nss_tree.specs.Reading.{plain_tree};
ghost use Rattle.nss_symbols.specs.Symbols.{IsLiteral};
ghost use Rattle.nss_symbols.specs.Tokens.{symbols_of};
ghost use Rattle.nss_symbols.specs.Cursor.{plain_symbol, AreSound};
ghost use Rattle.nss_parser.specs.Sentence.{Parses};
ghost use Rattle.nss_parser.specs.Sizes.{IsKnownTree};
ghost use Rattle.nss_symbols.specs.Nest.{IsWithinNest};
ghost use Rattle.nss_parser.specs.Fault.{Refuses, Misreads};

use crate::fault::ParseFault;
use crate::unit::unit;
use nss_lexer::Token;
use nss_symbols::{Cursor, Seen, Stop, first_over, seen_all};
use nss_tree::Tree;
use std::alloc::Global;

/// The tree of tokens whose nest is within the limit.
fn tree_of(alloc: Global, symbols: &[Seen<'_>]) -> Result<Tree, ParseFault>
    requires count { length symbols.now < 2 ^ 32 }
    requires sound { AreSound symbols.now }
    requires literals { AllByRecursion IsLiteral (map plain_symbol symbols.now) }
    ensures tree { IfOk result (λ tree. Parses (map plain_symbol symbols.now) (plain_tree tree)) }
    ensures known { IfOk result (λ tree. IsKnownTree (plain_tree tree)) }
    ensures refused { IfErr result (Misreads (map plain_symbol symbols.now)) }
{
    let mut cursor = Cursor::new(symbols);
    match unit(alloc, &mut cursor, symbols.len() + 2) {
        Ok(items) => Ok(Tree {
            items,
            count: symbols.len() as u32,
        }),
        Err(Stop::NoMemory) => Err(ParseFault::NoMemory),
        Err(Stop::Syntax) => {
            let passed = symbols.len() - cursor.left();
            Err(ParseFault::Syntax(passed as u32))
        }
        Err(Stop::TooDeep) => unreachable!(),
    }
}

/// The tree of a unit's tokens.
pub fn parse(alloc: Global, tokens: &[Token<'_>]) -> Result<Tree, ParseFault>
    requires count { length tokens.now < 2 ^ 32 }
    requires spelled { AllByRecursion IsToken tokens.now }
    ensures tree { IfOk result (λ tree. Parses (symbols_of tokens.now) (plain_tree tree)) }
    ensures nest { IfOk result (λ tree. IsWithinNest (symbols_of tokens.now)) }
    ensures known { IfOk result (λ tree. IsKnownTree (plain_tree tree)) }
    ensures refused { IfErr result (Refuses (symbols_of tokens.now)) }
{
    let symbols = seen_all(alloc, tokens)?;
    match first_over(alloc, symbols.as_slice())? {
        Some(at) => Err(ParseFault::Nested(at)),
        None => tree_of(alloc, symbols.as_slice()),
    }
}
