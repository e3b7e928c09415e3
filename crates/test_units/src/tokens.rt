ghost use Rattle.std.specs.Prelude.{◌≤◌, length, IfOk};
ghost use Rattle.std.specs.List.{AllByRecursion};
ghost use Rattle.nss_lexer.specs.Lexemes.{IsToken};
ghost use Rattle.nwq_value.specs.Limits.{file_limit};

use nss_lexer::{Lexed, Token, next};
use nwq_value::NoMemory;
use std::alloc::Global;

/// The tokens of a text, up to its first bad place.
#[tactic(auto, using(crate::proofs::TokenLaws::token_is, crate::proofs::TokenLaws::all_push))]
pub fn tokens_of<'a>(alloc: Global, source: &'a [u8]) -> Result<Vec<Token<'a>>, NoMemory>
    requires small { length source.now ≤ file_limit }
    ensures tokens { IfOk result (λ all. AllByRecursion IsToken all.items) }
    ensures count { IfOk result (λ all. length all.items ≤ length source.now) }
{
    let mut all = Vec::new(alloc);
    let mut at = 0;
    for _turn in 0..source.len() {
        match next(source, 0, at) {
            Lexed::Token(token) => {
                at = token.end;
                all.push(token)?;
            }
            _ => return Ok(all),
        }
    }
    Ok(all)
}
