ghost use Rattle.std.specs.Prelude.{◌≡◌, drop, take, IfOk};
ghost use Rattle.nwq_value.specs.Limits.{text_limit};
ghost use Rattle.nss_lexer.specs.Reading.{value_from};
ghost use Rattle.nss_lexer.specs.Strings.{IsString, string_value};
ghost use Rattle.nss_lexer.specs.declared.string.Escape.TheVariants.{Outside};

use crate::string::{Escape, Step, step_by};
use nwq_value::{NoMemory, Text};
use std::alloc::Global;

fn past_quote(text: &[u8]) -> &[u8]
    ensures { result.now ≡ drop 1 text.now }
{
    match text {
        [] => text,
        [_, rest @ ..] => rest,
    }
}

/// The bytes that the rest of a string stands for, which follows its opening quote.
fn value_of(alloc: Global, rest: &[u8]) -> Result<Vec<u8>, NoMemory>
    ensures { IfOk result (λ made. made.items ≡ value_from Outside rest.now) }
{
    let mut bytes = Vec::new(alloc);
    let mut state = Escape::Outside;
    for b in rest {
        match step_by(state, *b) {
            Step::Gives(c) => {
                bytes.push(c)?;
                state = Escape::Outside;
            }
            Step::Leads(next) => state = next,
            Step::Closes | Step::Fails => return Ok(bytes),
        }
    }
    Ok(bytes)
}

/// The first 8,192 of the bytes that a string token stands for.
#[tactic(auto, using(crate::proofs::StringLaws::read_value))]
pub fn literal(alloc: Global, text: &[u8]) -> Result<Text, NoMemory>
    requires string { IsString text.now }
    ensures value { IfOk result (λ made. made ≡ take text_limit (string_value text.now)) }
{
    let bytes = value_of(alloc, past_quote(text))?;
    Text::of(alloc, bytes.as_slice())
}
