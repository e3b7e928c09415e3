ghost use Rattle.std.specs.Prelude.{◌≡◌, OnErr, IfOk, IfSome, false, true};
ghost use Rattle.stack_rules.specs.Rules.{WellStacked};
ghost use Rattle.message_stacks.specs.Refused.{IsRefused};

use crate::reason::put_reason;
use ncs_file::{Code, load};
use nwq_value::{FILE_BYTES, NoMemory, Table};
use stack_reasons::find_reason;
use std::alloc::Global;

/// The sentence for code, where a reason is found for which it is refused.
fn sentence_for(alloc: Global, code: &Code, table: &Table) -> Result<Option<Vec<u8>>, NoMemory>
    ensures refused { IfOk result (λ sentence. IfSome sentence (λ _. WellStacked table.now code.now
        → ⊥)) }
{
    match find_reason(alloc, code, table)? {
        None => Ok(None),
        Some(reason) => {
            let mut sentence = Vec::new(alloc);
            let done = put_reason(&mut sentence, code, table, &reason);
            drop(reason);
            match done {
                Err(error) => {
                    drop(sentence);
                    Err(error)
                }
                Ok(()) => Ok(Some(sentence)),
            }
        }
    }
}

/// The sentence for the code of a file that is refused.
#[tactic(auto, using(crate::proofs::Telling::telling))]
fn sentence_of(alloc: Global, bytes: &[u8], table: &Table) -> Result<Option<Vec<u8>>, NoMemory>
    ensures refused { IfOk result (λ sentence. IfSome sentence (λ _. IsRefused table.now
        bytes.now)) }
{
    if bytes.len() > FILE_BYTES {
        return Ok(None);
    }
    match load(alloc, Vec::from_slice(alloc, bytes)?) {
        Err(_) => Ok(None),
        Ok(code) => {
            let sentence = sentence_for(alloc, &code, table);
            drop(code);
            sentence
        }
    }
}

/// Puts the sentence for a file's code, where a reason is found for which it is refused, and tells
/// whether there is one.
pub fn put_why(
    alloc: Global,
    bytes: &[u8],
    table: &Table,
    out: &mut Vec<u8>,
) -> Result<bool, NoMemory>
    // What is told of is a file of code that no table of shapes fits.
    ensures refused { IfOk result (λ told. told ≡ true → IsRefused table.now bytes.now) }
    // Where nothing is told nothing is put.
    ensures none { IfOk result (λ told. told ≡ false → out.new.items ≡ out.old.items) }
    ensures err { OnErr result (out.new.items ≡ out.old.items) }
{
    match sentence_of(alloc, bytes, table)? {
        None => Ok(false),
        Some(sentence) => {
            let done = out.extend_from_slice(sentence.as_slice());
            drop(sentence);
            done?;
            Ok(true)
        }
    }
}
