ghost use Rattle.std.specs.Prelude.{◌≡◌, ◌≢◌, ◌+◌, ◌<◌, ◌≤◌, ℕ, None, Some, IfOk, IfSome, OnOk};
ghost use Rattle.std.specs.Prelude.{length, slice_get};
ghost use Rattle.ncs_code.specs.File.{file_length, op_at};
ghost use Rattle.decoded_code.specs.declared.step.Step.{Step as PlainStep};
ghost use Rattle.decoded_code.specs.Steps.{AreDecoded, AreSteps, kept, op_of};

use crate::step::{Step, step_of};
use ncs_code::{HEADER_BYTES, place_laws, size_laws};
use ncs_file::{Code, next_begins, store};
use nwq_value::NoMemory;
use std::alloc::Global;

/// The instructions of a file, decoded, each at half its place.
#[tactic(auto, using(crate::proofs::Filling::steps_lemmas))]
pub fn steps_of(alloc: Global, code: &Code) -> Result<Vec<Step>, NoMemory>
    ensures steps { IfOk result (λ steps. AreSteps code.now steps.items) }
{
    place_laws();
    size_laws();
    let end = store(code).len();
    let mut steps = Vec::with_capacity(alloc, end / 2)?;
    let mut at = HEADER_BYTES;
    while at < end {
        at += add_step(alloc, code, &mut steps, at)?;
    }
    Ok(steps)
}

/// Puts the step of a place behind those of the places beneath it. Gives the instruction's size.
#[tactic(auto, using(crate::proofs::Filling::add_lemmas))]
fn add_step(alloc: Global, code: &Code, steps: &mut Vec<Step>, at: usize) -> Result<usize, NoMemory>
    requires decoded { AreDecoded code.now at steps.old.items }
    requires more { at < file_length code.now }
    ensures decoded { IfOk result (λ size. AreDecoded code.now (at + size) steps.new.items) }
    ensures some { IfOk result (λ size. 2 ≤ size) }
{
    code.sound();
    place_laws();
    size_laws();
    next_begins();
    match code.op_at(at as u32) {
        None => unreachable!(),
        Some((op, size)) => {
            let step = step_of(alloc, &op, size)?;
            put_at(steps, at / 2, step)?;
            Ok(size as usize)
        }
    }
}

/// Puts a step at an index that is no less than the count of the others.
#[tactic(auto, using(crate::proofs::Filling::put_lemmas))]
fn put_at(steps: &mut Vec<Step>, index: usize, step: Step) -> Result<(), NoMemory>
    requires behind { length steps.old.items ≤ index }
    ensures put { OnOk result (slice_get steps.new.items index ≡ Some step) }
    ensures count { OnOk result (length steps.new.items ≡ index + 1) }
    ensures others { OnOk result ((i : ℕ) (other : PlainStep)
        → slice_get steps.old.items i ≡ Some other → slice_get steps.new.items i ≡ Some other) }
{
    fill(steps, index)?;
    steps.push(step)?;
    Ok(())
}

/// Puts steps last, which stand for nothing, up to a count.
#[tactic(auto, using(crate::proofs::Filling::put_lemmas))]
fn fill(steps: &mut Vec<Step>, count: usize) -> Result<(), NoMemory>
    requires behind { length steps.old.items ≤ count }
    ensures count { OnOk result (length steps.new.items ≡ count) }
    ensures others { OnOk result ((i : ℕ) (other : PlainStep)
        → slice_get steps.old.items i ≡ Some other → slice_get steps.new.items i ≡ Some other) }
{
    for _index in steps.len()..count {
        steps.push(Step::Nop)?;
    }
    Ok(())
}

/// The decoded instruction that begins at a place of the file.
#[inline(always)]
#[tactic(auto, using(crate::proofs::Filling::found_lemmas))]
pub fn step_at<'a>(code: &Code, steps: &'a [Step], at: u32) -> &'a Step
    requires steps { AreSteps code.now steps.now }
    requires begins { op_at code.now at ≢ None }
    ensures step { IfSome (op_at code.now at) (λ op. op_of result.now ≡ kept op) }
{
    let _ = code;
    &steps[at as usize / 2]
}
