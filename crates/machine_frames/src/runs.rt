//! Instructions that read and write runs of values.
ghost use Rattle.std.specs.Prelude.{◌≡◌, ◌≢◌, ◌≤◌, ◌<◌, ◌+◌, ◌^◌, Some, OnOk, IfSome};
ghost use Rattle.std.specs.Prelude.{◌∷◌, drop, length, slice_get, slice_set};
ghost use Rattle.nwq_value.specs.Operators.{values_eq};
ghost use Rattle.machine_rules.specs.Cells.{int_changed, overwritten, range_kept, range_pushed};
ghost use Rattle.machine_rules.specs.Cells.{range_written, runs_compared, pair_compared};
ghost use Rattle.machine_rules.specs.Cells.{values_dropped, values_on, with_values};
ghost use Rattle.machine_frames.specs.Operations.{unary_of};
ghost use Rattle.machine_frames.specs.Tops.{AreValues, HasValue, answer_of};

use crate::top::{put, value};
use nwq_value::{NoMemory, Value};
use saved_state::{Cell, Stack};
use std::alloc::Global;

/// Copies a value onto another one. Most are ints, which are copied here.
#[inline(always)]
#[tactic(auto, using(crate::proofs::RunLemmas::put_read))]
fn copy_onto(alloc: Global, stack: &mut Stack, from: usize, onto: usize) -> Result<(), NoMemory>
    requires from { HasValue from stack.old.cells }
    requires onto { HasValue onto stack.old.cells }
    ensures cells { OnOk result (IfSome (slice_get stack.old.cells from)
        (λ cell. stack.new ≡ record stack.old { cells = slice_set stack.old.cells onto cell })) }
{
    match stack.int_near(from) {
        None => copy_onto_apart(alloc, stack, from, onto),
        Some(n) => {
            put(stack, onto, Value::Int(n))?;
            Ok(())
        }
    }
}

/// The same by a call of its own, so that the way of ints stays short.
#[inline(never)]
#[tactic(auto, using(crate::proofs::RunLemmas::put_read))]
fn copy_onto_apart(
    alloc: Global,
    stack: &mut Stack,
    from: usize,
    onto: usize,
) -> Result<(), NoMemory>
    requires from { HasValue from stack.old.cells }
    requires onto { HasValue onto stack.old.cells }
    ensures cells { OnOk result (IfSome (slice_get stack.old.cells from)
        (λ cell. stack.new ≡ record stack.old { cells = slice_set stack.old.cells onto cell })) }
{
    let copy = value(stack, from).copy(alloc)?;
    put(stack, onto, copy)?;
    Ok(())
}

/// Pushes a copy of a value. Most are ints, which are copied here.
#[inline(always)]
#[tactic(auto, using(crate::proofs::RunLemmas::pushed_read))]
fn push_copy(alloc: Global, stack: &mut Stack, above: usize) -> Result<(), NoMemory>
    requires value { HasValue above stack.old.cells }
    ensures cells { OnOk result (IfSome (slice_get stack.old.cells above)
        (λ cell. stack.new ≡ record stack.old { cells = cell ∷ stack.old.cells })) }
{
    match stack.int_near(above) {
        None => push_copy_apart(alloc, stack, above),
        Some(n) => {
            stack.push(Cell::Value(Value::Int(n)))?;
            Ok(())
        }
    }
}

/// The same by a call of its own.
#[inline(never)]
#[tactic(auto, using(crate::proofs::RunLemmas::pushed_read))]
fn push_copy_apart(alloc: Global, stack: &mut Stack, above: usize) -> Result<(), NoMemory>
    requires value { HasValue above stack.old.cells }
    ensures cells { OnOk result (IfSome (slice_get stack.old.cells above)
        (λ cell. stack.new ≡ record stack.old { cells = cell ∷ stack.old.cells })) }
{
    let copy = value(stack, above).copy(alloc)?;
    stack.push(Cell::Value(copy))?;
    Ok(())
}

/// Writes the `count` values that begin `from` cells down onto those that begin `onto` cells down,
/// the lowest first, so that each is read before it is written.
#[inline(always)]
pub fn copy_down(
    alloc: Global,
    stack: &mut Stack,
    from: usize,
    onto: usize,
    count: usize,
) -> Result<(), NoMemory>
    requires from { AreValues count (drop from stack.old.cells) }
    requires onto { AreValues count (drop onto stack.old.cells) }
    requires order { from ≤ onto }
    ensures cells { OnOk result (IfSome (values_on count (drop from stack.old.cells))
        (λ vs. stack.new ≡ record stack.old { cells = overwritten onto vs stack.old.cells })) }
{
    if count > 1 {
        copy_run(alloc, stack, from, onto, count)
    } else {
        copy_each(alloc, stack, from, onto, count)
    }
}

/// The same of several values, which are mostly on top of the stack.
#[inline(never)]
#[tactic(auto, using(crate::proofs::RunLemmas::run_lemmas))]
fn copy_run(
    alloc: Global,
    stack: &mut Stack,
    from: usize,
    onto: usize,
    count: usize,
) -> Result<(), NoMemory>
    requires from { AreValues count (drop from stack.old.cells) }
    requires onto { AreValues count (drop onto stack.old.cells) }
    requires order { from ≤ onto }
    requires some { 1 < count }
    ensures cells { OnOk result (IfSome (values_on count (drop from stack.old.cells))
        (λ vs. stack.new ≡ record stack.old { cells = overwritten onto vs stack.old.cells })) }
{
    if stack.copy_down(from, onto, count)? {
        Ok(())
    } else {
        copy_each(alloc, stack, from, onto, count)
    }
}

/// The same one by one.
#[inline(always)]
#[tactic(auto, using(crate::proofs::RunLemmas::copy_lemmas))]
fn copy_each(
    alloc: Global,
    stack: &mut Stack,
    from: usize,
    onto: usize,
    count: usize,
) -> Result<(), NoMemory>
    requires from { AreValues count (drop from stack.old.cells) }
    requires onto { AreValues count (drop onto stack.old.cells) }
    requires order { from ≤ onto }
    ensures cells { OnOk result (IfSome (values_on count (drop from stack.old.cells))
        (λ vs. stack.new ≡ record stack.old { cells = overwritten onto vs stack.old.cells })) }
{
    let len = stack.len();
    let mut left = count;
    while left > 0 {
        left -= 1;
        copy_onto(alloc, stack, from + left, onto + left)?;
    }
    Ok(())
}

/// Pushes the `count` values that begin `above` cells down.
#[inline(always)]
#[tactic(auto, using(crate::proofs::RunLemmas::push_lemmas))]
pub fn push_copies(
    alloc: Global,
    stack: &mut Stack,
    above: usize,
    count: usize,
) -> Result<(), NoMemory>
    requires values { AreValues count (drop above stack.old.cells) }
    ensures cells { OnOk result (IfSome (values_on count (drop above stack.old.cells))
        (λ vs. stack.new ≡ record stack.old { cells = with_values vs stack.old.cells })) }
{
    if count > 1 {
        stack.push_copies(above, count)?;
        Ok(())
    } else if count > 0 {
        push_copy(alloc, stack, above)?;
        Ok(())
    } else {
        Ok(())
    }
}
