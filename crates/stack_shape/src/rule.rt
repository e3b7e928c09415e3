ghost use Rattle.std.specs.Prelude.{◌≡◌, ◌+◌, ◌<◌, ◌≤◌, ◌^◌, IfOk, IfSome, is_some, reverse};
ghost use Rattle.std.specs.Option.{option_map};
ghost use Rattle.ncs_code.specs.Plain.{plain};
ghost use Rattle.stack_shape.specs.Calls.{action_count};
ghost use Rattle.stack_shape.specs.StackEffects.{stack_effect};
ghost use Rattle.stack_shape.specs.Stored.{stored_types};
ghost use Rattle.stack_shape.specs.Rule.{IsOneStep, affected, based, called_with, restored, rule};
ghost use Rattle.stack_shape.specs.Rule.{stored, top_first};

use crate::call::{action_count, call_effect};
use crate::effect::{StackEffect, stack_effect};
use crate::shape::{Shape, Slot, Slots};
use crate::store::stored_types;
use crate::top_first::{after_effect, copy_unders};
use ncs_code::Op;
use nwq_value::{NoMemory, Routine, Table};
use std::alloc::Global;

/// The shape of these cells, with the same lists under and saved, and this number of pending
/// states.
fn shape_on(
    alloc: Global,
    cells: Slots,
    under: &[Slot],
    saved: &[Slots],
    pending: u32,
) -> Result<Shape, NoMemory>
    ensures { IfOk result (λ shape. shape ≡ record {
      cells = cells;
      under = under.now;
      saved = saved.now;
      pending = pending;
    }) }
{
    Ok(Shape {
        cells,
        under: Slots::of_slice(alloc, under)?,
        saved: copy_unders(alloc, saved)?,
        pending,
    })
}

/// The shape after an effect on its cells, with this number of pending states.
fn affected(
    alloc: Global,
    effect: &Option<StackEffect>,
    shape: &Shape,
    pending: u32,
) -> Result<Option<Shape>, NoMemory>
    ensures { IfOk result (λ after. option_map top_first after
        ≡ affected effect.now (record (top_first shape.now) { pending = pending })) }
{
    match effect {
        None => Ok(None),
        Some(effect) => {
            let cells = after_effect(alloc, shape.cells.as_slice(), effect)?;
            let (under, saved) = (shape.under.as_slice(), shape.saved.as_slice());
            Ok(Some(shape_on(alloc, cells, under, saved, pending)?))
        }
    }
}

/// SAVEBP.
fn based(alloc: Global, shape: &Shape) -> Result<Shape, NoMemory>
    ensures { IfOk result (λ after. top_first after ≡ based (top_first shape.now)) }
{
    let mut cells = Slots::of_slice(alloc, shape.cells.as_slice())?;
    cells.push(Slot::Base)?;
    let mut saved = copy_unders(alloc, shape.saved.as_slice())?;
    saved.push(Slots::of_slice(alloc, shape.under.as_slice())?)?;
    Ok(Shape {
        cells,
        under: Slots::of_slice(alloc, shape.cells.as_slice())?,
        saved,
        pending: shape.pending,
    })
}

/// RESTOREBP.
#[tactic(auto, using(crate::proofs::RuleLemmas::restoring))]
fn restored(alloc: Global, shape: &Shape) -> Result<Option<Shape>, NoMemory>
    ensures { IfOk result (λ after. let before = top_first shape.now in
        option_map top_first after ≡ restored before.cells before.saved before.pending) }
{
    match shape.cells.as_slice().split_last() {
        None => Ok(None),
        Some((Slot::Of(_), _)) => Ok(None),
        Some((Slot::Base, cells)) => match shape.saved.as_slice().split_last() {
            None => Ok(None),
            Some((under, saved)) => {
                let cells = Slots::of_slice(alloc, cells)?;
                let after = shape_on(alloc, cells, under.as_slice(), saved, shape.pending)?;
                Ok(Some(after))
            }
        },
    }
}

/// Whether all that STORE_STATE stores is there.
fn is_there(
    alloc: Global,
    globals: u32,
    locals: u32,
    under: &[Slot],
    cells: &[Slot],
) -> Result<bool, NoMemory>
    ensures { IfOk result (λ there. there ≡ is_some
        (stored_types globals locals (reverse under.now) (reverse cells.now))) }
{
    match stored_types(alloc, globals, locals, &under, &cells)? {
        None => Ok(false),
        Some(types) => {
            drop(types);
            Ok(true)
        }
    }
}

/// STORE_STATE, of so many bytes of globals and of locals.
fn stored(
    alloc: Global,
    globals: u32,
    locals: u32,
    shape: &Shape,
) -> Result<Option<Shape>, NoMemory>
    requires { shape.now.pending < 2 ^ 31 }
    ensures { IfOk result (λ after. option_map top_first after
        ≡ stored globals locals (top_first shape.now)) }
{
    let under = shape.under.as_slice();
    let cells = shape.cells.as_slice();
    if is_there(alloc, globals, locals, under, cells)? {
        let cells = Slots::of_slice(alloc, cells)?;
        let saved = shape.saved.as_slice();
        Ok(Some(shape_on(alloc, cells, under, saved, shape.pending + 1)?))
    } else {
        Ok(None)
    }
}

/// ACTION of this routine.
fn called_with(
    alloc: Global,
    routine: &Routine,
    count: u8,
    shape: &Shape,
) -> Result<Option<Shape>, NoMemory>
    ensures { IfOk result (λ after. option_map top_first after
        ≡ called_with routine.now count (top_first shape.now)) }
{
    let cells = shape.cells.as_slice();
    let effect = call_effect(alloc, routine, count, shape.pending, &cells)?;
    let actions = action_count(routine.params.as_slice());
    let pending = (shape.pending as usize).saturating_sub(actions) as u32;
    affected(alloc, &effect, shape, pending)
}

/// An instruction that changes nothing but the cells.
fn changed(alloc: Global, op: &Op<'_>, shape: &Shape) -> Result<Option<Shape>, NoMemory>
    ensures { IfOk result (λ after. let s = top_first shape.now in
        option_map top_first after ≡ affected (stack_effect (plain op.now) s.under s.cells) s) }
{
    let under = shape.under.as_slice();
    let cells = shape.cells.as_slice();
    let effect = stack_effect(alloc, op, &under, &cells)?;
    affected(alloc, &effect, shape, shape.pending)
}

/// The shape after one instruction that is neither JSR nor RETN, or `None` exactly where it has no
/// rule on this shape. A jump has the one shape at both of its places.
#[tactic(auto, unfolding(crate::specs::Rule::rule))]
pub fn step(
    alloc: Global,
    op: &Op<'_>,
    shape: &Shape,
    table: &Table,
) -> Result<Option<Shape>, NoMemory>
    requires one { IsOneStep (plain op.now) }
    requires pending { shape.now.pending < 2 ^ 31 }
    ensures after { IfOk result (λ after. option_map top_first after
        ≡ rule table.now (plain op.now) (top_first shape.now)) }
{
    match op {
        Op::Action { routine, count } => match table.routine(*routine) {
            None => Ok(None),
            Some(routine) => called_with(alloc, routine, *count, shape),
        },
        Op::SaveBp => Ok(Some(based(alloc, shape)?)),
        Op::RestoreBp => restored(alloc, shape),
        Op::StoreState { globals, locals } => stored(alloc, *globals, *locals, shape),
        _ => changed(alloc, op, shape),
    }
}
