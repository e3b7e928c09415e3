ghost use Rattle.std.specs.Prelude.{◌≡◌, ◌≤◌, ◌↔◌, ◌+◌, ◌∷◌, ◌++◌, length, map, slice_get, take};
ghost use Rattle.std.specs.Prelude.{IfOk, IfSome, IsTrue, MatchOption, None};
ghost use Rattle.std.specs.Option.{option_map};
ghost use Rattle.stack_shape.specs.Rule.{affected, based, called_with, restored, rule, stored};
ghost use Rattle.stack_shape.specs.Rule.{IsOneStep, called_shape};
ghost use Rattle.stack_shape.specs.Stored.{stored_shape};
ghost use Rattle.stack_shape.specs.StackEffects.{after_effect, stack_effect};
ghost use Rattle.stack_shape.specs.declared.shape.Slot.TheVariants.{Of};
ghost use Rattle.ncs_code.specs.Plain.{plain, MovSp, RsAdd};
ghost use Rattle.stack_lists.specs.Shared.{read};
ghost use Rattle.stack_lists.specs.Held.{AfterStep, AreStored, Holds, IsIn, is_still, shape_of};
ghost use Rattle.stack_lists.specs.Held.{stored_of};

use crate::budget::room;
use crate::lists::Lists;
use crate::slots::{Top, join, put_types, same};
use crate::stacks::Stacks;
use ncs_code::Op;
use nwq_value::{NoMemory, Routine, Table, Ty};
use stack_shape::{
    Slot, StackEffect, action_count, call_effect, cell_count, depth_of, stack_effect, type_of_one,
};
use std::alloc::Global;

/// A shape whose lists are numbers of shared ones.
#[derive(Clone, Copy)]
pub struct Held {
    pub cells: u32,
    pub under: u32,
    pub saved: u32,
    pub pending: u32,
}

/// The lists of all shapes: those of slots, and the saved ones, whose members are lists of slots.
#[derive(Drop)]
pub struct Heap {
    pub slots: Stacks,
    pub saved: Lists<u32>,
}

/// Whether both saved lists have the same lists of slots.
#[tactic(auto, using(crate::proofs::Walks::comparing))]
fn same_saved(heap: &Heap, a: u32, b: u32) -> bool
    ensures { IsTrue result ↔ (map (read heap.now.slots) (read heap.now.saved a)
        ≡ map (read heap.now.slots) (read heap.now.saved b)) }
{
    let mut x = a;
    let mut y = b;
    while x != y {
        match (heap.saved.pop(x), heap.saved.pop(y)) {
            (None, None) => return true,
            (None, Some(_)) => return false,
            (Some(_), None) => return false,
            (Some((s, rest)), Some((t, other))) => {
                if !same(&heap.slots, s, t) {
                    return false;
                }
                x = rest;
                y = other;
            }
        }
    }
    true
}

/// Whether both are the same shape.
#[tactic(auto, using(crate::proofs::Heaps::same_parts))]
pub fn same_shape(heap: &Heap, a: Held, b: Held) -> bool
    ensures same { IsTrue result ↔ (shape_of heap.now a ≡ shape_of heap.now b) }
{
    a.pending == b.pending
        && same(&heap.slots, a.cells, b.cells)
        && same(&heap.slots, a.under, b.under)
        && same_saved(heap, a.saved, b.saved)
}

/// The shape with so many of a list's topmost slots on another list in the place of its cells.
#[tactic(auto, using(crate::proofs::Heaps::changing))]
pub fn with_cells(
    alloc: Global,
    heap: &mut Heap,
    held: Held,
    upper: u32,
    count: usize,
    lower: u32,
) -> Result<Held, NoMemory>
    requires inside { IsIn heap.old held }
    requires upper { upper ≤ length heap.old.slots }
    requires lower { lower ≤ length heap.old.slots }
    ensures holds { IfOk result (λ now. Holds heap.old heap.new now
        (record (shape_of heap.old held) {
          cells = take count (read heap.old.slots upper) ++ read heap.old.slots lower;
        })) }
{
    let cells = join(alloc, &mut heap.slots, upper, count, lower)?;
    Ok(Held {
        cells,
        under: held.under,
        saved: held.saved,
        pending: held.pending,
    })
}

/// The shape after an effect on its cells, with this number of pending states.
#[tactic(auto, using(crate::proofs::Heaps::changing))]
fn with_effect(
    heap: &mut Heap,
    effect: &StackEffect,
    held: Held,
    pending: u32,
) -> Result<Held, NoMemory>
    requires inside { IsIn heap.old held }
    ensures { IfOk result (λ after. Holds heap.old heap.new after (record (shape_of heap.old held) {
      cells = after_effect effect.now (read heap.old.slots held.cells);
      pending = pending;
    })) }
{
    let below = heap.slots.lower(held.cells, effect.pops);
    let cells = put_types(&mut heap.slots, below, effect.pushes.as_slice())?;
    Ok(Held {
        cells,
        under: held.under,
        saved: held.saved,
        pending,
    })
}

/// The shape after an effect, where there is one.
#[tactic(auto, using(crate::proofs::Heaps::affecting))]
fn affected(
    heap: &mut Heap,
    effect: Option<StackEffect>,
    held: Held,
    pending: u32,
) -> Result<Option<Held>, NoMemory>
    requires inside { IsIn heap.old held }
    ensures { IfOk result (λ after. AfterStep heap.old heap.new after
        (affected effect (record (shape_of heap.old held) { pending = pending }))) }
{
    match effect {
        None => Ok(None),
        Some(effect) => Ok(Some(with_effect(heap, &effect, held, pending)?)),
    }
}

/// The shape with a value on its cells.
#[tactic(auto, using(crate::proofs::Heaps::changing))]
fn pushed(heap: &mut Heap, ty: Ty, held: Held) -> Result<Held, NoMemory>
    requires inside { IsIn heap.old held }
    ensures { IfOk result (λ after. Holds heap.old heap.new after (record (shape_of heap.old held) {
      cells = Of ty ∷ read heap.old.slots held.cells;
    })) }
{
    let cells = heap.slots.push(held.cells, Slot::Of(ty))?;
    Ok(Held {
        cells,
        under: held.under,
        saved: held.saved,
        pending: held.pending,
    })
}

/// RSADD of this type byte.
#[tactic(auto, using(crate::proofs::Heaps::pushing), unfolding(stack_shape::specs::StackEffects::stack_effect))]
fn started(heap: &mut Heap, kind: u8, held: Held) -> Result<Option<Held>, NoMemory>
    requires inside { IsIn heap.old held }
    ensures { IfOk result (λ after. AfterStep heap.old heap.new after
        (let s = shape_of heap.old held in
        affected (stack_effect (RsAdd kind) s.under s.cells) s)) }
{
    match type_of_one(kind) {
        None => Ok(None),
        Some(ty) => Ok(Some(pushed(heap, ty, held)?)),
    }
}

/// SAVEBP.
#[tactic(auto, using(crate::proofs::Heaps::basing))]
fn based(heap: &mut Heap, held: Held) -> Result<Held, NoMemory>
    requires inside { IsIn heap.old held }
    ensures { IfOk result (λ after. Holds heap.old heap.new after (based (shape_of heap.old
        held))) }
{
    let cells = heap.slots.push(held.cells, Slot::Base)?;
    let saved = heap.saved.push(held.saved, held.under)?;
    Ok(Held {
        cells,
        under: held.cells,
        saved,
        pending: held.pending,
    })
}

/// RESTOREBP.
#[tactic(auto, using(crate::proofs::Heaps::restoring))]
fn restored(heap: &Heap, held: Held) -> Option<Held>
    requires inside { IsIn heap.now held }
    ensures { AfterStep heap.now heap.now result (let s = shape_of heap.now held in
        restored s.cells s.saved s.pending) }
{
    match heap.slots.pop(held.cells) {
        None => None,
        Some((slot, cells)) => match slot {
            Slot::Of(_) => None,
            Slot::Base => match heap.saved.pop(held.saved) {
                None => None,
                Some((under, saved)) => Some(Held {
                    cells,
                    under,
                    saved,
                    pending: held.pending,
                }),
            },
        },
    }
}

/// How many globals and locals STORE_STATE of so many bytes stores of a shape, or `None` where one
/// of these slots isn't there or is a base. The topmost bases tell, without a look at the slots.
#[tactic(auto, using(crate::proofs::Heaps::counting))]
pub fn stored_counts(globals: u32, locals: u32, heap: &Heap, held: Held) -> Option<(usize, usize)>
    ensures counts { MatchOption result (stored_of globals locals (shape_of heap.now held) ≡ None)
        (λ counts. AreStored globals locals (shape_of heap.now held) counts.0 counts.1) }
{
    match cell_count(globals) {
        None => None,
        Some(globals) => match cell_count(locals) {
            None => None,
            Some(locals) => {
                if !heap.slots.are_values(held.under, globals) {
                    return None;
                }
                if !heap.slots.are_values(held.cells, locals) {
                    return None;
                }
                Some((globals, locals))
            }
        },
    }
}

/// STORE_STATE, of so many bytes of globals and of locals.
#[tactic(auto, using(crate::proofs::Heaps::storing))]
fn stored(globals: u32, locals: u32, heap: &Heap, held: Held) -> Result<Option<Held>, NoMemory>
    requires inside { IsIn heap.now held }
    ensures { IfOk result (λ after. AfterStep heap.now heap.now after
        (stored globals locals (shape_of heap.now held))) }
{
    match stored_counts(globals, locals, heap, held) {
        None => Ok(None),
        Some(_) => Ok(Some(Held {
            cells: held.cells,
            under: held.under,
            saved: held.saved,
            pending: one_more(held.pending)?,
        })),
    }
}

/// The shape with which resumes what STORE_STATE of so many bytes stores of a shape, or `None`
/// exactly where it stores nothing.
#[tactic(auto, using(crate::proofs::Heaps::resuming))]
pub fn resumed(
    alloc: Global,
    globals: u32,
    locals: u32,
    heap: &mut Heap,
    held: Held,
) -> Result<Option<Held>, NoMemory>
    requires inside { IsIn heap.old held }
    ensures after { IfOk result (λ after. AfterStep heap.old heap.new after
        (option_map stored_shape (stored_of globals locals (shape_of heap.old held)))) }
    ensures first { IfOk result (λ after. IfSome after
        (λ first. (first.saved ≡ 0) × (first.pending ≡ 0))) }
{
    match stored_counts(globals, locals, heap, held) {
        None => Ok(None),
        Some((globals, locals)) => {
            let under = join(alloc, &mut heap.slots, held.under, globals, 0)?;
            let base = heap.slots.push(under, Slot::Base)?;
            let cells = join(alloc, &mut heap.slots, held.cells, locals, base)?;
            Ok(Some(Held {
                cells,
                under,
                saved: 0,
                pending: 0,
            }))
        }
    }
}

fn one_more(pending: u32) -> Result<u32, NoMemory>
    ensures { IfOk result (λ more. more ≡ pending + 1) }
{
    room(pending as usize)?;
    Ok(pending + 1)
}

/// A list of slots, seen from its top.
fn top(heap: &Heap, number: u32) -> Top<'_>
    ensures lists { result.lists.now ≡ heap.now.slots }
    ensures number { result.number ≡ number }
{
    Top {
        lists: &heap.slots,
        number,
    }
}

/// ACTION of this routine.
#[tactic(auto, using(crate::proofs::Heaps::calling))]
fn called_with(
    alloc: Global,
    routine: &Routine,
    count: u8,
    heap: &mut Heap,
    held: Held,
) -> Result<Option<Held>, NoMemory>
    requires inside { IsIn heap.old held }
    ensures { IfOk result (λ after. AfterStep heap.old heap.new after
        (called_with routine.now count (shape_of heap.old held))) }
{
    let effect = call_effect(alloc, routine, count, held.pending, &top(heap, held.cells))?;
    let actions = action_count(routine.params.as_slice());
    let pending = (held.pending as usize).saturating_sub(actions) as u32;
    affected(heap, effect, held, pending)
}

/// ACTION of the routine with this number in the table.
#[tactic(auto, using(crate::proofs::Heaps::calling))]
fn called(
    alloc: Global,
    table: &Table,
    routine: u16,
    count: u8,
    heap: &mut Heap,
    held: Held,
) -> Result<Option<Held>, NoMemory>
    requires inside { IsIn heap.old held }
    ensures { IfOk result (λ after. AfterStep heap.old heap.new after
        (called_shape (slice_get table.now.routines routine) count (shape_of heap.old held))) }
{
    match table.routine(routine) {
        None => Ok(None),
        Some(routine) => called_with(alloc, routine, count, heap, held),
    }
}

/// An instruction that changes nothing but the cells.
fn changed(
    alloc: Global,
    op: &Op<'_>,
    heap: &mut Heap,
    held: Held,
) -> Result<Option<Held>, NoMemory>
    requires inside { IsIn heap.old held }
    ensures { IfOk result (λ after. AfterStep heap.old heap.new after
        (let s = shape_of heap.old held in affected (stack_effect (plain op.now) s.under
        s.cells) s)) }
{
    let effect = stack_effect(alloc, op, &top(heap, held.under), &top(heap, held.cells))?;
    affected(heap, effect, held, held.pending)
}

/// MOVSP of this offset. Only values are removed, so no list of types is made.
#[tactic(auto, using(crate::proofs::Heaps::moving), unfolding(stack_shape::specs::StackEffects::stack_effect))]
fn moved(heap: &Heap, offset: i32, held: Held) -> Option<Held>
    requires inside { IsIn heap.now held }
    ensures { AfterStep heap.now heap.now result
        (let s = shape_of heap.now held in
        affected (stack_effect (MovSp offset) s.under s.cells) s) }
{
    match depth_of(offset) {
        None => None,
        Some(count) => {
            if !heap.slots.are_values(held.cells, count) {
                return None;
            }
            Some(Held {
                cells: heap.slots.lower(held.cells, count),
                under: held.under,
                saved: held.saved,
                pending: held.pending,
            })
        }
    }
}

/// Whether an instruction leaves each shape as it is.
#[tactic(auto, unfolding(crate::specs::Held::is_still))]
fn is_still(op: &Op<'_>) -> bool
    ensures { result ≡ is_still (plain op.now) }
{
    match op {
        Op::Jmp { .. } | Op::Nop => true,
        _ => false,
    }
}

/// The shape after one instruction that is neither JSR nor RETN, or `None` exactly where it has no
/// rule on this shape.
#[tactic(auto, using(crate::proofs::Heaps::stepping), unfolding(stack_shape::specs::Rule::rule))]
pub fn step(
    alloc: Global,
    op: &Op<'_>,
    table: &Table,
    heap: &mut Heap,
    held: Held,
) -> Result<Option<Held>, NoMemory>
    requires one { IsOneStep (plain op.now) }
    requires inside { IsIn heap.old held }
    ensures after { IfOk result (λ after. AfterStep heap.old heap.new after
        (rule table.now (plain op.now) (shape_of heap.old held))) }
{
    // What needs no list of types is done without one.
    if is_still(op) {
        return Ok(Some(held));
    }
    match op {
        Op::Action { routine, count } => called(alloc, table, *routine, *count, heap, held),
        Op::SaveBp => Ok(Some(based(heap, held)?)),
        Op::RestoreBp => Ok(restored(heap, held)),
        Op::StoreState { globals, locals } => stored(*globals, *locals, heap, held),
        Op::RsAdd { kind } => started(heap, *kind, held),
        Op::MovSp { offset } => Ok(moved(heap, *offset, held)),
        _ => changed(alloc, op, heap, held),
    }
}
