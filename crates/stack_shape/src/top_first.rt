ghost use Rattle.std.specs.Prelude.{◌≡◌, ◌↔◌, IsTrue, IfSome, ◌∷◌, ◌++◌, [], IfOk, List, drop, map};
ghost use Rattle.std.specs.Prelude.{reverse, slice_get, take, length, ◌≤◌, ◌-◌};
ghost use Rattle.nwq_value.specs.Roles.{tys_eq};
ghost use Rattle.stack_shape.specs.StackEffects.{after_effect};
ghost use Rattle.stack_shape.specs.TopFirst.{types_at, types_on};
ghost use Rattle.stack_shape.specs.declared.shape.Slot.{Slot};
ghost use Rattle.stack_shape.specs.declared.shape.Slot.TheVariants.{Of};

use crate::effect::StackEffect;
use crate::range::CellRange;
use crate::shape::{Slot, Slots, Unders};
use nwq_value::{NoMemory, Ty, Tys};
use std::alloc::Global;

/// A list of slots that is seen from its top. The rule of an instruction asks no more of a list
/// than this, so lists that share their lower parts have the same rule as plain ones.
pub trait TopFirst {
    /// The slots, the top one first.
    ghost slots: { Self → List Slot };

    /// The types of the slots of a range, the top one first, where they are there and none is a
    /// base.
    fn types_at(&self, alloc: Global, range: CellRange) -> Result<Option<Tys>, NoMemory>
        ensures types { IfOk result (λ types. types ≡ types_at range (slots self.now)) }
        ensures count { IfOk result (λ types. IfSome types (λ types. length types ≡ range.count)) };
}

/// Slots that grow at their end: the top one is last.
impl TopFirst for &[Slot] {
    ghost slots = { λ s. reverse s.now };

    fn types_at(&self, alloc: Global, range: CellRange) -> Result<Option<Tys>, NoMemory> {
        types_on(alloc, lower(self, range.above), range.count)
    }
}

/// The types of so many slots from the top.
pub fn top_types<C: TopFirst>(
    alloc: Global,
    cells: &C,
    count: usize,
) -> Result<Option<Tys>, NoMemory>
    ensures types { IfOk result (λ types. types ≡ types_on count (C.slots cells.now)) }
    ensures length { IfOk result (λ types. IfSome types (λ types. length types ≡ count)) }
{
    cells.types_at(alloc, CellRange { above: 0, count })
}

/// The slot at a depth, counted from 0 at the top.
fn slot_at(slots: &[Slot], depth: usize) -> Option<Slot>
    ensures { result ≡ slice_get (reverse slots.now) depth }
{
    if depth < slots.len() {
        Some(slots[slots.len() - 1 - depth])
    } else {
        None
    }
}

/// The slots below the topmost `above`.
#[tactic(auto, using(crate::proofs::Tops::lower_some, crate::proofs::Tops::lower_none))]
fn lower(slots: &[Slot], above: usize) -> &[Slot]
    ensures { reverse result.now ≡ drop above (reverse slots.now) }
{
    if above <= slots.len() {
        &slots[..slots.len() - above]
    } else {
        &[]
    }
}

/// The types of so many slots from the top, the top one first, where they are there and none is a
/// base.
#[tactic(auto, using(crate::proofs::Tops::reading))]
fn types_on(alloc: Global, slots: &[Slot], count: usize) -> Result<Option<Tys>, NoMemory>
    ensures types { IfOk result (λ types. types ≡ types_on count (reverse slots.now)) }
    ensures length { IfOk result (λ types. IfSome types (λ types. length types ≡ count)) }
{
    let mut types = Tys::new(alloc);
    for i in 0..count {
        match slot_at(slots, i) {
            Some(Slot::Of(ty)) => types.push(ty)?,
            Some(Slot::Base) => return Ok(None),
            None => return Ok(None),
        }
    }
    Ok(Some(types))
}

/// Whether both lists have the same slot at a depth, or neither has one.
pub fn same_at(a: &[Slot], b: &[Slot], depth: usize) -> bool
    ensures { IsTrue result ↔ (slice_get (reverse a.now) depth ≡ slice_get (reverse b.now) depth) }
{
    match (slot_at(a, depth), slot_at(b, depth)) {
        (Some(a), Some(b)) => a == b,
        (None, None) => true,
        (Some(_), None) => false,
        (None, Some(_)) => false,
    }
}

/// Whether the types are equal, in order.
#[tactic(auto, unfolding(nwq_value::specs::Roles::ty_eq, nwq_value::specs::Roles::tys_eq))]
pub fn same_types(a: &[Ty], b: &[Ty]) -> bool
    ensures { result ≡ tys_eq a.now b.now }
{
    match a {
        [] => b.is_empty(),
        [x, a @ ..] => match b {
            [] => false,
            [y, b @ ..] => *x == *y && same_types(a, b),
        },
    }
}

/// Puts values of these types on top, the last first.
#[tactic(auto, using(crate::proofs::Tops::put_one, crate::proofs::Tops::last_put))]
fn put_types(slots: &mut Slots, types: &[Ty]) -> Result<(), NoMemory>
    ensures { IfOk result (λ _. reverse slots.new ≡ map Of types.now ++ reverse slots.old) }
{
    let mut i = types.len();
    while i > 0 {
        i -= 1;
        slots.push(Slot::Of(types[i]))?;
    }
    Ok(())
}

/// The slots after a stack effect.
pub fn after_effect(alloc: Global, slots: &[Slot], effect: &StackEffect) -> Result<Slots, NoMemory>
    ensures { IfOk result (λ after. reverse after ≡ after_effect effect.now (reverse slots.now)) }
{
    let mut after = Slots::of_slice(alloc, lower(slots, effect.pops))?;
    put_types(&mut after, effect.pushes.as_slice())?;
    Ok(after)
}

/// Equal lists of slots.
pub fn copy_unders(alloc: Global, unders: &[Slots]) -> Result<Unders, NoMemory>
    ensures { IfOk result (λ copy. copy ≡ unders.now) }
{
    let mut copy = Unders::new(alloc);
    for under in unders {
        copy.push(Slots::of_slice(alloc, under.as_slice())?)?;
    }
    Ok(copy)
}
