ghost use Rattle.std.specs.Prelude.{◌≡◌, ◌≤◌, ◌↔◌, ◌++◌, length, map, take, IfOk, IfSome, IsTrue};
ghost use Rattle.stack_shape.specs.TopFirst.{types_on};
ghost use Rattle.stack_shape.specs.declared.shape.Slot.TheVariants.{Of};
ghost use Rattle.stack_lists.specs.Shared.{Grows, read};

use crate::stacks::{Join, Stacks, alike};
use nwq_value::{NoMemory, Ty, Tys};
use stack_shape::{CellRange, Slot, TopFirst};
use std::alloc::Global;

/// A list of slots that is seen from its top.
#[derive(Clone, Copy)]
pub struct Top<'a> {
    pub lists: &'a Stacks,
    pub number: u32,
}

impl TopFirst for Top<'_> {
    ghost slots = { λ s. read s.lists.now s.number };

    fn types_at(&self, alloc: Global, range: CellRange) -> Result<Option<Tys>, NoMemory> {
        let number = self.lists.lower(self.number, range.above);
        types_on(alloc, self.lists, number, range.count)
    }
}

/// The types of so many slots from the top, the top one first, where they are there and none is a
/// base.
#[tactic(auto, using(crate::proofs::Walks::typing))]
fn types_on(
    alloc: Global,
    lists: &Stacks,
    number: u32,
    count: usize,
) -> Result<Option<Tys>, NoMemory>
    ensures types { IfOk result (λ types. types ≡ types_on count (read lists.now number)) }
    ensures length { IfOk result (λ types. IfSome types (λ types. length types ≡ count)) }
{
    let mut types = Tys::new(alloc);
    let mut at = number;
    let mut left = count;
    while left > 0 {
        match lists.pop(at) {
            None => return Ok(None),
            Some((slot, below)) => match slot {
                Slot::Base => return Ok(None),
                Slot::Of(ty) => {
                    types.push(ty)?;
                    at = below;
                }
            },
        }
        left -= 1;
    }
    Ok(Some(types))
}

/// Whether both lists have the same slots. It stops where they meet.
#[tactic(auto, using(crate::proofs::Walks::comparing))]
pub fn same(lists: &Stacks, a: u32, b: u32) -> bool
    ensures { IsTrue result ↔ (read lists.now a ≡ read lists.now b) }
{
    let mut x = a;
    let mut y = b;
    while x != y {
        match (lists.pop(x), lists.pop(y)) {
            (None, None) => return true,
            (None, Some(_)) => return false,
            (Some(_), None) => return false,
            (Some((s, rest)), Some((t, other))) => {
                if !alike(s, t) {
                    return false;
                }
                x = rest;
                y = other;
            }
        }
    }
    true
}

/// Puts these slots on a list, the last first.
#[tactic(auto, using(crate::proofs::Walks::putting))]
fn put_slots(lists: &mut Stacks, number: u32, slots: &[Slot]) -> Result<u32, NoMemory>
    requires inside { number ≤ length lists.old }
    ensures reads { IfOk result (λ on. read lists.new on ≡ slots.now ++ read lists.old number) }
    ensures inside { IfOk result (λ on. on ≤ length lists.new) }
    ensures grows { IfOk result (λ _. Grows lists.old lists.new) }
{
    let mut at = number;
    let mut i = slots.len();
    while i > 0 {
        i -= 1;
        at = lists.push(at, slots[i])?;
    }
    Ok(at)
}

/// Puts values of these types on a list, the last first.
#[tactic(auto, using(crate::proofs::Walks::putting))]
pub fn put_types(lists: &mut Stacks, number: u32, types: &[Ty]) -> Result<u32, NoMemory>
    requires inside { number ≤ length lists.old }
    ensures reads { IfOk result (λ on. read lists.new on ≡ map Of types.now ++ read lists.old
        number) }
    ensures inside { IfOk result (λ on. on ≤ length lists.new) }
    ensures grows { IfOk result (λ _. Grows lists.old lists.new) }
{
    let mut at = number;
    let mut i = types.len();
    while i > 0 {
        i -= 1;
        at = lists.push(at, Slot::Of(types[i]))?;
    }
    Ok(at)
}

/// So many of a list's topmost slots, the top one first, or all where there are fewer.
#[tactic(auto, using(crate::proofs::Walks::listing))]
fn top_slots(
    alloc: Global,
    lists: &Stacks,
    number: u32,
    count: usize,
) -> Result<Vec<Slot>, NoMemory>
    ensures { IfOk result (λ slots. slots.items ≡ take count (read lists.now number)) }
{
    let mut slots = Vec::new(alloc);
    let mut at = number;
    let mut left = count;
    while left > 0 {
        match lists.pop(at) {
            None => return Ok(slots),
            Some((slot, below)) => {
                slots.push(slot)?;
                at = below;
            }
        }
        left -= 1;
    }
    Ok(slots)
}

/// So many of a list's topmost slots on another list, slot by slot.
#[tactic(auto, using(crate::proofs::Walks::joining))]
fn copy(
    alloc: Global,
    lists: &mut Stacks,
    upper: u32,
    count: usize,
    lower: u32,
) -> Result<u32, NoMemory>
    requires upper { upper ≤ length lists.old }
    requires lower { lower ≤ length lists.old }
    ensures reads { IfOk result (λ on.
        read lists.new on ≡ take count (read lists.old upper) ++ read lists.old lower) }
    ensures inside { IfOk result (λ on. on ≤ length lists.new) }
    ensures grows { IfOk result (λ _. Grows lists.old lists.new) }
{
    let slots = top_slots(alloc, lists, upper, count)?;
    put_slots(lists, lower, slots.as_slice())
}

/// So many of a list's topmost slots on another list. Where they are many, what was made is kept,
/// so the same is made once.
#[tactic(auto, using(crate::proofs::Walks::joining))]
pub fn join(
    alloc: Global,
    lists: &mut Stacks,
    upper: u32,
    count: usize,
    lower: u32,
) -> Result<u32, NoMemory>
    requires upper { upper ≤ length lists.old }
    requires lower { lower ≤ length lists.old }
    ensures reads { IfOk result (λ on.
        read lists.new on ≡ take count (read lists.old upper) ++ read lists.old lower) }
    ensures inside { IfOk result (λ on. on ≤ length lists.new) }
    ensures grows { IfOk result (λ _. Grows lists.old lists.new) }
{
    if lists.lower(upper, count) == lower {
        return Ok(upper);
    }
    if count <= 8 {
        return copy(alloc, lists, upper, count, lower);
    }
    if let Some(number) = lists.joined(upper, count, lower) {
        return Ok(number);
    }
    let number = copy(alloc, lists, upper, count, lower)?;
    lists.keep_join(Join {
        upper,
        count,
        lower,
        number,
    })?;
    Ok(number)
}
