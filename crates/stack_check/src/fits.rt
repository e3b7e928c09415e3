ghost use Rattle.std.specs.Prelude.{◌≡◌, ◌↔◌, [], IsTrue, MatchOption, reverse};
ghost use Rattle.stack_lists.specs.Shared.{read};
ghost use Rattle.stack_lists.specs.Held.{shape_of};
ghost use Rattle.stack_check.specs.Facts.{trial_table};
ghost use Rattle.stack_check.specs.Fitting.{BeginsWith, IsFrame, IsResumedAt, IsValueOf, Resumes};
ghost use Rattle.stack_check.specs.Fitting.{BeginsOtherwise, stored_at};
ghost use Rattle.stack_rules.specs.Fits.{Fits};

use crate::facts::Facts;
use saved_state::{Cell, Cells, Saved};
use stack_lists::{Heap, Held, Stacks};
use stack_shape::Slot;

/// Whether a cell holds a value of the slot's type.
fn is_value_of(slot: Slot, cell: &Cell) -> bool
    ensures { IsTrue result ↔ IsValueOf slot cell.now }
{
    match (slot, cell) {
        (Slot::Of(ty), Cell::Value(value)) => value.ty() == ty,
        (Slot::Of(_), Cell::Base(_)) => false,
        (Slot::Base, _) => false,
    }
}

/// The list beneath values of these cells' types, where a list begins with these from its top. The
/// cells are given with the lowest first.
#[tactic(auto, using(crate::proofs::Fitting::beginning))]
fn beneath_values(lists: &Stacks, number: u32, cells: &Cells) -> Option<u32>
    ensures { MatchOption result
        (BeginsOtherwise (reverse cells.now) (read lists.now number))
        (λ rest. BeginsWith (reverse cells.now) (read lists.now number) (read lists.now rest)) }
{
    let mut at = number;
    let mut left = cells.len();
    while left > 0 {
        left -= 1;
        let Some(cell) = cells.get(left) else {
            return None;
        };
        match lists.pop(at) {
            None => return None,
            Some((slot, below)) => {
                if !is_value_of(slot, cell) {
                    return None;
                }
                at = below;
            }
        }
    }
    Some(at)
}

/// Whether a list is that of these cells' types, and all of them hold values.
#[tactic(auto, using(crate::proofs::Fitting::ending))]
fn are_all(lists: &Stacks, number: u32, cells: &Cells) -> bool
    ensures { IsTrue result ↔ BeginsWith (reverse cells.now) (read lists.now number) [] }
{
    match beneath_values(lists, number, cells) {
        None => false,
        Some(rest) => lists.is_empty(rest),
    }
}

/// Whether a list is that of the state's locals over a base over its globals.
#[tactic(auto, using(crate::proofs::Fitting::framing))]
fn is_frame(lists: &Stacks, number: u32, saved: &Saved) -> bool
    ensures { IsTrue result ↔ IsFrame (read lists.now number) saved.now }
{
    let Some(rest) = beneath_values(lists, number, &saved.locals) else {
        return false;
    };
    match lists.pop(rest) {
        None => false,
        Some((Slot::Of(_), _)) => false,
        Some((Slot::Base, globals)) => are_all(lists, globals, &saved.globals),
    }
}

/// Whether a shape is the one with which a state with these cells resumes.
#[tactic(auto, using(crate::proofs::Fitting::resuming))]
fn resumes(heap: &Heap, held: Held, saved: &Saved) -> bool
    ensures { IsTrue result ↔ Resumes (shape_of heap.now held) saved.now }
{
    if held.pending != 0 || !heap.saved.is_empty(held.saved) {
        return false;
    }
    are_all(&heap.slots, held.under, &saved.globals) && is_frame(&heap.slots, held.cells, saved)
}

/// What was found at a place, of what the STORE_STATE at a site stores.
fn stored_at(facts: &Facts, site: u32, place: u32) -> Option<Held>
    ensures { result ≡ stored_at facts.now site place }
{
    match facts.stored.get(site) {
        0 => None,
        number => facts.rows.find(number, place),
    }
}

/// What was found at a place, of the state that resumes there.
fn resumed_at(facts: &Facts, place: u32) -> Option<Held>
    ensures { IsResumedAt facts.now place result }
{
    match place.checked_sub(16) {
        None => None,
        Some(site) => stored_at(facts, site, place),
    }
}

/// Whether a captured state fits the table that was found.
#[tactic(auto, using(crate::proofs::Fitting::fitting))]
pub fn fits(heap: &Heap, facts: &Facts, saved: &Saved) -> bool
    ensures { IsTrue result ↔ Fits (trial_table heap.now facts.now) saved.now }
{
    match resumed_at(facts, saved.place) {
        None => false,
        Some(held) => resumes(heap, held, saved),
    }
}
