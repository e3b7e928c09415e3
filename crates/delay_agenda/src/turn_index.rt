//! An index of the Turns that stand in the queues, by their objects.
ghost use Rattle.std.specs.Prelude.{◌≡◌, ℕ, [], None, Some, slice_get, MatchOption, OnOk, OnErr};
ghost use Rattle.std.specs.Ordering.{nat_cmp};
ghost use Rattle.std.specs.BTreeMap.{get};
ghost use Rattle.stamped_slots.specs.Stamps.{at};
ghost use Rattle.delay_agenda.specs.Queues.{HasEntryLess, HasEntryMore, HasNoTurn, HasTurnLess};
ghost use Rattle.delay_agenda.specs.Queues.{HasTurnMore, IsNew, turns_of};

use crate::entry::Entry;
use nwq_value::NoMemory;
use stamped_slots::Stamped;
use std::alloc::Global;
use std::collections::BTreeMap;

/// The Turns of each object under their numbers, each with its due time.
pub(crate) type TurnIndex = BTreeMap<u32, Stamped<u64>>;

/// Number and due time of the Turn of an object that was posted first; `None` exactly where it has
/// none.
#[tactic(auto, using(crate::proofs::Index::turns_here))]
pub(crate) fn first_turn(index: &TurnIndex, object: u32) -> Option<(u64, u64)>
    ensures turn { MatchOption result (turns_of object index.now ≡ [])
        (λ turn. slice_get (turns_of object index.now) 0 ≡ Some turn) }
{
    match index.get(&object) {
        None => None,
        Some(turns) => match turns.first() {
            None => None,
            Some((number, due)) => Some((number, *due)),
        },
    }
}

/// Lists an entry, if it is a Turn.
#[tactic(auto, using(crate::proofs::Index::nothing_more, crate::proofs::Index::entry_more))]
pub(crate) fn list_entry<X>(
    index: &mut TurnIndex,
    alloc: Global,
    entry: &Entry<X>,
) -> Result<(), NoMemory>
    requires new { IsNew entry.now index.old }
    ensures listed { OnOk result (HasEntryMore entry.now index.old index.new) }
    ensures err { OnErr result
        ((other : ℕ) → turns_of other index.new ≡ turns_of other index.old) }
{
    match entry.turning() {
        None => Ok(()),
        Some(object) => list_turn(index, alloc, object, entry.due, entry.number),
    }
}

/// Lists a Turn of an object.
fn list_turn(
    index: &mut TurnIndex,
    alloc: Global,
    object: u32,
    due: u64,
    number: u64,
) -> Result<(), NoMemory>
    requires new { at number (turns_of object index.old) ≡ None }
    ensures listed { OnOk result (HasTurnMore object number due index.old index.new) }
    ensures err { OnErr result
        ((other : ℕ) → turns_of other index.new ≡ turns_of other index.old) }
{
    match index.get_mut(&object) {
        Some(turns) => match turns.insert(number, due) {
            Ok(()) => Ok(()),
            Err(_) => Err(NoMemory),
        },
        None => list_first(index, alloc, object, due, number),
    }
}

/// Lists the first Turn of an object.
fn list_first(
    index: &mut TurnIndex,
    alloc: Global,
    object: u32,
    due: u64,
    number: u64,
) -> Result<(), NoMemory>
    requires new { get nat_cmp index.old object ≡ None }
    ensures listed { OnOk result (HasTurnMore object number due index.old index.new) }
    ensures err { OnErr result
        ((other : ℕ) → turns_of other index.new ≡ turns_of other index.old) }
{
    let mut turns = Stamped::new(alloc);
    match turns.insert(number, due) {
        Err(_) => Err(NoMemory),
        Ok(()) => match index.insert(object, turns) {
            Ok(_) => Ok(()),
            Err(_) => Err(NoMemory),
        },
    }
}

/// Lists an entry no more, if it is a Turn. Takes no memory.
#[tactic(auto, using(crate::proofs::Index::nothing_less, crate::proofs::Index::entry_less))]
pub(crate) fn forget_entry<X>(index: &mut TurnIndex, entry: &Entry<X>)
    ensures forgotten { HasEntryLess entry.now index.old index.new }
{
    match entry.turning() {
        None => {}
        Some(object) => forget_turn(index, object, entry.number),
    }
}

/// Lists a Turn of an object no more.
fn forget_turn(index: &mut TurnIndex, object: u32, number: u64)
    ensures forgotten { HasTurnLess object number index.old index.new }
{
    match index.get_mut(&object) {
        None => {}
        Some(turns) => {
            let _ = turns.take(number);
        }
    }
}

/// Lists no Turn of an object any more.
pub(crate) fn forget_object(index: &mut TurnIndex, object: u32)
    ensures forgotten { HasNoTurn object index.old index.new }
{
    drop(index.remove(&object));
}
