//! Whether objects are busy exactly where they have a Turn.
ghost use Rattle.std.specs.Prelude.{◌≡◌, ◌↔◌, ◌<◌, ◌≤◌, [], ℕ};
ghost use Rattle.std.specs.Prelude.{length, map, suc, slice_get, Some, IfOk, IsTrue};
ghost use Rattle.std.specs.List.{AllByRecursion};
ghost use Rattle.delay_agenda.specs.Waiting.{turn_count};
ghost use Rattle.world_rules.specs.Kept.{IsPlaced, turns_allowed};
ghost use Rattle.state_parts.specs.World.{entry_of, kind_of};
ghost use Rattle.play_save.specs.Rules.{IsSettledBy, AreSettled};
ghost use Rattle.play_save.specs.Breaking.{CountsOne, CountsTurns, IsTurnOnlyOf};

use nwq_value::{Items, NoMemory};
use state_format::{Entry, KindPart, Object};
use std::alloc::Global;

/// No Turns, for each of so many objects.
fn no_turns(alloc: Global, objects: usize) -> Result<Items<u64>, NoMemory>
    ensures none { IfOk result (λ counts. CountsTurns counts [] objects) }
    ensures len { IfOk result (λ counts. length counts ≡ objects) }
{
    let mut counts = Items::new(alloc);
    for _object in 0..objects {
        counts.push(0)?;
    }
    Ok(counts)
}

/// The object of a Turn; 0 for any other entry.
#[tactic(auto, using(crate::proofs::Turning::only_turn, crate::proofs::Turning::no_event, crate::proofs::Turning::no_stored, crate::proofs::Turning::no_unapply, crate::proofs::Turning::turn_placed))]
fn turn_object(objects: usize, entry: &Entry) -> usize
    requires placed { IsPlaced objects (kind_of entry.now.kind) }
    ensures turn { IsTurnOnlyOf result entry.now }
    ensures placed { result ≤ objects }
{
    match &entry.kind {
        KindPart::Turn { object } => *object as usize,
        KindPart::Event { .. } => 0,
        KindPart::Stored { .. } => 0,
        KindPart::Unapply { .. } => 0,
    }
}

/// Counts an entry that is a Turn.
fn count_one(counts: &mut Items<u64>, objects: usize, entry: &Entry)
    requires placed { IsPlaced objects (kind_of entry.now.kind) }
    requires len { length counts.old ≡ objects }
    requires room { (i n : ℕ) → slice_get counts.old i ≡ Some n → n < 18446744073709551615 }
    ensures counts { CountsOne counts.old entry.now counts.new }
    ensures len { length counts.new ≡ length counts.old }
{
    let turn = turn_object(objects, entry);
    if turn == 0 {
        return;
    }
    let count = counts.as_slice()[turn - 1];
    counts.set(turn - 1, count + 1);
}

/// How many Turns each of so many objects has.
fn count_turns(alloc: Global, objects: usize, entries: &[Entry]) -> Result<Items<u64>, NoMemory>
    requires placed { AllByRecursion (λ e. IsPlaced objects (kind_of e.kind)) entries.now }
    ensures counts { IfOk result (λ counts. CountsTurns counts entries.now objects) }
    ensures len { IfOk result (λ counts. length counts ≡ objects) }
{
    let mut counts = no_turns(alloc, objects)?;
    for entry in entries {
        count_one(&mut counts, objects, entry);
    }
    Ok(counts)
}

/// Whether an object with so many Turns is busy where it has one, and else has neither a Turn nor
/// anything to do.
fn is_settled(turns: u64, object: &Object) -> bool
    ensures test { IsTrue result ↔ IsSettledBy turns object.now }
{
    if object.busy {
        turns == 1
    } else {
        turns == 0 && object.items.is_empty()
    }
}

/// Whether all objects are.
pub(crate) fn are_settled(
    alloc: Global,
    objects: &[Object],
    entries: &[Entry],
) -> Result<bool, NoMemory>
    requires placed { AllByRecursion (λ e. IsPlaced (length objects.now) (kind_of e.kind))
        entries.now }
    ensures test { IfOk result (λ all. IsTrue all
        ↔ AreSettled (map entry_of entries.now) objects.now) }
{
    let counts = count_turns(alloc, objects.len(), entries)?;
    for i in 0..objects.len() {
        if !is_settled(counts.as_slice()[i], &objects[i]) {
            return Ok(false);
        }
    }
    Ok(true)
}
