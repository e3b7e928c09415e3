//! Whether the entries of a state's agenda can wait.
ghost use Rattle.std.specs.Prelude.{◌≡◌, ◌↔◌, not, IfOk, IsTrue, MatchResult};
ghost use Rattle.state_parts.specs.World.{kind_of};
ghost use Rattle.play_save.specs.Rules.{AreWaiting};
ghost use Rattle.play_save.specs.Breaking.{has_number, AddsNumber, Breaks, IsBeforeFirst};
ghost use Rattle.play_save.specs.Breaking.{IsWaiting};
ghost use Rattle.world_rules.specs.Kept.{IsPlaced};

use crate::fault::StateFault;
use nwq_value::NoMemory;
use state_format::{Entry, KindPart};
use std::alloc::Global;
use std::collections::BTreeSet;

/// Whether an entry's object is one of so many.
fn is_placed(objects: usize, kind: &KindPart) -> bool
    ensures test { IsTrue result ↔ IsPlaced objects (kind_of kind.now) }
{
    match kind {
        KindPart::Event { object, .. } => *object as usize <= objects,
        KindPart::Stored { object, .. } => *object as usize <= objects,
        KindPart::Turn { object } => 1 <= *object && *object as usize <= objects,
        KindPart::Unapply { object } => 1 <= *object && *object as usize <= objects,
    }
}

/// Whether an entry can wait by itself.
fn is_waiting(next: u64, clock: u64, objects: usize, entry: &Entry) -> bool
    ensures test { IsTrue result ↔ IsWaiting next clock objects entry.now }
{
    entry.number < next && clock <= entry.due && is_placed(objects, &entry.kind)
}

/// Whether an entry is taken before the first of others.
fn is_before(entry: &Entry, rest: &[Entry]) -> bool
    ensures test { IsTrue result ↔ IsBeforeFirst entry.now rest.now }
{
    match rest.first() {
        None => true,
        Some(next) => {
            entry.due < next.due || entry.due == next.due && entry.number < next.number
        }
    }
}

/// Adds a number to a set; whether it wasn't there.
fn add(numbers: &mut BTreeSet<u64>, number: u64) -> Result<bool, NoMemory>
    ensures new { IfOk result (λ new. new ≡ not (has_number numbers.old number)) }
    ensures added { IfOk result (λ new. AddsNumber numbers.old number numbers.new) }
{
    Ok(numbers.insert(number)?)
}

/// Whether the entries of an agenda can wait, with these before the first number that is free.
pub(crate) fn test_agenda(
    alloc: Global,
    next: u64,
    clock: u64,
    objects: usize,
    entries: &[Entry],
) -> Result<(), StateFault>
    ensures kept { MatchResult result
        (λ _. AreWaiting next clock objects entries.now)
        (Breaks 5 (AreWaiting next clock objects entries.now)) }
{
    let mut numbers = BTreeSet::new(alloc);
    let mut left = entries.len();
    while left > 0 {
        left -= 1;
        let entry = &entries[left];
        if !is_waiting(next, clock, objects, entry) || !is_before(entry, &entries[left + 1..]) {
            return Err(StateFault::Unfit(5));
        }
        if !add(&mut numbers, entry.number)? {
            return Err(StateFault::Unfit(5));
        }
    }
    Ok(())
}
