//! Calls on the queues of entries and on the index of their Turns together.
ghost use Rattle.std.specs.Prelude.{◌≡◌, ◌<◌, ◌≤◌, ◌↔◌, drop, slice_get, IfErr, IsTrue, OnOk};
ghost use Rattle.std.specs.Prelude.{OnErr};
ghost use Rattle.delay_agenda.specs.Order.{put_entry, HasNone};
ghost use Rattle.delay_agenda.specs.Waiting.{turn_count, without_turns};
ghost use Rattle.delay_agenda.specs.Queues.{AreQueues, IsIndexed, in_row};

use crate::entry::Entry;
use crate::queues::{Queues, put_in, take_at, take_first};
use crate::turn_index::{TurnIndex, first_turn, forget_entry, forget_object, list_entry};
use nwq_value::NoMemory;
use std::alloc::{AllocFailed, Global};

/// Puts an entry where it belongs. For want of memory it comes back, and all is as before.
#[tactic(auto, using(crate::proofs::Index::indexed_put, crate::proofs::Index::back_again, crate::proofs::Index::is_new))]
pub(crate) fn put_indexed<X: Drop>(
    queues: &mut Queues<X>,
    index: &mut TurnIndex,
    alloc: Global,
    entry: Entry<X>,
) -> Result<(), AllocFailed<Entry<X>>>
    requires queues { AreQueues queues.old.entries }
    requires indexed { IsIndexed index.old (in_row queues.old.entries) }
    requires new { HasNone entry.number (in_row queues.old.entries) }
    ensures ok { OnOk result
        (in_row queues.new.entries ≡ put_entry entry (in_row queues.old.entries)) }
    ensures err { OnErr result (in_row queues.new.entries ≡ in_row queues.old.entries) }
    ensures back { IfErr result (λ failed. failed.value ≡ entry) }
    ensures queues { AreQueues queues.new.entries }
    ensures indexed { IsIndexed index.new (in_row queues.new.entries) }
{
    match list_entry(index, alloc, &entry) {
        Err(NoMemory) => Err(AllocFailed { value: entry }),
        Ok(()) => match put_in(queues, alloc, entry) {
            Ok(()) => Ok(()),
            Err(failed) => {
                forget_entry(index, &failed.value);
                Err(failed)
            }
        },
    }
}

/// Takes the entry that is taken first off the queues.
#[tactic(auto, using(crate::proofs::Index::indexed_taken))]
pub(crate) fn take_indexed<X: Drop>(
    queues: &mut Queues<X>,
    index: &mut TurnIndex,
) -> Option<Entry<X>>
    requires queues { AreQueues queues.old.entries }
    requires indexed { IsIndexed index.old (in_row queues.old.entries) }
    ensures entry { result ≡ slice_get (in_row queues.old.entries) 0 }
    ensures left { in_row queues.new.entries ≡ drop 1 (in_row queues.old.entries) }
    ensures queues { AreQueues queues.new.entries }
    ensures indexed { IsIndexed index.new (in_row queues.new.entries) }
{
    match take_first(queues) {
        None => None,
        Some(entry) => {
            forget_entry(index, &entry);
            Some(entry)
        }
    }
}

/// Takes the Turn of the object off the queues; whether there was one. The index leads to it.
#[tactic(auto, using(crate::proofs::Index::cancel_facts))]
pub(crate) fn cancel_indexed<X: Drop>(
    queues: &mut Queues<X>,
    index: &mut TurnIndex,
    object: u32,
) -> bool
    requires queues { AreQueues queues.old.entries }
    requires indexed { IsIndexed index.old (in_row queues.old.entries) }
    requires one { turn_count object (in_row queues.old.entries) ≤ 1 }
    ensures found { IsTrue result ↔ (0 < turn_count object (in_row queues.old.entries)) }
    ensures left { in_row queues.new.entries ≡ without_turns object (in_row queues.old.entries) }
    ensures queues { AreQueues queues.new.entries }
    ensures indexed { IsIndexed index.new (in_row queues.new.entries) }
{
    match first_turn(index, object) {
        None => false,
        Some((number, due)) => {
            drop(take_at(queues, due, number));
            forget_object(index, object);
            true
        }
    }
}
