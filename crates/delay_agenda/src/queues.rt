//! Calls on the queues of entries, an ordered map from due times.
ghost use Rattle.std.specs.Prelude.{◌≡◌, ◌≢◌, None, [], drop, slice_get, IfErr, MatchOption, true};
ghost use Rattle.std.specs.Prelude.{OnOk, OnErr};
ghost use Rattle.std.specs.Ordering.{nat_cmp};
ghost use Rattle.std.specs.BTreeMap.{get};
ghost use Rattle.delay_agenda.specs.Order.{put_entry, HasNone};
ghost use Rattle.delay_agenda.specs.Queues.{AreQueues, IsHead, in_row, numbered, queue_at};
ghost use Rattle.delay_agenda.specs.Queues.{StartsAlone, row_without};

use crate::due_queue::DueQueue;
use crate::entry::Entry;
use std::alloc::{AllocFailed, Global};
use std::collections::BTreeMap;

pub(crate) type Queues<X> = BTreeMap<u64, DueQueue<X>>;

/// Due time and number of the entry that is taken first.
#[tactic(auto, using(crate::proofs::Rows::first_filled, crate::proofs::Rows::head_is))]
pub(crate) fn first_of<X: Drop>(queues: &Queues<X>) -> Option<(u64, u64)>
    requires queues { AreQueues queues.now.entries }
    ensures first { MatchOption result (in_row queues.now.entries ≡ [])
        (λ first. IsHead first.0 first.1 (in_row queues.now.entries)) }
{
    match queues.first_key_value() {
        None => None,
        Some((_, queue)) => Some(queue.front()),
    }
}

/// Whether there are queues and all of them are due before a time. This takes no search.
#[tactic(auto, using(crate::proofs::Rows::none_at_last))]
fn are_before<X: Drop>(queues: &Queues<X>, due: u64) -> bool
    ensures before { result ≡ true → get nat_cmp queues.now due ≡ None }
{
    match queues.last_key_value() {
        None => false,
        Some((last, _)) => *last < due,
    }
}

/// Puts an entry where it belongs. For want of memory it comes back, and the queues are as before.
pub(crate) fn put_in<X: Drop>(
    queues: &mut Queues<X>,
    alloc: Global,
    entry: Entry<X>,
) -> Result<(), AllocFailed<Entry<X>>>
    requires queues { AreQueues queues.old.entries }
    requires new { HasNone entry.number (in_row queues.old.entries) }
    ensures ok { OnOk result
        (in_row queues.new.entries ≡ put_entry entry (in_row queues.old.entries)) }
    ensures err { OnErr result (in_row queues.new.entries ≡ in_row queues.old.entries) }
    ensures back { IfErr result (λ failed. failed.value ≡ entry) }
    ensures queues { AreQueues queues.new.entries }
{
    let due = entry.due;
    if are_before(queues, due) {
        return put_alone(queues, alloc, entry);
    }
    match queues.get_mut(&due) {
        Some(queue) => queue.put(entry),
        None => put_alone(queues, alloc, entry),
    }
}

/// Puts an entry into a queue of its own.
fn put_alone<X: Drop>(
    queues: &mut Queues<X>,
    alloc: Global,
    entry: Entry<X>,
) -> Result<(), AllocFailed<Entry<X>>>
    requires queues { AreQueues queues.old.entries }
    requires new { get nat_cmp queues.old entry.due ≡ None }
    ensures ok { OnOk result
        (in_row queues.new.entries ≡ put_entry entry (in_row queues.old.entries)) }
    ensures err { OnErr result (queues.new.entries ≡ queues.old.entries) }
    ensures back { IfErr result (λ failed. failed.value ≡ entry) }
    ensures queues { AreQueues queues.new.entries }
{
    let due = entry.due;
    match DueQueue::of(alloc, entry) {
        Err(failed) => Err(failed),
        Ok(queue) => match queues.insert(due, queue) {
            Ok(_) => Ok(()),
            Err(failed) => Err(AllocFailed {
                value: failed.value.1.only(),
            }),
        },
    }
}

/// Takes the entry of a number out of the queue of its due time, and the queue too where it was the
/// only one.
#[tactic(auto, using(crate::proofs::Rows::queue_at_none))]
pub(crate) fn take_at<X: Drop>(queues: &mut Queues<X>, due: u64, number: u64) -> Option<Entry<X>>
    requires queues { AreQueues queues.old.entries }
    requires there { queue_at due queues.old.entries ≢ [] }
    ensures entry { result ≡ numbered number (queue_at due queues.old.entries) }
    ensures left { in_row queues.new.entries ≡ row_without due number queues.old.entries }
    ensures queues { AreQueues queues.new.entries }
{
    match queues.get_mut(&due) {
        None => unreachable!(),
        Some(queue) => {
            let entry = queue.take(number);
            if queue.is_empty() {
                drop(queues.remove(&due));
            }
            entry
        }
    }
}

/// Whether the first queue has one entry alone.
#[tactic(auto, using(crate::proofs::Rows::alone_is))]
fn first_is_alone<X: Drop>(queues: &Queues<X>) -> bool
    ensures alone { result ≡ true → StartsAlone queues.now.entries }
{
    match queues.first_key_value() {
        None => false,
        Some((_, queue)) => queue.is_alone(),
    }
}

/// Takes the first queue, which has one entry alone, off the queues, without a search.
#[tactic(auto, using(crate::proofs::Rows::alone_facts))]
fn take_alone<X: Drop>(queues: &mut Queues<X>) -> Option<Entry<X>>
    requires queues { AreQueues queues.old.entries }
    requires alone { StartsAlone queues.old.entries }
    ensures entry { result ≡ slice_get (in_row queues.old.entries) 0 }
    ensures left { in_row queues.new.entries ≡ drop 1 (in_row queues.old.entries) }
    ensures queues { AreQueues queues.new.entries }
{
    match queues.pop_first() {
        None => None,
        Some((_, queue)) => Some(queue.only()),
    }
}

/// Takes the entry that is taken first off the queues.
#[tactic(auto, using(crate::proofs::Rows::first_facts))]
pub(crate) fn take_first<X: Drop>(queues: &mut Queues<X>) -> Option<Entry<X>>
    requires queues { AreQueues queues.old.entries }
    ensures entry { result ≡ slice_get (in_row queues.old.entries) 0 }
    ensures left { in_row queues.new.entries ≡ drop 1 (in_row queues.old.entries) }
    ensures queues { AreQueues queues.new.entries }
{
    if first_is_alone(queues) {
        return take_alone(queues);
    }
    match first_of(queues) {
        None => None,
        Some((due, number)) => take_at(queues, due, number),
    }
}
