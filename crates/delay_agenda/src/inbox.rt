//! The inbox: entries that were posted and aren't sorted in yet, in the order of their posts.
ghost use Rattle.std.specs.Prelude.{◌≡◌, ◌<◌, ◌≤◌, ◌+◌, ◌-◌, [], ◌∷◌, MatchOption, OnOk};
ghost use Rattle.std.specs.VecDeque.{deque_capacity, deque_len};
ghost use Rattle.delay_agenda.specs.Order.{AreDistinct};
ghost use Rattle.delay_agenda.specs.Queues.{put_all, IsInInbox, IsInQueues};

use crate::entry::{Entry, comes_before};
use crate::queue::least_place;
use crate::sorted::Sorted;
use nwq_value::NoMemory;
use std::collections::VecDeque;

/// Where the entry stands in the inbox that is taken before all others; `None` where the first of
/// those that are sorted in is, or nothing waits.
#[tactic(auto, using(crate::proofs::Placing::first_cases))]
pub(crate) fn first_in_inbox<X: Drop>(
    inbox: &VecDeque<Entry<X>>,
    sorted: &Sorted<X>,
) -> Option<usize>
    ensures first { MatchOption result (IsInQueues inbox.now.items sorted.now)
        (λ at. IsInInbox at inbox.now.items sorted.now) }
{
    if inbox.is_empty() {
        return None;
    }
    let least = least_place(inbox);
    match sorted.first() {
        None => Some(least),
        Some((due, number)) => {
            if comes_before(due, number, &inbox[least]) {
                None
            } else {
                Some(least)
            }
        }
    }
}

/// Sorts the inbox in. Where there is no memory, what couldn't be sorted in stays in the inbox.
pub(crate) fn empty_inbox<X: Drop>(
    sorted: &mut Sorted<X>,
    inbox: &mut VecDeque<Entry<X>>,
) -> Result<(), NoMemory>
    requires distinct { AreDistinct (put_all inbox.old.items sorted.old) }
    ensures empty { OnOk result (inbox.new.items ≡ []) }
    ensures entries { put_all inbox.new.items sorted.new ≡ put_all inbox.old.items sorted.old }
    ensures room { deque_capacity inbox.old - deque_len inbox.old
        ≤ deque_capacity inbox.new - deque_len inbox.new }
{
    while let Some(entry) = inbox.pop_front() {
        move_in(sorted, inbox, entry)?;
    }
    Ok(())
}

/// Sorts an entry in. Where there is no memory it becomes the first of the inbox, which has room.
#[tactic(auto, using(crate::proofs::OrderLemmas::new_in_row))]
fn move_in<X: Drop>(
    sorted: &mut Sorted<X>,
    inbox: &mut VecDeque<Entry<X>>,
    entry: Entry<X>,
) -> Result<(), NoMemory>
    requires distinct { AreDistinct (put_all (entry ∷ inbox.old.items) sorted.old) }
    requires room { deque_len inbox.old < deque_capacity inbox.old }
    ensures entries { put_all inbox.new.items sorted.new
        ≡ put_all (entry ∷ inbox.old.items) sorted.old }
    ensures count { OnOk result (deque_len inbox.new ≡ deque_len inbox.old) }
    ensures bound { deque_len inbox.new ≤ deque_len inbox.old + 1 }
    ensures capacity { deque_capacity inbox.new ≡ deque_capacity inbox.old }
{
    match sorted.put(entry) {
        Ok(()) => Ok(()),
        Err(failed) => {
            inbox.push_front_reserved(failed.value);
            Err(NoMemory)
        }
    }
}
