//! Calls on entries in the order of their posts.
ghost use Rattle.std.specs.Prelude.{◌≡◌, ◌<◌, ◌+◌, length, slice_get, MatchOption};
ghost use Rattle.std.specs.List.{remove};
ghost use Rattle.std.specs.VecDeque.{deque_capacity, deque_len};
ghost use Rattle.delay_agenda.specs.Waiting.{turn_count};
ghost use Rattle.delay_agenda.specs.Queues.{IsLeastAt, IsTurnAt};

use crate::entry::Entry;
use std::collections::VecDeque;

/// Where the entry stands that is taken first, of several alike the last.
#[tactic(auto, using(crate::proofs::Placing::least_steps))]
pub(crate) fn least_place<X>(inbox: &VecDeque<Entry<X>>) -> usize
    requires filled { 0 < deque_len inbox.now }
    ensures least { IsLeastAt result (length inbox.now.items) inbox.now.items }
{
    let mut least = 0;
    for i in 1..inbox.len() {
        if !inbox[least].comes_before(&inbox[i]) {
            least = i;
        }
    }
    least
}

/// Where a Turn of the object stands.
#[tactic(auto, using(crate::proofs::Turns::none_next))]
pub(crate) fn place_of_turn<X>(queue: &VecDeque<Entry<X>>, object: u32) -> Option<usize>
    ensures turn { MatchOption result (turn_count object queue.now.items ≡ 0)
        (λ at. IsTurnAt object at queue.now.items) }
{
    for i in 0..queue.len() {
        if queue[i].is_turn_of(object) {
            return Some(i);
        }
    }
    None
}

/// Takes the entry at a place out.
pub(crate) fn take_from<X>(queue: &mut VecDeque<Entry<X>>, at: usize) -> Option<Entry<X>>
    requires inside { at < length queue.old.items }
    ensures entry { result ≡ slice_get queue.old.items at }
    ensures left { queue.new.items ≡ remove queue.old.items at }
    ensures room { deque_capacity queue.new ≡ deque_capacity queue.old }
    ensures count { deque_len queue.new + 1 ≡ deque_len queue.old }
{
    queue.remove(at)
}
