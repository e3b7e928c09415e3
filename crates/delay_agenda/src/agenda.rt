ghost use Rattle.std.specs.Prelude.{◌≡◌, ◌<◌, ◌≤◌, ◌+◌, ◌^◌, ◌↔◌, [], drop, slice_get, IfSome};
ghost use Rattle.std.specs.Prelude.{IsTrue, OnOk, OnErr};
ghost use Rattle.delay_agenda.specs.Order.{first_due, put_entry, HasNone, IsNext};
ghost use Rattle.delay_agenda.specs.Waiting.{posted, turn_count, without_turns, IsAgenda};

use crate::entry::{Entry, Kind};
use crate::inbox::{empty_inbox, first_in_inbox};
use crate::queue::{place_of_turn, take_from};
use crate::sorted::Sorted;
use nwq_value::NoMemory;
use std::alloc::Global;
use std::collections::VecDeque;
use std::marker::Model;

/// The entries that wait, and the number of the next post.
///
/// A post puts its entry into an inbox beside those that are sorted in, which has room reserved,
/// and the next call that may take memory sorts the inbox in.
pub struct Agenda<X> {
    sorted: Sorted<X>,
    inbox: VecDeque<Entry<X>>,
    next: u64,
}

impl<X> Model for Agenda<X> {
    ghost use Rattle.std.specs.Prelude.{◌-◌, length};
    ghost use Rattle.std.specs.VecDeque.{deque_capacity, deque_len};
    ghost use Rattle.delay_agenda.specs.Queues.{put_all};
    ghost use Rattle.delay_agenda.specs.Waiting.{AgendaView, IsAgenda};

    ghost Value = { AgendaView X };

    ghost view = { λ a. record {
      waiting = record { entries = put_all a.inbox.items a.sorted; next = a.next };
      room = deque_capacity a.inbox - deque_len a.inbox;
      inbox = length a.inbox.items;
    } };

    ghost invariant = { λ a. IsAgenda
        (record { entries = put_all a.inbox.items a.sorted; next = a.next }) };
}

impl<X: Drop> Drop for Agenda<X> {
    fn drop(self) {
        let Agenda {
            sorted,
            inbox,
            next: _,
        } = self;
        drop(sorted);
        drop(inbox);
    }
}

impl<X: Drop> Agenda<X> {
    /// The agenda without entries, whose first post will have number 0; takes no memory.
    pub fn new(alloc: Global) -> Agenda<X>
        ensures empty { result.waiting ≡ record { entries = []; next = 0 } }
    {
        Agenda::start_at(alloc, 0)
    }

    /// The agenda without entries, whose first post will have this number; takes no memory.
    pub fn start_at(alloc: Global, next: u64) -> Agenda<X>
        ensures empty { result.waiting ≡ record { entries = []; next = next } }
    {
        Agenda {
            sorted: Sorted::new(alloc),
            inbox: VecDeque::new(alloc),
            next,
        }
    }

    /// Sorts in what was posted, and makes room for `n` posts. After `NoMemory` there is at least
    /// the room that there was.
    pub fn reserve(&mut self, n: u32) -> Result<(), NoMemory>
        ensures ok { OnOk result (n ≤ self.new.room) }
        ensures sorted { OnOk result (self.new.inbox ≡ 0) }
        ensures room { self.old.room ≤ self.new.room }
        ensures same { self.new.waiting ≡ self.old.waiting }
    {
        empty_inbox(&mut self.sorted, &mut self.inbox)?;
        self.inbox.reserve(n as usize)?;
        Ok(())
    }

    /// Posts work under the next number, which is the answer. Takes no memory, and at most one
    /// place of the spare room.
    pub fn post(&mut self, due: u64, kind: Kind<X>) -> u64
        requires room { 1 ≤ self.old.room }
        requires few { self.old.waiting.next < 2 ^ 63 }
        ensures number { result ≡ self.old.waiting.next }
        ensures posted { self.new.waiting ≡ posted due kind self.old.waiting }
        ensures left { self.old.room ≤ self.new.room + 1 }
    {
        let number = self.next;
        self.inbox.push_back_reserved(Entry { due, number, kind });
        self.next += 1;
        number
    }

    /// Adds an entry under the number that it has. After `NoMemory` it is dropped and what waits is
    /// as before.
    pub fn put(&mut self, entry: Entry<X>) -> Result<(), NoMemory>
        requires below { entry.number < self.old.waiting.next }
        requires new { HasNone entry.number self.old.waiting.entries }
        ensures ok { OnOk result (self.new.waiting
            ≡ record self.old.waiting { entries = put_entry entry self.old.waiting.entries }) }
        ensures sorted { OnOk result (self.new.inbox ≡ 0) }
        ensures err { OnErr result (self.new.waiting ≡ self.old.waiting) }
        ensures room { self.old.room ≤ self.new.room }
    {
        match empty_inbox(&mut self.sorted, &mut self.inbox) {
            Err(NoMemory) => {
                drop(entry);
                Err(NoMemory)
            }
            Ok(()) => {
                self.sorted.put(entry)?;
                Ok(())
            }
        }
    }

    /// Takes the entry of the least due time, and among those of the least number, off the agenda;
    /// `None` exactly where the agenda is empty. The others stay, and no memory is taken.
    pub fn take(&mut self) -> Option<Entry<X>>
        ensures taken { result ≡ slice_get self.old.waiting.entries 0 }
        ensures left { self.new.waiting
            ≡ record self.old.waiting { entries = drop 1 self.old.waiting.entries } }
        ensures least { IfSome result (λ e. IsNext e self.old.waiting.entries) }
        ensures room { self.old.room ≤ self.new.room }
    {
        match first_in_inbox(&self.inbox, &self.sorted) {
            Some(at) => take_from(&mut self.inbox, at),
            None => self.sorted.take(),
        }
    }

    /// The due time of the entry that is taken next; `None` exactly where the agenda is empty.
    pub fn next_due(&self) -> Option<u64>
        ensures due { result ≡ first_due self.now.waiting.entries }
    {
        match first_in_inbox(&self.inbox, &self.sorted) {
            Some(at) => Some(self.inbox[at].due),
            None => self.sorted.next_due(),
        }
    }

    /// Takes the Turn of the object off the agenda; whether there was one. No memory is taken.
    pub fn cancel_turn(&mut self, object: u32) -> bool
        requires one { turn_count object self.old.waiting.entries ≤ 1 }
        ensures found { IsTrue result ↔ (0 < turn_count object self.old.waiting.entries) }
        ensures left { self.new.waiting
            ≡ record self.old.waiting { entries = without_turns object self.old.waiting.entries } }
        ensures room { self.old.room ≤ self.new.room }
    {
        self.sorted.keeps();
        match place_of_turn(&self.inbox, object) {
            None => self.sorted.cancel_turn(object),
            Some(at) => {
                drop(take_from(&mut self.inbox, at));
                true
            }
        }
    }

    /// The number of the next post.
    pub fn next_number(&self) -> u64
        ensures next { result ≡ self.now.waiting.next }
    {
        self.next
    }

    /// What every agenda keeps: its entries are in order, and their numbers are distinct and below
    /// the next.
    pub fn keeps(&self)
        ensures kept { IsAgenda self.now.waiting }
    {
        let _ = &self.sorted;
    }
}
