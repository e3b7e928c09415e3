//! The entries that are due at one time.
ghost use Rattle.std.specs.Prelude.{◌≡◌, ◌≢◌, [], ◌∷◌, length, IfErr, IfOk, MatchBool, OnOk, OnErr};
ghost use Rattle.std.specs.Prelude.{true};
ghost use Rattle.delay_agenda.specs.Order.{put_entry, HasNone};
ghost use Rattle.delay_agenda.specs.Queues.{IsHead, IsQueue, numbered, without_number};

use crate::entry::{Entry, Kind};
use stamped_slots::Stamped;
use std::alloc::{AllocFailed, Global};
use std::marker::Model;

/// The entries of one due time, the least number first. Contracts see the list of them.
pub(crate) struct DueQueue<X> {
    due: u64,
    kinds: Stamped<Kind<X>>,
}

impl<X> Model for DueQueue<X> {
    ghost use Rattle.std.specs.Prelude.{List};
    ghost use Rattle.delay_agenda.specs.declared.entry.Entry.{Entry};
    ghost use Rattle.delay_agenda.specs.Queues.{entries_of};

    ghost Value = { List (Entry X) };

    ghost view = { λ q. entries_of q.due q.kinds.items };
}

impl<X: Drop> Drop for DueQueue<X> {
    fn drop(self) {
        let DueQueue { due: _, kinds } = self;
        drop(kinds);
    }
}

impl<X: Drop> DueQueue<X> {
    /// The queue of one entry, which has no room for more. For want of memory the entry comes back.
    pub(crate) fn of(alloc: Global, entry: Entry<X>) -> Result<DueQueue<X>, AllocFailed<Entry<X>>>
        ensures ok { IfOk result (λ queue. queue ≡ entry ∷ []) }
        ensures back { IfErr result (λ failed. failed.value ≡ entry) }
    {
        let Entry { due, number, kind } = entry;
        let mut kinds = Stamped::new(alloc);
        match kinds.insert(number, kind) {
            Ok(()) => Ok(DueQueue { due, kinds }),
            Err(failed) => Err(AllocFailed {
                value: Entry {
                    due,
                    number,
                    kind: failed.value,
                },
            }),
        }
    }

    /// The entry of a queue of one.
    #[tactic(auto, using(crate::proofs::DueLemmas::only_facts))]
    pub(crate) fn only(self) -> Entry<X>
        requires one { length self ≡ 1 }
        ensures entry { self ≡ result ∷ [] }
    {
        let mut queue = self;
        let (_, number) = queue.front();
        match queue.take(number) {
            Some(entry) => entry,
            None => unreachable!(),
        }
    }

    /// Puts an entry where it belongs. For want of memory it comes back.
    pub(crate) fn put(&mut self, entry: Entry<X>) -> Result<(), AllocFailed<Entry<X>>>
        requires queue { IsQueue entry.due self.old }
        requires new { HasNone entry.number self.old }
        ensures ok { OnOk result (self.new ≡ put_entry entry self.old) }
        ensures err { OnErr result (self.new ≡ self.old) }
        ensures back { IfErr result (λ failed. failed.value ≡ entry) }
    {
        let Entry { due, number, kind } = entry;
        match self.kinds.insert(number, kind) {
            Ok(()) => Ok(()),
            Err(failed) => Err(AllocFailed {
                value: Entry {
                    due,
                    number,
                    kind: failed.value,
                },
            }),
        }
    }

    /// Due time and number of the first entry.
    pub(crate) fn front(&self) -> (u64, u64)
        requires filled { self.now ≢ [] }
        ensures head { IsHead result.0 result.1 self.now }
    {
        match self.kinds.first() {
            Some((number, _)) => (self.due, number),
            None => unreachable!(),
        }
    }

    pub(crate) fn is_empty(&self) -> bool
        ensures test { MatchBool result (self.now ≡ []) (self.now ≢ []) }
    {
        self.kinds.len() == 0
    }

    /// Whether there is one entry alone.
    #[tactic(auto, using(crate::proofs::DueLemmas::count_is))]
    pub(crate) fn is_alone(&self) -> bool
        ensures one { result ≡ true → length self.now ≡ 1 }
    {
        self.kinds.len() == 1
    }

    /// Takes the entry of a number out.
    pub(crate) fn take(&mut self, number: u64) -> Option<Entry<X>>
        ensures entry { result ≡ numbered number self.old }
        ensures left { self.new ≡ without_number number self.old }
    {
        match self.kinds.take(number) {
            None => None,
            Some(kind) => Some(Entry {
                due: self.due,
                number,
                kind,
            }),
        }
    }
}
