//! The entries that are sorted in.
ghost use Rattle.std.specs.Prelude.{◌≡◌, ◌<◌, ◌≤◌, ◌↔◌, [], drop, slice_get, IfErr, IsTrue, OnOk};
ghost use Rattle.std.specs.Prelude.{MatchOption, OnErr};
ghost use Rattle.delay_agenda.specs.Order.{put_entry, first_due, HasNone};
ghost use Rattle.delay_agenda.specs.Waiting.{turn_count, without_turns};
ghost use Rattle.delay_agenda.specs.Queues.{AreSorted, IsHead};

use crate::entry::Entry;
use crate::indexed::{cancel_indexed, put_indexed, take_indexed};
use crate::line::{goes_behind, line_is_first};
use crate::queues::{Queues, first_of};
use crate::turn_index::TurnIndex;
use std::alloc::{AllocFailed, Global};
use std::collections::{BTreeMap, VecDeque};
use std::marker::Model;

/// The entries that are sorted in. Contracts see the list of them as they are taken.
///
/// An entry that is taken behind all that stand in the line, as most are that are posted, stands
/// there too, where it costs no search. All others, and all Turns, stand in queues by due time, an
/// ordered map, and an index tells where the Turn of an object is.
pub(crate) struct Sorted<X> {
    queues: Queues<X>,
    turns: TurnIndex,
    line: VecDeque<Entry<X>>,
}

impl<X> Model for Sorted<X> {
    ghost use Rattle.std.specs.Prelude.{List};
    ghost use Rattle.delay_agenda.specs.declared.entry.Entry.{Entry};
    ghost use Rattle.delay_agenda.specs.Queues.{in_row, put_all, AreLined};

    ghost Value = { List (Entry X) };

    ghost view = { λ s. put_all s.line.items (in_row s.queues.entries) };

    ghost invariant = { λ s. AreLined s.line.items s.queues.entries s.turns };
}

impl<X: Drop> Drop for Sorted<X> {
    fn drop(self) {
        let Sorted {
            queues,
            turns,
            line,
        } = self;
        drop(queues);
        drop(turns);
        drop(line);
    }
}

impl<X: Drop> Sorted<X> {
    /// No entries; takes no memory.
    pub(crate) fn new(alloc: Global) -> Sorted<X>
        ensures empty { result ≡ [] }
    {
        Sorted {
            queues: BTreeMap::new(alloc),
            turns: BTreeMap::new(alloc),
            line: VecDeque::new(alloc),
        }
    }

    /// Puts an entry where it belongs. For want of memory it comes back.
    pub(crate) fn put(&mut self, entry: Entry<X>) -> Result<(), AllocFailed<Entry<X>>>
        requires new { HasNone entry.number self.old }
        ensures ok { OnOk result (self.new ≡ put_entry entry self.old) }
        ensures err { OnErr result (self.new ≡ self.old) }
        ensures back { IfErr result (λ failed. failed.value ≡ entry) }
    {
        if goes_behind(&self.line, &entry) {
            return self.line.push_back(entry);
        }
        let alloc = *self.line.allocator();
        put_indexed(&mut self.queues, &mut self.turns, alloc, entry)
    }

    /// Due time and number of the entry that is taken first.
    pub(crate) fn first(&self) -> Option<(u64, u64)>
        ensures first { MatchOption result (self.now ≡ [])
            (λ first. IsHead first.0 first.1 self.now) }
    {
        if line_is_first(&self.line, &self.queues) {
            let first = &self.line[0];
            return Some((first.due, first.number));
        }
        first_of(&self.queues)
    }

    /// The due time of the entry that is taken first.
    pub(crate) fn next_due(&self) -> Option<u64>
        ensures due { result ≡ first_due self.now }
    {
        match self.first() {
            None => None,
            Some((due, _)) => Some(due),
        }
    }

    /// Takes the first entry off.
    pub(crate) fn take(&mut self) -> Option<Entry<X>>
        ensures entry { result ≡ slice_get self.old 0 }
        ensures left { self.new ≡ drop 1 self.old }
    {
        if line_is_first(&self.line, &self.queues) {
            return self.line.pop_front();
        }
        take_indexed(&mut self.queues, &mut self.turns)
    }

    /// Takes the Turn of the object off; whether there was one.
    pub(crate) fn cancel_turn(&mut self, object: u32) -> bool
        requires one { turn_count object self.old ≤ 1 }
        ensures found { IsTrue result ↔ (0 < turn_count object self.old) }
        ensures left { self.new ≡ without_turns object self.old }
    {
        cancel_indexed(&mut self.queues, &mut self.turns, object)
    }

    /// What is kept: none is taken before one that stands before it.
    pub(crate) fn keeps(&self)
        ensures sorted { AreSorted self.now }
    {
        let _ = &self.queues;
    }
}
