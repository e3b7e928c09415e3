//! The list of stamped slots.
ghost use Rattle.std.specs.Prelude.{◌≡◌, ◌≤◌, ◌*◌, [], None, Some, length, slice_get, MatchOption};
ghost use Rattle.std.specs.Prelude.{OnOk, OnErr, IfErr};
ghost use Rattle.std.specs.Option.{option_copied};
ghost use Rattle.stamped_slots.specs.Stamps.{at, put, replaced, without, Rise};

use crate::slots::{Slots, below, exchange, is_of, put_among, put_only, settle};
use crate::walk::Walk;
use std::alloc::{AllocFailed, Global};
use std::collections::VecDeque;
use std::marker::Model;

/// Items under rising stamps.
pub struct Stamped<T> {
    slots: Slots<T>,
    /// How many slots aren't empty.
    live: usize,
}

impl<T> Model for Stamped<T> {
    ghost use Rattle.std.specs.Prelude.{length};
    ghost use Rattle.std.specs.VecDeque.{deque_capacity};
    ghost use Rattle.stamped_slots.specs.Stamps.{Stamps};
    ghost use Rattle.stamped_slots.specs.Kept.{seen, IsKept};

    ghost Value = { Stamps T };

    ghost view = { λ s. record {
      items = seen s.slots.items;
      slots = length s.slots.items;
      room = deque_capacity s.slots;
    } };

    ghost invariant = { λ s. IsKept s.live s.slots.items (deque_capacity s.slots) };
}

impl<T: Drop> Drop for Stamped<T> {
    fn drop(self) {
        let Stamped { slots, live: _ } = self;
        drop(slots);
    }
}

impl<T: Drop> Stamped<T> {
    /// The list without items; takes no memory.
    pub fn new(alloc: Global) -> Stamped<T>
        ensures empty { result ≡ record { items = []; slots = 0; room = 0 } }
    {
        match VecDeque::with_capacity(alloc, 0) {
            Ok(slots) => Stamped { slots, live: 0 },
            Err(_) => unreachable!(),
        }
    }

    pub fn len(&self) -> usize
        ensures len { result ≡ length self.now.items }
    {
        self.live
    }

    /// The first item and its stamp.
    pub fn first(&self) -> Option<(u64, &T)>
        ensures first { MatchOption result (self.now.items ≡ [])
            (λ e. slice_get self.now.items 0 ≡ Some (e.0, e.1.now)) }
    {
        match self.slots.front() {
            None => None,
            Some(slot) => match &slot.item {
                None => unreachable!(),
                Some(item) => Some((slot.stamp, item)),
            },
        }
    }

    /// A walk over the items, which takes time for each slot once.
    pub fn walk(&self) -> Walk<'_, T>
        ensures all { result ≡ self.now.items }
    {
        Walk::over(&self.slots)
    }

    /// The item under a stamp.
    pub fn get(&self, stamp: u64) -> Option<&T>
        ensures item { option_copied result ≡ at stamp self.now.items }
    {
        let at = below(&self.slots, stamp);
        if is_of(&self.slots, at, stamp) {
            return self.slots[at].item.as_ref();
        }
        None
    }

    /// Puts an item under a stamp that none has, behind those of lesser stamps. For want of memory
    /// it comes back. An item that is alone has memory for it alone.
    pub fn insert(&mut self, stamp: u64, item: T) -> Result<(), AllocFailed<T>>
        requires new { at stamp self.old.items ≡ None }
        ensures ok { OnOk result (self.new.items ≡ put stamp item self.old.items) }
        ensures err { OnErr result (self.new.items ≡ self.old.items) }
        ensures back { IfErr result (λ failed. failed.value ≡ item) }
        ensures alone { self.old.items ≡ [] → OnOk result (self.new.room ≡ 1) }
    {
        if self.live == 0 {
            put_only(&mut self.slots, stamp, item)?;
            self.live = 1;
            return Ok(());
        }
        put_among(&mut self.slots, self.live, stamp, item)?;
        self.live += 1;
        Ok(())
    }

    /// Puts an item in the place of the one under a stamp, which comes back and costs no memory.
    /// Where there is none nothing changes, and the item is dropped.
    pub fn replace(&mut self, stamp: u64, item: T) -> Option<T>
        ensures was { result ≡ at stamp self.old.items }
        ensures now { self.new.items ≡ replaced stamp item self.old.items }
    {
        let at = below(&self.slots, stamp);
        if !is_of(&self.slots, at, stamp) || self.slots[at].item.is_none() {
            drop(item);
            return None;
        }
        exchange(&mut self.slots, at, Some(item))
    }

    /// Takes the item under a stamp out, where there is one; the others keep their stamps.
    pub fn take(&mut self, stamp: u64) -> Option<T>
        ensures taken { result ≡ at stamp self.old.items }
        ensures left { self.new.items ≡ without stamp self.old.items }
    {
        let at = below(&self.slots, stamp);
        if !is_of(&self.slots, at, stamp) {
            return None;
        }
        match exchange(&mut self.slots, at, None) {
            None => None,
            Some(item) => {
                self.live -= 1;
                settle(&mut self.slots, self.live);
                Some(item)
            }
        }
    }

    /// Stamps rise. At most half of the slots are empty, and without items there is no memory.
    pub fn keeps(&self)
        ensures rise { Rise 0 self.now.items }
        ensures few { self.now.slots ≤ 2 * length self.now.items }
        ensures gone { self.now.items ≡ [] → self.now.room ≡ 0 }
    {
        let _ = &self.slots;
    }
}
