//! The items one after the other.
ghost use Rattle.std.specs.Prelude.{◌≡◌, [], Some, drop, slice_get, MatchOption};
ghost use Rattle.stamped_slots.specs.Kept.{seen};

use crate::slots::Slots;
use std::marker::Model;

/// A walk over items in the order of their stamps. Contracts see those that are left.
#[derive(Drop)]
pub struct Walk<'a, T> {
    slots: &'a Slots<T>,
    /// The place of the next slot.
    at: usize,
}

impl<'a, T> Model for Walk<'a, T> {
    ghost use Rattle.std.specs.Prelude.{List, ℕ, drop};
    ghost use Rattle.stamped_slots.specs.Kept.{seen};

    ghost Value = { List (ℕ × T) };

    ghost view = { λ w. seen (drop w.at w.slots.now.items) };
}

impl<'a, T> Walk<'a, T> {
    /// The walk over these slots.
    pub(crate) fn over(slots: &'a Slots<T>) -> Walk<'a, T>
        ensures all { result ≡ seen slots.now.items }
    {
        Walk { slots, at: 0 }
    }

    /// The next item and its stamp, if one is left.
    pub fn next(&mut self) -> Option<(u64, &'a T)>
        ensures first { MatchOption result (self.old ≡ [])
            (λ e. slice_get self.old 0 ≡ Some (e.0, e.1.now)) }
        ensures rest { self.new ≡ drop 1 self.old }
    {
        while self.at < self.slots.len() {
            let slot = &self.slots[self.at];
            self.at += 1;
            if let Some(item) = &slot.item {
                return Some((slot.stamp, item));
            }
        }
        None
    }
}
