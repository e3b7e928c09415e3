//! Stamps under keys.
ghost use Rattle.std.specs.Prelude.{◌≡◌, [], false, true, OnOk, OnErr};
ghost use Rattle.stamped_slots.specs.Index.{IsLeast, Marks};

use std::alloc::{AllocFailed, Global};
use std::collections::BTreeSet;
use std::marker::Model;

/// Which stamps are kept under which keys: a key may have many stamps, and a stamp many keys.
/// Contracts see the pairs, and speak of whether a stamp is under a key.
pub struct StampIndex {
    /// Each key with a stamp, by the key and then by the stamp.
    pairs: BTreeSet<(u64, u64)>,
}

impl Model for StampIndex {
    ghost use Rattle.std.specs.Prelude.{List, ℕ};

    ghost Value = { List (ℕ × ℕ) };

    ghost view = { λ i. i.pairs.keys };
}

impl Drop for StampIndex {
    fn drop(self) {
        let StampIndex { pairs } = self;
        drop(pairs);
    }
}

impl StampIndex {
    /// The index without stamps; takes no memory.
    pub fn new(alloc: Global) -> StampIndex
        ensures empty { result ≡ [] }
    {
        StampIndex {
            pairs: BTreeSet::new(alloc),
        }
    }

    /// Puts a stamp under a key. For want of memory the index is as before.
    pub fn put(&mut self, key: u64, stamp: u64) -> Result<(), AllocFailed<(u64, u64)>>
        ensures ok { OnOk result (Marks key stamp true self.old self.new) }
        ensures err { OnErr result (self.new ≡ self.old) }
    {
        self.pairs.insert((key, stamp))?;
        Ok(())
    }

    /// Takes a stamp out from under a key, if it is there.
    pub fn remove(&mut self, key: u64, stamp: u64)
        ensures gone { Marks key stamp false self.old self.new }
    {
        self.pairs.remove(&(key, stamp));
    }

    /// The least stamp under a key, of those from a stamp on.
    pub fn least(&self, key: u64, from: u64) -> Option<u64>
        ensures least { IsLeast key from result self.now }
    {
        let mut pairs = self.pairs.range((key, from)..);
        match pairs.next() {
            None => None,
            Some(pair) => { if pair.0 == key { Some(pair.1) } else { None } }
        }
    }
}
