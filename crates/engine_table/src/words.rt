ghost use Rattle.std.specs.Prelude.{◌≡◌, [], OnOk};
ghost use Rattle.engine_table.specs.Names.{is_among, with_word};

use nwq_value::{Const, NoMemory, Table, Text};
use std::alloc::Global;
use std::marker::Model;

/// The names that are type words of a header. They are kept as the names of constants, so that a
/// look-up takes no longer in a long list. Contracts see the list of the names.
#[derive(Drop)]
pub struct Words {
    names: Table,
}

impl Model for Words {
    ghost use Rattle.std.specs.Prelude.{◌≡◌, ℕ, List, [], map};

    ghost Value = { List (List ℕ) };

    ghost view = { λ w. map (λ c. c.name) w.names.constants };

    ghost invariant = { λ w. w.names.routines ≡ [] };
}

impl Words {
    pub fn new(alloc: Global) -> Words
        ensures { result ≡ [] }
    {
        Words {
            names: Table::new(alloc),
        }
    }

    /// Whether the name is a type word.
    pub fn has(&self, name: &[u8]) -> bool
        ensures { result ≡ is_among name.now self.now }
    {
        self.names.constant(name).is_some()
    }

    /// Makes the name a type word.
    pub fn add(&mut self, name: Text) -> Result<(), NoMemory>
        ensures { OnOk result (self.new ≡ with_word name self.old) }
    {
        if self.has(name.bytes()) {
            return Ok(());
        }
        self.names.define(name, Const::SelfObject)?;
        Ok(())
    }
}
