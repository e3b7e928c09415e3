//! Where a name stood first in a list of names.

ghost use Rattle.std.specs.Prelude.{◌≡◌, ◌++◌, ◌∷◌, [], None, slice_get, OnErr, OnOk};
ghost use Rattle.std.specs.Option.{option_copied};
ghost use Rattle.nwq_value.specs.Index.{first_place, number_under};
ghost use Rattle.nss_scopes.specs.Places.{HasFirst};

use nwq_value::{NameIndex, NoMemory, Text};
use std::alloc::Global;
use std::marker::Model;

/// Names in order, in which the first of a name is found without a search. Contracts see the list
/// of them.
#[derive(Drop)]
pub struct Places {
    names: Vec<Text>,
    first: NameIndex,
}

impl Model for Places {
    ghost use Rattle.std.specs.Prelude.{List, ℕ};
    ghost use Rattle.nss_scopes.specs.Places.{HasFirst};

    ghost Value = { List (List ℕ) };

    ghost view = { λ p. p.names.items };

    ghost invariant = { λ p. HasFirst p.names.items p.first };
}

/// The item at a place.
pub fn item_at<T>(all: &[T], at: usize) -> Option<&T>
    ensures item { option_copied result ≡ slice_get all.now at }
{
    all.get(at)
}

/// Puts a name last that the index doesn't have. With room for it nothing is to be undone.
fn push_new(names: &mut Vec<Text>, first: &mut NameIndex, name: Text) -> Result<(), NoMemory>
    requires index { HasFirst names.old.items first.old }
    requires new { number_under name first.old ≡ None }
    ensures ok { OnOk result (names.new.items ≡ names.old.items ++ name ∷ []) }
    ensures index { HasFirst names.new.items first.new }
    ensures err { OnErr result (names.new.items ≡ names.old.items) }
{
    names.reserve(1)?;
    first.set(name.bytes(), names.len())?;
    names.push(name)?;
    Ok(())
}

impl Places {
    /// No names.
    pub fn new(alloc: Global) -> Places
        ensures empty { result ≡ [] }
    {
        Places {
            names: Vec::new(alloc),
            first: NameIndex::new(alloc),
        }
    }

    /// The place of the first of a name.
    pub fn first(&self, name: &[u8]) -> Option<usize>
        ensures first { result ≡ first_place name.now self.now }
    {
        self.first.get(name)
    }

    /// Puts a name last. After `NoMemory` the names are as before.
    pub fn push(&mut self, name: Text) -> Result<(), NoMemory>
        ensures ok { OnOk result (self.new ≡ self.old ++ name ∷ []) }
        ensures err { OnErr result (self.new ≡ self.old) }
    {
        if self.first.get(name.bytes()).is_some() {
            self.names.push(name)?;
            return Ok(());
        }
        push_new(&mut self.names, &mut self.first, name)
    }

    /// Takes all names away.
    pub fn clear(&mut self)
        ensures empty { self.new ≡ [] }
    {
        self.names.clear();
        self.first.clear();
    }
}
