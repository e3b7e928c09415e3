ghost use Rattle.std.specs.Prelude.{◌≡◌, ◌<◌, ◌↔◌, [], ◌∷◌, ◌++◌, length, slice_get, slice_set};
ghost use Rattle.std.specs.Prelude.{IsTrue, OnOk, OnErr, IfOk};
ghost use Rattle.std.specs.Option.{option_copied};

use crate::memory::NoMemory;
use std::alloc::Global;
use std::marker::Model;

/// A plain list that grows at its end. Contracts see it as the list of its items.
pub struct Items<T> {
    all: Vec<T>,
}

impl<T> Model for Items<T> {
    ghost use Rattle.std.specs.Prelude.{List};

    ghost Value = { List T };

    ghost view = { λ a. a.all.items };
}

impl<T: Drop> Drop for Items<T> {
    fn drop(self) {
        let Items { all } = self;
        drop(all);
    }
}

impl<T> Items<T> {
    /// The list without items.
    pub fn new(alloc: Global) -> Self
        ensures empty { result ≡ [] }
    {
        Items {
            all: Vec::new(alloc),
        }
    }

    pub fn len(&self) -> usize
        ensures len { result ≡ length self.now }
    {
        self.all.len()
    }

    pub fn is_empty(&self) -> bool
        ensures empty { IsTrue result ↔ (self.now ≡ []) }
    {
        self.all.is_empty()
    }

    /// The items, borrowed as a slice.
    pub fn as_slice(&self) -> &[T]
        ensures items { result.now ≡ self.now }
    {
        self.all.as_slice()
    }

    /// The item at place `i`, counted from 0.
    pub fn get(&self, i: usize) -> Option<&T>
        ensures item { option_copied result ≡ slice_get self.now i }
    {
        self.all.get(i)
    }

    /// The list of a vector's items, which takes no memory.
    pub fn of_vec(all: Vec<T>) -> Self
        ensures items { result ≡ all.items }
    {
        Items { all }
    }

    /// The vector of the items, which takes no memory.
    pub fn into_vec(self) -> Vec<T>
        ensures items { result.items ≡ self }
    {
        let Items { all } = self;
        all
    }
}

impl<T: Drop> Items<T> {
    /// Puts an item last. After `NoMemory` the item is dropped and the list is as before.
    pub fn push(&mut self, x: T) -> Result<(), NoMemory>
        ensures ok { OnOk result (self.new ≡ self.old ++ x ∷ []) }
        ensures err { OnErr result (self.new ≡ self.old) }
    {
        self.all.push(x)?;
        Ok(())
    }

    /// Replaces the item at place `i`.
    pub fn set(&mut self, i: usize, x: T)
        requires inside { i < length self.old }
        ensures set { self.new ≡ slice_set self.old i x }
    {
        self.all[i] = x;
    }

    /// Drops all items.
    pub fn clear(&mut self)
        ensures empty { self.new ≡ [] }
    {
        self.all.clear();
    }
}

impl<T: Copy> Items<T> {
    /// The list of copies of a slice's items.
    pub fn of_slice(alloc: Global, items: &[T]) -> Result<Self, NoMemory>
        ensures ok { IfOk result (λ all. all ≡ items.now) }
    {
        Ok(Items {
            all: Vec::from_slice(alloc, items)?,
        })
    }

    /// Puts copies of a slice's items last. After `NoMemory` the list is as before.
    pub fn extend(&mut self, items: &[T]) -> Result<(), NoMemory>
        ensures ok { OnOk result (self.new ≡ self.old ++ items.now) }
        ensures err { OnErr result (self.new ≡ self.old) }
    {
        self.all.extend_from_slice(items)?;
        Ok(())
    }
}
