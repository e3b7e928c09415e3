ghost use Rattle.std.specs.Prelude.{◌≡◌, [], None, Some, IsSome, IfOk, OnOk, OnErr, MatchOption};
ghost use Rattle.std.specs.Prelude.{map};
ghost use Rattle.nwq_value.specs.Index.{entry, number_under, Puts};
ghost use Rattle.nwq_value.specs.Hashed.{hash_of, first_of, AreHashed, IsTaken, PutsFirst};

use crate::memory::NoMemory;
use std::alloc::Global;
use std::collections::BTreeMap;
use std::hash::{FoldHasher, Hasher};
use std::marker::Model;

/// A name with its number.
#[derive(Drop)]
pub(crate) struct Numbered {
    name: Vec<u8>,
    number: usize,
}

/// Numbers under names, each found by going down a tree of the names' hashes. Contracts see names
/// with numbers, and speak of the number that stands under a name.
///
/// The hash is fixed, so whoever picks the names can make hashes equal. The tree of hashes has one
/// name for each hash; the others stand in a tree of names. So a look-up takes a logarithm of how
/// many names there are, whatever they are.
pub struct NameIndex {
    alloc: Global,
    first: BTreeMap<u64, Numbered>,
    others: BTreeMap<Vec<u8>, usize>,
}

impl Model for NameIndex {
    ghost use Rattle.std.specs.Prelude.{List, ℕ};
    ghost use Rattle.nwq_value.specs.Hashed.{AreHashed, names_of};

    ghost Value = { List (List ℕ × ℕ) };

    ghost view = { λ n. names_of n.first n.others };

    ghost invariant = { λ n. AreHashed n.first };
}

impl Drop for NameIndex {
    fn drop(self) {
        let NameIndex {
            alloc: _,
            first,
            others,
        } = self;
        drop(first);
        drop(others);
    }
}

/// The hash of a name.
fn hash_of(name: &[u8]) -> u64
    ensures { result ≡ hash_of name.now }
{
    let mut hasher = FoldHasher::default();
    hasher.write(name);
    hasher.finish()
}

/// The number of a name, if it is the one that stands under its hash.
fn first_of(first: &BTreeMap<u64, Numbered>, name: &[u8]) -> Option<usize>
    ensures { result ≡ first_of first.now name.now }
{
    match first.get(&hash_of(name)) {
        Some(held) => {
            if held.name.as_slice() == name {
                Some(held.number)
            } else {
                None
            }
        }
        None => None,
    }
}

/// Puts a name with its number under its hash. Where another name stands there, that one stays, and
/// the new one comes back: this is rare, so it isn't looked for before.
#[tactic(auto, using(crate::proofs::HashLemmas::put_lemmas))]
fn put_first(
    first: &mut BTreeMap<u64, Numbered>,
    hash: u64,
    name: &[u8],
    held: Numbered,
) -> Result<Option<Numbered>, NoMemory>
    requires hashed { AreHashed first.old }
    requires hash { hash ≡ hash_of name.now }
    requires name { held.name.items ≡ name.now }
    ensures ok { IfOk result (λ back. MatchOption back
        (PutsFirst name.now (Some held.number) first.old first.new)
        (λ left. (left ≡ held) × IsTaken name.now first.old first.new)) }
    ensures same { OnErr result (first.new.entries ≡ first.old.entries) }
    ensures still { OnErr result (AreHashed first.new) }
{
    match first.insert(hash, held) {
        Err(_) => Err(NoMemory),
        Ok(None) => Ok(None),
        Ok(Some(old)) => {
            if old.name.as_slice() == name {
                return Ok(None);
            }
            match first.insert(hash, old) {
                Ok(Some(held)) => Ok(Some(held)),
                _ => unreachable!(),
            }
        }
    }
}

/// Puts another number under a name that stands under its hash.
fn renumber(first: &mut BTreeMap<u64, Numbered>, name: &[u8], number: usize)
    requires hashed { AreHashed first.old }
    requires there { IsSome (first_of first.old name.now) }
    ensures { PutsFirst name.now (Some number) first.old first.new }
{
    if let Some(held) = first.get_mut(&hash_of(name)) {
        held.number = number;
    }
}

/// Takes a name out, if it stands under its hash.
fn take_out(first: &mut BTreeMap<u64, Numbered>, name: &[u8])
    requires hashed { AreHashed first.old }
    ensures { PutsFirst name.now None first.old first.new }
{
    if first_of(first, name).is_some() {
        first.remove(&hash_of(name));
    }
}

/// Puts another number under a name that is there.
fn replace(others: &mut BTreeMap<Vec<u8>, usize>, name: &[u8], number: usize)
    requires there { IsSome (number_under name.now (map entry others.old.entries)) }
    ensures { Puts name.now (Some number) (map entry others.old.entries)
        (map entry others.new.entries) }
{
    if let Some(held) = others.get_mut(name) {
        *held = number;
    }
}

impl NameIndex {
    /// The index without names.
    pub fn new(alloc: Global) -> NameIndex
        ensures empty { result ≡ [] }
    {
        NameIndex {
            alloc,
            first: BTreeMap::new(alloc),
            others: BTreeMap::new(alloc),
        }
    }

    /// The number under a name.
    pub fn get(&self, name: &[u8]) -> Option<usize>
        ensures number { result ≡ number_under name.now self.now }
    {
        match first_of(&self.first, name) {
            Some(number) => Some(number),
            None => self.others.get(name).copied(),
        }
    }

    /// Puts a number under a name, whether there is one or not. After `NoMemory` the index is as
    /// before.
    pub fn set(&mut self, name: &[u8], number: usize) -> Result<(), NoMemory>
        ensures ok { OnOk result (Puts name.now (Some number) self.old self.new) }
        ensures err { OnErr result (self.new ≡ self.old) }
    {
        let hash = hash_of(name);
        let key = Vec::from_slice(self.alloc, name)?;
        let held = Numbered { name: key, number };
        match put_first(&mut self.first, hash, name, held)? {
            None => Ok(()),
            Some(back) => {
                self.others.insert(back.name, back.number)?;
                Ok(())
            }
        }
    }

    /// Puts another number under a name, which takes no memory.
    pub fn replace(&mut self, name: &[u8], number: usize)
        requires there { IsSome (number_under name.now self.old) }
        ensures put { Puts name.now (Some number) self.old self.new }
    {
        if first_of(&self.first, name).is_some() {
            renumber(&mut self.first, name, number);
        } else {
            replace(&mut self.others, name, number);
        }
    }

    /// Takes a name out, if it is there.
    pub fn remove(&mut self, name: &[u8])
        ensures gone { Puts name.now None self.old self.new }
    {
        take_out(&mut self.first, name);
        self.others.remove(name);
    }

    /// Takes all names out.
    pub fn clear(&mut self)
        ensures empty { self.new ≡ [] }
    {
        self.first.clear();
        self.others.clear();
    }
}
