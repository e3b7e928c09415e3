//! The effects of an object that has some.
ghost use Rattle.std.specs.Prelude.{◌≡◌, ◌∷◌, ◌++◌, [], false, true, length};
ghost use Rattle.std.specs.Prelude.{OnOk, OnErr};
ghost use Rattle.std.specs.List.{find};
ghost use Rattle.stamped_slots.specs.Firsts.{IsFirst, passes};
ghost use Rattle.stamped_slots.specs.Index.{IsLeast};
ghost use Rattle.stamped_slots.specs.Stamps.{at, without, AreUnder, Rise};
ghost use Rattle.world_rules.specs.Changes.{is_effect, is_numbered, without_first};
ghost use Rattle.world_rules.specs.Standing.{content_hash, content_key, number_key, stood_in};
ghost use Rattle.world_rules.specs.Standing.{IsIndex, MarksMaybe};

use crate::data::Stood;
use nwq_value::{Effect, NoMemory};
use stamped_slots::{StampIndex, Stamped, Walk};
use std::alloc::Global;
use std::hash::{FoldHasher, Hash, Hasher};
use std::marker::Model;

/// The effects of an object in the order in which they came.
///
/// The stamp of an effect is its place among all that ever came. Of an effect that is sought, its
/// number or the hash of what it is leads to its stamp, so that no other is looked at.
pub(crate) struct Effects {
    all: Stamped<Stood>,
    /// The stamp of the next one.
    next: u64,
    /// The stamps of those for a time by their numbers, and of all by their hashes.
    numbers: StampIndex,
    contents: StampIndex,
}

impl Model for Effects {
    ghost use Rattle.std.specs.Prelude.{List};
    ghost use Rattle.world_rules.specs.declared.data.Stood.{Stood};
    ghost use Rattle.world_rules.specs.Standing.{stood_in, AreKept};

    ghost Value = { List Stood };

    ghost view = { λ e. stood_in e.all.items };

    ghost invariant = { λ e. AreKept e.next e.all.items e.numbers e.contents };
}

impl Drop for Effects {
    fn drop(self) {
        let Effects {
            all,
            next: _,
            numbers,
            contents,
        } = self;
        drop(all);
        drop(numbers);
        drop(contents);
    }
}

/// The hash of an effect.
#[tactic(auto, unfolding(crate::specs::Standing::content_hash))]
fn content_hash(effect: &Effect) -> u64
    ensures { result ≡ content_hash effect.now }
{
    let mut hasher = FoldHasher::default();
    hasher.write_u16(effect.routine());
    i32::hash_slice(effect.ints(), &mut hasher);
    hasher.finish()
}

/// Puts a stamp under a key, where there is one.
fn put_under(index: &mut StampIndex, key: Option<u64>, stamp: u64) -> Result<(), NoMemory>
    ensures ok { OnOk result (MarksMaybe key stamp true index.old index.new) }
    ensures err { OnErr result (index.new ≡ index.old) }
{
    match key {
        None => Ok(()),
        Some(own) => {
            index.put(own, stamp)?;
            Ok(())
        }
    }
}

/// Takes a stamp out from under a key, where there is one.
fn remove_under(index: &mut StampIndex, key: Option<u64>, stamp: u64)
    ensures gone { MarksMaybe key stamp false index.old index.new }
{
    match key {
        None => {}
        Some(own) => index.remove(own, stamp),
    }
}

/// Whether the effect under a stamp is equal to this one.
fn is_equal_at(all: &Stamped<Stood>, stamp: u64, effect: &Effect) -> bool
    ensures test { result ≡ passes (is_effect effect.now) (at stamp all.now.items) }
{
    match all.get(stamp) {
        None => false,
        Some(stood) => stood.is_effect(effect),
    }
}

/// The stamp of the first effect that is equal to this one; all stamps are below `next`.
#[tactic(auto, using(crate::proofs::StandingLemmas::searches))]
fn stamp_of_equal(
    all: &Stamped<Stood>,
    contents: &StampIndex,
    next: u64,
    effect: &Effect,
) -> Option<u64>
    requires under { AreUnder next all.now.items }
    requires index { IsIndex content_key all.now.items contents.now }
    ensures first { IsFirst (is_effect effect.now) result all.now.items }
{
    let key = content_hash(effect);
    let mut from = 0;
    while let Some(stamp) = contents.least(key, from) {
        if is_equal_at(all, stamp, effect) {
            return Some(stamp);
        }
        from = stamp + 1;
    }
    None
}

/// Takes the stamp of an effect out from under its keys, where it is there.
fn remove_stamp(numbers: &mut StampIndex, contents: &mut StampIndex, stood: &Stood, stamp: u64)
    ensures numbers { MarksMaybe (number_key stood.now) stamp false numbers.old numbers.new }
    ensures contents { MarksMaybe (content_key stood.now) stamp false contents.old contents.new }
{
    remove_under(numbers, stood.number, stamp);
    remove_under(contents, Some(content_hash(&stood.effect)), stamp);
}

/// Puts the stamp of an effect under its keys. After `NoMemory` it is under none.
#[tactic(auto, using(crate::proofs::StandingLemmas::marks_twice))]
fn put_stamp(
    numbers: &mut StampIndex,
    contents: &mut StampIndex,
    stood: &Stood,
    stamp: u64,
) -> Result<(), NoMemory>
    ensures numbers { OnOk result
        (MarksMaybe (number_key stood.now) stamp true numbers.old numbers.new) }
    ensures contents { OnOk result
        (MarksMaybe (content_key stood.now) stamp true contents.old contents.new) }
    ensures no_number { OnErr result
        (MarksMaybe (number_key stood.now) stamp false numbers.old numbers.new) }
    ensures no_content { OnErr result
        (MarksMaybe (content_key stood.now) stamp false contents.old contents.new) }
{
    if put_under(numbers, stood.number, stamp).is_err() {
        remove_stamp(numbers, contents, stood, stamp);
        return Err(NoMemory);
    }
    if put_under(contents, Some(content_hash(&stood.effect)), stamp).is_err() {
        remove_stamp(numbers, contents, stood, stamp);
        return Err(NoMemory);
    }
    Ok(())
}

/// Puts an effect last, under a stamp above all others. After `NoMemory` all is as before.
#[tactic(auto, using(crate::proofs::StandingLemmas::additions))]
fn add(
    all: &mut Stamped<Stood>,
    numbers: &mut StampIndex,
    contents: &mut StampIndex,
    stamp: u64,
    stood: Stood,
) -> Result<(), NoMemory>
    requires under { AreUnder stamp all.old.items }
    requires numbers { IsIndex number_key all.old.items numbers.old }
    requires contents { IsIndex content_key all.old.items contents.old }
    ensures ok { OnOk result (all.new.items ≡ all.old.items ++ (stamp, stood) ∷ []) }
    ensures err { OnErr result (all.new.items ≡ all.old.items) }
    ensures by_number { IsIndex number_key all.new.items numbers.new }
    ensures by_content { IsIndex content_key all.new.items contents.new }
{
    if put_stamp(numbers, contents, &stood, stamp).is_err() {
        drop(stood);
        return Err(NoMemory);
    }
    match all.insert(stamp, stood) {
        Ok(()) => Ok(()),
        Err(failed) => {
            remove_stamp(numbers, contents, &failed.value, stamp);
            drop(failed);
            Err(NoMemory)
        }
    }
}

/// Takes the effect under a stamp out, and the stamp from under its keys.
#[tactic(auto, using(crate::proofs::StandingLemmas::index_lacks))]
fn take_out(
    all: &mut Stamped<Stood>,
    numbers: &mut StampIndex,
    contents: &mut StampIndex,
    stamp: u64,
) -> Option<Stood>
    requires rise { Rise 0 all.old.items }
    requires numbers { IsIndex number_key all.old.items numbers.old }
    requires contents { IsIndex content_key all.old.items contents.old }
    ensures taken { result ≡ at stamp all.old.items }
    ensures left { all.new.items ≡ without stamp all.old.items }
    ensures by_number { IsIndex number_key all.new.items numbers.new }
    ensures by_content { IsIndex content_key all.new.items contents.new }
{
    match all.take(stamp) {
        None => None,
        Some(stood) => {
            remove_stamp(numbers, contents, &stood, stamp);
            Some(stood)
        }
    }
}

impl Effects {
    /// No effects; takes no memory.
    #[tactic(auto, using(crate::proofs::StandingLemmas::kept_none))]
    pub(crate) fn new(alloc: Global) -> Effects
        ensures empty { result ≡ [] }
    {
        Effects {
            all: Stamped::new(alloc),
            next: 0,
            numbers: StampIndex::new(alloc),
            contents: StampIndex::new(alloc),
        }
    }

    #[tactic(auto, using(crate::proofs::StandingLemmas::long_stood))]
    pub(crate) fn len(&self) -> usize
        ensures len { result ≡ length self.now }
    {
        self.all.len()
    }

    /// A walk over the effects, each under its stamp.
    pub(crate) fn walk(&self) -> Walk<'_, Stood>
        ensures all { stood_in result ≡ self.now }
    {
        self.all.walk()
    }

    /// Puts an effect last. After `NoMemory` it is dropped, and the others are as before.
    #[tactic(auto, using(crate::proofs::StandingLemmas::pushes))]
    pub(crate) fn push(&mut self, stood: Stood) -> Result<(), NoMemory>
        ensures ok { OnOk result (self.new ≡ self.old ++ stood ∷ []) }
        ensures err { OnErr result (self.new ≡ self.old) }
    {
        match self.next.checked_add(1) {
            None => {
                drop(stood);
                Err(NoMemory)
            }
            Some(next) => {
                let stamp = self.next;
                add(
                    &mut self.all,
                    &mut self.numbers,
                    &mut self.contents,
                    stamp,
                    stood,
                )?;
                self.next = next;
                Ok(())
            }
        }
    }

    /// Takes the first effect of this number off, where there is one.
    #[tactic(auto, using(crate::proofs::StandingLemmas::kept_less))]
    pub(crate) fn take_numbered(&mut self, number: u64) -> Option<Stood>
        ensures taken { result ≡ find (is_numbered number) self.old }
        ensures left { self.new ≡ without_first (is_numbered number) self.old }
    {
        self.all.keeps();
        match self.numbers.least(number, 0) {
            None => None,
            Some(stamp) => take_out(&mut self.all, &mut self.numbers, &mut self.contents, stamp),
        }
    }

    /// Takes the first effect that is equal to this one off, where there is one.
    #[tactic(auto, using(crate::proofs::StandingLemmas::kept_less))]
    pub(crate) fn take_equal(&mut self, effect: &Effect) -> Option<Stood>
        ensures taken { result ≡ find (is_effect effect.now) self.old }
        ensures left { self.new ≡ without_first (is_effect effect.now) self.old }
    {
        self.all.keeps();
        match stamp_of_equal(&self.all, &self.contents, self.next, effect) {
            None => None,
            Some(stamp) => take_out(&mut self.all, &mut self.numbers, &mut self.contents, stamp),
        }
    }
}
