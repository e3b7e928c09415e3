ghost use Rattle.std.specs.Prelude.{◌≡◌, [], ◌∷◌, ◌++◌, drop, length, slice_get};
ghost use Rattle.std.specs.Prelude.{IfOk, OnOk, OnErr};
ghost use Rattle.std.specs.List.{find};
ghost use Rattle.std.specs.Option.{option_copied};
ghost use Rattle.world_rules.specs.Changes.{is_effect, is_numbered, without_first};

use crate::data::Stood;
use crate::effects::Effects;
use nwq_value::{Effect, NoMemory};
use stamped_slots::Walk;
use std::alloc::Global;
use std::marker::Model;

/// The effects of one object, in the order in which they came.
///
/// One is found by its number or by what it is, and taken off without a look at the others. An
/// object without effects keeps nothing of them.
pub struct Standing {
    alloc: Global,
    /// The effects, where there are some.
    kept: Option<Box<Effects>>,
}

impl Model for Standing {
    ghost use Rattle.std.specs.Prelude.{List};
    ghost use Rattle.world_rules.specs.declared.data.Stood.{Stood};
    ghost use Rattle.world_rules.specs.Standing.{boxed};

    ghost Value = { List Stood };

    ghost view = { λ s. boxed s.kept };
}

impl Drop for Standing {
    fn drop(self) {
        let Standing { alloc: _, kept } = self;
        drop(kept);
    }
}

/// The list of one effect.
fn only(alloc: Global, stood: Stood) -> Result<Box<Effects>, NoMemory>
    ensures only { IfOk result (λ all. all.value ≡ stood ∷ []) }
{
    let mut all = Effects::new(alloc);
    match all.push(stood) {
        Err(NoMemory) => {
            drop(all);
            Err(NoMemory)
        }
        Ok(()) => Ok(Box::new(alloc, all)?),
    }
}

impl Standing {
    /// No effects; takes no memory.
    pub fn new(alloc: Global) -> Standing
        ensures empty { result ≡ [] }
    {
        Standing { alloc, kept: None }
    }

    pub fn len(&self) -> usize
        ensures len { result ≡ length self.now }
    {
        match &self.kept {
            None => 0,
            Some(all) => all.len(),
        }
    }

    /// A walk over all effects.
    pub fn walk(&self) -> StandingWalk<'_>
        ensures all { result ≡ self.now }
    {
        match &self.kept {
            None => StandingWalk { rest: None },
            Some(all) => StandingWalk {
                rest: Some(all.walk()),
            },
        }
    }

    /// Puts an effect last. After `NoMemory` it is dropped, and the others are as before.
    pub fn push(&mut self, stood: Stood) -> Result<(), NoMemory>
        ensures ok { OnOk result (self.new ≡ self.old ++ stood ∷ []) }
        ensures err { OnErr result (self.new ≡ self.old) }
    {
        match &mut self.kept {
            Some(all) => all.push(stood),
            None => {
                self.kept = Some(only(self.alloc, stood)?);
                Ok(())
            }
        }
    }

    /// Lets the memory go where no effect is left.
    #[tactic(auto, using(crate::proofs::StandingLemmas::none_left_is))]
    fn settle(&mut self)
        ensures same { self.new ≡ self.old }
    {
        if self.len() == 0 {
            self.kept = None;
        }
    }

    /// Takes the first effect of this number off, where there is one.
    pub fn take_numbered(&mut self, number: u64) -> Option<Stood>
        ensures taken { result ≡ find (is_numbered number) self.old }
        ensures left { self.new ≡ without_first (is_numbered number) self.old }
    {
        match &mut self.kept {
            None => None,
            Some(all) => {
                let taken = all.take_numbered(number);
                self.settle();
                taken
            }
        }
    }

    /// Takes the first effect that is equal to this one off, where there is one.
    pub fn take_equal(&mut self, effect: &Effect) -> Option<Stood>
        ensures taken { result ≡ find (is_effect effect.now) self.old }
        ensures left { self.new ≡ without_first (is_effect effect.now) self.old }
    {
        match &mut self.kept {
            None => None,
            Some(all) => {
                let taken = all.take_equal(effect);
                self.settle();
                taken
            }
        }
    }
}

/// A walk over the effects of an object in their order. Contracts see those that are left.
#[derive(Drop)]
pub struct StandingWalk<'a> {
    rest: Option<Walk<'a, Stood>>,
}

impl<'a> Model for StandingWalk<'a> {
    ghost use Rattle.std.specs.Prelude.{List};
    ghost use Rattle.world_rules.specs.declared.data.Stood.{Stood};
    ghost use Rattle.world_rules.specs.Standing.{walked};

    ghost Value = { List Stood };

    ghost view = { λ w. walked w.rest };
}

impl<'a> StandingWalk<'a> {
    /// The next effect, if one is left.
    pub fn next(&mut self) -> Option<&'a Stood>
        ensures first { option_copied result ≡ slice_get self.old 0 }
        ensures rest { self.new ≡ drop 1 self.old }
    {
        match &mut self.rest {
            None => None,
            Some(walk) => match walk.next() {
                None => None,
                Some((_stamp, stood)) => Some(stood),
            },
        }
    }
}
