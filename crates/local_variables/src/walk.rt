//! The variables one after the other.

ghost use Rattle.std.specs.Prelude.{◌≡◌, drop, slice_get};
ghost use Rattle.std.specs.Option.{option_map};
ghost use Rattle.local_variables.specs.Variables.{variable_of};
ghost use Rattle.local_variables.specs.Kept.{walked};

use crate::held::Held;
use crate::vars::Var;
use stamped_slots::Walk as Rest;
use std::marker::Model;

/// A walk over the variables of an object in their order. Contracts see those that are left.
#[derive(Drop)]
pub struct Walk<'a> {
    /// The rest of the variables under their stamps, where the object has some.
    rest: Option<Rest<'a, Held>>,
}

impl<'a> Model for Walk<'a> {
    ghost use Rattle.std.specs.Prelude.{List};
    ghost use Rattle.local_variables.specs.Variables.{Variable};
    ghost use Rattle.local_variables.specs.Kept.{walked};

    ghost Value = { List Variable };

    ghost view = { λ w. walked w.rest };
}

impl<'a> Walk<'a> {
    /// The walk over these, where there are some.
    pub(crate) fn over(rest: Option<Rest<'a, Held>>) -> Walk<'a>
        ensures all { result ≡ walked rest.entry }
    {
        Walk { rest }
    }

    /// The next variable, if one is left.
    #[tactic(auto, using(crate::proofs::KeptLemmas::seen_first, crate::proofs::KeptLemmas::seen_rest))]
    pub fn next(&mut self) -> Option<Var<'a>>
        ensures first { option_map variable_of result ≡ slice_get self.old 0 }
        ensures rest { self.new ≡ drop 1 self.old }
    {
        match &mut self.rest {
            None => None,
            Some(rest) => match rest.next() {
                None => None,
                Some((_, held)) => Some(held.variable()),
            },
        }
    }
}
