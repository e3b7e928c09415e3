//! A list that only proofs read: [`Notes`] takes no bytes, and its functions do nothing when they
//! run. So a value can tell in its contract what it was handed, and keep none of it.
#![tactic(auto)]

ghost use Rattle.std.specs.Prelude.{◌≡◌, List, [], ◌++◌};
ghost use Rattle.std.specs.Borrow.{ftrue};

use std::marker::{Model, PhantomData};

/// What was noted, in order.
#[derive(Drop)]
pub struct Notes<E> {
    of: PhantomData<E>,
    pub ghost all: { List E },
}

impl<E> Model for Notes<E> {
    ghost also_owns = { λ _. ftrue };
}

impl<E> Notes<E> {
    pub fn new() -> Notes<E>
        ensures { result.all ≡ [] }
    {
        Notes { of: PhantomData }
    }

    /// With more, which the caller's proof picks from the event that it hands in.
    pub fn then<A>(&self, _event: &A) -> Notes<E>
        ghost more: { List E }
        ensures { result.all ≡ self.now.all ++ more }
    {
        Notes { of: PhantomData }
    }
}
