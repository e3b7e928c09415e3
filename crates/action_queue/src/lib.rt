//! The action queue of an object: what the object is to do, one action after another.
//!
//! Contracts see a [`Queue`] as the list of its actions, the next one first, and a busy mark
//! (`specs/Queued.antt`). Each call changes just what its clause says.
//! `docs/AGENDA.md` tells which actions there are, and when an object is busy.
#![tactic(auto)]

mod queue;

pub use queue::{Item, Queue};
