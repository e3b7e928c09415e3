//! The local variables of an object: a list of ints and strings, no two of one type and name.
//!
//! Code sees a [`Vars`], reads and writes a variable by its type and name, and takes one out; what
//! is there keeps its place, and what is new comes last. Contracts see the list of the variables:
//! `specs/Variables.antt` says what is found under a name and what putting one gives, and
//! `specs/Laws.antt` what a change leaves as it was. docs/AREA.md tells the rules.
#![tactic(auto)]

mod held;
mod kept;
mod laws;
mod vars;
mod walk;

pub use laws::{variables_stay, variables_tell};
pub use vars::{Var, Vars};
pub use walk::Walk;
