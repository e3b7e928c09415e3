//! What a state's parts tell of objects: values, what an object is to do and what stands on it, and
//! its variables, each made from the part that has it.
//!
//! Parts are those of `state_format`, and `state_parts/specs/World.antt` says what each tells.
//! Texts that are too long for a value are no part's here ([`text`]), and two variables of one type
//! and name are no object's: [`are_distinct`] tests that first, at a cost that names can't raise.
//! See docs/SAVES.md.
#![tactic(auto)]

mod places;
mod things;
mod values;

pub use places::are_distinct;
pub use things::{objects, variables};
pub use values::{saved, text};
