//! Typed units are as the laws of their meaning ask.
//!
//! There is no code here that runs. The laws of `source_laws` speak of units that begin with an
//! entry function, whose globals are fine and whose functions are placed. Here it is proved that
//! each unit is so that is typed by the rules of `typing_rules`, from a tree that its tokens have,
//! under a header's table: `specs/Laws.antt` says it, and [`units_are_ready`] is the law. The page
//! is docs/MEANING.md.
#![tactic(auto)]

mod laws;

pub use laws::{entries_are_plain, functions_are_placed, globals_are_fine, units_are_ready};
