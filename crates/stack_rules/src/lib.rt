//! When a file of NCS code is well stacked, and what follows of that, as definitions and laws.
//!
//! There is no code here that runs. A table of shapes says for each place of a routine which types
//! the stack's cells have there (`specs/Tables.antt`), and it meets the rules where each
//! instruction has a rule on the shape at its place and leads to places with the shape after it
//! (`specs/Rules.antt`). A file is well stacked where some table meets the rules for it.
//!
//! The functions of this crate do nothing. Each is a law: its contract is proved of the
//! definitions, for whoever calls it. The laws of soundness say that no script of well-stacked code
//! comes to an instruction that has no case on its stack. docs/SHAPES.md tells all of it in words.
#![tactic(auto)]

mod laws;

pub use laws::{
    entries_begin_safely, runs_are_sound, states_hold_values, steps_are_safe,
    tables_type_execute_script,
};
