//! The rule of one NCS instruction on the shape of the stack: which types its cells have.
//!
//! A [`Shape`] is what a checker knows of the stack at a place of a routine: the slots of the
//! routine's own cells, those beneath BP, and what SAVEBP has put aside. [`step`] gives the shape
//! after an instruction, or nothing where the instruction has no rule on that shape; [`suffix`]
//! gives what two shapes have in common from the top.
//!
//! A rule looks at lists of slots from the top, and asks no more of a list than [`TopFirst`] gives.
//! So its parts serve lists of every kind: [`stack_effect`] and [`call_effect`] say what an
//! instruction pops and pushes, [`stored_types`] what STORE_STATE finds. The lists of a [`Shape`]
//! are plain ones that grow at their end: the top of the stack is the last slot, and the newest
//! saved list the last list.
//!
//! What is promised stands in `specs/Rule.antt`, with the laws of `specs/Laws.antt`: what is popped
//! is there, and further cells beneath change nothing. docs/SHAPES.md tells it in words.
#![tactic(auto)]

mod call;
mod common_suffix;
mod effect;
mod laws;
mod range;
mod reach;
mod rule;
mod shape;
mod store;
mod top_first;

pub use call::{action_count, call_effect, is_callable};
pub use common_suffix::suffix;
pub use effect::{StackEffect, stack_effect, type_of_both, type_of_one};
pub use laws::{
    cells_of_bytes, effects_pop_values, ranges_of_cells, rules_look_from_the_top,
    rules_look_no_deeper,
};
pub use range::{CellRange, cell_count, depth_of, range_at};
pub use reach::{Reach, reach_of};
pub use rule::step;
pub use shape::{Entry, Shape, Slot, Slots, Unders};
pub use store::{StoredTypes, stored_types};
pub use top_first::TopFirst;
