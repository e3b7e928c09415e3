//! What the stack checker keeps: lists that share their lower parts, shapes that are made of them,
//! rows, and a worklist.
//!
//! A list of slots is a number of a node (`stacks`): a push is one node, whatever lies beneath, and
//! a list that is made again gets the number that it had. A shape is four numbers ([`Held`]), and
//! [`step`] makes the shape after one instruction. A row is the shape at a place, of a trial
//! ([`Rows`]); the worklist says where to look next ([`Todo`]). What is inferred of them is no part
//! of this crate. The page is docs/SHAPES.md.
#![tactic(auto)]

mod budget;
mod held;
mod lists;
mod notes;
mod places;
mod row_list;
mod rows;
mod slots;
mod stacks;
mod todo;

pub use budget::{MOST, room};
pub use held::{Heap, Held, resumed, same_shape, step, stored_counts, with_cells};
pub use lists::{Lists, Node};
pub use places::Places;
pub use rows::{Rows, ShapeRow};
pub use slots::same;
pub use stacks::Stacks;
pub use todo::{Call, Side, Spot, Todo};
