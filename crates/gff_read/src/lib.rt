//! The reading of the one tree that the bytes of a GFF V3.2 file stand for.
//!
//! `specs/Stands.antt` says what it means that bytes stand for a tree, by the types of the fields,
//! and [`one_tree`] that they stand for one at most. [`read`] gives that tree, or the first test of
//! a walk in preorder that fails (`specs/Rows.antt`, `specs/Walk.antt`). docs/GFF.md tells the
//! format, the order of the tests and this project's choices.
#![tactic(auto)]

mod budget;
mod fault;
mod kind;
mod laws;
mod reader;
mod row;
mod scalar;
mod walk;

pub use budget::TREE_BYTES;
pub use fault::TreeFault;
pub use kind::FieldKind;
pub use laws::{one_tree, read_trees_stand, trees_are_sound};
pub use reader::{read, read_within};
