//! The way back from an area to a GFF tree.
//!
//! [`into_tree`] puts the variables that the objects have now into the tree that was read, where
//! all else stays. `specs/Back.antt` says what goes back, entry by entry, and `specs/Laws.antt`
//! what follows: the tree that was read where nobody changed the area, one value that differs where
//! a variable was put, and a tree that is read as the same area. docs/AREA.md tells the rules.
#![tactic(auto)]

mod back;
mod laws;

pub use back::into_tree;
pub use laws::areas_go_back;
