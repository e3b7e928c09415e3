//! A large valid play made from a number: its area, the source of its one script, and its plan.
//!
//! [`make`] promises the source and the plan that `specs/Made.antt` defines line by line, and
//! [`area`] the tree of the area with so many creatures. Either may answer `NoMemory` and nothing
//! else. What is made is told in docs/GENERATED.md.
#![tactic(auto)]

pub mod laws;
mod made;
mod plan;
mod source;
mod tree;

pub use made::{Made, NUMBER_LIMIT, make};
pub use tree::area;
