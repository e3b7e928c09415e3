//! The text of a GFF tree, as the command `tree` prints it: a line for each struct and each field,
//! what stands in a field two spaces deeper.
//!
//! [`tree_text`] gives the whole text. `specs/Text.antt` defines it over the plain tree of
//! gff_tree, and docs/GFF.md shows the lines.
#![tactic(auto)]

mod lines;
mod tree;
mod value;

pub use tree::tree_text;
