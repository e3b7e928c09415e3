//! A GFF V3.2 file as a tree.
//!
//! [`Gff`] is plain data: structs of labelled fields of the sixteen types, with the bounds of the
//! format kept by the type. `specs/Tree.antt` reads it as a pure tree. `specs/Fields.antt` sees a
//! struct as the list of its fields, with what is found, replaced and appended under a label; the
//! calls of [`Node`], [`Field`] and [`Leaf`] are stated over it. The crate `gff_read` reads the
//! tree of a file's bytes, `gff_write` writes it. docs/GFF.md tells the format and this project's
//! choices.
#![tactic(auto)]

mod label;
mod laws;
mod node;
mod tree;

pub use label::{LABEL_BYTES, Label, before_zero};
pub use laws::{fields_tell, readings_tell};
pub use tree::{Blob, Field, Gff, Leaf, Loc, LocPart, Node, Parts};
