//! The rows, labels and words of a GFF V3.2 file, read out of borrowed bytes.
//!
//! [`View::open`] tests the header once: the file's length, its version, and that each of the six
//! sections lies inside the file. Every call on a view then answers what stands in the bytes, or a
//! [`Range`] that names the part and the number or offset at which the file has nothing. No call
//! takes memory. What each answer is, `specs/File.antt` writes as functions of the bytes; contracts
//! see a view as those bytes. docs/GFF.md tells the format.
#![tactic(auto)]

pub mod rows;
pub mod view;

pub use rows::{FieldRow, OpenFault, Part, Range, StructRow};
pub use view::View;
