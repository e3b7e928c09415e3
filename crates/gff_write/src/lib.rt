//! The one file that a GFF tree is written as.
//!
//! The file has its structs in preorder, its fields struct by struct, each label once in order of
//! first use, and field data, field indices and list indices in the order of the fields.
//! `specs/File.antt` writes it as a function of the tree, over the tree's structs as
//! [`FlatStruct`]s and the file's [`Sections`]. docs/GFF.md tells the format and this project's
//! choices.
#![tactic(auto)]

mod count;
mod encode;
mod fault;
mod flat;
mod flatten;
mod labels;
mod laws;
mod measure;
mod put;
mod ranges;
mod sections;
mod writing;

pub use fault::WriteFault;
pub use flat::{Content, Entry, FlatStruct};
pub use laws::written_stands;
pub use measure::size;
pub use sections::Sections;
pub use writing::write;
