//! What is in sight where a node of a unit of NWScript stands, as code holds it while it types.
//!
//! [`Sight`] is the record that `typing_rules` defines, seen through `specs/Views.antt`: names that
//! are declared, structs, the declarations of functions, and where the node stands. Contracts see
//! [`Names`], [`Structs`], [`Heads`] and [`Labels`] as the lists of the definitions, and each call
//! answers what the definition of the same name gives; code finds a name, a struct, a declaration
//! or a case by an index, with no search. A scope is entered and left by a [`Mark`],
//! which keeps what the scope changes. The page on it is docs/TYPES.md.
#![tactic(auto)]

mod budget;
pub mod heads;
pub mod labels;
pub mod laws;
pub mod names;
pub mod places;
pub mod sight;
pub mod structs;

pub use heads::{Head, Heads, Signature};
pub use labels::Labels;
pub use names::{Entry, Meaning, Names};
pub use places::Places;
pub use sight::{Mark, Sight};
pub use structs::{Meant, Member, Members, Structs, Structure};
