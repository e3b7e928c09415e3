//! Units of NWScript: the tokens of a script, with each include replaced by the tokens of the file
//! it names.
//!
//! [`gather`] reads a script and its includes over any `Files`, and answers the whole unit or its
//! first fault in the order of the tokens. What a unit is stands in `specs/Units.antt`, over the
//! pieces of its files, which `specs/Pieces.antt` reads off their tokens. A read that fails ends
//! the work at once, and the counts of the files show it. See docs/UNITS.md.
#![tactic(auto)]

pub mod fault;
pub mod file;
mod gatherer;
pub mod laws;
mod opened;
mod step;
pub mod unit;

pub use fault::{GatherFault, Spot};
pub use file::Source;
pub use gatherer::gather;
pub use unit::Unit;
