//! The law that what the compiler emits is well stacked.
//!
//! There is no code here that runs. A table of shapes is given for the code of each typed unit, by
//! the structure of its tree: `specs/Spots.antt` says what is known in front of a line of labelled
//! code and when lines in a row go by the rules, and `specs/Table.antt` which table that gives.
//! `specs/WellTyped.antt` says what the unit has to keep besides the bounds of `emission_rules`.
//! The functions of this crate do nothing: each is a law, whose contract is proved of the
//! definitions. The page on it is docs/SHAPES.md.
#![tactic(auto)]

mod laws;

pub use laws::{typed_units_fit, units_are_well_stacked};
