//! The code of a typed unit, and the bytes of its file.
//!
//! Promised: [`generate`] gives exactly the file that `emission_rules/specs/Units.antt` says, or
//! the size of one that is too large. Each node is visited once, and the body of each switch a few
//! times more. The page is docs/CODE.md.
#![tactic(auto)]

mod declarations;
mod exits;
mod loops;
mod parts;
mod statements;
mod switches;
mod units;

pub use units::{GenFault, generate};
