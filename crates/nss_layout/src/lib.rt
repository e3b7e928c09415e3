//! Where the values of a typed unit stand: the cells of each type, and the position of each
//! variable in its frame or among the globals.
//!
//! Contracts see a [`Layout`] as the layout of `emission_rules/specs/Layout.antt`. Promised:
//! [`lay`] gives the layout of the unit, and the methods look it up in constant time. The page is
//! docs/CODE.md.
#![tactic(auto)]

mod frames;
mod layout;
mod structs;

pub use layout::{Layout, lay};
