//! The stack of a machine that runs NCS code, and the states that STORE_STATE captures of it.
//!
//! Contracts see a [`Stack`] as a record of its cells, the top first, and BP (`specs/Cells.antt`).
//! A place is the number of cells beneath it, so it doesn't move when others are pushed or dropped
//! over it. The lists of a [`Saved`] state stand in the order of their places, the lowest cell
//! first.
//!
//! Promised: each call changes just what its clause says, [`Stack::capture`] gives lists that no
//! later write or drop reaches, and [`resume`] makes the stack with which a captured state begins
//! to run. Want of memory is the one error, and leaves a stack as it was, but for
//! [`Stack::push_copies`], which may leave some of the copies.
//!
//! A list of cells is kept as pieces of pages, which stacks and states share: to capture copies a
//! few cells at most, and who writes to a shared page copies it first. No public contract speaks of
//! pages.
//!
//! `docs/STATE.md` tells how code captures and resumes, what a call costs, and what this project
//! chose.
#![tactic(auto)]

mod cell;
mod cells;
mod laws;
mod pages;
mod piece;
mod pile;
mod saved;
mod stack;

pub use cell::Cell;
pub use cells::Cells;
pub use laws::{captured_values, captures_again, places_split, resumed_values};
pub use saved::Saved;
pub use stack::{Stack, resume};
