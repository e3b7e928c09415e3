//! A sink that remembers, for contracts alone, what was put.
//!
//! What a call did is said by the bytes that its sink took, and standard output doesn't tell these.
//! A [`Telling`] stands before a sink of any kind and hands each piece on to it. It tells what the
//! sink beneath tells, or else the pieces that were taken whole, which it notes: the notes take no
//! bytes, and nothing is done for them when the program runs.
//!
//! What a call promises of a sink of any kind is [`Told`](../specs/Told.antt): it makes the sink
//! tell, does its work, and gives the sink back. See docs/OUTSIDE.md.
#![tactic(auto)]

mod telling;

pub use telling::{Loan, Telling};
