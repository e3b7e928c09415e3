//! Laws about typed units: each keeps the bounds that its code needs, and a unit of tokens has one
//! least fault.
//!
//! Promised: where a tree's literals are within bounds, and it is no larger than its tokens are
//! many, of which it has at most 100,000, then each unit that it is typed as under a table keeps
//! the bounds of `emission_rules/specs/Bounds.antt`, and its code has fewer labels than a number of
//! 32 bits counts. So the code of a typed unit can be made. In a tree that a list of tokens has,
//! two faults at one token are one fault. So the least fault is one, with its kind, and it is the
//! one that typing keeps. The pages are docs/CODE.md and docs/TYPES.md.
#![tactic(auto)]

pub mod laws;
