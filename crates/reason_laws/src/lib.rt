//! Laws about the reasons of faults of typing: where the rules of types refuse a node of a unit,
//! there is a reason at its token.
//!
//! Promised: in a tree that tokens have, each fault of the kinds `arity`, `not a place` and
//! `mismatch` has a reason at its token, which is of the fault's kind. So a message on one of these
//! never has to do without. The page is docs/TYPES.md.
#![tactic(auto)]

pub mod laws;
