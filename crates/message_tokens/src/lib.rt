//! What messages say of tokens: which can stand at a place of a unit.
//!
//! [`following`] lists those of some tokens with which the tokens before the place can be
//! completed, exactly (`specs/Following.antt`): by the contract of the parser on the place of a
//! fault. [`candidates`] are of each kind of token that a unit can have (`specs/Kinds.antt`). The
//! page on messages is docs/MESSAGES.md.
#![tactic(auto)]

pub mod listing;

pub use listing::{candidates, following, syntax_fault};
