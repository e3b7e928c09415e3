//! What the crates of tests share that begin with the text of a unit: [`tokens_of`] splits one into
//! the tokens that the parser takes.
//!
//! No program stands on this crate. A script's tokens, with those of its includes, come from
//! `nss_include`.
#![tactic(auto)]

pub mod tokens;

pub use tokens::tokens_of;
