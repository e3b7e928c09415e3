//! Lists of bytes that may share their bytes with others.
//!
//! The string that a script sets stands in its stack, among the variables of an object and in the
//! tree of the area that a play leaves: made of a text, [`SharedBytes`] are the same memory in all
//! three. Contracts see a list of bytes, whoever else has them. What a string is in the language
//! stands in docs/TYPES.md, and in a file in docs/GFF.md.
#![tactic(auto)]

mod shared;

pub use shared::SharedBytes;
