//! Why a file of NCS code is refused, in words.
//!
//! [`put_why`] puts the sentence for code that is not well stacked: where, which instruction, what
//! it takes and which cells are there, and the routine with the place from which it was called. It
//! tells what `stack_reasons` finds, so nothing is put but of code for which no table of shapes
//! meets the rules. The page is docs/SHAPES.md.
#![tactic(auto)]

mod calls;
mod cells;
mod naming;
mod reason;
mod why;
mod words;

pub use why::put_why;
