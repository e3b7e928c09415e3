//! The stack checker: whether a file of NCS code is well stacked.
//!
//! [`check`] finds a table of shapes that meets the rules of `stack_rules`, or tells that there is
//! none. [`Checked`] keeps the code and the table; contracts see it as `specs/Checked.antt` says.
//! What the table says of stored states stands in every table that meets the rules, so a captured
//! state that fits it fits them all ([`fits_too`]), and resumes where the code stores its like
//! ([`stands_behind`]).
//!
//! What is found is kept in shared lists, rows and a worklist (`stack_lists`). What the inference
//! keeps true of every table is in `specs/Inference.antt`. The page is docs/SHAPES.md.
#![tactic(auto)]

mod calls;
mod checked;
mod facts;
mod fault;
mod fits;
mod infer;
mod judged;
mod laws;
mod leads;
mod reach;
mod returns;
mod rings;
mod see;
mod seen;
mod visit;

pub use checked::{Checked, check};
pub use fault::CheckFault;
pub use laws::{fits_too, stands_behind};
