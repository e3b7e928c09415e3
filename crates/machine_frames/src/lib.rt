//! Running scripts: what instructions do in them, as code.
//!
//! A [`Frame`] is seen as the frame of `machine_rules`'s definition, and each call here does what
//! an instruction's act is defined to do in it. No world is looked at. Every call asks that the
//! instruction has a case on the frame, which code that the stack checker passed always has. Want
//! of memory is the one error; the frame is of no use after it. docs/MACHINE.md tells the machine
//! in words.
#![tactic(auto)]

mod arguments;
mod change;
mod frame;
mod operation;
mod ranges;
mod runs;
mod top;
mod values;

pub use arguments::Arguments;
pub use frame::Frame;
