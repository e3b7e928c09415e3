//! The instructions of a file of bytecode, each decoded once.
//!
//! A [`Step`] stands for an instruction (`specs/Steps.antt`), and a step of the machine takes one
//! by reference. Promised: [`steps_of`] decodes every instruction of a file, and [`step_at`] gives
//! the one that begins at a place in a fixed time. A constant string is decoded to the text that is
//! pushed, which its copies share; its bytes from the 8,192nd on, which no text has, are left out.
//!
//! Decoded instructions take 16 bytes each and stand at half their places, so 8 bytes for each of
//! the file, beside what its texts take.
#![tactic(auto)]

mod step;
mod steps;

pub use step::Step;
pub use steps::{step_at, steps_of};
