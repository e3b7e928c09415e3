//! NCS bytecode made with labels: instructions one after another, jumps by name, and the file at
//! the end.
//!
//! Contracts see an [`Emitter`] as a list of lines: instructions, jumps to labels, and labels
//! (`specs/Labelled.antt`). Promised: each call adds exactly its line, a new label is placed
//! nowhere, no label is placed twice, and [`Emitter::finish`] gives the file of these instructions
//! in which each jump has the distance from its own start to its label's place, or says how large
//! the file would be.
//!
//! What the layers above use are laws (`specs/Laws.antt`): in the program of the lines each line
//! stands at its place, and the file is one that `ncs_file` loads where the code leads on and
//! closes (`specs/Leading.antt`). Both conditions, and all counts and sizes, are those of the
//! code's parts put together. The page is `docs/NCS.md`.
#![tactic(auto)]

mod emitter;
mod fault;
mod finishing;
mod fitting;
mod jump;
mod laws;
mod line;
mod tally;
mod told;

pub use emitter::Emitter;
pub use fault::EmitFault;
pub use jump::Jump;
pub use laws::{finished_is_code, part_laws, program_stands};
