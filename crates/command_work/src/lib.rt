//! What it is for a command to do its work: the work as a value, what it is to do it, and how the
//! counts of the outside stand afterwards.
//!
//! A command is a [`Work`](../specs/Work.antt) in order: what it reads or finds, writes, puts, and
//! how it ends. The function that carries a part of a command out promises that it `Does` the work
//! of that part, and that its answer `Tallies` with the counts of files and sink: so a call that
//! was refused outside is the last one. `specs/Parts.antt` has the lemmas by which parts compose.
//! `specs/Refusal.antt` lists all refusals, each with its line and its status. See docs/COMMANDS.md
//! and docs/REFUSALS.md.
#![tactic(auto)]

mod calls;
mod cause;
mod flaw;
mod refusal;
mod status;
mod text;

pub use calls::{put, read_file, write_file};
pub use cause::Cause;
pub use flaw::{AreaFlaw, CodeFlaw};
pub use refusal::{refuse_absent, refuse_area, refuse_at, refuse_code, refuse_form, refuse_long};
pub use status::Status;
