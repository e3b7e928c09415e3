//! Plays as commands make them.
//!
//! [`play_lines`] plays the lines of a plan over an area, for those who have both, and
//! [`play_world`] plays in any world: the trace is put as it comes, and the last world handed on. A
//! play of one script lists it by [`list_one`]. A command ends by [`ending_of`].
//!
//! `specs/Plays.antt` has the play of a plan, and how a command ends by it; `specs/Scripts.antt`
//! has the play of one script, and what comes of the bytes of a compiled file. What plays are is
//! docs/PLAYS.md.
#![tactic(auto)]

pub mod laws;
mod limits;
mod lines;
mod list;
mod part;
mod telling;

pub use limits::limits_of;
pub use lines::{play_lines, play_world};
pub use list::list_one;
pub use part::{play_first, play_part};
pub use telling::ending_of;
