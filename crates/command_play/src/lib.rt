//! Plans that are played over areas.
//!
//! `specs/Games.antt` has the whole work of the command: the plan and the header are read, the
//! scripts are listed ([`play_inputs`](../../play_inputs/specs/Listings.antt)), the area is read
//! and the plan played ([`command_plays`](../../command_plays/specs/Plays.antt)) in the world of
//! both ([`play_worlds`](../../play_worlds/specs/Worlds.antt)); the trace is put, and a play that
//! is done leaves its area in a file before its end is told. What plans are is docs/PLAN.md, what
//! plays are docs/PLAYS.md. What no line tells of a play and a note may tell is in [`Remarks`].
#![tactic(auto)]

mod game;
pub mod laws;
mod play;
mod remarks;
mod telling;

pub use game::{GameNames, play_files};
pub use remarks::{Remarks, remark_endings};
pub use telling::{tell_end, tell_limit};
