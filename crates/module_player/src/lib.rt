//! The player: agenda entries one after the other, whose scripts the machine runs.
//!
//! What a play comes to is `world_rules`' definition, with scripts that `ncs_machine` runs
//! (`specs/CodePlays.antt`). The contracts promise that a play is told entry by entry as that
//! definition has it, and leaves its world; a play that is cut short has told a prefix of it.
//! docs/PLAYS.md tells plays in words.
#![tactic(auto)]

mod closing;
mod entry;
mod laws;
mod limits;
mod played;
mod plays;
mod scripts;
mod turn;

pub use closing::{end_text, put_end_line};
pub use laws::plays_can_rest;
pub use limits::PlayLimits;
pub use played::{How, Played};
pub use plays::{play, play_on};
