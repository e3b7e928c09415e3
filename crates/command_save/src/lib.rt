//! Plays that are saved between two entries, and go on from there.
//!
//! `specs/Saves.antt` has the work of the command that saves: what a play needs is read as for a
//! whole play, some entries are played, and the state is written in which the play stands
//! (`IsStateAt`). `specs/Resumes.antt` has the work of the command that goes on: the state of a
//! file is found, and what it tells is played as every play. `specs/Laws.antt` says that both
//! together are the unbroken play ([`laws::saved_plays_go_on`]). What a state is, is docs/SAVES.md.
#![tactic(auto)]

mod inputs;
pub mod laws;
mod resume;
mod save;
mod saving;
mod written;

pub use resume::resume_play;
pub use save::{SaveWords, save_play};
