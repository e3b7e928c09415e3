//! The run of one script, which is compiled and played at once.
//!
//! `specs/Runs.antt` has the work of the command: the header is read, the script compiled under it,
//! and its file, which isn't written, played. To play it the bytes are loaded and checked
//! ([`command_files`](../../command_files/specs/Checks.antt)), and its instructions are played as
//! the one listed script, in a world that has nothing but a start of it; `plays_file` says so
//! ([`command_plays`](../../command_plays/specs/Scripts.antt)). The text is the play's trace and
//! the text of its end; a play that a limit ended is told whole, and ends with the status of
//! limits. See docs/COMMANDS.md, and docs/PLAYS.md for what a play is.
#![tactic(auto)]

pub mod laws;
mod play;
mod runs;
mod telling;

pub use play::play_file;
pub use runs::run;
