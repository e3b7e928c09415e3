//! The command `generate`: the play that is made from a number.
//!
//! `specs/Generated.antt` has its whole work. The source of the number is compiled in memory under
//! the built-in header, its code checked and played over the made area, and a summary is put: how
//! much was made, how much was told, and how the play ended. No file is read or written. What is
//! made is docs/GENERATED.md, what plays are docs/PLAYS.md.
#![tactic(auto)]

mod command;
mod kinds;
pub mod laws;
mod made;
mod play;
mod source;
mod summary;

pub use command::generate;
