//! What the engine's routines do in a world, and what plays of entries are, as definitions.
//!
//! `specs/World.antt` says what a world is, generic in the stored
//! actions, and `specs/Changes.antt` the small changes that everything else is made of.
//! `specs/Rows.antt` has the engine's own routines, one line each: a list of small changes, and an
//! answer. `specs/Pure.antt` has the functions of strings and numbers, and `specs/Engine.antt` what
//! a call of a header's routine gives. `specs/RowLaws.antt` proves of all rows, and of those to
//! come, what is true of each small change; the proofs of the crates above take it from there.
//! `specs/Turns.antt` tells how agenda entries are begun and what they do. `specs/Plays.antt` says
//! how an entry is run by its kind, and what a play comes to: entry after entry, until none is due
//! or a limit is met. It is generic in how scripts run, so that the play of files and the play of
//! what source texts mean are one definition; `specs/EndText.antt` has the text at a play's end,
//! and `specs/Settled.antt` what holds of the worlds between entries.
//!
//! The types below are the parts of a world that are plain data. Beside their calls, the functions
//! of this crate do nothing: each is a law, whose contract is proved of the definitions, for
//! whoever calls it. `specs/StayAlike.antt` proves that worlds which differ in their stored actions
//! alone stay so. docs/ENGINE.md tells the rows in words, docs/WORLD.md the world, docs/PLAYS.md
//! plays.
#![tactic(auto)]

mod data;
mod effects;
mod laws;
mod plays;
mod standing;

pub use data::{Line, Objects, Stood, Things, Told, Trace, at_least_zero};
pub use laws::{calls_keep_worlds, entries_keep_worlds};
pub use plays::{plays_go_on, plays_settle};
pub use standing::{Standing, StandingWalk};
