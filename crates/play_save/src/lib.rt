//! Saved plays: the state of a play between two of its entries, as bytes and as a world that goes
//! on.
//!
//! Contracts see a [`State`] as its plain parts, those of `state_format`. Every state keeps seven
//! rules (`specs/Rules.antt`): its header, scripts and area are there, its numbers are inside their
//! limits, its agenda is in order, each captured state fits the code of its script, and an object
//! has a Turn exactly where it is busy. [`read_state`] refuses bytes by the first rule that they
//! break, so no file that is read leads to a fault of the stack, whoever made it.
//!
//! [`put_play`] writes the state of a play right from its world, once its size is counted, and
//! [`put_state`] one that was read. [`State::restore`] gives the world that a state tells
//! (`state_parts/specs/World.antt`), with which a play goes on as if it had never been broken off.
//! docs/SAVES.md tells the format and the rules.
#![tactic(auto)]

mod entries;
mod fault;
mod fitting;
mod laws;
mod limits;
mod play;
mod prepare;
mod put;
mod rules;
mod state;
mod told;
mod turns;
mod waiting;
mod world;

pub use fault::StateFault;
pub use laws::{code_is_bytes, plays_have_states};
pub use play::put_play;
pub use state::{Opened, State, put_state, read_state};
pub use state_format::SaveFault;
