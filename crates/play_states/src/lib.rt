//! That there is a state of every play of files between two of its entries.
//!
//! There is no code here that runs. A play that goes on from a world that rests, inside a plan's
//! limits, comes to one that rests, unless it is stopped inside an entry: the area stays one, each
//! captured state fits its script's code, and the agenda is in order (`specs/Resting.antt`). So
//! there is a state of it: that the numbers and texts of its world have room in the fields of one
//! is said by `play_room`. The functions of this crate do nothing: each is a law, whose contract is
//! proved of the definitions. The page on states is docs/SAVES.md.
#![tactic(auto)]

mod laws;

pub use laws::{counts_are_few, first_entries_have_states, plays_rest};
