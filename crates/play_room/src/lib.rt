//! That the values of every play have room in the fields of a state.
//!
//! There is no code here that runs. Each number that scripts make has 32 bits, each string at most
//! 8,192 bytes, and each captured state a script and a place of its code: so whatever a play does,
//! every number and text of its world has a field of a state that holds it (`specs/Room.antt`, and
//! what plays keep of a world in `specs/Kept.antt`). The functions of this crate do nothing: each
//! is a law, whose contract is proved of the definitions. The page on states is docs/SAVES.md.
#![tactic(auto)]

mod laws;

pub use laws::{kept_worlds_have_room, plan_worlds_are_kept, plays_keep_values};
