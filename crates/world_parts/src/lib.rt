//! The parts of a world as code, and what the engine's own routines do to them.
//!
//! Contracts see [`Parts`] as a world beside the room that was taken: for so many posts, and for so
//! many lines (`specs/Parts.antt`). Telling a line and posting an entry take no memory where there
//! is room, so a routine takes all of its room first, and after `NoMemory` the world is as before.
//! Nothing is kept of the parts here; what every world keeps is stated where it is needed.
//!
//! [`Parts::row`] is the engine's own routine of a number, by the rows of `world_rules`
//! (`specs/Row.antt`). The other calls are those that entries are made of. docs/WORLD.md tells them
//! in words.
#![tactic(auto)]

mod acting;
mod area;
mod args;
mod effects;
mod events;
mod names;
mod parts;
mod random;
mod rows;
mod saved;
mod things;
mod turns;

pub use parts::Parts;
pub use saved::WorldParts;
