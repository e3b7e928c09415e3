//! The world in which scripts run, as code.
//!
//! Contracts see a [`World`] as the record that `world_rules` defines, beside the spare room for
//! posts (`specs/Held.antt`). Each call is one equation of worlds by a definition of `world_rules`;
//! for want of memory it answers `NoMemory` and leaves the world as it was. Every world keeps what
//! `IsWorld` says there, and [`World::keeps`] hands it to whoever asks.
//!
//! A routine is called by its role: the engine's own ones are rows over the world's parts
//! (`world_parts`), functions of strings and numbers are answered by hooks, and a world function
//! leaves its call in the trace. The type of each answer is a law (`specs/Answers.antt`).
//! docs/WORLD.md tells the calls in words.
#![tactic(auto)]

mod engine;
mod laws;
mod start;
mod trace;
mod world;

pub use laws::answers_have_types;
pub use start::{Events, Start};
pub use world::World;
pub use world_parts::WorldParts;
