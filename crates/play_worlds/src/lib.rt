//! The worlds in which plays begin.
//!
//! `specs/Worlds.antt` has the world of an area and a plan: which object and which script each line
//! of the plan begins. It has the world of a script that is played alone too, which has nothing but
//! a start of it. What plans are is docs/PLAN.md, what worlds are docs/WORLD.md.
#![tactic(auto)]

mod begin;
mod laws;
mod start;
mod world;

pub use laws::plan_worlds_are_fresh;
pub use start::first_world;
pub use world::world_of;
