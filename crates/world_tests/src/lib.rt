//! Tests of what scripts call: tables, hooks, the world.
#![tactic(auto)]

#[cfg(test)]
mod hooks;
#[cfg(test)]
mod play;
#[cfg(test)]
mod tables;
#[cfg(test)]
mod world;
