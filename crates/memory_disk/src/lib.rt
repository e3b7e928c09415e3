//! A disk in memory, for tests of what stands over a [`Disk`](real_files::Disk).
//!
//! [`MemoryDisk`] holds regular files with their modes, links and devices under names, and tells
//! them, so each clause of the trait is proved of it. Names and folders can be marked so that what
//! they have can't be replaced, there is room for so many bytes, and calls can be chosen that fail
//! or break off. The words of the contracts stand in `specs/Drive.antt`.
#![tactic(auto)]

pub mod calls;
pub mod drive;
pub mod node;
pub mod nodes;
pub mod paths;

pub use drive::MemoryDisk;
pub use node::Node;
