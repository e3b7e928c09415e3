//! The outside of the program: files that are read and written, and a sink that takes the printed
//! text.
//!
//! Everything above is written over the traits [`Files`] and [`Sink`], whose contracts say what an
//! answer means, and that a count of failures rises only with its answer, and then by one. Kinds
//! that tell their contents, as [`MemFiles`] and [`MemSink`], make those contracts exact. Of
//! [`RealSink`] the count is told, and which bytes a put hands to its writer. The files that the
//! program uses stand in `real_files`. The words of the contracts stand in `specs/Outside.antt`.
//! See docs/OUTSIDE.md.
#![tactic(auto)]

pub mod answer;
pub mod counts;
pub mod memory;
pub mod sink;
pub mod traits;

pub use answer::{Done, Read};
pub use counts::{CountOf, FileCounts};
pub use memory::{MemFiles, MemSink};
pub use sink::RealSink;
pub use traits::{Files, Sink};
