//! The files that the program uses: real ones, over the calls of a disk.
//!
//! [`RealFiles`] reads and writes through a [`Disk`], and tells exactly what its disk tells: each
//! name has the bytes at the place that its links lead to. So each clause of
//! [`Files`](nwq_outside::Files) is proved of it over any disk that tells, and a write leaves the
//! old bytes or the new ones, whole, but where what is there can't be replaced. What is trusted is
//! [`HostDisk`] alone, a few lines a call, which tells nothing. The words of the contracts stand in
//! `specs/Disk.antt` and `specs/Writing.antt`. See docs/OUTSIDE.md.
#![tactic(auto)]

pub mod disk;
pub mod host;
mod links;
pub mod paths;
pub mod real;
pub mod whole;

pub use disk::{Disk, Failure, Made, Moved, Thing};
pub use host::HostDisk;
pub use real::{RealFiles, Trouble};
