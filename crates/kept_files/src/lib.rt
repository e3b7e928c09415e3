//! Files that keep what goes through them, so that a message is made of the very bytes that were
//! read.
//!
//! [`KeptFiles`] stand before files of any kind, and tell and count exactly what those tell and
//! count: each clause of [`Files`](nwq_outside::Files) holds of them. Beside it they keep the bytes
//! that a read answered under its name, as `specs/Kept.antt` says. [`Again`] are files that hold
//! what was kept: to read them opens nothing, and they can't be written. The page on messages is
//! docs/MESSAGES.md.
#![tactic(auto)]

mod again;
mod keeper;

pub use again::Again;
pub use keeper::KeptFiles;
