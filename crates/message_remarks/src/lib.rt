//! Notes on entries that ended before their end: where, and by which calls.
//!
//! [`put_remarks`] appends them for what was remarked of a play while it ran: the place at which a
//! division by 0 or the limit of instructions ended an entry, the calls under way, and where the
//! entry was deferred. A script that the command compiled is compiled once more of the kept files,
//! and `run_places` tells the places in its sources (`specs/There.antt`). Of a binary offsets are
//! told, and where there is neither, as after `resume`, the offset alone. The page on messages is
//! docs/MESSAGES.md.
#![tactic(auto)]

mod callers;
mod codes;
mod notes;
mod offsets;
mod there;
mod words;

pub use codes::Play;
pub use notes::put_remarks;
