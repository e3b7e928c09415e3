//! Notes on a play that ended well: what a plan asks for that the area hasn't.
//!
//! [`put_play_notes`] goes over the lines of a plan that are for an object. A line whose tag stands
//! for no object is noted, and one whose event has no field of a script in its object; also a file
//! without any of the lists of objects. The page on messages is docs/MESSAGES.md.
#![tactic(auto)]

mod lacks;
mod notes;
mod objects;

pub use notes::{Input, put_play_notes};
