//! Where a place of a running script's code stands in its sources.
//!
//! [`compile`] makes a script's unit anew, of the files that it is given, by the calls that the
//! compiler makes: gathered, parsed, typed and laid out. [`spot_at`] then gives the file and the
//! offset of the token whose node's code the byte at a place of the script's file lies in, and
//! [`function_at`] the name of the function, as `code_places` finds them. It is for the rare note
//! on what happened at run time. The page on it is docs/MESSAGES.md.
#![tactic(auto)]

mod compiled;
mod spots;

pub use compiled::{Compiled, compile};
pub use spots::{Spot, function_at, spot_at};
