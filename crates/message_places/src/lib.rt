//! What is found for a message at a place of a source text, and which line asks for a file.
//!
//! The token at a place, the bracket that isn't closed, what the header has under a name, the unit
//! that is refused there with what could stand in place of its token or why the rules of types
//! refuse it, and the line of an include, a plan or a list that asks for a file. All is found in
//! the files that it is given, of which none is written. The sentences are those of
//! `message_sentences`. The page on messages is docs/MESSAGES.md.
#![tactic(auto)]

mod asked;
mod hints;
mod places;
mod units;

pub use asked::{Asking, Lister, include_of, line_of_file};
pub use hints::{put_by_token, put_cause_open};
pub use places::{Spot, put_cause, token_at};
pub use units::{Ask, name_in, put_of_scripts, read_named, table_of};
