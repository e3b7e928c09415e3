//! The state of a play as a list of bytes, and the parts that it stands for.
//!
//! [`put_parts`] writes the one list of bytes of a state's parts, and [`read_parts`] reads it back
//! or tells the place at which bytes stop being those of a state. What a state has to keep beside
//! its form isn't asked here.
//!
//! What is written goes to a [`Writer`]: to a [`Tally`] first, which counts the bytes, and to a
//! list only if they aren't more than a file may have. A crate above that knows a state's parts by
//! other values puts the fields of these by itself.
//!
//! `specs/Parts.antt` says which parts can be written, `specs/Fields.antt` how they are laid out,
//! and `specs/Place.antt` at which place bytes stop being those of a state. docs/SAVES.md tells the
//! format with an example.
#![tactic(auto)]

mod cells;
mod counts;
mod fault;
mod laws;
mod magic;
mod objects;
mod parts;
mod put;
mod read;
mod stored;
mod tally;
mod written;

pub use fault::{ReadFault, SaveFault};
pub use laws::one_state;
pub use parts::{
    Captured, Cell, Effect, Entry, Item, KindPart, Object, Parts, Script, Standing, Variable,
};
pub use put::{put_magic, put_parts};
pub use read::read_parts;
pub use tally::Tally;
pub use written::{
    Writer, put_blob, put_count, put_short, put_signed, put_small, put_tag, put_wide, put_word,
    roomy,
};
