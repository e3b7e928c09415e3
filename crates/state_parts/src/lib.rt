//! The values, objects and entries of a play's world, put as the fields of a state's parts.
//!
//! [`put_object`] and [`put_entries`] put what `state_format` says of an object and of the entries
//! of an agenda, right from the world: into a tally that counts the bytes, or a list that keeps
//! them. No part is made: contracts name it (`specs/Told.antt`). [`fits_octet`], [`fits_word`],
//! [`fits_long`] and [`put_bytes`] serve single fields. What is put can be read as parts, whose
//! texts are as long as a string may be. `NoMemory` is the one answer beside: memory ran out, or a
//! list has more members than a field can count, which is [`MOST`].
//!
//! `specs/World.antt` says what each part tells, up to the world of a whole state,
//! `specs/ShortTexts.antt` which texts are short, and `specs/Keeping.antt` what the parts of a
//! value are. docs/SAVES.md tells the format, and docs/STATE.md captured states.
#![tactic(auto)]

mod agenda;
mod objects;
mod values;

pub use agenda::{entries, put_entries};
pub use objects::put_object;
pub use values::{MOST, fits_long, fits_octet, fits_word, put_bytes};
