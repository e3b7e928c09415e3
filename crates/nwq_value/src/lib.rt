//! The base of every crate here: want of memory as an error, plain lists, texts, values and engine
//! tables.
//!
//! Contracts see an [`Items`] as the list of its items, a [`Text`] as the list of its bytes, an
//! [`Effect`] as a record, a [`Value`] as plain data, a [`NameIndex`] as names with numbers and a
//! [`Table`] as a list of routines and a list of named constants, so no definition above speaks of
//! vectors, maps or shared memory. Copies of texts, effects and values share. Every call that may
//! allocate answers [`NoMemory`] and nothing else for want of memory, and leaves what it was given
//! through `&mut` as it was.
//!
//! What the clauses mean is written in `specs/`: types and starting values in `Values`, an effect's
//! record in `Effect`, every limit by name in `Limits`, what stands under a name in `Index`, what a
//! table keeps in `Engine`, the rule of roles in `Roles`, and the built-in header, once as data, in
//! `Header`, with the table of that data in `HeaderTable`. See docs/VALUES.md.
#![tactic(auto)]

pub mod engine;
pub mod header;
pub mod index;
pub mod items;
mod kept;
pub mod memory;
pub mod roles;
pub mod table;
pub mod text;
pub mod value;

pub use engine::{Const, Param, Params, Role, Routine};
pub use header::BUILT_IN;
pub use index::NameIndex;
pub use items::Items;
pub use memory::NoMemory;
pub use roles::role_of;
pub use table::Table;
pub use text::Text;
pub use value::{Args, Effect, Ints, Randoms, Ty, Tys, Value, start_of};

/// How many bytes a file of any kind has at most: one that is read, and one that is written.
pub const FILE_BYTES: usize = 16_777_216;
