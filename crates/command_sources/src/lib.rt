//! What commands read of source texts: the table of a header, and the unit of a script with its
//! tree.
//!
//! Each is a part of the work of a command (`specs/Headers.antt`, `specs/Units.antt`), for every
//! command that names a header or a script. A header or unit that is refused is refused here, at
//! its exact place. See docs/COMMANDS.md.
#![tactic(auto)]

mod header;
pub mod laws;
mod script;
mod unit;

pub use header::{is_dash, read_table, table_of_text};
pub use script::Script;
pub use unit::{read_unit, refuse_end, refuse_token};
