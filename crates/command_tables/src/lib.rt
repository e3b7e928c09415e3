//! The tables that a command is given: a file lists their names, and each is read from a file of
//! its own.
//!
//! [`read_tables`] is the first work of a command whose words end in such a list
//! (`specs/Tables.antt`). The list is tested whole (`specs/Lists.antt`) before the first table is
//! read. A list or a table that is refused is refused here, at its first bad line. How often files
//! are read says `specs/Reads.antt`. See docs/TABLES.md and docs/REFUSALS.md.
#![tactic(auto)]

pub mod laws;
mod list;
mod read;
mod table;

pub use read::read_tables;
