//! Tables of 2DA files, and the look-up of a cell.
//!
//! [`read_table`] reads a table from a file's bytes, or answers the number of the first line that
//! breaks a rule. [`Tables`] holds tables under their names, and [`Tables::look`] gives the cell of
//! a column and a row, the empty text where there is none. A table keeps the bytes of its file
//! once, and its cells as ranges of them; copies share both.
//!
//! `specs/Grammar.antt` says what the lines of a file say, `specs/Table.antt` what a table is, and
//! `specs/Look.antt` which cell is meant. See docs/TABLES.md.
#![tactic(auto)]

pub mod fault;
pub mod laws;
mod prefix;
mod range;
pub mod read;
pub mod table;
pub mod tables;
pub mod words;

pub use fault::TableFault;
pub use read::read_table;
pub use table::Table2;
pub use tables::{Named, Tables};
