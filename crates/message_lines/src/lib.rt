//! What is wrong with a line of a plan, of a list of tables, of a 2DA file or of an assembler text.
//!
//! Each of these texts is refused at its first line without a reading. [`plan_fault`],
//! [`list_fault`], [`table_fault`] and [`code_fault`] look at that line once more, and tell its
//! first field that can't stand there and a sentence on it. The page on messages is
//! docs/MESSAGES.md.
#![tactic(auto)]

mod code;
mod fault;
mod fields;
mod list;
mod plan;
mod table;

pub use code::code_fault;
pub use fault::{LineFault, put_line_fault};
pub use list::list_fault;
pub use plan::plan_fault;
pub use table::table_fault;
