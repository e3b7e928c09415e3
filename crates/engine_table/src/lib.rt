//! Engine headers such as nwscript.nss: [`read_header`] reads the text of one into the
//! [`Table`](nwq_value::Table) of its functions and constants, and [`built_in`] gives the table of
//! the built-in header.
//!
//! What a header is stands in `specs/Grammar.antt` as a grammar of lines, with the declaration of
//! each, and in `specs/Headers.antt` which table a text has, and where it is at fault. The code
//! reads token by token and keeps only the line that it is in; what a token does there is written
//! in `specs/Turns.antt`, which no public clause names. The laws about typed units, their code and
//! their plays ask that a table keeps its limits, distinct names, constants within their bounds,
//! fitting defaults and roles: `specs/KeptTables.antt` says that the table of each text that is a
//! header does, and that of the built-in header. See docs/HEADER.md.
#![tactic(auto)]

pub mod declaration;
pub mod fault;
mod kept;
mod known;
pub mod laws;
mod reader;
mod stage;
pub mod symbol;
mod words;

pub use fault::HeaderFault;
pub use kept::headers_have_tables;
pub use reader::{built_in, read_header};
