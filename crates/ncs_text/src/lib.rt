//! NCS bytecode as text, both ways: a disassembler and an assembler.
//!
//! A line of the text stands for one instruction: its name, its type byte as two hexadecimal
//! digits, and its arguments ([`Argument`]), each behind a space; a jump names the place that it
//! leads to.
//! `specs/Assembly.antt` says which instructions the lines of a text stand for, by the bytes of
//! their spellings (`ncs_code`), and `specs/Listing.antt` has the text of a file.
//!
//! Promised: [`disassemble`] gives the text of a file's instructions; [`assemble`] gives the file
//! of a text, or the first line that is no line, else how large the file would be, else the first
//! line whose instruction leads to no beginning of one. A text has one answer, and assembling a
//! disassembly gives the file again (laws). The page is `docs/NCS.md`.
#![tactic(auto)]

mod argument;
mod assembler;
mod disassembler;
mod fault;
mod laws;
mod number;
mod putting;

pub use argument::Argument;
pub use assembler::assemble;
pub use disassembler::disassemble;
pub use fault::AsmFault;
pub use laws::{listed_again, one_answer, target_is_meant};
