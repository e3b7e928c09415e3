//! The instructions of NCS V1.0, the bytecode of NWScript: one spelling for each, both ways.
//!
//! [`Op`] has a variant for each of the 44 instruction names. Its spelling is its opcode, its type
//! byte and its big-endian arguments; `specs/Spelling.antt` says what that is, by cases on the
//! instruction, and contracts speak of instructions as of plain data (`specs/Plain.antt`).
//! Promised: what [`Op::encode`] appends is the spelling, what [`decode`] gives is spelled there,
//! what is spelled somewhere is decoded whatever follows it, each fault comes exactly where its
//! test fails first, and no spelling begins another, so that bytes stand for one list of
//! instructions at most.
//!
//! `specs/File.antt` says what a whole file is: the places of its instructions, where jumps lead,
//! and which lists are files. `specs/Names.antt` has the names. What all layers above use of these
//! definitions are laws: public functions with empty bodies (`specs/Laws.antt`). The page is
//! `docs/NCS.md`.
#![tactic(auto)]

mod arguments;
mod decoder;
mod fault;
mod file_header;
mod instruction;
mod laws;
mod leading;
mod name;
mod opcode;
mod writing;

pub use decoder::decode;
pub use fault::CodeFault;
pub use file_header::{HEADER_BYTES, header};
pub use instruction::{Lit, Op};
pub use laws::{distance_leads, one_first_bad, one_name, place_laws, size_laws, spelling_laws};
pub use leading::jump_place;
pub use name::opcode_named;
