//! Whole files of NCS bytecode: loading with every test of form, and looking instructions up by
//! place.
//!
//! A [`Code`] is seen as the list of its instructions (`ncs_code`'s `specs/File.antt` tells the
//! places and the bytes that such a list has), so nothing above speaks of bytes. Promised: [`load`]
//! accepts exactly the bytes that spell a file in which every jump and every stored state leads to
//! the beginning of an instruction, and otherwise names the first thing that is wrong; [`store`]
//! gives the very bytes back; [`Code::op_at`] takes a fixed time. `specs/Loading.antt` says what
//! each refusal means. The page is `docs/NCS.md`.
#![tactic(auto)]

mod code;
mod fault;
mod laws;
mod scan;

pub use code::{Code, load, store};
pub use fault::LoadFault;
pub use laws::{next_begins, one_fault};
