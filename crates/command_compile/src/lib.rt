//! Scripts that are typed and compiled, as parts of a command's work.
//!
//! `specs/Typings.antt` says what comes of a script's tree under a header: its typed unit, or the
//! refusal of its least fault. `specs/Files.antt` goes on to the unit's file of bytecode, and has
//! the whole work of the command that writes it. Each function here does such a part: it reads no
//! more than that, puts the one line of a refusal, and tells which call outside failed. What the
//! commands are is docs/COMMANDS.md, what types are docs/TYPES.md, what the code is docs/CODE.md.
#![tactic(auto)]

mod file;
pub mod laws;
mod script;
mod typing;

pub use file::{code_name, compile_file, compile_script, read_compiled};
pub use script::TypedScript;
pub use typing::type_script;
