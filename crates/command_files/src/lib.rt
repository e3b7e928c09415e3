//! What commands do with files that are no source texts: the tree of a GFF file, the instructions
//! of a file of bytecode, the file that an assembler text stands for, and code that is checked.
//!
//! Each of these is a part of the work of a command (`specs/Trees.antt`, `specs/Codes.antt`,
//! `specs/Assemblies.antt`, `specs/Checks.antt`), for every command that names such a file. A file
//! that is broken is refused here, for the first thing that is wrong with it, and code under a
//! header where it isn't well stacked. `specs/Commands.antt` has the whole work of the commands
//! that turn a file into a text, or a text into a file. See docs/COMMANDS.md.
#![tactic(auto)]

mod assembly;
mod check;
mod code;
mod commands;
pub mod laws;
mod load;
mod texts;
mod tree;

pub use assembly::read_assembly;
pub use check::{check_code, check_file, read_checked};
pub use code::{code_of_bytes, read_code};
pub use commands::{assemble_file, disassemble_file, show_tree, write_and_put};
pub use load::load_checked;
pub use tree::{read_tree, tree_of_bytes};
