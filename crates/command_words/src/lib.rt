//! The command that the words of a command line are.
//!
//! `specs/Words.antt` has the forms of words, as data: [`command_of`] answers the one that some
//! words are, or that they are none. docs/COMMANDS.md tells the forms.
#![tactic(auto)]

mod words;

pub use words::{Command, command_of, list_in};
