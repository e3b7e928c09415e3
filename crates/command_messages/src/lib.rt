//! What is said on standard error after a command: why it ended with anything but success, or notes
//! on a play.
//!
//! [`tell_end`] comes after the work of a command. It is given how that ended, the last line on
//! standard output, which [`LastLine`] kept, and files that it reads once more: the program gives
//! it those that `kept_files` kept, so that nothing is opened for a message. It puts one message to
//! a sink of its own. It writes no file, and its answer is nothing: so it can't change what the
//! command did, and where the put fails nothing comes of it. What isn't among the files is told
//! without its line.
//!
//! Here stands which message or note comes. What is found for it at a place of a source text is
//! that of `message_places`; the sentences are those of `message_sentences`, types and arguments
//! those of `message_types`, the notes on a plan and its area those of `message_notes`, those on
//! entries that ended before their end those of `message_remarks`.
//! The page on messages is docs/MESSAGES.md.
#![tactic(auto)]

mod inputs;
mod kept;
mod notes;
mod overwritten;
mod scripts;
mod tell;

pub use kept::LastLine;
pub use message_sentences::VERSION;
pub use tell::{End, tell_end};
