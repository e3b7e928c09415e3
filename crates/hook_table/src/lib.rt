//! Hooks: functions that a program hands in as boxed closures, and that scripts call.
//!
//! A [`Hook`] keeps its closure with the fact that it may be called on every list of arguments of
//! its types, and that it answers what the definition gives, or `NoMemory`. So whoever calls a hook
//! knows the answer without seeing the closure. [`pure_call`] is the work of the nine functions of
//! strings and numbers, [`cell_call`] that of the tenth, which looks a cell up in tables.
//!
//! `specs/Standard.antt` names the functions and says what an answer is, and `specs/Served.antt`
//! which hooks serve a header's routines. The values themselves are defined in `world_rules`. See
//! docs/ENGINE.md.
#![tactic(auto)]

pub mod functions;
pub mod hook;
pub mod hooks;
pub mod laws;

pub use functions::{cell_call, pure_call};
pub use hook::{Call, Hook, Known};
pub use hooks::Hooks;
