//! Types a unit of NWScript, or finds its least fault.
//!
//! [`type_unit`] answers the typed tree that the rules of `typing_rules` give a unit, or the node
//! at fault of least token with its kind (`specs/Answers.antt`). The walk goes over each item once
//! for what it declares and once more to type it; its statements are typed by `nss_statements`, its
//! expressions by `nss_expressions`. It doesn't stop at a fault: a node is judged by a small
//! function over the answers of its parts, and the least fault so far is kept.
//!
//! Each walk's clauses say the same of it: its answer is the verdict of the definitions, the fault
//! that is kept is the one kept of all of the node's faults, and what is in sight behind it is what
//! the definitions leave there. The page on it is docs/TYPES.md.
#![tactic(auto)]

pub mod entry;
#[tactic(auto, using(nss_expressions::specs::Kept::kept_append))]
pub mod field;
#[tactic(auto, using(nss_expressions::specs::Kept::kept_append))]
pub mod function;
#[tactic(auto, using(nss_expressions::specs::Kept::kept_append))]
pub mod item;
#[tactic(auto, using(nss_expressions::specs::Kept::kept_append))]
pub mod parameter;
pub mod unit;

pub use unit::{TypeFault, type_unit};
