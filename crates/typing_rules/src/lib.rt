//! Typing of a unit of NWScript: what its typed tree is, and where it is at fault.
//!
//! This crate holds the definitions, the laws that join them, and [`Typed`], a typed unit as code
//! holds it, with its reading in `specs/UnitReading.antt` and that of an [`Expression`] in
//! `specs/Reading.antt`. The walk that finds the typed tree or the least fault is `nss_types`.
//!
//! `specs/Typed.antt` is the typed tree: the tree of `nss_tree` with a type at each expression, a
//! place at each name, a callee and the filled defaults at each call, and numbered variables.
//! `specs/Sight.antt` says what is in sight where a node stands, `specs/Rules.antt` the rule of
//! each node and the kinds of fault that it may have, `specs/Meaning.antt` which typed tree a unit
//! has and which of its nodes are at fault. `specs/Verdicts.antt` says the same as functions over
//! the tree; that they agree is among the laws of [`laws`]. The page on it is docs/TYPES.md.
#![tactic(auto)]

pub mod expressions;
pub mod fault;
pub mod laws;
pub mod places;
pub mod rules;
pub mod units;

pub use expressions::Expression;
pub use fault::{Fault, FaultKind};
pub use places::{Callee, EntryPoint, Place, Variable};
pub use units::{Typed, TypedItem, TypedLine, TypedName, TypedParameter, TypedStmt};
