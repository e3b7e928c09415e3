//! Types the expressions of a unit of NWScript, and judges what declares its names.
//!
//! A walk goes over each node of an expression with what is in sight there
//! ([`nss_scopes::Sight`]) and the heads of the unit's functions ([`Given`]). It doesn't stop at a
//! fault: a node is judged by a small function over the answers of its parts, and the least fault
//! so far is kept. Each walk's clauses say the same of it: its answer is the verdict of the
//! definitions of `typing_rules`, and the fault that is kept is the one kept of all of the node's
//! faults. Statements are `nss_statements`, items and whole units `nss_types`; the page is
//! docs/TYPES.md.
#![tactic(auto)]

#[tactic(auto, using(crate::specs::ArgumentLaws::filled_is))]
pub mod call;
pub mod called;
pub mod constant;
#[tactic(auto, using(nss_tree::specs::Readings::plain_cases, crate::specs::Kept::kept_append))]
pub mod expression;
pub mod given;
pub mod judge;
pub mod known;
pub mod line;
pub mod note;
pub mod row;
pub mod rules;

pub use given::Given;
