//! Types the statements of a function of NWScript, and says whether it returns.
//!
//! Each walk goes over a list of statements with what is in sight before it, and leaves what is in
//! sight behind it. Its clauses say that its answer is the verdict of the definitions of
//! `typing_rules`, that the fault that is kept is the one kept of all faults, and that what is in
//! sight behind is what the definitions leave there. Expressions are `nss_expressions`, items and
//! whole units `nss_types`; the page is docs/TYPES.md.
#![tactic(auto)]

#[tactic(auto, using(nss_expressions::specs::Kept::kept_append))]
pub mod declared;
#[tactic(auto, using(nss_expressions::specs::Kept::kept_append))]
pub mod judge_statement;
#[tactic(auto, using(nss_expressions::specs::Kept::kept_append))]
pub mod label;
mod parts;
#[tactic(auto, using(nss_tree::specs::Readings::plain_cases))]
pub mod returns;
#[tactic(auto, using(nss_expressions::specs::Kept::kept_append))]
pub mod statement;
