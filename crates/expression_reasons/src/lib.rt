//! Why an expression is refused by the rules of types.
//!
//! [`expression::expression`] goes over the nodes of an expression and notes, for the first of
//! those at a token whose rule doesn't fit its parts, the [`Reason`]: the types that they have and
//! the one that is wanted, or the counts of arguments. `specs/Reasons.antt` says it of the tree, by
//! what the definitions of `typing_rules` give for the node's parts. Only at the token are parts
//! typed, with the walks of `nss_expressions`. The page on it is docs/TYPES.md.
#![tactic(auto)]

#[tactic(auto, using(nss_expressions::specs::ArgumentLaws::filled_is, crate::proofs::CallLemmas::count_is))]
pub mod call;
#[tactic(auto, using(nss_tree::specs::Readings::plain_cases, crate::specs::Seen::seen_append))]
pub mod expression;
pub mod found;
pub mod reason;
pub mod value;

pub use reason::Reason;
