//! Why a unit is refused by the rules of types.
//!
//! [`explain`] answers for a token the reason of the node there whose rule doesn't fit its parts:
//! the types that they have and the one that is wanted, the counts of arguments, the value of a
//! case. `specs/Reasons.antt` says it of the tree, by what the definitions of `typing_rules` give
//! for the node's parts. The walk goes over the unit once, and over its expressions with the walk
//! of `expression_reasons`. The page on it is docs/TYPES.md.
#![tactic(auto)]

#[tactic(auto, using(expression_reasons::specs::Seen::seen_append))]
pub mod declared;
#[tactic(auto, using(expression_reasons::specs::Seen::seen_append))]
pub mod item;
#[tactic(auto, using(expression_reasons::specs::Seen::seen_append))]
pub mod line;
#[tactic(auto, using(expression_reasons::specs::Seen::seen_append))]
pub mod statement;
pub mod unit;

pub use unit::explain;
