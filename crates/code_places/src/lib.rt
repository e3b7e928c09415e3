//! Whose the bytes of a unit's code are: the node of the source that a byte's instruction was made
//! for, by its token.
//!
//! `specs/Marks.antt` says of each instruction of a unit's code, in the order of the code, how many
//! bytes it takes and the number of the innermost node whose code it stands in; nodes are numbered
//! as `nss_tree` numbers those of the source (`specs/Nodes.antt`). [`node_at`] goes over the typed
//! tree as the code is laid, past as many bytes as stand before the place, and [`token_at`] gives
//! the token of that node. Both allocate nothing, and are for the rare note on what happened at run
//! time. Promised in [`laws`]: there is one mark for each instruction, of its size (`sizes_agree`),
//! an instruction stands in the code of the node that its mark names (`owners_hold`), so does the
//! byte at a place (`places_hold`), and in a typed unit the token of a node's number is the node's
//! (`tokens_agree`): so the byte at a place for which a token is told lies in the code of a node of
//! that token (`tokens_hold`). The marks of an expression and of a function name nodes in it alone
//! (`nodes_own`). [`function_at`] gives the function whose code the byte lies in
//! (`functions_hold`). The page on it is docs/CODE.md.
#![tactic(auto)]

mod cells;
mod expressions;
mod frame;
pub mod laws;
mod lines;
mod numbers;
mod seek;
mod statements;
mod units;

pub use units::{function_at, node_at, token_at};
