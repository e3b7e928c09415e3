//! The code of a typed expression.
//!
//! Promised: [`emit_expr`] adds exactly the lines of labelled code that
//! `emission_rules/specs/Expressions.antt` gives for an expression, at a depth of the frame and
//! from the emitter's next label on. The helpers that it is made of do the same for a constant, for
//! cells with starting values, and for cells that are taken off; the code of statements stands on
//! them. The page is docs/CODE.md.
#![tactic(auto)]

mod calls;
mod expressions;
mod lines;
mod operations;
mod places;

pub use expressions::emit_expr;
pub use lines::{drop_cells, emit_constant, emit_top_again, start_cells};
