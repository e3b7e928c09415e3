//! What the grammar of NWScript sees of a unit's tokens.
//!
//! [`seen_all`] gives it for each token: a name's bytes, a literal's value, or which [`Terminal`]
//! it is, that is a word or sign of one fixed spelling. [`Cursor`] hands these out in order, each
//! with its number in the unit, and [`first_over`] answers the first token that nests too deep, by
//! the tokens alone; [`nest_walk`] can go on with tokens that come later.
//!
//! How terminals are written stands in `specs/Terminals.antt`, what is seen of a token and which
//! symbols tokens spell in `specs/Symbols.antt` and `specs/Tokens.antt`, the nest in
//! `specs/Nest.antt`, and what a reader makes of the tokens that are left in `specs/Outcome.antt`
//! and `specs/Cursor.antt`. `specs/Spellings.antt` has laws for proofs above. The page on it is
//! docs/GRAMMAR.md.
#![tactic(auto)]

pub mod cursor;
pub mod laws;
mod nest;
pub mod symbol;
pub mod terminal;

pub use cursor::{Cursor, Misfit, Stop};
pub use nest::{NestWalk, first_over, nest_walk};
pub use symbol::{Seen, name_text, seen_all, seen_of};
pub use terminal::Terminal;
