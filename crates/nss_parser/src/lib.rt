//! Reads the tokens of a unit of NWScript into its syntax tree.
//!
//! [`parse`] answers the one tree that the grammar gives the tokens, or why there is none: the
//! first token that nests too deep, or else the exact place where the tokens stop being a prefix of
//! a unit. The grammar stands in `specs/Grammar.antt` and `specs/Unit.antt`, prefixes and places in
//! `specs/Sentence.antt`, how heavy a tree is in `specs/Weight.antt`; what the grammar sees of a
//! token, and the nest, are those of `nss_symbols`. [`whole_items`] and [`is_prefix`] tell whether
//! tokens can be completed without reading the items before them again (`specs/Front.antt`).
//! `laws.rt` says that each list of tokens has one tree or one place, and that a tree is within its
//! tokens. The page on it is docs/GRAMMAR.md.
#![tactic(auto)]

mod declaration;
mod expression;
pub mod fault;
pub mod front;
pub mod laws;
mod operator;
pub mod reader;
mod statement;
mod unit;

pub use fault::ParseFault;
pub use front::{is_prefix, whole_items};
pub use reader::parse;
