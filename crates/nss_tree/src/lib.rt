//! The syntax tree of a unit of NWScript.
//!
//! A node keeps the number of its token in the unit's token list, a name its bytes, a string
//! literal the bytes that it stands for, and an int literal its value; a parenthesised expression
//! is no node.
//!
//! Statements and items are generic in their expressions, constants, types and declared names. The
//! tree of a source is the one with [`Expr`], [`Constant`], [`TypeName`] and the names' bytes,
//! which are the defaults of these parameters; a tree with types in its expressions is the same one
//! with other parts.
//!
//! Expressions and statements lead back to themselves through boxes and vectors, so definitions
//! speak of the plain tree in their place (`specs/Expressions.antt`, `specs/Statements.antt`,
//! `specs/Units.antt`), which the one reading in `specs/Reading.antt` takes from the tree. Each
//! variant has a constructor function whose clause says what it adds to the plain tree, and
//! `specs/Readings.antt` has the laws of the reading, for whoever makes or walks a tree.
//! `specs/Places.antt` says which nodes a source's tree has, in which order, and which token each
//! has; [`Tree::place`] answers by it. `specs/Counts.antt` counts variables, structs and bodies.
//! The page on it is docs/GRAMMAR.md.
#![tactic(auto)]

pub mod constants;
pub mod expressions;
pub mod operators;
#[tactic(auto, using(crate::specs::Readings::plain_cases, crate::proofs::SeekLaws::seek_laws))]
pub mod places;
pub mod statements;
pub mod units;

pub use constants::{Constant, TypeName};
pub use expressions::Expr;
pub use operators::{AssignOperator, BinaryOperator, PostfixOperator, PrefixOperator};
pub use statements::{DeclaredName, Stmt};
pub use units::{FieldLine, Identifier, Item, Parameter, Tree};
