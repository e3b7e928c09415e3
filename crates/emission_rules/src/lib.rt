//! The bytecode of a typed unit: where its values stand, and which labelled code it is.
//!
//! This crate holds definitions, and the laws that join them; the code that emits stands in crates
//! above. `specs/Layout.antt` says how many cells a value has and where each variable stands in its
//! frame, `specs/Operations.antt` which instruction an operation is, `specs/Expressions.antt`,
//! `specs/Statements.antt` and `specs/Units.antt` which lines of labelled code are emitted for each
//! node of the typed tree of `typing_rules`, at a depth of the frame and from a next label on.
//! `specs/Units.antt` ends with the bytes of a whole file. Promised in [`laws`]: each label that a
//! unit takes is placed exactly once, and the emitted lines are ones whose finished file loads.
//! The page on it is docs/CODE.md.
#![tactic(auto)]

pub mod laws;
pub mod parts;
