//! What scripts mean.
//!
//! There is no code here that runs. The meaning is told by cases on the typed tree of
//! `typing_rules`, in the world of `world_rules`. It knows variables and values, and neither stack
//! nor place nor jump: no definition of bytecode, of its emission or of the machine is cited here.
//! `specs/Values.antt` says what values and operators are, `specs/Evaluation.antt` how an
//! evaluation takes its steps, `specs/Spots.antt` what is read and written;
//! `specs/Expressions.antt`, `specs/Statements.antt` and `specs/Scripts.antt` what each node of a
//! typed unit comes to.
//! `specs/Plays.antt` has the play of source texts, which is the play of `world_rules`, and
//! `specs/Laws.antt` what is promised of steps and fields. The functions of this crate do nothing:
//! each is a law, whose contract is proved of the definitions. That code does what is meant, is
//! told by `source_laws`. The page on all of this is docs/MEANING.md.
#![tactic(auto)]

mod laws;

pub use laws::{entries_spend_steps, fields_are_parts};
