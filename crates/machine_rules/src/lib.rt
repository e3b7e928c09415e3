//! What NCS code means: the machine that runs it, as definitions.
//!
//! There is no code here that runs. A reader begins with `specs/Act.antt`, which says what each
//! instruction does in a running script, goes on to `specs/Machine.antt` (a step, in a world and an
//! engine of any kind) and ends with `specs/Runs.antt` (an entry from its begin to its end, with a
//! limit on its instructions). What all of these have in common with the stack checker, as the
//! cells that an offset names, is `stack_shape`'s.
//!
//! The functions of this crate do nothing. Each is a law: its contract is proved of the
//! definitions, for whoever calls it. docs/MACHINE.md tells the machine in words, with a worked
//! entry.
#![tactic(auto)]

mod laws;

pub use laws::{
    effects_are_followed, equality_is_tested, few_scripts_wait, limits_count_instructions,
};
