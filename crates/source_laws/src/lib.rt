//! That the code of expressions, statements, functions and scripts does what `source_meaning` says.
//!
//! There is no code here that runs. `specs/Ledger.antt` says what the machine has done where an
//! evaluation has come to some point, `specs/Kept.antt` where values stand, `specs/Carries.antt`
//! which captured states carry which commands. For expressions, calls and statements the promise is
//! in `specs/Simulation.antt`, `specs/Calling.antt` and `specs/StatementsRun.antt`, for functions
//! and scripts in `specs/FunctionsRun.antt` and `specs/Starts.antt`, for commands that were
//! deferred in `specs/Resumes.antt`. `specs/Executing.antt` has scripts that other scripts run,
//! `specs/Entries.antt` whole entries, `specs/Listed.antt` the scripts of a play, and
//! `specs/StayAlike.antt` what entries do beside the scripts that they run. The functions of this
//! crate do nothing: each is a law, whose contract is proved of the definitions. The page on all of
//! this is docs/MEANING.md.
#![tactic(auto)]

mod laws;

pub use laws::{
    captures_are_carried, engine_calls_run, engine_is_run, entries_do, entries_stay_alike,
    expressions_run, functions_run, functions_stand, listed_scripts_do, resumed_run,
    scripts_execute, starts_run, statements_run,
};
