//! That what `run` prints of a script is what the script's source means.
//!
//! There is no code here that runs. The laws of the crates below speak of typed units, of their
//! code, and of plays; here they are joined. `specs/Units.antt` says that a typed unit keeps all
//! that these laws ask, and that its file loads and passes the checker; `specs/Files.antt` that the
//! play of the file is the play of the unit's code; `specs/Runs.antt` that its text and its answer
//! are what the source means, where no entry is stopped, and a beginning of it where one is;
//! `specs/Once.antt` that the start of a unit without action arguments is the only entry of its
//! play, as is each start that leaves nothing due; `specs/WithoutActions.antt` which units these
//! are; `specs/CodeEnds.antt` that no play of checked files comes to a stack fault; and
//! `specs/Scripts.antt` that each script that is compiled has such a unit. The functions of this
//! crate do nothing: each is a law, whose contract is proved of the definitions. The pages on it
//! are docs/THEOREMS.md and docs/MEANING.md.
#![tactic(auto)]

mod laws;

pub use laws::{
    checked_plays_have_no_fault, ends_are_answered, files_play_their_code, listed_units_play_alike,
    runs_end_as_meant, scripts_play_units, starts_play_once, tables_answer_in_types,
    units_are_well_typed, units_pass,
};
