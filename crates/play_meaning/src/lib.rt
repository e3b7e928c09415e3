//! That a play of the code of source texts is the play that the texts mean.
//!
//! There is no code here that runs. `source_laws` says that the machine does what an entry means,
//! from its first instruction to its last; this crate carries that over whole plays. A play is
//! told once, in `world_rules`, for any way to run an entry's scripts: `specs/Together.antt` says
//! when two such plays go together, and `specs/PlaysRun.antt` that those of code and of source do.
//! `specs/EndTexts.antt` has the text at such a play's end, and `specs/Machines.antt` says of which
//! setting the player's machine is, and `specs/TypedScripts.antt` that scripts of typed units are
//! as these laws ask. The functions of this crate do nothing: each is a law, whose contract is
//! proved of the definitions. The page on all of this is docs/MEANING.md.
#![tactic(auto)]

mod laws;

pub use laws::{
    code_plays_end, end_texts_agree, players_are_hosts, source_plays_end, typed_scripts_are_ready,
};
