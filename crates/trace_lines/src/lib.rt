//! That each line of a trace is one line of text.
//!
//! There is no code here that runs. A line's text, as `world_rules` has it, ends with a newline,
//! and has no other: strings and names of scripts are escaped, and numbers are digits. What is
//! printed as it stands is the name of a routine, and in a header's names no newline can stand.
//! `specs/Lines.antt` says what one line is, `specs/Laws.antt` what is promised of plays.
#![tactic(auto)]

mod laws;

pub use laws::plays_tell_lines;
