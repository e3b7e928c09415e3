//! Laws of plays of files between two entries, each the contract of a function that does nothing.
ghost use Rattle.play_states.specs.Resting.{FirstEntriesHaveStates, PlaysComeToStates};
ghost use Rattle.play_states.specs.Resting.{PlaysCountFew, PlaysRest};

use area_rules::objects_tell;
use local_variables::variables_tell;
use ncs_machine::{Scene, calls_keep_fits, entries_keep_fits, runs_lead};
use play_room::{kept_worlds_have_room, plan_worlds_are_kept, plays_keep_values};
use play_save::plays_have_states;
use play_worlds::plan_worlds_are_fresh;
use saved_state::Saved;
use stack_rules::{runs_are_sound, tables_type_execute_script};
use world_core::answers_have_types;
use world_rules::plays_settle;

/// A play of files that goes on from a world that rests comes to one that rests, unless it is
/// stopped inside an entry; and there is a state of it, where the values of the world that it goes
/// on from are kept.
pub fn plays_rest()
    ensures rest { PlaysRest }
    ensures states { PlaysComeToStates }
{
    variables_tell();
    runs_are_sound::<Scene>();
    calls_keep_fits();
    entries_keep_fits();
    runs_lead();
    plays_settle::<Saved>();
    answers_have_types::<Saved>();
    tables_type_execute_script();
    plays_keep_values();
    kept_worlds_have_room();
    plays_have_states();
}

/// How many instructions a play executes at most, and how many entries it posts.
pub fn counts_are_few()
    ensures few { PlaysCountFew }
{
    variables_tell();
}

/// There is a state of the first entries of every plan, unless they are stopped inside one.
pub fn first_entries_have_states()
    ensures states { FirstEntriesHaveStates }
{
    objects_tell();
    plan_worlds_are_fresh();
    plan_worlds_are_kept();
    plays_rest();
    counts_are_few();
}
