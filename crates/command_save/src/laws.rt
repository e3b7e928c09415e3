//! Laws about saved plays, each the contract of a function that does nothing.

ghost use Rattle.command_save.specs.Laws.{FrontsGoOn, OneGoing, SavedPlaysGoOn, StatesGoSafely};
ghost use Rattle.command_save.specs.Laws.{SureAreaFiles, SureHeaderFiles, SureResumes, SureSaves};
ghost use Rattle.command_save.specs.Laws.{SavesCompose, SureStates};

use command_sources::laws::one_source;
use engine_table::laws::one_header;
use gff_read::one_tree;
use ncs_code::spelling_laws;
use play_inputs::laws::{one_area, one_listing};
use saved_state::Saved;
use state_format::one_state;
use world_rules::plays_go_on;

/// What the files hold decides what comes of a play that is saved, and of one that is resumed.
pub fn one_save()
    ensures saves { SureSaves }
    ensures resumes { SureResumes }
{
    one_header();
    spelling_laws();
    one_tree();
    one_state();
    one_source();
    one_listing();
    one_area();
}

/// A play that was saved after some entries and then resumed tells as much as the unbroken one, in
/// two parts, ends as it does, and leaves the same area.
pub fn saved_plays_go_on()
    ensures goes_on { SavedPlaysGoOn }
{
    one_header();
    spelling_laws();
    one_tree();
    one_state();
    one_source();
    one_listing();
    one_area();
}

/// What the files hold decides what comes of a header and of an area with their bytes, and of the
/// file of a state, and a state what a play goes on from.
pub fn one_input()
    ensures headers { SureHeaderFiles }
    ensures areas { SureAreaFiles }
    ensures states { SureStates }
    ensures going { OneGoing }
{
    one_header();
    spelling_laws();
    one_tree();
    one_state();
    one_source();
    one_area();
}

/// The first entries of a play are a front of it: where they are broken off the play goes on.
pub fn fronts_go_on()
    ensures fronts { FrontsGoOn }
{
    plays_go_on::<Saved>();
}

/// The state after some entries and then some more is that of the play that goes on from the state
/// after the first ones.
pub fn saves_compose()
    ensures compose { SavesCompose }
{
    one_header();
    spelling_laws();
    one_tree();
    one_state();
}

/// A state that keeps all rules goes on from well stacked scripts and a world in which each
/// captured state fits.
pub fn states_go_safely()
    ensures safe { StatesGoSafely }
{
    one_header();
    spelling_laws();
    one_tree();
    one_state();
}
