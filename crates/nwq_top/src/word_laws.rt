//! Laws about the work of words, each the contract of a function that does nothing.

ghost use Rattle.nwq_top.specs.WordLaws.{CompilesMean, GeneratesMean, OneFaultRefuses};
ghost use Rattle.nwq_top.specs.WordLaws.{PlaysMean, ResumesMean, RunsMean, SavesMean};
ghost use Rattle.nwq_top.specs.Budgets.{ScriptsHaveFewStructs};
ghost use Rattle.nwq_top.specs.ListedUnits.{PlansListUnits};
ghost use Rattle.nwq_top.specs.SourcePlans.{FewStepsPlayAsMeant, StoppedPlansBeginAsMeant};
ghost use Rattle.nwq_top.specs.SourcePlans.{UnstoppedPlansPlayAsMeant};

use command_compile::laws::one_script;
use command_files::laws::one_check;
use command_meaning::{
    checked_plays_have_no_fault, ends_are_answered, listed_units_play_alike, runs_end_as_meant,
    scripts_play_units, starts_play_once, units_pass,
};
use command_play::laws::one_game;
use command_plays::laws::one_code;
use command_save::laws::{fronts_go_on, one_input, one_save, saved_plays_go_on, states_go_safely};
use command_sources::laws::one_source;
use engine_table::headers_have_tables;
use play_inputs::laws::{one_area, one_listing};
use play_save::code_is_bytes;
use source_laws::entries_stay_alike;
use typing_laws::laws::one_least_fault;

/// What is listed of a plan of sources is the code of their units.
pub fn plans_list_units()
    ensures listed { PlansListUnits }
{
    code_is_bytes();
    units_pass();
    scripts_play_units();
    one_check();
    one_least_fault();
}

/// A plan whose scripts are typed units is played as their sources mean, its final area among it:
/// where each entry of the sources ends in so many steps that 16 times as many instructions are
/// within the plan's limit, and in any case where no entry of the code was stopped. Where one was,
/// what is told is a beginning of what the sources mean, and no area is left.
pub fn plans_play_as_meant()
    ensures few { FewStepsPlayAsMeant }
    ensures unstopped { UnstoppedPlansPlayAsMeant }
    ensures stopped { StoppedPlansBeginAsMeant }
{
    listed_units_play_alike();
    entries_stay_alike();
}

/// Whatever does the work of `run` is refused where the header or the script is, and else tells
/// what the script's source means.
pub fn runs_mean()
    ensures means { RunsMean }
{
    units_pass();
    scripts_play_units();
    one_least_fault();
    headers_have_tables();
    one_source();
    one_script();
    one_check();
    one_code();
    runs_end_as_meant();
    starts_play_once();
    checked_plays_have_no_fault();
}

/// Whatever does the work of `compile` is refused where the header or the script is, and else
/// writes the file of the script's unit, which passes the stack checker.
pub fn compiles_mean()
    ensures means { CompilesMean }
{
    units_pass();
    scripts_play_units();
    one_least_fault();
    headers_have_tables();
    one_source();
    one_script();
    one_check();
}

/// Whatever does the work of `play` is refused for the first of its files that is, and else tells
/// and leaves what the sources mean that the plan lists.
pub fn plays_mean()
    ensures means { PlaysMean }
{
    code_is_bytes();
    units_pass();
    scripts_play_units();
    one_least_fault();
    headers_have_tables();
    one_source();
    one_check();
    one_area();
    one_listing();
    one_game();
    plans_play_as_meant();
    checked_plays_have_no_fault();
}

/// Whatever does the work of `save` is refused as `play` is, and else leaves the state of the play
/// after its first entries, and tells these, as the sources mean them that the plan lists.
pub fn saves_mean()
    ensures means { SavesMean }
{
    code_is_bytes();
    units_pass();
    scripts_play_units();
    one_least_fault();
    headers_have_tables();
    one_check();
    one_area();
    one_listing();
    one_input();
    one_save();
    fronts_go_on();
    listed_units_play_alike();
    entries_stay_alike();
    checked_plays_have_no_fault();
}

/// Whatever does the work of `resume` is refused where the state is, and else tells and leaves the
/// rest of the play: that of the unbroken one, where the state was saved of it. Whoever made the
/// state, it comes to no stack fault.
pub fn resumes_mean()
    ensures means { ResumesMean }
{
    headers_have_tables();
    one_input();
    one_save();
    states_go_safely();
    saved_plays_go_on();
    checked_plays_have_no_fault();
}

/// Whatever does the work of `generate` compiles the source that is made, and tells of its play
/// what the source means.
pub fn generates_mean()
    ensures means { GeneratesMean }
{
    units_pass();
    scripts_play_units();
    one_least_fault();
    headers_have_tables();
    one_check();
    ends_are_answered();
    plans_play_as_meant();
    checked_plays_have_no_fault();
}

/// Typing refuses a source at one fault alone: the least one, with its token and its kind.
pub fn one_refusal_of_types()
    ensures one { OneFaultRefuses }
{
    one_source();
    one_least_fault();
}

/// A script has a struct for each eight of its tokens at most, so never as many as the walk that
/// types it can number.
pub fn scripts_have_few_structs()
    ensures few { ScriptsHaveFewStructs }
{}
