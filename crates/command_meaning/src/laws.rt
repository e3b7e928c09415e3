//! Laws about the work of commands, each the contract of a function that does nothing.
ghost use Rattle.command_meaning.specs.CodeEnds.{CheckedPlaysGoOn, CheckedPlaysHaveNoFault};
ghost use Rattle.command_meaning.specs.Files.{FilesAreNotRefused, FilesPlayTheirCode};
ghost use Rattle.command_meaning.specs.ListedPlays.{ListedPlaysEnd, ListedPlaysStop};
ghost use Rattle.command_meaning.specs.ListedPlays.{ListedTextsAgree};
ghost use Rattle.command_meaning.specs.Once.{StartsPlayOnce, StartsPlayOnceWhereNothingWaits};
ghost use Rattle.command_meaning.specs.Runs.{EndsAreAnswered, FewStepsEndAsMeant};
ghost use Rattle.command_meaning.specs.Runs.{StoppedRunsBeginAsMeant, UnstoppedRunsEndAsMeant};
ghost use Rattle.command_meaning.specs.Scripts.{ScriptsHaveUnits, ScriptsPlayUnits};
ghost use Rattle.command_meaning.specs.Units.{TablesAnswerInTypes, UnitsAreWellTyped, UnitsPass};

use command_plays::laws::one_code;
use ncs_machine::{Scene, calls_keep_fits, entries_keep_fits};
use nss_lexer::laws::values_are_bytes;
use play_meaning::{code_plays_end, end_texts_agree, source_plays_end, typed_scripts_are_ready};
use saved_state::Saved;
use source_laws::entries_stay_alike;
use stack_rules::{runs_are_sound, tables_type_execute_script};
use typing_laws::laws::typed_units_have_code;
use unit_laws::{typed_units_are_well_typed, typed_units_pass};
use world_core::answers_have_types;

/// The values of a typed unit have the types that stand at their nodes, as the shapes of its code
/// need it.
pub fn units_are_well_typed()
    ensures typed { UnitsAreWellTyped }
{
    typed_units_are_well_typed();
}

/// The file of a typed unit is one that loads, with the instructions of its code, if it is not too
/// large, and these are well stacked under its header.
pub fn units_pass()
    ensures pass { UnitsPass }
{
    typed_units_pass();
    typed_units_have_code();
}

/// What comes of the file of a typed unit as it is loaded, checked and played comes of the play of
/// its code: the file is never refused.
pub fn files_play_their_code()
    ensures plays { FilesPlayTheirCode }
    ensures passes { FilesAreNotRefused }
{
    units_pass();
    one_code();
}

/// In each table of a header the engine's answers have the routines' types.
pub fn tables_answer_in_types()
    ensures typed { TablesAnswerInTypes }
{
    answers_have_types::<Saved>();
    tables_type_execute_script();
}

/// The code of listed typed units and their sources are played alike, from worlds that are alike:
/// where the entries of the sources end in few steps, and in any case where no entry of the code is
/// stopped. Where one is, its lines are a beginning. Plays that are alike have one text at the end.
pub fn listed_units_play_alike()
    ensures end { ListedPlaysEnd }
    ensures stop { ListedPlaysStop }
    ensures texts { ListedTextsAgree }
{
    tables_answer_in_types();
    typed_scripts_are_ready();
    source_plays_end();
    code_plays_end();
    end_texts_agree();
}

/// No play of checked files comes to a stack fault: it ends as plays of the world's rules do, also
/// where it goes on from a world whose captured states fit.
pub fn checked_plays_have_no_fault()
    ensures goes_on { CheckedPlaysGoOn }
    ensures no_fault { CheckedPlaysHaveNoFault }
{
    runs_are_sound::<Scene>();
    calls_keep_fits();
    entries_keep_fits();
    answers_have_types::<Saved>();
    tables_type_execute_script();
}

/// For a unit without action arguments the play of its source is the one entry of its start. So it
/// is for any unit where the evaluation of that start leaves nothing on the agenda.
pub fn starts_play_once()
    ensures once { StartsPlayOnce }
    ensures nothing_waits { StartsPlayOnceWhereNothingWaits }
{}

/// A command answers as its play ends, where it isn't cut.
pub fn ends_are_answered()
    ensures answered { EndsAreAnswered }
{}

/// The play of a typed unit's file is told as its source means, with the end that the source has:
/// where each entry of the source ends in 8,192 steps, and in any case where no entry of the code
/// was stopped. Where one was, exactly as many instructions were made in it as an entry may take,
/// and the lines told are a beginning of those that the source tells.
pub fn runs_end_as_meant()
    ensures few { FewStepsEndAsMeant }
    ensures unstopped { UnstoppedRunsEndAsMeant }
    ensures stopped { StoppedRunsBeginAsMeant }
{
    files_play_their_code();
    listed_units_play_alike();
    entries_stay_alike();
}

/// The unit of a script has at most 100,000 tokens, each literal of which has a value, where the
/// files hold bytes. A script that is compiled and played ends as it is compiled, or its unit's
/// file is played.
pub fn scripts_play_units()
    ensures units { ScriptsHaveUnits }
    ensures plays { ScriptsPlayUnits }
{
    values_are_bytes();
}
