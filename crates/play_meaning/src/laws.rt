//! Laws about plays, each the contract of a function that does nothing.
ghost use Rattle.play_meaning.specs.EndTexts.{EndTextsAgree};
ghost use Rattle.play_meaning.specs.Machines.{PlayersAreHosts};
ghost use Rattle.play_meaning.specs.PlaysRun.{CodePlaysEnd, SourcePlaysEnd};
ghost use Rattle.play_meaning.specs.TypedScripts.{TypedScriptsAreReady};

use source_laws::{entries_do, entries_stay_alike, listed_scripts_do};
use typed_laws::units_are_ready;

/// Where each entry of the play of source texts ends in so many steps, the play of their code ends
/// as it does, if its entries may take 16 instructions for each of these steps: after as many
/// entries, with the same lines told, in a world that is alike. In all of it at least one and at
/// most 16 instructions were made for each step.
pub fn source_plays_end()
    ensures end { SourcePlaysEnd }
{
    listed_scripts_do();
    entries_do();
    entries_stay_alike();
}

/// Where no entry of a play of code is stopped by its limit, the play of the source texts ends as
/// it does, if its entries may take as many steps. Where one is stopped, exactly so many
/// instructions were made in it, and the lines told are a beginning of those that the play of
/// source tells.
pub fn code_plays_end()
    ensures end { CodePlaysEnd }
{
    listed_scripts_do();
    entries_do();
    entries_stay_alike();
}

/// The player runs loaded scripts in the machine of the setting whose texts they are the code of.
pub fn players_are_hosts()
    ensures hosts { PlayersAreHosts }
{}

/// Plays that go together have one text at their end, but for the number of instructions.
pub fn end_texts_agree()
    ensures agree { EndTextsAgree }
{}

/// Scripts whose units are typed, from trees that their tokens have, are as the laws on plays ask.
pub fn typed_scripts_are_ready()
    ensures ready { TypedScriptsAreReady }
{
    units_are_ready();
}
