ghost use Rattle.ncs_machine.specs.Leading.{RunsLead};
ghost use Rattle.ncs_machine.specs.Stored.{BeginKeepsFits, EngineKeepsFits, LinesKeepFits};
ghost use Rattle.ncs_machine.specs.Stored.{TurnDoneKeepsFits, TurnKeepsFits, UnapplyKeepsFits};

use saved_state::Saved;
use world_rules::calls_keep_worlds;

/// A call whose action fits leaves all captured states of a world fitting, and so does each line.
pub fn calls_keep_fits()
    ensures engine { EngineKeepsFits }
    ensures lines { LinesKeepFits }
{}

/// An entry that is begun fits, and what entries do leaves all captured states of a world fitting.
pub fn entries_keep_fits()
    ensures begin { BeginKeepsFits }
    ensures turn { TurnKeepsFits }
    ensures turn_done { TurnDoneKeepsFits }
    ensures unapply { UnapplyKeepsFits }
{}

/// A script, or a captured state, that runs as one of the objects, or as none, leads a world on by
/// the engine's calls alone.
pub fn runs_lead()
    ensures lead { RunsLead }
{
    calls_keep_worlds::<Saved>();
}
