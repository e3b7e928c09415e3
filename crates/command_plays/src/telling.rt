//! What comes of a play's answer: the status by which a command ends.
ghost use Rattle.std.specs.Prelude.{◌≡◌, ℕ, List, IfErr};
ghost use Rattle.nwq_outside.specs.Outside.{Contents};
ghost use Rattle.world_rules.specs.Plays.{PlayEnd};
ghost use Rattle.module_player.specs.Answers.{EndsAs};
ghost use Rattle.module_player.specs.EndTexts.{HasText};
ghost use Rattle.command_work.specs.Work.{Does};
ghost use Rattle.command_plays.specs.Plays.{ends_by};
ghost use Rattle.command_plays.specs.Tellings.{cut_of};

use command_work::Status;
use module_player::How;

/// The status of a play that was cut short.
pub(crate) fn cut_of(how: How) -> Option<Status>
    ensures status { result ≡ cut_of how }
{
    match how {
        How::Done => None,
        How::InstrStop => None,
        How::EntryStop => None,
        How::Pause => None,
        How::Fault => Some(Status::Fault),
        How::NoMemory => Some(Status::Memory),
    }
}

/// How a command ends whose play ended so.
#[tactic(auto, using(crate::proofs::TellLemmas::endings))]
pub fn ending_of(how: How) -> Result<(), Status>
    requires told { HasText how }
    ensures ends { (ending : PlayEnd) → EndsAs how ending → (c : Contents) → (t : List ℕ) →
        Does (ends_by ending) c t result c t }
    ensures only { IfErr result (λ status. status ≡ Status.Limit) }
{
    match how {
        How::Done => Ok(()),
        How::InstrStop => Err(Status::Limit),
        How::EntryStop => Err(Status::Limit),
        How::Pause => unreachable!(),
        How::Fault => unreachable!(),
        How::NoMemory => unreachable!(),
    }
}
