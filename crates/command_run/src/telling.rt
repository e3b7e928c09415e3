//! The text at the end of a play, and the status that comes of it.
ghost use Rattle.std.specs.Prelude.{◌≡◌, IsTrue, IfOk, IfErr};
ghost use Rattle.saved_state.specs.declared.saved.Saved.{Saved as SavedView};
ghost use Rattle.world_rules.specs.Plays.{Played as PlayedView};
ghost use Rattle.ncs_machine.specs.Host.{scripts_of};
ghost use Rattle.module_player.specs.CodePlays.{code_end_text};
ghost use Rattle.module_player.specs.EndTexts.{HasText, IsEnding};
ghost use Rattle.command_work.specs.Counts.{Refusing};
ghost use Rattle.command_work.specs.Calls.{TalliesPuts, DoesPuts};
ghost use Rattle.command_plays.specs.Scripts.{tells_end};

use command_play::{Remarks, remark_endings};
use command_plays::ending_of;
use command_work::{Status, put};
use module_player::{Played, end_text};
use ncs_machine::Scripts;
use nwq_outside::Sink;
use nwq_value::NoMemory;
use saved_state::Saved;
use std::alloc::Global;
use world_core::World;

/// The text at the end of a play.
fn text_of(
    alloc: Global,
    world: World<Saved>,
    scripts: &Scripts,
    played: &Played,
) -> Result<Vec<u8>, NoMemory>
    requires told { HasText played.now.how }
    ensures text { IfOk result (λ text. (p : PlayedView SavedView)
        → IsEnding played.now p world.world
        → text.items ≡ code_end_text (scripts_of scripts.now) p) }
{
    match end_text(alloc, world, scripts, played) {
        Err(NoMemory) => Err(NoMemory),
        Ok((area, text)) => {
            drop(area);
            Ok(text)
        }
    }
}

/// Puts the text at the end of a play, and ends as the play did. What is remarked of its last world
/// is no part of it.
#[tactic(auto, using(crate::proofs::TellLemmas::ends))]
pub(crate) fn tell_end<S: Sink>(
    alloc: Global,
    world: World<Saved>,
    scripts: &Scripts,
    played: &Played,
    out: &mut S,
    remarks: &mut Remarks,
) -> Result<(), Status>
    requires told { HasText played.now.how }
    ensures does { IsTrue S.tells → (p : PlayedView SavedView) → IsEnding played.now p world.world →
        DoesPuts S.taken (tells_end (scripts_of scripts.now) p) out.old result out.new }
    ensures counts { TalliesPuts S.faults result out.old out.new }
    ensures only { IfErr result (Refusing Status.Limit) }
{
    let mut world = world;
    remark_endings(alloc, &mut world, scripts, remarks);
    match put(text_of(alloc, world, scripts, played), out) {
        Err(status) => Err(status),
        Ok(()) => ending_of(played.how),
    }
}
