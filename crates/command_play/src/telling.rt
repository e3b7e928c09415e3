//! What a play leaves: its area in a file, and the text of its end.
ghost use Rattle.std.specs.Prelude.{◌≡◌, ◌↔◌, ℕ, List, [], IsTrue, IfErr};
ghost use Rattle.area_back.specs.Back.{tree_back};
ghost use Rattle.saved_state.specs.declared.saved.Saved.{Saved as SavedView};
ghost use Rattle.world_rules.specs.Plays.{PlayEnd, Played as PlayedView};
ghost use Rattle.ncs_machine.specs.Host.{scripts_of};
ghost use Rattle.module_player.specs.Answers.{EndsAs};
ghost use Rattle.module_player.specs.EndTexts.{HasText, IsEnding};
ghost use Rattle.command_work.specs.Work.{Does, Puts, Ends, then, puts};
ghost use Rattle.command_work.specs.Counts.{Refusing, KeepsBut};
ghost use Rattle.command_work.specs.Calls.{DoesOn, TalliesOn, TalliesPuts, IsName, DoesPuts};
ghost use Rattle.play_inputs.specs.Finals.{final_written};
ghost use Rattle.command_play.specs.Games.{ends_by, tells_end};
ghost use Rattle.command_play.specs.Tellings.{StopsEnd};

use crate::remarks::{Remarks, remark};
use area_tree::Area;
use command_work::{Status, put};
use module_player::{How, Played, end_text};
use ncs_machine::Scripts;
use nwq_outside::{Files, Sink};
use nwq_value::NoMemory;
use play_inputs::write_area;
use saved_state::Saved;
use std::alloc::Global;
use world_core::World;

/// Puts the text at the end of a play that a limit ended.
#[tactic(auto, using(crate::proofs::TellLemmas::limits))]
pub fn tell_limit<S: Sink>(text: Vec<u8>, out: &mut S) -> Result<(), Status>
    ensures does { IsTrue S.tells → DoesPuts S.taken (Puts text.items (Ends Status.Limit))
        out.old result out.new }
    ensures counts { TalliesPuts S.faults result out.old out.new }
    ensures only { IfErr result (Refusing Status.Limit) }
{
    match put(Ok(text), out) {
        Err(cut) => Err(cut),
        Ok(()) => Err(Status::Limit),
    }
}

/// Writes the file of the area that a play leaves, and then puts the text of its end.
#[tactic(auto, using(crate::proofs::TellLemmas::put_last))]
fn leave_area<F: Files, S: Sink>(
    alloc: Global,
    to: &str,
    area: Area,
    text: Vec<u8>,
    files: &mut F,
    out: &mut S,
) -> Result<(), Status>
    ensures does { IsTrue F.tells → IsTrue S.tells → DoesOn F.contents S.taken (then
        (final_written to.now (tree_back area)) (λ done. puts text.items)) files.old out.old result
        files.new out.new }
    ensures counts { TalliesOn F.counts S.faults result files.old out.old files.new out.new }
    ensures names { KeepsBut (IsName to.now) (F.contents files.old) (F.contents files.new) }
    ensures unread { F.reads files.new ≡ F.reads files.old }
    ensures only { IfErr result (Refusing Status.Area) }
{
    match write_area(alloc, to, area, files, out) {
        Err(status) => {
            drop(text);
            Err(status)
        }
        Ok(()) => put(Ok(text), out),
    }
}

/// Ends as a play did that leaves this area and has this text at its end.
#[tactic(auto, using(crate::proofs::TellLemmas::endings, crate::proofs::StopLemmas::ends, command_work::specs::KeepsLemmas::keeps_all))]
fn end_by<F: Files, S: Sink>(
    alloc: Global,
    how: How,
    to: &str,
    area: Area,
    text: Vec<u8>,
    files: &mut F,
    out: &mut S,
) -> Result<(), Status>
    requires told { HasText how }
    ensures does { IsTrue F.tells → IsTrue S.tells → (ending : PlayEnd) → EndsAs how ending →
        Does (ends_by ending to.now area text.items) (F.contents files.old) (S.taken out.old)
        result (F.contents files.new) (S.taken out.new) }
    ensures counts { TalliesOn F.counts S.faults result files.old out.old files.new out.new }
    ensures names { KeepsBut (IsName to.now) (F.contents files.old) (F.contents files.new) }
    ensures unread { F.reads files.new ≡ F.reads files.old }
    ensures only { IfErr result StopsEnd }
{
    match how {
        How::Done => leave_area(alloc, to, area, text, files, out),
        How::InstrStop => {
            drop(area);
            tell_limit(text, out)
        }
        How::EntryStop => {
            drop(area);
            tell_limit(text, out)
        }
        How::Pause => unreachable!(),
        How::Fault => unreachable!(),
        How::NoMemory => unreachable!(),
    }
}

/// Writes what a play leaves in its last world, and tells its end. What is remarked of that world
/// is no part of it.
#[tactic(auto, using(crate::proofs::TellLemmas::ends, command_work::specs::KeepsLemmas::keeps_all))]
pub fn tell_end<F: Files, S: Sink>(
    alloc: Global,
    world: World<Saved>,
    scripts: &Scripts,
    played: &Played,
    to: &str,
    files: &mut F,
    out: &mut S,
    remarks: &mut Remarks,
) -> Result<(), Status>
    requires told { HasText played.now.how }
    ensures does { IsTrue F.tells → IsTrue S.tells → (p : PlayedView SavedView) → IsEnding
        played.now p world.world → DoesOn F.contents S.taken
        (tells_end to.now (scripts_of scripts.now) p) files.old out.old result files.new out.new }
    ensures counts { TalliesOn F.counts S.faults result files.old out.old files.new out.new }
    ensures names { KeepsBut (IsName to.now) (F.contents files.old) (F.contents files.new) }
    ensures unread { F.reads files.new ≡ F.reads files.old }
    ensures only { IfErr result StopsEnd }
    ensures used_up { IsTrue remarks.new.random_used_up ↔ (world.world.random ≡ []) }
{
    let mut world = world;
    remark(alloc, &mut world, scripts, remarks);
    match end_text(alloc, world, scripts, played) {
        Err(NoMemory) => Err(Status::Memory),
        Ok((area, text)) => end_by(alloc, played.how, to, area, text, files, out),
    }
}
