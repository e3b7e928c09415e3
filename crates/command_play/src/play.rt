//! The play of a plan, and what it leaves.
ghost use Rattle.std.specs.Prelude.{◌≡◌, IsTrue};
ghost use Rattle.plan_text.specs.Plans.{IsPlan};
ghost use Rattle.ncs_machine.specs.InSetting.{seen};
ghost use Rattle.command_work.specs.Calls.{DoesOn, IsName};
ghost use Rattle.command_play.specs.Games.{plays_plan_in};
ghost use Rattle.command_play.specs.Tellings.{KeepsTo, StopsGame};

use crate::remarks::Remarks;
use crate::telling::tell_end;
use area_tree::Area;
use command_plays::play_lines;
use command_work::Status;
use ncs_machine::PlaySetting;
use nwq_outside::{Files, Sink};
use plan_text::Plan;
use std::alloc::Global;

/// Plays a plan over an area.
#[tactic(auto, using(crate::proofs::PlayLemmas::plays_in))]
pub(crate) fn play_plan<F: Files, S: Sink>(
    alloc: Global,
    setting: &PlaySetting<'_, '_>,
    area: Area,
    plan: &Plan,
    to: &str,
    files: &mut F,
    out: &mut S,
    remarks: &mut Remarks,
) -> Result<(), Status>
    requires plan { IsPlan plan.now }
    ensures does { IsTrue F.tells → IsTrue S.tells → DoesOn F.contents S.taken (plays_plan_in
        (seen setting.now) area plan.now to.now) files.old out.old result files.new out.new }
    ensures keeps { KeepsTo F.counts S.faults F.contents (IsName to.now) StopsGame result files.old
        out.old files.new out.new }
    ensures unread { F.reads files.new ≡ F.reads files.old }
{
    match play_lines(alloc, setting, area, plan, out) {
        Err(status) => Err(status),
        Ok((world, played)) => tell_end(
            alloc,
            world,
            setting.code.scripts(),
            &played,
            to,
            files,
            out,
            remarks,
        ),
    }
}
