//! The lines of a plan, played over an area.
ghost use Rattle.std.specs.Prelude.{IsTrue, IfOk, IfErr};
ghost use Rattle.plan_text.specs.Plans.{IsPlan};
ghost use Rattle.ncs_machine.specs.InSetting.{seen};
ghost use Rattle.module_player.specs.EndTexts.{HasText, IsEnding};
ghost use Rattle.command_work.specs.Work.{CutsShort};
ghost use Rattle.command_work.specs.Calls.{TalliesPuts};
ghost use Rattle.play_worlds.specs.Worlds.{plan_world};
ghost use Rattle.module_player.specs.Premises.{MayPlay};
ghost use Rattle.command_plays.specs.Plays.{plan_played_in, played_in};
ghost use Rattle.command_plays.specs.Tellings.{TakesLines};

use crate::limits::limits_of;
use crate::telling::cut_of;
use area_tree::Area;
use command_work::Status;
use module_player::{PlayLimits, Played, play};
use ncs_machine::PlaySetting;
use nwq_outside::Sink;
use nwq_value::NoMemory;
use plan_text::Plan;
use play_worlds::world_of;
use saved_state::Saved;
use std::alloc::Global;
use world_core::World;

/// Plays listed scripts in a world, within limits. The trace is put as it comes, all of it or a
/// prefix where the play is cut short; the answer is the last world, and how the play ended.
pub fn play_world<S: Sink>(
    alloc: Global,
    setting: &PlaySetting<'_, '_>,
    world: World<Saved>,
    limits: PlayLimits,
    out: &mut S,
) -> Result<(World<Saved>, Played), Status>
    requires world { MayPlay (seen setting.now) world.world }
    ensures told { IfOk result (λ answer. HasText answer.1.how) }
    ensures ending { IfOk result (λ answer. IsEnding answer.1
        (played_in (seen setting.now) limits world.world) answer.0.world) }
    ensures trace { IsTrue S.tells → TakesLines S.taken
        (played_in (seen setting.now) limits world.world) out.old result out.new }
    ensures counts { TalliesPuts S.faults result out.old out.new }
    ensures only { IfErr result CutsShort }
{
    let mut world = world;
    let played = play(alloc, setting, &mut world, limits, out);
    match cut_of(played.how) {
        Some(status) => {
            drop(world);
            Err(status)
        }
        None => Ok((world, played)),
    }
}

/// Plays a plan over an area.
#[tactic(auto, using(crate::proofs::LineLemmas::lines))]
pub fn play_lines<S: Sink>(
    alloc: Global,
    setting: &PlaySetting<'_, '_>,
    area: Area,
    plan: &Plan,
    out: &mut S,
) -> Result<(World<Saved>, Played), Status>
    requires plan { IsPlan plan.now }
    ensures told { IfOk result (λ answer. HasText answer.1.how) }
    ensures ending { IfOk result (λ answer. IsEnding answer.1 (plan_played_in (seen setting.now)
        plan.now (plan_world area plan.now)) answer.0.world) }
    ensures trace { IsTrue S.tells → TakesLines S.taken (plan_played_in (seen setting.now) plan.now
        (plan_world area plan.now)) out.old result out.new }
    ensures counts { TalliesPuts S.faults result out.old out.new }
    ensures only { IfErr result CutsShort }
{
    let limits = limits_of(plan);
    match world_of(alloc, area, plan) {
        Err(NoMemory) => Err(Status::Memory),
        Ok(world) => play_world(alloc, setting, world, limits, out),
    }
}
