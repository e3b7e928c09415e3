//! A part of a play, between two boundaries of entries.
ghost use Rattle.std.specs.Prelude.{◌≡◌, ◌≤◌, None, IsTrue, IfOk, IfErr};
ghost use Rattle.nwq_value.specs.Limits.{event_limit};
ghost use Rattle.plan_text.specs.Plans.{IsPlan};
ghost use Rattle.ncs_machine.specs.InSetting.{seen};
ghost use Rattle.module_player.specs.EndTexts.{IsEnding};
ghost use Rattle.command_work.specs.Work.{CutsShort};
ghost use Rattle.command_work.specs.Calls.{TalliesPuts};
ghost use Rattle.play_worlds.specs.Worlds.{plan_world};
ghost use Rattle.module_player.specs.Premises.{MayGo, MayPlay};
ghost use Rattle.command_plays.specs.Plays.{KeepsPart, played_first_in, played_on_in};
ghost use Rattle.command_plays.specs.Tellings.{cut_of, TakesLines};

use crate::limits::limits_of;
use crate::telling::cut_of;
use area_tree::Area;
use command_work::Status;
use module_player::{PlayLimits, Played, play_on};
use ncs_machine::PlaySetting;
use nwq_outside::Sink;
use nwq_value::NoMemory;
use plan_text::Plan;
use play_worlds::world_of;
use saved_state::Saved;
use std::alloc::Global;
use world_core::World;

/// Plays on in a world, after so many entries and instructions, until `stop` entries were taken in
/// all. The trace is put as it comes, all of it or a prefix where this part is cut short; the answer
/// is the last world, which keeps what a saved one needs, and how this part ended.
pub fn play_part<S: Sink>(
    alloc: Global,
    setting: &PlaySetting<'_, '_>,
    world: World<Saved>,
    limits: PlayLimits,
    stop: u64,
    taken: u64,
    done: u64,
    out: &mut S,
) -> Result<(World<Saved>, Played), Status>
    requires world { MayPlay (seen setting.now) world.world }
    requires goes { MayGo limits.entries stop taken done }
    ensures told { IfOk result (λ answer. cut_of answer.1.how ≡ None) }
    ensures ending { IfOk result (λ answer. IsEnding answer.1 (played_on_in (seen setting.now)
        limits stop taken done world.world) answer.0.world) }
    ensures trace { IsTrue S.tells → TakesLines S.taken (played_on_in (seen setting.now) limits stop
        taken done world.world) out.old result out.new }
    ensures counts { TalliesPuts S.faults result out.old out.new }
    ensures kept { IfOk result (λ answer. KeepsPart (seen setting.now) world.world.agenda.next done
        answer.1 answer.0.world) }
    ensures only { IfErr result CutsShort }
{
    let mut world = world;
    let played = play_on(alloc, setting, &mut world, limits, stop, taken, done, out);
    match cut_of(played.how) {
        Some(status) => {
            drop(world);
            Err(status)
        }
        None => Ok((world, played)),
    }
}

/// Plays so many entries of a plan over an area, or as many as it may take.
#[tactic(auto, using(crate::proofs::LineLemmas::lines))]
pub fn play_first<S: Sink>(
    alloc: Global,
    setting: &PlaySetting<'_, '_>,
    area: Area,
    plan: &Plan,
    entries: u64,
    out: &mut S,
) -> Result<(World<Saved>, Played), Status>
    requires plan { IsPlan plan.now }
    requires some { 1 ≤ entries }
    ensures told { IfOk result (λ answer. cut_of answer.1.how ≡ None) }
    ensures ending { IfOk result (λ answer. IsEnding answer.1 (played_first_in (seen setting.now)
        plan.now entries (plan_world area plan.now)) answer.0.world) }
    ensures trace { IsTrue S.tells → TakesLines S.taken (played_first_in (seen setting.now) plan.now
        entries (plan_world area plan.now)) out.old result out.new }
    ensures counts { TalliesPuts S.faults result out.old out.new }
    ensures kept { IfOk result (λ answer. KeepsPart (seen setting.now) event_limit 0 answer.1
        answer.0.world) }
    ensures only { IfErr result CutsShort }
{
    let limits = limits_of(plan);
    let stop = entries.min(plan.entries);
    match world_of(alloc, area, plan) {
        Err(NoMemory) => Err(Status::Memory),
        Ok(world) => play_part(alloc, setting, world, limits, stop, 0, 0, out),
    }
}
