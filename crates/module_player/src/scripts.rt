//! The scripts of an entry.
ghost use Rattle.std.specs.Prelude.{◌≤◌, IfOk, OnErr};
ghost use Rattle.world_rules.specs.World.{count as object_count};
ghost use Rattle.ncs_machine.specs.Begins.{MayBegin};
ghost use Rattle.ncs_machine.specs.Host.{run_from};
ghost use Rattle.ncs_machine.specs.InSetting.{seen};
ghost use Rattle.ncs_machine.specs.Settings.{host_in};
ghost use Rattle.module_player.specs.CodePlays.{run_of};
ghost use Rattle.module_player.specs.Cuts.{IsRunCut};
ghost use Rattle.module_player.specs.Entries.{HasRun};
ghost use Rattle.module_player.specs.Premises.{IsReady};

use crate::limits::PlayLimits;
use ncs_machine::{Begin, PlaySetting, Ran, run};
use nwq_value::NoMemory;
use saved_state::Saved;
use std::alloc::Global;
use world_core::World;

/// How an entry's scripts end.
#[derive(Clone, Copy)]
pub enum Ended {
    Over,
    /// A script of this object divided by zero.
    Divided(u32),
    /// They would take more instructions than they may.
    Stopped,
}

/// Runs an entry's scripts: how they end, and how many instructions they take.
#[tactic(auto, using(crate::proofs::Runs::run_lemmas))]
pub(crate) fn run_scripts(
    alloc: Global,
    setting: &PlaySetting<'_, '_>,
    world: &mut World<Saved>,
    script: u32,
    begin: Begin,
    object: u32,
    limits: PlayLimits,
) -> Result<(Ended, u64), NoMemory>
    requires begins { MayBegin (seen setting.now) script begin }
    requires ready { IsReady (seen setting.now) 0 world.old.world world.old.room }
    requires object { object ≤ object_count world.old.world }
    ensures run { IfOk result (λ r. HasRun (seen setting.now) limits.instructions r.0 r.1 (run_of
        (run_from (host_in (seen setting.now)) limits.instructions script begin object
        world.old.world)) world.old.world world.new.world) }
    ensures cut { OnErr result (IsRunCut (λ n. run_of (run_from (host_in (seen setting.now)) n
        script begin object world.old.world)) world.new.world) }
    ensures room { 1 ≤ world.new.room }
{
    let (ran, count, last) = run(
        alloc,
        setting,
        script,
        begin,
        world,
        object,
        limits.instructions,
    );
    match ran {
        Ran::Ended => Ok((Ended::Over, count)),
        Ran::Divide => Ok((Ended::Divided(last), count)),
        Ran::Limit => Ok((Ended::Stopped, count)),
        Ran::NoMemory => Err(NoMemory),
    }
}
