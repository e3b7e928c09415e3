//! One agenda entry.
ghost use Rattle.std.specs.Prelude.{◌≡◌, ◌≤◌, ◌+◌, ℕ, IfOk, OnErr, OnOk, false};
ghost use Rattle.stack_rules.specs.Fits.{FitsOne};
ghost use Rattle.world_core.specs.Calls.{IsEarly};
ghost use Rattle.world_rules.specs.Turns.{turn_done, unapply};
ghost use Rattle.world_rules.specs.World.{count as object_count};
ghost use Rattle.machine_rules.specs.Runs.{run_stored};
ghost use Rattle.world_rules.specs.Plays.{entered_as, event_entry, finished, turn_entry};
ghost use Rattle.ncs_machine.specs.Begins.{MayBegin};
ghost use Rattle.ncs_machine.specs.Host.{run_from};
ghost use Rattle.ncs_machine.specs.InSetting.{seen};
ghost use Rattle.ncs_machine.specs.Settings.{host_in, scripts_in, tables_in};
ghost use Rattle.module_player.specs.CodePlays.{run_of, runner_in};
ghost use Rattle.module_player.specs.Cuts.{IsCutIn, IsDivided};
ghost use Rattle.module_player.specs.Entries.{HasActed, HasEntered, KeepsFits};
ghost use Rattle.module_player.specs.Entries.{run_with_ending};
ghost use Rattle.module_player.specs.Entries.{turn_taken};
ghost use Rattle.module_player.specs.Premises.{IsActor, IsReady, MayTake};

use crate::limits::PlayLimits;
use crate::scripts::{Ended, run_scripts};
use delay_agenda::{Entry, Kind};
use ncs_machine::{Begin, PlaySetting, entries_keep_fits};
use nwq_value::{NoMemory, Text};
use saved_state::Saved;
use std::alloc::Global;
use world_core::World;
use world_rules::entries_keep_worlds;

/// What came of an entry: whether it was stopped, and how many instructions its scripts took.
#[derive(Clone, Copy)]
pub struct Entered {
    pub stopped: bool,
    pub count: u64,
}

/// An entry that runs no script.
const QUIET: Entered = Entered {
    stopped: false,
    count: 0,
};

/// What is left of an entry once its scripts are over, where that is nothing but the line of a
/// division. Whether the entry was stopped.
fn finish(world: &mut World<Saved>, ended: Ended) -> Result<bool, NoMemory>
    ensures finished { IfOk result (λ stopped. (n : ℕ) → finished (λ v. v) (run_with_ending ended n
        world.old.world) ≡ record { stopped = stopped; count = n; world = world.new.world }) }
    ensures agenda { OnOk result (world.new.world.agenda ≡ world.old.world.agenda) }
    ensures things { OnOk result (world.new.world.things ≡ world.old.world.things) }
    ensures kept { OnErr result (world.new.world ≡ world.old.world) }
    ensures divided { OnErr result (IsDivided ended) }
{
    match ended {
        Ended::Over => Ok(false),
        Ended::Divided(object) => {
            world.fault(object)?;
            Ok(false)
        }
        Ended::Stopped => Ok(true),
    }
}

/// The same of a Turn, which is done then, unless it was stopped.
#[tactic(auto, using(crate::proofs::Entering::turn_lemmas))]
fn finish_turn(world: &mut World<Saved>, object: u32, ended: Ended) -> Result<bool, NoMemory>
    requires early { IsEarly world.old.world }
    requires actor { IsActor object world.old.world }
    requires room { 1 ≤ world.old.room }
    ensures finished { IfOk result (λ stopped. (n : ℕ) → finished (turn_done object)
        (run_with_ending ended n world.old.world)
        ≡ record { stopped = stopped; count = n; world = world.new.world }) }
    ensures few { OnOk result (world.new.world.agenda.next ≤ world.old.world.agenda.next + 1) }
    ensures fit { OnOk result (KeepsFits world.old.world world.new.world) }
    ensures kept { OnErr result (world.new.world ≡ world.old.world) }
    ensures divided { OnErr result (IsDivided ended) }
{
    entries_keep_worlds::<Saved>();
    entries_keep_fits();
    world.keeps();
    match ended {
        Ended::Over => {
            world.turn_done(object);
            Ok(false)
        }
        Ended::Divided(own) => {
            world.fault(own)?;
            world.turn_done(object);
            Ok(false)
        }
        Ended::Stopped => Ok(true),
    }
}

/// An entry that runs scripts and is over with them.
#[tactic(auto, using(crate::proofs::Entering::script_entered))]
fn script_entry(
    alloc: Global,
    setting: &PlaySetting<'_, '_>,
    world: &mut World<Saved>,
    script: u32,
    begin: Begin,
    object: u32,
    limits: PlayLimits,
) -> Result<Entered, NoMemory>
    requires begins { MayBegin (seen setting.now) script begin }
    requires ready { IsReady (seen setting.now) 1 world.old.world world.old.room }
    requires object { object ≤ object_count world.old.world }
    ensures entered { IfOk result (λ e. HasEntered (seen setting.now) limits.instructions e
        (finished (λ v. v) (run_of (run_from (host_in (seen setting.now)) limits.instructions script
        begin object world.old.world))) world.old.world world.new.world) }
    ensures cut { OnErr result (IsCutIn (λ n. finished (λ v. v) (run_of (run_from
        (host_in (seen setting.now)) n script begin object world.old.world))) limits.instructions
        world.old.world world.new.world) }
{
    let (ended, count) = run_scripts(alloc, setting, world, script, begin, object, limits)?;
    let stopped = finish(world, ended)?;
    Ok(Entered { stopped, count })
}

/// An event of an object, with the script of this name.
#[tactic(auto, using(crate::proofs::Entering::event_lemmas))]
fn event_entry(
    alloc: Global,
    setting: &PlaySetting<'_, '_>,
    world: &mut World<Saved>,
    object: u32,
    name: &Text,
    limits: PlayLimits,
) -> Result<Entered, NoMemory>
    requires ready { IsReady (seen setting.now) 1 world.old.world world.old.room }
    requires object { object ≤ object_count world.old.world }
    ensures entered { IfOk result (λ e. HasEntered (seen setting.now) limits.instructions e
        (event_entry (runner_in (seen setting.now) limits.instructions) object name.now
        world.old.world) world.old.world world.new.world) }
    ensures cut { OnErr result (IsCutIn (λ n. event_entry (runner_in (seen setting.now) n) object
        name.now world.old.world) limits.instructions world.old.world world.new.world) }
{
    if name.bytes().is_empty() {
        return Ok(QUIET);
    }
    setting.code.keeps();
    match setting.code.named(name) {
        None => {
            world.no_script(object, name)?;
            Ok(QUIET)
        }
        Some(script) => script_entry(
            alloc,
            setting,
            world,
            script as u32,
            Begin::Start,
            object,
            limits,
        ),
    }
}

/// A Turn that came to a stored action.
#[tactic(auto, using(crate::proofs::Entering::action_lemmas))]
fn action_entry(
    alloc: Global,
    setting: &PlaySetting<'_, '_>,
    world: &mut World<Saved>,
    object: u32,
    saved: Saved,
    limits: PlayLimits,
) -> Result<Entered, NoMemory>
    requires stored { FitsOne (scripts_in (seen setting.now)) (tables_in (seen setting.now)) saved }
    requires ready { IsReady (seen setting.now) 0 world.old.world world.old.room }
    requires actor { IsActor object world.old.world }
    ensures entered { IfOk result (λ e. HasActed (seen setting.now) limits.instructions e (finished
        (turn_done object) (run_of (run_stored (host_in (seen setting.now)) limits.instructions
        saved object world.old.world))) world.old.world world.new.world) }
    ensures cut { OnErr result (IsCutIn (λ n. finished (turn_done object) (run_of (run_stored
        (host_in (seen setting.now)) n saved object world.old.world))) limits.instructions
        world.old.world world.new.world) }
{
    let script = saved.script;
    let begin = Begin::Stored(saved);
    let (ended, count) = run_scripts(alloc, setting, world, script, begin, object, limits)?;
    let stopped = finish_turn(world, object, ended)?;
    Ok(Entered { stopped, count })
}

/// A Turn of an object.
#[tactic(auto, using(crate::proofs::Entering::turn_entry_lemmas))]
fn turn_entry(
    alloc: Global,
    setting: &PlaySetting<'_, '_>,
    world: &mut World<Saved>,
    object: u32,
    limits: PlayLimits,
) -> Result<Entered, NoMemory>
    requires ready { IsReady (seen setting.now) 1 world.old.world world.old.room }
    requires actor { IsActor object world.old.world }
    ensures entered { IfOk result (λ e. HasEntered (seen setting.now) limits.instructions e
        (turn_taken (runner_in (seen setting.now) limits.instructions) object world.old.world)
        world.old.world world.new.world) }
    ensures cut { OnErr result (IsCutIn (λ n. turn_taken (runner_in (seen setting.now) n) object
        world.old.world) limits.instructions world.old.world world.new.world) }
{
    entries_keep_worlds::<Saved>();
    entries_keep_fits();
    world.keeps();
    match world.turn(object)? {
        None => Ok(QUIET),
        Some(saved) => action_entry(alloc, setting, world, object, saved, limits),
    }
}

/// The end of an effect.
fn unapply_entry(world: &mut World<Saved>, object: u32, number: u64) -> Result<Entered, NoMemory>
    requires first { 1 ≤ object }
    requires within { object ≤ object_count world.old.world }
    ensures quiet { IfOk result (λ e. e ≡ record { stopped = false; count = 0 }) }
    ensures world { OnOk result (world.new.world ≡ unapply object number world.old.world) }
    ensures few { OnOk result (world.new.world.agenda.next ≤ world.old.world.agenda.next + 1) }
    ensures fit { OnOk result (KeepsFits world.old.world world.new.world) }
    ensures kept { OnErr result (world.new.world ≡ world.old.world) }
{
    entries_keep_worlds::<Saved>();
    entries_keep_fits();
    world.keeps();
    world.unapply(object, number)?;
    Ok(QUIET)
}

/// An entry that is begun.
#[tactic(auto, using(crate::proofs::Entering::entry_lemmas))]
pub(crate) fn enter(
    alloc: Global,
    setting: &PlaySetting<'_, '_>,
    world: &mut World<Saved>,
    entry: Entry<Saved>,
    limits: PlayLimits,
) -> Result<Entered, NoMemory>
    requires ready { IsReady (seen setting.now) 1 world.old.world world.old.room }
    requires takes { MayTake (seen setting.now) entry.kind world.old.world }
    ensures entered { IfOk result (λ e. HasEntered (seen setting.now) limits.instructions e
        (entered_as (runner_in (seen setting.now) limits.instructions) entry.kind entry.number
        world.old.world) world.old.world world.new.world) }
    ensures cut { OnErr result (IsCutIn (λ n. entered_as (runner_in (seen setting.now) n) entry.kind
        entry.number world.old.world) limits.instructions world.old.world world.new.world) }
{
    let Entry {
        due: _,
        number,
        kind,
    } = entry;
    match kind {
        Kind::Event {
            object,
            script,
            user: _,
        } => event_entry(alloc, setting, world, object, &script, limits),
        Kind::Stored { object, action } => {
            let script = action.script;
            let begin = Begin::Stored(action);
            script_entry(alloc, setting, world, script, begin, object, limits)
        }
        Kind::Turn { object } => turn_entry(alloc, setting, world, object, limits),
        Kind::Unapply { object } => unapply_entry(world, object, number),
    }
}
