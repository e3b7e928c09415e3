//! An entry from its begin to its end.
ghost use Rattle.std.specs.Prelude.{◌≡◌, ◌≤◌, Some, IfSome};
ghost use Rattle.hook_table.specs.InHooks.{known_by};
ghost use Rattle.machine_rules.specs.Runs.{entry, run as run_of};
ghost use Rattle.stack_rules.specs.Safe.{IsSafeFrame};
ghost use Rattle.ncs_machine.specs.Begins.{MayBegin, MayRun, RunsAlone};
ghost use Rattle.ncs_machine.specs.Endings.{IsCut, IsRunOf, WhereCut};
ghost use Rattle.ncs_machine.specs.Host.{engine_view, first_frame, host, run_from, scripts_of};
ghost use Rattle.ncs_machine.specs.Host.{tables_of};
ghost use Rattle.ncs_machine.specs.InSetting.{seen};
ghost use Rattle.ncs_machine.specs.Remarks.{MayRemark, WhereStopped, begun_as};
ghost use Rattle.ncs_machine.specs.Settings.{IsSet, checked_listing, code_setting};
ghost use Rattle.ncs_machine.specs.Settings.{host_in, scripts_in, tables_in};
ghost use Rattle.ncs_machine.specs.Steps.{state};

use crate::begun::Begun;
use crate::machine::{Machine, StepOutcome};
use crate::remarks::end_remark;
use crate::scene::Scene;
use crate::scripts::{Begin, Scripts};
use crate::setting::PlaySetting;
use hook_table::Hooks;
use machine_frames::Frame;
use nwq_value::Table;
use play_remarks::Remark;
use saved_state::Saved;
use stack_rules::{entries_begin_safely, steps_are_safe, tables_type_execute_script};
use std::alloc::Global;
use world_core::{World, answers_have_types};
use world_rules::calls_keep_worlds;

/// How a run ends.
#[derive(Clone, Copy)]
pub enum Ran {
    /// The entry's last script is over.
    Ended,
    /// A divisor is 0, which ends the whole entry.
    Divide,
    /// The next instruction would be one more than the limit allows.
    Limit,
    /// The instructions that are counted were executed, and the next one wasn't finished.
    NoMemory,
}

/// The run of frames of which only one runs yet: how it ends, how many instructions it takes, and
/// the object on which the last script ran.
#[inline(never)]
#[tactic(auto, using(crate::proofs::Running::run_lemmas))]
fn run_machine(
    alloc: Global,
    scripts: &Scripts,
    machine: &mut Machine,
    world: &mut World<Saved>,
    hooks: &Hooks,
    table: &Table,
    limit: u64,
) -> (Ran, u64, u32)
    requires set { IsSet (code_setting (checked_listing scripts.now table.now)
        (known_by hooks.now)) }
    requires runs { MayRun limit machine.old.running.self world.old.world }
    requires begins { RunsAlone (scripts_of scripts.now) (tables_of scripts.now) machine.old }
    ensures room { world.old.room ≤ world.new.room }
    ensures run { IsRunOf result.0 result.1 result.2 (run_of (host (scripts_of scripts.now)
        (engine_view table.now (known_by hooks.now))) limit (state machine.old world.old.world))
        (scripts_of scripts.now) (tables_of scripts.now) world.old.world world.new.world }
    ensures cut { WhereCut result.0 (IsCut (host (scripts_of scripts.now)
        (engine_view table.now (known_by hooks.now))) result.1 result.2
        (state machine.old world.old.world) world.new.world) }
    ensures last { WhereStopped result.0 (state machine.new world.new.world ≡ (run_of
        (host (scripts_of scripts.now) (engine_view table.now (known_by hooks.now))) limit
        (state machine.old world.old.world)).last) }
{
    steps_are_safe::<Scene>();
    calls_keep_worlds::<Saved>();
    tables_type_execute_script();
    world.keeps();
    table.keeps();
    answers_have_types::<Saved>();
    let mut script = machine.script(scripts);
    let mut own = machine.own();
    for done in 0..limit {
        match machine.step(alloc, scripts, script, world, hooks, table) {
            Err(_) => return (Ran::NoMemory, done, own),
            Ok(next) => match next {
                StepOutcome::Goes => {}
                StepOutcome::Enters => {
                    script = machine.script(scripts);
                    own = machine.own();
                }
                StepOutcome::Ends => return (Ran::Ended, done + 1, own),
                StepOutcome::Divides => return (Ran::Divide, done + 1, own),
            },
        }
    }
    (Ran::Limit, limit, own)
}

/// The run of one frame, in a setting, and what is remarked of it where it ends before its end.
fn run_remarked(
    alloc: Global,
    setting: &PlaySetting<'_, '_>,
    frame: Frame,
    world: &mut World<Saved>,
    limit: u64,
) -> ((Ran, u64, u32), Option<Remark>)
    requires runs { MayRun limit frame.self world.old.world }
    requires safe { IsSafeFrame (scripts_in (seen setting.now)) (tables_in (seen setting.now))
        frame }
    ensures room { world.old.room ≤ world.new.room }
    ensures run { IsRunOf result.0.0 result.0.1 result.0.2 (run_of (host_in (seen setting.now))
        limit (entry frame world.old.world)) (scripts_in (seen setting.now))
        (tables_in (seen setting.now)) world.old.world world.new.world }
    ensures cut { WhereCut result.0.0 (IsCut (host_in (seen setting.now)) result.0.1 result.0.2
        (entry frame world.old.world) world.new.world) }
    ensures remark { IfSome result.1 (λ remark. MayRemark result.0.0 (begun_as frame) (run_of
        (host_in (seen setting.now)) limit (entry frame world.old.world)).last (Some remark)) }
{
    setting.code.keeps();
    let begun = Begun::of(&frame);
    let mut machine = Machine::of(alloc, frame);
    let ran = run_machine(
        alloc,
        setting.code.scripts(),
        &mut machine,
        world,
        setting.hooks,
        setting.code.table(),
        limit,
    );
    let remark = end_remark(alloc, ran.0, &begun, &machine, world);
    (ran, remark)
}

/// The run of one frame, in a setting.
fn run_frame(
    alloc: Global,
    setting: &PlaySetting<'_, '_>,
    frame: Frame,
    world: &mut World<Saved>,
    limit: u64,
) -> (Ran, u64, u32)
    requires runs { MayRun limit frame.self world.old.world }
    requires safe { IsSafeFrame (scripts_in (seen setting.now)) (tables_in (seen setting.now))
        frame }
    ensures room { world.old.room ≤ world.new.room }
    ensures run { IsRunOf result.0 result.1 result.2 (run_of (host_in (seen setting.now)) limit
        (entry frame world.old.world)) (scripts_in (seen setting.now))
        (tables_in (seen setting.now)) world.old.world world.new.world }
    ensures cut { WhereCut result.0 (IsCut (host_in (seen setting.now)) result.1 result.2
        (entry frame world.old.world) world.new.world) }
{
    let (ran, remark) = run_remarked(alloc, setting, frame, world, limit);
    if let Some(remark) = remark {
        world.remark(remark);
    }
    ran
}

/// The run of an entry that begins so, with `caller` as self: how it ends, how many instructions it
/// takes in all its scripts, and the object on which the last one ran.
#[tactic(auto, using(crate::proofs::Beginning::begin_lemmas))]
pub fn run(
    alloc: Global,
    setting: &PlaySetting<'_, '_>,
    script: u32,
    begin: Begin,
    world: &mut World<Saved>,
    caller: u32,
    limit: u64,
) -> (Ran, u64, u32)
    requires begins { MayBegin (seen setting.now) script begin }
    requires runs { MayRun limit caller world.old.world }
    ensures room { world.old.room ≤ world.new.room }
    ensures run { IsRunOf result.0 result.1 result.2 (run_from (host_in (seen setting.now)) limit
        script begin caller world.old.world) (scripts_in (seen setting.now))
        (tables_in (seen setting.now)) world.old.world world.new.world }
    ensures cut { WhereCut result.0 (IsCut (host_in (seen setting.now)) result.1 result.2 (entry
        (first_frame script begin caller) world.old.world) world.new.world) }
{
    entries_begin_safely();
    setting.code.keeps();
    match begin {
        Begin::Start => {
            let frame = Frame::started(alloc, script, caller);
            run_frame(alloc, setting, frame, world, limit)
        }
        Begin::Stored(saved) => match Frame::continued(alloc, saved, caller) {
            Err(_) => (Ran::NoMemory, 0, caller),
            Ok(frame) => run_frame(alloc, setting, frame, world, limit),
        },
    }
}
