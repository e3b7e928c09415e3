//! The play of a made play's code.
ghost use Rattle.std.specs.Prelude.{◌≡◌, ◌≤◌, List, codes, IsTrue, IfErr};
ghost use Rattle.nwq_value.specs.HeaderTable.{header_table};
ghost use Rattle.nwq_outside.specs.Outside.{Contents};
ghost use Rattle.ncs_code.specs.Plain.{PlainOp};
ghost use Rattle.hook_table.specs.InHooks.{known_by};
ghost use Rattle.stack_rules.specs.Rules.{MeetsRules};
ghost use Rattle.stack_check.specs.Checked.{kept_table};
ghost use Rattle.world_core.specs.Calls.{AreServing, cells_of};
ghost use Rattle.ncs_machine.specs.InSetting.{seen};
ghost use Rattle.ncs_machine.specs.Settings.{scripts_in};
ghost use Rattle.plan_text.specs.Plans.{IsPlan};
ghost use Rattle.play_generator.specs.Made.{number_limit};
ghost use Rattle.play_worlds.specs.Worlds.{plan_world};
ghost use Rattle.command_plays.specs.Plays.{plan_played_in};
ghost use Rattle.command_plays.specs.Scripts.{listed};
ghost use Rattle.nwq_outside.specs.declared.counts.FileCounts.{FileCounts};
ghost use Rattle.command_work.specs.Work.{Does};
ghost use Rattle.command_work.specs.Counts.{Counted, Tallies, Refusing};
ghost use Rattle.command_generate.specs.Generated.{IsMade, tells, plays_made};

use crate::kinds::Kept;
use crate::made::{made_area, made_plan};
use crate::summary::tell;
use area_tree::Area;
use command_plays::{list_one, play_lines};
use command_work::Status;
use hook_table::Hooks;
use ncs_machine::PlaySetting;
use nwq_outside::Sink;
use nwq_value::{NoMemory, Table};
use plan_text::Plan;
use play_generator::Made;
use stack_check::Checked;
use std::alloc::Global;
use trace_lines::plays_tell_lines;

/// Plays the plan of a number over an area, and tells the play.
#[tactic(auto, using(crate::proofs::PlayLemmas::plays))]
fn play_over<S: Sink>(
    alloc: Global,
    setting: &PlaySetting<'_, '_>,
    number: u32,
    area: Area,
    plan: &Plan,
    out: &mut S,
) -> Result<(), Status>
    requires header { setting.now.code.table ≡ header_table }
    requires number { number ≤ number_limit }
    requires plan { IsPlan plan.now }
    ensures does { IsTrue S.tells → (c : Contents) → Does (tells number (plan_played_in
        (seen setting.now) plan.now (plan_world area plan.now))) c (S.taken out.old) result c
        (S.taken out.new) }
    ensures counts { (counts : FileCounts) → Tallies result (Counted counts (S.faults out.old))
        (Counted counts (S.faults out.new)) }
    ensures only { IfErr result (Refusing Status.Limit) }
{
    plays_tell_lines();
    let mut trace = Kept::new(alloc);
    match play_lines(alloc, setting, area, plan, &mut trace) {
        Err(status) => Err(status),
        Ok((world, played)) => {
            let clock = world.clock();
            drop(world);
            tell(alloc, number, trace.bytes(), clock, &played, out)
        }
    }
}

/// Plays the one listed script as the plan of a number has it.
#[tactic(auto, using(crate::proofs::PlayLemmas::made))]
fn play_listed<S: Sink>(
    alloc: Global,
    setting: &PlaySetting<'_, '_>,
    number: u32,
    made: &Made,
    out: &mut S,
) -> Result<(), Status>
    requires made { IsMade setting.now.code.table number made.now }
    ensures does { IsTrue S.tells → (ops : List PlainOp) → scripts_in (seen setting.now) ≡ listed
        (codes "beat") ops → (c : Contents) → Does (plays_made (cells_of (seen setting.now).hooks)
        number ops) c (S.taken out.old) result c (S.taken out.new) }
    ensures counts { (counts : FileCounts) → Tallies result (Counted counts (S.faults out.old))
        (Counted counts (S.faults out.new)) }
    ensures only { IfErr result (Refusing Status.Limit) }
{
    match made_area(alloc, made.creatures()) {
        Err(NoMemory) => Err(Status::Memory),
        Ok(area) => match made_plan(alloc, number, made.plan()) {
            Err(NoMemory) => {
                drop(area);
                Err(Status::Memory)
            }
            Ok(plan) => play_over(alloc, setting, number, area, &plan, out),
        },
    }
}

/// Plays checked code as the one script of the plan of a number.
#[tactic(auto, using(crate::proofs::PlayLemmas::made))]
pub(crate) fn play_code<S: Sink>(
    alloc: Global,
    table: &Table,
    number: u32,
    made: &Made,
    code: Checked,
    hooks: &Hooks,
    out: &mut S,
) -> Result<(), Status>
    requires made { IsMade table.now number made.now }
    requires meets { MeetsRules table.now code.code (kept_table code) }
    requires hooks { AreServing (known_by hooks.now) }
    ensures does { IsTrue S.tells → (c : Contents) → Does (plays_made (cells_of (known_by
        hooks.now)) number code.code) c (S.taken out.old) result c (S.taken out.new) }
    ensures counts { (counts : FileCounts) → Tallies result (Counted counts (S.faults out.old))
        (Counted counts (S.faults out.new)) }
    ensures only { IfErr result (Refusing Status.Limit) }
{
    match list_one(alloc, b"beat", code) {
        Err(NoMemory) => Err(Status::Memory),
        Ok(scripts) => {
            let setting = PlaySetting::of(&scripts, table, hooks);
            play_listed(alloc, &setting, number, made, out)
        }
    }
}
