//! The play of a compiled file.
ghost use Rattle.std.specs.Prelude.{◌≡◌, ◌≤◌, List, length, IsTrue, IfErr};
ghost use Rattle.nwq_value.specs.Limits.{file_limit};
ghost use Rattle.ncs_code.specs.Plain.{PlainOp};
ghost use Rattle.hook_table.specs.InHooks.{known_by};
ghost use Rattle.stack_rules.specs.Rules.{MeetsRules};
ghost use Rattle.stack_check.specs.Checked.{kept_table};
ghost use Rattle.world_core.specs.Calls.{AreServing, cells_of};
ghost use Rattle.ncs_machine.specs.InSetting.{seen};
ghost use Rattle.ncs_machine.specs.Settings.{scripts_in};
ghost use Rattle.module_player.specs.Limits.{limits_in};
ghost use Rattle.command_work.specs.Counts.{Refusing};
ghost use Rattle.command_work.specs.Calls.{TalliesPuts, DoesPuts};
ghost use Rattle.command_files.specs.Checks.{IsStackedFile};
ghost use Rattle.command_plays.specs.Scripts.{listed, plays_code, plays_file};
ghost use Rattle.command_run.specs.Tellings.{default_limits, StopsPlay};

use crate::telling::tell_end;
use command_files::load_checked;
use command_play::Remarks;
use command_plays::{list_one, play_world};
use command_work::Status;
use hook_table::Hooks;
use module_player::PlayLimits;
use ncs_machine::PlaySetting;
use nwq_outside::Sink;
use nwq_value::{NoMemory, Table};
use play_worlds::first_world;
use stack_check::Checked;
use std::alloc::Global;

/// The instructions that an entry may take.
const INSTRUCTIONS: u64 = 131_072;

/// The entries that a play may take.
const ENTRIES: u64 = 10_000;

/// The milliseconds after which no entry is taken.
const UNTIL: u64 = 60_000;

/// How far a play may go where nothing is set.
fn limits() -> PlayLimits
    ensures default { limits_in result ≡ default_limits }
{
    PlayLimits {
        instructions: INSTRUCTIONS,
        entries: ENTRIES,
        until: UNTIL,
    }
}

/// Plays the one listed script from a start of it, and tells the play.
#[tactic(auto, using(crate::proofs::PlayLemmas::starts, crate::proofs::TellLemmas::cut_refuses))]
fn play_listed<S: Sink>(
    alloc: Global,
    setting: &PlaySetting<'_, '_>,
    name: &[u8],
    out: &mut S,
    remarks: &mut Remarks,
) -> Result<(), Status>
    ensures does { IsTrue S.tells → (ops : List PlainOp) → scripts_in (seen setting.now) ≡ listed
        name.now ops → DoesPuts S.taken (plays_code (cells_of (seen setting.now).hooks)
        setting.now.code.table name.now ops) out.old result out.new }
    ensures counts { TalliesPuts S.faults result out.old out.new }
    ensures only { IfErr result (Refusing Status.Limit) }
{
    match first_world(alloc, name) {
        Err(NoMemory) => Err(Status::Memory),
        Ok(world) => match play_world(alloc, setting, world, limits(), out) {
            Err(status) => Err(status),
            Ok((world, played)) => tell_end(
                alloc,
                world,
                setting.code.scripts(),
                &played,
                out,
                remarks,
            ),
        },
    }
}

/// Plays checked code as the one script of this name.
#[tactic(auto, using(crate::proofs::PlayLemmas::code_cut))]
fn play_code<S: Sink>(
    alloc: Global,
    table: &Table,
    name: &[u8],
    code: Checked,
    hooks: &Hooks,
    out: &mut S,
    remarks: &mut Remarks,
) -> Result<(), Status>
    requires meets { MeetsRules table.now code.code (kept_table code) }
    requires hooks { AreServing (known_by hooks.now) }
    ensures does { IsTrue S.tells → DoesPuts S.taken (plays_code (cells_of (known_by hooks.now))
        table.now name.now code.code) out.old result out.new }
    ensures counts { TalliesPuts S.faults result out.old out.new }
    ensures only { IfErr result (Refusing Status.Limit) }
{
    match list_one(alloc, name, code) {
        Err(NoMemory) => Err(Status::Memory),
        Ok(scripts) => {
            let setting = PlaySetting::of(&scripts, table, hooks);
            play_listed(alloc, &setting, name, out, remarks)
        }
    }
}

/// Loads the bytes of the file of a compiled script, checks its code and plays it.
#[tactic(auto, using(crate::proofs::PlayLemmas::stops))]
pub fn play_file<S: Sink>(
    alloc: Global,
    table: &Table,
    name: &[u8],
    file: &[u8],
    bytes: Vec<u8>,
    hooks: &Hooks,
    out: &mut S,
    remarks: &mut Remarks,
) -> Result<(), Status>
    requires small { length bytes.items ≤ file_limit }
    requires hooks { AreServing (known_by hooks.now) }
    ensures does { IsTrue S.tells → DoesPuts S.taken (plays_file (cells_of (known_by hooks.now))
        table.now name.now file.now bytes.items) out.old result out.new }
    ensures counts { TalliesPuts S.faults result out.old out.new }
    ensures only { IfErr result StopsPlay }
    // A file of well stacked instructions is never refused.
    ensures passes { IsStackedFile table.now bytes.items → IfErr result (Refusing Status.Limit) }
{
    match load_checked(alloc, table, file, bytes, out) {
        Err(status) => Err(status),
        Ok(code) => play_code(alloc, table, name, code, hooks, out, remarks),
    }
}
