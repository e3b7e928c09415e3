//! The command: what a play needs is read, in order, and the plan is played.
ghost use Rattle.std.specs.Prelude.{◌≡◌, IsTrue, IfErr, OnOk};
ghost use Rattle.plan_text.specs.Plans.{IsPlan};
ghost use Rattle.hook_table.specs.InHooks.{known_by};
ghost use Rattle.world_core.specs.Calls.{AreServing, cells_of};
ghost use Rattle.command_work.specs.Counts.{KeepsBut};
ghost use Rattle.command_work.specs.Calls.{DoesOn, TalliesOn};
ghost use Rattle.command_play.specs.Games.{plays_scripts, plays};
ghost use Rattle.command_play.specs.Tellings.{IsGameFile, KeepsTo, StopsGame};
ghost use Rattle.command_play.specs.Reads.{ReadsArea, ReadsGame};

use crate::play::play_plan;
use crate::remarks::Remarks;
use command_sources::read_table;
use command_work::Status;
use hook_table::Hooks;
use ncs_machine::PlaySetting;
use nwq_outside::{Files, Sink};
use nwq_value::Table;
use plan_text::Plan;
use play_inputs::{list_scripts, read_area, read_plan_file};
use std::alloc::Global;

/// What the words of a play name: header, area, plan, and the file in which the area is left.
#[derive(Clone, Copy)]
pub struct GameNames<'a> {
    pub header: &'a str,
    pub area: &'a str,
    pub plan: &'a str,
    pub to: &'a str,
}

/// Lists the scripts of a plan, reads the area and plays the plan over it.
fn play_scripts<F: Files, S: Sink>(
    alloc: Global,
    table: &Table,
    game: GameNames<'_>,
    plan: &Plan,
    hooks: &Hooks,
    files: &mut F,
    out: &mut S,
    remarks: &mut Remarks,
) -> Result<(), Status>
    requires hooks { AreServing (known_by hooks.now) }
    requires plan { IsPlan plan.now }
    ensures does { IsTrue F.tells → IsTrue S.tells → DoesOn F.contents S.taken (plays_scripts
        (cells_of (known_by hooks.now)) game.entry.area.now plan.now game.entry.to.now table.now)
        files.old out.old result files.new out.new }
    ensures keeps { KeepsTo F.counts S.faults F.contents (IsGameFile game.entry.to.now) StopsGame
        result files.old out.old files.new out.new }
    ensures once { IsTrue F.tells → OnOk result (ReadsArea plan.now.scripts (F.contents files.old)
        (F.reads files.old) (F.reads files.new)) }
{
    match list_scripts(alloc, table, plan.scripts.as_slice(), files, out) {
        Err(status) => Err(status),
        Ok(scripts) => match read_area(alloc, game.area, files, out) {
            Err(status) => {
                drop(scripts);
                Err(status)
            }
            Ok(area) => {
                let setting = PlaySetting::of(&scripts, table, hooks);
                play_plan(alloc, &setting, area, plan, game.to, files, out, remarks)
            }
        },
    }
}

/// Plays a plan over an area, under the header that a word names, and leaves the area of a play
/// that is done in the file `to`. It and the files of bytecode of scripts alone are written.
#[tactic(auto, using(crate::proofs::StopLemmas::stops))]
pub fn play_files<F: Files, S: Sink>(
    alloc: Global,
    game: GameNames<'_>,
    hooks: &Hooks,
    files: &mut F,
    out: &mut S,
    remarks: &mut Remarks,
) -> Result<(), Status>
    requires hooks { AreServing (known_by hooks.now) }
    ensures does { IsTrue F.tells → IsTrue S.tells → DoesOn F.contents S.taken (plays
        (cells_of (known_by hooks.now)) game.entry.header.now game.entry.area.now
        game.entry.plan.now game.entry.to.now) files.old out.old result files.new out.new }
    ensures counts { TalliesOn F.counts S.faults result files.old out.old files.new out.new }
    ensures names { KeepsBut (IsGameFile game.entry.to.now)
        (F.contents files.old) (F.contents files.new) }
    // Each file is read once: the plan, the header, those of each script, and the area.
    ensures once { IsTrue F.tells → IsTrue S.tells → OnOk result (ReadsGame game.entry.header.now
        game.entry.plan.now (F.contents files.old) (F.reads files.old) (F.reads files.new)) }
    ensures only { IfErr result StopsGame }
{
    match read_plan_file(alloc, game.plan, files, out) {
        Err(status) => Err(status),
        Ok(plan) => match read_table(alloc, game.header, files, out) {
            Err(status) => {
                drop(plan);
                Err(status)
            }
            Ok(table) => play_scripts(alloc, &table, game, &plan, hooks, files, out, remarks),
        },
    }
}
