//! The command that saves: what a play needs is read, in order, and some entries of the plan are
//! played.
ghost use Rattle.std.specs.Prelude.{◌≡◌, ◌≤◌, IsTrue, IfErr, OnOk};
ghost use Rattle.nwq_outside.specs.Outside.{next};
ghost use Rattle.hook_table.specs.InHooks.{known_by};
ghost use Rattle.world_core.specs.Calls.{AreServing, cells_of};
ghost use Rattle.ncs_machine.specs.Host.{scripts_of};
ghost use Rattle.play_save.specs.Rules.{IsAreaOf, IsHeaderOf};
ghost use Rattle.command_work.specs.Counts.{KeepsBut};
ghost use Rattle.command_work.specs.Calls.{DoesOn, TalliesOn, IsName};
ghost use Rattle.command_sources.specs.Reads.{header_read};
ghost use Rattle.command_play.specs.Reads.{ReadsArea, ReadsGame};
ghost use Rattle.command_play.specs.Tellings.{IsGameFile, KeepsTo, StopsGame};
ghost use Rattle.command_save.specs.Saves.{saves, saves_area, saves_plan, saves_scripts};
ghost use Rattle.command_save.specs.Saves.{saves_under};
ghost use Rattle.command_save.specs.Tellings.{MayBegin, TakesSome};

use crate::inputs::{AreaFile, HeaderFile, read_area_file, read_header};
use crate::saving::{ListedPlan, broken_off, save_broken};
use command_play::Remarks;
use command_plays::play_first;
use command_work::Status;
use hook_table::Hooks;
use module_player::plays_can_rest;
use ncs_machine::PlaySetting;
use nwq_outside::{Files, Sink};
use plan_text::Plan;
use play_inputs::{list_scripts, read_plan_file};
use play_worlds::plan_worlds_are_fresh;
use std::alloc::Global;

/// What the words of a save name: header, area, plan, how many entries are taken, and the file in
/// which the state is left.
#[derive(Clone, Copy)]
pub struct SaveWords<'a> {
    pub header: &'a str,
    pub area: &'a str,
    pub plan: &'a str,
    pub entries: u64,
    pub state: &'a str,
}

/// The header and the area of a play, by their files.
#[derive(Drop)]
struct PlayFiles {
    header: HeaderFile,
    area: AreaFile,
}

/// Plays so many entries of a plan over an area, and saves the play.
#[tactic(auto, using(crate::proofs::PartLemmas::parts))]
fn save_plan<F: Files, S: Sink>(
    alloc: Global,
    given: PlayFiles,
    listed: &ListedPlan<'_>,
    words: SaveWords<'_>,
    hooks: &Hooks,
    files: &mut F,
    out: &mut S,
    remarks: &mut Remarks,
) -> Result<(), Status>
    requires begins { MayBegin given.header listed.now.plan.now listed.now.scripts.now
        words.entries }
    requires hooks { AreServing (known_by hooks.now) }
    requires area { IsAreaOf given.area.area.tree given.area.bytes }
    ensures does { IsTrue F.tells → IsTrue S.tells → DoesOn F.contents S.taken (saves_plan (cells_of
        (known_by hooks.now)) given.header listed.now.plan.now (scripts_of listed.now.scripts.now)
        words.entry.entries words.entry.state.now given.area) files.old out.old result files.new
        out.new }
    ensures keeps { KeepsTo F.counts S.faults F.contents (IsName words.entry.state.now) StopsGame
        result files.old out.old files.new out.new }
    ensures unread { F.reads files.new ≡ F.reads files.old }
{
    plays_can_rest();
    plan_worlds_are_fresh();
    let PlayFiles { header, area } = given;
    let AreaFile { bytes, area } = area;
    let setting = PlaySetting::of(listed.scripts, &header.table, hooks);
    match play_first(alloc, &setting, area, listed.plan, words.entries, out) {
        Err(status) => {
            drop(header);
            drop(bytes);
            Err(status)
        }
        Ok((world, played)) => {
            let broken = broken_off(alloc, world, played, listed.scripts, remarks);
            save_broken(
                alloc,
                header,
                bytes,
                listed,
                broken,
                words.state,
                files,
                out,
            )
        }
    }
}

/// Reads the area, plays so many entries of a plan over it, and saves the play.
fn save_area<F: Files, S: Sink>(
    alloc: Global,
    header: HeaderFile,
    listed: &ListedPlan<'_>,
    words: SaveWords<'_>,
    hooks: &Hooks,
    files: &mut F,
    out: &mut S,
    remarks: &mut Remarks,
) -> Result<(), Status>
    requires begins { MayBegin header listed.now.plan.now listed.now.scripts.now words.entries }
    requires hooks { AreServing (known_by hooks.now) }
    ensures does { IsTrue F.tells → IsTrue S.tells → DoesOn F.contents S.taken (saves_area
        (cells_of (known_by hooks.now)) header words.entry.area.now listed.now.plan.now
        words.entry.entries words.entry.state.now (scripts_of listed.now.scripts.now)) files.old
        out.old result files.new out.new }
    ensures keeps { KeepsTo F.counts S.faults F.contents (IsName words.entry.state.now) StopsGame
        result files.old out.old files.new out.new }
    ensures once { F.reads files.new ≡ next (F.reads files.old) }
{
    match read_area_file(alloc, words.area, files, out) {
        Err(status) => {
            drop(header);
            Err(status)
        }
        Ok(area) => {
            let given = PlayFiles { header, area };
            save_plan(alloc, given, listed, words, hooks, files, out, remarks)
        }
    }
}

/// Lists the scripts of a plan, plays so many of its entries over the area of this name, and saves
/// the play.
fn save_scripts<F: Files, S: Sink>(
    alloc: Global,
    words: SaveWords<'_>,
    plan: &Plan,
    header: HeaderFile,
    hooks: &Hooks,
    files: &mut F,
    out: &mut S,
    remarks: &mut Remarks,
) -> Result<(), Status>
    requires header { IsHeaderOf header.text header.table }
    requires hooks { AreServing (known_by hooks.now) }
    requires takes { TakesSome plan.now words.entries }
    ensures does { IsTrue F.tells → IsTrue S.tells → DoesOn F.contents S.taken (saves_scripts
        (cells_of (known_by hooks.now)) words.entry.area.now plan.now words.entry.entries
        words.entry.state.now header) files.old out.old result files.new out.new }
    ensures keeps { KeepsTo F.counts S.faults F.contents (IsGameFile words.entry.state.now)
        StopsGame result files.old out.old files.new out.new }
    ensures once { IsTrue F.tells → OnOk result (ReadsArea plan.now.scripts (F.contents files.old)
        (F.reads files.old) (F.reads files.new)) }
{
    match list_scripts(alloc, &header.table, plan.scripts.as_slice(), files, out) {
        Err(status) => {
            drop(header);
            Err(status)
        }
        Ok(scripts) => {
            let listed = ListedPlan {
                plan,
                scripts: &scripts,
            };
            save_area(alloc, header, &listed, words, hooks, files, out, remarks)
        }
    }
}

/// Reads the header that a word names, plays so many entries of a plan under it, and saves the
/// play.
fn save_under<F: Files, S: Sink>(
    alloc: Global,
    words: SaveWords<'_>,
    plan: &Plan,
    hooks: &Hooks,
    files: &mut F,
    out: &mut S,
    remarks: &mut Remarks,
) -> Result<(), Status>
    requires hooks { AreServing (known_by hooks.now) }
    requires takes { TakesSome plan.now words.entries }
    ensures does { IsTrue F.tells → IsTrue S.tells → DoesOn F.contents S.taken (saves_under
        (cells_of (known_by hooks.now)) words.entry.header.now words.entry.area.now
        words.entry.entries words.entry.state.now plan.now) files.old out.old result files.new
        out.new }
    ensures keeps { KeepsTo F.counts S.faults F.contents (IsGameFile words.entry.state.now)
        StopsGame result files.old out.old files.new out.new }
    ensures once { IsTrue F.tells → OnOk result (ReadsArea plan.now.scripts (F.contents files.old)
        (header_read words.entry.header.now (F.reads files.old)) (F.reads files.new)) }
{
    match read_header(alloc, words.header, files, out) {
        Err(status) => Err(status),
        Ok(header) => save_scripts(alloc, words, plan, header, hooks, files, out, remarks),
    }
}

/// Plays so many entries of a plan over an area, under the header that a word names, and saves the
/// play in the file of the state.
#[tactic(auto, using(crate::proofs::StopLemmas::stops))]
pub fn save_play<F: Files, S: Sink>(
    alloc: Global,
    words: SaveWords<'_>,
    hooks: &Hooks,
    files: &mut F,
    out: &mut S,
    remarks: &mut Remarks,
) -> Result<(), Status>
    requires hooks { AreServing (known_by hooks.now) }
    requires some { 1 ≤ words.entries }
    ensures does { IsTrue F.tells → IsTrue S.tells → DoesOn F.contents S.taken (saves (cells_of
        (known_by hooks.now)) words.entry.header.now words.entry.area.now words.entry.plan.now
        words.entry.entries words.entry.state.now) files.old out.old result files.new out.new }
    ensures counts { TalliesOn F.counts S.faults result files.old out.old files.new out.new }
    // The files of bytecode of scripts, and the file of the state, alone are written.
    ensures names { KeepsBut (IsGameFile words.entry.state.now)
        (F.contents files.old) (F.contents files.new) }
    // Each file is read once: the plan, the header, those of each script, and the area.
    ensures once { IsTrue F.tells → IsTrue S.tells → OnOk result (ReadsGame words.entry.header.now
        words.entry.plan.now (F.contents files.old) (F.reads files.old) (F.reads files.new)) }
    ensures only { IfErr result StopsGame }
{
    match read_plan_file(alloc, words.plan, files, out) {
        Err(status) => Err(status),
        Ok(plan) => save_under(alloc, words, &plan, hooks, files, out, remarks),
    }
}
