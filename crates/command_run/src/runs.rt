ghost use Rattle.std.specs.Prelude.{◌≡◌, ◌≤◌, ℕ, length, IsTrue, IfErr, OnOk};
ghost use Rattle.nwq_value.specs.Limits.{file_limit};
ghost use Rattle.hook_table.specs.InHooks.{known_by};
ghost use Rattle.world_core.specs.Calls.{AreServing, cells_of};
ghost use Rattle.command_work.specs.Counts.{Refusing};
ghost use Rattle.command_work.specs.Calls.{DoesOn, TalliesOn, TalliesPuts, DoesPuts};
ghost use Rattle.command_sources.specs.Reads.{ReadsUnit, header_read};
ghost use Rattle.command_files.specs.Checks.{IsStackedFile};
ghost use Rattle.command_compile.specs.Files.{code_name};
ghost use Rattle.command_plays.specs.Scripts.{plays_file};
ghost use Rattle.command_run.specs.Runs.{runs, StopsRun};

use crate::play::play_file;
use command_compile::{code_name, read_compiled};
use command_play::Remarks;
use command_sources::read_table;
use command_work::Status;
use hook_table::Hooks;
use nwq_outside::{Files, Sink};
use nwq_value::{Items, NoMemory, Table};
use std::alloc::Global;

/// Plays the bytes of a script's file, which isn't written.
#[tactic(auto, using(crate::proofs::RunLemmas::file_wanted))]
fn play_compiled<S: Sink>(
    alloc: Global,
    table: &Table,
    script: &str,
    bytes: Items<u8>,
    hooks: &Hooks,
    out: &mut S,
    remarks: &mut Remarks,
) -> Result<(), Status>
    requires small { length bytes ≤ file_limit }
    requires stacked { IsStackedFile table.now bytes }
    requires hooks { AreServing (known_by hooks.now) }
    ensures does { IsTrue S.tells → DoesPuts S.taken (plays_file (cells_of (known_by hooks.now))
        table.now script.now (code_name script.now) bytes) out.old result out.new }
    ensures counts { TalliesPuts S.faults result out.old out.new }
    ensures only { IfErr result (Refusing Status.Limit) }
{
    match code_name(alloc, script) {
        Err(NoMemory) => Err(Status::Memory),
        Ok(file) => play_file(
            alloc,
            table,
            script.as_bytes(),
            file.as_bytes(),
            bytes.into_vec(),
            hooks,
            out,
            remarks,
        ),
    }
}

/// Plays one start entry of the script of this name, under the header that a word names.
#[tactic(auto, using(crate::proofs::StopLemmas::runs_stop))]
pub fn run<F: Files, S: Sink>(
    alloc: Global,
    header: &str,
    script: &str,
    files: &mut F,
    out: &mut S,
    hooks: &Hooks,
    remarks: &mut Remarks,
) -> Result<(), Status>
    requires hooks { AreServing (known_by hooks.now) }
    ensures does { IsTrue F.tells → IsTrue S.tells → DoesOn F.contents S.taken (runs (cells_of
        (known_by hooks.now)) header.now script.now) files.old out.old result files.new out.new }
    ensures counts { TalliesOn F.counts S.faults result files.old out.old files.new out.new }
    ensures same { F.contents files.new ≡ F.contents files.old }
    // The header is read, unless it is the built-in one, and each file of the script's unit, once.
    ensures once { IsTrue F.tells → OnOk result (ReadsUnit (F.contents files.old) script.now
        (header_read header.now (F.reads files.old)) (F.reads files.new)) }
    ensures only { IfErr result StopsRun }
{
    match read_table(alloc, header, files, out) {
        Err(status) => Err(status),
        Ok(table) => match read_compiled(alloc, &table, script, files, out) {
            Err(status) => {
                drop(table);
                Err(status)
            }
            Ok(bytes) => play_compiled(alloc, &table, script, bytes, hooks, out, remarks),
        },
    }
}
