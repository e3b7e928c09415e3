//! The code of a script that a plan lists.
ghost use Rattle.std.specs.Prelude.{◌≡◌, ℕ, string_bytes, IsTrue, IfOk, IfErr};
ghost use Rattle.std.specs.Prelude.{OnOk};
ghost use Rattle.nwq_text.specs.Names.{is_script_name};
ghost use Rattle.command_work.specs.Counts.{KeepsBut};
ghost use Rattle.command_work.specs.Calls.{DoesOn, TalliesOn, IsName};
ghost use Rattle.command_sources.specs.Reads.{ReadsUnit};
ghost use Rattle.command_files.specs.Checks.{plain_checked_answer, KeepsTable};
ghost use Rattle.command_compile.specs.Files.{code_name};
ghost use Rattle.play_inputs.specs.Listings.{source_named, code_by, script_in};
ghost use Rattle.play_inputs.specs.Listings.{IsOwnFile, StopsListing, script_answer};
ghost use Rattle.play_inputs.specs.Reads.{ReadsCode};

use command_compile::{code_name, read_compiled};
use command_files::{load_checked, read_checked};
use command_work::{Status, write_file};
use ncs_machine::Loaded;
use nwq_outside::{Files, Sink};
use nwq_value::{NoMemory, Table};
use plan_text::Script;
use stack_check::Checked;
use std::alloc::Global;

/// The name of a script.
#[tactic(auto, using(crate::proofs::NameLemmas::script_is_utf8))]
fn script_name(alloc: Global, name: &[u8]) -> Result<String, NoMemory>
    requires named { IsTrue (is_script_name name.now) }
    ensures same { IfOk result (λ text. string_bytes text ≡ name.now) }
{
    Ok(String::from_utf8_lossy(alloc, name)?)
}

/// Compiles the source of this name under a header, writes its file and checks its code.
#[tactic(auto, using(crate::proofs::Steps::steps, crate::proofs::StopLemmas::stops, command_work::specs::KeepsLemmas::keeps_all), unfolding(crate::specs::Listings::source_named))]
fn read_source<F: Files, S: Sink>(
    alloc: Global,
    table: &Table,
    name: &str,
    file: &str,
    files: &mut F,
    out: &mut S,
) -> Result<Checked, Status>
    requires file { file.now ≡ code_name name.now }
    ensures does { IsTrue F.tells → IsTrue S.tells → DoesOn F.contents S.taken (source_named
        table.now name.now) files.old out.old (plain_checked_answer result) files.new out.new }
    ensures counts { TalliesOn F.counts S.faults result files.old out.old files.new out.new }
    ensures names { KeepsBut (IsName file.now) (F.contents files.old) (F.contents files.new) }
    ensures once { IsTrue F.tells → OnOk result (ReadsUnit (F.contents files.old) name.now
        (F.reads files.old) (F.reads files.new)) }
    ensures kept { IfOk result (KeepsTable table.now) }
    ensures only { IfErr result StopsListing }
{
    match read_compiled(alloc, table, name, files, out) {
        Err(status) => Err(status),
        Ok(bytes) => match write_file(file, bytes.as_slice(), files) {
            Err(status) => {
                drop(bytes);
                Err(status)
            }
            Ok(()) => load_checked(alloc, table, file.as_bytes(), bytes.into_vec(), out),
        },
    }
}

/// The code of the script of a plan's line.
#[tactic(auto, using(crate::proofs::CodeLemmas::code_wanted, crate::proofs::CodeLemmas::coded, crate::proofs::StopLemmas::stops, command_work::specs::KeepsLemmas::keeps_all))]
fn read_code<F: Files, S: Sink>(
    alloc: Global,
    table: &Table,
    line: &Script,
    files: &mut F,
    out: &mut S,
) -> Result<Checked, Status>
    requires named { IsTrue (is_script_name line.now.name) }
    ensures does { IsTrue F.tells → IsTrue S.tells → DoesOn F.contents S.taken
        (code_by line.now.binary table.now line.now.name)
        files.old out.old (plain_checked_answer result) files.new out.new }
    ensures counts { TalliesOn F.counts S.faults result files.old out.old files.new out.new }
    ensures names { KeepsBut (IsOwnFile line.now) (F.contents files.old) (F.contents files.new) }
    ensures once { IsTrue F.tells → OnOk result (ReadsCode line.now.binary (F.contents files.old)
        line.now.name (F.reads files.old) (F.reads files.new)) }
    ensures kept { IfOk result (KeepsTable table.now) }
    ensures only { IfErr result StopsListing }
{
    match script_name(alloc, line.name.bytes()) {
        Err(NoMemory) => Err(Status::Memory),
        Ok(name) => match code_name(alloc, &name) {
            Err(NoMemory) => Err(Status::Memory),
            Ok(file) => {
                if line.binary {
                    read_checked(alloc, table, &file, files, out)
                } else {
                    read_source(alloc, table, &name, &file, files, out)
                }
            }
        },
    }
}

/// The script of a plan's line, by which it is played.
#[tactic(auto, using(crate::proofs::Steps::steps, crate::proofs::CodeLemmas::plays, command_work::specs::KeepsLemmas::keeps_all), unfolding(crate::specs::Listings::script_in))]
pub(crate) fn read_script<F: Files, S: Sink>(
    alloc: Global,
    table: &Table,
    line: &Script,
    files: &mut F,
    out: &mut S,
) -> Result<Loaded, Status>
    requires named { IsTrue (is_script_name line.now.name) }
    ensures does { IsTrue F.tells → IsTrue S.tells → DoesOn F.contents S.taken
        (script_in table.now line.now) files.old out.old (script_answer result) files.new out.new }
    ensures counts { TalliesOn F.counts S.faults result files.old out.old files.new out.new }
    ensures names { KeepsBut (IsOwnFile line.now) (F.contents files.old) (F.contents files.new) }
    ensures once { IsTrue F.tells → OnOk result (ReadsCode line.now.binary (F.contents files.old)
        line.now.name (F.reads files.old) (F.reads files.new)) }
    ensures kept { IfOk result (λ loaded. KeepsTable table.now loaded.code) }
    ensures name { IfOk result (λ loaded. loaded.name ≡ line.now.name) }
    ensures only { IfErr result StopsListing }
{
    match line.name.copy(alloc) {
        Err(NoMemory) => Err(Status::Memory),
        Ok(name) => match read_code(alloc, table, line, files, out) {
            Err(status) => {
                drop(name);
                Err(status)
            }
            Ok(code) => match Loaded::of(alloc, name, code) {
                Err(NoMemory) => Err(Status::Memory),
                Ok(loaded) => Ok(loaded),
            },
        },
    }
}
