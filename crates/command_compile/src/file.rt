ghost use Rattle.std.specs.Prelude.{◌≡◌, ◌<◌, ◌≤◌, ◌^◌, ℕ, length, string_bytes};
ghost use Rattle.std.specs.Prelude.{IsTrue, IfErr, IfOk, OnOk};
ghost use Rattle.nwq_value.specs.Limits.{file_limit};
ghost use Rattle.nss_tree.specs.Reading.{plain_tree};
ghost use Rattle.typing_rules.specs.UnitReading.{typed_unit};
ghost use Rattle.emission_rules.specs.Units.{unit_file};
ghost use Rattle.typing_laws.specs.Laws.{HasCode};
ghost use Rattle.command_work.specs.Work.{CutsShort};
ghost use Rattle.command_work.specs.Counts.{Refusing, StopsSource, KeepsBut};
ghost use Rattle.command_work.specs.Calls.{DoesOn, TalliesOn, TalliesPuts, IsName, DoesPuts};
ghost use Rattle.command_sources.specs.Reads.{ReadsUnit, header_read};
ghost use Rattle.command_sources.specs.Scripts.{plain_script};
ghost use Rattle.command_compile.specs.Files.{file_in, compiled_in, compiled_named};
ghost use Rattle.command_compile.specs.Files.{code_name, writes_code, compiles};
ghost use Rattle.command_files.specs.Checks.{IsStackedFile};
ghost use Rattle.command_compile.specs.Made.{IsTreeFile};

use crate::script::TypedScript;
use crate::typing::type_script;
use codegen_unit::{GenFault, generate};
use command_files::write_and_put;
use command_sources::{Script, read_table, read_unit, refuse_end};
use command_work::{Cause, Status};
use ncs_code::size_laws;
use nwq_outside::{Files, Sink};
use nwq_value::{Items, NoMemory, Table};
use std::alloc::Global;
use unit_laws::typed_units_pass;

/// The file of a typed script. A script whose file would be too large is refused at its end.
#[tactic(auto, using(crate::proofs::FileLemmas::sizes, crate::proofs::FileLemmas::files))]
fn file_of<S: Sink>(alloc: Global, script: &TypedScript, out: &mut S) -> Result<Items<u8>, Status>
    requires { HasCode (typed_unit script.now.typed) }
    ensures does { IsTrue S.tells → DoesPuts S.taken
        (file_in script.now.unit.files (typed_unit script.now.typed)) out.old result out.new }
    ensures file { IfOk result (λ bytes. bytes ≡ unit_file (typed_unit script.now.typed)) }
    ensures counts { TalliesPuts S.faults result out.old out.new }
    ensures small { IfOk result (λ bytes. length bytes ≤ file_limit) }
    ensures only { IfErr result (Refusing Status.Script) }
{
    size_laws();
    match generate(alloc, &script.typed) {
        Ok(bytes) => Ok(Items::of_vec(bytes)),
        Err(GenFault::Large(_)) => Err(refuse_end(alloc, &script.unit, Cause::Large, out)),
        Err(GenFault::NoMemory) => Err(Status::Memory),
    }
}

/// The file of a script under a header.
#[tactic(auto, using(crate::proofs::Steps::steps), unfolding(crate::specs::Files::compiled_in))]
pub fn compile_script<S: Sink>(
    alloc: Global,
    table: &Table,
    script: Script,
    out: &mut S,
) -> Result<Items<u8>, Status>
    ensures does { IsTrue S.tells → DoesPuts S.taken (compiled_in table.now (plain_script script))
        out.old result out.new }
    ensures made { IfOk result (IsTreeFile table.now (plain_tree script.tree)) }
    ensures counts { TalliesPuts S.faults result out.old out.new }
    ensures small { IfOk result (λ bytes. length bytes ≤ file_limit) }
    ensures only { IfErr result (Refusing Status.Script) }
{
    match type_script(alloc, table, script, out) {
        Err(status) => Err(status),
        Ok(typed) => file_of(alloc, &typed, out),
    }
}

/// The file of the script of this name under a header. Also where files don't tell what they hold,
/// its instructions are well stacked.
#[tactic(auto, using(crate::proofs::Steps::steps, crate::proofs::FileLemmas::stacks, command_sources::specs::Reads::on_ok), unfolding(crate::specs::Files::compiled_named))]
pub fn read_compiled<F: Files, S: Sink>(
    alloc: Global,
    table: &Table,
    script: &str,
    files: &mut F,
    out: &mut S,
) -> Result<Items<u8>, Status>
    ensures does { IsTrue F.tells → IsTrue S.tells → DoesOn F.contents S.taken
        (compiled_named table.now script.now) files.old out.old result files.new out.new }
    ensures stacked { IfOk result (IsStackedFile table.now) }
    ensures counts { TalliesOn F.counts S.faults result files.old out.old files.new out.new }
    ensures same { F.contents files.new ≡ F.contents files.old }
    ensures once { IsTrue F.tells → OnOk result (ReadsUnit (F.contents files.old) script.now
        (F.reads files.old) (F.reads files.new)) }
    ensures small { IfOk result (λ bytes. length bytes ≤ file_limit) }
    ensures only { IfErr result StopsSource }
{
    table.keeps();
    typed_units_pass();
    match read_unit(alloc, script, files, out) {
        Err(status) => Err(status),
        Ok(script) => compile_script(alloc, table, script, out),
    }
}

/// The name of a script's file of bytecode.
pub fn code_name(alloc: Global, script: &str) -> Result<String, NoMemory>
    ensures named { IfOk result (λ name. string_bytes name ≡ code_name script.now) }
{
    let mut name = String::new(alloc);
    name.push_str(script)?;
    name.push_str(".ncs")?;
    Ok(name)
}

/// Writes the file of a script, and puts the line that tells its size.
#[tactic(auto, using(crate::proofs::FileLemmas::name_wanted, command_work::specs::KeepsLemmas::keeps_all))]
fn write_code<F: Files, S: Sink>(
    alloc: Global,
    script: &str,
    bytes: &[u8],
    files: &mut F,
    out: &mut S,
) -> Result<(), Status>
    ensures does { IsTrue F.tells → IsTrue S.tells → DoesOn F.contents S.taken
        (writes_code script.now bytes.now) files.old out.old result files.new out.new }
    ensures counts { TalliesOn F.counts S.faults result files.old out.old files.new out.new }
    ensures names { KeepsBut (IsName (code_name script.now)) (F.contents files.old) (F.contents
        files.new) }
    ensures unread { F.reads files.new ≡ F.reads files.old }
    ensures only { IfErr result CutsShort }
{
    match code_name(alloc, script) {
        Err(NoMemory) => Err(Status::Memory),
        Ok(name) => {
            let size = bytes.len() as u64;
            write_and_put(alloc, &name, bytes, "compiled ", size, files, out)
        }
    }
}

/// Compiles the script of this name under the header that a word names, and writes its file. The
/// header is read, unless it is the built-in one, and each file of the script's unit, once.
#[tactic(auto, using(crate::proofs::Steps::steps, command_work::specs::KeepsLemmas::keeps_all), unfolding(crate::specs::Files::compiles, crate::specs::Files::compiles_under))]
pub fn compile_file<F: Files, S: Sink>(
    alloc: Global,
    header: &str,
    script: &str,
    files: &mut F,
    out: &mut S,
) -> Result<(), Status>
    ensures does { IsTrue F.tells → IsTrue S.tells → DoesOn F.contents S.taken
        (compiles header.now script.now) files.old out.old result files.new out.new }
    ensures counts { TalliesOn F.counts S.faults result files.old out.old files.new out.new }
    ensures names { KeepsBut (IsName (code_name script.now)) (F.contents files.old) (F.contents
        files.new) }
    ensures once { IsTrue F.tells → OnOk result (ReadsUnit (F.contents files.old) script.now
        (header_read header.now (F.reads files.old)) (F.reads files.new)) }
    ensures only { IfErr result StopsSource }
{
    match read_table(alloc, header, files, out) {
        Err(status) => Err(status),
        Ok(table) => match read_compiled(alloc, &table, script, files, out) {
            Err(status) => Err(status),
            Ok(bytes) => write_code(alloc, script, bytes.as_slice(), files, out),
        },
    }
}
