ghost use Rattle.std.specs.Prelude.{◌≡◌, ℕ, IsTrue, IfErr};
ghost use Rattle.nwq_outside.specs.Outside.{next};
ghost use Rattle.command_work.specs.Counts.{StopsCode};
ghost use Rattle.command_work.specs.Calls.{DoesOn, TalliesOn};
ghost use Rattle.command_files.specs.Assemblies.{asm_flaw, assembly_named};

use command_work::{CodeFlaw, Status, read_file, refuse_code};
use ncs_text::{AsmFault, assemble};
use nwq_outside::{Files, Sink};
use nwq_value::Items;
use std::alloc::Global;

/// What is wrong with an assembler text that has no file; nothing where only memory ran out.
fn asm_flaw(fault: AsmFault) -> Option<CodeFlaw>
    ensures { result ≡ asm_flaw fault }
{
    match fault {
        AsmFault::Line(number) => Some(CodeFlaw::Line(number)),
        AsmFault::Large(size) => Some(CodeFlaw::Large(size)),
        AsmFault::Target(number) => Some(CodeFlaw::LineTarget(number)),
        AsmFault::NoMemory => None,
    }
}

/// The file that the assembler text of this name stands for.
#[tactic(auto, using(crate::proofs::Steps::steps, crate::proofs::AssemblyLemmas::assemblies), unfolding(crate::specs::Assemblies::assembly_named))]
pub fn read_assembly<F: Files, S: Sink>(
    alloc: Global,
    name: &str,
    files: &mut F,
    out: &mut S,
) -> Result<Items<u8>, Status>
    ensures does { IsTrue F.tells → IsTrue S.tells → DoesOn F.contents S.taken
        (assembly_named name.now) files.old out.old result files.new out.new }
    ensures counts { TalliesOn F.counts S.faults result files.old out.old files.new out.new }
    ensures same { F.contents files.new ≡ F.contents files.old }
    ensures once { F.reads files.new ≡ next (F.reads files.old) }
    ensures only { IfErr result StopsCode }
{
    match read_file(alloc, name, files, out) {
        Err(status) => Err(status),
        Ok(text) => match assemble(alloc, text.as_slice()) {
            Ok(file) => Ok(Items::of_vec(file)),
            Err(fault) => match asm_flaw(fault) {
                Some(flaw) => Err(refuse_code(alloc, name.as_bytes(), flaw, out)),
                None => Err(Status::Memory),
            },
        },
    }
}
