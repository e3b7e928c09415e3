ghost use Rattle.std.specs.Prelude.{◌≡◌, ◌≤◌, ℕ, List, length, IsTrue, IfOk, IfErr};
ghost use Rattle.nwq_value.specs.Limits.{file_limit};
ghost use Rattle.ncs_code.specs.Plain.{PlainOp};
ghost use Rattle.ncs_code.specs.File.{IsCode, file_bytes};
ghost use Rattle.nwq_outside.specs.Outside.{next};
ghost use Rattle.command_work.specs.Work.{CutsShort};
ghost use Rattle.command_work.specs.Counts.{Refusing, StopsCode};
ghost use Rattle.command_work.specs.Calls.{DoesOn, TalliesOn, TalliesPuts, DoesPuts};
ghost use Rattle.command_files.specs.Codes.{load_flaw, code_in, code_named};

use command_work::{CodeFlaw, Status, read_file, refuse_code};
use ncs_code::CodeFault;
use ncs_file::{Code, LoadFault, load};
use nwq_outside::{Files, Sink};
use std::alloc::Global;

/// What is wrong with bytes that are no file of bytecode; nothing where only memory ran out.
fn load_flaw(fault: LoadFault) -> Option<CodeFlaw>
    ensures { result ≡ load_flaw fault }
{
    match fault {
        LoadFault::Magic => Some(CodeFlaw::Magic),
        LoadFault::Length => Some(CodeFlaw::Length),
        LoadFault::At(at, CodeFault::Opcode) => Some(CodeFlaw::Opcode(at)),
        LoadFault::At(at, CodeFault::TypeByte) => Some(CodeFlaw::TypeByte(at)),
        LoadFault::At(at, CodeFault::Short) => Some(CodeFlaw::Short(at)),
        LoadFault::Target(at) => Some(CodeFlaw::Target(at)),
        LoadFault::NoMemory => None,
    }
}

/// The instructions in the bytes of the file of this name. The bytes of a file are refused never,
/// and its instructions are loaded.
#[tactic(auto, using(crate::proofs::CodeLemmas::codes))]
pub fn code_of_bytes<S: Sink>(
    alloc: Global,
    name: &[u8],
    bytes: Vec<u8>,
    out: &mut S,
) -> Result<Code, Status>
    requires size { length bytes.items ≤ file_limit }
    ensures does { IsTrue S.tells → DoesPuts S.taken (code_in name.now bytes.items)
        out.old result out.new }
    ensures counts { TalliesPuts S.faults result out.old out.new }
    ensures only { IfErr result (Refusing Status.Code) }
    ensures one { (ops : List PlainOp) → IsCode ops → bytes.items ≡ file_bytes ops →
        IfOk result (λ code. code ≡ ops) }
    ensures whole { (ops : List PlainOp) → IsCode ops → bytes.items ≡ file_bytes ops →
        IfErr result CutsShort }
{
    match load(alloc, bytes) {
        Ok(code) => Ok(code),
        Err(fault) => match load_flaw(fault) {
            Some(flaw) => Err(refuse_code(alloc, name, flaw, out)),
            None => Err(Status::Memory),
        },
    }
}

/// The instructions of the file of bytecode of this name.
#[tactic(auto, using(crate::proofs::Steps::steps), unfolding(crate::specs::Codes::code_named))]
pub fn read_code<F: Files, S: Sink>(
    alloc: Global,
    name: &str,
    files: &mut F,
    out: &mut S,
) -> Result<Code, Status>
    ensures does { IsTrue F.tells → IsTrue S.tells → DoesOn F.contents S.taken (code_named name.now)
        files.old out.old result files.new out.new }
    ensures counts { TalliesOn F.counts S.faults result files.old out.old files.new out.new }
    ensures same { F.contents files.new ≡ F.contents files.old }
    ensures once { F.reads files.new ≡ next (F.reads files.old) }
    ensures only { IfErr result StopsCode }
{
    match read_file(alloc, name, files, out) {
        Err(status) => Err(status),
        Ok(bytes) => code_of_bytes(alloc, name.as_bytes(), bytes.into_vec(), out),
    }
}
