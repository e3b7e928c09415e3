//! The instructions of a compiled file, checked.
ghost use Rattle.std.specs.Prelude.{◌≤◌, ℕ, length, IsTrue, IfOk, IfErr};
ghost use Rattle.nwq_value.specs.Limits.{file_limit};
ghost use Rattle.command_work.specs.Work.{CutsShort};
ghost use Rattle.command_work.specs.Counts.{Refusing};
ghost use Rattle.command_work.specs.Calls.{TalliesPuts, DoesPuts};
ghost use Rattle.command_files.specs.Checks.{loaded_in, plain_checked_answer, IsStackedFile};
ghost use Rattle.command_files.specs.Checks.{KeepsTable};

use crate::check::check_code;
use crate::code_of_bytes;
use command_work::Status;
use nwq_outside::Sink;
use nwq_value::Table;
use stack_check::Checked;
use std::alloc::Global;

/// The instructions in the bytes of the file of this name, checked under a header. A file of well
/// stacked instructions is never refused.
#[tactic(auto, using(crate::proofs::Steps::steps), unfolding(crate::specs::Checks::loaded_in))]
pub fn load_checked<S: Sink>(
    alloc: Global,
    table: &Table,
    name: &[u8],
    bytes: Vec<u8>,
    out: &mut S,
) -> Result<Checked, Status>
    requires small { length bytes.items ≤ file_limit }
    ensures does { IsTrue S.tells → DoesPuts S.taken (loaded_in table.now name.now bytes.items)
        out.old (plain_checked_answer result) out.new }
    ensures counts { TalliesPuts S.faults result out.old out.new }
    ensures kept { IfOk result (KeepsTable table.now) }
    ensures only { IfErr result (Refusing Status.Code) }
    ensures passes { IsStackedFile table.now bytes.items → IfErr result CutsShort }
{
    match code_of_bytes(alloc, name, bytes, out) {
        Err(status) => Err(status),
        Ok(code) => check_code(alloc, table, name, code, out),
    }
}
