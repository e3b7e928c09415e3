ghost use Rattle.std.specs.Prelude.{◌≡◌, ◌++◌, ℕ, length, codes, decimal, IsTrue, IfOk, IfErr};
ghost use Rattle.std.specs.Prelude.{OnOk};
ghost use Rattle.stack_rules.specs.Rules.{WellStacked};
ghost use Rattle.nwq_outside.specs.Outside.{next};
ghost use Rattle.command_work.specs.Work.{CutsShort};
ghost use Rattle.command_work.specs.Counts.{Refusing, StopsCode};
ghost use Rattle.command_work.specs.Calls.{DoesOn, TalliesOn, TalliesPuts, DoesPuts};
ghost use Rattle.command_sources.specs.Reads.{header_read};
ghost use Rattle.command_files.specs.Checks.{checked_in, checked_named, plain_checked_answer};
ghost use Rattle.command_files.specs.Checks.{passed_line, checks};
ghost use Rattle.command_files.specs.Checks.{KeepsTable, StopsCheck};

use crate::read_code;
use command_sources::read_table;
use command_work::{CodeFlaw, Status, put, refuse_code};
use ncs_file::Code;
use nwq_outside::{Files, Sink};
use nwq_text::put_count;
use nwq_value::{NoMemory, Table};
use stack_check::{CheckFault, Checked, check};
use std::alloc::Global;

/// Checks the code of the file of this name under a header. Code that is well stacked is never
/// refused.
#[tactic(auto)]
pub fn check_code<S: Sink>(
    alloc: Global,
    table: &Table,
    name: &[u8],
    code: Code,
    out: &mut S,
) -> Result<Checked, Status>
    ensures does { IsTrue S.tells → DoesPuts S.taken (checked_in table.now name.now code)
        out.old (plain_checked_answer result) out.new }
    ensures counts { TalliesPuts S.faults result out.old out.new }
    ensures kept { IfOk result (KeepsTable table.now) }
    ensures only { IfErr result (Refusing Status.Code) }
    ensures passes { WellStacked table.now code → IfErr result CutsShort }
{
    match check(alloc, code, table) {
        Ok(checked) => Ok(checked),
        Err(CheckFault::Unstacked) => Err(refuse_code(alloc, name, CodeFlaw::Unstacked, out)),
        Err(CheckFault::NoMemory) => Err(Status::Memory),
    }
}

/// The file of bytecode of this name, checked under a header. The code is well stacked by the table
/// that is kept.
#[tactic(auto, using(crate::proofs::Steps::steps), unfolding(crate::specs::Checks::checked_named))]
pub fn read_checked<F: Files, S: Sink>(
    alloc: Global,
    table: &Table,
    name: &str,
    files: &mut F,
    out: &mut S,
) -> Result<Checked, Status>
    ensures does { IsTrue F.tells → IsTrue S.tells → DoesOn F.contents S.taken (checked_named
        table.now name.now) files.old out.old (plain_checked_answer result) files.new out.new }
    ensures counts { TalliesOn F.counts S.faults result files.old out.old files.new out.new }
    ensures same { F.contents files.new ≡ F.contents files.old }
    ensures once { F.reads files.new ≡ next (F.reads files.old) }
    ensures kept { IfOk result (KeepsTable table.now) }
    ensures only { IfErr result StopsCode }
{
    match read_code(alloc, name, files, out) {
        Err(status) => Err(status),
        Ok(code) => check_code(alloc, table, name.as_bytes(), code, out),
    }
}

/// The line for a file that passed.
fn passed_line(alloc: Global, count: u32) -> Result<Vec<u8>, NoMemory>
    ensures { IfOk result (λ text. text.items ≡ passed_line count) }
{
    let mut text = Vec::from_slice(alloc, b"passed ")?;
    put_count(&mut text, u64::from(count))?;
    text.push(b'\n')?;
    Ok(text)
}

/// Checks the file of this name, under the header that a word names. The header is read, unless it
/// is the built-in one, and then the file, once.
#[tactic(auto, using(crate::proofs::Steps::steps, crate::proofs::CheckLemmas::stops, command_work::specs::Parts::puts_does), unfolding(crate::specs::Checks::checks, crate::specs::Checks::checks_under))]
pub fn check_file<F: Files, S: Sink>(
    alloc: Global,
    header: &str,
    name: &str,
    files: &mut F,
    out: &mut S,
) -> Result<(), Status>
    ensures does { IsTrue F.tells → IsTrue S.tells → DoesOn F.contents S.taken
        (checks header.now name.now) files.old out.old result files.new out.new }
    ensures counts { TalliesOn F.counts S.faults result files.old out.old files.new out.new }
    ensures same { F.contents files.new ≡ F.contents files.old }
    ensures once { OnOk result
        (F.reads files.new ≡ next (header_read header.now (F.reads files.old))) }
    ensures only { IfErr result StopsCheck }
{
    match read_table(alloc, header, files, out) {
        Err(status) => Err(status),
        Ok(table) => match read_checked(alloc, &table, name, files, out) {
            Err(status) => Err(status),
            Ok(checked) => put(passed_line(alloc, checked.code().count()), out),
        },
    }
}
