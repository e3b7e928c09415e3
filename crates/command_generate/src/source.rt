//! The source of a made play, compiled.
ghost use Rattle.std.specs.Prelude.{◌≡◌, ◌≤◌, length, IfOk};
ghost use Rattle.nwq_value.specs.Limits.{file_limit};
ghost use Rattle.nwq_value.specs.HeaderTable.{header_table};
ghost use Rattle.command_files.specs.Checks.{IsStackedFile};
ghost use Rattle.command_generate.specs.Generated.{IsFileOf, IsMadeSource};

use crate::kinds::{Kept, Shelf};
use command_compile::laws::one_script;
use command_compile::read_compiled;
use command_work::Status;
use generator_laws::sources_compile;
use nwq_value::{Items, NoMemory, Table};
use std::alloc::Global;

/// The want of memory that ended a work.
fn want_of(status: Status) -> NoMemory
    requires memory { status ≡ Status.Memory }
{
    match status {
        Status::Memory => NoMemory,
        _ => unreachable!(),
    }
}

/// The file of bytecode of the source of a number. It is never refused.
#[tactic(auto, using(crate::proofs::SourceLemmas::compiles))]
pub(crate) fn compile_source(
    alloc: Global,
    table: &Table,
    source: &[u8],
) -> Result<Items<u8>, NoMemory>
    requires header { table.now ≡ header_table }
    requires source { IsMadeSource source.now }
    ensures file { IfOk result (IsFileOf source.now) }
    ensures stacked { IfOk result (IsStackedFile table.now) }
    ensures small { IfOk result (λ bytes. length bytes ≤ file_limit) }
{
    sources_compile();
    one_script();
    let mut shelf = Shelf::with(alloc, source)?;
    let mut said = Kept::new(alloc);
    match read_compiled(alloc, table, "beat", &mut shelf, &mut said) {
        Err(status) => {
            drop(said);
            Err(want_of(status))
        }
        Ok(bytes) => {
            drop(said);
            Ok(bytes)
        }
    }
}
