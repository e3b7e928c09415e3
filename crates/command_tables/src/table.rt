ghost use Rattle.std.specs.Prelude.{◌≡◌, ℕ, string_bytes, IsTrue, IfOk, IfErr};
ghost use Rattle.nwq_outside.specs.Outside.{next};
ghost use Rattle.nwq_text.specs.Names.{is_script_name};
ghost use Rattle.command_work.specs.Counts.{StopsArea};
ghost use Rattle.command_work.specs.Calls.{DoesOn, TalliesOn};
ghost use Rattle.command_tables.specs.Tables.{table_file, table_in_file};

use command_work::{AreaFlaw, Status, read_file, refuse_area};
use nwq_outside::{Files, Sink};
use nwq_value::NoMemory;
use std::alloc::Global;
use table_2da::{Table2, TableFault, read_table};

/// The name of the file of a table.
#[tactic(auto, using(crate::proofs::NameLemmas::name_plain))]
pub(crate) fn file_of(alloc: Global, name: &[u8]) -> Result<String, NoMemory>
    requires name { IsTrue (is_script_name name.now) }
    ensures file { IfOk result (λ file. string_bytes file ≡ table_file name.now) }
{
    let mut file = String::from_utf8_lossy(alloc, name)?;
    file.push_str(".2da")?;
    Ok(file)
}

/// The table in the file of this name.
#[tactic(auto, using(crate::proofs::Steps::steps, crate::proofs::TableLemmas::tables), unfolding(crate::specs::Tables::table_in_file))]
pub(crate) fn read_named<F: Files, S: Sink>(
    alloc: Global,
    file: &str,
    files: &mut F,
    out: &mut S,
) -> Result<Table2, Status>
    ensures does { IsTrue F.tells → IsTrue S.tells → DoesOn F.contents S.taken
        (table_in_file file.now) files.old out.old result files.new out.new }
    ensures counts { TalliesOn F.counts S.faults result files.old out.old files.new out.new }
    ensures same { F.contents files.new ≡ F.contents files.old }
    ensures once { F.reads files.new ≡ next (F.reads files.old) }
    ensures only { IfErr result StopsArea }
{
    match read_file(alloc, file, files, out) {
        Err(status) => Err(status),
        Ok(bytes) => match read_table(alloc, bytes.as_slice()) {
            Ok(table) => Ok(table),
            Err(TableFault::Line(line)) => {
                Err(refuse_area(alloc, file.as_bytes(), AreaFlaw::Line(line), out))
            }
            Err(TableFault::NoMemory) => Err(Status::Memory),
        },
    }
}
