ghost use Rattle.std.specs.Prelude.{◌≡◌, [], ◌∷◌, ◌++◌, map, None, Ok, IsTrue, IfErr, OnOk, OnErr};
ghost use Rattle.std.specs.Option.{option_map};
ghost use Rattle.nwq_outside.specs.Outside.{next};
ghost use Rattle.nwq_text.specs.Names.{is_script_name};
ghost use Rattle.table_2da.specs.Look.{table_named};
ghost use Rattle.command_work.specs.Counts.{StopsArea};
ghost use Rattle.command_work.specs.Calls.{DoesOn, TalliesOn};
ghost use Rattle.command_tables.specs.Lists.{AreNames};
ghost use Rattle.command_tables.specs.Reading.{with_tables};
ghost use Rattle.command_tables.specs.Reads.{AtMostOnce, ReadsFront, after_each, ReadsTables};
ghost use Rattle.command_tables.specs.Reads.{ReadsSomeTables};
ghost use Rattle.command_tables.specs.Tables.{with_table, one_more, all_behind, tables_given};

use crate::list::read_list;
use crate::table::{file_of, read_named};
use command_work::Status;
use nwq_outside::{Files, Sink};
use nwq_value::{NoMemory, Text};
use std::alloc::Global;
use table_2da::{Table2, Tables};

/// Puts a table under a copy of the name last.
fn put_table(alloc: Global, name: &Text, table: Table2, tables: &mut Tables) -> Result<(), NoMemory>
    requires new_name { table_named name.now tables.old ≡ None }
    ensures ok { OnOk result (tables.new ≡ with_table tables.old name.now table) }
{
    match name.copy(alloc) {
        Err(NoMemory) => {
            drop(table);
            Err(NoMemory)
        }
        Ok(copy) => tables.push(copy, table),
    }
}

/// Reads the table of this name and puts it last.
#[tactic(auto, using(crate::proofs::Steps::steps, crate::proofs::ReadLemmas::table_wanted, crate::proofs::ReadLemmas::more_tables, crate::proofs::CountLemmas::most_reads), unfolding(crate::specs::Tables::one_more))]
fn add_table<F: Files, S: Sink>(
    alloc: Global,
    name: &Text,
    tables: &mut Tables,
    files: &mut F,
    out: &mut S,
) -> Result<(), Status>
    requires name { IsTrue (is_script_name name.now) }
    requires new_name { table_named name.now tables.old ≡ None }
    ensures does { IsTrue F.tells → IsTrue S.tells → DoesOn F.contents S.taken
        (one_more tables.old name.now)
        files.old out.old (with_tables tables.new result) files.new out.new }
    ensures tables { OnOk result (map (λ t. t.name) tables.new
        ≡ map (λ t. t.name) tables.old ++ name.now ∷ []) }
    ensures counts { TalliesOn F.counts S.faults result files.old out.old files.new out.new }
    ensures same { F.contents files.new ≡ F.contents files.old }
    ensures once { OnOk result (F.reads files.new ≡ next (F.reads files.old)) }
    ensures most { OnErr result (AtMostOnce (F.reads files.old) (F.reads files.new)) }
    ensures only { IfErr result StopsArea }
{
    match file_of(alloc, name.bytes()) {
        Err(NoMemory) => Err(Status::Memory),
        Ok(file) => match read_named(alloc, &file, files, out) {
            Err(status) => Err(status),
            Ok(table) => match put_table(alloc, name, table, tables) {
                Err(NoMemory) => Err(Status::Memory),
                Ok(()) => Ok(()),
            },
        },
    }
}

/// The tables of these names, read in order.
fn read_all<F: Files, S: Sink>(
    alloc: Global,
    names: &[Text],
    files: &mut F,
    out: &mut S,
) -> Result<Tables, Status>
    requires names { AreNames names.now }
    ensures does { IsTrue F.tells → IsTrue S.tells → DoesOn F.contents S.taken
        (all_behind [] names.now) files.old out.old result files.new out.new }
    ensures counts { TalliesOn F.counts S.faults result files.old out.old files.new out.new }
    ensures same { F.contents files.new ≡ F.contents files.old }
    ensures once { OnOk result (F.reads files.new ≡ after_each names.now (F.reads files.old)) }
    ensures front { OnErr result
        (ReadsFront names.now (F.reads files.old) (F.reads files.new)) }
    ensures only { IfErr result StopsArea }
{
    let mut tables = Tables::new(alloc);
    let mut rest = names;
    while let Some((name, others)) = rest.split_first() {
        match add_table(alloc, name, &mut tables, files, out) {
            Err(status) => {
                drop(tables);
                return Err(status);
            }
            Ok(()) => {}
        }
        rest = others;
    }
    Ok(tables)
}

/// The tables that a command is given: those that its list names, and none where it has no list.
/// The list is tested whole before the first is read.
#[tactic(auto, using(crate::proofs::Steps::steps), unfolding(crate::specs::Tables::tables_listed))]
pub fn read_tables<F: Files, S: Sink>(
    alloc: Global,
    list: Option<&str>,
    files: &mut F,
    out: &mut S,
) -> Result<Tables, Status>
    ensures does { IsTrue F.tells → IsTrue S.tells → DoesOn F.contents S.taken
        (tables_given (option_map (λ name. name.now) list.entry))
        files.old out.old result files.new out.new }
    ensures counts { TalliesOn F.counts S.faults result files.old out.old files.new out.new }
    ensures same { F.contents files.new ≡ F.contents files.old }
    // The list is read once, and then the file of each table once; up to the first that is refused.
    ensures once { IsTrue F.tells → IsTrue S.tells → OnOk result
        (ReadsTables (option_map (λ name. name.now) list.entry)
        (F.contents files.old) (F.reads files.old) (F.reads files.new)) }
    ensures front { IsTrue F.tells → IsTrue S.tells → OnErr result
        (ReadsSomeTables (option_map (λ name. name.now) list.entry)
        (F.contents files.old) (F.reads files.old) (F.reads files.new)) }
    ensures only { IfErr result StopsArea }
    ensures none { list.entry ≡ None → result ≡ Ok [] }
{
    match list {
        None => Ok(Tables::new(alloc)),
        Some(name) => match read_list(alloc, name, files, out) {
            Err(status) => Err(status),
            Ok(names) => read_all(alloc, names.as_slice(), files, out),
        },
    }
}
