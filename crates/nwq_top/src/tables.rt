ghost use Rattle.std.specs.Prelude.{◌≡◌, [], map, string_bytes, None, Ok, IsTrue, IfErr};
ghost use Rattle.std.specs.Prelude.{OnOk, OnErr};
ghost use Rattle.command_work.specs.Work.{Does};
ghost use Rattle.command_work.specs.Counts.{Counted, Tallies, StopsArea};
ghost use Rattle.command_tables.specs.Reads.{ReadsTables, ReadsSomeTables};
ghost use Rattle.command_tables.specs.Tables.{tables_given};
ghost use Rattle.command_words.specs.Words.{form_of, list_of};
ghost use Rattle.telling_sink.specs.Told.{Told};

use command_tables::read_tables;
use command_words::list_in;
use command_work::Status;
use nwq_outside::{Files, Sink};
use std::alloc::Global;
use std::marker::Brand;
use table_2da::Tables;
use telling_sink::{Loan, Telling};

/// Reads the tables that the words give with a sink that it makes tell, and gives the sink back
/// beside them.
#[tactic(auto, using(telling_sink::specs::ToldLemmas::told_beneath))]
fn tables_told<'a, F: Files, S: Sink, L: Loan>(
    alloc: Global,
    words: &[String],
    files: &mut F,
    out: &'a mut S,
) -> (Result<Tables, Status>, &'a mut S)
    requires loan { out.ghost_name ≡ L.name }
    ensures loan { result.1.ghost_name ≡ out.entry.ghost_name }
    ensures does { IsTrue F.tells → Told S.tells (S.taken out.old) (S.taken result.1.now) (λ t t'.
        Does (tables_given (list_of (form_of (map string_bytes words.now))))
        (F.contents files.old) t result.0 (F.contents files.new) t') }
    ensures counts { Tallies result.0 (Counted (F.counts files.old) (S.faults out.old))
        (Counted (F.counts files.new) (S.faults result.1.now)) }
    ensures same { F.contents files.new ≡ F.contents files.old }
    ensures once { IsTrue F.tells → OnOk result.0
        (ReadsTables (list_of (form_of (map string_bytes words.now))) (F.contents files.old)
        (F.reads files.old) (F.reads files.new)) }
    ensures front { IsTrue F.tells → OnErr result.0
        (ReadsSomeTables (list_of (form_of (map string_bytes words.now))) (F.contents files.old)
        (F.reads files.old) (F.reads files.new)) }
    ensures only { IfErr result.0 StopsArea }
    ensures none { list_of (form_of (map string_bytes words.now)) ≡ None → result.0 ≡ Ok [] }
{
    let mut telling: Telling<'a, S, L> = Telling::new(out);
    let tables = read_tables(alloc, list_in(words), files, &mut telling);
    (tables, telling.into_sink())
}

/// Reads the tables that the words give, which is the first work of a command. Words without a list
/// give none.
pub fn nwq_tables<F: Files, S: Sink>(
    alloc: Global,
    words: &[String],
    files: &mut F,
    out: &mut S,
) -> Result<Tables, Status>
    // Where the files tell what they hold: the call read the list and then its tables, in order.
    ensures does { IsTrue F.tells → Told S.tells (S.taken out.old) (S.taken out.new) (λ t t'.
        Does (tables_given (list_of (form_of (map string_bytes words.now))))
        (F.contents files.old) t result (F.contents files.new) t') }
    ensures counts { Tallies result (Counted (F.counts files.old) (S.faults out.old))
        (Counted (F.counts files.new) (S.faults out.new)) }
    ensures same { F.contents files.new ≡ F.contents files.old }
    // The list is read once, and then the file of each table once; up to the first that is refused.
    ensures once { IsTrue F.tells → OnOk result
        (ReadsTables (list_of (form_of (map string_bytes words.now))) (F.contents files.old)
        (F.reads files.old) (F.reads files.new)) }
    ensures front { IsTrue F.tells → OnErr result
        (ReadsSomeTables (list_of (form_of (map string_bytes words.now))) (F.contents files.old)
        (F.reads files.old) (F.reads files.new)) }
    ensures only { IfErr result StopsArea }
    ensures none { list_of (form_of (map string_bytes words.now)) ≡ None → result ≡ Ok [] }
{
    let (tables, _out) = tables_told::<F, S, Brand>(alloc, words, files, out);
    tables
}
