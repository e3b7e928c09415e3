ghost use Rattle.std.specs.Prelude.{◌≡◌, [], drop, None, Ok, IsTrue, IfErr};
ghost use Rattle.std.specs.Prelude.{OnOk, OnErr};
ghost use Rattle.hook_table.specs.InHooks.{known_by};
ghost use Rattle.world_core.specs.Calls.{cells_of, AreServing};
ghost use Rattle.command_work.specs.Work.{IsCut, Does, ending};
ghost use Rattle.command_work.specs.Counts.{Counted, Tallies, KeepsBut, StopsArea};
ghost use Rattle.command_tables.specs.Reads.{ReadsTables, ReadsSomeTables};
ghost use Rattle.command_tables.specs.Tables.{tables_given};
ghost use Rattle.command_words.specs.Words.{form_of, list_of};
ghost use Rattle.nwq_top.specs.Command.{work_of, MayWrite};
ghost use Rattle.nwq_top.specs.Endings.{ComesOf};
ghost use Rattle.nwq_top.specs.Meaning.{Means};
ghost use Rattle.nwq_top.specs.Reads.{ReadsOnce};
ghost use Rattle.nwq_top.specs.Program.{by_status, status_number, status_numbered, words_of};

use crate::command::status_of_words;
use crate::laws::work_means;
use command_play::Remarks;
use command_tables::read_tables;
use command_words::list_in;
use command_work::Status;
use hook_table::Hooks;
use nwq_outside::{Files, Sink};
use std::alloc::Global;
use table_2da::Tables;

/// The words after the program's name, which is the first of all.
fn after_name(all: &[String]) -> &[String]
    ensures { result.now ≡ drop 1 all.now }
{
    match all.split_first() {
        Some((_name, words)) => words,
        None => all,
    }
}

/// The number with which the program ends.
fn number_of(status: Status) -> u8
    ensures number { result ≡ status_number status }
    ensures status { status_numbered result ≡ status }
{
    status as u8
}

/// The tables that the program's words give, read before anything else is done, or the number with
/// which the program ends. It isn't that of words that are no form: these give no tables, and
/// [`nwq_program`] refuses them.
pub fn program_tables<F: Files, S: Sink>(
    alloc: Global,
    all: &[String],
    files: &mut F,
    out: &mut S,
) -> Result<Tables, u8>
    ensures number { IfErr result (λ n. status_number (status_numbered n) ≡ n) }
    ensures does { IsTrue F.tells → IsTrue S.tells →
        Does (tables_given (list_of (form_of (words_of all.now))))
        (F.contents files.old) (S.taken out.old)
        (by_status result) (F.contents files.new) (S.taken out.new) }
    ensures counts { Tallies (by_status result) (Counted (F.counts files.old) (S.faults out.old))
        (Counted (F.counts files.new) (S.faults out.new)) }
    ensures same { F.contents files.new ≡ F.contents files.old }
    ensures once { IsTrue F.tells → IsTrue S.tells → OnOk result
        (ReadsTables (list_of (form_of (words_of all.now))) (F.contents files.old)
        (F.reads files.old) (F.reads files.new)) }
    ensures front { IsTrue F.tells → IsTrue S.tells → OnErr result
        (ReadsSomeTables (list_of (form_of (words_of all.now))) (F.contents files.old)
        (F.reads files.old) (F.reads files.new)) }
    ensures only { IfErr result (λ n. StopsArea (status_numbered n)) }
    ensures none { list_of (form_of (words_of all.now)) ≡ None → result ≡ Ok [] }
{
    match read_tables(alloc, list_in(after_name(all)), files, out) {
        Err(status) => Err(number_of(status)),
        Ok(tables) => Ok(tables),
    }
}

/// What the program does, given all its words, the files, standard output and the hooks
/// that scripts call: the number with which it ends. It is what [`nwq_main`](crate::nwq_main) does;
/// what is remarked of a play is handed on for notes, and no clause speaks of it.
pub fn nwq_program<F: Files, S: Sink>(
    alloc: Global,
    all: &[String],
    files: &mut F,
    out: &mut S,
    hooks: &Hooks,
    remarks: &mut Remarks,
) -> u8
    requires hooks { AreServing (known_by hooks.now) }
    // It is the number of a status, and what the top call promises of the words was done with this
    // status.
    ensures number { status_number (status_numbered result) ≡ result }
    ensures does { IsTrue F.tells → IsTrue S.tells →
        Does (work_of (cells_of (known_by hooks.now))
        (form_of (words_of all.now))) (F.contents files.old) (S.taken out.old)
        (ending (status_numbered result)) (F.contents files.new) (S.taken out.new) }
    ensures means { IsTrue F.tells → IsTrue S.tells →
        (IsCut (ending (status_numbered result)) → ⊥) →
        Means (cells_of (known_by hooks.now))
        (form_of (words_of all.now)) (F.contents files.old) (S.taken out.old)
        (ending (status_numbered result)) (F.contents files.new) (S.taken out.new) }
    ensures counts { Tallies (ending (status_numbered result))
        (Counted (F.counts files.old) (S.faults out.old))
        (Counted (F.counts files.new) (S.faults out.new)) }
    ensures names { KeepsBut (MayWrite (form_of (words_of all.now)))
        (F.contents files.old) (F.contents files.new) }
    ensures once { IsTrue F.tells → IsTrue S.tells →
        ReadsOnce (form_of (words_of all.now)) (ending (status_numbered result))
        (F.contents files.old) (F.reads files.old) (F.reads files.new) }
    ensures only { ComesOf (form_of (words_of all.now)) (status_numbered result) }
{
    work_means();
    files.contents_are_bytes();
    let status = status_of_words(alloc, after_name(all), files, out, hooks, remarks);
    number_of(status)
}
