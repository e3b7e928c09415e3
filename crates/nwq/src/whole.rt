ghost use Rattle.std.specs.Prelude.{◌≡◌, ◌≤◌, [], map, IsTrue, IfOk, OnErr};
ghost use Rattle.hook_table.specs.Standard.{function_numbered, IsAnswer};
ghost use Rattle.command_work.specs.Work.{IsCut, Does, ending};
ghost use Rattle.command_work.specs.Counts.{Counted, Tallies, KeepsBut};
ghost use Rattle.command_words.specs.Words.{form_of};
ghost use Rattle.nwq_top.specs.Changes.{MayChange};
ghost use Rattle.nwq_top.specs.Command.{work_with, whole_work, MayWrite};
ghost use Rattle.nwq_top.specs.Cuts.{IsFrontOf};
ghost use Rattle.nwq_top.specs.Endings.{ComesOf};
ghost use Rattle.nwq_top.specs.Meaning.{MeansWhole};
ghost use Rattle.nwq_top.specs.Program.{status_number, status_numbered, words_of};
ghost use Rattle.nwq_top.specs.Reads.{ReadsOnce, ReadsWhole};
ghost use Rattle.telling_sink.specs.Told.{Told};
ghost use Rattle.nwq.specs.Reads.{ReadsOrNone};

use hook_table::{Call, Hooks, cell_call};
use nwq_hooks::{all_are_put, call_function, put_cell_hook, put_hook};
use nwq_outside::{Files, Sink};
use nwq_top::laws::{names_change, one_outcome, whole_means};
use nwq_top::{Remarks, nwq_program, program_tables};
use nwq_value::{Args, NoMemory, Value};
use std::alloc::Global;
use std::marker::Brand;
use table_2da::Tables;
use telling_sink::{Loan, Telling};

/// The number of the status for want of memory.
const WANT_OF_MEMORY: u8 = 8;

/// Makes the hooks, of which the tenth looks cells up in these tables, and does what the words say
/// with them: the number with which the program ends. Where there is no memory for the hooks,
/// nothing is done.
#[tactic(auto, using(crate::proofs::EndLemmas::same_cells))]
fn run_hooked<F: Files, S: Sink>(
    alloc: Global,
    all: &[String],
    tables: Tables,
    files: &mut F,
    out: &mut S,
    remarks: &mut Remarks,
) -> Result<u8, NoMemory>
    ensures number { IfOk result (λ number. status_number (status_numbered number) ≡ number) }
    ensures does { IfOk result (λ number. IsTrue F.tells → IsTrue S.tells →
        Does (work_with (form_of (words_of all.now)) tables)
        (F.contents files.old) (S.taken out.old) (ending (status_numbered number))
        (F.contents files.new) (S.taken out.new)) }
    ensures counts { IfOk result (λ number. Tallies (ending (status_numbered number))
        (Counted (F.counts files.old) (S.faults out.old))
        (Counted (F.counts files.new) (S.faults out.new))) }
    ensures names { IfOk result (λ _. KeepsBut (MayWrite (form_of (words_of all.now)))
        (F.contents files.old) (F.contents files.new)) }
    ensures once { IfOk result (λ number. IsTrue F.tells → IsTrue S.tells →
        ReadsOnce (form_of (words_of all.now)) (ending (status_numbered number))
        (F.contents files.old) (F.reads files.old) (F.reads files.new)) }
    ensures only { IfOk result (λ number.
        ComesOf (form_of (words_of all.now)) (status_numbered number)) }
    ensures files { OnErr result (files.new ≡ files.old) }
    ensures out { OnErr result (out.new ≡ out.old) }
{
    let own = tables.copy(alloc)?;
    let mut hooks = Hooks::new(alloc);
    for n in 0u8..9 {
        let call: Call = Box::new(
            alloc,
            move |args: &Args| -> Result<Value, NoMemory>
                requires { n ≤ 9 }
                ensures { IfOk result (λ v. IsAnswer [] (function_numbered n).name
                    (function_numbered n).result args.now v) }
            { call_function(alloc, n, args) },
        )?;
        put_hook(alloc, &mut hooks, n, call)?;
    }
    let cells: Call = Box::new(
        alloc,
        move |args: &Args| -> Result<Value, NoMemory>
            ensures { IfOk result (λ v. IsAnswer own (function_numbered 9).name
                (function_numbered 9).result args.now v) }
        { cell_call(alloc, &own, args) },
    )?;
    put_cell_hook(alloc, &mut hooks, cells, tables)?;
    all_are_put(&hooks);
    Ok(nwq_program(alloc, all, files, out, &hooks, remarks))
}

/// Does what the words say with hooks that look cells up in these tables: the number with which the
/// program ends.
#[tactic(auto, using(crate::proofs::ReadLemmas::or_none, crate::proofs::EndLemmas::command_cut, crate::proofs::EndLemmas::memory_comes, command_work::specs::KeepsLemmas::keeps_all))]
fn run_with<F: Files, S: Sink>(
    alloc: Global,
    all: &[String],
    tables: Tables,
    files: &mut F,
    out: &mut S,
    remarks: &mut Remarks,
) -> u8
    ensures number { status_number (status_numbered result) ≡ result }
    ensures does { IsTrue F.tells → IsTrue S.tells →
        Does (work_with (form_of (words_of all.now)) tables)
        (F.contents files.old) (S.taken out.old) (ending (status_numbered result))
        (F.contents files.new) (S.taken out.new) }
    ensures counts { Tallies (ending (status_numbered result))
        (Counted (F.counts files.old) (S.faults out.old))
        (Counted (F.counts files.new) (S.faults out.new)) }
    ensures names { KeepsBut (MayWrite (form_of (words_of all.now)))
        (F.contents files.old) (F.contents files.new) }
    ensures once { IsTrue F.tells → IsTrue S.tells →
        ReadsOrNone (form_of (words_of all.now)) (ending (status_numbered result))
        (F.contents files.old) (F.reads files.old) (F.reads files.new) }
    ensures only { ComesOf (form_of (words_of all.now)) (status_numbered result) }
{
    match run_hooked(alloc, all, tables, files, out, remarks) {
        Err(NoMemory) => WANT_OF_MEMORY,
        Ok(number) => number,
    }
}

/// Reads the tables that the words give, and does what the words say with hooks that look cells up
/// in them: the number with which the program ends.
#[tactic(auto, using(crate::proofs::EndLemmas::program_ends))]
fn run_in_order<F: Files, S: Sink>(
    alloc: Global,
    all: &[String],
    files: &mut F,
    out: &mut S,
    remarks: &mut Remarks,
) -> u8
    ensures number { status_number (status_numbered result) ≡ result }
    ensures does { IsTrue F.tells → IsTrue S.tells →
        Does (whole_work (form_of (words_of all.now))) (F.contents files.old) (S.taken out.old)
        (ending (status_numbered result)) (F.contents files.new) (S.taken out.new) }
    ensures counts { Tallies (ending (status_numbered result))
        (Counted (F.counts files.old) (S.faults out.old))
        (Counted (F.counts files.new) (S.faults out.new)) }
    ensures names { KeepsBut (MayWrite (form_of (words_of all.now)))
        (F.contents files.old) (F.contents files.new) }
    ensures once { IsTrue F.tells → IsTrue S.tells →
        ReadsWhole (form_of (words_of all.now)) (ending (status_numbered result))
        (F.contents files.old) (F.reads files.old) (F.reads files.new) }
    ensures only { ComesOf (form_of (words_of all.now)) (status_numbered result) }
{
    match program_tables(alloc, all, files, out) {
        Err(number) => number,
        Ok(tables) => run_with(alloc, all, tables, files, out, remarks),
    }
}

/// Does the same with a sink that it makes tell, and gives the sink back beside the number.
#[tactic(auto, using(telling_sink::specs::ToldLemmas::told_beneath))]
fn run_told<'a, F: Files, S: Sink, L: Loan>(
    alloc: Global,
    all: &[String],
    files: &mut F,
    out: &'a mut S,
    remarks: &mut Remarks,
) -> (u8, &'a mut S)
    requires loan { out.ghost_name ≡ L.name }
    ensures loan { result.1.ghost_name ≡ out.entry.ghost_name }
    ensures number { status_number (status_numbered result.0) ≡ result.0 }
    ensures does { IsTrue F.tells → Told S.tells (S.taken out.old) (S.taken result.1.now) (λ t t'.
        Does (whole_work (form_of (words_of all.now))) (F.contents files.old) t
        (ending (status_numbered result.0)) (F.contents files.new) t') }
    ensures counts { Tallies (ending (status_numbered result.0))
        (Counted (F.counts files.old) (S.faults out.old))
        (Counted (F.counts files.new) (S.faults result.1.now)) }
    ensures names { KeepsBut (MayWrite (form_of (words_of all.now)))
        (F.contents files.old) (F.contents files.new) }
    ensures once { IsTrue F.tells →
        ReadsWhole (form_of (words_of all.now)) (ending (status_numbered result.0))
        (F.contents files.old) (F.reads files.old) (F.reads files.new) }
    ensures only { ComesOf (form_of (words_of all.now)) (status_numbered result.0) }
{
    let mut telling: Telling<'a, S, L> = Telling::new(out);
    let number = run_in_order(alloc, all, files, &mut telling, remarks);
    (number, telling.into_sink())
}

/// The whole program, given all its words, the files and standard output: the number with
/// which it ends. What is remarked of a play is for the notes on it.
pub(crate) fn run_all<F: Files, S: Sink>(
    alloc: Global,
    all: &[String],
    files: &mut F,
    out: &mut S,
    remarks: &mut Remarks,
) -> u8
    ensures number { status_number (status_numbered result) ≡ result }
    ensures does { IsTrue F.tells → Told S.tells (S.taken out.old) (S.taken out.new) (λ t t'.
        Does (whole_work (form_of (words_of all.now))) (F.contents files.old) t
        (ending (status_numbered result)) (F.contents files.new) t') }
    // Unless a failed call or want of memory cut it short, it also refused the list or the table
    // that is to be refused, or else did what the words mean, with cells looked up in exactly the
    // tables that they give.
    ensures means { IsTrue F.tells → (IsCut (ending (status_numbered result)) → ⊥) →
        Told S.tells (S.taken out.old) (S.taken out.new) (λ t t'.
        MeansWhole (form_of (words_of all.now)) (F.contents files.old) t
        (ending (status_numbered result)) (F.contents files.new) t') }
    // Where one did, what was put and left is a front of what is put and left else.
    ensures cut { IsTrue F.tells → IsCut (ending (status_numbered result)) →
        Told S.tells (S.taken out.old) (S.taken out.new) (λ t t'.
        IsFrontOf (whole_work (form_of (words_of all.now)))
        (F.contents files.old) t (F.contents files.new) t') }
    ensures counts { Tallies (ending (status_numbered result))
        (Counted (F.counts files.old) (S.faults out.old))
        (Counted (F.counts files.new) (S.faults out.new)) }
    ensures names { KeepsBut (MayWrite (form_of (words_of all.now)))
        (F.contents files.old) (F.contents files.new) }
    // Of `play` and `save` these are the files of the sources that the plan lists, and the file of
    // the area, or of the state, only where the status is 0, 7 or 8.
    ensures changes { IsTrue F.tells →
        KeepsBut (MayChange (form_of (words_of all.now)) (F.contents files.old)
        (ending (status_numbered result))) (F.contents files.old) (F.contents files.new) }
    // The tables' list and each table are read once, and then what the words lead to.
    ensures once { IsTrue F.tells →
        ReadsWhole (form_of (words_of all.now)) (ending (status_numbered result))
        (F.contents files.old) (F.reads files.old) (F.reads files.new) }
    ensures only { ComesOf (form_of (words_of all.now)) (status_numbered result) }
{
    whole_means();
    one_outcome();
    names_change();
    files.contents_are_bytes();
    let (number, _out) = run_told::<F, S, Brand>(alloc, all, files, out, remarks);
    number
}
