//! The top call: what the words of a command do with files and a sink, in order, and how it ends.
//!
//! [`nwq_main`] does the work of the words; [`program_tables`] and [`nwq_program`] are what
//! `run_all` of `nwq` calls. What a command does is a [`Work`](../../command_work/specs/Work.antt),
//! a function of the form of its words (`specs/Command.antt`), and the clause `does` says that the
//! call did it. The parts of that work that read sources are `command_sources`', and its commands
//! over other files `command_files`'.
//!
//! The clauses hold of a sink of any kind, since the work is done with one that tells
//! (`telling_sink`). Of one that doesn't tell what it took they speak of some bytes: those of
//! `does` have the other clauses too, by the laws of [`laws`].
//!
//! The clause `means` says what the work is in the words of the subject: headers, scripts, plans,
//! areas. `specs/Accepting.antt` and `specs/Refusing.antt` say what a command accepts, and why it
//! refuses, by what the files hold. `specs/ListedUnits.antt` says that what is listed of a plan of
//! sources is the code of their typed units, and `specs/SourcePlans.antt` that the play of such a
//! plan is told, and leaves the area, as the sources mean. `specs/Runs.antt`, `specs/Plays.antt`
//! and `specs/Generated.antt` say what `run` and `compile`, `play`, and `generate` do: each file
//! that they write passes the stack checker, and what they tell and leave is what the source texts
//! mean. What one script means that is run alone the crate `command_meaning` has.
//! `specs/FileCommands.antt` says what `tree`, `check`, `dis` and `asm` do. The laws of
//! [`word_laws`] say that whatever does the work of the words does this, and one more that typing
//! refuses a source at one fault. `specs/Cuts.antt` says what is left where a call is cut,
//! `specs/Changes.antt` which names change, `specs/Reads.antt` how often files are read, and
//! `specs/Answers.antt` that each input has an answer.
//!
//! The tables that its scripts look cells up in are [`nwq_tables`]', which comes first: the tables
//! are read, hooks are made with them, and `nwq_main` is handed these hooks and the same words.
//! What both mean together says the law [`laws::whole_means`]. See docs/COMMANDS.md,
//! docs/THEOREMS.md and docs/MEANING.md.
#![tactic(auto)]

mod command;
pub mod laws;
mod program;
mod tables;
mod told;
pub mod word_laws;

ghost use Rattle.std.specs.Prelude.{map, string_bytes, IsTrue};
ghost use Rattle.hook_table.specs.InHooks.{known_by};
ghost use Rattle.world_core.specs.Calls.{cells_of, AreServing};
ghost use Rattle.command_work.specs.Work.{IsCut, Does, ending};
ghost use Rattle.command_work.specs.Counts.{Counted, Tallies, KeepsBut};
ghost use Rattle.command_words.specs.Words.{form_of};
ghost use Rattle.nwq_top.specs.Command.{work_of, MayWrite};
ghost use Rattle.nwq_top.specs.Changes.{MayChange};
ghost use Rattle.nwq_top.specs.Cuts.{IsFrontOf};
ghost use Rattle.nwq_top.specs.Endings.{ComesOf};
ghost use Rattle.nwq_top.specs.Meaning.{Means};
ghost use Rattle.nwq_top.specs.Reads.{ReadsOnce};
ghost use Rattle.telling_sink.specs.Told.{Told};

use crate::laws::{names_change, one_outcome, work_means};
use crate::told::status_told;
pub use command_play::Remarks;
pub use command_work::Status;
use hook_table::Hooks;
use nwq_outside::{Files, Sink};
pub use program::{nwq_program, program_tables};
use std::alloc::Global;
use std::marker::Brand;
pub use tables::nwq_tables;

/// Does what the words say. Scripts that it plays call the hooks.
pub fn nwq_main<F: Files, S: Sink>(
    alloc: Global,
    words: &[String],
    files: &mut F,
    out: &mut S,
    hooks: &Hooks,
) -> Status
    // The hooks are one for each of the functions of strings, numbers and tables.
    requires hooks { AreServing (known_by hooks.now) }
    // Where the files tell what they hold: the call did the work of the words, in order. A failed
    // call or want of memory cut it only where something was still to be read, made, written or
    // put; what is written and put whole ends with its own status.
    ensures does { IsTrue F.tells → Told S.tells (S.taken out.old) (S.taken out.new) (λ t t'.
        Does (work_of (cells_of (known_by hooks.now))
        (form_of (map string_bytes words.now)))
        (F.contents files.old) t (ending result) (F.contents files.new) t') }
    // Unless a failed call or want of memory cut it short, it also refused what is to be refused,
    // wrote files that pass the stack checker, and told and left what the source texts mean.
    ensures means { IsTrue F.tells → (IsCut (ending result) → ⊥) →
        Told S.tells (S.taken out.old) (S.taken out.new) (λ t t'.
        Means (cells_of (known_by hooks.now))
        (form_of (map string_bytes words.now))
        (F.contents files.old) t (ending result) (F.contents files.new) t') }
    // Where one did, what was put and left is a front of what is put and left else.
    ensures cut { IsTrue F.tells → IsCut (ending result) →
        Told S.tells (S.taken out.old) (S.taken out.new) (λ t t'.
        IsFrontOf (work_of (cells_of (known_by hooks.now))
        (form_of (map string_bytes words.now)))
        (F.contents files.old) t (F.contents files.new) t') }
    // A read, write or put that was refused is the last one, and the status says which.
    ensures counts { Tallies (ending result) (Counted (F.counts files.old) (S.faults out.old))
        (Counted (F.counts files.new) (S.faults out.new)) }
    // Every name that the command may not write has what it had.
    ensures names { KeepsBut (MayWrite (form_of (map string_bytes words.now)))
        (F.contents files.old) (F.contents files.new) }
    // Of `play` these are the files of the sources that its plan lists, and TO only where the
    // status is 0, 7 or 8.
    ensures changes { IsTrue F.tells →
        KeepsBut (MayChange (form_of (map string_bytes words.now)) (F.contents files.old)
        (ending result)) (F.contents files.old) (F.contents files.new) }
    // Where the work is done, each file was read once, where its turn came; and one file that the
    // words lead to alone also where it is refused.
    ensures once { IsTrue F.tells →
        ReadsOnce (form_of (map string_bytes words.now)) (ending result) (F.contents files.old)
        (F.reads files.old) (F.reads files.new) }
    ensures only { ComesOf (form_of (map string_bytes words.now)) result }
{
    work_means();
    one_outcome();
    names_change();
    files.contents_are_bytes();
    let (status, _out) = status_told::<F, S, Brand>(alloc, words, files, out, hooks);
    status
}
