ghost use Rattle.std.specs.Prelude.{◌≡◌, map, string_bytes, IsTrue};
ghost use Rattle.hook_table.specs.InHooks.{known_by};
ghost use Rattle.world_core.specs.Calls.{cells_of, AreServing};
ghost use Rattle.command_work.specs.Work.{Does, ending};
ghost use Rattle.command_work.specs.Counts.{Counted, Tallies, KeepsBut};
ghost use Rattle.command_words.specs.Words.{form_of};
ghost use Rattle.nwq_top.specs.Command.{work_of, MayWrite};
ghost use Rattle.nwq_top.specs.Endings.{ComesOf};
ghost use Rattle.nwq_top.specs.Reads.{ReadsOnce};
ghost use Rattle.telling_sink.specs.Told.{Told};

use crate::command::status_of_words;
use command_play::Remarks;
use command_work::Status;
use hook_table::Hooks;
use nwq_outside::{Files, Sink};
use std::alloc::Global;
use telling_sink::{Loan, Telling};

/// Does what the words say with a sink that it makes tell, and gives the sink back beside the
/// status.
#[tactic(auto, using(telling_sink::specs::ToldLemmas::told_beneath))]
pub(crate) fn status_told<'a, F: Files, S: Sink, L: Loan>(
    alloc: Global,
    words: &[String],
    files: &mut F,
    out: &'a mut S,
    hooks: &Hooks,
) -> (Status, &'a mut S)
    requires hooks { AreServing (known_by hooks.now) }
    requires loan { out.ghost_name ≡ L.name }
    ensures loan { result.1.ghost_name ≡ out.entry.ghost_name }
    ensures does { IsTrue F.tells → Told S.tells (S.taken out.old) (S.taken result.1.now) (λ t t'.
        Does (work_of (cells_of (known_by hooks.now))
        (form_of (map string_bytes words.now)))
        (F.contents files.old) t (ending result.0) (F.contents files.new) t') }
    ensures counts { Tallies (ending result.0) (Counted (F.counts files.old) (S.faults out.old))
        (Counted (F.counts files.new) (S.faults result.1.now)) }
    ensures names { KeepsBut (MayWrite (form_of (map string_bytes words.now)))
        (F.contents files.old) (F.contents files.new) }
    ensures once { IsTrue F.tells →
        ReadsOnce (form_of (map string_bytes words.now)) (ending result.0) (F.contents files.old)
        (F.reads files.old) (F.reads files.new) }
    ensures only { ComesOf (form_of (map string_bytes words.now)) result.0 }
{
    let mut telling: Telling<'a, S, L> = Telling::new(out);
    let mut remarks = Remarks::none(alloc);
    let status = status_of_words(alloc, words, files, &mut telling, hooks, &mut remarks);
    (status, telling.into_sink())
}
