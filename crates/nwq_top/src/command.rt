ghost use Rattle.std.specs.Prelude.{◌≡◌, map, string_bytes, IsTrue};
ghost use Rattle.hook_table.specs.InHooks.{known_by};
ghost use Rattle.world_core.specs.Calls.{cells_of, AreServing};
ghost use Rattle.command_work.specs.Work.{Does, ending};
ghost use Rattle.command_work.specs.Counts.{Counted, Tallies, KeepsBut};
ghost use Rattle.command_words.specs.Words.{form_of};
ghost use Rattle.nwq_top.specs.Command.{work_of, MayWrite};
ghost use Rattle.nwq_top.specs.Endings.{ComesOf, ComesOfResult};
ghost use Rattle.nwq_top.specs.Reads.{ReadsOnce};

use command_compile::compile_file;
use command_files::{assemble_file, check_file, disassemble_file, show_tree};
use command_generate::generate;
use command_play::{GameNames, Remarks, play_files};
use command_run::run;
use command_save::{SaveWords, resume_play, save_play};
use command_words::{Command, command_of};
use command_work::{Status, refuse_form};
use hook_table::Hooks;
use nwq_outside::{Files, Sink};
use std::alloc::Global;

/// Does the command that the words are.
#[tactic(auto)]
pub fn command<F: Files, S: Sink>(
    alloc: Global,
    words: &[String],
    files: &mut F,
    out: &mut S,
    hooks: &Hooks,
    remarks: &mut Remarks,
) -> Result<(), Status>
    requires hooks { AreServing (known_by hooks.now) }
    ensures does { IsTrue F.tells → IsTrue S.tells →
        Does (work_of (cells_of (known_by hooks.now))
        (form_of (map string_bytes words.now)))
        (F.contents files.old) (S.taken out.old)
        result (F.contents files.new) (S.taken out.new) }
    ensures counts { Tallies result (Counted (F.counts files.old) (S.faults out.old))
        (Counted (F.counts files.new) (S.faults out.new)) }
    ensures names { KeepsBut (MayWrite (form_of (map string_bytes words.now)))
        (F.contents files.old) (F.contents files.new) }
    ensures once { IsTrue F.tells → IsTrue S.tells →
        ReadsOnce (form_of (map string_bytes words.now)) result (F.contents files.old)
        (F.reads files.old) (F.reads files.new) }
    ensures only { ComesOfResult (form_of (map string_bytes words.now)) result }
{
    match command_of(words) {
        Command::NoForm => Err(refuse_form(alloc, out)),
        Command::Run(header, script) => run(alloc, header, script, files, out, hooks, remarks),
        Command::Compile(header, script) => compile_file(alloc, header, script, files, out),
        Command::Tree(file) => show_tree(alloc, file, files, out),
        Command::Check(header, file) => check_file(alloc, header, file, files, out),
        Command::Disassemble(file, to) => disassemble_file(alloc, file, to, files, out),
        Command::Assemble(file, to) => assemble_file(alloc, file, to, files, out),
        Command::Play {
            header,
            area,
            plan,
            to,
            ..
        } => {
            let game = GameNames {
                header,
                area,
                plan,
                to,
            };
            play_files(alloc, game, hooks, files, out, remarks)
        }
        Command::Generate(number) => generate(alloc, number, hooks, out),
        Command::Save {
            header,
            area,
            plan,
            entries,
            state,
            ..
        } => {
            let save = SaveWords {
                header,
                area,
                plan,
                entries,
                state,
            };
            save_play(alloc, save, hooks, files, out, remarks)
        }
        Command::Resume { state, to, .. } => {
            resume_play(alloc, state, to, hooks, files, out, remarks)
        }
    }
}

/// The status with which the command ends that the words are. What is remarked of a play is for
/// notes after the work, and no part of it.
#[tactic(auto, using(crate::proofs::EndingLemmas::stops_come))]
pub fn status_of_words<F: Files, S: Sink>(
    alloc: Global,
    words: &[String],
    files: &mut F,
    out: &mut S,
    hooks: &Hooks,
    remarks: &mut Remarks,
) -> Status
    requires hooks { AreServing (known_by hooks.now) }
    ensures does { IsTrue F.tells → IsTrue S.tells →
        Does (work_of (cells_of (known_by hooks.now))
        (form_of (map string_bytes words.now)))
        (F.contents files.old) (S.taken out.old)
        (ending result) (F.contents files.new) (S.taken out.new) }
    ensures counts { Tallies (ending result) (Counted (F.counts files.old) (S.faults out.old))
        (Counted (F.counts files.new) (S.faults out.new)) }
    ensures names { KeepsBut (MayWrite (form_of (map string_bytes words.now)))
        (F.contents files.old) (F.contents files.new) }
    ensures once { IsTrue F.tells → IsTrue S.tells →
        ReadsOnce (form_of (map string_bytes words.now)) (ending result) (F.contents files.old)
        (F.reads files.old) (F.reads files.new) }
    ensures only { ComesOf (form_of (map string_bytes words.now)) result }
{
    match command(alloc, words, files, out, hooks, remarks) {
        Ok(()) => Status::Done,
        Err(status) => status,
    }
}
