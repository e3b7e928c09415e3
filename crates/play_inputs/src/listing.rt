//! The scripts that a plan lists.
ghost use Rattle.std.specs.Prelude.{◌≡◌, ℕ, length, IsTrue, IfOk, IfErr, OnOk};
ghost use Rattle.plan_text.specs.Plans.{AreListed};
ghost use Rattle.command_work.specs.Counts.{KeepsBut};
ghost use Rattle.command_work.specs.Calls.{DoesOn, TalliesOn};
ghost use Rattle.play_inputs.specs.Listings.{scripts_listed, listed_answer};
ghost use Rattle.play_inputs.specs.Listings.{IsSourceFile, KeepTables, StopsListing};
ghost use Rattle.play_inputs.specs.Listings.{line_names, loaded_names};
ghost use Rattle.play_inputs.specs.Reads.{ReadsLines};

use crate::code::read_script;
use command_work::Status;
use ncs_machine::Scripts;
use nwq_outside::{Files, Sink};
use nwq_value::{Items, NoMemory, Table};
use plan_text::Script;
use std::alloc::Global;

/// The scripts that a plan lists, checked under a header: all are well stacked, by the tables that
/// are kept. The file of each source is written at once, also where a later one is refused, and no
/// other file.
#[tactic(auto, using(command_work::specs::KeepsLemmas::keeps_all))]
pub fn list_scripts<F: Files, S: Sink>(
    alloc: Global,
    table: &Table,
    lines: &[Script],
    files: &mut F,
    out: &mut S,
) -> Result<Scripts, Status>
    requires named { AreListed lines.now }
    ensures does { IsTrue F.tells → IsTrue S.tells → DoesOn F.contents S.taken (scripts_listed
        table.now lines.now) files.old out.old (listed_answer result) files.new out.new }
    ensures counts { TalliesOn F.counts S.faults result files.old out.old files.new out.new }
    ensures names { KeepsBut (IsSourceFile lines.now) (F.contents files.old) (F.contents
        files.new) }
    ensures once { IsTrue F.tells → OnOk result (ReadsLines lines.now (F.contents files.old)
        (F.contents files.new) (F.reads files.old) (F.reads files.new)) }
    ensures kept { IfOk result (KeepTables table.now) }
    ensures listed { IfOk result (λ scripts. loaded_names scripts ≡ line_names lines.now) }
    ensures count { IfOk result (λ scripts. length scripts ≡ length lines.now) }
    ensures only { IfErr result StopsListing }
{
    let mut scripts = Items::new(alloc);
    for line in lines {
        match read_script(alloc, table, line, files, out) {
            Err(status) => {
                drop(scripts);
                return Err(status);
            }
            Ok(script) => match scripts.push(script) {
                Err(NoMemory) => {
                    drop(scripts);
                    return Err(Status::Memory);
                }
                Ok(()) => {}
            },
        }
    }
    Ok(scripts)
}
