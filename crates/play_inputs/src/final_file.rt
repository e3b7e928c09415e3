ghost use Rattle.std.specs.Prelude.{◌≡◌, ℕ, IsTrue, IfErr};
ghost use Rattle.area_back.specs.Back.{tree_back};
ghost use Rattle.command_work.specs.Counts.{KeepsBut, Refusing};
ghost use Rattle.command_work.specs.Calls.{DoesOn, TalliesOn, IsName};
ghost use Rattle.play_inputs.specs.Finals.{final_written};

use area_back::into_tree;
use area_tree::Area;
use command_work::{AreaFlaw, Status, refuse_area, write_file};
use gff_write::{WriteFault, write};
use nwq_outside::{Files, Sink};
use nwq_value::NoMemory;
use std::alloc::Global;

/// Writes the file of an area, as it is now, under this name.
#[tactic(auto, using(crate::proofs::FinalLemmas::finals, command_work::specs::KeepsLemmas::keeps_all))]
pub fn write_area<F: Files, S: Sink>(
    alloc: Global,
    name: &str,
    area: Area,
    files: &mut F,
    out: &mut S,
) -> Result<(), Status>
    ensures does { IsTrue F.tells → IsTrue S.tells → DoesOn F.contents S.taken
        (final_written name.now (tree_back area)) files.old out.old result files.new out.new }
    ensures counts { TalliesOn F.counts S.faults result files.old out.old files.new out.new }
    ensures names { KeepsBut (IsName name.now) (F.contents files.old) (F.contents files.new) }
    ensures unread { F.reads files.new ≡ F.reads files.old }
    ensures only { IfErr result (Refusing Status.Area) }
{
    match into_tree(alloc, area) {
        Err(NoMemory) => Err(Status::Memory),
        Ok(tree) => match write(alloc, &tree) {
            Ok(bytes) => write_file(name, bytes.as_slice(), files),
            Err(WriteFault::Large(size)) => {
                Err(refuse_area(alloc, name.as_bytes(), AreaFlaw::Large(size), out))
            }
            Err(WriteFault::NoMemory) => Err(Status::Memory),
        },
    }
}
