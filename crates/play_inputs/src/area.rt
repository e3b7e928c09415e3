ghost use Rattle.std.specs.Prelude.{◌≡◌, ◌<◌, ◌≤◌, ℕ, [], length, IsTrue, IfOk, IfErr};
ghost use Rattle.nwq_value.specs.Limits.{file_limit};
ghost use Rattle.gff_tree.specs.Whole.{plain_gff};
ghost use Rattle.gff_tree.specs.Count.{node_count};
ghost use Rattle.area_rules.specs.Area.{area_of};
ghost use Rattle.area_rules.specs.Broken.{broken_places};
ghost use Rattle.nwq_outside.specs.Outside.{next};
ghost use Rattle.command_work.specs.Counts.{Refusing, StopsArea};
ghost use Rattle.command_work.specs.Calls.{DoesOn, TalliesOn, TalliesPuts, DoesPuts};
ghost use Rattle.play_inputs.specs.Areas.{area_flaw, area_in, area_named, area_of_bytes, TellsArea};

use area_rules::AreaFault;
use area_tree::Area;
use command_files::{read_tree, tree_of_bytes};
use command_work::{AreaFlaw, Status, refuse_area};
use gff_tree::Gff;
use nwq_outside::{Files, Sink};
use std::alloc::Global;

/// What is wrong with a tree that is no area; nothing where only memory ran out.
fn area_flaw(fault: AreaFault) -> Option<AreaFlaw>
    ensures { result ≡ area_flaw fault }
{
    match fault {
        AreaFault::Shape {
            list,
            member,
            entry,
        } => Some(AreaFlaw::Shape {
            list,
            member,
            entry,
        }),
        AreaFault::NoMemory => None,
    }
}

/// The area that the tree of the file of this name tells.
#[tactic(auto, using(crate::proofs::AreaLemmas::areas))]
fn area_of_tree<S: Sink>(alloc: Global, name: &[u8], tree: Gff, out: &mut S) -> Result<Area, Status>
    requires few { node_count (plain_gff tree).top < 4294967296 }
    ensures does { IsTrue S.tells → DoesPuts S.taken (area_in name.now (plain_gff tree))
        out.old result out.new }
    ensures area { IfOk result (λ area. (broken_places (plain_gff tree).top ≡ [])
        × (area ≡ area_of (plain_gff tree))) }
    ensures counts { TalliesPuts S.faults result out.old out.new }
    ensures only { IfErr result (Refusing Status.Area) }
{
    match Area::of(alloc, tree) {
        Ok(area) => Ok(area),
        Err(fault) => match area_flaw(fault) {
            Some(flaw) => Err(refuse_area(alloc, name, flaw, out)),
            None => Err(Status::Memory),
        },
    }
}

/// The area in the bytes of the GFF file of this name.
#[tactic(auto, using(crate::proofs::Steps::steps, crate::proofs::AreaLemmas::tells), unfolding(crate::specs::Areas::area_of_bytes))]
pub fn area_of_bytes<S: Sink>(
    alloc: Global,
    name: &[u8],
    bytes: &[u8],
    out: &mut S,
) -> Result<Area, Status>
    requires size { length bytes.now ≤ file_limit }
    ensures does { IsTrue S.tells → DoesPuts S.taken (area_of_bytes name.now bytes.now)
        out.old result out.new }
    ensures counts { TalliesPuts S.faults result out.old out.new }
    ensures tells { IfOk result (TellsArea bytes.now) }
    ensures only { IfErr result (Refusing Status.Area) }
{
    match tree_of_bytes(alloc, name, bytes, out) {
        Err(status) => Err(status),
        Ok(tree) => area_of_tree(alloc, name, tree, out),
    }
}

/// The area of the GFF file of this name.
#[tactic(auto, using(crate::proofs::Steps::steps), unfolding(crate::specs::Areas::area_named))]
pub fn read_area<F: Files, S: Sink>(
    alloc: Global,
    name: &str,
    files: &mut F,
    out: &mut S,
) -> Result<Area, Status>
    ensures does { IsTrue F.tells → IsTrue S.tells → DoesOn F.contents S.taken (area_named name.now)
        files.old out.old result files.new out.new }
    ensures counts { TalliesOn F.counts S.faults result files.old out.old files.new out.new }
    ensures same { F.contents files.new ≡ F.contents files.old }
    ensures once { F.reads files.new ≡ next (F.reads files.old) }
    ensures only { IfErr result StopsArea }
{
    match read_tree(alloc, name, files, out) {
        Err(status) => Err(status),
        Ok(tree) => area_of_tree(alloc, name.as_bytes(), tree, out),
    }
}
