ghost use Rattle.std.specs.Prelude.{◌≡◌, ◌≤◌, ◌<◌, ℕ, length, IsTrue, IfOk, IfErr};
ghost use Rattle.nwq_value.specs.Limits.{file_limit};
ghost use Rattle.gff_tree.specs.Whole.{plain_gff};
ghost use Rattle.gff_tree.specs.Count.{node_count};
ghost use Rattle.gff_read.specs.Stands.{Stands};
ghost use Rattle.nwq_outside.specs.Outside.{next};
ghost use Rattle.command_work.specs.Counts.{Refusing, StopsArea};
ghost use Rattle.command_work.specs.Calls.{DoesOn, TalliesOn, TalliesPuts, DoesPuts};
ghost use Rattle.command_files.specs.Trees.{open_flaw, tree_flaw, tree_in, tree_named};
ghost use Rattle.command_files.specs.Trees.{plain_tree_answer};

use command_work::{AreaFlaw, Status, read_file, refuse_area};
use gff_bytes::{OpenFault, View};
use gff_read::{TreeFault, read};
use gff_tree::Gff;
use nwq_outside::{Files, Sink};
use std::alloc::Global;

/// What is wrong with bytes that are no GFF file.
fn open_flaw(fault: OpenFault) -> AreaFlaw
    ensures { result ≡ open_flaw fault }
{
    match fault {
        OpenFault::Short => AreaFlaw::Short,
        OpenFault::Version => AreaFlaw::Version,
        OpenFault::Section(number) => AreaFlaw::Section(number),
    }
}

/// What is wrong with a GFF file that has no tree; nothing where only memory ran out.
fn tree_flaw(fault: TreeFault) -> Option<AreaFlaw>
    ensures { result ≡ tree_flaw fault }
{
    match fault {
        TreeFault::Range(range) => Some(AreaFlaw::Range(range.part, range.at)),
        TreeFault::Kind(field) => Some(AreaFlaw::Type(field)),
        TreeFault::Shared(at) => Some(AreaFlaw::Shared(at)),
        TreeFault::Deep(at) => Some(AreaFlaw::Deep(at)),
        TreeFault::Label(field) => Some(AreaFlaw::Label(field)),
        TreeFault::NoMemory => None,
    }
}

/// The tree in the bytes of the file of this name: what the bytes stand for. Its structs can be
/// numbered by 32 bits.
#[tactic(auto, using(crate::proofs::TreeLemmas::unopened_does, crate::proofs::TreeLemmas::trees))]
pub fn tree_of_bytes<S: Sink>(
    alloc: Global,
    name: &[u8],
    bytes: &[u8],
    out: &mut S,
) -> Result<Gff, Status>
    requires { length bytes.now ≤ file_limit }
    ensures does { IsTrue S.tells → DoesPuts S.taken (tree_in name.now bytes.now)
        out.old (plain_tree_answer result) out.new }
    ensures counts { TalliesPuts S.faults result out.old out.new }
    ensures stands { IfOk result (λ tree. Stands bytes.now (plain_gff tree)) }
    ensures few { IfOk result (λ tree. node_count (plain_gff tree).top < 4294967296) }
    ensures only { IfErr result (Refusing Status.Area) }
{
    match View::open(bytes) {
        Err(fault) => Err(refuse_area(alloc, name, open_flaw(fault), out)),
        Ok(view) => match read(alloc, &view) {
            Ok(tree) => Ok(tree),
            Err(fault) => match tree_flaw(fault) {
                Some(flaw) => Err(refuse_area(alloc, name, flaw, out)),
                None => Err(Status::Memory),
            },
        },
    }
}

/// The tree of the GFF file of this name, whose structs can be numbered by 32 bits.
#[tactic(auto, using(crate::proofs::Steps::steps), unfolding(crate::specs::Trees::tree_named))]
pub fn read_tree<F: Files, S: Sink>(
    alloc: Global,
    name: &str,
    files: &mut F,
    out: &mut S,
) -> Result<Gff, Status>
    ensures does { IsTrue F.tells → IsTrue S.tells → DoesOn F.contents S.taken (tree_named name.now)
        files.old out.old (plain_tree_answer result) files.new out.new }
    ensures counts { TalliesOn F.counts S.faults result files.old out.old files.new out.new }
    ensures same { F.contents files.new ≡ F.contents files.old }
    ensures once { F.reads files.new ≡ next (F.reads files.old) }
    ensures few { IfOk result (λ tree. node_count (plain_gff tree).top < 4294967296) }
    ensures only { IfErr result StopsArea }
{
    match read_file(alloc, name, files, out) {
        Err(status) => Err(status),
        Ok(bytes) => tree_of_bytes(alloc, name.as_bytes(), bytes.as_slice(), out),
    }
}
