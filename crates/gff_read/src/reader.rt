//! The reading of a file.

ghost use Rattle.std.specs.Prelude.{◌≡◌, ◌<◌, ◌≤◌, false, replicate, IfOk, Ok};
ghost use Rattle.gff_tree.specs.Whole.{PlainGff, plain_gff};
ghost use Rattle.gff_read.specs.Rows.{Gives};
ghost use Rattle.gff_read.specs.Stands.{Stands};
ghost use Rattle.gff_tree.specs.Count.{node_count};
ghost use Rattle.gff_read.specs.Charge.{node_charge, tree_limit};
ghost use Rattle.gff_read.specs.Walk.{struct_count, tree_of};

use crate::budget::TREE_BYTES;
use crate::fault::TreeFault;
use crate::walk::read_node;
use gff_bytes::View;
use gff_tree::Gff;
use nwq_value::NoMemory;
use std::alloc::Global;

/// How deep a struct is at most, the top being 1 deep.
const DEPTH: u8 = 64;

fn marks(alloc: Global, view: &View<'_>) -> Result<Vec<bool>, NoMemory>
    ensures none { IfOk result (λ marks. marks.items ≡ replicate (struct_count view.now) false) }
    ensures few { struct_count view.now < 4294967296 }
{
    let count = view.struct_count() as usize;
    Ok(vec![in alloc; false; count]?)
}

/// The tree of a file, or the first test of the walk that fails. `NoMemory` also comes where the
/// tree would be charged more than so many bytes.
#[tactic(auto, unfolding(crate::specs::Walk::tree_of))]
pub fn read_within(alloc: Global, view: &View<'_>, bytes: u64) -> Result<Gff, TreeFault>
    ensures found { IfOk result (λ gff. Stands view.now (plain_gff gff)) }
    ensures few { IfOk result (λ gff. node_count (plain_gff gff).top < 4294967296) }
    ensures exact { Gives plain_gff result (tree_of view.now) }
    ensures within { IfOk result (λ gff. node_charge (plain_gff gff).top ≤ bytes) }
{
    let mut marks = marks(alloc, view)?;
    let mut left = bytes;
    let top = read_node(alloc, view, &mut marks, 0, DEPTH, &mut left)?;
    Ok(Gff {
        file_type: view.file_type(),
        top,
    })
}

/// The tree of a file, or the first test of the walk that fails. The walk is in preorder from
/// struct 0. At a struct it tests the struct's range, that it was not reached before, and its
/// depth; then, field after field, the index word, the field's range, its type, its label's range,
/// that the label is new in this struct, its data and its list words. Then it goes down. `NoMemory`
/// also comes where the tree would be charged more than [`TREE_BYTES`] bytes.
pub fn read(alloc: Global, view: &View<'_>) -> Result<Gff, TreeFault>
    // What is read is what the bytes stand for.
    ensures found { IfOk result (λ gff. Stands view.now (plain_gff gff)) }
    // What the bytes stand for is read, unless memory runs out.
    ensures only { (gff : PlainGff) → Stands view.now gff → Gives plain_gff result (Ok gff) }
    // The structs of a tree can be numbered by 32 bits.
    ensures few { IfOk result (λ gff. node_count (plain_gff gff).top < 4294967296) }
    // Which fault it is.
    ensures exact { Gives plain_gff result (tree_of view.now) }
    // No tree that is read takes more than its budget.
    ensures within { IfOk result (λ gff. node_charge (plain_gff gff).top ≤ tree_limit) }
{
    read_within(alloc, view, TREE_BYTES)
}
