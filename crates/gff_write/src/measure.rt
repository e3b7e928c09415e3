//! How many bytes the file of a tree has, counted over the tree.

ghost use Rattle.std.specs.Prelude.{◌≡◌, ◌+◌, ◌-◌, ◌^◌, min, length, [], IfOk};
ghost use Rattle.std.specs.List.{flat_map};
ghost use Rattle.gff_tree.specs.Tree.{plain_node, plain_leaf};
ghost use Rattle.gff_tree.specs.Whole.{plain_gff};
ghost use Rattle.gff_write.specs.Flat.{part_bytes, rows_of};
ghost use Rattle.gff_write.specs.File.{joined, row_labels, written};
ghost use Rattle.gff_write.specs.Size.{capped, index_bytes, node_bytes, leaf_bytes};

use crate::labels::{LabelRow, Labels, label_table};
use gff_tree::{Gff, Leaf, LocPart, Node, readings_tell};
use nwq_value::NoMemory;
use std::alloc::Global;

/// The bytes of the header: the file type and what follows it.
fn header_size(file_type: &[u8; 4]) -> u64
    ensures { result ≡ length file_type.now + 52 }
{
    file_type.as_slice().len() as u64 + 52
}

/// A sum, which stays at the greatest number.
#[tactic(auto, unfolding(crate::specs::Size::capped))]
fn plus(a: u64, b: u64) -> u64
    ensures { result ≡ capped (a + b) }
{
    a.saturating_add(b)
}

/// The bytes of a localized string with these texts.
fn parts_size(parts: &[LocPart]) -> u64
    ensures { result ≡ capped (12 + length (flat_map part_bytes parts.now)) }
{
    let mut total = 12;
    for part in parts {
        total = plus(plus(total, 8), part.text.len() as u64);
    }
    total
}

/// The field indices of a struct of so many fields.
#[tactic(auto, unfolding(crate::specs::Size::capped))]
fn index_size(count: u64) -> u64
    ensures { result ≡ capped (index_bytes count) }
{
    if count < 2 {
        0
    } else {
        count.saturating_mul(4)
    }
}

/// A struct with all below it, labels aside.
#[cycle(size)]
pub fn node_size(node: &Node) -> u64
    ensures { result ≡ capped (node_bytes (plain_node node.now)) }
{
    readings_tell();
    let mut total = plus(12, index_size(node.fields.len() as u64));
    for field in &node.fields {
        total = plus(plus(total, 12), leaf_size(&field.leaf));
    }
    total
}

/// What a field holds, behind the field's row and without labels.
#[cycle(size)]
#[tactic(auto, unfolding(crate::specs::Size::capped))]
fn leaf_size(leaf: &Leaf) -> u64
    ensures { result ≡ capped (leaf_bytes (plain_leaf leaf.now)) }
{
    readings_tell();
    match leaf {
        Leaf::Dword64(_) => 8,
        Leaf::Int64(_) => 8,
        Leaf::Double(bits) => plus(0, bits.as_slice().len() as u64),
        Leaf::Str(text) => plus(4, text.len() as u64),
        Leaf::Res(name) => plus(1, name.len() as u64),
        Leaf::Loc(loc) => parts_size(loc.parts.as_slice()),
        Leaf::Void(bytes) => plus(4, bytes.len() as u64),
        Leaf::Struct(node) => node_size(node),
        Leaf::List(nodes) => {
            let mut total = 4;
            for node in nodes {
                total = plus(plus(total, 4), node_size(node));
            }
            total
        }
        _ => 0,
    }
}

fn row_size(row: &LabelRow) -> u64
    ensures size { result ≡ length row.now }
{
    row.as_slice().len() as u64
}

fn labels_size(labels: &[LabelRow]) -> u64
    ensures { result ≡ capped (length (joined labels.now)) }
{
    let mut total = 0;
    for label in labels {
        total = plus(total, row_size(label));
    }
    total
}

/// How many bytes the one file of a tree has whose labels are given, or 2^64 - 1 where these are
/// more. It takes no memory.
pub fn size_with(tree: &Gff, labels: &Labels) -> u64
    requires labels { labels.now ≡ row_labels [] (rows_of 0 (plain_node tree.now.top)) }
    ensures size { result ≡ min (length (written (plain_gff tree.now))) (2 ^ 64 - 1) }
{
    let structs = plus(header_size(&tree.file_type), node_size(&tree.top));
    plus(structs, labels_size(labels.rows()))
}

/// How many bytes the one file of a tree has, or 2^64 - 1 where these are more. It takes memory for
/// the distinct labels alone, and their number times its logarithm in time.
pub fn size(alloc: Global, tree: &Gff) -> Result<u64, NoMemory>
    ensures size { IfOk result (λ size. size
        ≡ min (length (written (plain_gff tree.now))) (2 ^ 64 - 1)) }
{
    let labels = label_table(alloc, &tree.top)?;
    Ok(size_with(tree, &labels))
}
