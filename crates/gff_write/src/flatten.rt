//! The structs of a tree in preorder.

ghost use Rattle.std.specs.Prelude.{◌≡◌, ◌≤◌, ◌+◌, ◌++◌, length, OnOk};
ghost use Rattle.gff_tree.specs.Tree.{plain_node, plain_leaf};
ghost use Rattle.gff_tree.specs.Count.{node_count, leaf_count};
ghost use Rattle.gff_write.specs.Flat.{rows_of, leaf_rows, tree_limit};

use crate::encode::put_fields;
use crate::flat::FlatStruct;
use gff_tree::{Leaf, Node, readings_tell};
use nwq_value::{Items, NoMemory};
use std::alloc::Global;

/// Puts a struct and all below it last.
#[cycle(flatten)]
pub fn flatten_node(
    alloc: Global,
    node: &Node,
    rows: &mut Items<FlatStruct>,
) -> Result<(), NoMemory>
    requires few { length rows.old + node_count (plain_node node.now) ≤ tree_limit }
    ensures { OnOk result (rows.new ≡ rows.old ++ rows_of (length rows.old) (plain_node node.now)) }
{
    readings_tell();
    let first = rows.len() as u64 + 1;
    let mut fields = Items::new(alloc);
    put_fields(alloc, &mut fields, &node.fields, first)?;
    rows.push(FlatStruct {
        kind: node.kind,
        fields,
    })?;
    for field in &node.fields {
        flatten_leaf(alloc, &field.leaf, rows)?;
    }
    Ok(())
}

/// Puts the structs that stand in a field last, with all below them.
#[cycle(flatten)]
fn flatten_leaf(alloc: Global, leaf: &Leaf, rows: &mut Items<FlatStruct>) -> Result<(), NoMemory>
    requires few { length rows.old + leaf_count (plain_leaf leaf.now) ≤ tree_limit }
    ensures { OnOk result (rows.new ≡ rows.old
        ++ leaf_rows (length rows.old) (plain_leaf leaf.now)) }
{
    readings_tell();
    match leaf {
        Leaf::Struct(node) => flatten_node(alloc, node, rows),
        Leaf::List(nodes) => {
            for node in nodes {
                flatten_node(alloc, node, rows)?;
            }
            Ok(())
        }
        _ => Ok(()),
    }
}
