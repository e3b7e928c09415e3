//! The objects of an area's tree, and the fields of their scripts.

ghost use Rattle.std.specs.Prelude.{◌≤◌, ◌<◌, length, IfSome};
ghost use Rattle.nwq_value.specs.Limits.{file_limit};
ghost use Rattle.gff_tree.specs.Count.{node_count};
ghost use Rattle.gff_tree.specs.Whole.{plain_gff};

use area_tree::list_label;
use gff_bytes::View;
use gff_read::read;
use gff_tree::{Gff, Leaf, Node};
use std::alloc::Global;

/// How many lists of objects an area has.
const LISTS: u8 = 5;

/// The tree of a GFF file, if it has one and memory is enough.
pub(crate) fn tree_in(alloc: Global, bytes: &[u8]) -> Option<Gff>
    requires size { length bytes.now ≤ file_limit }
    ensures few { IfSome result (λ tree. node_count (plain_gff tree).top < 4294967296) }
{
    match View::open(bytes) {
        Err(_) => None,
        Ok(view) => match read(alloc, &view) {
            Ok(tree) => Some(tree),
            Err(_) => None,
        },
    }
}

/// Whether one of the lists of objects is there.
pub(crate) fn has_lists(top: &Node) -> bool {
    for list in 0..LISTS {
        if top.find(list_label(list)).is_some() {
            return true;
        }
    }
    false
}

/// The members of a list of objects, none where it isn't there.
fn members(top: &Node, list: u8) -> &[Node]
    requires known { list < 5 }
{
    match top.find(list_label(list)) {
        None => &[],
        Some(leaf) => match leaf.list() {
            None => &[],
            Some(nodes) => nodes,
        },
    }
}

/// The struct of the object of this number, counted from 1.
fn object_node(top: &Node, number: u32) -> Option<&Node> {
    let mut left = number.checked_sub(1)? as usize;
    for list in 0..LISTS {
        let nodes = members(top, list);
        if left < nodes.len() {
            return Some(&nodes[left]);
        }
        left -= nodes.len();
    }
    None
}

/// Whether the object of this number has a field of this label for a script.
pub(crate) fn has_script(top: &Node, number: u32, label: &[u8]) -> bool {
    match object_node(top, number) {
        None => false,
        Some(node) => matches!(node.find(label), Some(Leaf::Res(_))),
    }
}
