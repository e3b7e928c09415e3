//! How many structs a tree has.

ghost use Rattle.std.specs.Prelude.{◌≡◌, ◌≤◌};
ghost use Rattle.gff_tree.specs.Tree.{plain_node, plain_leaf};
ghost use Rattle.gff_tree.specs.Count.{node_count, leaf_count};
ghost use Rattle.gff_write.specs.Flat.{tree_limit};

use gff_tree::{Leaf, Node, readings_tell};

/// How many structs a struct is, with all below it.
#[cycle(count)]
pub fn count_node(node: &Node) -> u64
    requires few { node_count (plain_node node.now) ≤ tree_limit }
    ensures { result ≡ node_count (plain_node node.now) }
{
    readings_tell();
    let mut total = 1;
    for field in &node.fields {
        total += count_leaf(&field.leaf);
    }
    total
}

/// How many structs stand in a field, with all below them.
#[cycle(count)]
pub fn count_leaf(leaf: &Leaf) -> u64
    requires few { leaf_count (plain_leaf leaf.now) ≤ tree_limit }
    ensures { result ≡ leaf_count (plain_leaf leaf.now) }
{
    readings_tell();
    match leaf {
        Leaf::Struct(node) => count_node(node),
        Leaf::List(nodes) => {
            let mut total = 0;
            for node in nodes {
                total += count_node(node);
            }
            total
        }
        _ => 0,
    }
}
