//! What the types of a tree's fields keep of their values.

ghost use Rattle.std.specs.Prelude.{◌≡◌, length};
ghost use Rattle.gff_tree.specs.Tree.{plain_node, plain_leaf};
ghost use Rattle.gff_tree.specs.Whole.{plain_gff};
ghost use Rattle.gff_write.specs.Laws.{IsTree, IsNode, IsLeaf, AreBytesByPlace, AreParts};

use gff_tree::{Gff, Leaf, LocPart, Node, readings_tell};

/// Tells the proof what the types keep: a tree of a program is in the ranges that the law of the
/// writing asks for. The walk reads each number, which is how its range becomes known; it computes
/// nothing and changes nothing.
pub fn tree_ranges(tree: &Gff)
    ensures { IsTree (plain_gff tree.now) }
{
    type_length(&tree.file_type);
    node_ranges(&tree.top);
}

/// Each number of a struct, and of all below it, is in the range of its type.
#[cycle(ranges)]
fn node_ranges(node: &Node)
    ensures { IsNode (plain_node node.now) }
{
    readings_tell();
    let _kind = node.kind;
    for field in &node.fields {
        let _label = field.label.bytes();
        leaf_ranges(&field.leaf);
    }
}

fn byte_ranges(bytes: &[u8])
    ensures { AreBytesByPlace bytes.now }
{
    let _count = bytes.len();
}

fn float_ranges(bits: &[u8; 4])
    ensures length { length bits.now ≡ 4 }
    ensures bytes { AreBytesByPlace bits.now }
{
    let bytes = bits.as_slice();
    byte_ranges(bytes);
}

fn double_length(bits: &[u8; 8])
    ensures { length bits.now ≡ 8 }
{
    let _bits = *bits;
}

fn type_length(file_type: &[u8; 4])
    ensures { length file_type.now ≡ 4 }
{
    let _file_type = *file_type;
}

fn part_ranges(parts: &[LocPart])
    ensures { AreParts parts.now }
{
    for part in parts {
        let _id = part.id;
    }
}

#[cycle(ranges)]
fn leaf_ranges(leaf: &Leaf)
    ensures { IsLeaf (plain_leaf leaf.now) }
{
    readings_tell();
    match leaf {
        Leaf::Byte(n) => {
            let _n = *n;
        }
        Leaf::Char(n) => {
            let _n = *n;
        }
        Leaf::Word(n) => {
            let _n = *n;
        }
        Leaf::Short(n) => {
            let _n = *n;
        }
        Leaf::Dword(n) => {
            let _n = *n;
        }
        Leaf::Int(n) => {
            let _n = *n;
        }
        Leaf::Dword64(n) => {
            let _n = *n;
        }
        Leaf::Int64(n) => {
            let _n = *n;
        }
        Leaf::Float(bits) => float_ranges(bits),
        Leaf::Double(bits) => double_length(bits),
        Leaf::Loc(loc) => {
            let _str_ref = loc.str_ref;
            part_ranges(loc.parts.as_slice());
        }
        Leaf::Struct(node) => node_ranges(node),
        Leaf::List(nodes) => {
            for node in nodes {
                node_ranges(node);
            }
        }
        Leaf::Str(_) | Leaf::Res(_) | Leaf::Void(_) => {}
    }
}
