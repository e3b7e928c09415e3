//! The lines of a tree.

ghost use Rattle.std.specs.Prelude.{◌≡◌, ◌++◌, ◌∷◌, codes, IfOk, OnOk};
ghost use Rattle.std.specs.List.{flat_map};
ghost use Rattle.std.specs.Fmt.{decimal, signed_decimal};
ghost use Rattle.nwq_text.specs.Escape.{escaped, quoted};
ghost use Rattle.gff_tree.specs.Tree.{plain_node, plain_leaf};
ghost use Rattle.gff_tree.specs.Whole.{plain_gff};
ghost use Rattle.gff_text.specs.Text.{line, leaf_text, part_line, struct_lines, lines_below};
ghost use Rattle.gff_text.specs.Text.{tree_text};

use crate::lines::{deeper, put_bytes, put_spaces};
use crate::value::put_leaf;
use gff_tree::{Gff, Leaf, LocPart, Node, readings_tell};
use nwq_text::{put_count, put_number, put_quoted, put_text};
use nwq_value::NoMemory;
use std::alloc::Global;

fn put_first_line(out: &mut Vec<u8>, file_type: &[u8]) -> Result<(), NoMemory>
    ensures { OnOk result (out.new.items ≡ out.old.items
        ++ line 0 (codes "gff " ++ quoted file_type.now)) }
{
    put_bytes(out, b"gff ".as_slice())?;
    put_quoted(out, file_type)?;
    out.push(b'\n')?;
    Ok(())
}

fn put_struct_line(out: &mut Vec<u8>, depth: usize, kind: u32) -> Result<(), NoMemory>
    ensures { OnOk result (out.new.items ≡ out.old.items
        ++ line depth (codes "struct " ++ decimal kind)) }
{
    put_spaces(out, depth)?;
    put_bytes(out, b"struct ".as_slice())?;
    put_count(out, u64::from(kind))?;
    out.push(b'\n')?;
    Ok(())
}

fn put_field_line(
    out: &mut Vec<u8>,
    depth: usize,
    label: &[u8],
    leaf: &Leaf,
) -> Result<(), NoMemory>
    ensures { OnOk result (out.new.items ≡ out.old.items
        ++ line depth (escaped label.now ++ 32 ∷ leaf_text (plain_leaf leaf.now))) }
{
    put_spaces(out, depth)?;
    put_text(out, label)?;
    out.push(b' ')?;
    put_leaf(out, leaf)?;
    out.push(b'\n')?;
    Ok(())
}

fn put_part(out: &mut Vec<u8>, depth: usize, part: &LocPart) -> Result<(), NoMemory>
    ensures { OnOk result (out.new.items ≡ out.old.items ++ part_line depth part.now) }
{
    put_spaces(out, depth)?;
    put_number(out, i64::from(part.id))?;
    out.push(b' ')?;
    put_quoted(out, part.text.as_slice())?;
    out.push(b'\n')?;
    Ok(())
}

fn put_parts(out: &mut Vec<u8>, depth: usize, parts: &[LocPart]) -> Result<(), NoMemory>
    ensures { OnOk result (out.new.items ≡ out.old.items ++ flat_map (part_line depth) parts.now) }
{
    for part in parts {
        put_part(out, depth, part)?;
    }
    Ok(())
}

/// A struct and all below it.
#[cycle(lines)]
fn put_struct(out: &mut Vec<u8>, depth: usize, node: &Node) -> Result<(), NoMemory>
    ensures { OnOk result (out.new.items ≡ out.old.items
        ++ struct_lines depth (plain_node node.now)) }
{
    readings_tell();
    put_struct_line(out, depth, node.kind)?;
    let below = deeper(depth)?;
    let lower = deeper(below)?;
    for field in &node.fields {
        put_field_line(out, below, field.label.bytes(), &field.leaf)?;
        put_below(out, lower, &field.leaf)?;
    }
    Ok(())
}

/// What stands in a field.
#[cycle(lines)]
fn put_below(out: &mut Vec<u8>, depth: usize, leaf: &Leaf) -> Result<(), NoMemory>
    ensures { OnOk result (out.new.items ≡ out.old.items
        ++ lines_below depth (plain_leaf leaf.now)) }
{
    readings_tell();
    match leaf {
        Leaf::Loc(loc) => put_parts(out, depth, loc.parts.as_slice()),
        Leaf::Struct(node) => put_struct(out, depth, node),
        Leaf::List(nodes) => {
            for node in nodes {
                put_struct(out, depth, node)?;
            }
            Ok(())
        }
        _ => Ok(()),
    }
}

fn put_tree(out: &mut Vec<u8>, tree: &Gff) -> Result<(), NoMemory>
    ensures { OnOk result (out.new.items ≡ out.old.items ++ tree_text (plain_gff tree.now)) }
{
    put_first_line(out, &tree.file_type)?;
    put_struct(out, 0, &tree.top)
}

/// The text of a tree.
pub fn tree_text(alloc: Global, tree: &Gff) -> Result<Vec<u8>, NoMemory>
    ensures text { IfOk result (λ text. text.items ≡ tree_text (plain_gff tree.now)) }
{
    let mut out = Vec::new(alloc);
    put_tree(&mut out, tree)?;
    Ok(out)
}
