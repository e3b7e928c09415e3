//! What the fields of a tree hold, as the file has it.

ghost use Rattle.std.specs.Prelude.{◌≡◌, ◌≤◌, ◌+◌, ◌++◌, length, IfOk, OnOk};
ghost use Rattle.std.specs.List.{flat_map};
ghost use Rattle.gff_tree.specs.Tree.{plain_leaf, nodes_list, fields_list};
ghost use Rattle.gff_write.specs.declared.flat.Content.TheVariants.{Data, Numbers};
ghost use Rattle.gff_write.specs.Flat.{word, wide, length_prefixed, named, part_bytes};
ghost use Rattle.gff_write.specs.Flat.{localized_bytes};
ghost use Rattle.gff_write.specs.Flat.{leaf_kind, leaf_content, numbers_from, padded, entries_from};
ghost use Rattle.gff_tree.specs.Count.{fields_count, leaf_count, nodes_count};
ghost use Rattle.gff_write.specs.Flat.{tree_limit};

use crate::count::{count_leaf, count_node};
use crate::flat::{Content, Entry};
use crate::put::{put_counted, put_wide, put_word};
use gff_tree::{Field, LABEL_BYTES, Label, Leaf, Loc, Node, readings_tell};
use nwq_value::{Items, NoMemory};
use std::alloc::Global;

fn counted_data(alloc: Global, text: &[u8]) -> Result<Content, NoMemory>
    ensures { IfOk result (λ content. content ≡ Data (length_prefixed text.now)) }
{
    let mut bytes = Items::new(alloc);
    put_counted(&mut bytes, text)?;
    Ok(Content::Data(bytes))
}

fn wide_data(alloc: Global, n: u64) -> Result<Content, NoMemory>
    ensures { IfOk result (λ content. content ≡ Data (wide n)) }
{
    let mut bytes = Items::new(alloc);
    put_wide(&mut bytes, n)?;
    Ok(Content::Data(bytes))
}

fn copied_data(alloc: Global, bytes: &[u8]) -> Result<Content, NoMemory>
    ensures { IfOk result (λ content. content ≡ Data bytes.now) }
{
    Ok(Content::Data(Items::of_slice(alloc, bytes)?))
}

/// The name of a resource behind its length.
fn named_data(alloc: Global, name: &[u8]) -> Result<Content, NoMemory>
    ensures { IfOk result (λ content. content ≡ Data (named name.now)) }
{
    let mut bytes = Items::new(alloc);
    bytes.push((name.len() % 256) as u8)?;
    bytes.extend(name)?;
    Ok(Content::Data(bytes))
}

/// Puts a localized string last, without its total size.
fn put_localized(bytes: &mut Items<u8>, loc: &Loc) -> Result<(), NoMemory>
    ensures { OnOk result (bytes.new ≡ bytes.old ++ word loc.now.str_ref
        ++ word (length loc.now.parts) ++ flat_map part_bytes loc.now.parts) }
{
    put_word(bytes, u64::from(loc.str_ref))?;
    put_word(bytes, loc.parts.len() as u64)?;
    for part in loc.parts.as_slice() {
        put_word(bytes, u64::from(part.id.cast_unsigned()))?;
        put_counted(bytes, part.text.as_slice())?;
    }
    Ok(())
}

/// A localized string behind its total size.
fn localized_data(alloc: Global, loc: &Loc) -> Result<Content, NoMemory>
    ensures { IfOk result (λ content. content ≡ Data (localized_bytes loc.now)) }
{
    let mut body = Items::new(alloc);
    put_localized(&mut body, loc)?;
    counted_data(alloc, body.as_slice())
}

/// Puts the numbers of a list's structs last, from a number on.
fn put_numbers(numbers: &mut Items<u64>, nodes: &[Node], first: u64) -> Result<(), NoMemory>
    requires few { first + nodes_count (nodes_list nodes.now) ≤ tree_limit }
    ensures { OnOk result (numbers.new ≡ numbers.old
        ++ numbers_from first (nodes_list nodes.now)) }
{
    let mut next = first;
    for node in nodes {
        numbers.push(next)?;
        next += count_node(node);
    }
    Ok(())
}

fn numbered(alloc: Global, nodes: &[Node], first: u64) -> Result<Content, NoMemory>
    requires few { first + nodes_count (nodes_list nodes.now) ≤ tree_limit }
    ensures { IfOk result (λ content. content ≡ Numbers (numbers_from first
        (nodes_list nodes.now))) }
{
    let mut numbers = Items::new(alloc);
    put_numbers(&mut numbers, nodes, first)?;
    Ok(Content::Numbers(numbers))
}

fn kind_of(leaf: &Leaf) -> u32
    ensures { result ≡ leaf_kind (plain_leaf leaf.now) }
{
    readings_tell();
    match leaf {
        Leaf::Byte(_) => 0,
        Leaf::Char(_) => 1,
        Leaf::Word(_) => 2,
        Leaf::Short(_) => 3,
        Leaf::Dword(_) => 4,
        Leaf::Int(_) => 5,
        Leaf::Dword64(_) => 6,
        Leaf::Int64(_) => 7,
        Leaf::Float(_) => 8,
        Leaf::Double(_) => 9,
        Leaf::Str(_) => 10,
        Leaf::Res(_) => 11,
        Leaf::Loc(_) => 12,
        Leaf::Void(_) => 13,
        Leaf::Struct(_) => 14,
        Leaf::List(_nodes) => 15,
    }
}

fn content_of(alloc: Global, leaf: &Leaf, first: u64) -> Result<Content, NoMemory>
    requires few { first + leaf_count (plain_leaf leaf.now) ≤ tree_limit }
    ensures { IfOk result (λ content. content ≡ leaf_content first (plain_leaf leaf.now)) }
{
    readings_tell();
    match leaf {
        Leaf::Byte(n) => Ok(Content::Small(u32::from(*n))),
        Leaf::Char(n) => Ok(Content::Small(u32::from(n.cast_unsigned()))),
        Leaf::Word(n) => Ok(Content::Small(u32::from(*n))),
        Leaf::Short(n) => Ok(Content::Small(u32::from(n.cast_unsigned()))),
        Leaf::Dword(n) => Ok(Content::Small(*n)),
        Leaf::Int(n) => Ok(Content::Small(n.cast_unsigned())),
        Leaf::Dword64(n) => wide_data(alloc, *n),
        Leaf::Int64(n) => wide_data(alloc, n.cast_unsigned()),
        Leaf::Float(bits) => Ok(Content::Small(u32::from_le_bytes(*bits))),
        Leaf::Double(bits) => copied_data(alloc, bits.as_slice()),
        Leaf::Str(text) => counted_data(alloc, text.as_slice()),
        Leaf::Res(name) => named_data(alloc, name.as_slice()),
        Leaf::Loc(loc) => localized_data(alloc, loc),
        Leaf::Void(bytes) => counted_data(alloc, bytes.as_slice()),
        Leaf::Struct(_) => Ok(Content::Number(first)),
        Leaf::List(nodes) => numbered(alloc, nodes, first),
    }
}

/// The bytes of a label, filled up with zero bytes.
pub fn filled(label: &Label) -> [u8; 16]
    ensures { result ≡ padded label.now }
{
    let mut row = [0; LABEL_BYTES];
    let text = label.bytes();
    row[..text.len()].copy_from_slice(text);
    row
}

/// Puts the fields of a struct last, whose structs have the numbers from `first` on.
pub fn put_fields(
    alloc: Global,
    entries: &mut Items<Entry>,
    fields: &[Field],
    first: u64,
) -> Result<(), NoMemory>
    requires few { first + fields_count (fields_list fields.now) ≤ tree_limit }
    ensures { OnOk result (entries.new ≡ entries.old
        ++ entries_from first (fields_list fields.now)) }
{
    let mut next = first;
    for field in fields {
        let content = content_of(alloc, &field.leaf, next)?;
        entries.push(Entry {
            label: filled(&field.label),
            kind: kind_of(&field.leaf),
            content,
        })?;
        next += count_leaf(&field.leaf);
    }
    Ok(())
}
