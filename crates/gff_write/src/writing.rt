//! The writing of a tree.

ghost use Rattle.std.specs.Prelude.{◌≡◌, ◌≤◌, ◌++◌, [], length, IfOk, OnOk};
ghost use Rattle.gff_tree.specs.Whole.{PlainGff, plain_gff};
ghost use Rattle.gff_read.specs.Stands.{Stands};
ghost use Rattle.gff_tree.specs.Tree.{plain_node};
ghost use Rattle.gff_tree.specs.Count.{node_count};
ghost use Rattle.gff_write.specs.Flat.{rows_of, tree_limit};
ghost use Rattle.gff_write.specs.File.{Gives, field_count, row_labels, section_words, header_of};
ghost use Rattle.gff_write.specs.File.{body_of, written_rows, written, outcome_of};
ghost use Rattle.nwq_value.specs.Limits.{file_limit};

use crate::fault::WriteFault;
use crate::flat::FlatStruct;
use crate::flatten::flatten_node;
use crate::labels::{Labels, label_table};
use crate::measure::size_with;
use crate::put::{put_place, put_word};
use crate::ranges::tree_ranges;
use crate::sections::{Sections, sections_of};
use gff_read::one_tree;
use gff_tree::Gff;
use nwq_value::{FILE_BYTES, Items, NoMemory};
use std::alloc::Global;

/// Puts the offset and the count of a section last.
fn put_section(out: &mut Items<u8>, offset: u128, count: u64) -> Result<(), NoMemory>
    ensures { OnOk result (out.new ≡ out.old ++ section_words offset count) }
{
    put_place(out, offset)?;
    put_word(out, count)
}

/// How many fields the structs have.
fn count_fields(rows: &[FlatStruct]) -> u64
    requires few { field_count rows.now ≤ tree_limit }
    ensures { result ≡ field_count rows.now }
{
    let mut total = 0;
    for row in rows {
        total += row.fields.len() as u64;
    }
    total
}

/// Puts the header of a file with these sections last.
#[tactic(auto, unfolding(crate::specs::File::header_of))]
fn put_header(
    out: &mut Items<u8>,
    file_type: &[u8; 4],
    s: &Sections,
    structs: u64,
    fields: u64,
    labels: u64,
) -> Result<(), NoMemory>
    ensures { OnOk result (out.new
        ≡ out.old ++ header_of file_type.now s.now structs fields labels) }
{
    let field_place = 56 + s.structs.len() as u128;
    let label_place = field_place + s.fields.len() as u128;
    let data_place = label_place + s.labels.len() as u128;
    let index_place = data_place + s.data_bytes.len() as u128;
    let list_place = index_place + s.indices.len() as u128;
    out.extend(file_type.as_slice())?;
    out.extend(b"V3.2".as_slice())?;
    put_section(out, 56, structs)?;
    put_section(out, field_place, fields)?;
    put_section(out, label_place, labels)?;
    put_section(out, data_place, s.data_bytes.len() as u64)?;
    put_section(out, index_place, s.indices.len() as u64)?;
    put_section(out, list_place, s.lists.len() as u64)
}

/// Puts the six sections behind the header.
fn put_body(out: &mut Items<u8>, s: &Sections) -> Result<(), NoMemory>
    ensures { OnOk result (out.new ≡ out.old ++ body_of s.now) }
{
    out.extend(s.structs.as_slice())?;
    out.extend(s.fields.as_slice())?;
    out.extend(s.labels.as_slice())?;
    out.extend(s.data_bytes.as_slice())?;
    out.extend(s.indices.as_slice())?;
    out.extend(s.lists.as_slice())
}

/// The header and the sections of a file, one behind the other.
fn joined(
    alloc: Global,
    file_type: &[u8; 4],
    s: &Sections,
    structs: u64,
    fields: u64,
    labels: u64,
) -> Result<Items<u8>, NoMemory>
    ensures { IfOk result (λ bytes. bytes ≡ header_of file_type.now s.now structs fields labels
        ++ body_of s.now) }
{
    let mut out = Items::new(alloc);
    put_header(&mut out, file_type, s, structs, fields, labels)?;
    put_body(&mut out, s)?;
    Ok(out)
}

/// The file of these structs, whose labels and fields are counted.
#[tactic(auto, unfolding(crate::specs::File::written_rows))]
fn labelled(
    alloc: Global,
    file_type: &[u8; 4],
    rows: &[FlatStruct],
    labels: &Labels,
    fields: u64,
) -> Result<Items<u8>, NoMemory>
    requires labels { labels.now ≡ row_labels [] rows.now }
    requires fields { fields ≡ field_count rows.now }
    requires few { field_count rows.now ≤ tree_limit }
    ensures { IfOk result (λ bytes. bytes ≡ written_rows file_type.now rows.now) }
{
    let sections = sections_of(alloc, rows, labels)?;
    let structs = rows.len() as u64;
    joined(
        alloc,
        file_type,
        &sections,
        structs,
        fields,
        labels.len() as u64,
    )
}

/// The structs of a tree in preorder.
fn rows_in(alloc: Global, tree: &Gff) -> Result<Items<FlatStruct>, NoMemory>
    requires few { node_count (plain_node tree.now.top) ≤ tree_limit }
    ensures { IfOk result (λ rows. rows ≡ rows_of 0 (plain_node tree.now.top)) }
{
    let mut rows = Items::new(alloc);
    flatten_node(alloc, &tree.top, &mut rows)?;
    Ok(rows)
}

/// The file of a tree that is no larger than a file may be, whose labels are given.
fn file(alloc: Global, tree: &Gff, labels: &Labels) -> Result<Items<u8>, NoMemory>
    requires labels { labels.now ≡ row_labels [] (rows_of 0 (plain_node tree.now.top)) }
    requires small { length (written (plain_gff tree.now)) ≤ file_limit }
    ensures { IfOk result (λ bytes. bytes ≡ written (plain_gff tree.now)) }
{
    let rows = rows_in(alloc, tree)?;
    let fields = count_fields(rows.as_slice());
    labelled(alloc, &tree.file_type, rows.as_slice(), labels, fields)
}

/// The file of a tree, unless it is too large: that is decided before anything is copied.
fn outcome(alloc: Global, tree: &Gff) -> Result<Vec<u8>, WriteFault>
    ensures { Gives (λ v. v.items) result (outcome_of (written (plain_gff tree.now))) }
{
    let labels = label_table(alloc, &tree.top)?;
    let size = size_with(tree, &labels);
    if size > FILE_BYTES as u64 {
        return Err(WriteFault::Large(size));
    }
    let bytes = file(alloc, tree, &labels)?;
    Ok(bytes.into_vec())
}

/// The one file of a tree, or its size where it has more than 16,777,216 bytes.
pub fn write(alloc: Global, tree: &Gff) -> Result<Vec<u8>, WriteFault>
    ensures exact { Gives (λ v. v.items) result (outcome_of (written (plain_gff tree.now))) }
    // The bytes stand for the tree.
    ensures stands { IfOk result (λ v. Stands v.items (plain_gff tree.now)) }
    // Reading the bytes gives the tree again: they stand for no other.
    ensures again { IfOk result (λ v. (other : PlainGff) → Stands v.items other → other
        ≡ plain_gff tree.now) }
{
    tree_ranges(tree);
    one_tree();
    outcome(alloc, tree)
}
