//! The sections of the file, from the structs in preorder.

ghost use Rattle.std.specs.Prelude.{◌≡◌, ◌≤◌, ◌+◌, ◌++◌, length, IfOk, OnOk};
ghost use Rattle.gff_write.specs.Flat.{tree_limit};
ghost use Rattle.gff_write.specs.File.{parts_with, data_of, list_of, third_of, entry_bytes};
ghost use Rattle.gff_write.specs.File.{entries_data, entries_lists, entries_bytes, words_up};
ghost use Rattle.gff_write.specs.File.{field_count, indices_of, row_bytes, joined};

use crate::flat::{Content, Entry, FlatStruct};
use crate::labels::{Labels, label_bytes};
use crate::put::put_word;
use nwq_value::{Items, NoMemory};
use std::alloc::Global;

/// The bytes of the six sections behind the header, in this order.
#[derive(Drop)]
pub struct Sections {
    pub structs: Items<u8>,
    pub fields: Items<u8>,
    pub labels: Items<u8>,
    pub data_bytes: Items<u8>,
    pub indices: Items<u8>,
    pub lists: Items<u8>,
}

/// Puts the numbers of a list's structs behind their count.
fn put_list(lists: &mut Items<u8>, numbers: &[u64]) -> Result<(), NoMemory>
    ensures { OnOk result (lists.new ≡ lists.old ++ list_of (Content.Numbers numbers.now)) }
{
    put_word(lists, numbers.len() as u64)?;
    for n in numbers {
        put_word(lists, *n)?;
    }
    Ok(())
}

/// Puts what a field holds into the field data or the list indices, and tells its third number.
fn put_content(
    datum: &mut Items<u8>,
    lists: &mut Items<u8>,
    content: &Content,
) -> Result<u64, NoMemory>
    ensures datum { OnOk result (datum.new ≡ datum.old ++ data_of content.now) }
    ensures lists { OnOk result (lists.new ≡ lists.old ++ list_of content.now) }
    ensures third { IfOk result (λ n. n ≡ third_of (length datum.old)
        (length lists.old) content.now) }
{
    match content {
        Content::Small(n) => Ok(u64::from(*n)),
        Content::Data(bytes) => {
            let place = datum.len() as u64;
            datum.extend(bytes.as_slice())?;
            Ok(place)
        }
        Content::Number(n) => Ok(*n),
        Content::Numbers(numbers) => {
            let place = lists.len() as u64;
            put_list(lists, numbers.as_slice())?;
            Ok(place)
        }
    }
}

/// Puts a field last.
fn put_entry(
    fields: &mut Items<u8>,
    datum: &mut Items<u8>,
    lists: &mut Items<u8>,
    table: &Labels,
    entry: &Entry,
) -> Result<(), NoMemory>
    ensures fields { OnOk result (fields.new ≡ fields.old
        ++ entry_bytes table.now (length datum.old) (length lists.old) entry.now) }
    ensures datum { OnOk result (datum.new ≡ datum.old ++ data_of entry.now.content) }
    ensures lists { OnOk result (lists.new ≡ lists.old ++ list_of entry.now.content) }
{
    let third = put_content(datum, lists, &entry.content)?;
    put_word(fields, u64::from(entry.kind))?;
    put_word(fields, table.place(&entry.label) as u64)?;
    put_word(fields, third)
}

/// Puts the fields of a struct last.
fn put_entries(
    fields: &mut Items<u8>,
    datum: &mut Items<u8>,
    lists: &mut Items<u8>,
    table: &Labels,
    entries: &[Entry],
) -> Result<(), NoMemory>
    ensures fields { OnOk result (fields.new ≡ fields.old
        ++ entries_bytes table.now (length datum.old) (length lists.old) entries.now) }
    ensures datum { OnOk result (datum.new ≡ datum.old ++ entries_data entries.now) }
    ensures lists { OnOk result (lists.new ≡ lists.old ++ entries_lists entries.now) }
{
    for entry in entries {
        put_entry(fields, datum, lists, table, entry)?;
    }
    Ok(())
}

/// Puts the numbers of so many fields last, where a struct has more than one.
fn put_indices(indices: &mut Items<u8>, first: u64, count: usize) -> Result<(), NoMemory>
    requires few { first + count ≤ tree_limit }
    ensures { OnOk result (indices.new ≡ indices.old ++ indices_of first count) }
{
    if count < 2 {
        return Ok(());
    }
    let mut next = first;
    for _done in 0..count {
        put_word(indices, next)?;
        next += 1;
    }
    Ok(())
}

/// Puts a struct last, whose first field has this number.
fn put_row(
    structs: &mut Items<u8>,
    indices: &mut Items<u8>,
    first: u64,
    row: &FlatStruct,
) -> Result<(), NoMemory>
    requires few { first + length row.now.fields ≤ tree_limit }
    ensures structs { OnOk result (structs.new ≡ structs.old
        ++ row_bytes first (length indices.old) row.now) }
    ensures indices { OnOk result (indices.new ≡ indices.old
        ++ indices_of first (length row.now.fields)) }
{
    let count = row.fields.len();
    let second = match count {
        0 => u64::from(u32::MAX),
        1 => first,
        _ => indices.len() as u64,
    };
    put_word(structs, u64::from(row.kind))?;
    put_word(structs, second)?;
    put_word(structs, count as u64)?;
    put_indices(indices, first, count)
}

/// The sections of these structs beside their labels, whose table is given.
fn body(
    alloc: Global,
    rows: &[FlatStruct],
    table: &Labels,
    labels: Items<u8>,
) -> Result<Sections, NoMemory>
    requires few { field_count rows.now ≤ tree_limit }
    ensures { IfOk result (λ sections. sections ≡ parts_with table.now labels rows.now) }
{
    let mut structs = Items::new(alloc);
    let mut fields = Items::new(alloc);
    let mut data_bytes = Items::new(alloc);
    let mut indices = Items::new(alloc);
    let mut lists = Items::new(alloc);
    let mut first = 0;
    for row in rows {
        put_row(&mut structs, &mut indices, first, row)?;
        let entries = row.fields.as_slice();
        put_entries(&mut fields, &mut data_bytes, &mut lists, table, entries)?;
        first += entries.len() as u64;
    }
    Ok(Sections {
        structs,
        fields,
        labels,
        data_bytes,
        indices,
        lists,
    })
}

/// The sections of these structs, whose labels are given.
pub fn sections_of(alloc: Global, rows: &[FlatStruct], table: &Labels) -> Result<Sections, NoMemory>
    requires few { field_count rows.now ≤ tree_limit }
    ensures { IfOk result (λ sections. sections
        ≡ parts_with table.now (joined table.now) rows.now) }
{
    let labels = label_bytes(alloc, table.rows())?;
    body(alloc, rows, table, labels)
}
