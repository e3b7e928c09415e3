//! The fields that a struct of the file lists.

ghost use Rattle.std.specs.Prelude.{◌≡◌, ◌≢◌, ◌≤◌, ◌<◌, ◌+◌, ◌*◌, if◌then◌else◌, List, length, map};
ghost use Rattle.std.specs.Prelude.{Ok, Err, OnOk, IfOk};
ghost use Rattle.gff_bytes.specs.File as File;
ghost use Rattle.gff_tree.specs.Label.{label_text};
ghost use Rattle.gff_read.specs.Rows.{Gives, PlainRow, placed, words_from, shape_for, has_label};
ghost use Rattle.gff_read.specs.Rows.{row_for, field_number, rows_from, rows_of};
ghost use Rattle.gff_read.specs.Held.{plain_shape, plain_row};
ghost use Rattle.gff_read.specs.Charge.{rows_charge, shape_charge, word_charge};
ghost use Rattle.gff_read.specs.Used.{HasLabels, AddsLabel};
ghost use Rattle.nwq_value.specs.Limits.{file_limit};

use crate::budget::{FIELD_BYTES, WORD_BYTES, charge, charge_data};
use crate::fault::TreeFault;
use crate::kind::FieldKind;
use crate::scalar::leaf;
use gff_bytes::{StructRow, View};
use gff_tree::{Label, Leaf, before_zero};
use std::alloc::Global;
use std::collections::BTreeSet;

/// What a field of the file holds: a value, the number of a struct, or those of a list's structs.
#[derive(Drop)]
pub enum Shape {
    Value(Leaf),
    One(u32),
    Many(Vec<u32>),
}

/// A field of the file: its label, and what it holds before the walk goes down into it.
#[derive(Drop)]
pub struct FieldRow {
    pub label: Label,
    pub shape: Shape,
}

fn list_word(view: &View<'_>, place: u32) -> Result<u32, TreeFault>
    ensures word { Gives (λ word. word) result (placed (File.list_word view.now place)) }
    ensures inside { OnOk result (place + 4 ≤ file_limit) }
{
    match view.list_word(place) {
        Ok(word) => Ok(word),
        Err(range) => Err(TreeFault::Range(range)),
    }
}

/// So many numbers of the list indices.
fn read_words(
    alloc: Global,
    view: &View<'_>,
    place: u32,
    count: u32,
    left: &mut u64,
) -> Result<Vec<u32>, TreeFault>
    requires { place ≤ file_limit }
    ensures read { Gives (λ words. words.items) result (words_from view.now place count) }
    ensures charged { IfOk result (λ words.
        left.old ≡ left.new + word_charge * length words.items) }
{
    let mut words = Vec::new(alloc);
    let mut at = place;
    for _done in 0..count {
        let word = list_word(view, at)?;
        charge(left, WORD_BYTES)?;
        words.push(word)?;
        at += 4;
    }
    Ok(words)
}

#[tactic(auto, unfolding(crate::specs::Rows::shape_for))]
fn list_shape(
    alloc: Global,
    view: &View<'_>,
    field: u32,
    word: u32,
    left: &mut u64,
) -> Result<Shape, TreeFault>
    ensures read { Gives plain_shape result (shape_for view.now field FieldKind.List word) }
    ensures charged { IfOk result (λ shape.
        left.old ≡ left.new + shape_charge (plain_shape shape)) }
{
    let count = list_word(view, word)?;
    Ok(Shape::Many(read_words(alloc, view, word + 4, count, left)?))
}

#[tactic(auto, unfolding(crate::specs::Rows::shape_for))]
fn read_shape(
    alloc: Global,
    view: &View<'_>,
    field: u32,
    kind: FieldKind,
    word: u32,
    left: &mut u64,
) -> Result<Shape, TreeFault>
    ensures read { Gives plain_shape result (shape_for view.now field kind word) }
    ensures charged { IfOk result (λ shape.
        left.old ≡ left.new + shape_charge (plain_shape shape)) }
{
    match kind {
        FieldKind::Struct => Ok(Shape::One(word)),
        FieldKind::List => list_shape(alloc, view, field, word, left),
        _ => {
            let value = leaf(alloc, view, field, kind, word)?;
            charge_data(left, &value)?;
            Ok(Shape::Value(value))
        }
    }
}

/// The label of a row of the file, if no earlier field of the struct has it.
fn take_label<'a>(
    used: &mut BTreeSet<&'a [u8]>,
    raw: &'a [u8],
    field: u32,
) -> Result<Label, TreeFault>
    requires { length raw.now ≤ 16 }
    ensures added { IfOk result (λ label. AddsLabel used.old label used.new) }
    ensures read { (rows : List PlainRow) → HasLabels used.old rows → Gives (λ label. label) result
        (if has_label rows (label_text raw.now) then Err (TreeFault.Label field) else Ok
        (label_text raw.now)) }
{
    let text = before_zero(raw);
    if used.insert(text)? {
        Ok(Label::held(text))
    } else {
        Err(TreeFault::Label(field))
    }
}

/// A field of a struct whose earlier fields have these labels.
#[tactic(auto, unfolding(crate::specs::Rows::row_for))]
fn read_row<'a>(
    alloc: Global,
    view: &View<'a>,
    used: &mut BTreeSet<&'a [u8]>,
    field: u32,
    left: &mut u64,
) -> Result<FieldRow, TreeFault>
    ensures added { IfOk result (λ row. AddsLabel used.old row.label used.new) }
    ensures read { (rows : List PlainRow) → HasLabels used.old rows →
        Gives plain_row result (row_for view.now rows field) }
    ensures charged { IfOk result (λ row.
        left.old ≡ left.new + shape_charge (plain_shape row.shape)) }
{
    let entry = view.field_at(field)?;
    match FieldKind::of(entry.kind) {
        None => Err(TreeFault::Kind(field)),
        Some(kind) => {
            let label = take_label(used, view.label_at(entry.label)?, field)?;
            let shape = read_shape(alloc, view, field, kind, entry.word, left)?;
            Ok(FieldRow { label, shape })
        }
    }
}

/// The number of a struct's field by its place.
#[tactic(auto, unfolding(crate::specs::Rows::field_number))]
fn number(view: &View<'_>, entry: StructRow, i: u32) -> Result<u32, TreeFault>
    requires { entry.count ≢ 1 → 1 ≤ i → entry.word + 4 * i ≤ file_limit }
    ensures number { Gives (λ number. number) result (placed (field_number view.now entry i)) }
    ensures inside { OnOk result (entry.count ≢ 1 → entry.word + 4 * (i + 1) ≤ file_limit) }
{
    if entry.count == 1 {
        return Ok(entry.word);
    }
    match view.index_at(entry.word + 4 * i) {
        Ok(field) => Ok(field),
        Err(range) => Err(TreeFault::Range(range)),
    }
}

/// All fields of a struct.
#[tactic(auto, using(crate::proofs::RowLemmas::no_labels), unfolding(crate::specs::Rows::rows_of))]
pub fn read_rows(
    alloc: Global,
    view: &View<'_>,
    entry: StructRow,
    left: &mut u64,
) -> Result<Vec<FieldRow>, TreeFault>
    ensures read { Gives (λ rows. map plain_row rows.items) result (rows_of view.now entry) }
    ensures charged { IfOk result (λ rows.
        left.old ≡ left.new + rows_charge (map plain_row rows.items)) }
{
    let mut rows = Vec::new(alloc);
    let mut used = BTreeSet::new(alloc);
    for i in 0..entry.count {
        let field = number(view, entry, i)?;
        let next = read_row(alloc, view, &mut used, field, left)?;
        charge(left, FIELD_BYTES)?;
        rows.push(next)?;
    }
    Ok(rows)
}
