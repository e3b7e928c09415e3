//! The labels of a file, once each in the order of their first use. A label leads to its number by
//! the index of names, and the rows stand under the numbers, so that no labels make a search
//! longer.

ghost use Rattle.std.specs.Prelude.{◌≡◌, ◌++◌, ◌∷◌, [], None, length, IfOk, OnOk};
ghost use Rattle.std.specs.Map.{values_of};
ghost use Rattle.nwq_value.specs.Index.{number_under};
ghost use Rattle.gff_tree.specs.Tree.{plain_node, plain_leaf, fields_list};
ghost use Rattle.gff_write.specs.Flat.{rows_of};
ghost use Rattle.gff_write.specs.File.{label_index, with_label, row_labels, joined};
ghost use Rattle.gff_write.specs.Labels.{IsTable};
ghost use Rattle.gff_write.specs.Size.{own_labels, node_labels, leaf_labels, with_labels};

use crate::encode::filled;
use gff_tree::{Field, Leaf, Node, readings_tell};
use indexmap::IndexMap;
use nwq_value::{Items, NameIndex, NoMemory};
use std::alloc::Global;
use std::marker::Model;

/// A label filled up with zero bytes.
pub type LabelRow = [u8; 16];

/// The labels under their numbers, which count from 0.
type LabelRows = IndexMap<usize, LabelRow>;

/// The labels once each, in the order of their first use. Contracts see the list of them.
#[derive(Drop)]
pub struct Labels {
    rows: LabelRows,
    numbers: NameIndex,
}

impl Model for Labels {
    ghost use Rattle.std.specs.Prelude.{List, ℕ};
    ghost use Rattle.std.specs.Map.{values_of};
    ghost use Rattle.gff_write.specs.Labels.{IsTable};

    ghost Value = { List (List ℕ) };

    ghost view = { λ l. values_of l.rows.entries };

    ghost invariant = { λ l. IsTable l.rows.entries l.numbers };
}

impl Labels {
    pub fn len(&self) -> usize
        ensures len { result ≡ length self.now }
    {
        self.rows.len()
    }

    /// The labels in their order.
    pub fn rows(&self) -> &[LabelRow]
        ensures rows { result.now ≡ self.now }
    {
        self.rows.values().as_slice()
    }

    /// Where a label stands in the table, or the table's length.
    pub fn place(&self, label: &LabelRow) -> usize
        ensures place { result ≡ label_index self.now label.now }
    {
        match self.numbers.get(label.as_slice()) {
            Some(number) => number,
            None => self.len(),
        }
    }
}

/// Puts a label that is new last in the table.
fn push_label(
    rows: &mut LabelRows,
    numbers: &mut NameIndex,
    label: &LabelRow,
) -> Result<(), NoMemory>
    requires table { IsTable rows.old.entries numbers.old }
    requires new { number_under label.now numbers.old ≡ None }
    ensures table { OnOk result (IsTable rows.new.entries numbers.new) }
    ensures rows { OnOk result (values_of rows.new.entries
        ≡ values_of rows.old.entries ++ label.now ∷ []) }
{
    let number = rows.len();
    numbers.set(label.as_slice(), number)?;
    rows.insert(number, *label)?;
    Ok(())
}

/// Puts a label last in the table if it is new.
fn add_label(
    rows: &mut LabelRows,
    numbers: &mut NameIndex,
    label: &LabelRow,
) -> Result<(), NoMemory>
    requires table { IsTable rows.old.entries numbers.old }
    ensures table { OnOk result (IsTable rows.new.entries numbers.new) }
    ensures rows { OnOk result (values_of rows.new.entries
        ≡ with_label (values_of rows.old.entries) label.now) }
{
    if numbers.get(label.as_slice()).is_some() {
        return Ok(());
    }
    push_label(rows, numbers, label)?;
    Ok(())
}

/// Puts the labels of a struct's own fields last that are new.
fn add_own(rows: &mut LabelRows, numbers: &mut NameIndex, fields: &[Field]) -> Result<(), NoMemory>
    requires table { IsTable rows.old.entries numbers.old }
    ensures table { OnOk result (IsTable rows.new.entries numbers.new) }
    ensures rows { OnOk result (values_of rows.new.entries
        ≡ with_labels (values_of rows.old.entries) (own_labels (fields_list fields.now))) }
{
    for field in fields {
        add_label(rows, numbers, &filled(&field.label))?;
    }
    Ok(())
}

/// Puts the labels of a struct and of all below it last that are new.
#[cycle(add)]
fn add_labels(rows: &mut LabelRows, numbers: &mut NameIndex, node: &Node) -> Result<(), NoMemory>
    requires table { IsTable rows.old.entries numbers.old }
    ensures table { OnOk result (IsTable rows.new.entries numbers.new) }
    ensures rows { OnOk result (values_of rows.new.entries
        ≡ with_labels (values_of rows.old.entries) (node_labels (plain_node node.now))) }
{
    readings_tell();
    add_own(rows, numbers, &node.fields)?;
    for field in &node.fields {
        add_below(rows, numbers, &field.leaf)?;
    }
    Ok(())
}

#[cycle(add)]
fn add_below(rows: &mut LabelRows, numbers: &mut NameIndex, leaf: &Leaf) -> Result<(), NoMemory>
    requires table { IsTable rows.old.entries numbers.old }
    ensures table { OnOk result (IsTable rows.new.entries numbers.new) }
    ensures rows { OnOk result (values_of rows.new.entries
        ≡ with_labels (values_of rows.old.entries) (leaf_labels (plain_leaf leaf.now))) }
{
    readings_tell();
    match leaf {
        Leaf::Struct(node) => add_labels(rows, numbers, node),
        Leaf::List(nodes) => {
            for node in nodes {
                add_labels(rows, numbers, node)?;
            }
            Ok(())
        }
        _ => Ok(()),
    }
}

/// The labels of all fields of a tree once each, in the order of their first use in the file.
pub fn label_table(alloc: Global, top: &Node) -> Result<Labels, NoMemory>
    ensures { IfOk result (λ table. table ≡ row_labels [] (rows_of 0 (plain_node top.now))) }
{
    let mut rows = LabelRows::new(alloc);
    let mut numbers = NameIndex::new(alloc);
    add_labels(&mut rows, &mut numbers, top)?;
    Ok(Labels { rows, numbers })
}

/// The bytes of the labels, one after the other.
pub fn label_bytes(alloc: Global, table: &[LabelRow]) -> Result<Items<u8>, NoMemory>
    ensures { IfOk result (λ bytes. bytes ≡ joined table.now) }
{
    let mut bytes = Items::new(alloc);
    for label in table {
        bytes.extend(label.as_slice())?;
    }
    Ok(bytes)
}
