//! The structs of a tree by their fields. What each call says of a struct is stated over its plain
//! tree, so that crates above need not know how a `Node` is laid out.

ghost use Rattle.std.specs.Prelude.{◌≡◌, map, MatchOption, MatchResult, None, Some, OnOk, OnErr};
ghost use Rattle.gff_tree.specs.Tree.{plain_node, plain_leaf, plain_field};
ghost use Rattle.gff_tree.specs.Places.{place_of_field};
ghost use Rattle.gff_tree.specs.Fields.{kind_of, fields_of, node_from, list_from, list_in, found};
ghost use Rattle.gff_tree.specs.Fields.{replaced, appended};

use crate::label::Label;
use crate::tree::{Field, Leaf, Node};
use nwq_value::NoMemory;
use std::mem;

impl Field {
    pub fn new(label: Label, leaf: Leaf) -> Field
        ensures field { plain_field result ≡ record { label = label; leaf = plain_leaf leaf } }
    {
        Field { label, leaf }
    }

    pub fn into_parts(self) -> (Label, Leaf)
        ensures field { plain_field self ≡ record { label = result.0; leaf = plain_leaf result.1 } }
    {
        let Field { label, leaf } = self;
        (label, leaf)
    }
}

impl Node {
    /// The struct of a type and of these fields.
    pub fn new(kind: u32, fields: Vec<Field>) -> Node
        ensures node { plain_node result ≡ node_from kind (map plain_field fields.items) }
    {
        Node { kind, fields }
    }

    pub fn into_parts(self) -> (u32, Vec<Field>)
        ensures node { plain_node self ≡ node_from result.0 (map plain_field result.1.items) }
    {
        let Node { kind, fields } = self;
        (kind, fields)
    }

    pub fn kind(&self) -> u32
        ensures kind { result ≡ kind_of (plain_node self.now) }
    {
        self.kind
    }

    pub fn fields(&self) -> &[Field]
        ensures fields { map plain_field result.now ≡ fields_of (plain_node self.now) }
        ensures node { plain_node self.now ≡ node_from (kind_of (plain_node self.now))
            (map plain_field result.now) }
    {
        &self.fields
    }

    /// What the first field of a label holds.
    pub fn find(&self, label: &[u8]) -> Option<&Leaf>
        ensures leaf { MatchOption result
            (found label.now (fields_of (plain_node self.now)) ≡ None)
            (λ leaf. found label.now (fields_of (plain_node self.now))
            ≡ Some (plain_leaf leaf.now)) }
    {
        find_in(self.fields(), label)
    }

    /// Lets the first field of a label hold this, and gives back what it held; where there is none
    /// nothing changes.
    pub fn replace(&mut self, label: &[u8], leaf: Leaf) -> Option<Leaf>
        ensures old { MatchOption result
            (found label.now (fields_of (plain_node self.old)) ≡ None)
            (λ old. found label.now (fields_of (plain_node self.old)) ≡ Some (plain_leaf old)) }
        ensures new { plain_node self.new ≡ node_from (kind_of (plain_node self.old))
            (replaced label.now (plain_leaf leaf) (fields_of (plain_node self.old))) }
    {
        replace_in(&mut self.fields, label, leaf)
    }

    /// Puts a field last. After `NoMemory` it is dropped and the struct is as before.
    pub fn append(&mut self, label: Label, leaf: Leaf) -> Result<(), NoMemory>
        ensures ok { OnOk result (plain_node self.new ≡ node_from (kind_of (plain_node self.old))
            (appended label (plain_leaf leaf) (fields_of (plain_node self.old)))) }
        ensures err { OnErr result (plain_node self.new ≡ plain_node self.old) }
    {
        append_to(&mut self.fields, label, leaf)
    }
}

/// Where the first field of a label stands.
fn place_in(fields: &[Field], label: &[u8]) -> Option<usize>
    ensures { result ≡ place_of_field label.now (map plain_field fields.now) }
{
    for (i, field) in fields.iter().enumerate() {
        if label == field.label.bytes() {
            return Some(i);
        }
    }
    None
}

fn append_to(fields: &mut Vec<Field>, label: Label, leaf: Leaf) -> Result<(), NoMemory>
    ensures ok { OnOk result (map plain_field fields.new.items
        ≡ appended label (plain_leaf leaf) (map plain_field fields.old.items)) }
    ensures err { OnErr result (map plain_field fields.new.items
        ≡ map plain_field fields.old.items) }
{
    fields.push(Field::new(label, leaf))?;
    Ok(())
}

fn replace_in(fields: &mut Vec<Field>, label: &[u8], leaf: Leaf) -> Option<Leaf>
    ensures old { MatchOption result
        (found label.now (map plain_field fields.old.items) ≡ None)
        (λ old. found label.now (map plain_field fields.old.items) ≡ Some (plain_leaf old)) }
    ensures new { map plain_field fields.new.items
        ≡ replaced label.now (plain_leaf leaf) (map plain_field fields.old.items) }
{
    match place_in(fields, label) {
        Some(i) => Some(mem::replace(&mut fields[i].leaf, leaf)),
        None => {
            drop(leaf);
            None
        }
    }
}

fn find_in<'a>(fields: &'a [Field], label: &[u8]) -> Option<&'a Leaf>
    ensures { MatchOption result
        (found label.now (map plain_field fields.now) ≡ None)
        (λ leaf. found label.now (map plain_field fields.now) ≡ Some (plain_leaf leaf.now)) }
{
    for field in fields {
        if label == field.label.bytes() {
            return Some(&field.leaf);
        }
    }
    None
}

impl Leaf {
    /// The list field of these structs.
    pub fn of_list(nodes: Vec<Node>) -> Leaf
        ensures list { plain_leaf result ≡ list_from (map plain_node nodes.items) }
    {
        Leaf::List(nodes)
    }

    /// The structs of a list field.
    pub fn list(&self) -> Option<&[Node]>
        ensures list { MatchOption result
            (list_in (plain_leaf self.now) ≡ None)
            (λ nodes. list_in (plain_leaf self.now) ≡ Some (map plain_node nodes.now)) }
    {
        match self {
            Leaf::List(nodes) => Some(nodes),
            _ => None,
        }
    }

    /// The structs of a list field, or the field back where it is none.
    pub fn into_list(self) -> Result<Vec<Node>, Leaf>
        ensures list { MatchResult result
            (λ nodes. plain_leaf self ≡ list_from (map plain_node nodes.items))
            (λ leaf. (leaf ≡ self) × (list_in (plain_leaf self) ≡ None)) }
    {
        match self {
            Leaf::List(nodes) => Ok(nodes),
            other => Err(other),
        }
    }
}
