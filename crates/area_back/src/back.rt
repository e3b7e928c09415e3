//! The variables of the objects put into the tree that was read.

ghost use Rattle.std.specs.Prelude.{◌≡◌, ◌∷◌, ◌++◌, [], map, filter, not, drop, length};
ghost use Rattle.std.specs.Prelude.{codes, None, Some, IfOk, OnOk};
ghost use Rattle.std.specs.Option.{option_map};
ghost use Rattle.std.specs.List.{list_any};
ghost use Rattle.std.specs.Vec.Iter.{into_iter_items};
ghost use Rattle.gff_tree.specs.Tree.{Holds, Str, plain_node, plain_leaf};
ghost use Rattle.gff_tree.specs.Whole.{plain_gff};
ghost use Rattle.gff_tree.specs.Label.{label_of};
ghost use Rattle.gff_tree.specs.Fields.{kind_of, fields_of, node_from, list_from, found};
ghost use Rattle.local_variables.specs.Variables.{Variable, variable_of, same_variable};
ghost use Rattle.area_rules.specs.Objects.{structs_in, variables_in, entry_of, list_labels};
ghost use Rattle.area_back.specs.Current.{current, with_told};
ghost use Rattle.area_back.specs.Back.{name_of, type_of, value_of, new_entry, is_kept};
ghost use Rattle.area_back.specs.Back.{variable_for, valued, table_back, leaf_back, member_back};
ghost use Rattle.area_back.specs.Back.{objects_back, members_back, list_back, lists_back};
ghost use Rattle.area_back.specs.Back.{tree_back};

use area_tree::{Area, Object, Told, list_label, told_by};
use gff_tree::{Gff, Label, Leaf, Node, fields_tell};
use local_variables::{Var, Vars, variables_tell};
use nwq_value::NoMemory;
use shared_bytes::SharedBytes;
use std::alloc::Global;
use std::vec::IntoIter;

/// The objects whose members are still to be changed.
type Rest = IntoIter<Object, Global>;

/// The label of a text that is one.
fn label(text: &[u8]) -> Label
    requires { label_of text.now ≡ Some text.now }
    ensures { result ≡ text.now }
{
    match Label::of(text) {
        Some(label) => label,
        None => unreachable!(),
    }
}

fn string_leaf(alloc: Global, text: &[u8]) -> Result<Leaf, NoMemory>
    ensures { IfOk result (λ leaf. plain_leaf leaf ≡ Holds (Str text.now)) }
{
    Ok(Leaf::Str(SharedBytes::of_slice(alloc, text)?))
}

fn name_leaf(alloc: Global, v: Var<'_>) -> Result<Leaf, NoMemory>
    ensures { IfOk result (λ leaf. plain_leaf leaf ≡ Holds (Str (name_of (variable_of v.entry)))) }
{
    match v {
        Var::Int(name, _) => string_leaf(alloc, name),
        Var::Text(name, _) => string_leaf(alloc, name),
    }
}

/// The string of a variable, which shares its bytes where that is among these.
fn text_leaf(alloc: Global, vars: &Vars, name: &[u8], text: &[u8]) -> Result<Leaf, NoMemory>
    ensures { IfOk result (λ leaf. plain_leaf leaf ≡ Holds (Str text.now)) }
{
    match vars.string(name) {
        Some(own) if own.as_slice() == text => Ok(Leaf::Str(own.copy(alloc)?)),
        _ => string_leaf(alloc, text),
    }
}

fn value_leaf(alloc: Global, vars: &Vars, v: Var<'_>) -> Result<Leaf, NoMemory>
    ensures { IfOk result (λ leaf. plain_leaf leaf ≡ value_of (variable_of v.entry)) }
{
    match v {
        Var::Int(_, n) => Ok(Leaf::Int(n)),
        Var::Text(name, text) => text_leaf(alloc, vars, name, text),
    }
}

fn type_number(v: Var<'_>) -> u32
    ensures { result ≡ type_of (variable_of v.entry) }
{
    match v {
        Var::Int(_, _) => 1,
        Var::Text(_, _) => 3,
    }
}

/// Puts the three fields of an entry last.
fn fill_entry(alloc: Global, vars: &Vars, v: Var<'_>, entry: &mut Node) -> Result<(), NoMemory>
    requires { plain_node entry.old ≡ node_from 0 [] }
    ensures { OnOk result (plain_node entry.new ≡ new_entry (variable_of v.entry)) }
{
    let name = name_leaf(alloc, v)?;
    entry.append(label(b"Name".as_slice()), name)?;
    entry.append(label(b"Type".as_slice()), Leaf::Dword(type_number(v)))?;
    let value = value_leaf(alloc, vars, v)?;
    entry.append(label(b"Value".as_slice()), value)
}

/// The entry of a variable, one of these, that the table didn't have.
fn entry_for(alloc: Global, vars: &Vars, v: Var<'_>) -> Result<Node, NoMemory>
    ensures { IfOk result (λ entry. plain_node entry ≡ new_entry (variable_of v.entry)) }
{
    let mut entry = Node::new(0, Vec::with_capacity(alloc, 3)?);
    match fill_entry(alloc, vars, v, &mut entry) {
        Ok(()) => Ok(entry),
        Err(e) => {
            drop(entry);
            Err(e)
        }
    }
}

fn stays(vars: &Vars, entry: &Node) -> bool
    ensures { result ≡ is_kept vars.now (plain_node entry.now) }
{
    match told_by(entry) {
        Told::Broken => true,
        Told::Unread => true,
        Told::Tells(v) => vars.contains(v),
    }
}

/// Takes the entries out whose variables the object no longer has.
fn keep_entries(vars: &Vars, entries: &mut Vec<Node>)
    ensures { map plain_node entries.new.items
        ≡ filter (is_kept vars.now) (map plain_node entries.old.items) }
{
    let mut kept = 0;
    for i in 0..entries.len() {
        if stays(vars, &entries[i]) {
            entries.swap(kept, i);
            kept += 1;
        }
    }
    entries.truncate(kept);
}

/// The value that a variable has now.
fn current_leaf(alloc: Global, vars: &Vars, v: Var<'_>) -> Result<Leaf, NoMemory>
    ensures { IfOk result (λ leaf. plain_leaf leaf ≡ current (variable_of v.entry) vars.now) }
{
    match v {
        Var::Int(name, _) => Ok(Leaf::Int(vars.int(name))),
        Var::Text(name, _) => text_leaf(alloc, vars, name, vars.text(name)),
    }
}

/// The value that the variable of an entry has now, where the entry tells one that is still there.
#[tactic(auto, using(crate::proofs::BackLemmas::value_known, crate::proofs::BackLemmas::value_unknown))]
fn value_now(alloc: Global, vars: &Vars, entry: &Node) -> Result<Option<Leaf>, NoMemory>
    ensures { IfOk result (λ leaf. option_map plain_leaf leaf
        ≡ option_map value_of (variable_for vars.now (entry_of (plain_node entry.now)))) }
{
    match told_by(entry) {
        Told::Broken => Ok(None),
        Told::Unread => Ok(None),
        Told::Tells(v) => {
            if !vars.contains(v) {
                return Ok(None);
            }
            Ok(Some(current_leaf(alloc, vars, v)?))
        }
    }
}

/// Gives an entry the value that its variable has now.
fn set_value(alloc: Global, vars: &Vars, entry: &mut Node) -> Result<(), NoMemory>
    ensures { OnOk result (plain_node entry.new ≡ valued vars.now (plain_node entry.old)) }
{
    match value_now(alloc, vars, entry) {
        Err(e) => Err(e),
        Ok(None) => Ok(()),
        Ok(Some(leaf)) => {
            drop(entry.replace(b"Value".as_slice(), leaf));
            Ok(())
        }
    }
}

fn set_values(alloc: Global, vars: &Vars, entries: &mut Vec<Node>) -> Result<(), NoMemory>
    ensures { OnOk result (map plain_node entries.new.items
        ≡ map (valued vars.now) (map plain_node entries.old.items)) }
{
    for i in 0..entries.len() {
        set_value(alloc, vars, &mut entries[i])?;
    }
    Ok(())
}

/// Puts the variable into a list that an entry tells.
fn add_one_told(entry: &Node, told: &mut Vars) -> Result<(), NoMemory>
    ensures { OnOk result (told.new ≡ with_told told.old (entry_of (plain_node entry.now))) }
{
    match told_by(entry) {
        Told::Broken => Ok(()),
        Told::Unread => Ok(()),
        Told::Tells(v) => told.set(v),
    }
}

/// Puts the variables into a list that entries tell.
fn add_told(entries: &[Node], told: &mut Vars) -> Result<(), NoMemory>
    requires { told.old ≡ [] }
    ensures { OnOk result ((v : Variable) → list_any (same_variable v) told.new
        ≡ list_any (same_variable v) (variables_in (map plain_node entries.now))) }
{
    variables_tell();
    for entry in entries {
        add_one_told(entry, told)?;
    }
    Ok(())
}

/// Puts an entry last for a variable of an object that isn't among those that were told.
fn add_other(
    alloc: Global,
    vars: &Vars,
    v: Var<'_>,
    told: &Vars,
    entries: &mut Vec<Node>,
) -> Result<(), NoMemory>
    ensures { OnOk result (map plain_node entries.new.items ≡ map plain_node entries.old.items
        ++ map new_entry (filter (λ w. not (list_any (same_variable w) told.now))
        (variable_of v.entry ∷ []))) }
{
    if told.contains(v) {
        return Ok(());
    }
    let entry = entry_for(alloc, vars, v)?;
    entries.push(entry)?;
    Ok(())
}

/// Puts entries last for the variables that aren't among these.
fn add_others(
    alloc: Global,
    vars: &Vars,
    told: &Vars,
    entries: &mut Vec<Node>,
) -> Result<(), NoMemory>
    ensures { OnOk result (map plain_node entries.new.items ≡ map plain_node entries.old.items
        ++ map new_entry (filter (λ v. not (list_any (same_variable v) told.now)) vars.now)) }
{
    let mut walk = vars.walk();
    while let Some(v) = walk.next() {
        add_other(alloc, vars, v, told, entries)?;
    }
    Ok(())
}

/// Changes a table into one of these variables, where `told` are those that its entries tell.
fn change_table(
    alloc: Global,
    vars: &Vars,
    told: &Vars,
    entries: &mut Vec<Node>,
) -> Result<(), NoMemory>
    requires { (v : Variable) → list_any (same_variable v) told.now
        ≡ list_any (same_variable v) (variables_in (map plain_node entries.old.items)) }
    ensures { OnOk result (map plain_node entries.new.items
        ≡ table_back vars.now (map plain_node entries.old.items)) }
{
    keep_entries(vars, entries);
    set_values(alloc, vars, entries)?;
    add_others(alloc, vars, told, entries)
}

fn put_table(alloc: Global, vars: &Vars, entries: &mut Vec<Node>) -> Result<(), NoMemory>
    ensures { OnOk result (map plain_node entries.new.items
        ≡ table_back vars.now (map plain_node entries.old.items)) }
{
    let mut told = Vars::new(alloc);
    match add_told(entries, &mut told) {
        Ok(()) => change_table(alloc, vars, &told, entries),
        Err(e) => Err(e),
    }
}

/// The list field of a changed table.
fn table_leaf(alloc: Global, vars: &Vars, mut entries: Vec<Node>) -> Result<Leaf, NoMemory>
    ensures { IfOk result (λ leaf. plain_leaf leaf
        ≡ list_from (table_back vars.now (map plain_node entries.items))) }
{
    match put_table(alloc, vars, &mut entries) {
        Ok(()) => Ok(Leaf::of_list(entries)),
        Err(e) => {
            drop(entries);
            Err(e)
        }
    }
}

/// A struct without a table gets one as its last field, where there are variables.
fn append_table(alloc: Global, vars: &Vars, node: &mut Node) -> Result<(), NoMemory>
    requires { found (codes "VarTable") (fields_of (plain_node node.old)) ≡ None }
    ensures { OnOk result (plain_node node.new ≡ member_back vars.now (plain_node node.old)) }
{
    fields_tell();
    if vars.len() == 0 {
        return Ok(());
    }
    let table = table_leaf(alloc, vars, Vec::new(alloc))?;
    node.append(label(b"VarTable".as_slice()), table)
}

/// What a table becomes: a list one of these variables, and what is no list stays.
fn changed_leaf(alloc: Global, vars: &Vars, leaf: Leaf) -> Result<Leaf, NoMemory>
    ensures { IfOk result (λ changed. plain_leaf changed ≡ leaf_back vars.now (plain_leaf leaf)) }
{
    fields_tell();
    match leaf.into_list() {
        Ok(entries) => table_leaf(alloc, vars, entries),
        Err(leaf) => Ok(leaf),
    }
}

/// Puts the variables of an object into its struct.
fn put_member(alloc: Global, vars: &Vars, node: &mut Node) -> Result<(), NoMemory>
    ensures { OnOk result (plain_node node.new ≡ member_back vars.now (plain_node node.old)) }
{
    fields_tell();
    match node.replace(b"VarTable".as_slice(), Leaf::Byte(0)) {
        None => append_table(alloc, vars, node),
        Some(table) => {
            let table = changed_leaf(alloc, vars, table)?;
            drop(node.replace(b"VarTable".as_slice(), table));
            Ok(())
        }
    }
}

/// Puts the variables of an object into its struct, and lets the object go.
fn put_object(alloc: Global, object: Object, node: &mut Node) -> Result<(), NoMemory>
    ensures { OnOk result (plain_node node.new ≡ member_back object.vars (plain_node node.old)) }
{
    let put = put_member(alloc, object.vars(), node);
    drop(object);
    put
}

/// Puts the variables of the next objects into the members of a list. Each object goes before the
/// next member is changed, so that no variables are kept twice.
fn put_members(alloc: Global, objects: &mut Rest, nodes: &mut Vec<Node>) -> Result<(), NoMemory>
    ensures members { OnOk result (map plain_node nodes.new.items
        ≡ members_back (into_iter_items objects.old) (map plain_node nodes.old.items)) }
    ensures rest { OnOk result (into_iter_items objects.new
        ≡ drop (length nodes.old.items) (into_iter_items objects.old)) }
{
    for i in 0..nodes.len() {
        match objects.next() {
            None => return Ok(()),
            Some(object) => put_object(alloc, object, &mut nodes[i])?,
        }
    }
    Ok(())
}

/// The list field of a list's changed members.
fn members_leaf(alloc: Global, objects: &mut Rest, mut nodes: Vec<Node>) -> Result<Leaf, NoMemory>
    ensures leaf { IfOk result (λ leaf. plain_leaf leaf
        ≡ list_from (members_back (into_iter_items objects.old) (map plain_node nodes.items))) }
    ensures rest { OnOk result (into_iter_items objects.new
        ≡ drop (length nodes.items) (into_iter_items objects.old)) }
{
    match put_members(alloc, objects, &mut nodes) {
        Ok(()) => Ok(Leaf::of_list(nodes)),
        Err(e) => {
            drop(nodes);
            Err(e)
        }
    }
}

/// What a list of the next objects becomes; what is no list stays.
fn changed_list(alloc: Global, objects: &mut Rest, leaf: Leaf) -> Result<Leaf, NoMemory>
    ensures changed { IfOk result (λ changed. plain_leaf changed
        ≡ objects_back (into_iter_items objects.old) (plain_leaf leaf)) }
    ensures rest { OnOk result (into_iter_items objects.new
        ≡ drop (length (structs_in (Some (plain_leaf leaf)))) (into_iter_items objects.old)) }
{
    fields_tell();
    match leaf.into_list() {
        Ok(nodes) => members_leaf(alloc, objects, nodes),
        Err(leaf) => Ok(leaf),
    }
}

/// Puts the variables of the next objects into the members of a list of the top struct.
fn put_list(alloc: Global, label: &[u8], objects: &mut Rest, top: &mut Node) -> Result<(), NoMemory>
    ensures list { OnOk result (plain_node top.new ≡ node_from (kind_of (plain_node top.old))
        (list_back label.now (into_iter_items objects.old)
        (found label.now (fields_of (plain_node top.old))) (fields_of (plain_node top.old)))) }
    ensures rest { OnOk result (into_iter_items objects.new
        ≡ drop (length (structs_in (found label.now (fields_of (plain_node top.old)))))
        (into_iter_items objects.old)) }
{
    fields_tell();
    match top.replace(label, Leaf::Byte(0)) {
        None => Ok(()),
        Some(leaf) => {
            let leaf = changed_list(alloc, objects, leaf)?;
            drop(top.replace(label, leaf));
            Ok(())
        }
    }
}

/// Puts the variables of all objects into the five lists.
fn put_lists(alloc: Global, objects: &mut Rest, top: &mut Node) -> Result<(), NoMemory>
    ensures { OnOk result (plain_node top.new ≡ node_from (kind_of (plain_node top.old))
        (lists_back list_labels (into_iter_items objects.old) (fields_of (plain_node top.old)))) }
{
    fields_tell();
    for list in 0..5 {
        put_list(alloc, list_label(list), objects, top)?;
    }
    Ok(())
}

/// The tree of the way back. The area is dropped on a refusal.
pub fn into_tree(alloc: Global, area: Area) -> Result<Gff, NoMemory>
    ensures tree { IfOk result (λ gff. plain_gff gff ≡ tree_back area) }
{
    fields_tell();
    let (tree, objects) = area.into_parts();
    let Gff { file_type, mut top } = tree;
    let mut objects = objects.into_iter();
    match put_lists(alloc, &mut objects, &mut top) {
        Ok(()) => Ok(Gff { file_type, top }),
        Err(e) => {
            drop(top);
            Err(e)
        }
    }
}
