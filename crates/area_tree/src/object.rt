//! The objects as they are read from a tree, and its first broken place.

ghost use Rattle.std.specs.Prelude.{◌≡◌, ◌<◌, ◌+◌, ◌++◌, ◌∷◌, [], map, filter, not, drop, codes};
ghost use Rattle.std.specs.Prelude.{length, OnOk, OnErr, IfOk, IfErr};
ghost use Rattle.std.specs.Option.{option_map};
ghost use Rattle.gff_tree.specs.Tree.{plain_node, nodes_list};
ghost use Rattle.gff_tree.specs.Count.{node_count, nodes_count};
ghost use Rattle.gff_tree.specs.Fields.{fields_of, found};
ghost use Rattle.local_variables.specs.Variables.{IntVar, TextVar, is_int, is_text, put};
ghost use Rattle.local_variables.specs.Variables.{variable_of};
ghost use Rattle.area_rules.specs.Area.{script_named, with_vars};
ghost use Rattle.area_rules.specs.Objects.{dword_in, int_in, string_in, int_entry, text_entry};
ghost use Rattle.area_rules.specs.Objects.{entry_of, variables_in, structs_in, tag_in};
ghost use Rattle.area_rules.specs.Objects.{object_of, list_labels, objects_of};
ghost use Rattle.area_rules.specs.Broken.{IsFirst, at_entry, entry_places, with_later};
ghost use Rattle.area_rules.specs.Broken.{entries_places, tag_places, table_places};
ghost use Rattle.area_rules.specs.Broken.{member_places, members_places, list_places};
ghost use Rattle.area_rules.specs.Broken.{broken_places};
ghost use Rattle.area_tree.specs.Reading.{Reads, leaf_in, leaves_count, entry_told};

use crate::scripts::{Scripts, read_scripts};
use area_rules::AreaFault;
use gff_tree::{Leaf, Node};
use local_variables::{Var, Vars};
use nwq_value::NoMemory;
use shared_bytes::SharedBytes;
use std::alloc::Global;
use std::marker::Model;
use std::mem;

/// One object of an area.
pub struct Object {
    tag: SharedBytes,
    vars: Vars,
    scripts: Scripts,
}

impl Model for Object {
    ghost use Rattle.area_rules.specs.Objects.{AreaObject};

    ghost Value = { AreaObject };

    ghost view = { λ o. record { tag = o.tag; vars = o.vars; scripts = o.scripts } };
}

impl Drop for Object {
    fn drop(self) {
        let Object { tag, vars, scripts } = self;
        drop(tag);
        drop(vars);
        drop(scripts);
    }
}

impl Object {
    pub fn tag(&self) -> &[u8]
        ensures tag { result.now ≡ self.now.tag }
    {
        self.tag.as_slice()
    }

    /// The name of the resource under a label.
    pub fn script(&self, label: &[u8]) -> &[u8]
        ensures name { result.now ≡ script_named label.now self.now.scripts }
    {
        self.scripts.name(label)
    }

    pub fn vars(&self) -> &Vars
        ensures vars { result.now ≡ self.now.vars }
    {
        &self.vars
    }

    /// Gives an int a value, in its place, or puts it last.
    pub(crate) fn set_int(&mut self, name: &[u8], n: i32) -> Result<(), NoMemory>
        ensures ok { OnOk result (self.new ≡ with_vars (put (IntVar name.now n)) self.old) }
        ensures err { OnErr result (self.new ≡ self.old) }
    {
        self.vars.set_int(name, n)
    }

    /// Gives a string a value, in its place, or puts it last.
    pub(crate) fn set_text(&mut self, name: &[u8], text: SharedBytes) -> Result<(), NoMemory>
        ensures ok { OnOk result (self.new ≡ with_vars (put (TextVar name.now text)) self.old) }
        ensures err { OnErr result (self.new ≡ self.old) }
    {
        self.vars.set_text(name, text)
    }

    /// Takes an int out.
    pub(crate) fn delete_int(&mut self, name: &[u8])
        ensures gone { self.new ≡ with_vars (filter (λ v. not (is_int name.now v))) self.old }
    {
        self.vars.delete_int(name);
    }

    /// Takes a string out.
    pub(crate) fn delete_text(&mut self, name: &[u8])
        ensures gone { self.new ≡ with_vars (filter (λ v. not (is_text name.now v))) self.old }
    {
        self.vars.delete_text(name);
    }

    /// Gives the object these variables in the place of its own.
    pub(crate) fn put_vars(&mut self, vars: Vars)
        ensures vars { self.new ≡ with_vars (λ _. vars) self.old }
    {
        drop(mem::replace(&mut self.vars, vars));
    }
}

/// What an entry of a table of variables tells.
#[derive(Clone, Copy)]
pub enum Told<'a> {
    Broken,
    Unread,
    Tells(Var<'a>),
}

fn string_of(leaf: Option<&Leaf>) -> Option<&[u8]>
    ensures { option_map (λ text. text.now) result ≡ string_in (leaf_in leaf.entry) }
{
    match leaf {
        Some(Leaf::Str(text)) => Some(text.as_slice()),
        _ => None,
    }
}

fn int_of(leaf: Option<&Leaf>) -> Option<i32>
    ensures { result ≡ int_in (leaf_in leaf.entry) }
{
    match leaf {
        Some(Leaf::Int(n)) => Some(*n),
        _ => None,
    }
}

fn dword_of(leaf: Option<&Leaf>) -> Option<u32>
    ensures { result ≡ dword_in (leaf_in leaf.entry) }
{
    match leaf {
        Some(Leaf::Dword(n)) => Some(*n),
        _ => None,
    }
}

fn told_int(name: Option<&[u8]>, n: Option<i32>) -> Told<'_>
    ensures { entry_told result ≡ int_entry (option_map (λ text. text.now) name.entry) n }
{
    match name {
        None => Told::Broken,
        Some(name) => match n {
            None => Told::Broken,
            Some(n) => Told::Tells(Var::Int(name, n)),
        },
    }
}

fn told_text<'a>(name: Option<&'a [u8]>, text: Option<&'a [u8]>) -> Told<'a>
    ensures { entry_told result ≡ text_entry (option_map (λ t. t.now) name.entry)
        (option_map (λ t. t.now) text.entry) }
{
    match name {
        None => Told::Broken,
        Some(name) => match text {
            None => Told::Broken,
            Some(text) => Told::Tells(Var::Text(name, text)),
        },
    }
}

/// What an entry tells: its type is looked at first, and where that isn't read nothing else is.
pub fn told_by(entry: &Node) -> Told<'_>
    ensures told { entry_told result ≡ entry_of (plain_node entry.now) }
{
    match dword_of(entry.find(b"Type".as_slice())) {
        None => Told::Broken,
        Some(kind) => {
            let name = string_of(entry.find(b"Name".as_slice()));
            let value = entry.find(b"Value".as_slice());
            match kind {
                1 => told_int(name, int_of(value)),
                3 => told_text(name, string_of(value)),
                _ => Told::Unread,
            }
        }
    }
}

/// Puts the variable of an entry last, if it tells one.
fn add_entry(
    list: u8,
    member: u32,
    number: u32,
    entry: &Node,
    vars: &mut Vars,
) -> Result<(), AreaFault>
    ensures whole { OnOk result (entry_places (at_entry list member number) vars.old
        (entry_of (plain_node entry.now)) ≡ []) }
    ensures vars { OnOk result (vars.new
        ≡ with_later vars.old (entry_of (plain_node entry.now))) }
    ensures first { IfErr result (λ e. IsFirst e (entry_places (at_entry list member number)
        vars.old (entry_of (plain_node entry.now)))) }
{
    let broken = AreaFault::Shape {
        list,
        member,
        entry: number,
    };
    match told_by(entry) {
        Told::Broken => Err(broken),
        Told::Unread => Ok(()),
        Told::Tells(v) => {
            if vars.contains(v) {
                return Err(broken);
            }
            vars.push(v)?;
            Ok(())
        }
    }
}

/// Puts the variables of a table's entries into an empty list.
fn add_entries(list: u8, member: u32, entries: &[Node], vars: &mut Vars) -> Result<(), AreaFault>
    requires few { length entries.now < 4294967296 }
    requires none { vars.old ≡ [] }
    ensures whole { OnOk result
        (entries_places list member 1 [] (map plain_node entries.now) ≡ []) }
    ensures vars { OnOk result (vars.new ≡ variables_in (map plain_node entries.now)) }
    ensures first { IfErr result (λ e. IsFirst e
        (entries_places list member 1 [] (map plain_node entries.now))) }
{
    let mut number = 0;
    for entry in entries {
        number += 1;
        add_entry(list, member, number, entry, vars)?;
    }
    Ok(())
}

fn read_entries(alloc: Global, list: u8, member: u32, entries: &[Node]) -> Result<Vars, AreaFault>
    requires few { length entries.now < 4294967296 }
    ensures { Reads result (entries_places list member 1 [] (map plain_node entries.now))
        (variables_in (map plain_node entries.now)) }
{
    let mut vars = Vars::new(alloc);
    match add_entries(list, member, entries, &mut vars) {
        Ok(()) => Ok(vars),
        Err(e) => {
            drop(vars);
            Err(e)
        }
    }
}

/// The variables of a member.
fn read_table(alloc: Global, list: u8, member: u32, table: Option<&Leaf>) -> Result<Vars, AreaFault>
    requires few { length (structs_in (leaf_in table)) < 4294967296 }
    ensures { Reads result (table_places list member (leaf_in table.entry))
        (variables_in (structs_in (leaf_in table.entry))) }
{
    match table {
        None => Ok(Vars::new(alloc)),
        Some(leaf) => match leaf.list() {
            None => Err(AreaFault::Shape {
                list,
                member,
                entry: 0,
            }),
            Some(entries) => read_entries(alloc, list, member, entries),
        },
    }
}

fn read_tag(
    alloc: Global,
    list: u8,
    member: u32,
    tag: Option<&Leaf>,
) -> Result<SharedBytes, AreaFault>
    ensures { Reads result (tag_places list member (leaf_in tag.entry))
        (tag_in (leaf_in tag.entry)) }
{
    match tag {
        None => Ok(SharedBytes::new(alloc)),
        Some(Leaf::Str(text)) => Ok(text.copy(alloc)?),
        Some(Leaf::Res(text)) => Ok(SharedBytes::of_slice(alloc, text.as_slice())?),
        Some(_) => Err(AreaFault::Shape {
            list,
            member,
            entry: 0,
        }),
    }
}

/// The object that a member of a list is.
fn read_member(alloc: Global, list: u8, member: u32, node: &Node) -> Result<Object, AreaFault>
    requires few { length (structs_in (found (codes "VarTable") (fields_of (plain_node node.now))))
        < 4294967296 }
    ensures { Reads result (member_places list member (plain_node node.now))
        (object_of (plain_node node.now)) }
{
    let scripts = read_scripts(alloc, node.fields())?;
    let tag = read_tag(alloc, list, member, node.find(b"Tag".as_slice()))?;
    let vars = read_table(alloc, list, member, node.find(b"VarTable".as_slice()))?;
    Ok(Object { tag, vars, scripts })
}

/// Puts the objects of a list's members last.
fn add_members(
    alloc: Global,
    list: u8,
    nodes: &[Node],
    objects: &mut Vec<Object>,
) -> Result<(), AreaFault>
    requires few { nodes_count (nodes_list nodes.now) < 4294967296 }
    ensures whole { OnOk result (members_places list 1 (map plain_node nodes.now) ≡ []) }
    ensures objects { OnOk result (objects.new.items ≡ objects.old.items
        ++ map object_of (map plain_node nodes.now)) }
    ensures first { IfErr result (λ e. IsFirst e
        (members_places list 1 (map plain_node nodes.now))) }
{
    let mut member = 0;
    for node in nodes {
        member += 1;
        let object = read_member(alloc, list, member, node)?;
        objects.push(object)?;
    }
    Ok(())
}

/// Puts the objects of a list of the top struct last.
fn add_list(
    alloc: Global,
    list: u8,
    leaf: Option<&Leaf>,
    objects: &mut Vec<Object>,
) -> Result<(), AreaFault>
    requires few { leaves_count (leaf_in leaf) < 4294967296 }
    ensures whole { OnOk result (list_places list (leaf_in leaf.entry) ≡ []) }
    ensures objects { OnOk result (objects.new.items ≡ objects.old.items
        ++ map object_of (structs_in (leaf_in leaf.entry))) }
    ensures first { IfErr result (λ e. IsFirst e (list_places list (leaf_in leaf.entry))) }
{
    match leaf {
        None => Ok(()),
        Some(leaf) => match leaf.list() {
            None => Err(AreaFault::Shape {
                list,
                member: 0,
                entry: 0,
            }),
            Some(nodes) => add_members(alloc, list, nodes, objects),
        },
    }
}

/// The label of a list of objects by its number.
pub fn list_label(list: u8) -> &'static [u8]
    requires known { list < 5 }
    ensures label { drop list list_labels ≡ result.now ∷ drop (list + 1) list_labels }
{
    match list {
        0 => b"Creature List".as_slice(),
        1 => b"Door List".as_slice(),
        2 => b"Placeable List".as_slice(),
        3 => b"TriggerList".as_slice(),
        _ => b"WaypointList".as_slice(),
    }
}

/// Puts the objects of the five lists into an empty list.
fn add_lists(alloc: Global, top: &Node, objects: &mut Vec<Object>) -> Result<(), AreaFault>
    requires few { node_count (plain_node top.now) < 4294967296 }
    requires none { objects.old.items ≡ [] }
    ensures whole { OnOk result (broken_places (plain_node top.now) ≡ []) }
    ensures objects { OnOk result (objects.new.items ≡ objects_of (plain_node top.now)) }
    ensures first { IfErr result (λ e. IsFirst e (broken_places (plain_node top.now))) }
{
    for list in 0..5 {
        let leaf = top.find(list_label(list));
        add_list(alloc, list, leaf, objects)?;
    }
    Ok(())
}

/// The objects of a tree, or its first broken place.
pub fn read_objects(alloc: Global, top: &Node) -> Result<Vec<Object>, AreaFault>
    requires few { node_count (plain_node top.now) < 4294967296 }
    ensures whole { IfOk result (λ _. broken_places (plain_node top.now) ≡ []) }
    ensures objects { IfOk result (λ objects. objects.items ≡ objects_of (plain_node top.now)) }
    ensures first { IfErr result (λ e. IsFirst e (broken_places (plain_node top.now))) }
{
    let mut objects = Vec::new(alloc);
    match add_lists(alloc, top, &mut objects) {
        Ok(()) => Ok(objects),
        Err(e) => {
            drop(objects);
            Err(e)
        }
    }
}
