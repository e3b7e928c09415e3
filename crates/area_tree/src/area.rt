//! An area.

ghost use Rattle.std.specs.Prelude.{◌≡◌, ◌≤◌, ◌<◌, [], not, filter, length, IsTrue, IfOk, IfErr};
ghost use Rattle.std.specs.Prelude.{OnOk, OnErr};
ghost use Rattle.gff_tree.specs.Tree.{plain_node};
ghost use Rattle.gff_tree.specs.Whole.{plain_gff};
ghost use Rattle.gff_tree.specs.Count.{node_count};
ghost use Rattle.local_variables.specs.Variables.{IntVar, TextVar, is_int, is_text, int_named};
ghost use Rattle.local_variables.specs.Variables.{text_named, put};
ghost use Rattle.area_rules.specs.Broken.{broken_places, IsFirst};
ghost use Rattle.area_rules.specs.Area.{area_of, empty_area, object, by_tag};
ghost use Rattle.area_rules.specs.Area.{script_named, changed, IsArea};

use crate::object::{Object, read_objects};
use crate::tags::{Tags, index, numbers};
use area_rules::{AreaFault, objects_tell};
use gff_tree::{Gff, Node};
use local_variables::{Vars, variables_tell};
use nwq_value::NoMemory;
use shared_bytes::SharedBytes;
use std::alloc::Global;
use std::marker::Model;

/// The tree that was read, and what its objects are now. Objects are numbered from 1.
pub struct Area {
    tree: Gff,
    objects: Vec<Object>,
    tags: Tags,
}

impl Model for Area {
    ghost use Rattle.std.specs.Coded.{codes};
    ghost use Rattle.gff_tree.specs.Code.{node_code};
    ghost use Rattle.gff_tree.specs.Whole.{plain_gff};
    ghost use Rattle.area_rules.specs.Area.{PlainArea, IsArea};
    ghost use Rattle.area_tree.specs.Index.{Indexes};

    ghost Value = { PlainArea };

    ghost coded = { Prim.hlevel (codes, node_code) };

    ghost view = { λ a. record { tree = plain_gff a.tree; objects = a.objects.items } };

    ghost invariant = { λ a. IsArea (record { tree = plain_gff a.tree; objects = a.objects.items })
        × Indexes a.tags.places a.tags.numbers.items a.objects.items };
}

impl Drop for Area {
    fn drop(self) {
        let Area {
            tree,
            objects,
            tags,
        } = self;
        drop(tree);
        drop(objects);
        drop(tags);
    }
}

impl Area {
    /// The area without objects.
    pub fn empty(alloc: Global) -> Area
        ensures empty { result ≡ empty_area }
    {
        let top = Node::new(u32::MAX, Vec::new(alloc));
        Area {
            tree: Gff {
                file_type: *b"GIT ",
                top,
            },
            objects: Vec::new(alloc),
            tags: Tags::new(alloc),
        }
    }

    /// The area that a tree tells, or the first place at which it breaks the rules. The tree is
    /// dropped on a refusal.
    pub fn of(alloc: Global, tree: Gff) -> Result<Area, AreaFault>
        requires few { node_count (plain_gff tree).top < 4294967296 }
        // What is answered is the tree's area, and the tree breaks no rule.
        ensures area { IfOk result (λ area. (broken_places (plain_gff tree).top ≡ [])
            × (area ≡ area_of (plain_gff tree))) }
        // A place that is named is the first that breaks a rule.
        ensures first { IfErr result (λ e. IsFirst e (broken_places (plain_gff tree).top)) }
    {
        objects_tell();
        match read_objects(alloc, &tree.top) {
            Err(e) => {
                drop(tree);
                Err(e)
            }
            Ok(objects) => match index(alloc, &objects) {
                Err(e) => {
                    drop(objects);
                    drop(tree);
                    Err(AreaFault::from(e))
                }
                Ok(tags) => Ok(Area {
                    tree,
                    objects,
                    tags,
                }),
            },
        }
    }

    /// The tree that was read, and the objects as they are now.
    pub fn into_parts(self) -> (Gff, Vec<Object>)
        ensures tree { plain_gff result.0 ≡ self.tree }
        ensures objects { result.1.items ≡ self.objects }
    {
        let Area {
            tree,
            objects,
            tags,
        } = self;
        drop(tags);
        (tree, objects)
    }

    /// How many objects there are.
    pub fn count(&self) -> u32
        ensures count { result ≡ length self.now.objects }
    {
        self.objects.len() as u32
    }

    pub fn tag(&self, o: u32) -> &[u8]
        requires first { 1 ≤ o }
        requires within { o ≤ length self.now.objects }
        ensures tag { result.now ≡ (object self.now o).tag }
    {
        self.objects[o as usize - 1].tag()
    }

    /// The object with a tag before which so many others with it stand; 0 where there is none, and
    /// where the number is negative.
    pub fn by_tag(&self, tag: &[u8], nth: i32) -> u32
        ensures object { result ≡ by_tag self.now tag.now nth }
    {
        if nth < 0 {
            return 0;
        }
        match numbers(&self.tags, tag).get(nth as usize) {
            Some(number) => *number,
            None => 0,
        }
    }

    /// The name of the resource under a label, or the empty one.
    pub fn script_of(&self, o: u32, label: &[u8]) -> &[u8]
        requires first { 1 ≤ o }
        requires within { o ≤ length self.now.objects }
        ensures name { result.now ≡ script_named label.now (object self.now o).scripts }
    {
        self.objects[o as usize - 1].script(label)
    }

    /// The value of an int variable, or 0 where there is none.
    pub fn get_int(&self, o: u32, name: &[u8]) -> i32
        requires first { 1 ≤ o }
        requires within { o ≤ length self.now.objects }
        ensures value { result ≡ int_named name.now (object self.now o).vars }
    {
        self.objects[o as usize - 1].vars().int(name)
    }

    /// The value of a string variable, or the empty one where there is none.
    pub fn get_text(&self, o: u32, name: &[u8]) -> &[u8]
        requires first { 1 ≤ o }
        requires within { o ≤ length self.now.objects }
        ensures value { result.now ≡ text_named name.now (object self.now o).vars }
    {
        self.objects[o as usize - 1].vars().text(name)
    }

    /// Gives an int variable of an object a value, in its place, or puts it last.
    pub fn set_int(&mut self, o: u32, name: &[u8], v: i32) -> Result<(), NoMemory>
        requires first { 1 ≤ o }
        requires within { o ≤ length self.old.objects }
        ensures ok { OnOk result (self.new ≡ changed self.old o (put (IntVar name.now v))) }
        ensures err { OnErr result (self.new ≡ self.old) }
    {
        variables_tell();
        let object = &mut self.objects[o as usize - 1];
        object.set_int(name, v)
    }

    /// Gives a string variable of an object a value, in its place, or puts it last.
    pub fn set_text(&mut self, o: u32, name: &[u8], v: SharedBytes) -> Result<(), NoMemory>
        requires first { 1 ≤ o }
        requires within { o ≤ length self.old.objects }
        ensures ok { OnOk result (self.new ≡ changed self.old o (put (TextVar name.now v))) }
        ensures err { OnErr result (self.new ≡ self.old) }
    {
        variables_tell();
        let object = &mut self.objects[o as usize - 1];
        object.set_text(name, v)
    }

    /// Takes an int variable of an object out; the others keep their order.
    pub fn delete_int(&mut self, o: u32, name: &[u8])
        requires first { 1 ≤ o }
        requires within { o ≤ length self.old.objects }
        ensures gone { self.new ≡ changed self.old o (filter (λ v. not (is_int name.now v))) }
    {
        variables_tell();
        let object = &mut self.objects[o as usize - 1];
        object.delete_int(name);
    }

    /// Takes a string variable of an object out; the others keep their order.
    pub fn delete_text(&mut self, o: u32, name: &[u8])
        requires first { 1 ≤ o }
        requires within { o ≤ length self.old.objects }
        ensures gone { self.new ≡ changed self.old o (filter (λ v. not (is_text name.now v))) }
    {
        variables_tell();
        let object = &mut self.objects[o as usize - 1];
        object.delete_text(name);
    }

    /// The variables of an object.
    pub fn vars(&self, o: u32) -> &Vars
        requires first { 1 ≤ o }
        requires within { o ≤ length self.now.objects }
        ensures vars { result.now ≡ (object self.now o).vars }
    {
        self.objects[o as usize - 1].vars()
    }

    /// Gives an object these variables in the place of its own.
    pub fn put_vars(&mut self, o: u32, vars: Vars)
        requires first { 1 ≤ o }
        requires within { o ≤ length self.old.objects }
        ensures vars { self.new ≡ changed self.old o (λ _. vars) }
    {
        vars.keeps();
        let object = &mut self.objects[o as usize - 1];
        object.put_vars(vars);
    }

    /// What every area keeps.
    pub fn keeps(&self)
        ensures keeps { IsArea self.now }
    {
        let _ = &self.objects;
    }
}
