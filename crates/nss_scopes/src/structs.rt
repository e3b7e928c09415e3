//! The structs that are declared, by their numbers.

ghost use Rattle.std.specs.Prelude.{◌≡◌, ◌<◌, ◌++◌, ◌∷◌, [], is_some, length, slice_get, IfOk};
ghost use Rattle.std.specs.Prelude.{OnErr, OnOk};
ghost use Rattle.std.specs.Option.{option_map};
ghost use Rattle.typing_rules.specs.Sight.{cells, find_member, has_struct, is_of_struct};
ghost use Rattle.typing_rules.specs.Sight.{members_in, struct_means};
ghost use Rattle.nss_scopes.specs.Entries.{member_of, members_of, meant_of, structure_of};
ghost use Rattle.nss_scopes.specs.Entries.{AreStructs, struct_limit};

use crate::budget::{STRUCTS, one_more};
use crate::places::{Places, item_at};
use nwq_value::{Items, NoMemory, Text, Ty};
use std::alloc::Global;
use std::marker::Model;

/// A field of a struct, and how many cells of the struct stand before it.
#[derive(Drop)]
pub struct Member {
    pub called: Text,
    pub ty: Ty,
    pub before: u32,
}

/// The fields of a struct, and the cells that they have together.
#[derive(Drop)]
pub struct Members {
    pub fields: Items<Member>,
    pub cells: u32,
}

/// A declared struct, with its members where it is typed.
#[derive(Drop)]
pub struct Structure {
    pub called: Text,
    pub members: Option<Members>,
}

/// What a type as it is written means.
#[derive(Clone, Copy)]
pub enum Meant {
    /// A type whose values are left out
    Refused,
    /// A struct that isn't declared
    Missing,
    Is(Ty),
}

/// The declared structs in order, within their budget. Contracts see the list of them.
#[derive(Drop)]
pub struct Structs {
    all: Vec<Structure>,
    places: Places,
}

impl Model for Structs {
    ghost use Rattle.std.specs.Prelude.{List, map};
    ghost use Rattle.typing_rules.specs.Sight.{Structure as Declared};
    ghost use Rattle.nss_scopes.specs.Entries.{structure_of, AreStructs};

    ghost Value = { List Declared };

    ghost view = { λ s. map structure_of s.all.items };

    ghost invariant = { λ s. AreStructs s.all.items s.places };
}

/// What a struct of this number means as a type.
fn number_means(number: u16, structure: &Structure) -> Option<Meant>
    ensures { option_map meant_of result
        ≡ is_of_struct number (structure_of structure.now).members }
{
    match &structure.members {
        Some(_) => Some(Meant::Is(Ty::Struct(number))),
        None => None,
    }
}

/// Puts a struct last, under its name.
fn push(
    all: &mut Vec<Structure>,
    places: &mut Places,
    name: Text,
    structure: Structure,
) -> Result<(), NoMemory>
    requires kept { AreStructs all.old.items places.old }
    requires name { name ≡ structure.called }
    requires few { length all.old.items < struct_limit }
    ensures ok { OnOk result (all.new.items ≡ all.old.items ++ structure ∷ []) }
    ensures err { OnErr result (all.new.items ≡ all.old.items) }
    ensures kept { AreStructs all.new.items places.new }
{
    all.push(structure)?;
    if places.push(name).is_ok() {
        return Ok(());
    }
    all.pop();
    Err(NoMemory)
}

/// A copy of the name of a struct that is to stand behind so many.
fn copied(alloc: Global, count: usize, name: &Text) -> Result<Text, NoMemory>
    ensures few { OnOk result (count < struct_limit) }
    ensures same { IfOk result (λ copy. copy ≡ name.now) }
{
    one_more(count, STRUCTS)?;
    name.copy(alloc)
}

impl Members {
    /// The field of a name.
    pub fn find(&self, name: &[u8]) -> Option<&Member>
        ensures found { option_map (λ m. member_of m.now) result
            ≡ find_member name.now (members_of self.now).fields }
    {
        for member in self.fields.as_slice() {
            if name == member.called.bytes() {
                return Some(member);
            }
        }
        None
    }
}

impl Structs {
    /// No structs.
    pub fn new(alloc: Global) -> Structs
        ensures empty { result ≡ [] }
    {
        Structs {
            all: Vec::new(alloc),
            places: Places::new(alloc),
        }
    }

    /// Whether a struct has this name.
    pub fn has(&self, name: &[u8]) -> bool
        ensures has { result ≡ has_struct name.now self.now }
    {
        self.places.first(name).is_some()
    }

    /// What the struct of this name means as a type; `None` where it isn't typed.
    pub fn means(&self, name: &[u8]) -> Option<Meant>
        ensures means { option_map meant_of result ≡ struct_means 0 name.now self.now }
    {
        match self.places.first(name) {
            Some(at) => match item_at(&self.all, at) {
                Some(structure) => number_means(at as u16, structure),
                None => Some(Meant::Missing),
            },
            None => Some(Meant::Missing),
        }
    }

    /// The struct of this number.
    pub fn get(&self, number: u16) -> Option<&Structure>
        ensures entry { option_map (λ s. structure_of s.now) result ≡ slice_get self.now number }
    {
        item_at(&self.all, number as usize)
    }

    /// The members of the struct that a type is, where it is a typed one.
    pub fn members(&self, ty: Ty) -> Option<&Members>
        ensures members { option_map (λ m. members_of m.now) result ≡ members_in self.now ty }
    {
        match ty {
            Ty::Struct(number) => match self.get(number) {
                Some(structure) => structure.members.as_ref(),
                None => None,
            },
            _ => None,
        }
    }

    /// The cells of a value of this type.
    pub fn cells(&self, ty: Ty) -> u32
        ensures cells { result ≡ cells self.now ty }
    {
        match ty {
            Ty::Void => 0,
            Ty::Struct(_) => match self.members(ty) {
                Some(members) => members.cells,
                None => 0,
            },
            _ => 1,
        }
    }

    /// Puts a struct last. `NoMemory` comes where memory is refused, and past the budget of 65,536
    /// structs; after it the structs are as before.
    pub fn push(
        &mut self,
        alloc: Global,
        called: Text,
        members: Option<Members>,
    ) -> Result<(), NoMemory>
        ensures ok { OnOk result (self.new ≡ self.old
            ++ record { called = called; members = option_map members_of members } ∷ []) }
        ensures err { OnErr result (self.new ≡ self.old) }
        ensures few { OnOk result (length self.old < struct_limit) }
    {
        match copied(alloc, self.all.len(), &called) {
            Ok(name) => push(
                &mut self.all,
                &mut self.places,
                name,
                Structure { called, members },
            ),
            Err(error) => {
                drop(members);
                Err(error)
            }
        }
    }
}
