ghost use Rattle.std.specs.Prelude.{◌≡◌, ◌<◌, ◌≤◌, ◌∷◌, [], ◌++◌, None, Some, length, slice_get};
ghost use Rattle.std.specs.Prelude.{IfSome, OnOk, OnErr, nat_eq};
ghost use Rattle.std.specs.Option.{option_copied};
ghost use Rattle.std.specs.Map.{values_of};
ghost use Rattle.indexmap.specs.IndexMap.{get};
ghost use Rattle.nwq_value.specs.Engine.{routine_named, constant_named, AreParams, IsConstant};
ghost use Rattle.nwq_value.specs.Engine.{IsNoStruct};
ghost use Rattle.nwq_value.specs.Engine.{IsRoutine, IsTable, ConstantIsOfName, NoConstantNoName};
ghost use Rattle.nwq_value.specs.Engine.{NoNumberNoName, NumberIsOfName};
ghost use Rattle.nwq_value.specs.Entries.{constant_under, routine_under};
ghost use Rattle.nwq_value.specs.Index.{number_under, IsSame, Puts};
ghost use Rattle.nwq_value.specs.Limits.{parameter_limit, routine_limit};
ghost use Rattle.nwq_value.specs.Roles.{engine_role, types_of};

use crate::engine::{Const, Routine};
use crate::index::NameIndex;
use crate::memory::NoMemory;
use crate::text::Text;
use indexmap::IndexMap;
use std::alloc::Global;
use std::marker::Model;

/// A constant under its name.
#[derive(Drop)]
struct Named {
    name: Text,
    value: Const,
}

/// The routines and the named constants of a header.
///
/// Every table keeps this: no two of its names are equal, there are at most 65,535 routines, and
/// each routine has at most 255 parameters, mentions no struct type, has defaults of its
/// parameters' types and the role that its name and types give it.
pub struct Table {
    /// The number of each name, in the order in which they came.
    names: NameIndex,
    /// The routines and the constants in their order, each under the number of its name.
    routines: IndexMap<usize, Routine>,
    constants: IndexMap<usize, Named>,
}

impl Model for Table {
    ghost use Rattle.nwq_value.specs.Engine.{EngineTable, IsTable};
    ghost use Rattle.nwq_value.specs.Entries.{table_of, AreFound};

    ghost Value = { EngineTable };

    ghost view = { λ t. table_of t.routines.entries t.constants.entries };

    ghost invariant = { λ t. AreFound t.names t.routines.entries t.constants.entries
        × IsTable (table_of t.routines.entries t.constants.entries) };
}

impl Drop for Table {
    fn drop(self) {
        let Table {
            names,
            routines,
            constants,
        } = self;
        drop(names);
        drop(routines);
        drop(constants);
    }
}

/// Puts a routine last under the number of its name, which is new.
fn push_routine(
    names: &mut NameIndex,
    routines: &mut IndexMap<usize, Routine>,
    number: usize,
    routine: Routine,
) -> Result<(), NoMemory>
    requires new { number_under routine.name names.old ≡ None }
    requires free { get nat_eq routines.old number ≡ None }
    ensures entries { OnOk result
        (routines.new.entries ≡ routines.old.entries ++ (number, routine) ∷ []) }
    ensures number { OnOk result (Puts routine.name (Some number) names.old names.new) }
    ensures same_entries { OnErr result (routines.new.entries ≡ routines.old.entries) }
    ensures same_names { OnErr result (IsSame names.old names.new) }
{
    names.set(routine.name.bytes(), number)?;
    match routines.insert(number, routine) {
        Ok(_) => Ok(()),
        Err(failed) => {
            let (_, routine) = failed.value;
            names.remove(routine.name.bytes());
            drop(routine);
            Err(NoMemory)
        }
    }
}

/// Puts a constant last under the number of its name, which is new.
fn push_constant(
    names: &mut NameIndex,
    constants: &mut IndexMap<usize, Named>,
    number: usize,
    constant: Named,
) -> Result<(), NoMemory>
    requires new { number_under constant.name names.old ≡ None }
    requires free { get nat_eq constants.old number ≡ None }
    ensures entries { OnOk result
        (constants.new.entries ≡ constants.old.entries ++ (number, constant) ∷ []) }
    ensures number { OnOk result (Puts constant.name (Some number) names.old names.new) }
    ensures same_entries { OnErr result (constants.new.entries ≡ constants.old.entries) }
    ensures same_names { OnErr result (IsSame names.old names.new) }
{
    names.set(constant.name.bytes(), number)?;
    match constants.insert(number, constant) {
        Ok(_) => Ok(()),
        Err(failed) => {
            let (_, constant) = failed.value;
            names.remove(constant.name.bytes());
            drop(constant);
            Err(NoMemory)
        }
    }
}

/// The routine at a place.
fn routine_at(routines: &IndexMap<usize, Routine>, at: usize) -> Option<&Routine>
    ensures { option_copied result ≡ slice_get (values_of routines.now.entries) at }
{
    match routines.get_index(at) {
        Some((_, routine)) => Some(routine),
        None => None,
    }
}

/// The place of the routine under a number.
fn place_of(routines: &IndexMap<usize, Routine>, number: usize) -> Option<usize>
    ensures { result ≡ routine_under routines.now.entries number }
{
    routines.get_index_of(&number)
}

/// The value of the constant under a number.
fn value_of(constants: &IndexMap<usize, Named>, number: usize) -> Option<&Const>
    ensures { option_copied result ≡ constant_under constants.now.entries number }
{
    match constants.get(&number) {
        Some(constant) => Some(&constant.value),
        None => None,
    }
}

impl Table {
    /// The table without routines and constants.
    pub fn new(alloc: Global) -> Table
        ensures empty { result ≡ record { routines = []; constants = [] } }
    {
        Table {
            names: NameIndex::new(alloc),
            routines: IndexMap::new(alloc),
            constants: IndexMap::new(alloc),
        }
    }

    /// Puts a routine last. After `NoMemory` it is dropped and the table is as before.
    pub fn push(&mut self, routine: Routine) -> Result<(), NoMemory>
        requires no_routine { routine_named routine.name self.old.routines ≡ None }
        requires no_constant { constant_named routine.name self.old.constants ≡ None }
        requires room { length self.old.routines < routine_limit }
        requires few { length routine.params ≤ parameter_limit }
        requires result_type { IsNoStruct routine.result }
        requires param_types { AreParams routine.params }
        requires role { routine.role
            ≡ engine_role routine.name routine.result (types_of routine.params) }
        ensures ok { OnOk result
            (self.new ≡ record self.old { routines = self.old.routines ++ routine ∷ [] }) }
        ensures err { OnErr result (self.new ≡ self.old) }
    {
        let number = self.routines.len() + self.constants.len();
        push_routine(&mut self.names, &mut self.routines, number, routine)
    }

    /// Puts a constant under a name last. After `NoMemory` it is dropped, the table as before.
    pub fn define(&mut self, name: Text, value: Const) -> Result<(), NoMemory>
        requires no_routine { routine_named name self.old.routines ≡ None }
        requires no_constant { constant_named name self.old.constants ≡ None }
        requires value { IsConstant value }
        ensures ok { OnOk result (self.new ≡ record self.old {
          constants = self.old.constants ++ record { name = name; value = value } ∷ [];
        }) }
        ensures err { OnErr result (self.new ≡ self.old) }
    {
        let constant = Named { name, value };
        let number = self.routines.len() + self.constants.len();
        push_constant(&mut self.names, &mut self.constants, number, constant)
    }

    /// How many routines there are.
    pub fn count(&self) -> usize
        ensures count { result ≡ length self.now.routines }
        ensures bound { result ≤ routine_limit }
    {
        self.routines.len()
    }

    /// The routine of number `n`.
    pub fn routine(&self, n: u16) -> Option<&Routine>
        ensures entry { option_copied result ≡ slice_get self.now.routines n }
        ensures kept { IfSome result (λ routine. IsRoutine routine.now) }
        ensures number { IfSome result
            (λ routine. routine_named routine.now.name self.now.routines ≡ Some n) }
    {
        routine_at(&self.routines, n as usize)
    }

    /// The number of the routine with this name.
    pub fn by_name(&self, name: &[u8]) -> Option<u16>
        ensures number { result ≡ routine_named name.now self.now.routines }
        ensures bound { IfSome result (λ n. n < length self.now.routines) }
    {
        match self.names.get(name) {
            Some(number) => match place_of(&self.routines, number) {
                Some(n) => Some(n as u16),
                None => None,
            },
            None => None,
        }
    }

    /// The constant with this name.
    pub fn constant(&self, name: &[u8]) -> Option<&Const>
        ensures value { option_copied result ≡ constant_named name.now self.now.constants }
        ensures apart { IfSome result (λ _. routine_named name.now self.now.routines ≡ None) }
    {
        match self.names.get(name) {
            Some(number) => value_of(&self.constants, number),
            None => None,
        }
    }

    /// What every table keeps of its names and routines.
    pub fn keeps(&self)
        ensures table { IsTable self.now }
    {
        let _ = &self.routines;
    }
}

/// What the look-ups by name tell of a list of routines and of a list of constants.
pub fn names_tell()
    ensures number { NumberIsOfName }
    ensures no_number { NoNumberNoName }
    ensures constant { ConstantIsOfName }
    ensures no_constant { NoConstantNoName }
{}
