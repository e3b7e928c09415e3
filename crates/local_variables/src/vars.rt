//! The variables of an object.

ghost use Rattle.std.specs.Prelude.{◌≡◌, [], ◌∷◌, ◌++◌, not, false, filter, length, slice_get};
ghost use Rattle.std.specs.Prelude.{IfOk, OnOk, OnErr, MatchOption};
ghost use Rattle.std.specs.List.{list_any, IsDistinct};
ghost use Rattle.std.specs.Option.{option_map};
ghost use Rattle.local_variables.specs.Variables.{IntVar, TextVar, variable_of, is_int, is_text};
ghost use Rattle.local_variables.specs.Variables.{same_variable, int_named, text_named, put};

use crate::kept::Kept;
use crate::walk::Walk;
use nwq_value::NoMemory;
use shared_bytes::SharedBytes;
use std::alloc::Global;
use std::marker::Model;

/// One variable, its name first: an int or a string.
#[derive(Clone, Copy)]
pub enum Var<'a> {
    Int(&'a [u8], i32),
    Text(&'a [u8], &'a [u8]),
}

/// The variables of one object in their order, no two of one type and name. Contracts see the list
/// of them. An object without variables keeps nothing of them.
pub struct Vars {
    alloc: Global,
    /// The variables, where there are some.
    kept: Option<Box<Kept>>,
}

impl Model for Vars {
    ghost use Rattle.std.specs.Prelude.{List};
    ghost use Rattle.local_variables.specs.Variables.{Variable};
    ghost use Rattle.local_variables.specs.Kept.{boxed};

    ghost Value = { List Variable };

    ghost view = { λ v. boxed v.kept };
}

impl Drop for Vars {
    fn drop(self) {
        let Vars { alloc: _, kept } = self;
        drop(kept);
    }
}

/// The list of one variable.
fn only(alloc: Global, v: Var<'_>) -> Result<Box<Kept>, NoMemory>
    ensures only { IfOk result (λ all. all.value ≡ variable_of v.entry ∷ []) }
{
    let mut all = Kept::new(alloc);
    match all.push(v) {
        Err(NoMemory) => {
            drop(all);
            Err(NoMemory)
        }
        Ok(()) => Ok(Box::new(alloc, all)?),
    }
}

/// The list of one string.
fn only_text(alloc: Global, name: &[u8], text: SharedBytes) -> Result<Box<Kept>, NoMemory>
    ensures only { IfOk result (λ all. all.value ≡ TextVar name.now text ∷ []) }
{
    let mut all = Kept::new(alloc);
    match all.set_text(name, text) {
        Err(NoMemory) => {
            drop(all);
            Err(NoMemory)
        }
        Ok(()) => Ok(Box::new(alloc, all)?),
    }
}

impl Vars {
    /// The list without variables.
    pub fn new(alloc: Global) -> Vars
        ensures empty { result ≡ [] }
    {
        Vars { alloc, kept: None }
    }

    pub fn len(&self) -> usize
        ensures len { result ≡ length self.now }
    {
        match &self.kept {
            None => 0,
            Some(all) => all.len(),
        }
    }

    /// A walk over all variables, each in constant time.
    pub fn walk(&self) -> Walk<'_>
        ensures all { result ≡ self.now }
    {
        match &self.kept {
            None => Walk::over(None),
            Some(all) => Walk::over(Some(all.walk())),
        }
    }

    /// The variable at place `i`, counted from 0, which passes those before it: a walk goes over
    /// all.
    pub fn get(&self, i: usize) -> Option<Var<'_>>
        ensures variable { option_map variable_of result ≡ slice_get self.now i }
    {
        let mut walk = self.walk();
        for _ in 0..i {
            walk.next();
        }
        walk.next()
    }

    /// Is there a variable of this type and name?
    pub fn contains(&self, v: Var<'_>) -> bool
        ensures found { result ≡ list_any (same_variable (variable_of v.entry)) self.now }
    {
        match &self.kept {
            None => false,
            Some(all) => all.contains(v),
        }
    }

    /// The value of the int of a name, or 0 where there is none.
    pub fn int(&self, name: &[u8]) -> i32
        ensures value { result ≡ int_named name.now self.now }
    {
        match &self.kept {
            None => 0,
            Some(all) => all.int(name),
        }
    }

    /// The string of a name, if there is one.
    pub fn string(&self, name: &[u8]) -> Option<&SharedBytes>
        ensures value { MatchOption result (text_named name.now self.now ≡ [])
            (λ text. text.now ≡ text_named name.now self.now) }
    {
        match &self.kept {
            None => None,
            Some(all) => all.string(name),
        }
    }

    /// The string of a name, or the empty one where there is none.
    pub fn text(&self, name: &[u8]) -> &[u8]
        ensures value { result.now ≡ text_named name.now self.now }
    {
        match self.string(name) {
            None => &[],
            Some(text) => text.as_slice(),
        }
    }

    /// Puts a variable last, where there is none of its type and name. After `NoMemory` the list is
    /// as before.
    pub fn push(&mut self, v: Var<'_>) -> Result<(), NoMemory>
        requires new { list_any (same_variable (variable_of v)) self.old ≡ false }
        ensures ok { OnOk result (self.new ≡ self.old ++ variable_of v.entry ∷ []) }
        ensures err { OnErr result (self.new ≡ self.old) }
    {
        match &mut self.kept {
            None => {
                self.kept = Some(only(self.alloc, v)?);
                Ok(())
            }
            Some(all) => all.push(v),
        }
    }

    /// Gives an int of a name a value, in its place, or puts it last where there is none.
    pub fn set_int(&mut self, name: &[u8], n: i32) -> Result<(), NoMemory>
        ensures ok { OnOk result (self.new ≡ put (IntVar name.now n) self.old) }
        ensures err { OnErr result (self.new ≡ self.old) }
    {
        self.set(Var::Int(name, n))
    }

    /// Gives a string of a name a value, in its place, or puts it last where there is none.
    pub fn set_text(&mut self, name: &[u8], text: SharedBytes) -> Result<(), NoMemory>
        ensures ok { OnOk result (self.new ≡ put (TextVar name.now text) self.old) }
        ensures err { OnErr result (self.new ≡ self.old) }
    {
        match &mut self.kept {
            None => {
                self.kept = Some(only_text(self.alloc, name, text)?);
                Ok(())
            }
            Some(all) => all.set_text(name, text),
        }
    }

    /// Gives the variable of a type and name a value, in its place, or puts it last where there is
    /// none.
    pub fn set(&mut self, v: Var<'_>) -> Result<(), NoMemory>
        ensures ok { OnOk result (self.new ≡ put (variable_of v.entry) self.old) }
        ensures err { OnErr result (self.new ≡ self.old) }
    {
        match &mut self.kept {
            None => {
                self.kept = Some(only(self.alloc, v)?);
                Ok(())
            }
            Some(all) => all.set(v),
        }
    }

    /// Lets the memory go where no variable is left.
    #[tactic(auto, using(crate::proofs::KeptLemmas::none_left_is))]
    fn settle(&mut self)
        ensures same { self.new ≡ self.old }
    {
        if self.len() == 0 {
            self.kept = None;
        }
    }

    /// Takes the int of a name out; the others keep their order.
    pub fn delete_int(&mut self, name: &[u8])
        ensures gone { self.new ≡ filter (λ v. not (is_int name.now v)) self.old }
    {
        match &mut self.kept {
            None => {}
            Some(all) => {
                all.delete_int(name);
                self.settle();
            }
        }
    }

    /// Takes the string of a name out; the others keep their order.
    pub fn delete_text(&mut self, name: &[u8])
        ensures gone { self.new ≡ filter (λ v. not (is_text name.now v)) self.old }
    {
        match &mut self.kept {
            None => {}
            Some(all) => {
                all.delete_text(name);
                self.settle();
            }
        }
    }

    /// No two variables are of one type and name.
    #[tactic(auto, using(crate::proofs::KeptLemmas::none_distinct))]
    pub fn keeps(&self)
        ensures distinct { IsDistinct same_variable self.now }
    {
        match &self.kept {
            None => {}
            Some(all) => all.keeps(),
        }
    }
}
