//! The variables of an object that has some.

ghost use Rattle.std.specs.Prelude.{◌≡◌, [], ◌∷◌, ◌++◌, not, false, filter, length};
ghost use Rattle.std.specs.Prelude.{OnOk, OnErr, MatchOption};
ghost use Rattle.std.specs.List.{list_any, IsDistinct};
ghost use Rattle.local_variables.specs.Variables.{IntVar, TextVar, variable_of, is_int, is_text};
ghost use Rattle.local_variables.specs.Variables.{same_variable, int_named, text_named, put};
ghost use Rattle.local_variables.specs.Kept.{seen};

use crate::held::{Content, Held, add, find, write};
use crate::vars::Var;
use nwq_value::{NameIndex, NoMemory};
use shared_bytes::SharedBytes;
use stamped_slots::{Stamped, Walk};
use std::alloc::Global;
use std::marker::Model;

/// The variables of an object in their order, no two of one type and name. Contracts see the list
/// of them.
pub(crate) struct Kept {
    alloc: Global,
    /// The stamp of the next new variable.
    next: usize,
    /// The variables under their stamps.
    held: Stamped<Held>,
    /// The stamps of the ints by their names, and below those of the strings.
    ints: NameIndex,
    texts: NameIndex,
}

impl Model for Kept {
    ghost use Rattle.std.specs.Prelude.{List};
    ghost use Rattle.local_variables.specs.Variables.{Variable, is_int, is_text};
    ghost use Rattle.local_variables.specs.Kept.{seen, AreKept};

    ghost Value = { List Variable };

    ghost view = { λ v. seen v.held.items };

    ghost invariant = { λ v. AreKept is_int is_text v.next v.held.items v.ints v.texts };
}

impl Drop for Kept {
    fn drop(self) {
        let Kept {
            alloc: _,
            next: _,
            held,
            ints,
            texts,
        } = self;
        drop(held);
        drop(ints);
        drop(texts);
    }
}

impl Kept {
    /// The list without variables.
    pub(crate) fn new(alloc: Global) -> Kept
        ensures empty { result ≡ [] }
    {
        Kept {
            alloc,
            next: 0,
            held: Stamped::new(alloc),
            ints: NameIndex::new(alloc),
            texts: NameIndex::new(alloc),
        }
    }

    #[tactic(auto, using(crate::proofs::KeptLemmas::long_seen))]
    pub(crate) fn len(&self) -> usize
        ensures len { result ≡ length self.now }
    {
        self.held.len()
    }

    /// A walk over all variables, each in constant time.
    pub(crate) fn walk(&self) -> Walk<'_, Held>
        ensures all { seen result ≡ self.now }
    {
        self.held.walk()
    }

    /// Is there a variable of this type and name?
    pub(crate) fn contains(&self, v: Var<'_>) -> bool
        ensures found { result ≡ list_any (same_variable (variable_of v.entry)) self.now }
    {
        match v {
            Var::Int(name, _) => self.ints.get(name).is_some(),
            Var::Text(name, _) => self.texts.get(name).is_some(),
        }
    }

    /// The value of the int of a name, or 0 where there is none.
    pub(crate) fn int(&self, name: &[u8]) -> i32
        ensures value { result ≡ int_named name.now self.now }
    {
        self.held.keeps();
        match find(&self.held, &self.ints, name) {
            Some(held) => held.int(),
            None => 0,
        }
    }

    /// The string of a name, if there is one.
    pub(crate) fn string(&self, name: &[u8]) -> Option<&SharedBytes>
        ensures value { MatchOption result (text_named name.now self.now ≡ [])
            (λ text. text.now ≡ text_named name.now self.now) }
    {
        self.held.keeps();
        match find(&self.held, &self.texts, name) {
            Some(held) => held.string(),
            None => None,
        }
    }

    /// Puts an int last.
    fn push_int(&mut self, name: &[u8], n: i32) -> Result<(), NoMemory>
        requires new { list_any (is_int name.now) self.old ≡ false }
        ensures ok { OnOk result (self.new ≡ self.old ++ IntVar name.now n ∷ []) }
        ensures err { OnErr result (self.new ≡ self.old) }
    {
        let next = self.next.checked_add(1).ok_or(NoMemory)?;
        let held = Held::of_int(self.alloc, name, n)?;
        add(&mut self.held, &mut self.ints, name, self.next, held)?;
        self.next = next;
        Ok(())
    }

    /// Puts a string last.
    fn push_text(&mut self, name: &[u8], text: SharedBytes) -> Result<(), NoMemory>
        requires new { list_any (is_text name.now) self.old ≡ false }
        ensures ok { OnOk result (self.new ≡ self.old ++ TextVar name.now text ∷ []) }
        ensures err { OnErr result (self.new ≡ self.old) }
    {
        let next = self.next.checked_add(1).ok_or(NoMemory)?;
        let held = Held::of_text(self.alloc, name, text)?;
        add(&mut self.held, &mut self.texts, name, self.next, held)?;
        self.next = next;
        Ok(())
    }

    /// Puts a variable last, where there is none of its type and name. After `NoMemory` the list is
    /// as before.
    pub(crate) fn push(&mut self, v: Var<'_>) -> Result<(), NoMemory>
        requires new { list_any (same_variable (variable_of v)) self.old ≡ false }
        ensures ok { OnOk result (self.new ≡ self.old ++ variable_of v.entry ∷ []) }
        ensures err { OnErr result (self.new ≡ self.old) }
    {
        match v {
            Var::Int(name, n) => self.push_int(name, n),
            Var::Text(name, text) => {
                let text = SharedBytes::of_slice(self.alloc, text)?;
                self.push_text(name, text)
            }
        }
    }

    /// Gives an int of a name a value, in its place, or puts it last where there is none.
    pub(crate) fn set_int(&mut self, name: &[u8], n: i32) -> Result<(), NoMemory>
        ensures ok { OnOk result (self.new ≡ put (IntVar name.now n) self.old) }
        ensures err { OnErr result (self.new ≡ self.old) }
    {
        match self.ints.get(name) {
            None => self.push_int(name, n),
            Some(stamp) => {
                self.held.keeps();
                write(self.alloc, &mut self.held, stamp as u64, Content::Int(n));
                Ok(())
            }
        }
    }

    /// Gives a string of a name a value, in its place, or puts it last where there is none.
    pub(crate) fn set_text(&mut self, name: &[u8], text: SharedBytes) -> Result<(), NoMemory>
        ensures ok { OnOk result (self.new ≡ put (TextVar name.now text) self.old) }
        ensures err { OnErr result (self.new ≡ self.old) }
    {
        match self.texts.get(name) {
            None => self.push_text(name, text),
            Some(stamp) => {
                self.held.keeps();
                write(
                    self.alloc,
                    &mut self.held,
                    stamp as u64,
                    Content::Text(text),
                );
                Ok(())
            }
        }
    }

    /// Gives the variable of a type and name a value, in its place, or puts it last where there is
    /// none.
    pub(crate) fn set(&mut self, v: Var<'_>) -> Result<(), NoMemory>
        ensures ok { OnOk result (self.new ≡ put (variable_of v.entry) self.old) }
        ensures err { OnErr result (self.new ≡ self.old) }
    {
        match v {
            Var::Int(name, n) => self.set_int(name, n),
            Var::Text(name, text) => {
                let text = SharedBytes::of_slice(self.alloc, text)?;
                self.set_text(name, text)
            }
        }
    }

    /// Takes the int of a name out; the others keep their order.
    pub(crate) fn delete_int(&mut self, name: &[u8])
        ensures gone { self.new ≡ filter (λ v. not (is_int name.now v)) self.old }
    {
        if let Some(stamp) = self.ints.get(name) {
            self.held.keeps();
            self.ints.remove(name);
            drop(self.held.take(stamp as u64));
        }
    }

    /// Takes the string of a name out; the others keep their order.
    pub(crate) fn delete_text(&mut self, name: &[u8])
        ensures gone { self.new ≡ filter (λ v. not (is_text name.now v)) self.old }
    {
        if let Some(stamp) = self.texts.get(name) {
            self.held.keeps();
            self.texts.remove(name);
            drop(self.held.take(stamp as u64));
        }
    }

    /// No two variables are of one type and name.
    pub(crate) fn keeps(&self)
        ensures distinct { IsDistinct same_variable self.now }
    {
        let _ = &self.held;
    }
}
