//! A variable as it is kept, and how one is found, put last and changed. Its name leads to its
//! stamp, and the stamp, by a binary search, to the variable, so that no names or numbers make a
//! search longer.

ghost use Rattle.std.specs.Prelude.{◌≡◌, [], ◌∷◌, ◌++◌, Some, OnOk, OnErr, IfOk, MatchOption};
ghost use Rattle.std.specs.Option.{option_copied};
ghost use Rattle.stamped_slots.specs.Stamps.{AreUnder};
ghost use Rattle.nwq_value.specs.Index.{number_under, Puts};
ghost use Rattle.local_variables.specs.Variables.{IntVar, TextVar, variable_of, int_of, text_of};
ghost use Rattle.local_variables.specs.Kept.{variable_in, held_at, rewritten};

use crate::vars::Var;
use nwq_value::{Items, NameIndex, NoMemory};
use shared_bytes::SharedBytes;
use stamped_slots::Stamped;
use std::alloc::Global;

/// What a variable holds.
pub enum Content {
    Int(i32),
    Text(SharedBytes),
}

/// A variable.
pub struct Held {
    pub name: Items<u8>,
    pub content: Content,
}

impl Drop for Content {
    fn drop(self) {
        match self {
            Content::Int(_) => {}
            Content::Text(text) => drop(text),
        }
    }
}

impl Drop for Held {
    fn drop(self) {
        let Held { name, content } = self;
        drop(name);
        drop(content);
    }
}

impl Held {
    /// What stands in the place of a variable while its content changes; takes no memory.
    fn nameless(alloc: Global) -> Held {
        Held {
            name: Items::new(alloc),
            content: Content::Int(0),
        }
    }

    /// An int under a name.
    pub fn of_int(alloc: Global, name: &[u8], n: i32) -> Result<Held, NoMemory>
        ensures variable { IfOk result (λ h. variable_in h ≡ IntVar name.now n) }
    {
        Ok(Held {
            name: Items::of_slice(alloc, name)?,
            content: Content::Int(n),
        })
    }

    /// A string under a name.
    pub fn of_text(alloc: Global, name: &[u8], text: SharedBytes) -> Result<Held, NoMemory>
        ensures variable { IfOk result (λ h. variable_in h ≡ TextVar name.now text) }
    {
        match Items::of_slice(alloc, name) {
            Ok(name) => Ok(Held {
                name,
                content: Content::Text(text),
            }),
            Err(NoMemory) => {
                drop(text);
                Err(NoMemory)
            }
        }
    }

    pub fn variable(&self) -> Var<'_>
        ensures { variable_of result ≡ variable_in self.now }
    {
        match &self.content {
            Content::Int(n) => Var::Int(self.name.as_slice(), *n),
            Content::Text(text) => Var::Text(self.name.as_slice(), text.as_slice()),
        }
    }

    /// Its int, or 0 where it is a string.
    pub fn int(&self) -> i32
        ensures { result ≡ int_of (Some (variable_in self.now)) }
    {
        match &self.content {
            Content::Int(n) => *n,
            Content::Text(_) => 0,
        }
    }

    /// Its string, unless it is an int.
    pub fn string(&self) -> Option<&SharedBytes>
        ensures { MatchOption result (text_of (Some (variable_in self.now)) ≡ [])
            (λ text. text.now ≡ text_of (Some (variable_in self.now))) }
    {
        match &self.content {
            Content::Int(_) => None,
            Content::Text(text) => Some(text),
        }
    }
}

/// The variable whose stamp stands under a name.
pub fn find<'a>(held: &'a Stamped<Held>, stamps: &NameIndex, name: &[u8]) -> Option<&'a Held>
    ensures { option_copied result ≡ held_at (number_under name.now stamps.now) held.now.items }
{
    let stamp = stamps.get(name)?;
    held.get(stamp as u64)
}

/// Gives the variable of a stamp another content, which takes no memory.
pub fn write(alloc: Global, held: &mut Stamped<Held>, stamp: u64, content: Content)
    ensures { held.new.items ≡ rewritten content stamp held.old.items }
{
    match held.replace(stamp, Held::nameless(alloc)) {
        None => drop(content),
        Some(mut variable) => {
            variable.content = content;
            drop(held.replace(stamp, variable));
        }
    }
}

/// Puts a variable last under a stamp, and the stamp under its name.
#[tactic(auto, using(crate::proofs::KeptLemmas::new_stamp))]
pub fn add(
    held: &mut Stamped<Held>,
    stamps: &mut NameIndex,
    name: &[u8],
    stamp: usize,
    variable: Held,
) -> Result<(), NoMemory>
    requires above { AreUnder stamp held.old.items }
    ensures all { OnOk result (held.new.items ≡ held.old.items ++ (stamp, variable) ∷ []) }
    ensures stamps { OnOk result (Puts name.now (Some stamp) stamps.old stamps.new) }
    ensures same_all { OnErr result (held.new.items ≡ held.old.items) }
    ensures same_stamps { OnErr result (stamps.new ≡ stamps.old) }
{
    held.insert(stamp as u64, variable)?;
    if stamps.set(name, stamp).is_ok() {
        return Ok(());
    }
    drop(held.take(stamp as u64));
    Err(NoMemory)
}
