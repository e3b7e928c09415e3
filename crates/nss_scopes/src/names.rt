//! The names that are declared, innermost last.

ghost use Rattle.std.specs.Prelude.{◌≡◌, ◌++◌, ◌∷◌, ◌<◌, [], IsSome, None, Some, drop, is_some};
ghost use Rattle.std.specs.Prelude.{length, take, vec_capacity, OnErr, OnOk, IfOk, ℕ};
ghost use Rattle.std.specs.Option.{option_map};
ghost use Rattle.typing_rules.specs.Sight.{find};
ghost use Rattle.nwq_value.specs.Index.{number_under, Puts};
ghost use Rattle.nss_scopes.specs.Slots.{entry_of, meaning_of, HasLast};

use crate::places::item_at;
use nwq_value::{Const, NameIndex, NoMemory, Text, Ty};
use std::alloc::Global;
use std::marker::Model;

/// What a declared name means.
#[derive(Drop)]
pub enum Meaning {
    /// A variable: its number, whether it is a parameter or a variable of a function, and its type
    Variable { number: u32, is_local: bool, ty: Ty },
    Constant(Const),
}

/// A declared name, and what it means where its declaration is typed.
#[derive(Drop)]
pub struct Entry {
    pub called: Text,
    pub means: Option<Meaning>,
}

/// A declared name, and the place of the declaration of the same name that it hides.
#[derive(Drop)]
pub struct Slot {
    pub entry: Entry,
    pub hidden: Option<usize>,
}

/// The declared names, oldest first, in which the innermost of a name is found without a search.
/// Contracts see the list of them.
#[derive(Drop)]
pub struct Names {
    slots: Vec<Slot>,
    last: NameIndex,
}

impl Model for Names {
    ghost use Rattle.std.specs.Prelude.{List, map};
    ghost use Rattle.typing_rules.specs.Sight.{Entry as Declared};
    ghost use Rattle.nss_scopes.specs.Slots.{entry_in, HasLast};

    ghost Value = { List Declared };

    ghost view = { λ n. map entry_in n.slots.items };

    ghost invariant = { λ n. HasLast n.slots.items n.last };
}

/// Puts another place under a name that is there, or takes the name out.
fn put_back(last: &mut NameIndex, name: &[u8], place: Option<usize>)
    requires there { IsSome (number_under name.now last.old) }
    ensures { Puts name.now place last.old last.new }
{
    match place {
        Some(place) => last.replace(name, place),
        None => last.remove(name),
    }
}

/// Takes the last name away.
fn pop(slots: &mut Vec<Slot>, last: &mut NameIndex)
    requires index { HasLast slots.old.items last.old }
    requires some { 0 < length slots.old.items }
    ensures rest { (n : ℕ) → n < length slots.old.items
        → take n slots.new.items ≡ take n slots.old.items }
    ensures one { length slots.new.items < length slots.old.items }
    ensures index { HasLast slots.new.items last.new }
{
    if let Some(slot) = slots.pop() {
        put_back(last, slot.entry.called.bytes(), slot.hidden);
    }
}

/// Leaves the first `len` names alone.
fn cut(slots: &mut Vec<Slot>, last: &mut NameIndex, len: usize)
    requires index { HasLast slots.old.items last.old }
    ensures items { slots.new.items ≡ take len slots.old.items }
    ensures index { HasLast slots.new.items last.new }
{
    while slots.len() > len {
        pop(slots, last);
    }
}

/// Makes room for a name, and puts it into the index; answers the place that it hides.
fn note(slots: &mut Vec<Slot>, last: &mut NameIndex, name: &[u8]) -> Result<Option<usize>, NoMemory>
    ensures same { slots.new.items ≡ slots.old.items }
    ensures room { OnOk result (length slots.new.items < vec_capacity slots.new) }
    ensures hidden { IfOk result (λ place. place ≡ number_under name.now last.old) }
    ensures put { OnOk result (Puts name.now (Some (length slots.old.items)) last.old last.new) }
    ensures err { OnErr result (last.new ≡ last.old) }
{
    let hidden = last.get(name);
    slots.reserve(1)?;
    last.set(name, slots.len())?;
    Ok(hidden)
}

impl Names {
    /// No names.
    pub fn new(alloc: Global) -> Names
        ensures empty { result ≡ [] }
    {
        Names {
            slots: Vec::new(alloc),
            last: NameIndex::new(alloc),
        }
    }

    pub fn len(&self) -> usize
        ensures len { result ≡ length self.now }
    {
        self.slots.len()
    }

    /// The innermost declaration of a name.
    pub fn find(&self, name: &[u8]) -> Option<&Entry>
        ensures found { option_map (λ e. entry_of e.now) result ≡ find name.now self.now }
    {
        match self.last.get(name) {
            Some(at) => match item_at(&self.slots, at) {
                Some(slot) => Some(&slot.entry),
                None => None,
            },
            None => None,
        }
    }

    /// Whether the name is declared, the first `scope` names left out.
    pub fn has_since(&self, scope: usize, name: &[u8]) -> bool
        ensures has { result ≡ is_some (find name.now (drop scope self.now)) }
    {
        match self.last.get(name) {
            Some(at) => scope <= at,
            None => false,
        }
    }

    /// Puts a name last. After `NoMemory` the names are as before.
    pub fn declare(&mut self, called: Text, means: Option<Meaning>) -> Result<(), NoMemory>
        ensures ok { OnOk result (self.new
            ≡ self.old ++ record { called = called; means = option_map meaning_of means } ∷ []) }
        ensures err { OnErr result (self.new ≡ self.old) }
    {
        match note(&mut self.slots, &mut self.last, called.bytes()) {
            Ok(hidden) => {
                let entry = Entry { called, means };
                self.slots.push(Slot { entry, hidden })?;
                Ok(())
            }
            Err(error) => {
                drop(means);
                Err(error)
            }
        }
    }

    /// Leaves the first `len` names alone.
    pub fn truncate(&mut self, len: usize)
        ensures kept { self.new ≡ take len self.old }
    {
        cut(&mut self.slots, &mut self.last, len);
    }
}
