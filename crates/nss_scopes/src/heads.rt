//! The declarations of functions.

ghost use Rattle.std.specs.Prelude.{◌≡◌, ◌<◌, ◌++◌, ◌∷◌, [], None, Some, if◌then◌else◌, length};
ghost use Rattle.std.specs.Prelude.{IfOk, OnErr, OnOk};
ghost use Rattle.std.specs.Option.{option_map};
ghost use Rattle.typing_rules.specs.Sight.{body_number, find_head, has_body, has_head};
ghost use Rattle.nss_scopes.specs.Entries.{head_limit, head_of, signature_of, AreHeads};

use crate::budget::{HEADS, one_more};
use crate::places::{Places, item_at};
use nwq_value::{NoMemory, Params, Text, Ty};
use std::alloc::Global;
use std::marker::Model;

/// The types of a function's parameters with their defaults, and of its result.
#[derive(Drop)]
pub struct Signature {
    pub params: Params,
    pub result: Ty,
}

/// A declaration of a function, with its types where it is typed.
#[derive(Drop)]
pub struct Head {
    pub called: Text,
    pub types: Option<Signature>,
    pub has_body: bool,
}

/// The declarations of functions in order. Contracts see the list of them.
#[derive(Drop)]
pub struct Heads {
    all: Vec<Head>,
    places: Places,
    bodies: Places,
}

impl Model for Heads {
    ghost use Rattle.std.specs.Prelude.{List, map};
    ghost use Rattle.typing_rules.specs.Sight.{Head as Declared};
    ghost use Rattle.nss_scopes.specs.Entries.{head_of, AreHeads};

    ghost Value = { List Declared };

    ghost view = { λ h. map head_of h.all.items };

    ghost invariant = { λ h. AreHeads h.all.items h.places h.bodies };
}

/// Puts a name last where there is a body.
fn push_body(bodies: &mut Places, name: Text, has_body: bool) -> Result<(), NoMemory>
    ensures ok { OnOk result
        (bodies.new ≡ (if has_body then bodies.old ++ name ∷ [] else bodies.old)) }
    ensures err { OnErr result (bodies.new ≡ bodies.old) }
{
    if has_body { bodies.push(name) } else { Ok(()) }
}

/// Puts the names of a declaration last.
fn push_names(
    places: &mut Places,
    bodies: &mut Places,
    name: Text,
    other: Text,
    has_body: bool,
) -> Result<(), NoMemory>
    ensures places { OnOk result (places.new ≡ places.old ++ name ∷ []) }
    ensures bodies { OnOk result
        (bodies.new ≡ (if has_body then bodies.old ++ other ∷ [] else bodies.old)) }
{
    places.push(name)?;
    push_body(bodies, other, has_body)
}

/// Puts a declaration last.
fn push(
    all: &mut Vec<Head>,
    places: &mut Places,
    bodies: &mut Places,
    head: Head,
    name: Text,
    other: Text,
) -> Result<(), NoMemory>
    requires kept { AreHeads all.old.items places.old bodies.old }
    requires name { name ≡ head.called }
    requires other { other ≡ head.called }
    requires few { length all.old.items < head_limit }
    ensures ok { OnOk result (all.new.items ≡ all.old.items ++ head ∷ []) }
    ensures kept { AreHeads all.new.items places.new bodies.new }
{
    let has_body = head.has_body;
    all.push(head)?;
    if push_names(places, bodies, name, other, has_body).is_ok() {
        return Ok(());
    }
    all.clear();
    places.clear();
    bodies.clear();
    Err(NoMemory)
}

/// Two copies of the name of a declaration that is to stand behind so many.
fn copies(alloc: Global, count: usize, name: &Text) -> Result<(Text, Text), NoMemory>
    ensures few { OnOk result (count < head_limit) }
    ensures first { IfOk result (λ p. p.0 ≡ name.now) }
    ensures second { IfOk result (λ p. p.1 ≡ name.now) }
{
    one_more(count, HEADS)?;
    Ok((name.copy(alloc)?, name.copy(alloc)?))
}

impl Heads {
    /// No declarations.
    pub fn new(alloc: Global) -> Heads
        ensures empty { result ≡ [] }
    {
        Heads {
            all: Vec::new(alloc),
            places: Places::new(alloc),
            bodies: Places::new(alloc),
        }
    }

    /// Whether a function of this name is declared.
    pub fn has(&self, name: &[u8]) -> bool
        ensures has { result ≡ has_head name.now self.now }
    {
        self.places.first(name).is_some()
    }

    /// The first declaration of a function.
    pub fn find(&self, name: &[u8]) -> Option<&Head>
        ensures found { option_map (λ h. head_of h.now) result ≡ find_head name.now self.now }
    {
        match self.places.first(name) {
            Some(at) => item_at(&self.all, at),
            None => None,
        }
    }

    /// Whether a function of this name has a body.
    pub fn has_body(&self, name: &[u8]) -> bool
        ensures has { result ≡ has_body name.now self.now }
    {
        self.bodies.first(name).is_some()
    }

    /// The number of a function's body among the bodies, where it has one.
    pub fn body(&self, name: &[u8]) -> Option<u32>
        ensures number { result ≡ (if has_body name.now self.now
            then Some (body_number name.now self.now) else None) }
    {
        match self.bodies.first(name) {
            Some(number) => Some(number as u32),
            None => None,
        }
    }

    /// Puts a declaration last. `NoMemory` comes where memory is refused, and past the budget of
    /// 4,294,967,295 declarations; after it nothing is told of them.
    pub fn push(&mut self, alloc: Global, head: Head) -> Result<(), NoMemory>
        ensures ok { OnOk result (self.new ≡ self.old ++ head_of head ∷ []) }
        ensures few { OnOk result (length self.old < head_limit) }
    {
        match copies(alloc, self.all.len(), &head.called) {
            Ok((name, other)) => push(
                &mut self.all,
                &mut self.places,
                &mut self.bodies,
                head,
                name,
                other,
            ),
            Err(error) => {
                drop(head);
                Err(error)
            }
        }
    }
}
