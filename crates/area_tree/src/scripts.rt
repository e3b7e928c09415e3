//! The names of the resources of an object by their labels.

ghost use Rattle.std.specs.Prelude.{◌≡◌, ◌++◌, [], map, IfOk, OnOk};
ghost use Rattle.gff_tree.specs.Tree.{plain_field};
ghost use Rattle.area_rules.specs.Area.{script_named};
ghost use Rattle.area_rules.specs.Objects.{with_script, scripts_in};
ghost use Rattle.area_tree.specs.Scripts.{NotesFirst, HasFirst};

use gff_tree::{Field, Leaf};
use nwq_value::{Items, NameIndex, NoMemory};
use std::alloc::Global;
use std::marker::Model;

/// The name of a resource under its label.
#[derive(Drop)]
pub struct ScriptField {
    label: Items<u8>,
    name: Items<u8>,
}

impl Model for ScriptField {
    ghost use Rattle.area_rules.specs.Objects.{Script};

    ghost Value = { Script };

    ghost view = { λ s. record { label = s.label; name = s.name } };
}

impl ScriptField {
    fn label(&self) -> &[u8]
        ensures { result.now ≡ self.now.label }
    {
        self.label.as_slice()
    }

    fn name(&self) -> &[u8]
        ensures { result.now ≡ self.now.name }
    {
        self.name.as_slice()
    }
}

/// The names of resources in the order of their fields, and where each is found. Contracts see the
/// list of them.
#[derive(Drop)]
pub(crate) struct Noted {
    all: Items<ScriptField>,
    /// The place of the first of each label.
    first: NameIndex,
}

impl Model for Noted {
    ghost use Rattle.std.specs.Prelude.{List};
    ghost use Rattle.area_rules.specs.Objects.{Script};
    ghost use Rattle.area_tree.specs.Scripts.{HasFirst};

    ghost Value = { List Script };

    ghost view = { λ s. s.all };

    ghost invariant = { λ s. HasFirst s.all s.first };
}

impl Noted {
    /// The name of the first resource under a label, or the empty one.
    fn name(&self, label: &[u8]) -> &[u8]
        ensures name { result.now ≡ script_named label.now self.now }
    {
        match self.first.get(label) {
            Some(place) => match self.all.get(place) {
                Some(script) => script.name(),
                None => &[],
            },
            None => &[],
        }
    }
}

/// The names of the resources of an object. Contracts see the list of them. An object without such
/// fields keeps nothing of them.
#[derive(Drop)]
pub struct Scripts {
    noted: Option<Box<Noted>>,
}

impl Model for Scripts {
    ghost use Rattle.std.specs.Prelude.{List};
    ghost use Rattle.area_rules.specs.Objects.{Script};
    ghost use Rattle.area_tree.specs.Scripts.{boxed};

    ghost Value = { List Script };

    ghost view = { λ s. boxed s.noted };
}

impl Scripts {
    /// The name of the first resource under a label, or the empty one.
    pub fn name(&self, label: &[u8]) -> &[u8]
        ensures name { result.now ≡ script_named label.now self.now }
    {
        match &self.noted {
            None => &[],
            Some(noted) => noted.name(label),
        }
    }
}

/// Puts a field last, if it holds the name of a resource.
fn add_script(alloc: Global, field: &Field, scripts: &mut Vec<ScriptField>) -> Result<(), NoMemory>
    ensures { OnOk result (scripts.new.items ≡ scripts.old.items
        ++ with_script field.now.label (plain_field field.now).leaf []) }
{
    if let Leaf::Res(text) = &field.leaf {
        let label = Items::of_slice(alloc, field.label.bytes())?;
        let name = Items::of_slice(alloc, text.as_slice())?;
        scripts.push(ScriptField { label, name })?;
    }
    Ok(())
}

fn add_scripts(
    alloc: Global,
    fields: &[Field],
    scripts: &mut Vec<ScriptField>,
) -> Result<(), NoMemory>
    requires none { scripts.old.items ≡ [] }
    ensures { OnOk result (scripts.new.items ≡ scripts_in (map plain_field fields.now)) }
{
    for field in fields {
        add_script(alloc, field, scripts)?;
    }
    Ok(())
}

/// Puts a place under a label that has none.
fn note(first: &mut NameIndex, label: &[u8], place: usize) -> Result<(), NoMemory>
    ensures notes { OnOk result (NotesFirst label.now place first.old first.new) }
{
    if first.get(label).is_some() {
        return Ok(());
    }
    first.set(label, place)
}

/// Notes the place of the first of each label in an empty index.
fn note_all(all: &[ScriptField], first: &mut NameIndex) -> Result<(), NoMemory>
    requires none { first.old ≡ [] }
    ensures first { OnOk result (HasFirst all.now first.new) }
{
    for place in 0..all.len() {
        note(first, all[place].label(), place)?;
    }
    Ok(())
}

/// These names, and where the first of each label is.
fn with_places(alloc: Global, all: Vec<ScriptField>) -> Result<Noted, NoMemory>
    ensures all { IfOk result (λ noted. noted ≡ all.items) }
{
    let mut first = NameIndex::new(alloc);
    note_all(&all, &mut first)?;
    Ok(Noted {
        all: Items::of_vec(all),
        first,
    })
}

/// The names of the resources that these fields hold.
#[tactic(auto, using(crate::proofs::ScriptLemmas::none_there))]
pub fn read_scripts(alloc: Global, fields: &[Field]) -> Result<Scripts, NoMemory>
    ensures { IfOk result (λ scripts. scripts ≡ scripts_in (map plain_field fields.now)) }
{
    let mut all = Vec::new(alloc);
    add_scripts(alloc, fields, &mut all)?;
    if all.len() == 0 {
        drop(all);
        return Ok(Scripts { noted: None });
    }
    let scripts = with_places(alloc, all)?;
    Ok(Scripts {
        noted: Some(Box::new(alloc, scripts)?),
    })
}
