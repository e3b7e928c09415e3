//! The area: one list of creatures.

ghost use Rattle.std.specs.Prelude.{◌≡◌, ◌∷◌, ◌++◌, [], map, codes, Some, IfOk, OnOk};
ghost use Rattle.gff_tree.specs.Tree.{Holds, Str, Res, plain_node, plain_leaf};
ghost use Rattle.gff_tree.specs.Label.{label_of};
ghost use Rattle.gff_tree.specs.Fields.{node_from};
ghost use Rattle.gff_tree.specs.Whole.{plain_gff};
ghost use Rattle.play_generator.specs.Made.{below, tag_of, creature_node, area_tree};

use gff_tree::{Gff, Label, Leaf, Node, fields_tell};
use nwq_text::put_count;
use nwq_value::{Items, NoMemory};
use shared_bytes::SharedBytes;
use std::alloc::Global;

/// The format's number of a creature's struct.
const CREATURE: u32 = 4;

/// The label of a text that is one.
fn label(text: &[u8]) -> Label
    requires { label_of text.now ≡ Some text.now }
    ensures { result ≡ text.now }
{
    match Label::of(text) {
        Some(label) => label,
        None => unreachable!(),
    }
}

fn tag_leaf(alloc: Global, number: u32) -> Result<Leaf, NoMemory>
    ensures { IfOk result (λ leaf. plain_leaf leaf ≡ Holds (Str (tag_of number))) }
{
    let mut tag = Vec::new(alloc);
    tag.push(b'c')?;
    put_count(&mut tag, u64::from(number))?;
    Ok(Leaf::Str(SharedBytes::of_items(Items::of_vec(tag))))
}

fn script_leaf(alloc: Global) -> Result<Leaf, NoMemory>
    ensures { IfOk result (λ leaf. plain_leaf leaf ≡ Holds (Res (codes "beat"))) }
{
    Ok(Leaf::Res(Items::of_slice(alloc, b"beat".as_slice())?))
}

/// Puts the two fields of a creature last.
fn fill_creature(alloc: Global, number: u32, creature: &mut Node) -> Result<(), NoMemory>
    requires { plain_node creature.old ≡ node_from 4 [] }
    ensures { OnOk result (plain_node creature.new ≡ creature_node number) }
{
    let tag = tag_leaf(alloc, number)?;
    creature.append(label(b"Tag".as_slice()), tag)?;
    let script = script_leaf(alloc)?;
    creature.append(label(b"ScriptHeartbeat".as_slice()), script)
}

fn creature_of(alloc: Global, number: u32) -> Result<Node, NoMemory>
    ensures { IfOk result (λ creature. plain_node creature ≡ creature_node number) }
{
    let mut creature = Node::new(CREATURE, Vec::new(alloc));
    match fill_creature(alloc, number, &mut creature) {
        Ok(()) => Ok(creature),
        Err(e) => {
            drop(creature);
            Err(e)
        }
    }
}

fn push_creature(alloc: Global, number: u32, creatures: &mut Vec<Node>) -> Result<(), NoMemory>
    ensures { OnOk result (map plain_node creatures.new.items ≡ map plain_node creatures.old.items
        ++ creature_node number ∷ []) }
{
    let creature = creature_of(alloc, number)?;
    creatures.push(creature)?;
    Ok(())
}

/// Puts so many creatures last.
#[tactic(auto, using(crate::proofs::AreaLemmas::one_more))]
fn fill_creatures(alloc: Global, count: u32, creatures: &mut Vec<Node>) -> Result<(), NoMemory>
    ensures { OnOk result (map plain_node creatures.new.items ≡ map plain_node creatures.old.items
        ++ map creature_node (below count)) }
{
    for number in 0..count {
        push_creature(alloc, number, creatures)?;
    }
    Ok(())
}

fn all_creatures(alloc: Global, count: u32) -> Result<Vec<Node>, NoMemory>
    ensures { IfOk result (λ creatures. map plain_node creatures.items
        ≡ map creature_node (below count)) }
{
    let mut creatures = Vec::new(alloc);
    match fill_creatures(alloc, count, &mut creatures) {
        Ok(()) => Ok(creatures),
        Err(e) => {
            drop(creatures);
            Err(e)
        }
    }
}

/// The struct that has the list of so many creatures.
#[tactic(auto, unfolding(crate::specs::Made::area_tree))]
fn top_of(alloc: Global, creatures: u32) -> Result<Node, NoMemory>
    ensures { IfOk result (λ top. plain_node top ≡ (area_tree creatures).top) }
{
    let list = Leaf::of_list(all_creatures(alloc, creatures)?);
    let mut top = Node::new(u32::MAX, Vec::new(alloc));
    match top.append(label(b"Creature List".as_slice()), list) {
        Ok(()) => Ok(top),
        Err(e) => {
            drop(top);
            Err(e)
        }
    }
}

/// The tree of the area with so many creatures.
#[tactic(auto, unfolding(crate::specs::Made::area_tree))]
pub fn area(alloc: Global, creatures: u32) -> Result<Gff, NoMemory>
    ensures tree { IfOk result (λ gff. plain_gff gff ≡ area_tree creatures) }
{
    fields_tell();
    let top = top_of(alloc, creatures)?;
    Ok(Gff {
        file_type: *b"GIT ",
        top,
    })
}
