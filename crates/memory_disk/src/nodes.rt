ghost use Rattle.std.specs.Prelude.{◌≡◌, ◌<◌, None, Some, OnOk, OnErr, IfOk, IfSome, All};
ghost use Rattle.std.specs.Option.{option_copied, option_map};
ghost use Rattle.std.specs.FinMap as map;
ghost use Rattle.memory_disk.specs.declared.node.Node.TheVariants as node;
ghost use Rattle.memory_disk.specs.Drive.{files_of, modes_of, links_of};
ghost use Rattle.memory_disk.specs.Tree.{nodes_of};

use crate::node::Node;
use nwq_value::{Items, NoMemory};
use std::alloc::Global;
use std::collections::BTreeMap;
use std::marker::Model;

/// Puts something under the name, in place of what was there.
#[tactic(auto, using(crate::proofs::TreeLemmas::insert_held))]
fn put(
    held: &mut BTreeMap<Vec<u8>, Node>,
    alloc: Global,
    name: &[u8],
    node: Node,
) -> Result<(), NoMemory>
    ensures ok { OnOk result (nodes_of held.new ≡ map.insert (nodes_of held.old) name.now node) }
    ensures err { OnErr result (nodes_of held.new ≡ nodes_of held.old) }
{
    let key = Vec::from_slice(alloc, name)?;
    held.insert(key, node)?;
    Ok(())
}

/// Takes out what is under the name.
#[tactic(auto, using(crate::proofs::TreeLemmas::remove_held))]
fn take_out(held: &mut BTreeMap<Vec<u8>, Node>, name: &[u8])
    ensures { nodes_of held.new ≡ map.remove (nodes_of held.old) name.now }
{
    held.remove(name);
}

/// What is under the name.
#[tactic(auto, using(crate::proofs::TreeLemmas::get_held))]
fn node_of<'a>(held: &'a BTreeMap<Vec<u8>, Node>, name: &[u8]) -> Option<&'a Node>
    ensures { option_copied result ≡ map.get (nodes_of held.now) name.now }
{
    held.get(name)
}

/// That each of these is a byte.
fn are_bytes(bytes: &[u8])
    ensures { All (λ b. b < 256) bytes.now }
{
    let _ = bytes.len();
}

/// What stands under the names of a disk.
#[derive(Drop)]
pub struct NodeTable {
    alloc: Global,
    held: BTreeMap<Vec<u8>, Node>,
}

impl Model for NodeTable {
    ghost use Rattle.memory_disk.specs.Drive.{Nodes, nodes_code, AreBytes};
    ghost use Rattle.memory_disk.specs.Tree.{nodes_of};

    ghost Value = { Nodes };

    ghost coded = { nodes_code };

    ghost view = { λ t. nodes_of t.held };

    ghost invariant = { λ t. AreBytes (nodes_of t.held) };
}

impl NodeTable {
    ghost use Rattle.memory_disk.specs.Drive.{AreBytes};

    #[tactic(auto, using(crate::proofs::ByteLemmas::bytes_are))]
    pub fn new(alloc: Global) -> NodeTable
        ensures empty { result ≡ map.empty }
    {
        NodeTable {
            alloc,
            held: BTreeMap::new(alloc),
        }
    }

    /// What is under the name, and `None` exactly where nothing is.
    pub fn get(&self, name: &[u8]) -> Option<&Node>
        ensures node { option_copied result ≡ map.get self.now name.now }
    {
        node_of(&self.held, name)
    }

    /// What a read of the name gives.
    #[tactic(auto, using(crate::proofs::EachLemmas::looks))]
    pub fn bytes(&self, name: &[u8]) -> Option<&[u8]>
        ensures found { option_map (λ bytes. bytes.now) result
            ≡ map.get (files_of self.now) name.now }
    {
        match self.get(name) {
            Some(Node::File(_, bytes)) => Some(bytes.as_slice()),
            Some(Node::Device(bytes)) => Some(bytes.as_slice()),
            _ => None,
        }
    }

    /// The mode of a regular file.
    #[tactic(auto, using(crate::proofs::EachLemmas::looks))]
    pub fn mode(&self, name: &[u8]) -> Option<u32>
        ensures found { result ≡ map.get (modes_of self.now) name.now }
    {
        match self.get(name) {
            Some(Node::File(mode, _)) => Some(*mode),
            _ => None,
        }
    }

    /// The text of a link.
    #[tactic(auto, using(crate::proofs::EachLemmas::looks))]
    pub fn link(&self, name: &[u8]) -> Option<&[u8]>
        ensures found { option_map (λ text. text.now) result
            ≡ map.get (links_of self.now) name.now }
    {
        match self.get(name) {
            Some(Node::Link(text)) => Some(text.as_slice()),
            _ => None,
        }
    }

    /// A copy of the regular file of the name, if there is one.
    pub fn copy_file(&self, alloc: Global, name: &[u8]) -> Result<Option<(u32, Vec<u8>)>, NoMemory>
        ensures ok { IfOk result (λ found. IfSome found (λ file.
            map.get self.now name.now ≡ Some (node.File file.0 file.1.items))) }
    {
        match self.get(name) {
            Some(Node::File(mode, bytes)) => {
                let copy = Vec::from_slice(alloc, bytes.as_slice())?;
                Ok(Some((*mode, copy)))
            }
            _ => Ok(None),
        }
    }

    /// Puts a regular file under the name, in place of what was there.
    #[tactic(auto, using(crate::proofs::ByteLemmas::bytes_are))]
    pub fn put_file(&mut self, name: &[u8], mode: u32, bytes: &[u8]) -> Result<(), NoMemory>
        ensures ok { OnOk result
            (self.new ≡ map.insert self.old name.now (node.File mode bytes.now)) }
        ensures err { OnErr result (self.new ≡ self.old) }
    {
        are_bytes(bytes);
        let copy = Items::of_slice(self.alloc, bytes)?;
        put(&mut self.held, self.alloc, name, Node::File(mode, copy))
    }

    /// Puts a device under the name, in place of what was there.
    #[tactic(auto, using(crate::proofs::ByteLemmas::bytes_are))]
    pub fn put_device(&mut self, name: &[u8], bytes: &[u8]) -> Result<(), NoMemory>
        ensures ok { OnOk result
            (self.new ≡ map.insert self.old name.now (node.Device bytes.now)) }
        ensures err { OnErr result (self.new ≡ self.old) }
    {
        are_bytes(bytes);
        let copy = Items::of_slice(self.alloc, bytes)?;
        put(&mut self.held, self.alloc, name, Node::Device(copy))
    }

    /// Puts a link under the name, in place of what was there.
    #[tactic(auto, using(crate::proofs::ByteLemmas::bytes_are))]
    pub fn put_link(&mut self, name: &[u8], text: &[u8]) -> Result<(), NoMemory>
        ensures ok { OnOk result
            (self.new ≡ map.insert self.old name.now (node.Link text.now)) }
        ensures err { OnErr result (self.new ≡ self.old) }
    {
        let copy = Items::of_slice(self.alloc, text)?;
        put(&mut self.held, self.alloc, name, Node::Link(copy))
    }

    /// Takes out what is under the name.
    #[tactic(auto, using(crate::proofs::ByteLemmas::bytes_are))]
    pub fn remove(&mut self, name: &[u8])
        ensures gone { self.new ≡ map.remove self.old name.now }
    {
        take_out(&mut self.held, name);
    }

    /// That what is read are bytes.
    pub fn hold_bytes(&self)
        ensures bytes { AreBytes self.now }
    {
        let _alloc = self.alloc;
    }
}
