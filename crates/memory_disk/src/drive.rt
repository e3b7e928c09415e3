//! The disk in memory, and what tests put on it and find there.

ghost use Rattle.std.specs.Prelude.{◌≡◌, ◌^◌, ◌-◌, [], ◌∷◌, ◌++◌, OnOk, OnErr};
ghost use Rattle.std.specs.Option.{option_map};
ghost use Rattle.std.specs.FinMap as map;
ghost use Rattle.nwq_outside.specs.Outside.{next};
ghost use Rattle.real_files.specs.Disk.{folder_of};
ghost use Rattle.memory_disk.specs.declared.node.Node.TheVariants as node;
ghost use Rattle.memory_disk.specs.Drive.{files_of, modes_of, links_of, is_among, is_fixed};

use crate::nodes::NodeTable;
use nwq_value::{Items, NoMemory};
use real_files::paths::folder_of;
use std::alloc::Global;
use std::marker::Model;

/// How a call goes.
#[derive(Clone, Copy)]
pub(crate) enum Going {
    Runs,
    /// It fails, and changes nothing.
    Fails,
    /// It fails after the first half of its bytes.
    Breaks,
}

/// A disk in memory. Each call of [`Disk`](real_files::Disk) is counted, from 0.
#[derive(Drop)]
pub struct MemoryDisk {
    alloc: Global,
    nodes: NodeTable,
    marked: Items<Items<u8>>,
    closed: Items<Items<u8>>,
    room: usize,
    written: Items<Items<u8>>,
    listed: Items<Items<u8>>,
    failing: Items<u64>,
    breaking: Items<u64>,
    calls: u64,
}

impl Model for MemoryDisk {
    ghost use Rattle.memory_disk.specs.Drive.{Drive, drive_code};

    ghost Value = { Drive };

    ghost coded = { drive_code };

    ghost view = { λ d. record {
      nodes = d.nodes;
      marked = d.marked;
      closed = d.closed;
      room = d.room;
      written = d.written;
      listed = d.listed;
      failing = d.failing;
      breaking = d.breaking;
      calls = d.calls;
    } };
}

/// Whether a name is among these.
fn is_among(list: &Items<Items<u8>>, name: &[u8]) -> bool
    ensures { result ≡ is_among list.now name.now }
{
    list.as_slice().iter().any(|other| other.as_slice() == name)
}

impl MemoryDisk {
    /// A disk without names, with room for all that memory holds. No call is to fail.
    pub fn new(alloc: Global) -> MemoryDisk
        ensures empty { result ≡ record {
          nodes = map.empty;
          marked = [];
          closed = [];
          room = 2 ^ 64 - 1;
          written = [];
          listed = [];
          failing = [];
          breaking = [];
          calls = 0;
        } }
    {
        MemoryDisk {
            alloc,
            nodes: NodeTable::new(alloc),
            marked: Items::new(alloc),
            closed: Items::new(alloc),
            room: usize::MAX,
            written: Items::new(alloc),
            listed: Items::new(alloc),
            failing: Items::new(alloc),
            breaking: Items::new(alloc),
            calls: 0,
        }
    }

    /// Puts a regular file under the name, in place of what was there.
    pub fn add_file(&mut self, name: &str, mode: u32, bytes: &[u8]) -> Result<(), NoMemory>
        ensures ok { OnOk result (self.new ≡ record self.old {
          nodes = map.insert self.old.nodes name.now (node.File mode bytes.now);
        }) }
        ensures err { OnErr result (self.new ≡ self.old) }
    {
        self.nodes.put_file(name.as_bytes(), mode, bytes)
    }

    /// Puts a link under the name, in place of what was there.
    pub fn add_link(&mut self, name: &str, text: &[u8]) -> Result<(), NoMemory>
        ensures ok { OnOk result (self.new ≡ record self.old {
          nodes = map.insert self.old.nodes name.now (node.Link text.now);
        }) }
        ensures err { OnErr result (self.new ≡ self.old) }
    {
        self.nodes.put_link(name.as_bytes(), text)
    }

    /// Marks the name, so that what it has can't be replaced, as a mount point.
    pub fn mark(&mut self, name: &str) -> Result<(), NoMemory>
        ensures ok { OnOk result
            (self.new ≡ record self.old { marked = self.old.marked ++ name.now ∷ [] }) }
        ensures err { OnErr result (self.new ≡ self.old) }
    {
        let copy = Items::of_slice(self.alloc, name.as_bytes())?;
        self.marked.push(copy)
    }

    /// Marks the name, and puts a device under it. After `NoMemory` it may be marked.
    pub fn add_device(&mut self, name: &str, bytes: &[u8]) -> Result<(), NoMemory>
        ensures ok { OnOk result (self.new ≡ record self.old {
          nodes = map.insert self.old.nodes name.now (node.Device bytes.now);
          marked = self.old.marked ++ name.now ∷ [];
        }) }
        ensures err { OnErr result (self.new.nodes ≡ self.old.nodes) }
    {
        self.mark(name)?;
        self.nodes.put_device(name.as_bytes(), bytes)
    }

    /// Closes a folder, whose name ends in its slash: no file can be made there, and what is there
    /// can't be replaced.
    pub fn close(&mut self, folder: &str) -> Result<(), NoMemory>
        ensures ok { OnOk result
            (self.new ≡ record self.old { closed = self.old.closed ++ folder.now ∷ [] }) }
        ensures err { OnErr result (self.new ≡ self.old) }
    {
        let copy = Items::of_slice(self.alloc, folder.as_bytes())?;
        self.closed.push(copy)
    }

    /// Leaves room for so many bytes more.
    pub fn set_room(&mut self, room: usize)
        ensures room { self.new ≡ record self.old { room = room } }
    {
        self.room = room;
    }

    /// Lets that call fail.
    pub fn fail_at(&mut self, call: u64) -> Result<(), NoMemory>
        ensures ok { OnOk result
            (self.new ≡ record self.old { failing = self.old.failing ++ call ∷ [] }) }
        ensures err { OnErr result (self.new ≡ self.old) }
    {
        self.failing.push(call)
    }

    /// Lets that call break off, if it has bytes to write, and else fail.
    pub fn break_at(&mut self, call: u64) -> Result<(), NoMemory>
        ensures ok { OnOk result
            (self.new ≡ record self.old { breaking = self.old.breaking ++ call ∷ [] }) }
        ensures err { OnErr result (self.new ≡ self.old) }
    {
        self.breaking.push(call)
    }

    /// How many calls there were.
    pub fn calls(&self) -> u64
        ensures count { result ≡ self.now.calls }
    {
        self.calls
    }

    /// What a read of the name gives, where it is no link.
    pub fn bytes(&self, name: &str) -> Option<&[u8]>
        ensures found { option_map (λ bytes. bytes.now) result
            ≡ map.get (files_of self.now.nodes) name.now }
    {
        self.nodes.bytes(name.as_bytes())
    }

    /// The mode of a regular file.
    pub fn mode(&self, name: &str) -> Option<u32>
        ensures found { result ≡ map.get (modes_of self.now.nodes) name.now }
    {
        self.nodes.mode(name.as_bytes())
    }

    /// The text of a link.
    pub fn link(&self, name: &str) -> Option<&[u8]>
        ensures found { option_map (λ text. text.now) result
            ≡ map.get (links_of self.now.nodes) name.now }
    {
        self.nodes.link(name.as_bytes())
    }

    pub(crate) fn alloc(&self) -> Global {
        self.alloc
    }

    pub(crate) fn nodes(&self) -> &NodeTable
        ensures { result.now ≡ self.now.nodes }
    {
        &self.nodes
    }

    /// Whether no file can be made in the folder of this name.
    pub(crate) fn is_closed(&self, name: &[u8]) -> bool
        ensures { result ≡ is_among self.now.closed (folder_of name.now) }
    {
        is_among(&self.closed, folder_of(name))
    }

    /// Whether what has this name can't be replaced.
    pub(crate) fn is_fixed(&self, name: &[u8]) -> bool
        ensures { result ≡ is_fixed self.now.marked self.now.closed name.now }
    {
        is_among(&self.marked, name) || self.is_closed(name)
    }

    /// How many bytes a file of this name takes of the room.
    pub(crate) fn size(&self, name: &[u8]) -> usize {
        match self.nodes.mode(name) {
            None => 0,
            Some(_) => match self.nodes.bytes(name) {
                None => 0,
                Some(bytes) => bytes.len(),
            },
        }
    }

    pub(crate) fn room(&self) -> usize
        ensures { result ≡ self.now.room }
    {
        self.room
    }

    /// Counts a call, and says how it goes.
    pub(crate) fn begin(&mut self) -> Going
        ensures counted { self.new ≡ record self.old { calls = next self.old.calls } }
    {
        let call = self.calls;
        self.calls = self.calls.saturating_add(1);
        if self.breaking.as_slice().contains(&call) {
            return Going::Breaks;
        }
        if self.failing.as_slice().contains(&call) {
            return Going::Fails;
        }
        Going::Runs
    }

    /// Puts a regular file under the name, and leaves so much room.
    pub(crate) fn put_file(
        &mut self,
        name: &[u8],
        mode: u32,
        bytes: &[u8],
        room: usize,
    ) -> Result<(), NoMemory>
        ensures ok { OnOk result (self.new ≡ record self.old {
          nodes = map.insert self.old.nodes name.now (node.File mode bytes.now);
          room = room;
        }) }
        ensures err { OnErr result (self.new ≡ self.old) }
    {
        self.nodes.put_file(name, mode, bytes)?;
        self.room = room;
        Ok(())
    }

    /// Puts a device under the name.
    pub(crate) fn put_device(&mut self, name: &[u8], bytes: &[u8]) -> Result<(), NoMemory>
        ensures ok { OnOk result (self.new ≡ record self.old {
          nodes = map.insert self.old.nodes name.now (node.Device bytes.now);
        }) }
        ensures err { OnErr result (self.new ≡ self.old) }
    {
        self.nodes.put_device(name, bytes)
    }

    /// Takes out what is under the name, and leaves so much room. Each folder is to be told anew
    /// that it is to last.
    pub(crate) fn take_out(&mut self, name: &[u8], room: usize)
        ensures gone { self.new ≡ record self.old {
          nodes = map.remove self.old.nodes name.now;
          room = room;
          listed = [];
        } }
    {
        self.nodes.remove(name);
        self.room = room;
        self.listed.clear();
    }

    /// Has these bytes for good.
    pub(crate) fn keep_bytes(&mut self, bytes: &[u8]) -> Result<(), NoMemory>
        ensures ok { OnOk result
            (self.new ≡ record self.old { written = self.old.written ++ bytes.now ∷ [] }) }
        ensures err { OnErr result (self.new ≡ self.old) }
    {
        let copy = Items::of_slice(self.alloc, bytes)?;
        self.written.push(copy)
    }

    /// Has the folder of this name as it is.
    pub(crate) fn keep_folder(&mut self, name: &[u8]) -> Result<(), NoMemory>
        ensures ok { OnOk result (self.new
            ≡ record self.old { listed = self.old.listed ++ folder_of name.now ∷ [] }) }
        ensures err { OnErr result (self.new ≡ self.old) }
    {
        let copy = Items::of_slice(self.alloc, folder_of(name))?;
        self.listed.push(copy)
    }
}
