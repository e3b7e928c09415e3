ghost use Rattle.std.specs.Prelude.{◌≡◌, ◌<◌, ◌≤◌, ◌↔◌, [], ◌∷◌, ◌++◌, true, IsTrue, OnOk};
ghost use Rattle.std.specs.Prelude.{OnErr, All, Contains};
ghost use Rattle.std.specs.Option.{option_map, option_copied};
ghost use Rattle.std.specs.FinMap as map;
ghost use Rattle.nwq_outside.specs.Outside.{ReadsContent, IsFileSize, KeepsOthers, plain};
ghost use Rattle.nwq_outside.specs.Outside.{no_counts};
ghost use Rattle.nwq_outside.specs.Memory.{contents_of};

use crate::answer::{Done, Read};
use crate::counts::{CountOf, FileCounts};
use crate::traits::{Files, Sink};
use nwq_value::{FILE_BYTES, Items, NoMemory};
use std::alloc::Global;
use std::collections::BTreeMap;
use std::marker::Model;

/// What a name holds.
#[tactic(auto, using(crate::proofs::MemoryLemmas::get_held))]
fn content_of<'a>(held: &'a BTreeMap<String, Items<u8>>, name: &str) -> Option<&'a Items<u8>>
    ensures { option_copied result ≡ map.get (contents_of held.now) name.now }
{
    held.get(name)
}

/// Puts a copy of these bytes under the name.
#[tactic(auto, using(crate::proofs::MemoryLemmas::insert_held))]
fn hold(
    held: &mut BTreeMap<String, Items<u8>>,
    alloc: Global,
    name: &str,
    bytes: &[u8],
) -> Result<(), NoMemory>
    ensures ok { OnOk result
        (contents_of held.new ≡ map.insert (contents_of held.old) name.now bytes.now) }
    ensures err { OnErr result (contents_of held.new ≡ contents_of held.old) }
{
    let key = String::from_str(alloc, name)?;
    let copy = Items::of_slice(alloc, bytes)?;
    held.insert(key, copy)?;
    Ok(())
}

/// That each of these is a byte.
fn are_bytes(bytes: &[u8])
    ensures { All (λ b. b < 256) bytes.now }
{
    let _ = bytes.len();
}

/// Files that are held in memory, with a list of the calls that are to fail.
#[derive(Drop)]
pub struct MemFiles {
    alloc: Global,
    held: BTreeMap<String, Items<u8>>,
    failing: Items<u64>,
    calls: u64,
    reads: u64,
    counts: FileCounts,
}

impl Model for MemFiles {
    ghost use Rattle.nwq_outside.specs.Memory.{Memory, memory_code, contents_of};
    ghost use Rattle.nwq_outside.specs.Outside.{ContentsAreBytes, plain};

    ghost Value = { Memory };

    ghost coded = { memory_code };

    ghost view = { λ m. record {
      contents = contents_of m.held;
      failing = m.failing;
      calls = m.calls;
      reads = m.reads;
      counts = m.counts;
    } };

    ghost invariant = { λ m. ContentsAreBytes (plain (contents_of m.held)) };
}

impl MemFiles {
    ghost use Rattle.nwq_outside.specs.Memory.{counted, after_read, after_write};

    /// Files without names. No call was made, and none is to fail.
    #[tactic(auto, using(crate::proofs::MemoryLemmas::bytes_are))]
    pub fn new(alloc: Global) -> MemFiles
        ensures empty { result ≡ record {
          contents = map.empty;
          failing = [];
          calls = 0;
          reads = 0;
          counts = no_counts;
        } }
    {
        MemFiles {
            alloc,
            held: BTreeMap::new(alloc),
            failing: Items::new(alloc),
            calls: 0,
            reads: 0,
            counts: FileCounts::new(),
        }
    }

    /// Puts these bytes under the name. This is no call.
    #[tactic(auto, using(crate::proofs::MemoryLemmas::bytes_are))]
    pub fn add(&mut self, name: &str, bytes: &[u8]) -> Result<(), NoMemory>
        ensures ok { OnOk result (self.new
            ≡ record self.old { contents = map.insert self.old.contents name.now bytes.now }) }
        ensures err { OnErr result (self.new ≡ self.old) }
    {
        are_bytes(bytes);
        hold(&mut self.held, self.alloc, name, bytes)
    }

    /// What is under the name, and `None` exactly where nothing is. This is no call.
    pub fn get(&self, name: &str) -> Option<&[u8]>
        ensures found { option_map (λ bytes. bytes.now) result
            ≡ map.get self.now.contents name.now }
    {
        match content_of(&self.held, name) {
            None => None,
            Some(bytes) => Some(bytes.as_slice()),
        }
    }

    /// Lets that call fail, calls being counted from 0. This is no call.
    pub fn fail_at(&mut self, call: u64) -> Result<(), NoMemory>
        ensures ok { OnOk result
            (self.new ≡ record self.old { failing = self.old.failing ++ call ∷ [] }) }
        ensures err { OnErr result (self.new ≡ self.old) }
    {
        self.failing.push(call)
    }

    /// Counts a call, and says whether it is to fail.
    fn begins_call(&mut self) -> bool
        ensures fails { IsTrue result ↔ Contains self.old.failing self.old.calls }
        ensures after { self.new ≡ counted self.old result }
    {
        let fails = self.failing.as_slice().contains(&self.calls);
        self.calls = self.calls.saturating_add(1);
        if fails {
            self.counts.raise(CountOf::Faults);
        }
        fails
    }
}

impl Files for MemFiles {
    ghost use Rattle.nwq_outside.specs.Memory.{after_read, after_write};

    ghost tells = { true };

    ghost contents = { λ m. plain m.contents };

    ghost counts = { λ m. m.counts };

    ghost reads = { λ m. m.reads };

    fn contents_are_bytes(&self) {
        let _calls = self.calls;
    }

    fn read(&mut self, alloc: Global, name: &str) -> Read
        ensures content { ReadsContent (map.get self.old.contents name.now) result }
        ensures size { IsFileSize result }
        ensures fails { (result ≡ Read.Failed) ↔ Contains self.old.failing self.old.calls }
        ensures after { self.new ≡ after_read self.old result }
    {
        self.reads = self.reads.saturating_add(1);
        if self.begins_call() {
            return Read::Failed;
        }
        match content_of(&self.held, name) {
            None => {
                self.counts.raise(CountOf::Absences);
                Read::Missing
            }
            Some(bytes) if bytes.len() > FILE_BYTES => {
                self.counts.raise(CountOf::Longs);
                Read::Long
            }
            Some(bytes) => match Vec::from_slice(alloc, bytes.as_slice()) {
                Ok(copy) => Read::Bytes(copy),
                Err(_) => Read::NoMemory,
            },
        }
    }

    #[tactic(auto, using(crate::proofs::MemoryLemmas::keeps))]
    fn write(&mut self, name: &str, bytes: &[u8]) -> Done
        ensures fails { (result ≡ Done.Failed) ↔ Contains self.old.failing self.old.calls }
        ensures after { self.new ≡ after_write self.old name.now bytes.now result }
        ensures others { KeepsOthers name.now (plain self.old.contents) (plain self.new.contents) }
    {
        if self.begins_call() {
            return Done::Failed;
        }
        match self.add(name, bytes) {
            Ok(()) => Done::Ok,
            Err(NoMemory) => Done::NoMemory,
        }
    }
}

/// A sink that holds in memory what it took, with a list of the calls that are to fail.
#[derive(Drop)]
pub struct MemSink {
    taken: Items<u8>,
    failing: Items<u64>,
    calls: u64,
    faults: u64,
}

impl Model for MemSink {
    ghost use Rattle.nwq_outside.specs.Memory.{Tape};

    ghost Value = { Tape };

    ghost view = { λ s. record {
      taken = s.taken;
      failing = s.failing;
      calls = s.calls;
      faults = s.faults;
    } };
}

impl MemSink {
    /// A sink that took nothing. No call was made, and none is to fail.
    pub fn new(alloc: Global) -> MemSink
        ensures empty { result ≡ record { taken = []; failing = []; calls = 0; faults = 0 } }
    {
        MemSink {
            taken: Items::new(alloc),
            failing: Items::new(alloc),
            calls: 0,
            faults: 0,
        }
    }

    /// The bytes that were taken so far.
    pub fn bytes(&self) -> &[u8]
        ensures taken { result.now ≡ self.now.taken }
    {
        self.taken.as_slice()
    }

    /// How many puts there were so far.
    pub fn calls(&self) -> u64
        ensures count { result ≡ self.now.calls }
    {
        self.calls
    }

    /// Lets that put fail, puts being counted from 0.
    pub fn fail_at(&mut self, call: u64) -> Result<(), NoMemory>
        ensures ok { OnOk result
            (self.new ≡ record self.old { failing = self.old.failing ++ call ∷ [] }) }
        ensures err { OnErr result (self.new ≡ self.old) }
    {
        self.failing.push(call)
    }
}

impl Sink for MemSink {
    ghost use Rattle.nwq_outside.specs.Memory.{after_put};

    ghost tells = { true };

    ghost taken = { λ s. s.taken };

    ghost faults = { λ s. s.faults };

    fn put(&mut self, piece: &[u8]) -> Done
        ensures fails { (result ≡ Done.Failed) ↔ Contains self.old.failing self.old.calls }
        ensures after { self.new ≡ after_put self.old piece.now result }
    {
        let refused = self.failing.as_slice().contains(&self.calls);
        self.calls = self.calls.saturating_add(1);
        if refused {
            self.faults = self.faults.saturating_add(1);
            return Done::Failed;
        }
        match self.taken.extend(piece) {
            Ok(()) => Done::Ok,
            Err(NoMemory) => Done::NoMemory,
        }
    }
}
