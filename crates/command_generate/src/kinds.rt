//! Files and a sink in memory that don't fail: a call may only find no memory.
ghost use Rattle.std.specs.Prelude.{◌≡◌, [], true, IfOk};
ghost use Rattle.nwq_outside.specs.Outside.{plain};
ghost use Rattle.command_generate.specs.Generated.{files_with, faultless};

use nwq_outside::{Done, Files, MemFiles, Read, Sink};
use nwq_value::{FILE_BYTES, Items, NoMemory};
use std::alloc::Global;

/// Files that are read and not written.
#[derive(Drop)]
pub(crate) struct Shelf {
    held: MemFiles,
    reads: u64,
    absences: u64,
    longs: u64,
}

impl Shelf {
    /// The files in which a source is compiled: it alone is there.
    pub(crate) fn with(alloc: Global, source: &[u8]) -> Result<Shelf, NoMemory>
        ensures files { IfOk result (λ shelf. plain shelf.held.contents ≡ files_with source.now) }
    {
        let mut held = MemFiles::new(alloc);
        match held.add("beat.nss", source) {
            Err(NoMemory) => {
                drop(held);
                Err(NoMemory)
            }
            Ok(()) => Ok(Shelf {
                held,
                reads: 0,
                absences: 0,
                longs: 0,
            }),
        }
    }
}

impl Files for Shelf {
    ghost tells = { true };

    ghost contents = { λ shelf. plain shelf.held.contents };

    ghost counts = { λ shelf. faultless shelf.absences shelf.longs };

    ghost reads = { λ shelf. shelf.reads };

    fn contents_are_bytes(&self) {
        self.held.contents_are_bytes();
    }

    fn read(&mut self, alloc: Global, name: &str) -> Read {
        self.reads = self.reads.saturating_add(1);
        match self.held.get(name) {
            None => {
                self.absences = self.absences.saturating_add(1);
                Read::Missing
            }
            Some(bytes) if bytes.len() > FILE_BYTES => {
                self.longs = self.longs.saturating_add(1);
                Read::Long
            }
            Some(bytes) => match Vec::from_slice(alloc, bytes) {
                Ok(copy) => Read::Bytes(copy),
                Err(_) => Read::NoMemory,
            },
        }
    }

    /// There is room for nothing.
    #[tactic(auto, using(nwq_outside::specs::ContentLemmas::same_keeps))]
    fn write(&mut self, _name: &str, _bytes: &[u8]) -> Done {
        Done::NoMemory
    }
}

/// A sink that keeps what it takes.
#[derive(Drop)]
pub(crate) struct Kept {
    taken: Items<u8>,
}

impl Kept {
    pub(crate) fn new(alloc: Global) -> Kept
        ensures empty { result.taken ≡ [] }
    {
        Kept {
            taken: Items::new(alloc),
        }
    }

    /// What was taken.
    pub(crate) fn bytes(&self) -> &[u8]
        ensures taken { result.now ≡ self.now.taken }
    {
        self.taken.as_slice()
    }

    /// What was taken, for its own.
    pub(crate) fn into_bytes(self) -> Vec<u8>
        ensures taken { result.items ≡ self.taken }
    {
        self.taken.into_vec()
    }
}

impl Sink for Kept {
    ghost tells = { true };

    ghost taken = { λ kept. kept.taken };

    ghost faults = { λ _. 0 };

    fn put(&mut self, piece: &[u8]) -> Done {
        match self.taken.extend(piece) {
            Ok(()) => Done::Ok,
            Err(NoMemory) => Done::NoMemory,
        }
    }
}
