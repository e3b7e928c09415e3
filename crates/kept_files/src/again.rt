//! What was kept, read once more.

ghost use Rattle.std.specs.Prelude.{◌≡◌};
ghost use Rattle.nwq_outside.specs.Outside.{plain};

use nwq_outside::{CountOf, Done, FileCounts, Files, MemFiles, Read};
use nwq_value::FILE_BYTES;
use std::alloc::Global;

/// Files that are there as they were kept. None is opened, and none can be written.
#[derive(Drop)]
pub struct Again<'a> {
    kept: &'a MemFiles,
    counts: FileCounts,
    reads: u64,
}

impl<'a> Again<'a> {
    pub fn of(kept: &'a MemFiles) -> Again<'a>
        ensures kept { result.kept.now ≡ kept.now }
    {
        Again {
            kept,
            counts: FileCounts::new(),
            reads: 0,
        }
    }
}

impl<'a> Files for Again<'a> {
    ghost use Rattle.std.specs.Prelude.{true};

    ghost tells = { true };

    ghost contents = { λ a. plain a.kept.now.contents };

    ghost counts = { λ a. a.counts };

    ghost reads = { λ a. a.reads };

    fn contents_are_bytes(&self) {
        self.kept.contents_are_bytes();
    }

    fn read(&mut self, alloc: Global, name: &str) -> Read {
        self.reads = self.reads.saturating_add(1);
        match self.kept.get(name) {
            None => {
                self.counts.raise(CountOf::Absences);
                Read::Missing
            }
            Some(bytes) if bytes.len() > FILE_BYTES => {
                self.counts.raise(CountOf::Longs);
                Read::Long
            }
            Some(bytes) => match Vec::from_slice(alloc, bytes) {
                Ok(copy) => Read::Bytes(copy),
                Err(_) => Read::NoMemory,
            },
        }
    }

    #[tactic(auto, using(nwq_outside::specs::ContentLemmas::same_keeps))]
    fn write(&mut self, _name: &str, _bytes: &[u8]) -> Done {
        self.counts.raise(CountOf::Faults);
        Done::Failed
    }
}
