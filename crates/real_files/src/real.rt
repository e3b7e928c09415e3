//! The files that the program uses, over a disk.

ghost use Rattle.std.specs.Prelude.{◌≡◌, ◌≢◌, IsTrue};
ghost use Rattle.nwq_outside.specs.declared.counts.CountOf.TheVariants as count_of;
ghost use Rattle.nwq_outside.specs.Outside.{no_counts, with_next, Leaves, KeepsOthers};
ghost use Rattle.nwq_outside.specs.Outside.{CountsWrite};
ghost use Rattle.real_files.specs.Disk.{told, place_in, StaysWhole, KeepsMode};
ghost use Rattle.real_files.specs.Disk.{KeepsForbidden, Lasts};

use crate::disk::{Disk, Failure};
use crate::whole::{Fault, put_under};
use nwq_outside::{CountOf, Done, FileCounts, Files, Read};
use nwq_value::FILE_BYTES;
use std::alloc::Global;
use std::io::ErrorKind;
use std::marker::Model;

/// A name at which the outside failed, and how.
#[derive(Drop)]
pub struct Trouble {
    pub name: String,
    pub kind: ErrorKind,
}

/// Files over a disk. They tell what their disk tells.
#[derive(Drop)]
pub struct RealFiles<D: Disk> {
    disk: D,
    alloc: Global,
    counts: FileCounts,
    reads: u64,
    trouble: Option<Trouble>,
}

impl<D: Disk> Model for RealFiles<D> {
    ghost use Rattle.real_files.specs.Real.{Filed};

    ghost Value = { Filed D };

    ghost view = { λ f. record { disk = f.disk; counts = f.counts; reads = f.reads } };
}

impl<D: Disk> RealFiles<D> {
    /// The files of this disk. There was no read, and no failure.
    pub fn new(alloc: Global, disk: D) -> Self
        ensures made { result ≡ record { disk = disk; counts = no_counts; reads = 0 } }
    {
        RealFiles {
            disk,
            alloc,
            counts: FileCounts::new(),
            reads: 0,
            trouble: None,
        }
    }

    pub fn disk(&self) -> &D
        ensures disk { result.now ≡ self.now.disk }
    {
        &self.disk
    }

    /// The last name at which the outside failed, unless there was no memory to keep it.
    pub fn trouble(&self) -> Option<&Trouble> {
        self.trouble.as_ref()
    }

    /// Counts a failure at this name, and keeps it.
    fn fail(&mut self, name: &str, kind: ErrorKind)
        ensures counts { self.new
            ≡ record self.old { counts = with_next count_of.Faults self.old.counts } }
    {
        self.counts.raise(CountOf::Faults);
        self.trouble = match String::from_str(self.alloc, name) {
            Ok(name) => Some(Trouble { name, kind }),
            Err(_) => None,
        };
    }

    /// Counts the fault of a write under this name, and keeps it.
    fn fall_short(&mut self, name: &str, fault: Fault) -> Done
        ensures counts { CountsWrite result self.old.counts self.new.counts }
        ensures failed { result ≢ Done.Ok }
        ensures same { self.new ≡ record self.old { counts = self.new.counts } }
    {
        match fault {
            Fault::Failed(Failure::NoMemory) => return Done::NoMemory,
            Fault::Failed(Failure::Absent) => self.fail(name, ErrorKind::NotFound),
            Fault::Failed(Failure::Kind(kind)) => self.fail(name, kind),
            Fault::InTheWay(new) => self.fail(new.as_str(), ErrorKind::AlreadyExists),
        }
        Done::Failed
    }
}

impl<D: Disk> Files for RealFiles<D> {
    ghost tells = { D.tells };

    ghost contents = { λ f. told D.tells (D.names f.disk) };

    ghost counts = { λ f. f.counts };

    ghost reads = { λ f. f.reads };

    #[tactic(auto, using(crate::proofs::RealLemmas::told_bytes))]
    fn contents_are_bytes(&self) {
        self.disk.files_are_bytes();
    }

    #[tactic(auto, using(crate::proofs::RealLemmas::reads))]
    fn read(&mut self, alloc: Global, name: &str) -> Read {
        self.reads = self.reads.saturating_add(1);
        match self.disk.read(alloc, name, FILE_BYTES as u64 + 1) {
            Ok(bytes) if bytes.len() > FILE_BYTES => {
                self.counts.raise(CountOf::Longs);
                Read::Long
            }
            Ok(bytes) => Read::Bytes(bytes),
            Err(Failure::NoMemory) => Read::NoMemory,
            Err(Failure::Absent) => {
                self.counts.raise(CountOf::Absences);
                Read::Missing
            }
            Err(Failure::Kind(kind)) => {
                self.fail(name, kind);
                Read::Failed
            }
        }
    }

    /// The old bytes stay whole, or the new ones are there whole, and a file keeps its mode. One
    /// that may not be written stays, and the disk has one that is to last.
    #[tactic(auto, using(crate::proofs::RealLemmas::tells))]
    fn write(&mut self, name: &str, bytes: &[u8]) -> Done
        ensures left { IsTrue D.tells → Leaves (told D.tells (D.names self.old.disk))
            (told D.tells (D.names self.new.disk)) name.now bytes.now result }
        ensures others { KeepsOthers name.now (told D.tells (D.names self.old.disk))
            (told D.tells (D.names self.new.disk)) }
        ensures unread { self.new.reads ≡ self.old.reads }
        ensures counts { CountsWrite result self.old.counts self.new.counts }
        ensures whole { IsTrue D.tells → StaysWhole
            (D.names self.old.disk) (D.names self.new.disk)
            (place_in (D.names self.old.disk) name.now) bytes.now }
        ensures mode { IsTrue D.tells → KeepsMode
            (D.names self.old.disk) (D.names self.new.disk)
            (place_in (D.names self.old.disk) name.now) }
        ensures forbidden { IsTrue D.tells → KeepsForbidden
            (D.names self.old.disk) (D.names self.new.disk)
            (place_in (D.names self.old.disk) name.now) }
        ensures lasts { IsTrue D.tells → result ≡ Done.Ok → Lasts
            (D.names self.old.disk) (D.names self.new.disk)
            (place_in (D.names self.old.disk) name.now) }
    {
        match put_under(&mut self.disk, self.alloc, name, bytes) {
            Ok(()) => Done::Ok,
            Err(fault) => self.fall_short(name, fault),
        }
    }
}
