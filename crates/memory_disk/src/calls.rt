//! The calls of a disk, on the one in memory.

ghost use Rattle.std.specs.Prelude.{◌≡◌, ℕ, Bool, List, Option, None, Some, OnErr, IfOk, IfErr};
ghost use Rattle.std.specs.Prelude.{IsSomeAnd, take, true, false};
ghost use Rattle.std.specs.FinMap as map;
ghost use Rattle.real_files.specs.Disk.{IsThing, Makes, Moves, Removes, Syncs};
ghost use Rattle.real_files.specs.Disk.{WritesInto, WritesPart};
ghost use Rattle.memory_disk.specs.declared.node.Node.TheVariants as node;
ghost use Rattle.memory_disk.specs.Drive.{files_of, may_write, modes_of, names_of};

use crate::drive::{Going, MemoryDisk};
use crate::node::Node;
use crate::paths::follow;
use nwq_value::NoMemory;
use real_files::{Disk, Failure, Made, Moved, Thing};
use std::alloc::{AllocError, Global};
use std::io::ErrorKind;

/// How a call fails that is to fail.
const FAILED: Failure = Failure::Kind(ErrorKind::Other);

const FULL: Failure = Failure::Kind(ErrorKind::StorageFull);

const DENIED: Failure = Failure::Kind(ErrorKind::PermissionDenied);

/// The first bytes, at most so many.
fn copy_front(alloc: Global, bytes: &[u8], most: u64) -> Result<Vec<u8>, AllocError>
    ensures ok { IfOk result (λ front. front.items ≡ take most bytes.now) }
{
    if most < bytes.len() as u64 {
        Vec::from_slice(alloc, &bytes[..most as usize])
    } else {
        Vec::from_slice(alloc, bytes)
    }
}

impl MemoryDisk {
    /// The first bytes at a place, at most so many.
    fn read_at(&self, alloc: Global, place: &[u8], most: u64) -> Result<Vec<u8>, Failure>
        ensures bytes { IfOk result (λ bytes.
            IsSomeAnd (map.get (files_of self.now.nodes) place.now)
            (λ whole. bytes.items ≡ take most whole)) }
        ensures absent { IfErr result (λ why. why ≡ Failure.Absent →
            map.get (files_of self.now.nodes) place.now ≡ None) }
    {
        match self.nodes().bytes(place) {
            Some(bytes) => match copy_front(alloc, bytes, most) {
                Ok(front) => Ok(front),
                Err(_) => Err(Failure::NoMemory),
            },
            None => match self.nodes().link(place) {
                Some(_) => Err(Failure::Kind(ErrorKind::FilesystemLoop)),
                None => Err(Failure::Absent),
            },
        }
    }

    /// What a name itself is.
    #[tactic(auto, using(crate::proofs::EachLemmas::looks))]
    fn thing_at(&self, alloc: Global, name: &[u8]) -> Result<Thing, Failure>
        ensures thing { IfOk result (IsThing (names_of self.now) name.now) }
    {
        match self.nodes().get(name) {
            None => Ok(Thing::Nothing),
            Some(Node::File(mode, _)) => Ok(Thing::File(*mode)),
            Some(Node::Link(text)) => match Vec::from_slice(alloc, text.as_slice()) {
                Ok(text) => Ok(Thing::Link(text)),
                Err(_) => Err(Failure::NoMemory),
            },
            Some(Node::Device(_)) => {
                if self.is_fixed(name) {
                    Ok(Thing::Other)
                } else {
                    Err(FAILED)
                }
            }
        }
    }

    /// Whether the regular file of this name may be written by its owner.
    fn may_write_at(&self, name: &[u8]) -> Result<(), Failure>
        ensures may { IfOk result (λ done.
            may_write (map.get (modes_of self.now.nodes) name.now) ≡ true) }
    {
        match self.nodes().mode(name) {
            None => Err(Failure::Absent),
            Some(mode) => {
                if mode & 0o200 == 0 {
                    Err(DENIED)
                } else {
                    Ok(())
                }
            }
        }
    }

    /// Makes a file of only some bytes.
    #[tactic(auto, using(crate::proofs::DriveLemmas::makes_part))]
    fn make_part(&mut self, new: &[u8], part: &[u8], why: Failure) -> Made
        ensures part { (name bytes : List ℕ) (like : Option ℕ) (lasting : Bool) →
            Makes (names_of self.old) (names_of self.new) new.now name like bytes lasting
            result }
    {
        let None = self.nodes().get(new) else {
            return Made::Taken;
        };
        let room = self.room().saturating_sub(part.len());
        match self.put_file(new, 0o600, part, room) {
            Ok(()) => Made::Broken(why),
            Err(NoMemory) => Made::Refused(Failure::NoMemory),
        }
    }

    /// Makes a file, as far as there is room.
    #[tactic(auto, using(crate::proofs::DriveLemmas::makes_whole))]
    fn make_file(&mut self, new: &[u8], like: Option<u32>, bytes: &[u8]) -> Made
        ensures makes { (name : List ℕ) →
            Makes (names_of self.old) (names_of self.new) new.now name like bytes.now false
            result }
    {
        let room = self.room();
        if room < bytes.len() {
            return self.make_part(new, &bytes[..room], FULL);
        }
        let None = self.nodes().get(new) else {
            return Made::Taken;
        };
        match self.put_file(new, like.unwrap_or(0o644), bytes, room - bytes.len()) {
            Ok(()) => Made::Whole,
            Err(NoMemory) => Made::Refused(Failure::NoMemory),
        }
    }

    /// Makes a file, and has its bytes for good if they are to last.
    fn make_kept(&mut self, new: &[u8], like: Option<u32>, bytes: &[u8], lasting: bool) -> Made
        ensures makes { (name : List ℕ) →
            Makes (names_of self.old) (names_of self.new) new.now name like bytes.now lasting
            result }
    {
        match self.make_file(new, like, bytes) {
            Made::Whole if lasting => match self.keep_bytes(bytes) {
                Ok(()) => Made::Whole,
                Err(NoMemory) => Made::Broken(Failure::NoMemory),
            },
            Made::Whole => Made::Whole,
            Made::Taken => Made::Taken,
            Made::Closed => Made::Closed,
            Made::Refused(why) => Made::Refused(why),
            Made::Broken(why) => Made::Broken(why),
        }
    }

    /// Makes a file, or a part of it where the call breaks off.
    fn make_so(
        &mut self,
        breaks: bool,
        new: &[u8],
        name: &[u8],
        like: Option<u32>,
        bytes: &[u8],
        lasting: bool,
    ) -> Made
        ensures makes { Makes (names_of self.old) (names_of self.new)
            new.now name.now like bytes.now lasting result }
    {
        if self.is_closed(name) {
            return Made::Closed;
        }
        if breaks {
            return self.make_part(new, &bytes[..bytes.len() / 2], FAILED);
        }
        self.make_kept(new, like, bytes, lasting)
    }

    /// Gives a copy of a file another name, and takes the file out.
    #[tactic(auto, using(crate::proofs::DriveLemmas::renames))]
    fn move_file(&mut self, from: &[u8], to: &[u8], mode: u32, bytes: &[u8]) -> Moved
        requires file { map.get self.old.nodes from.now ≡ Some (node.File mode bytes.now) }
        ensures moves { Moves (names_of self.old) (names_of self.new) from.now to.now result }
    {
        if from == to {
            return Moved::Done;
        }
        let None = self.nodes().link(to) else {
            return Moved::Refused(FAILED);
        };
        let room = self.room().saturating_add(self.size(to));
        match self.put_file(to, mode, bytes, room) {
            Ok(()) => {
                self.take_out(from, room);
                Moved::Done
            }
            Err(NoMemory) => Moved::Refused(Failure::NoMemory),
        }
    }

    fn rename_at(&mut self, alloc: Global, from: &[u8], to: &[u8]) -> Moved
        ensures moves { Moves (names_of self.old) (names_of self.new) from.now to.now result }
    {
        if self.is_fixed(to) {
            return Moved::Fixed;
        }
        match self.nodes().copy_file(alloc, from) {
            Ok(Some((mode, bytes))) => self.move_file(from, to, mode, bytes.as_slice()),
            Ok(None) => Moved::Refused(Failure::Absent),
            Err(NoMemory) => Moved::Refused(Failure::NoMemory),
        }
    }

    /// Removes a regular file.
    #[tactic(auto, using(crate::proofs::DriveLemmas::removes))]
    fn remove_at(&mut self, name: &[u8]) -> Result<(), Failure>
        ensures ok { IfOk result (λ done.
            Removes (names_of self.old) (names_of self.new) name.now) }
        ensures err { OnErr result (self.new ≡ self.old) }
    {
        if self.is_fixed(name) {
            return Err(DENIED);
        }
        let Some(_) = self.nodes().mode(name) else {
            return Err(Failure::Absent);
        };
        let room = self.room().saturating_add(self.size(name));
        self.take_out(name, room);
        Ok(())
    }

    /// Writes into a regular file, as far as there is room.
    #[tactic(auto, using(crate::proofs::DriveLemmas::writes_file))]
    fn write_file(&mut self, name: &[u8], mode: u32, bytes: &[u8]) -> Result<(), Failure>
        requires file { map.get (modes_of self.old.nodes) name.now ≡ Some mode }
        ensures ok { IfOk result (λ done.
            WritesInto (names_of self.old) (names_of self.new) name.now bytes.now) }
        ensures err { OnErr result (WritesPart (names_of self.old) (names_of self.new) name.now) }
    {
        let free = self.room().saturating_add(self.size(name));
        if free < bytes.len() {
            return match self.put_file(name, mode, &bytes[..free], 0) {
                Ok(()) => Err(FULL),
                Err(NoMemory) => Err(Failure::NoMemory),
            };
        }
        match self.put_file(name, mode, bytes, free - bytes.len()) {
            Ok(()) => Ok(()),
            Err(NoMemory) => Err(Failure::NoMemory),
        }
    }

    /// Writes into a device.
    #[tactic(auto, using(crate::proofs::DriveLemmas::writes_device))]
    fn write_device(&mut self, name: &[u8], bytes: &[u8]) -> Result<(), Failure>
        requires no_mode { map.get (modes_of self.old.nodes) name.now ≡ None }
        ensures ok { IfOk result (λ done.
            WritesInto (names_of self.old) (names_of self.new) name.now bytes.now) }
        ensures err { OnErr result (WritesPart (names_of self.old) (names_of self.new) name.now) }
    {
        let Some(_) = self.nodes().bytes(name) else {
            return Err(Failure::Absent);
        };
        match self.put_device(name, bytes) {
            Ok(()) => Ok(()),
            Err(NoMemory) => Err(Failure::NoMemory),
        }
    }

    fn write_at(&mut self, name: &[u8], bytes: &[u8]) -> Result<(), Failure>
        ensures ok { IfOk result (λ done.
            WritesInto (names_of self.old) (names_of self.new) name.now bytes.now) }
        ensures err { OnErr result (WritesPart (names_of self.old) (names_of self.new) name.now) }
    {
        match self.nodes().mode(name) {
            Some(mode) => self.write_file(name, mode, bytes),
            None => self.write_device(name, bytes),
        }
    }

    /// Leaves the first half of the bytes in a regular file.
    #[tactic(auto, using(crate::proofs::DriveLemmas::breaks))]
    fn break_write(&mut self, name: &[u8], bytes: &[u8]) -> Failure
        ensures broken { WritesPart (names_of self.old) (names_of self.new) name.now }
    {
        let Some(mode) = self.nodes().mode(name) else {
            return FAILED;
        };
        let room = self.room();
        match self.put_file(name, mode, &bytes[..bytes.len() / 2], room) {
            Ok(()) => FAILED,
            Err(NoMemory) => Failure::NoMemory,
        }
    }
}

impl Disk for MemoryDisk {
    ghost tells = { true };

    ghost names = { names_of };

    fn files_are_bytes(&self) {
        self.nodes().hold_bytes();
    }

    fn read(&mut self, alloc: Global, name: &str, most: u64) -> Result<Vec<u8>, Failure> {
        let Going::Runs = self.begin() else {
            return Err(FAILED);
        };
        match follow(self.nodes(), alloc, name.as_bytes()) {
            Ok(place) => self.read_at(alloc, place.as_slice(), most),
            Err(NoMemory) => Err(Failure::NoMemory),
        }
    }

    fn look(&mut self, alloc: Global, name: &str) -> Result<Thing, Failure> {
        let Going::Runs = self.begin() else {
            return Err(FAILED);
        };
        self.thing_at(alloc, name.as_bytes())
    }

    fn may_write(&mut self, name: &str) -> Result<(), Failure> {
        let Going::Runs = self.begin() else {
            return Err(FAILED);
        };
        self.may_write_at(name.as_bytes())
    }

    fn make(
        &mut self,
        new: &str,
        name: &str,
        like: Option<u32>,
        bytes: &[u8],
        lasting: bool,
    ) -> Made {
        let breaks = match self.begin() {
            Going::Runs => false,
            Going::Fails => return Made::Refused(FAILED),
            Going::Breaks => true,
        };
        self.make_so(
            breaks,
            new.as_bytes(),
            name.as_bytes(),
            like,
            bytes,
            lasting,
        )
    }

    fn rename(&mut self, from: &str, to: &str) -> Moved {
        let Going::Runs = self.begin() else {
            return Moved::Refused(FAILED);
        };
        let alloc = self.alloc();
        self.rename_at(alloc, from.as_bytes(), to.as_bytes())
    }

    fn remove(&mut self, name: &str) -> Result<(), Failure> {
        let Going::Runs = self.begin() else {
            return Err(FAILED);
        };
        self.remove_at(name.as_bytes())
    }

    fn write_into(&mut self, name: &str, bytes: &[u8]) -> Result<(), Failure> {
        match self.begin() {
            Going::Runs => self.write_at(name.as_bytes(), bytes),
            Going::Fails => Err(FAILED),
            Going::Breaks => Err(self.break_write(name.as_bytes(), bytes)),
        }
    }

    fn sync_folder(&mut self, name: &str) -> Result<(), Failure> {
        let Going::Runs = self.begin() else {
            return Err(FAILED);
        };
        match self.keep_folder(name.as_bytes()) {
            Ok(()) => Ok(()),
            Err(NoMemory) => Err(Failure::NoMemory),
        }
    }
}
