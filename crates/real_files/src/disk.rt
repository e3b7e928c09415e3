//! The calls that real files make of a disk, and what each means where a disk tells its names.

ghost use Rattle.std.specs.Prelude.{◌≡◌, ◌<◌, ℕ, List, Bool, All, take, None, IsSomeAnd};
ghost use Rattle.std.specs.Prelude.{Some, IsTrue, OnErr, IfOk, IfErr, true};
ghost use Rattle.std.specs.FinMap as map;
ghost use Rattle.real_files.specs.Disk.{Names, IsThing, Makes, Moves, Removes};
ghost use Rattle.real_files.specs.Disk.{Syncs, WritesInto, WritesPart, place_in};

use std::alloc::{AllocError, Global};
use std::io::ErrorKind;

/// Why a call failed.
#[derive(Clone, Copy)]
pub enum Failure {
    /// Nothing is under the name, and nothing can be.
    Absent,
    NoMemory,
    /// The outside failed so.
    Kind(ErrorKind),
}

impl From<AllocError> for Failure {
    ghost use Rattle.std.specs.Prelude.{◌≡◌};
    ghost use Rattle.real_files.specs.declared.disk.Failure.TheVariants.{NoMemory};

    ghost from_gives = { λ _ why. why ≡ NoMemory };

    fn from(_error: AllocError) -> Failure {
        Failure::NoMemory
    }
}

/// What a name itself is, links not followed.
#[derive(Drop)]
pub enum Thing {
    Nothing,
    /// A regular file of this mode.
    File(u32),
    /// A link, which leads on to this text.
    Link(Vec<u8>),
    /// What is written into as it is: a device, a pipe, an open file of a process, a folder.
    Other,
}

/// What came of the making of a new file.
#[derive(Clone, Copy)]
pub enum Made {
    /// It has all its bytes.
    Whole,
    /// Something of this name is there. Nothing changed.
    Taken,
    /// No file can be made in this folder. Nothing changed.
    Closed,
    /// Nothing was made.
    Refused(Failure),
    /// It was made, and hasn't its bytes.
    Broken(Failure),
}

/// What came of a rename.
#[derive(Clone, Copy)]
pub enum Moved {
    Done,
    /// What has the second name can't be replaced. Nothing changed.
    Fixed,
    /// Nothing changed.
    Refused(Failure),
}

/// What real files ask of a disk. Kinds that tell their names have every answer explained by them;
/// of the others nothing is said. Names are paths, as the host takes them.
pub trait Disk {
    /// Whether this kind of disk tells its names.
    ghost tells: { Bool };

    ghost names: { Self → Names };

    /// That what is read are bytes, where it is told.
    fn files_are_bytes(&self)
        ensures bytes { IsTrue tells → (name bytes : List ℕ) →
            map.get (names self.now).files name ≡ Some bytes → All (λ b. b < 256) bytes };

    /// The first bytes under a name, at most so many. Links are followed.
    fn read(&mut self, alloc: Global, name: &str, most: u64) -> Result<Vec<u8>, Failure>
        ensures bytes { IsTrue tells → IfOk result (λ bytes.
            IsSomeAnd (map.get (names self.old).files (place_in (names self.old) name.now))
            (λ whole. bytes.items ≡ take most whole)) }
        ensures absent { IsTrue tells → IfErr result (λ why. why ≡ Failure.Absent →
            map.get (names self.old).files (place_in (names self.old) name.now) ≡ None) }
        ensures same { names self.new ≡ names self.old };

    /// What a name itself is. Links are not followed.
    fn look(&mut self, alloc: Global, name: &str) -> Result<Thing, Failure>
        ensures thing { IsTrue tells → IfOk result (IsThing (names self.old) name.now) }
        ensures same { names self.new ≡ names self.old };

    /// Whether the regular file of this name may be written.
    fn may_write(&mut self, name: &str) -> Result<(), Failure>
        ensures may { IsTrue tells → IfOk result (λ done.
            (names self.old).writable name.now ≡ true) }
        ensures same { names self.new ≡ names self.old };

    /// Makes a new file beside a name, of this mode if there is one, and gives it these bytes.
    /// Where they are to last, it waits until the disk has them.
    fn make(
        &mut self,
        new: &str,
        name: &str,
        like: Option<u32>,
        bytes: &[u8],
        lasting: bool,
    ) -> Made
        ensures makes { IsTrue tells →
            Makes (names self.old) (names self.new) new.now name.now like bytes.now lasting
            result };

    /// Gives a file another name, in place of what has that.
    fn rename(&mut self, from: &str, to: &str) -> Moved
        ensures moves { IsTrue tells →
            Moves (names self.old) (names self.new) from.now to.now result };

    fn remove(&mut self, name: &str) -> Result<(), Failure>
        ensures ok { IsTrue tells → IfOk result (λ done.
            Removes (names self.old) (names self.new) name.now) }
        ensures err { IsTrue tells → OnErr result (names self.new ≡ names self.old) };

    /// Writes into what is there, which is no link.
    fn write_into(&mut self, name: &str, bytes: &[u8]) -> Result<(), Failure>
        ensures ok { IsTrue tells → IfOk result (λ done.
            WritesInto (names self.old) (names self.new) name.now bytes.now) }
        ensures err { IsTrue tells → OnErr result
            (WritesPart (names self.old) (names self.new) name.now) };

    /// Waits until the disk has what the folder of this name lists.
    fn sync_folder(&mut self, name: &str) -> Result<(), Failure>
        ensures ok { IsTrue tells → IfOk result (λ done.
            Syncs (names self.old) (names self.new) name.now) }
        ensures err { IsTrue tells → OnErr result (names self.new ≡ names self.old) };
}
