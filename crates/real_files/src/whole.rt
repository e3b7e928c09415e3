//! The write of a whole file, over the calls of a disk: a file is never half written.

ghost use Rattle.std.specs.Prelude.{◌≡◌, ◌≢◌, IsTrue, IfOk, OnErr, true};
ghost use Rattle.std.specs.FinMap as map;
ghost use Rattle.real_files.specs.Disk.{KeepsForbidden, Lasts, place_in, is_lasting, is_own_name};
ghost use Rattle.real_files.specs.Writing.{GivesUp, WritesWhole, Replaces, FallsShort};

use crate::disk::{Disk, Failure, Made, Moved};
use crate::links::{Place, new_name, place_of};
use std::alloc::Global;

/// How many links are followed: as many as the system follows.
const MOST_LINKS: u32 = 40;

/// How many new names a write tries beside the old one, each of which something may have.
const MOST_NEW_NAMES: u32 = 1_000;

/// What came of the write of a whole file.
#[derive(Clone, Copy)]
pub(crate) enum Wrote {
    Whole,
    /// Something has the new name. Nothing changed.
    Taken,
    /// What is there can't be replaced. Nothing changed.
    Fixed,
    /// Nothing changed.
    Refused(Failure),
    /// The new file is left over, since it could not be removed. Nothing else changed.
    Left(Failure),
}

/// Why a write failed.
#[derive(Drop)]
pub(crate) enum Fault {
    Failed(Failure),
    /// Something has each of the new names that were tried, as this one.
    InTheWay(String),
}

impl From<Failure> for Fault {
    ghost use Rattle.std.specs.Prelude.{◌≡◌};
    ghost use Rattle.real_files.specs.declared.whole.Fault.TheVariants.{Failed};

    ghost from_gives = { λ why fault. fault ≡ Failed why };

    fn from(why: Failure) -> Fault {
        Fault::Failed(why)
    }
}

/// Removes the new file of a write that came to this.
fn give_up<D: Disk>(disk: &mut D, new: &str, wrote: Wrote) -> Wrote
    ensures removes { IsTrue D.tells →
        GivesUp (D.names disk.old) (D.names disk.new) new.now wrote result }
{
    match disk.remove(new) {
        Ok(()) => wrote,
        Err(removal) => match wrote {
            Wrote::Refused(why) => Wrote::Left(why),
            _ => Wrote::Left(removal),
        },
    }
}

/// Writes a whole file: under a new name, which then takes the place of the old one. What was there
/// is whole until then, and stays so where a call fails.
#[tactic(auto, using(crate::proofs::WritingLemmas::writes))]
fn write_whole<D: Disk>(
    disk: &mut D,
    new: &str,
    name: &str,
    like: Option<u32>,
    bytes: &[u8],
) -> Wrote
    ensures writes { IsTrue D.tells → is_own_name new.now ≡ true → name.now ≢ new.now →
        map.get (D.names disk.old).modes name.now ≡ like →
        WritesWhole (D.names disk.old) (D.names disk.new) name.now bytes.now result }
{
    match disk.make(new, name, like, bytes, is_lasting(name)) {
        Made::Taken => Wrote::Taken,
        Made::Closed => Wrote::Fixed,
        Made::Refused(why) => Wrote::Refused(why),
        Made::Broken(why) => give_up(disk, new, Wrote::Refused(why)),
        Made::Whole => match disk.rename(new, name) {
            Moved::Done => Wrote::Whole,
            Moved::Fixed => give_up(disk, new, Wrote::Fixed),
            Moved::Refused(why) => give_up(disk, new, Wrote::Refused(why)),
        },
    }
}

/// Whether the disk is to have a file before the program goes on. The next compile makes compiled
/// scripts again, and these are many.
fn is_lasting(name: &str) -> bool
    ensures { result ≡ is_lasting name.now }
{
    !name.as_bytes().ends_with(b".ncs")
}

/// Writes a whole file under the first new name that nothing has.
#[tactic(auto, using(crate::proofs::NameLemmas::new_is_own))]
fn write_over<D: Disk>(
    disk: &mut D,
    alloc: Global,
    name: &str,
    like: Option<u32>,
    bytes: &[u8],
) -> Wrote
    ensures writes { IsTrue D.tells → map.get (D.names disk.old).modes name.now ≡ like →
        WritesWhole (D.names disk.old) (D.names disk.new) name.now bytes.now result }
{
    for number in 0..MOST_NEW_NAMES {
        let new = match new_name(alloc, name, number) {
            Ok(new) => new,
            Err(why) => return Wrote::Refused(why),
        };
        if new.as_str() == name {
            continue;
        }
        match write_whole(disk, new.as_str(), name, like, bytes) {
            Wrote::Taken => {}
            wrote => return wrote,
        }
    }
    Wrote::Taken
}

/// The fault of a write whose new names are all taken.
fn in_the_way(alloc: Global, name: &str) -> Fault {
    match new_name(alloc, name, 0) {
        Ok(new) => Fault::InTheWay(new),
        Err(why) => Fault::Failed(why),
    }
}

/// Puts these bytes in place of a regular file of this mode, or of nothing.
#[tactic(auto, using(crate::proofs::WritingLemmas::puts))]
fn put_over<D: Disk>(
    disk: &mut D,
    alloc: Global,
    name: &str,
    like: Option<u32>,
    bytes: &[u8],
) -> Result<(), Fault>
    ensures ok { IsTrue D.tells → map.get (D.names disk.old).modes name.now ≡ like →
        IfOk result (λ done. Replaces (D.names disk.old) (D.names disk.new) name.now bytes.now) }
    ensures err { IsTrue D.tells → map.get (D.names disk.old).modes name.now ≡ like →
        OnErr result (FallsShort (D.names disk.old) (D.names disk.new) name.now bytes.now) }
    ensures lasts { IsTrue D.tells → map.get (D.names disk.old).modes name.now ≡ like →
        IfOk result (λ done. Lasts (D.names disk.old) (D.names disk.new) name.now) }
{
    match write_over(disk, alloc, name, like, bytes) {
        Wrote::Whole if is_lasting(name) => Ok(disk.sync_folder(name)?),
        Wrote::Whole => Ok(()),
        Wrote::Fixed => Ok(disk.write_into(name, bytes)?),
        Wrote::Taken => Err(in_the_way(alloc, name)),
        Wrote::Refused(why) | Wrote::Left(why) => Err(Fault::Failed(why)),
    }
}

/// Puts these bytes under a name, in place of what was there.
#[tactic(auto, using(crate::proofs::WritingLemmas::puts))]
pub(crate) fn put_under<D: Disk>(
    disk: &mut D,
    alloc: Global,
    name: &str,
    bytes: &[u8],
) -> Result<(), Fault>
    ensures ok { IsTrue D.tells → IfOk result (λ done. Replaces (D.names disk.old)
        (D.names disk.new) (place_in (D.names disk.old) name.now) bytes.now) }
    ensures err { IsTrue D.tells → OnErr result (FallsShort (D.names disk.old)
        (D.names disk.new) (place_in (D.names disk.old) name.now) bytes.now) }
    ensures lasts { IsTrue D.tells → IfOk result (λ done. Lasts (D.names disk.old)
        (D.names disk.new) (place_in (D.names disk.old) name.now)) }
    ensures forbidden { IsTrue D.tells → KeepsForbidden (D.names disk.old)
        (D.names disk.new) (place_in (D.names disk.old) name.now) }
{
    match place_of(disk, alloc, name, MOST_LINKS)? {
        Place::Into(at) => Ok(disk.write_into(at.as_str(), bytes)?),
        Place::Over(at, like) => {
            if like.is_some() {
                disk.may_write(at.as_str())?;
            }
            put_over(disk, alloc, at.as_str(), like, bytes)
        }
    }
}
