//! Where the bytes of a name are to go, and the names beside a name.

ghost use Rattle.std.specs.Prelude.{◌≡◌, IsTrue, IfOk, string_bytes};
ghost use Rattle.real_files.specs.Disk.{beside, follow};
ghost use Rattle.real_files.specs.Writing.{IsPlace, new_name};

use crate::disk::{Disk, Failure, Thing};
use crate::paths::beside;
use std::alloc::Global;
use std::io::ErrorKind;

/// Where bytes are to go.
#[derive(Drop)]
pub(crate) enum Place {
    /// Into what has this name.
    Into(String),
    /// Over a regular file of this name and mode, or over nothing.
    Over(String, Option<u32>),
}

/// The name of these bytes.
fn name_of(bytes: Vec<u8>) -> Result<String, Failure>
    ensures name { IfOk result (λ name. string_bytes name ≡ bytes.items) }
{
    match String::from_utf8(bytes) {
        Ok(name) => Ok(name),
        Err(_) => Err(Failure::Kind(ErrorKind::InvalidData)),
    }
}

/// The name that a text leads to from the folder of a name.
fn name_beside(alloc: Global, name: &str, text: &[u8]) -> Result<String, Failure>
    ensures beside { IfOk result (λ other. string_bytes other ≡ beside name.now text.now) }
{
    name_of(beside(alloc, name.as_bytes(), text)?)
}

/// The new name of this number, beside a name. No script has one, nor an include: theirs have no
/// such sign.
pub(crate) fn new_name(alloc: Global, name: &str, number: u32) -> Result<String, Failure>
    ensures new { IfOk result (λ new. string_bytes new ≡ new_name number name.now) }
{
    let new = format!(in alloc; "{number}.nwq-new.tmp")?;
    name_beside(alloc, name, new.as_bytes())
}

/// Where the bytes of a name are to go, which leads on by so many links at most.
#[tactic(auto, using(crate::proofs::NameLemmas::places))]
pub(crate) fn place_of<D: Disk>(
    disk: &mut D,
    alloc: Global,
    name: &str,
    links: u32,
) -> Result<Place, Failure>
    ensures place { IsTrue D.tells → IfOk result (IsPlace (D.names disk.old)
        (follow links (D.names disk.old).links name.now)) }
    ensures same { D.names disk.new ≡ D.names disk.old }
{
    match disk.look(alloc, name)? {
        Thing::Nothing => Ok(Place::Over(String::from_str(alloc, name)?, None)),
        Thing::File(mode) => Ok(Place::Over(String::from_str(alloc, name)?, Some(mode))),
        Thing::Other => Ok(Place::Into(String::from_str(alloc, name)?)),
        Thing::Link(_) if links == 0 => Err(Failure::Kind(ErrorKind::FilesystemLoop)),
        Thing::Link(text) => {
            let next = name_beside(alloc, name, text.as_slice())?;
            place_of(disk, alloc, next.as_str(), links - 1)
        }
    }
}
