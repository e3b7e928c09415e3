//! What a state's fields hold, read from the front of bytes and written behind others.

ghost use Rattle.std.specs.Prelude.{◌≡◌, ◌++◌, ◌<◌, length, OnOk};
ghost use Rattle.state_format.specs.Fields.{joined};
ghost use Rattle.state_format.specs.Reading.{Gives, number_at, byte_at, blob_at, many, list_at};

use crate::fault::Stop;
use byteorder::{ByteOrder, LittleEndian};
use nwq_value::{Items, NoMemory};
use std::alloc::Global;

/// A part of a state that stands in its bytes as fields in a row.
pub(crate) trait Stored: Sized + Drop {
    ghost use Rattle.std.specs.Prelude.{ℕ, List, Result};
    ghost use Rattle.state_format.specs.Fields.{Fields};
    ghost use Rattle.state_format.specs.Reading.{Reader};

    ghost read_at: { Reader Self };

    /// The part that stands at the front of bytes, and the bytes behind it.
    fn take(alloc: Global, bytes: &[u8]) -> Result<(Self, &[u8]), Stop>
        ensures read { Gives (λ x. (x.0, x.1.now)) result (read_at bytes.now) };
}

/// The first byte, whatever it tells.
pub(crate) fn byte(bytes: &[u8]) -> Result<(u8, &[u8]), Stop>
    ensures read { Gives (λ x. (x.0, x.1.now)) result (byte_at bytes.now) }
{
    match bytes.split_first() {
        None => Err(Stop::Left(0)),
        Some((first, rest)) => Ok((*first, rest)),
    }
}

/// A number of one byte.
#[tactic(auto, unfolding(crate::specs::Reading::number_at))]
pub(crate) fn small(bytes: &[u8]) -> Result<(u8, &[u8]), Stop>
    ensures read { Gives (λ x. (x.0, x.1.now)) result (number_at 1 bytes.now) }
{
    if bytes.len() < 1 {
        return Err(Stop::Left(bytes.len()));
    }
    Ok((bytes[0], &bytes[1..]))
}

#[tactic(auto, unfolding(crate::specs::Reading::number_at))]
pub(crate) fn short(bytes: &[u8]) -> Result<(u16, &[u8]), Stop>
    ensures read { Gives (λ x. (x.0, x.1.now)) result (number_at 2 bytes.now) }
{
    if bytes.len() < 2 {
        return Err(Stop::Left(bytes.len()));
    }
    Ok((LittleEndian::read_u16(bytes), &bytes[2..]))
}

#[tactic(auto, unfolding(crate::specs::Reading::number_at))]
pub(crate) fn word(bytes: &[u8]) -> Result<(u32, &[u8]), Stop>
    ensures read { Gives (λ x. (x.0, x.1.now)) result (number_at 4 bytes.now) }
{
    if bytes.len() < 4 {
        return Err(Stop::Left(bytes.len()));
    }
    Ok((LittleEndian::read_u32(bytes), &bytes[4..]))
}

#[tactic(auto, unfolding(crate::specs::Reading::number_at))]
pub(crate) fn wide(bytes: &[u8]) -> Result<(u64, &[u8]), Stop>
    ensures read { Gives (λ x. (x.0, x.1.now)) result (number_at 8 bytes.now) }
{
    if bytes.len() < 8 {
        return Err(Stop::Left(bytes.len()));
    }
    Ok((LittleEndian::read_u64(bytes), &bytes[8..]))
}

/// Bytes behind their length.
#[tactic(auto, unfolding(crate::specs::Reading::blob_at))]
pub(crate) fn blob(alloc: Global, bytes: &[u8]) -> Result<(Items<u8>, &[u8]), Stop>
    ensures read { Gives (λ x. (x.0, x.1.now)) result (blob_at bytes.now) }
{
    let (count, rest) = word(bytes)?;
    let count = count as usize;
    if rest.len() < count {
        return Err(Stop::Left(bytes.len()));
    }
    let (text, rest) = rest.split_at(count);
    Ok((Items::of_slice(alloc, text)?, rest))
}

/// So many parts in a row.
fn members<T: Stored>(alloc: Global, count: u32, bytes: &[u8]) -> Result<(Items<T>, &[u8]), Stop>
    ensures read { Gives (λ x. (x.0, x.1.now)) result (many count T.read_at bytes.now) }
{
    let mut all = Items::new(alloc);
    let mut rest = bytes;
    for _done in 0..count {
        match T::take(alloc, rest) {
            Err(stop) => return Err(stop),
            Ok((member, next)) => {
                all.push(member)?;
                rest = next;
            }
        }
    }
    Ok((all, rest))
}

/// Parts in a row behind their count.
#[tactic(auto, unfolding(crate::specs::Reading::list_at))]
pub(crate) fn list<T: Stored>(alloc: Global, bytes: &[u8]) -> Result<(Items<T>, &[u8]), Stop>
    ensures read { Gives (λ x. (x.0, x.1.now)) result (list_at T.read_at bytes.now) }
{
    let (count, rest) = word(bytes)?;
    members(alloc, count, rest)
}
