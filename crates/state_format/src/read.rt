//! The parts of a state, read from all of its bytes.

ghost use Rattle.std.specs.Prelude.{◌≡◌, MatchResult, length};
ghost use Rattle.state_format.specs.Place.{StateOf, Refuses};
ghost use Rattle.state_format.specs.Reading.{Gives, magic_at, maybe_at, blob_at, number_at};
ghost use Rattle.state_format.specs.Reading.{script_at, counts_at, parts_at, state_at};

use crate::counts::Counts;
use crate::fault::{ReadFault, Stop};
use crate::magic::MAGIC;
use crate::parts::{Entry, Object, Parts, Script};
use crate::stored::{Stored, blob, byte, list, small, wide, word};
use nwq_value::Items;
use std::alloc::Global;

/// The bytes behind the format's name.
#[tactic(auto, unfolding(crate::specs::Reading::magic_at))]
fn magic(bytes: &[u8]) -> Result<((), &[u8]), Stop>
    ensures read { Gives (λ x. (x.0, x.1.now)) result (magic_at bytes.now) }
{
    if bytes.len() < 8 {
        return Err(Stop::Left(bytes.len()));
    }
    let (front, rest) = bytes.split_at(8);
    if front == MAGIC.as_slice() {
        Ok(((), rest))
    } else {
        Err(Stop::Left(bytes.len()))
    }
}

/// The header's bytes, where it isn't the built-in one.
#[tactic(auto, unfolding(crate::specs::Reading::maybe_at))]
fn header(alloc: Global, bytes: &[u8]) -> Result<(Option<Items<u8>>, &[u8]), Stop>
    ensures read { Gives (λ x. (x.0, x.1.now)) result (maybe_at blob_at bytes.now) }
{
    let (form, rest) = byte(bytes)?;
    match form {
        0 => Ok((None, rest)),
        1 => {
            let (text, rest) = blob(alloc, rest)?;
            Ok((Some(text), rest))
        }
        _ => Err(Stop::Left(bytes.len())),
    }
}

#[tactic(auto, unfolding(crate::specs::Reading::script_at))]
fn script(alloc: Global, bytes: &[u8]) -> Result<(Script, &[u8]), Stop>
    ensures read { Gives (λ x. (x.0, x.1.now)) result (script_at bytes.now) }
{
    let (name, rest) = blob(alloc, bytes)?;
    let (code, rest) = blob(alloc, rest)?;
    Ok((Script { name, code }, rest))
}

impl Stored for Script {
    ghost use Rattle.state_format.specs.Reading.{script_at};

    ghost read_at = { script_at };

    fn take(alloc: Global, bytes: &[u8]) -> Result<(Script, &[u8]), Stop> {
        script(alloc, bytes)
    }
}

impl Stored for u32 {
    ghost use Rattle.state_format.specs.Reading.{number_at};

    ghost read_at = { number_at 4 };

    fn take(_alloc: Global, bytes: &[u8]) -> Result<(u32, &[u8]), Stop> {
        word(bytes)
    }
}

/// The version, and the limits and counts behind it.
#[tactic(auto, unfolding(crate::specs::Reading::counts_at))]
fn counts(bytes: &[u8]) -> Result<(Counts, &[u8]), Stop>
    ensures read { Gives (λ x. (x.0, x.1.now)) result (counts_at bytes.now) }
{
    let (version, rest) = small(bytes)?;
    let (limit, rest) = wide(rest)?;
    let (entries, rest) = wide(rest)?;
    let (until, rest) = wide(rest)?;
    let (clock, rest) = wide(rest)?;
    let (taken, rest) = wide(rest)?;
    let (done, rest) = wide(rest)?;
    let (next, rest) = wide(rest)?;
    Ok((
        Counts {
            version,
            limit,
            entries,
            until,
            clock,
            taken,
            done,
            next,
        },
        rest,
    ))
}

#[tactic(auto, unfolding(crate::specs::Reading::parts_at))]
fn parts(alloc: Global, bytes: &[u8]) -> Result<(Parts, &[u8]), Stop>
    ensures read { Gives (λ x. (x.0, x.1.now)) result (parts_at bytes.now) }
{
    let (_name, rest) = magic(bytes)?;
    let (header, rest) = header(alloc, rest)?;
    let (scripts, rest) = list(alloc, rest)?;
    let (area, rest) = blob(alloc, rest)?;
    let (counts, rest) = counts(rest)?;
    let (random, rest) = list(alloc, rest)?;
    let (objects, rest) = list(alloc, rest)?;
    let (agenda, rest) = list(alloc, rest)?;
    Ok((
        Parts {
            header,
            scripts,
            area,
            version: counts.version,
            limit: counts.limit,
            entries: counts.entries,
            until: counts.until,
            clock: counts.clock,
            taken: counts.taken,
            done: counts.done,
            next: counts.next,
            random,
            objects,
            agenda,
        },
        rest,
    ))
}

/// The parts of all the bytes, with nothing behind them.
#[tactic(auto, unfolding(crate::specs::Reading::state_at))]
fn state(alloc: Global, bytes: &[u8]) -> Result<Parts, Stop>
    ensures read { Gives (λ s. s) result (state_at bytes.now) }
{
    let (parts, rest) = parts(alloc, bytes)?;
    if rest.is_empty() {
        Ok(parts)
    } else {
        Err(Stop::Left(rest.len()))
    }
}

/// The parts that the bytes stand for, or the place at which they stop being those of a state.
pub fn read_parts(alloc: Global, bytes: &[u8]) -> Result<Parts, ReadFault>
    ensures exact { MatchResult result (λ s. StateOf bytes.now s) (λ e. Refuses bytes.now e) }
{
    match state(alloc, bytes) {
        Ok(parts) => Ok(parts),
        Err(Stop::NoMemory) => Err(ReadFault::NoMemory),
        Err(Stop::Left(left)) => Err(ReadFault::Place((bytes.len() - left) as u64)),
    }
}
