//! Calls under way, those of one place together.

ghost use Rattle.std.specs.Prelude.{◌<◌, length, IfSome};

use crate::codes::Code;
use nwq_value::NoMemory;
use play_remarks::{Remark, Spot};
use run_places::function_at;
use std::alloc::Global;

/// Calls under way that go on at one place.
#[derive(Clone, Copy)]
pub(crate) struct Caller {
    pub behind: Spot,
    /// Where the call around the innermost of them goes on, if one waits for it.
    pub outer: Option<Spot>,
    pub count: u64,
}

/// How many calls of a function are under way.
#[derive(Clone, Copy)]
pub(crate) struct Tally<'a> {
    pub script: u32,
    pub name: &'a [u8],
    pub count: u64,
}

fn found(callers: &[Caller], behind: Spot) -> Option<usize>
    ensures { IfSome result (λ i. i < length callers.now) }
{
    for (i, caller) in callers.iter().enumerate() {
        if caller.behind == behind {
            return Some(i);
        }
    }
    None
}

fn add_call(callers: &mut Vec<Caller>, behind: Spot, outer: Option<Spot>) -> Result<(), NoMemory> {
    match found(callers.as_slice(), behind) {
        Some(i) => {
            let mut caller = callers[i];
            caller.count = caller.count.saturating_add(1);
            callers[i] = caller;
        }
        None => {
            callers.push(Caller {
                behind,
                outer,
                count: 1,
            })?;
        }
    }
    Ok(())
}

/// The calls under way, innermost first.
pub(crate) fn callers_of(alloc: Global, returns: &[Spot]) -> Result<Vec<Caller>, NoMemory> {
    let mut callers = Vec::new(alloc);
    for (i, behind) in returns.iter().enumerate() {
        let outer = returns.get(i.saturating_add(1)).copied();
        add_call(&mut callers, *behind, outer)?;
    }
    Ok(callers)
}

/// The function whose code a place lies in, where the script's sources are there.
pub(crate) fn function_of(codes: &[Code], spot: Spot) -> Option<&[u8]> {
    match codes.get(spot.script as usize) {
        Some(Code::Source(script)) => function_at(script, spot.place),
        _ => None,
    }
}

fn tallied(tallies: &[Tally<'_>], script: u32, name: &[u8]) -> Option<usize>
    ensures { IfSome result (λ i. i < length tallies.now) }
{
    for (i, tally) in tallies.iter().enumerate() {
        if tally.script == script && tally.name == name {
            return Some(i);
        }
    }
    None
}

fn add_tally<'a>(tallies: &mut Vec<Tally<'a>>, added: Tally<'a>) -> Result<(), NoMemory> {
    match tallied(tallies.as_slice(), added.script, added.name) {
        Some(i) => {
            let mut tally = tallies[i];
            tally.count = tally.count.saturating_add(added.count);
            tallies[i] = tally;
        }
        None => tallies.push(added)?,
    }
    Ok(())
}

/// Counts calls of the function that a place lies in.
fn count_calls<'a>(
    tallies: &mut Vec<Tally<'a>>,
    codes: &'a [Code],
    spot: Spot,
    count: u64,
) -> Result<(), NoMemory> {
    match function_of(codes, spot) {
        None => Ok(()),
        Some(name) => add_tally(
            tallies,
            Tally {
                script: spot.script,
                name,
                count,
            },
        ),
    }
}

/// The place of the last byte of the instruction before this one.
pub(crate) fn before(spot: Spot) -> Spot {
    Spot {
        script: spot.script,
        place: spot.place.saturating_sub(1),
    }
}

/// The functions that are under way, and how often.
fn tallies_of<'a>(
    alloc: Global,
    codes: &'a [Code],
    at: Spot,
    callers: &[Caller],
) -> Result<Vec<Tally<'a>>, NoMemory> {
    let mut tallies = Vec::new(alloc);
    count_calls(&mut tallies, codes, at, 1)?;
    for caller in callers {
        count_calls(&mut tallies, codes, before(caller.behind), caller.count)?;
    }
    Ok(tallies)
}

/// The function of which most calls are under way, where that are two or more.
pub(crate) fn most_called<'a>(
    alloc: Global,
    codes: &'a [Code],
    remark: &Remark,
    callers: &[Caller],
) -> Result<Option<Tally<'a>>, NoMemory> {
    let tallies = tallies_of(alloc, codes, remark.at, callers)?;
    let mut most = None;
    let mut count = 1u64;
    for tally in tallies.as_slice() {
        if tally.count > count {
            count = tally.count;
            most = Some(*tally);
        }
    }
    Ok(most)
}
