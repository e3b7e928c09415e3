//! States with a byte changed: each is refused, or the play goes on from it.

ghost use Rattle.hook_table.specs.InHooks.{known_by};
ghost use Rattle.world_core.specs.Calls.{AreServing};

use crate::built::bytes;
use crate::going::{go_on_from, is_written};
use crate::sketch::Sketch;
use hook_table::Hooks;
use module_player::How;
use nwq_outside::MemSink;
use nwq_value::{FILE_BYTES, NoMemory};
use play_save::{State, StateFault, read_state};
use std::alloc::Global;

/// Whether a play goes on from a state, and comes to no fault.
fn is_played(alloc: Global, state: State, hooks: &Hooks) -> bool
    requires hooks { AreServing (known_by hooks.now) }
{
    let mut out = MemSink::new(alloc);
    match go_on_from(alloc, state, hooks, &mut out) {
        None => false,
        Some(played) => !matches!(played.how, How::Fault | How::NoMemory),
    }
}

/// Whether a state is written as the bytes that it was read from, and a play goes on from it.
fn stands(alloc: Global, state: State, bytes: &[u8], hooks: &Hooks) -> bool
    requires hooks { AreServing (known_by hooks.now) }
{
    let written = is_written(alloc, &state, bytes);
    is_played(alloc, state, hooks) && written
}

/// Whether a play goes on from these bytes; `None` where they are neither refused nor those of a
/// state that stands.
fn tried(alloc: Global, bytes: &[u8], hooks: &Hooks) -> Option<bool>
    requires hooks { AreServing (known_by hooks.now) }
{
    if bytes.len() > FILE_BYTES {
        return None;
    }
    match read_state(alloc, bytes) {
        Err(StateFault::NoMemory) => None,
        Err(_) => Some(false),
        Ok(state) => {
            if stands(alloc, state, bytes, hooks) {
                Some(true)
            } else {
                None
            }
        }
    }
}

/// The same with another byte at a place.
fn tried_with(
    alloc: Global,
    bytes: &mut Vec<u8>,
    place: usize,
    byte: u8,
    hooks: &Hooks,
) -> Option<bool>
    requires hooks { AreServing (known_by hooks.now) }
{
    if place >= bytes.len() {
        return None;
    }
    let kept = bytes[place];
    bytes[place] = byte;
    let found = tried(alloc, bytes.as_slice(), hooks);
    if place < bytes.len() {
        bytes[place] = kept;
    }
    found
}

/// The next of a row of numbers.
fn next(number: u32) -> u32 {
    number.wrapping_mul(1_664_525).wrapping_add(1_013_904_223)
}

/// From how many of 250 changed states plays go on; `None` where one neither is refused nor
/// stands. A row of numbers gives the place of each change, and the byte.
fn count(alloc: Global, bytes: &mut Vec<u8>, first: u32, hooks: &Hooks) -> Option<u32>
    requires hooks { AreServing (known_by hooks.now) }
{
    let mut number = first;
    let mut played = 0u32;
    for _change in 0..250 {
        if bytes.is_empty() {
            return None;
        }
        let place = (number >> 8) as usize % bytes.len();
        number = next(number);
        match tried_with(alloc, bytes, place, (number >> 24) as u8, hooks) {
            None => return None,
            Some(true) => played = played.wrapping_add(1),
            Some(false) => {}
        }
        number = next(number);
    }
    Some(played)
}

/// Whether a state stands itself, and of its changes some do and some are refused.
pub fn all_stand(
    alloc: Global,
    sketch: &Sketch,
    first: u32,
    hooks: &Hooks,
) -> Result<bool, NoMemory>
    requires hooks { AreServing (known_by hooks.now) }
{
    let mut bytes = bytes(alloc, sketch)?;
    let itself = tried(alloc, bytes.as_slice(), hooks);
    match count(alloc, &mut bytes, first, hooks) {
        None => Ok(false),
        Some(played) => Ok(itself == Some(true) && 10 < played && played < 200),
    }
}
