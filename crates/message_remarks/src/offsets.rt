//! Routines of binaries, by their offsets.

use crate::callers::Caller;
use play_remarks::{Remark, Spot};

/// Where the code begins in a file of bytecode.
pub(crate) const FIRST: u32 = 13;

/// The bytes of an instruction that calls a routine.
const JSR: [u8; 2] = [0x1e, 0x00];

const JSR_BYTES: u32 = 6;

/// How many bytes a call of the engine has.
const ACTION_BYTES: u32 = 5;

/// How many bytes before a deferred action's code the instruction stands that deferred it.
pub(crate) const DEFERRING: u32 = 16;

/// The bytes before a place, as many as a call of a routine has.
fn bytes_before(bytes: &[u8], place: u32) -> &[u8] {
    let end = (place as usize).min(bytes.len());
    let start = end.saturating_sub(JSR_BYTES as usize);
    &bytes[start..end]
}

/// The place of the routine that is called by the instruction before a place, if that calls one.
fn called_before(bytes: &[u8], place: u32) -> Option<u32> {
    match bytes_before(bytes, place) {
        [one, two, a, b, c, d] if *one == JSR[0] && *two == JSR[1] => {
            let offset = u32::from_be_bytes([*a, *b, *c, *d]);
            Some(place.wrapping_sub(JSR_BYTES).wrapping_add(offset))
        }
        _ => None,
    }
}

/// Where the call stands behind which a frame goes on: one of a routine, or of the engine.
pub(crate) fn call_before(bytes: &[u8], place: u32) -> u32 {
    match called_before(bytes, place) {
        Some(_) => place.saturating_sub(JSR_BYTES),
        None => place.saturating_sub(ACTION_BYTES),
    }
}

/// Where the routine begins that runs at a place of a script, by the place at which the call around
/// it goes on. A script that another one runs begins with its first instruction.
fn routine(bytes: &[u8], script: u32, outer: Option<Spot>, begun: Spot) -> u32 {
    match outer {
        None => begun.place,
        Some(outer) if outer.script == script => match called_before(bytes, outer.place) {
            Some(place) => place,
            None => FIRST,
        },
        Some(_) => FIRST,
    }
}

/// Where the routine begins in which an entry ended.
pub(crate) fn routine_of(bytes: &[u8], remark: &Remark) -> u32 {
    let outer = remark.returns.as_slice().first().copied();
    routine(bytes, remark.at.script, outer, remark.begun)
}

/// Where the routine begins that made a call.
pub(crate) fn routine_around(bytes: &[u8], caller: Caller, begun: Spot) -> u32 {
    routine(bytes, caller.behind.script, caller.outer, begun)
}
