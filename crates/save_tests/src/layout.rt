//! Where bytes stop being those of a state.

use crate::bases::WHOLE;
use crate::built::bytes;
use crate::change::{Answer, answer_of};
use std::alloc::Global;
use std::test::*;

/// A field: how many bytes it has, and the bytes that it may be where it tells what follows.
type Field = (usize, &'static [u8]);

/// The first bytes of a cell, a variable, an action and an entry.
const CELL: Field = (1, &[0x03, 0x05, 0x06, 0x10, 0x11]);

const VARIABLE: Field = (1, &[1, 3]);

const ITEM: Field = (1, &[0, 1, 2]);

const KIND: Field = (1, &[0, 1, 2, 3]);

/// A byte that says yes or no.
const FLAG: Field = (1, &[0, 1]);

/// Fields of so many bytes, and of blobs of 1 and 2 bytes.
const TWO: Field = (2, &[]);

const FOUR: Field = (4, &[]);

const EIGHT: Field = (8, &[]);

const BLOB_1: Field = (5, &[]);

const BLOB_2: Field = (6, &[]);

/// The fields of the state `WHOLE`.
const FIELDS: &[Field] = &[
    // Its name, no header, two scripts, and the area.
    EIGHT,
    FLAG,
    FOUR,
    BLOB_1,
    (4 + 401, &[]),
    BLOB_1,
    (4 + 33, &[]),
    (4 + 162, &[]),
    // The version, seven numbers, and two random ones.
    (1, &[]),
    EIGHT,
    EIGHT,
    EIGHT,
    EIGHT,
    EIGHT,
    EIGHT,
    EIGHT,
    FOUR,
    FOUR,
    FOUR,
    // Two objects, of which the first is busy and has two variables.
    FOUR,
    FLAG,
    FOUR,
    VARIABLE,
    BLOB_1,
    FOUR,
    VARIABLE,
    BLOB_1,
    BLOB_1,
    // Two effects stand on it, the first with a number, each with an int.
    FOUR,
    FLAG,
    EIGHT,
    TWO,
    FOUR,
    FOUR,
    FLAG,
    TWO,
    FOUR,
    FOUR,
    // Three actions; the first is a captured state of two globals and six locals.
    FOUR,
    ITEM,
    FOUR,
    FOUR,
    FOUR,
    CELL,
    FOUR,
    CELL,
    BLOB_1,
    FOUR,
    CELL,
    FOUR,
    CELL,
    BLOB_1,
    CELL,
    FOUR,
    CELL,
    TWO,
    FOUR,
    FOUR,
    CELL,
    FOUR,
    CELL,
    FOUR,
    ITEM,
    FOUR,
    ITEM,
    BLOB_2,
    // The second object isn't busy, and has nothing.
    FLAG,
    FOUR,
    FOUR,
    FOUR,
    // Four entries: a Turn, an Event, a Stored and an Unapply.
    FOUR,
    EIGHT,
    EIGHT,
    KIND,
    FOUR,
    EIGHT,
    EIGHT,
    KIND,
    FOUR,
    BLOB_1,
    FOUR,
    EIGHT,
    EIGHT,
    KIND,
    FOUR,
    FOUR,
    FOUR,
    FOUR,
    CELL,
    FOUR,
    CELL,
    BLOB_1,
    FOUR,
    CELL,
    FOUR,
    CELL,
    BLOB_1,
    CELL,
    FOUR,
    CELL,
    TWO,
    FOUR,
    FOUR,
    CELL,
    FOUR,
    CELL,
    FOUR,
    EIGHT,
    EIGHT,
    KIND,
    FOUR,
];

/// Whether the first `n` bytes stop at a place.
fn cut_stops(alloc: Global, bytes: &[u8], n: usize, place: usize) -> bool {
    n <= bytes.len() && answer_of(alloc, &bytes[..n]) == Answer::Place(place as u64)
}

/// Whether the bytes, cut anywhere within the field of this size, stop at its place.
fn cuts_stop(alloc: Global, bytes: &[u8], place: usize, size: usize) -> bool {
    for n in 0..size {
        if n > bytes.len() || place > bytes.len() || !cut_stops(alloc, bytes, place + n, place) {
            return false;
        }
    }
    true
}

/// The first field within which a cut doesn't stop where the field begins, counted from 0, or how
/// many fields there are where the bytes are those of all.
fn first_uncut(alloc: Global, bytes: &[u8]) -> usize {
    let mut place = 0;
    for (i, (size, _forms)) in FIELDS.iter().enumerate() {
        if place > bytes.len() || *size > bytes.len() || !cuts_stop(alloc, bytes, place, *size) {
            return i;
        }
        place += *size;
    }
    if place == bytes.len() {
        FIELDS.len()
    } else {
        0
    }
}

/// Bytes that may be in the place of one that tells what follows.
const OTHERS: &[u8] = &[0, 1, 2, 3, 4, 5, 6, 7, 15, 16, 17, 18, 128, 255];

/// Whether the bytes, with another byte at a place, stop there.
fn byte_stops(alloc: Global, bytes: &mut Vec<u8>, place: usize, byte: u8) -> bool {
    if place >= bytes.len() {
        return false;
    }
    let kept = bytes[place];
    bytes[place] = byte;
    let stops = answer_of(alloc, bytes.as_slice()) == Answer::Place(place as u64);
    if place < bytes.len() {
        bytes[place] = kept;
    }
    stops
}

/// Whether the bytes stop at a place at which stands any byte but these.
fn forms_stop(alloc: Global, bytes: &mut Vec<u8>, place: usize, forms: &[u8]) -> bool {
    for byte in OTHERS {
        if !forms.contains(byte) && !byte_stops(alloc, bytes, place, *byte) {
            return false;
        }
    }
    true
}

/// The first field that tells what follows and doesn't stop the bytes where it tells nothing, or
/// how many fields there are.
fn first_unformed(alloc: Global, bytes: &mut Vec<u8>) -> usize {
    let mut place = 0;
    for (i, (size, forms)) in FIELDS.iter().enumerate() {
        if place >= bytes.len() || *size > bytes.len() {
            return i;
        }
        if !forms.is_empty() && !forms_stop(alloc, bytes, place, forms) {
            return i;
        }
        place += *size;
    }
    FIELDS.len()
}

#[test]
fn cuts(rt: HostRuntime) -> Result<(), Fail> {
    let state = bytes(rt.alloc(), &WHOLE)?;
    assert_eq!(rt; first_uncut(rt.alloc(), state.as_slice()), FIELDS.len());
    Ok(())
}

#[test]
fn other_bytes(rt: HostRuntime) -> Result<(), Fail> {
    let mut state = bytes(rt.alloc(), &WHOLE)?;
    assert_eq!(rt; first_unformed(rt.alloc(), &mut state), FIELDS.len());
    let size = state.len();
    for at in 0..8 {
        assert!(rt; at < state.len());
        let kept = state[at];
        state[at] = b'?';
        assert!(rt; answer_of(rt.alloc(), state.as_slice()) == Answer::Place(0));
        state[at] = kept;
    }
    state.push(0)?;
    assert!(rt; answer_of(rt.alloc(), state.as_slice()) == Answer::Place(size as u64));
    Ok(())
}
