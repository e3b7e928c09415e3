//! The state of a play as bytes.

use nwq_value::{Items, NoMemory};
use state_format::*;
use std::alloc::Global;
use std::test::*;

/// The state that docs/SAVES.md tells byte by byte.
const SMALL: [u8; 189] = [
    0x4e, 0x57, 0x51, 0x53, 0x41, 0x56, 0x45, 0x31, 0x00, 0x01, 0x00, 0x00, 0x00, 0x01, 0x00, 0x00,
    0x00, 0x70, 0x02, 0x00, 0x00, 0x00, 0x01, 0x02, 0x03, 0x00, 0x00, 0x00, 0x41, 0x52, 0x45, 0x02,
    0x00, 0x00, 0x02, 0x00, 0x00, 0x00, 0x00, 0x00, 0x10, 0x27, 0x00, 0x00, 0x00, 0x00, 0x00, 0x00,
    0x60, 0xea, 0x00, 0x00, 0x00, 0x00, 0x00, 0x00, 0x00, 0x00, 0x00, 0x00, 0x00, 0x00, 0x00, 0x00,
    0x01, 0x00, 0x00, 0x00, 0x00, 0x00, 0x00, 0x00, 0x09, 0x00, 0x00, 0x00, 0x00, 0x00, 0x00, 0x00,
    0x02, 0x00, 0x00, 0x00, 0x00, 0x00, 0x00, 0x00, 0x01, 0x00, 0x00, 0x00, 0x07, 0x00, 0x00, 0x00,
    0x01, 0x00, 0x00, 0x00, 0x01, 0x01, 0x00, 0x00, 0x00, 0x01, 0x01, 0x00, 0x00, 0x00, 0x6e, 0xff,
    0xff, 0xff, 0xff, 0x01, 0x00, 0x00, 0x00, 0x01, 0x01, 0x00, 0x00, 0x00, 0x00, 0x00, 0x00, 0x00,
    0x03, 0x00, 0x00, 0x00, 0x00, 0x00, 0x01, 0x00, 0x00, 0x00, 0x01, 0xf4, 0x01, 0x00, 0x00, 0x01,
    0x00, 0x00, 0x00, 0xe8, 0x03, 0x00, 0x00, 0x00, 0x00, 0x00, 0x00, 0x00, 0x00, 0x00, 0x00, 0x00,
    0x00, 0x00, 0x00, 0x01, 0x01, 0x00, 0x00, 0x00, 0x00, 0x00, 0x00, 0x00, 0x15, 0x00, 0x00, 0x00,
    0x00, 0x00, 0x00, 0x00, 0x01, 0x00, 0x00, 0x00, 0x06, 0x01, 0x00, 0x00, 0x00,
];

/// Where its fields begin.
const STARTS: [usize; 41] = [
    0, 8, 9, 13, 18, 24, 31, 32, 40, 48, 56, 64, 72, 80, 88, 92, 96, 100, 101, 105, 106, 111, 115,
    119, 120, 128, 130, 134, 138, 139, 143, 147, 155, 163, 164, 168, 172, 176, 180, 184, 185,
];

/// Where a byte of it tells what follows.
const FORMS: [usize; 7] = [8, 100, 105, 119, 138, 163, 184];

/// A list of one member.
fn one<T: Drop>(alloc: Global, member: T) -> Result<Items<T>, NoMemory> {
    let mut members = Items::new(alloc);
    members.push(member)?;
    Ok(members)
}

fn small_object(alloc: Global) -> Result<Object, NoMemory> {
    let name = Items::of_slice(alloc, b"n".as_slice())?;
    let variables = one(alloc, Variable::Int(name, -1))?;
    let effect = Effect {
        routine: 3,
        ints: Items::new(alloc),
    };
    let effects = one(
        alloc,
        Standing {
            number: Some(1),
            effect,
        },
    )?;
    let items = one(alloc, Item::Wait(500))?;
    Ok(Object {
        busy: true,
        variables,
        effects,
        items,
    })
}

fn small_entry(alloc: Global) -> Result<Entry, NoMemory> {
    let locals = one(alloc, Cell::Object(1))?;
    let state = Captured {
        script: 0,
        place: 21,
        globals: Items::new(alloc),
        locals,
    };
    Ok(Entry {
        due: 1000,
        number: 0,
        kind: KindPart::Stored { object: 1, state },
    })
}

fn small(alloc: Global) -> Result<Parts, NoMemory> {
    let name = Items::of_slice(alloc, b"p".as_slice())?;
    let code = Items::of_slice(alloc, [1, 2].as_slice())?;
    let scripts = one(alloc, Script { name, code })?;
    let area = Items::of_slice(alloc, b"ARE".as_slice())?;
    let random = one(alloc, 7)?;
    let objects = one(alloc, small_object(alloc)?)?;
    let agenda = one(alloc, small_entry(alloc)?)?;
    Ok(Parts {
        header: None,
        scripts,
        area,
        version: 2,
        limit: 131_072,
        entries: 10_000,
        until: 60_000,
        clock: 0,
        taken: 1,
        done: 9,
        next: 2,
        random,
        objects,
        agenda,
    })
}

/// The place at which bytes are refused.
fn place_of(read: Result<Parts, ReadFault>) -> Option<u64> {
    match read {
        Err(ReadFault::Place(at)) => Some(at),
        Err(ReadFault::NoMemory) => None,
        Ok(parts) => {
            drop(parts);
            None
        }
    }
}

/// Where the last field begins that begins there or before.
fn last_start(n: usize) -> u64 {
    let mut last = 0;
    for start in STARTS.iter() {
        if *start <= n {
            last = *start;
        }
    }
    last as u64
}

/// Whether the state stops, wherever it is cut, at the field that is cut.
fn cuts_stop(alloc: Global) -> bool {
    for n in 0..SMALL.len() {
        if place_of(read_parts(alloc, &SMALL[..n])) != Some(last_start(n)) {
            return false;
        }
    }
    true
}

/// Whether the state stops at each byte that tells what follows, where it tells nothing.
fn forms_stop(alloc: Global) -> bool {
    for at in FORMS.iter() {
        let mut bytes = SMALL;
        if *at >= bytes.len() {
            return false;
        }
        bytes[*at] = 200;
        if place_of(read_parts(alloc, bytes.as_slice())) != Some(*at as u64) {
            return false;
        }
    }
    true
}

/// What is written of what is read.
fn written_again(alloc: Global, bytes: &[u8]) -> Option<Vec<u8>> {
    match read_parts(alloc, bytes) {
        Err(_) => None,
        Ok(parts) => put_parts(alloc, &parts).ok(),
    }
}

#[test]
fn a_state_is_its_bytes(rt: HostRuntime) -> Result<(), Fail> {
    let parts = small(rt.alloc())?;
    match put_parts(rt.alloc(), &parts) {
        Ok(bytes) => assert!(rt; bytes.as_slice() == SMALL.as_slice()),
        Err(_) => assert!(rt; false),
    }
    match written_again(rt.alloc(), SMALL.as_slice()) {
        Some(bytes) => assert!(rt; bytes.as_slice() == SMALL.as_slice()),
        None => assert!(rt; false),
    }
    Ok(())
}

#[test]
fn other_bytes_stop_at_a_field(rt: HostRuntime) -> Result<(), Fail> {
    assert!(rt; cuts_stop(rt.alloc()));
    assert!(rt; forms_stop(rt.alloc()));
    let mut longer = Vec::from_slice(rt.alloc(), SMALL.as_slice())?;
    longer.push(0)?;
    let place = place_of(read_parts(rt.alloc(), longer.as_slice()));
    assert_eq!(rt; place, Some(SMALL.len() as u64));
    Ok(())
}
