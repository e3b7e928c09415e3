//! Captured states against the table of the file that stores them.
use engine_table::built_in;
use ncs_file::load;
use ncs_text::assemble;
use nwq_value::{FILE_BYTES, NoMemory, Text, Value};
use saved_state::{Cell, Cells, Saved};
use stack_check::{Checked, check};
use std::alloc::Global;
use std::test::*;

/// What a cell of a state is.
#[derive(Clone, Copy)]
enum Kind {
    Int,
    Text,
    Object,
    Base,
}

/// A state that resumes at a place, with cells in the order of their places.
#[derive(Clone, Copy)]
struct State {
    place: u32,
    globals: &'static [Kind],
    locals: &'static [Kind],
}

const fn resuming(place: u32, globals: &'static [Kind], locals: &'static [Kind]) -> State {
    State {
        place,
        globals,
        locals,
    }
}

/// A global int and a local string are stored at 19, and nothing else is.
const STORES: &[u8] = b"RSADD 03\nSAVEBP 00\nRSADD 05\nSTORE_STATE 10 4 4\nJMP 00 @50\n\
      CPTOPSP 01 -4 4\nACTION 00 1 1\nRETN 00\n\
      CONST 06 0\nACTION 00 6 2\nMOVSP 00 -4\nRESTOREBP 00\nMOVSP 00 -4\nRETN 00\n";

/// Two locals are stored at 17: an int, and a string over it.
const TWO: &[u8] = b"RSADD 03\nRSADD 05\nSTORE_STATE 10 0 8\nJMP 00 @35\nRETN 00\nRETN 00\n";

/// Nothing comes to what is stored at 15.
const NEVER: &[u8] = b"RETN 00\nSTORE_STATE 10 0 0\nJMP 00 @33\nRETN 00\nRETN 00\n";

/// A state without cells is stored at 13.
const EMPTY: &[u8] = b"STORE_STATE 10 0 0\nJMP 00 @31\nRETN 00\nRETN 00\n";

fn checked(alloc: Global, text: &[u8]) -> Result<Option<Checked>, NoMemory> {
    let table = built_in(alloc)?;
    if text.len() > FILE_BYTES {
        return Ok(None);
    }
    match assemble(alloc, text) {
        Err(_) => Ok(None),
        Ok(file) => {
            if file.len() > FILE_BYTES {
                return Ok(None);
            }
            match load(alloc, file) {
                Err(_) => Ok(None),
                Ok(code) => Ok(check(alloc, code, &table).ok()),
            }
        }
    }
}

fn cell(alloc: Global, kind: Kind) -> Result<Cell, NoMemory> {
    match kind {
        Kind::Int => Ok(Cell::Value(Value::Int(1))),
        Kind::Text => Ok(Cell::Value(Value::Text(Text::empty(alloc)?))),
        Kind::Object => Ok(Cell::Value(Value::Object(1))),
        Kind::Base => Ok(Cell::Base(0)),
    }
}

fn cells(alloc: Global, kinds: &[Kind]) -> Result<Cells, NoMemory> {
    let mut cells = Cells::new(alloc);
    for kind in kinds {
        cells.push(cell(alloc, *kind)?)?;
    }
    Ok(cells)
}

/// The number of the first state of which the file's table says otherwise, counted from 0, or their
/// count.
fn first_other(
    alloc: Global,
    text: &[u8],
    states: &[State],
    wanted: bool,
) -> Result<usize, NoMemory> {
    let Some(code) = checked(alloc, text)? else {
        return Err(NoMemory);
    };
    for (i, state) in states.iter().enumerate() {
        let saved = Saved {
            script: 0,
            place: state.place,
            globals: cells(alloc, state.globals)?,
            locals: cells(alloc, state.locals)?,
        };
        if code.fits(&saved) != wanted {
            return Ok(i);
        }
    }
    Ok(states.len())
}

#[test]
fn what_is_stored_fits(rt: HostRuntime) -> Result<(), Fail> {
    let stores = [resuming(35, &[Kind::Int], &[Kind::Text])];
    assert_eq!(rt; first_other(rt.alloc(), STORES, &stores, true)?, 1);
    let two = [resuming(33, &[], &[Kind::Int, Kind::Text])];
    assert_eq!(rt; first_other(rt.alloc(), TWO, &two, true)?, 1);
    let empty = [resuming(29, &[], &[])];
    assert_eq!(rt; first_other(rt.alloc(), EMPTY, &empty, true)?, 1);
    Ok(())
}

#[test]
fn other_cells_do_not_fit(rt: HostRuntime) -> Result<(), Fail> {
    let stores = [
        // The globals alone have their types.
        resuming(35, &[Kind::Int], &[Kind::Int]),
        resuming(35, &[Kind::Int], &[]),
        resuming(35, &[Kind::Int], &[Kind::Text, Kind::Text]),
        resuming(35, &[Kind::Int], &[Kind::Base]),
        // The locals alone have their types.
        resuming(35, &[Kind::Object], &[Kind::Text]),
        resuming(35, &[], &[Kind::Text]),
        resuming(35, &[Kind::Int, Kind::Int], &[Kind::Text]),
        resuming(35, &[Kind::Base], &[Kind::Text]),
        // The one in the other's place.
        resuming(35, &[Kind::Text], &[Kind::Int]),
        // A base and the globals among the locals.
        resuming(35, &[Kind::Int], &[Kind::Int, Kind::Base, Kind::Text]),
    ];
    assert_eq!(rt;
        first_other(rt.alloc(), STORES, &stores, false)?,
        stores.len()
    );
    let two = [
        resuming(33, &[], &[Kind::Text, Kind::Int]),
        resuming(33, &[Kind::Int], &[Kind::Text]),
    ];
    assert_eq!(rt; first_other(rt.alloc(), TWO, &two, false)?, two.len());
    Ok(())
}

#[test]
fn other_places_do_not_fit(rt: HostRuntime) -> Result<(), Fail> {
    let stores = [
        resuming(0, &[Kind::Int], &[Kind::Text]),
        resuming(15, &[Kind::Int], &[Kind::Text]),
        resuming(19, &[Kind::Int], &[Kind::Text]),
        resuming(34, &[Kind::Int], &[Kind::Text]),
        resuming(36, &[Kind::Int], &[Kind::Text]),
        // Within the stored code.
        resuming(43, &[Kind::Int], &[Kind::Text]),
        resuming(u32::MAX, &[Kind::Int], &[Kind::Text]),
    ];
    assert_eq!(rt;
        first_other(rt.alloc(), STORES, &stores, false)?,
        stores.len()
    );
    let never = [resuming(31, &[], &[])];
    assert_eq!(rt; first_other(rt.alloc(), NEVER, &never, false)?, 1);
    // Where the script begins.
    let empty = [resuming(13, &[], &[])];
    assert_eq!(rt; first_other(rt.alloc(), EMPTY, &empty, false)?, 1);
    Ok(())
}
