//! What is changed of a state, and what the changed one answers.

use crate::bases::WHOLE;
use crate::built::bytes;
use crate::sketch::{
    Besides, Captured, Cell, Code, Entry, Item, Kind, Object, Script, Sketch, Variable, Words,
};
use nwq_value::{FILE_BYTES, NoMemory};
use play_save::{StateFault, read_state};
use std::alloc::Global;

/// What stands in the place of a part, or behind the state's own parts: a script of a name or of a
/// code file, variables and actions of the first object, and an entry, which is due at 3,500 under
/// number 7 where it isn't told otherwise. A `State` is stored by that entry.
#[derive(Clone, Copy)]
pub enum Change {
    Header(&'static [u8]),
    Scripts(&'static [Script]),
    More(usize),
    Area(&'static [u8]),
    Version(u8),
    Limit(u64),
    Entries(u64),
    Until(u64),
    Clock(u64),
    Taken(u64),
    Done(u64),
    Next(u64),
    Random(usize),
    Objects(&'static [Object]),
    Agenda(&'static [Entry]),
    Named(Words),
    Coded(Code),
    Has(&'static [Variable]),
    Does(&'static [Item]),
    Waits(Kind),
    Due(u64),
    Number(u64),
    State(u32, u32, &'static [Cell], &'static [Cell]),
}

#[derive(Clone, Copy, PartialEq, Eq)]
pub enum Answer {
    Accepted,
    Place(u64),
    Unfit(u8),
    NoMemory,
}

/// A name, what is changed of the state `WHOLE`, and what is answered.
pub type Row = (&'static str, &'static [Change], Answer);

fn put_part(sketch: &mut Sketch, change: Change) {
    match change {
        Change::Header(text) => sketch.header = Some(text),
        Change::Scripts(scripts) => sketch.scripts = scripts,
        Change::More(count) => sketch.more = count,
        Change::Area(bytes) => sketch.area = bytes,
        Change::Version(n) => sketch.version = n,
        Change::Limit(n) => sketch.limit = n,
        Change::Entries(n) => sketch.entries = n,
        Change::Until(n) => sketch.until = n,
        Change::Clock(n) => sketch.clock = n,
        Change::Taken(n) => sketch.taken = n,
        Change::Done(n) => sketch.done = n,
        Change::Next(n) => sketch.next = n,
        Change::Random(count) => sketch.random = count,
        Change::Objects(objects) => sketch.objects = objects,
        Change::Agenda(entries) => sketch.agenda = entries,
        _ => {}
    }
}

fn put_behind(besides: &mut Besides, change: Change) {
    match change {
        Change::Named(name) => besides.script = Some(Script(name, Code::Prints)),
        Change::Coded(code) => besides.script = Some(Script(Words(b"r", 1), code)),
        Change::Has(variables) => besides.variables = variables,
        Change::Does(items) => besides.items = items,
        Change::Waits(kind) => besides.entry = Some(Entry(3_500, 7, kind)),
        Change::Due(due) => besides.entry = Some(Entry(due, 7, Kind::Unapply(1))),
        Change::Number(number) => besides.entry = Some(Entry(3_500, number, Kind::Unapply(1))),
        Change::State(script, place, globals, locals) => {
            let state = Captured(script, place, globals, locals);
            besides.entry = Some(Entry(3_500, 7, Kind::Stored(1, state)));
        }
        _ => {}
    }
}

fn of_changes(changes: &[Change]) -> Sketch {
    let mut sketch = WHOLE;
    for change in changes {
        put_part(&mut sketch, *change);
        put_behind(&mut sketch.besides, *change);
    }
    sketch
}

/// What reading these bytes as a state answers.
pub fn answer_of(alloc: Global, bytes: &[u8]) -> Answer {
    if bytes.len() > FILE_BYTES {
        return Answer::NoMemory;
    }
    match read_state(alloc, bytes) {
        Ok(state) => {
            drop(state);
            Answer::Accepted
        }
        Err(StateFault::Place(at)) => Answer::Place(at),
        Err(StateFault::Unfit(rule)) => Answer::Unfit(rule),
        Err(StateFault::NoMemory) => Answer::NoMemory,
    }
}

/// The name of the first row that is answered otherwise; none where all are answered so.
pub fn first_other(alloc: Global, rows: &[Row]) -> Result<&'static str, NoMemory> {
    for (name, changes, wanted) in rows {
        let sketch = of_changes(changes);
        let bytes = bytes(alloc, &sketch)?;
        if answer_of(alloc, bytes.as_slice()) != *wanted {
            return Ok(*name);
        }
    }
    Ok("")
}
