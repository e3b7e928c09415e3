//! The bytes of states that tables write.

use crate::bases::{DEEP, DELAYS, NOTHING, PRINTS, TELLS};
use crate::sketch;
use crate::sketch::{Code, Sketch, Words};
use ncs_text::assemble;
use nwq_value::{Items, NoMemory};
use state_format::*;
use std::alloc::Global;

fn text(alloc: Global, words: Words) -> Result<Items<u8>, NoMemory> {
    let mut out = Items::new(alloc);
    for _time in 0..words.1 {
        out.extend(words.0)?;
    }
    Ok(out)
}

/// The code file that an assembler text stands for.
fn assembled(alloc: Global, text: &[u8]) -> Result<Items<u8>, NoMemory> {
    if text.len() > 65_536 {
        return Err(NoMemory);
    }
    match assemble(alloc, text) {
        Ok(file) => Ok(Items::of_vec(file)),
        Err(_) => Err(NoMemory),
    }
}

fn code(alloc: Global, code: Code) -> Result<Items<u8>, NoMemory> {
    match code {
        Code::Tells => assembled(alloc, TELLS),
        Code::Prints => assembled(alloc, PRINTS),
        Code::Delays => assembled(alloc, DELAYS),
        Code::Nothing => assembled(alloc, NOTHING),
        Code::Deep => assembled(alloc, DEEP),
        Code::Text(text) => assembled(alloc, text),
        Code::Bytes(bytes) => Items::of_slice(alloc, bytes),
    }
}

/// The name of one of the further scripts: two letters.
fn name(alloc: Global, number: usize) -> Result<Items<u8>, NoMemory> {
    let mut out = Items::new(alloc);
    out.push(b'a' + (number / 16 % 16) as u8)?;
    out.push(b'a' + (number % 16) as u8)?;
    Ok(out)
}

fn script(alloc: Global, script: sketch::Script) -> Result<Script, NoMemory> {
    let name = text(alloc, script.0)?;
    let code = code(alloc, script.1)?;
    Ok(Script { name, code })
}

fn nothing(alloc: Global, number: usize) -> Result<Script, NoMemory> {
    let name = name(alloc, number)?;
    let code = code(alloc, Code::Nothing)?;
    Ok(Script { name, code })
}

fn put_scripts(
    alloc: Global,
    scripts: &[sketch::Script],
    out: &mut Items<Script>,
) -> Result<(), NoMemory> {
    for part in scripts {
        out.push(script(alloc, *part)?)?;
    }
    Ok(())
}

fn put_all_scripts(
    alloc: Global,
    sketch: &Sketch,
    out: &mut Items<Script>,
) -> Result<(), NoMemory> {
    put_scripts(alloc, sketch.scripts, out)?;
    if let Some(part) = sketch.besides.script {
        out.push(script(alloc, part)?)?;
    }
    for number in 0..sketch.more {
        out.push(nothing(alloc, number)?)?;
    }
    Ok(())
}

fn effect(alloc: Global) -> Result<Effect, NoMemory> {
    let mut ints = Items::new(alloc);
    ints.push(3)?;
    Ok(Effect { routine: 26, ints })
}

fn cell(alloc: Global, cell: sketch::Cell) -> Result<Cell, NoMemory> {
    match cell {
        sketch::Cell::Int(n) => Ok(Cell::Int(n)),
        sketch::Cell::Text(words) => Ok(Cell::Text(text(alloc, words)?)),
        sketch::Cell::Object(object) => Ok(Cell::Object(object)),
        sketch::Cell::Effect => Ok(Cell::Effect(effect(alloc)?)),
        sketch::Cell::Event(user) => Ok(Cell::Event(user)),
    }
}

fn put_cells(alloc: Global, cells: &[sketch::Cell], out: &mut Items<Cell>) -> Result<(), NoMemory> {
    for part in cells {
        out.push(cell(alloc, *part)?)?;
    }
    Ok(())
}

fn cells(alloc: Global, cells: &[sketch::Cell]) -> Result<Items<Cell>, NoMemory> {
    let mut out = Items::new(alloc);
    put_cells(alloc, cells, &mut out)?;
    Ok(out)
}

fn captured(alloc: Global, state: sketch::Captured) -> Result<Captured, NoMemory> {
    let globals = cells(alloc, state.2)?;
    let locals = cells(alloc, state.3)?;
    Ok(Captured {
        script: state.0,
        place: state.1,
        globals,
        locals,
    })
}

fn variable(alloc: Global, variable: sketch::Variable) -> Result<Variable, NoMemory> {
    match variable {
        sketch::Variable::Int(name, n) => Ok(Variable::Int(text(alloc, name)?, n)),
        sketch::Variable::Text(name, value) => {
            let name = text(alloc, name)?;
            Ok(Variable::Text(name, text(alloc, value)?))
        }
    }
}

fn put_variables(
    alloc: Global,
    variables: &[sketch::Variable],
    out: &mut Items<Variable>,
) -> Result<(), NoMemory> {
    for part in variables {
        out.push(variable(alloc, *part)?)?;
    }
    Ok(())
}

fn put_effects(
    alloc: Global,
    numbers: &[Option<u64>],
    out: &mut Items<Standing>,
) -> Result<(), NoMemory> {
    for number in numbers {
        let effect = effect(alloc)?;
        out.push(Standing {
            number: *number,
            effect,
        })?;
    }
    Ok(())
}

fn item(alloc: Global, item: sketch::Item) -> Result<Item, NoMemory> {
    match item {
        sketch::Item::Do(state) => Ok(Item::Do(captured(alloc, state)?)),
        sketch::Item::Wait(ms) => Ok(Item::Wait(ms)),
        sketch::Item::Speak(words) => Ok(Item::Speak(text(alloc, words)?)),
    }
}

fn put_items(alloc: Global, items: &[sketch::Item], out: &mut Items<Item>) -> Result<(), NoMemory> {
    for part in items {
        out.push(item(alloc, *part)?)?;
    }
    Ok(())
}

/// Puts variables, effects and actions of an object, and further ones behind them.
fn fill(
    alloc: Global,
    from: &sketch::Object,
    further: &[sketch::Variable],
    more: &[sketch::Item],
    object: &mut Object,
) -> Result<(), NoMemory> {
    put_variables(alloc, from.1, &mut object.variables)?;
    put_variables(alloc, further, &mut object.variables)?;
    put_effects(alloc, from.2, &mut object.effects)?;
    put_items(alloc, from.3, &mut object.items)?;
    put_items(alloc, more, &mut object.items)
}

/// An object with variables and actions behind its own.
fn object(
    alloc: Global,
    from: &sketch::Object,
    further: &[sketch::Variable],
    more: &[sketch::Item],
) -> Result<Object, NoMemory> {
    let mut object = Object {
        busy: from.0,
        variables: Items::new(alloc),
        effects: Items::new(alloc),
        items: Items::new(alloc),
    };
    match fill(alloc, from, further, more, &mut object) {
        Ok(()) => Ok(object),
        Err(NoMemory) => {
            drop(object);
            Err(NoMemory)
        }
    }
}

fn put_objects(alloc: Global, sketch: &Sketch, out: &mut Items<Object>) -> Result<(), NoMemory> {
    let mut first = true;
    for part in sketch.objects {
        let made = if first {
            object(alloc, part, sketch.besides.variables, sketch.besides.items)?
        } else {
            object(alloc, part, &[], &[])?
        };
        out.push(made)?;
        first = false;
    }
    Ok(())
}

fn kind(alloc: Global, kind: sketch::Kind) -> Result<KindPart, NoMemory> {
    match kind {
        sketch::Kind::Event(object, script, user) => Ok(KindPart::Event {
            object,
            script: text(alloc, script)?,
            user,
        }),
        sketch::Kind::Stored(object, state) => Ok(KindPart::Stored {
            object,
            state: captured(alloc, state)?,
        }),
        sketch::Kind::Turn(object) => Ok(KindPart::Turn { object }),
        sketch::Kind::Unapply(object) => Ok(KindPart::Unapply { object }),
    }
}

fn entry(alloc: Global, entry: &sketch::Entry) -> Result<Entry, NoMemory> {
    let kind = kind(alloc, entry.2)?;
    Ok(Entry {
        due: entry.0,
        number: entry.1,
        kind,
    })
}

fn put_agenda(alloc: Global, sketch: &Sketch, out: &mut Items<Entry>) -> Result<(), NoMemory> {
    for part in sketch.agenda {
        out.push(entry(alloc, part)?)?;
    }
    if let Some(part) = &sketch.besides.entry {
        out.push(entry(alloc, part)?)?;
    }
    Ok(())
}

fn put_random(count: usize, out: &mut Items<u32>) -> Result<(), NoMemory> {
    for _number in 0..count {
        out.push(7)?;
    }
    Ok(())
}

fn header(alloc: Global, text: Option<&[u8]>) -> Result<Option<Items<u8>>, NoMemory> {
    match text {
        None => Ok(None),
        Some(text) => Ok(Some(Items::of_slice(alloc, text)?)),
    }
}

/// Puts all lists of a state.
fn put_lists(alloc: Global, sketch: &Sketch, parts: &mut Parts) -> Result<(), NoMemory> {
    put_all_scripts(alloc, sketch, &mut parts.scripts)?;
    parts.area.extend(sketch.area)?;
    put_random(sketch.random, &mut parts.random)?;
    put_objects(alloc, sketch, &mut parts.objects)?;
    put_agenda(alloc, sketch, &mut parts.agenda)
}

fn parts(alloc: Global, sketch: &Sketch) -> Result<Parts, NoMemory> {
    let header = header(alloc, sketch.header)?;
    let mut parts = Parts {
        header,
        scripts: Items::new(alloc),
        area: Items::new(alloc),
        version: sketch.version,
        limit: sketch.limit,
        entries: sketch.entries,
        until: sketch.until,
        clock: sketch.clock,
        taken: sketch.taken,
        done: sketch.done,
        next: sketch.next,
        random: Items::new(alloc),
        objects: Items::new(alloc),
        agenda: Items::new(alloc),
    };
    match put_lists(alloc, sketch, &mut parts) {
        Ok(()) => Ok(parts),
        Err(NoMemory) => {
            drop(parts);
            Err(NoMemory)
        }
    }
}

/// The bytes of a state.
pub fn bytes(alloc: Global, sketch: &Sketch) -> Result<Vec<u8>, NoMemory> {
    let parts = parts(alloc, sketch)?;
    let bytes = put_parts(alloc, &parts);
    drop(parts);
    match bytes {
        Ok(bytes) => Ok(bytes),
        Err(_) => Err(NoMemory),
    }
}
