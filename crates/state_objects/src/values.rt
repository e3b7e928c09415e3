//! The values of a state's parts.
ghost use Rattle.std.specs.Prelude.{◌≡◌, map, IfOk, IsTrue};
ghost use Rattle.saved_state.specs.declared.cell.Cell.TheVariants.{Value as Holds};
ghost use Rattle.state_parts.specs.World.{cell_of, effect_of, saved_of};
ghost use Rattle.state_parts.specs.ShortTexts.{are_short_cells, has_short_cells, is_short};
ghost use Rattle.state_parts.specs.ShortTexts.{is_short_cell};

use nwq_value::{Effect, Ints, Items, NoMemory, Text, Value};
use saved_state::{Cell, Cells, Saved};
use state_format::{Captured, Cell as CellPart, Effect as EffectPart};
use std::alloc::Global;

/// The effect of a part.
pub fn effect(alloc: Global, part: &EffectPart) -> Result<Effect, NoMemory>
    ensures tells { IfOk result (λ effect. effect ≡ effect_of part.now) }
{
    let ints = Ints::of_slice(alloc, part.ints.as_slice())?;
    Effect::new(alloc, part.routine, ints)
}

/// The text of bytes that aren't too many for one.
pub fn text(alloc: Global, bytes: &Items<u8>) -> Result<Text, NoMemory>
    requires short { IsTrue (is_short bytes.now) }
    ensures same { IfOk result (λ text. text ≡ bytes.now) }
{
    Text::of(alloc, bytes.as_slice())
}

/// What a cell holds.
fn value(alloc: Global, part: &CellPart) -> Result<Value, NoMemory>
    requires short { IsTrue (is_short_cell part.now) }
    ensures tells { IfOk result (λ value. Holds value ≡ cell_of part.now) }
{
    match part {
        CellPart::Int(n) => Ok(Value::Int(*n)),
        CellPart::Text(bytes) => Ok(Value::Text(text(alloc, bytes)?)),
        CellPart::Object(o) => Ok(Value::Object(*o)),
        CellPart::Effect(part) => Ok(Value::Effect(effect(alloc, part)?)),
        CellPart::Event(n) => Ok(Value::Event(*n)),
    }
}

fn cells(alloc: Global, parts: &[CellPart]) -> Result<Cells, NoMemory>
    requires short { IsTrue (are_short_cells parts.now) }
    ensures tells { IfOk result (λ cells. cells ≡ map cell_of parts.now) }
{
    let mut all = Cells::new(alloc);
    for part in parts {
        let held = value(alloc, part)?;
        all.push(Cell::Value(held))?;
    }
    Ok(all)
}

/// The captured state of a part.
pub fn saved(alloc: Global, part: &Captured) -> Result<Saved, NoMemory>
    requires short { IsTrue (has_short_cells part.now) }
    ensures tells { IfOk result (λ saved. saved ≡ saved_of part.now) }
{
    let globals = cells(alloc, part.globals.as_slice())?;
    let locals = cells(alloc, part.locals.as_slice())?;
    Ok(Saved {
        script: part.script,
        place: part.place,
        globals,
        locals,
    })
}
