//! Reading and writing the cells so far down from the top.
ghost use Rattle.std.specs.Prelude.{◌≡◌, ◌<◌, Some, OnOk, IfOk, length, slice_get, slice_set};
ghost use Rattle.saved_state.specs.declared.cell.Cell.TheVariants.{Value as Holds};
ghost use Rattle.nwq_value.specs.declared.value.Value.TheVariants.{Int as IntValue};
ghost use Rattle.nwq_value.specs.declared.value.Value.TheVariants.{Text as TextValue};
ghost use Rattle.machine_frames.specs.Tops.{HasInt, HasText, HasValue};

use nwq_value::{NoMemory, Text, Value};
use saved_state::{Cell, Stack};

/// The cell that lies so many others down.
#[inline(always)]
pub fn cell(stack: &Stack, depth: usize) -> &Cell
    requires inside { depth < length stack.now.cells }
    ensures cell { slice_get stack.now.cells depth ≡ Some result.now }
{
    stack.down(depth)
}

/// The value there.
#[inline(always)]
#[tactic(auto, using(crate::proofs::Depths::value_lies, crate::proofs::Depths::value_held))]
pub fn value(stack: &Stack, depth: usize) -> &Value
    requires value { HasValue depth stack.now.cells }
    ensures value { slice_get stack.now.cells depth ≡ Some (Holds result.now) }
{
    match cell(stack, depth) {
        Cell::Value(value) => value,
        Cell::Base(_) => unreachable!(),
    }
}

/// The int there.
#[inline(always)]
#[tactic(auto, using(crate::proofs::Depths::int_is_value, crate::proofs::Depths::int_held))]
pub fn int(stack: &Stack, depth: usize) -> i32
    requires int { HasInt depth stack.now.cells }
    ensures int { slice_get stack.now.cells depth ≡ Some (Holds (IntValue result)) }
{
    match value(stack, depth) {
        Value::Int(n) => *n,
        Value::Text(_) => unreachable!(),
        Value::Object(_) => unreachable!(),
        Value::Effect(_) => unreachable!(),
        Value::Event(_) => unreachable!(),
    }
}

/// The text there.
#[tactic(auto, using(crate::proofs::Depths::text_is_value, crate::proofs::Depths::text_held))]
pub fn text(stack: &Stack, depth: usize) -> &Text
    requires text { HasText depth stack.now.cells }
    ensures text { slice_get stack.now.cells depth ≡ Some (Holds (TextValue result.now)) }
{
    match value(stack, depth) {
        Value::Text(text) => text,
        Value::Int(_) => unreachable!(),
        Value::Object(_) => unreachable!(),
        Value::Effect(_) => unreachable!(),
        Value::Event(_) => unreachable!(),
    }
}

/// Puts a value in the place of the one there.
#[inline(always)]
#[tactic(auto, using(crate::proofs::Depths::value_lies, crate::proofs::Depths::value_held))]
pub fn put(stack: &mut Stack, depth: usize, value: Value) -> Result<(), NoMemory>
    requires value { HasValue depth stack.old.cells }
    ensures put { OnOk result (stack.new
        ≡ record stack.old { cells = slice_set stack.old.cells depth (Holds value) }) }
{
    stack.set_down(depth, value)
}
