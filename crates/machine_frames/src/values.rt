//! Instructions that pop and push values.
ghost use Rattle.std.specs.Prelude.{◌≡◌, ◌≢◌, ◌&&◌, false, true, None, Some, OnOk, slice_get};
ghost use Rattle.nwq_value.specs.Operators.{complement, opposite, joined_texts};
ghost use Rattle.nwq_value.specs.declared.value.Value.TheVariants.{Int as IntValue};
ghost use Rattle.saved_state.specs.declared.cell.Cell.TheVariants.{Value as Holds};
ghost use Rattle.ncs_code.specs.Plain.{Object as ObjectLit, Text as TextLit};
ghost use Rattle.decoded_code.specs.Steps.{whole};
ghost use Rattle.machine_rules.specs.Act.{added, if_ints, int_dropped};
ghost use Rattle.machine_rules.specs.Cells.{of_int, of_ints, of_texts, value_pushed, zero_on_top};
ghost use Rattle.machine_rules.specs.Values.{literal_value, starting_value};
ghost use Rattle.machine_frames.specs.Operations.{binary_of, divides, unary_of};
ghost use Rattle.machine_frames.specs.Tops.{negated};

use crate::operation::{Binary, Unary, of_one, of_two};
use crate::top::{int, put, text};
use nwq_value::{NoMemory, Text, Value, start_of};
use saved_state::{Cell, Stack};
use stack_shape::type_of_one;
use std::alloc::Global;

/// An operation of the two ints on top, where both can be read at once. `false` says that nothing
/// was done.
#[inline(always)]
#[tactic(auto, using(crate::proofs::Popped::near_lemmas))]
pub fn ints_near(stack: &mut Stack, op: Binary) -> bool
    requires divisor { (divides op && zero_on_top stack.old.cells) ≡ false }
    ensures cells { result ≡ true → of_ints (binary_of op) stack.old.cells ≡ Some stack.new.cells }
    ensures bp { stack.new.bp ≡ stack.old.bp }
    ensures same { result ≡ false → stack.new ≡ stack.old }
{
    let Some(y) = stack.int_near(0) else {
        return false;
    };
    let Some(x) = stack.int_near(1) else {
        return false;
    };
    stack.fold_near(y, Value::Int(of_two(op, x, y)))
}

/// An operation of the two ints on top. Where both can be read at once, no call is made.
#[inline(always)]
pub fn two_ints(stack: &mut Stack, op: Binary) -> Result<(), NoMemory>
    requires case { of_ints (binary_of op) stack.old.cells ≢ None }
    requires divisor { (divides op && zero_on_top stack.old.cells) ≡ false }
    ensures cells { OnOk result (of_ints (binary_of op) stack.old.cells ≡ Some stack.new.cells) }
    ensures bp { OnOk result (stack.new.bp ≡ stack.old.bp) }
{
    if ints_near(stack, op) {
        Ok(())
    } else {
        two_ints_apart(stack, op)
    }
}

/// The same by a call of its own, wherever the ints lie.
#[inline(never)]
#[tactic(auto, using(crate::proofs::Popped::two_lemmas))]
fn two_ints_apart(stack: &mut Stack, op: Binary) -> Result<(), NoMemory>
    requires case { of_ints (binary_of op) stack.old.cells ≢ None }
    requires divisor { (divides op && zero_on_top stack.old.cells) ≡ false }
    ensures cells { OnOk result (of_ints (binary_of op) stack.old.cells ≡ Some stack.new.cells) }
    ensures bp { OnOk result (stack.new.bp ≡ stack.old.bp) }
{
    let y = int(stack, 0);
    let x = int(stack, 1);
    fold_ints(stack, op, x, y)
}

/// The upper one of two ints goes, and then what both give is written onto the lower one.
#[inline(always)]
#[tactic(auto, using(crate::proofs::Popped::fold_lemmas))]
fn fold_ints(stack: &mut Stack, op: Binary, x: i32, y: i32) -> Result<(), NoMemory>
    requires upper { slice_get stack.old.cells 0 ≡ Some (Holds (IntValue y)) }
    requires lower { slice_get stack.old.cells 1 ≡ Some (Holds (IntValue x)) }
    requires divisor { (divides op && zero_on_top stack.old.cells) ≡ false }
    ensures cells { OnOk result (of_ints (binary_of op) stack.old.cells ≡ Some stack.new.cells) }
    ensures bp { OnOk result (stack.new.bp ≡ stack.old.bp) }
{
    stack.drop_one();
    put(stack, 0, Value::Int(of_two(op, x, y)))
}

/// The same of an instruction whose type byte says that it is of ints.
#[inline(always)]
pub fn kind_ints(stack: &mut Stack, kind: u8, op: Binary) -> Result<(), NoMemory>
    requires case { if_ints kind (of_ints (binary_of op) stack.old.cells) ≢ None }
    requires divisor { (divides op && zero_on_top stack.old.cells) ≡ false }
    ensures cells { OnOk result
        (if_ints kind (of_ints (binary_of op) stack.old.cells) ≡ Some stack.new.cells) }
    ensures bp { OnOk result (stack.new.bp ≡ stack.old.bp) }
{
    if kind == 0x20 {
        two_ints(stack, op)
    } else {
        unreachable!()
    }
}

/// An operation of the int on top.
#[inline(always)]
#[tactic(auto, using(crate::proofs::Popped::one_lemmas))]
pub fn one_int(stack: &mut Stack, op: Unary) -> Result<(), NoMemory>
    requires case { of_int (unary_of op) stack.old.cells ≢ None }
    ensures cells { OnOk result (of_int (unary_of op) stack.old.cells ≡ Some stack.new.cells) }
    ensures bp { OnOk result (stack.new.bp ≡ stack.old.bp) }
{
    let x = int(stack, 0);
    put(stack, 0, Value::Int(of_one(op, x)))
}

/// NEG.
#[inline(never)]
pub fn negate(stack: &mut Stack, kind: u8) -> Result<(), NoMemory>
    requires case { negated kind stack.old.cells ≢ None }
    ensures cells { OnOk result (negated kind stack.old.cells ≡ Some stack.new.cells) }
    ensures bp { OnOk result (stack.new.bp ≡ stack.old.bp) }
{
    if kind == 0x03 {
        one_int(stack, Unary::Neg)
    } else {
        unreachable!()
    }
}

/// COMP.
#[inline(never)]
pub fn complement(stack: &mut Stack) -> Result<(), NoMemory>
    requires case { of_int complement stack.old.cells ≢ None }
    ensures cells { OnOk result (of_int complement stack.old.cells ≡ Some stack.new.cells) }
    ensures bp { OnOk result (stack.new.bp ≡ stack.old.bp) }
{
    one_int(stack, Unary::Comp)
}

/// The two texts on top become one.
#[inline(never)]
#[tactic(auto, using(crate::proofs::Popped::text_lemmas))]
fn two_texts(alloc: Global, stack: &mut Stack) -> Result<(), NoMemory>
    requires case { of_texts joined_texts stack.old.cells ≢ None }
    ensures cells { OnOk result (of_texts joined_texts stack.old.cells ≡ Some stack.new.cells) }
    ensures bp { OnOk result (stack.new.bp ≡ stack.old.bp) }
{
    let joined = text(stack, 1).join(alloc, text(stack, 0))?;
    stack.drop_one();
    put(stack, 0, Value::Text(joined))
}

/// ADD, of ints or of texts.
#[inline(always)]
pub fn add(alloc: Global, stack: &mut Stack, kind: u8) -> Result<(), NoMemory>
    requires case { added kind stack.old.cells ≢ None }
    ensures cells { OnOk result (added kind stack.old.cells ≡ Some stack.new.cells) }
    ensures bp { OnOk result (stack.new.bp ≡ stack.old.bp) }
{
    if kind == 0x20 {
        two_ints(stack, Binary::Add)
    } else if kind == 0x23 {
        two_texts(alloc, stack)
    } else {
        unreachable!()
    }
}

/// Pops an int, and says whether it is 0.
#[inline(always)]
#[tactic(auto, using(crate::proofs::Popped::drop_lemmas))]
pub fn take_zero(stack: &mut Stack) -> bool
    requires case { int_dropped stack.old.cells ≢ None }
    ensures test { result ≡ zero_on_top stack.old.cells }
    ensures cells { int_dropped stack.old.cells ≡ Some stack.new.cells }
    ensures bp { stack.new.bp ≡ stack.old.bp }
{
    match stack.int_near(0) {
        None => take_zero_apart(stack),
        Some(n) => {
            stack.drop_one();
            n == 0
        }
    }
}

/// The same by a call of its own, wherever the int lies.
#[inline(never)]
#[tactic(auto, using(crate::proofs::Popped::drop_lemmas))]
fn take_zero_apart(stack: &mut Stack) -> bool
    requires case { int_dropped stack.old.cells ≢ None }
    ensures test { result ≡ zero_on_top stack.old.cells }
    ensures cells { int_dropped stack.old.cells ≡ Some stack.new.cells }
    ensures bp { stack.new.bp ≡ stack.old.bp }
{
    let n = int(stack, 0);
    stack.drop_one();
    n == 0
}

/// RSADD.
pub fn push_start(alloc: Global, stack: &mut Stack, kind: u8) -> Result<(), NoMemory>
    requires case { value_pushed (starting_value kind) stack.old.cells ≢ None }
    ensures cells { OnOk result
        (value_pushed (starting_value kind) stack.old.cells ≡ Some stack.new.cells) }
    ensures bp { OnOk result (stack.new.bp ≡ stack.old.bp) }
{
    match type_of_one(kind) {
        None => unreachable!(),
        Some(ty) => stack.push(Cell::Value(start_of(alloc, ty)?)),
    }
}

/// CONST of a string, of which so many bytes are left out behind the text.
#[inline(never)]
#[tactic(auto, using(crate::proofs::Popped::text_pushed))]
pub fn push_text(
    alloc: Global,
    stack: &mut Stack,
    left_out: u32,
    text: &Text,
) -> Result<(), NoMemory>
    ensures cells { OnOk result
        (value_pushed (literal_value 0 (TextLit (whole text.now left_out))) stack.old.cells
        ≡ Some stack.new.cells) }
    ensures bp { OnOk result (stack.new.bp ≡ stack.old.bp) }
{
    let _bytes = text.bytes();
    stack.push(Cell::Value(Value::Text(text.copy(alloc)?)))
}

/// CONST of an object, in a script that runs with the object `own` as self.
#[inline(never)]
pub fn push_object(stack: &mut Stack, own: u32, object: u32) -> Result<(), NoMemory>
    ensures cells { OnOk result
        (value_pushed (literal_value own (ObjectLit object)) stack.old.cells
        ≡ Some stack.new.cells) }
    ensures bp { OnOk result (stack.new.bp ≡ stack.old.bp) }
{
    let pushed = if object == 0 { own } else { 0 };
    stack.push(Cell::Value(Value::Object(pushed)))
}
