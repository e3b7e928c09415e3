//! Instructions that change nothing but the cells.
ghost use Rattle.std.specs.Prelude.{◌≡◌, ◌≢◌, ◌&&◌, ◌+◌, ◌≤◌, false, None, Some, IfOk, OnOk};
ghost use Rattle.std.specs.Prelude.{slice_get};
ghost use Rattle.ncs_code.specs.Spelling.{op_size};
ghost use Rattle.ncs_code.specs.File.{jump_place};
ghost use Rattle.nwq_value.specs.Limits.{file_limit};
ghost use Rattle.machine_rules.specs.Act.{added, cells_after, if_ints, is_division, place_after};
ghost use Rattle.machine_rules.specs.Cells.{of_ints, value_pushed, zero_on_top};
ghost use Rattle.machine_rules.specs.Values.{starting_value};
ghost use Rattle.decoded_code.specs.Steps.{op_of};
ghost use Rattle.machine_frames.specs.Operations.{binary_of, divides};

use crate::operation::{Binary, Unary};
use crate::ranges::{
    cells, change_bp, change_int, change_sp, compare, drop_sp, drop_values, keep_range, one_cell,
    push_bp, push_range, push_sp, write_bp, write_range, write_sp,
};
use crate::top::cell;
use crate::values::{
    add, complement, ints_near, kind_ints, negate, one_int, push_object, push_start, push_text,
    take_zero,
};
use decoded_code::Step;
use nwq_value::{NoMemory, Value};
use saved_state::{Cell, Stack};
use std::alloc::Global;

/// Whether an int that is 0 is on top.
#[inline(always)]
#[tactic(auto, using(crate::proofs::Tests::zero_lemmas))]
pub fn zero_on_top(stack: &Stack) -> bool
    ensures test { result ≡ zero_on_top stack.now.cells }
{
    if stack.len() == 0 {
        return false;
    }
    match cell(stack, 0) {
        Cell::Value(Value::Int(n)) => *n == 0,
        Cell::Value(Value::Text(_)) => false,
        Cell::Value(Value::Object(_)) => false,
        Cell::Value(Value::Effect(_)) => false,
        Cell::Value(Value::Event(_)) => false,
        Cell::Base(_) => false,
    }
}

/// The place to which a jump leads.
#[inline(always)]
pub fn jump(at: u32, offset: i32) -> u32
    requires small { at ≤ file_limit }
    ensures place { result ≡ jump_place at offset }
{
    if offset < 0 {
        at.saturating_sub(offset.unsigned_abs())
    } else {
        at + offset as u32
    }
}

/// An operation of the two ints on top, by an instruction with this type byte. Gives the place that
/// follows. Where both can be read at once, no call is made, and no type is asked for: an
/// instruction of other types has no case.
#[inline(always)]
#[tactic(auto, using(crate::proofs::Popped::of_kind))]
pub fn operate(stack: &mut Stack, kind: u8, op: Binary, at: u32) -> Result<u32, NoMemory>
    requires case { if_ints kind (of_ints (binary_of op) stack.old.cells) ≢ None }
    requires divisor { (divides op && zero_on_top stack.old.cells) ≡ false }
    requires small { at + 2 ≤ file_limit }
    ensures cells { OnOk result
        (if_ints kind (of_ints (binary_of op) stack.old.cells) ≡ Some stack.new.cells) }
    ensures bp { OnOk result (stack.new.bp ≡ stack.old.bp) }
    ensures place { IfOk result (λ place. place ≡ at + 2) }
{
    if ints_near(stack, op) {
        Ok(at + 2)
    } else {
        operate_apart(stack, kind, op, at)
    }
}

/// The same by a call of its own, for those that are rare: the way of the others stays short.
#[inline(never)]
fn operate_apart(stack: &mut Stack, kind: u8, op: Binary, at: u32) -> Result<u32, NoMemory>
    requires case { if_ints kind (of_ints (binary_of op) stack.old.cells) ≢ None }
    requires divisor { (divides op && zero_on_top stack.old.cells) ≡ false }
    requires small { at + 2 ≤ file_limit }
    ensures cells { OnOk result
        (if_ints kind (of_ints (binary_of op) stack.old.cells) ≡ Some stack.new.cells) }
    ensures bp { OnOk result (stack.new.bp ≡ stack.old.bp) }
    ensures place { IfOk result (λ place. place ≡ at + 2) }
{
    kind_ints(stack, kind, op)?;
    Ok(at + 2)
}

/// RSADD. An int is pushed here. Gives the place that follows.
#[inline(always)]
#[tactic(auto, using(crate::proofs::Popped::int_started))]
fn start(alloc: Global, stack: &mut Stack, kind: u8, at: u32) -> Result<u32, NoMemory>
    requires case { value_pushed (starting_value kind) stack.old.cells ≢ None }
    requires small { at + 2 ≤ file_limit }
    ensures cells { OnOk result
        (value_pushed (starting_value kind) stack.old.cells ≡ Some stack.new.cells) }
    ensures bp { OnOk result (stack.new.bp ≡ stack.old.bp) }
    ensures place { IfOk result (λ place. place ≡ at + 2) }
{
    if kind == 0x03 {
        stack.push(Cell::Value(Value::Int(0)))?;
        Ok(at + 2)
    } else {
        start_apart(alloc, stack, kind, at)
    }
}

/// The same by a call of its own.
#[inline(never)]
fn start_apart(alloc: Global, stack: &mut Stack, kind: u8, at: u32) -> Result<u32, NoMemory>
    requires case { value_pushed (starting_value kind) stack.old.cells ≢ None }
    requires small { at + 2 ≤ file_limit }
    ensures cells { OnOk result
        (value_pushed (starting_value kind) stack.old.cells ≡ Some stack.new.cells) }
    ensures bp { OnOk result (stack.new.bp ≡ stack.old.bp) }
    ensures place { IfOk result (λ place. place ≡ at + 2) }
{
    push_start(alloc, stack, kind)?;
    Ok(at + 2)
}

/// ADD.
#[inline(always)]
#[tactic(auto, using(crate::proofs::Popped::of_kind))]
fn sum(alloc: Global, stack: &mut Stack, kind: u8, at: u32) -> Result<u32, NoMemory>
    requires case { added kind stack.old.cells ≢ None }
    requires small { at + 2 ≤ file_limit }
    ensures cells { OnOk result (added kind stack.old.cells ≡ Some stack.new.cells) }
    ensures bp { OnOk result (stack.new.bp ≡ stack.old.bp) }
    ensures place { IfOk result (λ place. place ≡ at + 2) }
{
    if kind == 0x20 && ints_near(stack, Binary::Add) {
        Ok(at + 2)
    } else {
        sum_apart(alloc, stack, kind, at)
    }
}

/// The same by a call of its own.
#[inline(never)]
fn sum_apart(alloc: Global, stack: &mut Stack, kind: u8, at: u32) -> Result<u32, NoMemory>
    requires case { added kind stack.old.cells ≢ None }
    requires small { at + 2 ≤ file_limit }
    ensures cells { OnOk result (added kind stack.old.cells ≡ Some stack.new.cells) }
    ensures bp { OnOk result (stack.new.bp ≡ stack.old.bp) }
    ensures place { IfOk result (λ place. place ≡ at + 2) }
{
    add(alloc, stack, kind)?;
    Ok(at + 2)
}

/// The cells after an instruction at a place that doesn't divide, in a script that runs with the
/// object `own` as self, and the place that follows.
#[inline(always)]
#[tactic(auto, unfolding(machine_rules::specs::Act::cells_after))]
pub fn change(
    alloc: Global,
    stack: &mut Stack,
    step: &Step,
    at: u32,
    own: u32,
) -> Result<u32, NoMemory>
    requires case { cells_after (op_of step.now) own stack.old ≢ None }
    requires no_division { is_division (op_of step.now) ≡ false }
    requires small { at + op_size (op_of step.now) ≤ file_limit }
    ensures cells { OnOk result
        (cells_after (op_of step.now) own stack.old ≡ Some stack.new.cells) }
    ensures bp { OnOk result (stack.new.bp ≡ stack.old.bp) }
    ensures place { IfOk result
        (λ place. place ≡ place_after (op_of step.now) at stack.old.cells) }
{
    match step {
        Step::DownCell { above } => {
            write_range(alloc, stack, one_cell(*above))?;
            Ok(at + 8)
        }
        Step::TopCell { above } => {
            push_range(alloc, stack, one_cell(*above))?;
            Ok(at + 8)
        }
        Step::DropCells { count } => {
            drop_values(stack, cells(*count));
            Ok(at + 6)
        }
        Step::DecCell { above } => {
            change_int(stack, one_cell(*above), Unary::Dec)?;
            Ok(at + 6)
        }
        Step::IncCell { above } => {
            change_int(stack, one_cell(*above), Unary::Inc)?;
            Ok(at + 6)
        }
        Step::LogAnd => operate_apart(stack, 0x20, Binary::LogAnd, at),
        Step::LogOr => operate_apart(stack, 0x20, Binary::LogOr, at),
        Step::IncOr => operate_apart(stack, 0x20, Binary::IncOr, at),
        Step::ExcOr => operate_apart(stack, 0x20, Binary::ExcOr, at),
        Step::BoolAnd => operate_apart(stack, 0x20, Binary::BoolAnd, at),
        Step::Geq { kind } => operate(stack, *kind, Binary::Geq, at),
        Step::Gt { kind } => operate(stack, *kind, Binary::Gt, at),
        Step::Lt { kind } => operate(stack, *kind, Binary::Lt, at),
        Step::Leq { kind } => operate(stack, *kind, Binary::Leq, at),
        Step::ShLeft => operate_apart(stack, 0x20, Binary::ShLeft, at),
        Step::ShRight => operate_apart(stack, 0x20, Binary::ShRight, at),
        Step::UshRight => operate_apart(stack, 0x20, Binary::UshRight, at),
        Step::Sub { kind } => operate(stack, *kind, Binary::Sub, at),
        Step::Mul { kind } => operate(stack, *kind, Binary::Mul, at),
        Step::CpDownSp { offset, size } => {
            write_sp(alloc, stack, *offset, *size)?;
            Ok(at + 8)
        }
        Step::RsAdd { kind } => start(alloc, stack, *kind, at),
        Step::CpTopSp { offset, size } => {
            push_sp(alloc, stack, *offset, *size)?;
            Ok(at + 8)
        }
        Step::ConstInt(n) => {
            stack.push(Cell::Value(Value::Int(*n)))?;
            Ok(at + 6)
        }
        Step::ConstText { left_out, text } => {
            push_text(alloc, stack, *left_out, text)?;
            Ok(at + step.size())
        }
        Step::ConstObject(n) => {
            push_object(stack, own, *n)?;
            Ok(at + 6)
        }
        Step::Equal { kind, size } => { compare(stack, *kind, *size, false, at + step.size()) }
        Step::Nequal { kind, size } => { compare(stack, *kind, *size, true, at + step.size()) }
        Step::Add { kind } => sum(alloc, stack, *kind, at),
        Step::Neg { kind } => {
            negate(stack, *kind)?;
            Ok(at + 2)
        }
        Step::Comp => {
            complement(stack)?;
            Ok(at + 2)
        }
        Step::MovSp { offset } => {
            drop_sp(stack, *offset);
            Ok(at + 6)
        }
        Step::Jmp { offset } => Ok(jump(at, *offset)),
        Step::Jz { offset } => {
            let zero = take_zero(stack);
            Ok(if zero { jump(at, *offset) } else { at + 6 })
        }
        Step::Destruct {
            total,
            offset,
            size,
        } => {
            keep_range(alloc, stack, *total, *offset, *size)?;
            Ok(at + 8)
        }
        Step::Not => {
            one_int(stack, Unary::Not)?;
            Ok(at + 2)
        }
        Step::DecISp { offset } => {
            change_sp(stack, *offset, Unary::Dec)?;
            Ok(at + 6)
        }
        Step::IncISp { offset } => {
            change_sp(stack, *offset, Unary::Inc)?;
            Ok(at + 6)
        }
        Step::Jnz { offset } => {
            let zero = take_zero(stack);
            Ok(if zero { at + 6 } else { jump(at, *offset) })
        }
        Step::CpDownBp { offset, size } => {
            write_bp(alloc, stack, *offset, *size)?;
            Ok(at + 8)
        }
        Step::CpTopBp { offset, size } => {
            push_bp(alloc, stack, *offset, *size)?;
            Ok(at + 8)
        }
        Step::DecIBp { offset } => {
            change_bp(stack, *offset, Unary::Dec)?;
            Ok(at + 6)
        }
        Step::IncIBp { offset } => {
            change_bp(stack, *offset, Unary::Inc)?;
            Ok(at + 6)
        }
        Step::Nop => Ok(at + 2),
        Step::ConstFloat(_) | Step::Div { .. } | Step::Mod => unreachable!(),
        Step::Action { .. } | Step::Jsr { .. } | Step::Retn => unreachable!(),
        Step::SaveBp | Step::RestoreBp | Step::StoreState { .. } => unreachable!(),
    }
}
