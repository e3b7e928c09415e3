//! Instructions that name cells by offsets and sizes.
ghost use Rattle.std.specs.Prelude.{◌≡◌, ◌≢◌, ◌+◌, ◌≤◌, ◌<◌, ◌^◌, None, Some, OnOk, IfSome, drop};
ghost use Rattle.std.specs.Prelude.{length, slice_get, true, false, IfOk};
ghost use Rattle.nwq_value.specs.Operators.{values_eq};
ghost use Rattle.nwq_value.specs.declared.value.Ty.TheVariants.{Int as IntTy};
ghost use Rattle.nwq_value.specs.declared.value.Value.TheVariants.{Int as IntValue};
ghost use Rattle.saved_state.specs.declared.cell.Cell.TheVariants.{Value as Holds};
ghost use Rattle.machine_rules.specs.Act.{bp_range, compared};
ghost use Rattle.machine_rules.specs.Cells.{int_changed, pair_compared, range_kept, range_pushed};
ghost use Rattle.machine_rules.specs.Cells.{range_written, runs_compared, values_dropped};
ghost use Rattle.machine_rules.specs.Cells.{values_kept, values_on};
ghost use Rattle.stack_shape.specs.Laws.{offset_to};
ghost use Rattle.stack_shape.specs.Ranges.{depth_of, range_at};
ghost use Rattle.stack_shape.specs.StackEffects.{type_of_both};
ghost use Rattle.machine_frames.specs.Operations.{unary_of};
ghost use Rattle.machine_frames.specs.Tops.{AreValues, answer_of, int_at, reached};

use crate::operation::{Binary, Unary, as_int, of_one};
use crate::runs::{copy_down, push_copies};
use crate::top::{int, put, value};
use crate::values::ints_near;
use machine_rules::equality_is_tested;
use nwq_value::{NoMemory, Value};
use saved_state::{Cell, Stack};
use stack_shape::{CellRange, cell_count, cells_of_bytes, depth_of, range_at, ranges_of_cells};
use std::alloc::Global;

/// The one cell over which so many others lie.
#[inline(always)]
#[tactic(auto, using(crate::proofs::RangeLemmas::one_lemmas))]
pub fn one_cell(above: u32) -> Option<CellRange>
    ensures range { result ≡ range_at (offset_to (above + 1)) 4 }
{
    ranges_of_cells();
    Some(CellRange {
        above: above as usize,
        count: 1,
    })
}

/// So many cells.
#[inline(always)]
#[tactic(auto, using(crate::proofs::RangeLemmas::one_lemmas))]
pub fn cells(count: u32) -> Option<usize>
    ensures count { result ≡ depth_of (offset_to count) }
{
    cells_of_bytes();
    Some(count as usize)
}

/// The values of a range are pushed.
#[inline(always)]
#[tactic(auto, using(crate::proofs::RangeLemmas::pushed_lemmas))]
pub fn push_range(
    alloc: Global,
    stack: &mut Stack,
    range: Option<CellRange>,
) -> Result<(), NoMemory>
    requires case { range_pushed range stack.old.cells ≢ None }
    ensures cells { OnOk result (range_pushed range stack.old.cells ≡ Some stack.new.cells) }
    ensures bp { OnOk result (stack.new.bp ≡ stack.old.bp) }
{
    match range {
        None => unreachable!(),
        Some(range) => push_copies(alloc, stack, range.above, range.count),
    }
}

/// The top values are written onto the cells of a range.
#[inline(always)]
#[tactic(auto, using(crate::proofs::RangeLemmas::written_lemmas))]
pub fn write_range(
    alloc: Global,
    stack: &mut Stack,
    range: Option<CellRange>,
) -> Result<(), NoMemory>
    requires case { range_written range stack.old.cells ≢ None }
    ensures cells { OnOk result (range_written range stack.old.cells ≡ Some stack.new.cells) }
    ensures bp { OnOk result (stack.new.bp ≡ stack.old.bp) }
{
    match range {
        None => unreachable!(),
        Some(range) => copy_down(alloc, stack, 0, range.above, range.count),
    }
}

/// The int so far down changes where it stands. Where it can be read at once, no call is made.
#[inline(always)]
fn change_at(stack: &mut Stack, depth: usize, op: Unary) -> Result<(), NoMemory>
    requires case { int_at (unary_of op) depth stack.old.cells ≢ None }
    ensures cells { OnOk result
        (int_at (unary_of op) depth stack.old.cells ≡ Some stack.new.cells) }
    ensures bp { OnOk result (stack.new.bp ≡ stack.old.bp) }
{
    match stack.int_near(depth) {
        None => change_apart(stack, depth, op),
        Some(n) => put_changed(stack, depth, op, n),
    }
}

/// The same by a call of its own, wherever the int lies.
#[inline(never)]
#[tactic(auto, using(crate::proofs::RangeLemmas::at_has))]
fn change_apart(stack: &mut Stack, depth: usize, op: Unary) -> Result<(), NoMemory>
    requires case { int_at (unary_of op) depth stack.old.cells ≢ None }
    ensures cells { OnOk result
        (int_at (unary_of op) depth stack.old.cells ≡ Some stack.new.cells) }
    ensures bp { OnOk result (stack.new.bp ≡ stack.old.bp) }
{
    let n = int(stack, depth);
    put_changed(stack, depth, op, n)
}

/// What an int becomes is put in its place.
#[inline(always)]
#[tactic(auto, using(crate::proofs::RangeLemmas::int_value))]
fn put_changed(stack: &mut Stack, depth: usize, op: Unary, n: i32) -> Result<(), NoMemory>
    requires int { slice_get stack.old.cells depth ≡ Some (Holds (IntValue n)) }
    ensures cells { OnOk result
        (int_at (unary_of op) depth stack.old.cells ≡ Some stack.new.cells) }
    ensures bp { OnOk result (stack.new.bp ≡ stack.old.bp) }
{
    put(stack, depth, Value::Int(of_one(op, n)))?;
    Ok(())
}

/// The int at a range changes.
#[inline(always)]
#[tactic(auto, using(crate::proofs::RangeLemmas::changed_lemmas))]
pub fn change_int(stack: &mut Stack, range: Option<CellRange>, op: Unary) -> Result<(), NoMemory>
    requires case { int_changed (unary_of op) range stack.old.cells ≢ None }
    ensures cells { OnOk result
        (int_changed (unary_of op) range stack.old.cells ≡ Some stack.new.cells) }
    ensures bp { OnOk result (stack.new.bp ≡ stack.old.bp) }
{
    match range {
        None => unreachable!(),
        Some(range) => change_at(stack, range.above, op),
    }
}

/// The cells at an offset from BP, as those so far down from the top.
#[inline(always)]
#[tactic(auto, using(crate::proofs::RangeLemmas::bp_lemmas))]
pub fn bp_range(stack: &Stack, offset: i32, size: u16) -> Option<CellRange>
    requires inside { reached (bp_range stack.now offset size) stack.now.cells ≢ None }
    ensures range { result ≡ bp_range stack.now offset size }
{
    match range_at(offset, size) {
        None => None,
        Some(range) => {
            let over_bp = stack.len() - stack.bp();
            Some(CellRange {
                above: over_bp + range.above,
                count: range.count,
            })
        }
    }
}

/// CPTOPSP of any cells: a call of its own, as are those that follow, so that the way of one cell
/// stays short.
#[inline(never)]
pub fn push_sp(alloc: Global, stack: &mut Stack, offset: i32, size: u16) -> Result<(), NoMemory>
    requires case { range_pushed (range_at offset size) stack.old.cells ≢ None }
    ensures cells { OnOk result
        (range_pushed (range_at offset size) stack.old.cells ≡ Some stack.new.cells) }
    ensures bp { OnOk result (stack.new.bp ≡ stack.old.bp) }
{
    push_range(alloc, stack, range_at(offset, size))
}

/// CPTOPBP.
#[inline(never)]
#[tactic(auto, using(crate::proofs::RangeLemmas::reach_lemmas))]
pub fn push_bp(alloc: Global, stack: &mut Stack, offset: i32, size: u16) -> Result<(), NoMemory>
    requires case { range_pushed (bp_range stack.old offset size) stack.old.cells ≢ None }
    ensures cells { OnOk result
        (range_pushed (bp_range stack.old offset size) stack.old.cells ≡ Some stack.new.cells) }
    ensures bp { OnOk result (stack.new.bp ≡ stack.old.bp) }
{
    let range = bp_range(stack, offset, size);
    push_range(alloc, stack, range)
}

/// CPDOWNSP of any cells.
#[inline(never)]
pub fn write_sp(alloc: Global, stack: &mut Stack, offset: i32, size: u16) -> Result<(), NoMemory>
    requires case { range_written (range_at offset size) stack.old.cells ≢ None }
    ensures cells { OnOk result
        (range_written (range_at offset size) stack.old.cells ≡ Some stack.new.cells) }
    ensures bp { OnOk result (stack.new.bp ≡ stack.old.bp) }
{
    write_range(alloc, stack, range_at(offset, size))
}

/// CPDOWNBP.
#[inline(never)]
#[tactic(auto, using(crate::proofs::RangeLemmas::reach_lemmas))]
pub fn write_bp(alloc: Global, stack: &mut Stack, offset: i32, size: u16) -> Result<(), NoMemory>
    requires case { range_written (bp_range stack.old offset size) stack.old.cells ≢ None }
    ensures cells { OnOk result
        (range_written (bp_range stack.old offset size) stack.old.cells ≡ Some stack.new.cells) }
    ensures bp { OnOk result (stack.new.bp ≡ stack.old.bp) }
{
    let range = bp_range(stack, offset, size);
    write_range(alloc, stack, range)
}

/// DECISP and INCISP at any offset.
#[inline(never)]
pub fn change_sp(stack: &mut Stack, offset: i32, op: Unary) -> Result<(), NoMemory>
    requires case { int_changed (unary_of op) (range_at offset 4) stack.old.cells ≢ None }
    ensures cells { OnOk result
        (int_changed (unary_of op) (range_at offset 4) stack.old.cells ≡ Some stack.new.cells) }
    ensures bp { OnOk result (stack.new.bp ≡ stack.old.bp) }
{
    change_int(stack, range_at(offset, 4), op)
}

/// DECIBP and INCIBP.
#[inline(never)]
#[tactic(auto, using(crate::proofs::RangeLemmas::reach_lemmas))]
pub fn change_bp(stack: &mut Stack, offset: i32, op: Unary) -> Result<(), NoMemory>
    requires case { int_changed (unary_of op) (bp_range stack.old offset 4) stack.old.cells
        ≢ None }
    ensures cells { OnOk result
        (int_changed (unary_of op) (bp_range stack.old offset 4) stack.old.cells
        ≡ Some stack.new.cells) }
    ensures bp { OnOk result (stack.new.bp ≡ stack.old.bp) }
{
    let range = bp_range(stack, offset, 4);
    change_int(stack, range, op)
}

/// So many values are popped.
#[inline(always)]
#[tactic(auto, using(crate::proofs::RangeLemmas::dropped_lemmas))]
pub fn drop_values(stack: &mut Stack, count: Option<usize>)
    requires case { values_dropped count stack.old.cells ≢ None }
    ensures cells { values_dropped count stack.old.cells ≡ Some stack.new.cells }
    ensures bp { stack.new.bp ≡ stack.old.bp }
{
    match count {
        None => unreachable!(),
        Some(1) => stack.drop_one(),
        Some(count) => stack.drop_top(count),
    }
}

/// MOVSP at any offset.
#[inline(never)]
pub fn drop_sp(stack: &mut Stack, offset: i32)
    requires case { values_dropped (depth_of offset) stack.old.cells ≢ None }
    ensures cells { values_dropped (depth_of offset) stack.old.cells ≡ Some stack.new.cells }
    ensures bp { stack.new.bp ≡ stack.old.bp }
{
    drop_values(stack, depth_of(offset));
}

/// Of the `total` values on top those are kept that begin `offset` cells above the lowest of them.
#[tactic(auto, using(crate::proofs::RangeLemmas::kept_lemmas))]
fn keep_values(
    alloc: Global,
    stack: &mut Stack,
    total: usize,
    offset: usize,
    count: usize,
) -> Result<(), NoMemory>
    requires case { values_kept total offset count stack.old.cells ≢ None }
    requires small { offset + count < 2 ^ 32 }
    ensures cells { OnOk result
        (values_kept total offset count stack.old.cells ≡ Some stack.new.cells) }
    ensures bp { OnOk result (stack.new.bp ≡ stack.old.bp) }
{
    let above = total - (offset + count);
    let rest = total - count;
    copy_down(alloc, stack, above, rest, count)?;
    stack.drop_top(rest);
    Ok(())
}

/// DESTRUCT, whose three numbers are of bytes.
#[inline(never)]
pub fn keep_range(
    alloc: Global,
    stack: &mut Stack,
    total: u16,
    offset: u16,
    size: u16,
) -> Result<(), NoMemory>
    requires case { range_kept total offset size stack.old.cells ≢ None }
    ensures cells { OnOk result
        (range_kept total offset size stack.old.cells ≡ Some stack.new.cells) }
    ensures bp { OnOk result (stack.new.bp ≡ stack.old.bp) }
{
    match (
        cell_count(total as u32),
        cell_count(offset as u32),
        cell_count(size as u32),
    ) {
        (Some(total), Some(offset), Some(count)) => {
            keep_values(alloc, stack, total, offset, count)
        }
        _ => unreachable!(),
    }
}

/// Whether the `count` values on top are equal to as many beneath them.
#[tactic(auto, using(crate::proofs::RangeLemmas::same_lemmas))]
fn same_runs(stack: &Stack, count: usize) -> bool
    requires upper { AreValues count stack.now.cells }
    requires lower { AreValues count (drop count stack.now.cells) }
    ensures same { IfSome (values_on count stack.now.cells)
        (λ upper. IfSome (values_on count (drop count stack.now.cells))
        (λ lower. result ≡ values_eq upper lower)) }
{
    equality_is_tested();
    let len = stack.len();
    for i in 0..count {
        if !value(stack, i).same(value(stack, count + i)) {
            return false;
        }
    }
    true
}

/// Two runs of so many values are compared. `negated` says that 1 is for those that differ.
#[tactic(auto, using(crate::proofs::RangeLemmas::runs_lemmas))]
fn compare_runs(stack: &mut Stack, count: usize, negated: bool) -> Result<(), NoMemory>
    requires case { runs_compared (answer_of negated) (Some count) stack.old.cells ≢ None }
    ensures cells { OnOk result (runs_compared (answer_of negated) (Some count) stack.old.cells
        ≡ Some stack.new.cells) }
    ensures bp { OnOk result (stack.new.bp ≡ stack.old.bp) }
{
    let len = stack.len();
    let same = same_runs(stack, count);
    stack.drop_top(count + count);
    stack.push(Cell::Value(Value::Int(as_int(same != negated))))
}

/// EQUAL and NEQUAL of ints, where both can be read at once. `false` says that nothing was done.
#[inline(always)]
#[tactic(auto, using(crate::proofs::IntPairs::pair_lemmas))]
fn compare_near(stack: &mut Stack, negated: bool) -> bool
    ensures cells { result ≡ true → pair_compared (answer_of negated) (Some IntTy) stack.old.cells
        ≡ Some stack.new.cells }
    ensures bp { stack.new.bp ≡ stack.old.bp }
    ensures same { result ≡ false → stack.new ≡ stack.old }
{
    if negated {
        ints_near(stack, Binary::Differs)
    } else {
        ints_near(stack, Binary::Same)
    }
}

/// EQUAL and NEQUAL. Ints are compared here. Gives the place that follows, which is known.
#[inline(always)]
#[tactic(auto, using(crate::proofs::IntPairs::kind_lemmas))]
pub fn compare(
    stack: &mut Stack,
    kind: u8,
    size: u16,
    negated: bool,
    next: u32,
) -> Result<u32, NoMemory>
    requires case { compared (answer_of negated) kind size stack.old.cells ≢ None }
    ensures cells { OnOk result
        (compared (answer_of negated) kind size stack.old.cells ≡ Some stack.new.cells) }
    ensures bp { OnOk result (stack.new.bp ≡ stack.old.bp) }
    ensures place { IfOk result (λ place. place ≡ next) }
{
    if kind == 0x20 && compare_near(stack, negated) {
        Ok(next)
    } else {
        compare_apart(stack, kind, size, negated, next)
    }
}

/// The same by a call of its own.
#[inline(never)]
fn compare_apart(
    stack: &mut Stack,
    kind: u8,
    size: u16,
    negated: bool,
    next: u32,
) -> Result<u32, NoMemory>
    requires case { compared (answer_of negated) kind size stack.old.cells ≢ None }
    ensures cells { OnOk result
        (compared (answer_of negated) kind size stack.old.cells ≡ Some stack.new.cells) }
    ensures bp { OnOk result (stack.new.bp ≡ stack.old.bp) }
    ensures place { IfOk result (λ place. place ≡ next) }
{
    compare_values(stack, kind, size, negated)?;
    Ok(next)
}

/// EQUAL and NEQUAL of any values.
#[tactic(auto, using(crate::proofs::RangeLemmas::pair_lemmas))]
fn compare_values(stack: &mut Stack, kind: u8, size: u16, negated: bool) -> Result<(), NoMemory>
    requires case { compared (answer_of negated) kind size stack.old.cells ≢ None }
    ensures cells { OnOk result
        (compared (answer_of negated) kind size stack.old.cells ≡ Some stack.new.cells) }
    ensures bp { OnOk result (stack.new.bp ≡ stack.old.bp) }
{
    if kind == 0x24 {
        match cell_count(size as u32) {
            None => unreachable!(),
            Some(count) => compare_runs(stack, count, negated),
        }
    } else {
        compare_runs(stack, 1, negated)
    }
}
