//! The code of each node of a typed expression.

ghost use Rattle.std.specs.Prelude.{◌≡◌, ◌++◌, ◌+◌, ◌∷◌, ◌<◌, ◌≤◌, ◌^◌, [], length, IfOk, OnOk};
ghost use Rattle.nwq_value.specs.Limits.{struct_cell_limit};
ghost use Rattle.ncs_code.specs.Plain.{plain as plain_op};
ghost use Rattle.ncs_code.specs.Spelling.{HasRow};
ghost use Rattle.typing_rules.specs.Reading.{plain, plain_all};
ghost use Rattle.typing_rules.specs.Typed as typed;
ghost use Rattle.typing_rules.specs.Typed.{type_of};
ghost use Rattle.typing_rules.specs.Cells.{cells, is_captured};
ghost use Rattle.emission_rules.specs.Bounds.{
  IsCallee,
  IsExpr,
  IsOperator,
  IsType,
  frame_limit,
  weight,
};
ghost use Rattle.emission_rules.specs.Operations as operations;
ghost use Rattle.emission_rules.specs.Expressions as code;
ghost use Rattle.codegen_expr.specs.Emitted.{AreReady, CanBeEmitted, extended};
ghost use Rattle.codegen_expr.specs.Parts.{offsets};

use crate::calls::{emit_called, emit_constants, emit_room};
use crate::lines::{bytes_of, emit_constant, emit_top_again, is_void, skip_right};
use crate::operations::{Shortcut, combine, operate, operation, shortcut_of};
use crate::places::{
    emit_decrement, emit_first, emit_increment, emit_name, emit_write, home_of, member_home, read,
    step_before,
};
use emission_rules::parts::places_above;
use ncs_code::Op;
use ncs_emit::{Emitter, Jump, part_laws};
use nss_layout::Layout;
use nss_tree::{AssignOperator, BinaryOperator, PostfixOperator, PrefixOperator};
use nwq_value::{Const, NoMemory, Ty};
use typing_rules::{Callee, Expression};

/// Adds the code of an expression at a depth of the frame: its lines, with the emitter's next label
/// and those behind it. After `NoMemory` nothing is told of the emitter.
pub fn emit_expr(
    out: &mut Emitter,
    layout: &Layout,
    e: &Expression,
    depth: u32,
) -> Result<(), NoMemory>
    requires bounded { IsExpr out.old.labels layout.now (plain e.now) }
    requires deep { depth + weight (plain e.now) ≤ frame_limit }
    requires globals { layout.now.globals ≤ frame_limit }
    requires labelled { out.old.labels + code.labels (plain e.now) < 2 ^ 32 }
    ensures ok { OnOk result (out.new
        ≡ extended out.old (code.emit layout.now out.old.labels depth (plain e.now))
        (code.labels (plain e.now))) }
{
    expression(out, layout, e, depth)
}

#[cycle(emit)]
fn expression(
    out: &mut Emitter,
    layout: &Layout,
    e: &Expression,
    depth: u32,
) -> Result<(), NoMemory>
    requires ready { CanBeEmitted out.old.labels layout.now depth (plain e.now) }
    ensures { OnOk result (out.new
        ≡ extended out.old (code.emit layout.now out.old.labels depth (plain e.now))
        (code.labels (plain e.now))) }
{
    match e {
        Expression::Literal { value } => emit_constant(out, value),
        Expression::Name { ty, place } => emit_name(out, layout, *ty, place, depth),
        Expression::Call {
            ty,
            callee,
            arguments,
            filled,
        } => call(
            out,
            layout,
            *ty,
            *callee,
            arguments.as_slice(),
            filled.as_slice(),
            depth,
        ),
        Expression::Member { ty, of, before } => member(out, layout, *ty, of, *before, depth),
        Expression::Prefix { operator, of, .. } => prefix(out, layout, *operator, of, depth),
        Expression::Postfix { operator, of, .. } => postfix(out, layout, *operator, of, depth),
        Expression::Binary {
            operator,
            left,
            right,
            ..
        } => binary(out, layout, *operator, left, right, depth),
        Expression::Assign {
            ty,
            operator,
            place,
            value,
        } => assign(out, layout, *ty, *operator, place, value, depth),
    }
}

/// A member of a place is read there, of another value it is cut out.
#[cycle(emit)]
#[tactic(auto, unfolding(ncs_code::specs::Spelling::has_type))]
fn member(
    out: &mut Emitter,
    layout: &Layout,
    ty: Ty,
    of: &Expression,
    before: u32,
    depth: u32,
) -> Result<(), NoMemory>
    requires ready { CanBeEmitted out.old.labels layout.now depth (plain of.now) }
    requires is_type { IsType layout.now ty }
    requires whole { IsType layout.now (type_of (plain of.now)) }
    requires inside { before ≤ struct_cell_limit }
    ensures { OnOk result (out.new ≡ extended out.old
        (code.emit layout.now out.old.labels depth (typed.member ty (plain of.now) before))
        (code.labels (plain of.now))) }
{
    let count = layout.cells(ty);
    match member_home(layout, of, before) {
        Some(home) => out.op(&read(layout, depth, count, home)),
        None => {
            expression(out, layout, of, depth)?;
            out.op(&Op::Destruct {
                total: bytes_of(layout.cells(of.ty())),
                offset: bytes_of(before),
                size: bytes_of(count),
            })
        }
    }
}

#[cycle(emit)]
fn prefix(
    out: &mut Emitter,
    layout: &Layout,
    operator: PrefixOperator,
    of: &Expression,
    depth: u32,
) -> Result<(), NoMemory>
    requires ready { CanBeEmitted out.old.labels layout.now depth (plain of.now) }
    ensures { OnOk result (out.new ≡ extended out.old
        (code.prefix_code layout.now depth operator (code.home layout.now (plain of.now))
        (code.emit layout.now out.old.labels depth (plain of.now)))
        (code.labels (plain of.now))) }
{
    let home = home_of(layout, of);
    step_before(out, layout, operator, home, depth)?;
    expression(out, layout, of, depth)?;
    operate(out, operator)
}

#[cycle(emit)]
fn postfix(
    out: &mut Emitter,
    layout: &Layout,
    operator: PostfixOperator,
    of: &Expression,
    depth: u32,
) -> Result<(), NoMemory>
    requires ready { CanBeEmitted out.old.labels layout.now depth (plain of.now) }
    ensures { OnOk result (out.new ≡ extended out.old
        (code.postfix_code layout.now depth operator (code.home layout.now (plain of.now))
        (code.emit layout.now out.old.labels depth (plain of.now)))
        (code.labels (plain of.now))) }
{
    let home = home_of(layout, of);
    expression(out, layout, of, depth)?;
    match operator {
        PostfixOperator::Increment => emit_increment(out, layout, depth + 1, home),
        PostfixOperator::Decrement => emit_decrement(out, layout, depth + 1, home),
    }
}

#[cycle(emit)]
fn binary(
    out: &mut Emitter,
    layout: &Layout,
    operator: BinaryOperator,
    left: &Expression,
    right: &Expression,
    depth: u32,
) -> Result<(), NoMemory>
    requires few { cells layout.now.structs (type_of (plain left.now)) ≤ struct_cell_limit }
    requires fits { IsOperator operator (type_of (plain left.now)) }
    requires first { CanBeEmitted (out.old.labels + code.shortcut_labels (code.shortcut operator))
        layout.now depth (plain left.now) }
    requires second { CanBeEmitted
        (out.old.labels + code.shortcut_labels (code.shortcut operator)
        + code.labels (plain left.now))
        layout.now (depth + cells layout.now.structs (type_of (plain left.now)))
        (plain right.now) }
    ensures { OnOk result (out.new ≡ extended out.old
        (code.binary_code out.old.labels (code.shortcut operator)
        (operations.operation operator (type_of (plain left.now))
        (cells layout.now.structs (type_of (plain left.now))))
        (code.emit layout.now (out.old.labels + code.shortcut_labels (code.shortcut operator)) depth
        (plain left.now))
        (code.emit layout.now
        (out.old.labels + code.shortcut_labels (code.shortcut operator)
        + code.labels (plain left.now))
        (depth + cells layout.now.structs (type_of (plain left.now))) (plain right.now)))
        (code.shortcut_labels (code.shortcut operator) + code.labels (plain left.now)
        + code.labels (plain right.now))) }
{
    let ty = left.ty();
    let op = operation(operator, ty, layout.cells(ty));
    match shortcut_of(operator) {
        Shortcut::WhereTrue => or_else(out, layout, &op, left, right, depth),
        Shortcut::WhereFalse => and_then(out, layout, &op, left, right, depth),
        Shortcut::Never => operands(out, layout, &op, left, right, depth),
    }
}

/// The right operand is left out where the left one isn't 0.
#[cycle(emit)]
#[tactic(auto, unfolding(ncs_code::specs::Spelling::has_type))]
fn or_else(
    out: &mut Emitter,
    layout: &Layout,
    op: &Op<'_>,
    left: &Expression,
    right: &Expression,
    depth: u32,
) -> Result<(), NoMemory>
    requires row { HasRow (plain_op op.now) }
    requires few { cells layout.now.structs (type_of (plain left.now)) ≤ struct_cell_limit }
    requires first { CanBeEmitted (out.old.labels + 2) layout.now depth (plain left.now) }
    requires second { CanBeEmitted (out.old.labels + 2 + code.labels (plain left.now)) layout.now
        (depth + cells layout.now.structs (type_of (plain left.now))) (plain right.now) }
    ensures { OnOk result (out.new ≡ extended out.old
        (code.binary_code out.old.labels code.WhereTrue (plain_op op.now)
        (code.emit layout.now (out.old.labels + 2) depth (plain left.now))
        (code.emit layout.now (out.old.labels + 2 + code.labels (plain left.now))
        (depth + cells layout.now.structs (type_of (plain left.now))) (plain right.now)))
        (2 + code.labels (plain left.now) + code.labels (plain right.now))) }
{
    part_laws();
    places_above();
    let other = out.label()?;
    let end = out.label()?;
    expression(out, layout, left, depth)?;
    skip_right(out, op, other, end)?;
    expression(out, layout, right, depth + layout.cells(left.ty()))?;
    out.op(op)?;
    out.place(end);
    Ok(())
}

/// The right operand is left out where the left one is 0.
#[cycle(emit)]
fn and_then(
    out: &mut Emitter,
    layout: &Layout,
    op: &Op<'_>,
    left: &Expression,
    right: &Expression,
    depth: u32,
) -> Result<(), NoMemory>
    requires row { HasRow (plain_op op.now) }
    requires few { cells layout.now.structs (type_of (plain left.now)) ≤ struct_cell_limit }
    requires first { CanBeEmitted (out.old.labels + 1) layout.now depth (plain left.now) }
    requires second { CanBeEmitted (out.old.labels + 1 + code.labels (plain left.now)) layout.now
        (depth + cells layout.now.structs (type_of (plain left.now))) (plain right.now) }
    ensures { OnOk result (out.new ≡ extended out.old
        (code.binary_code out.old.labels code.WhereFalse (plain_op op.now)
        (code.emit layout.now (out.old.labels + 1) depth (plain left.now))
        (code.emit layout.now (out.old.labels + 1 + code.labels (plain left.now))
        (depth + cells layout.now.structs (type_of (plain left.now))) (plain right.now)))
        (1 + code.labels (plain left.now) + code.labels (plain right.now))) }
{
    part_laws();
    places_above();
    let end = out.label()?;
    expression(out, layout, left, depth)?;
    emit_top_again(out)?;
    out.jump(Jump::Jz, end)?;
    expression(out, layout, right, depth + layout.cells(left.ty()))?;
    out.op(op)?;
    out.place(end);
    Ok(())
}

/// Both operands are evaluated.
#[cycle(emit)]
fn operands(
    out: &mut Emitter,
    layout: &Layout,
    op: &Op<'_>,
    left: &Expression,
    right: &Expression,
    depth: u32,
) -> Result<(), NoMemory>
    requires row { HasRow (plain_op op.now) }
    requires few { cells layout.now.structs (type_of (plain left.now)) ≤ struct_cell_limit }
    requires first { CanBeEmitted (out.old.labels + 0) layout.now depth (plain left.now) }
    requires second { CanBeEmitted (out.old.labels + 0 + code.labels (plain left.now)) layout.now
        (depth + cells layout.now.structs (type_of (plain left.now))) (plain right.now) }
    ensures { OnOk result (out.new ≡ extended out.old
        (code.binary_code out.old.labels code.Never (plain_op op.now)
        (code.emit layout.now (out.old.labels + 0) depth (plain left.now))
        (code.emit layout.now (out.old.labels + 0 + code.labels (plain left.now))
        (depth + cells layout.now.structs (type_of (plain left.now))) (plain right.now)))
        (0 + code.labels (plain left.now) + code.labels (plain right.now))) }
{
    expression(out, layout, left, depth)?;
    expression(out, layout, right, depth + layout.cells(left.ty()))?;
    out.op(op)
}

#[cycle(emit)]
fn assign(
    out: &mut Emitter,
    layout: &Layout,
    ty: Ty,
    operator: AssignOperator,
    place: &Expression,
    value: &Expression,
    depth: u32,
) -> Result<(), NoMemory>
    requires is_type { IsType layout.now ty }
    requires ready { CanBeEmitted out.old.labels layout.now
        (depth + code.cells_first (code.is_set operator) (cells layout.now.structs ty))
        (plain value.now) }
    requires near { offsets (plain place.now) ≤ frame_limit }
    ensures { OnOk result (out.new ≡ extended out.old
        (code.emit layout.now out.old.labels depth
        (typed.assign ty operator (plain place.now) (plain value.now)))
        (code.labels (plain value.now))) }
{
    let home = home_of(layout, place);
    let count = layout.cells(ty);
    let first = emit_first(out, layout, operator, home, count, depth)?;
    expression(out, layout, value, depth + first)?;
    combine(out, operator, ty)?;
    emit_write(out, layout, depth + count, count, home)
}

#[cycle(emit)]
fn call(
    out: &mut Emitter,
    layout: &Layout,
    ty: Ty,
    callee: Callee,
    given: &[Expression],
    filled: &[Const],
    depth: u32,
) -> Result<(), NoMemory>
    requires is_type { IsType layout.now ty }
    requires is_callee { IsCallee out.old.labels
        (code.count_arguments (plain_all given.now) + length filled.now) callee }
    requires ready { AreReady out.old.labels layout.now
        (depth + length (code.result_room layout.now callee ty) + length filled.now)
        (plain_all given.now) }
    ensures { OnOk result (out.new ≡ extended out.old
        (code.emit layout.now out.old.labels depth
        (typed.call ty callee (plain_all given.now) filled.now))
        (code.all_labels (plain_all given.now))) }
{
    let room = emit_room(out, layout, callee, ty)?;
    emit_constants(out, filled)?;
    arguments(out, layout, given, depth + room + filled.len() as u32)?;
    emit_called(out, callee, given.len() + filled.len())
}

/// Adds the code of arguments, the last one first.
#[cycle(emit)]
fn arguments(
    out: &mut Emitter,
    layout: &Layout,
    given: &[Expression],
    mut depth: u32,
) -> Result<(), NoMemory>
    requires ready { AreReady out.old.labels layout.now depth (plain_all given.now) }
    ensures { OnOk result (out.new ≡ extended out.old
        (code.emit_all layout.now out.old.labels depth (plain_all given.now))
        (code.all_labels (plain_all given.now))) }
{
    let mut i = given.len();
    while i > 0 {
        i -= 1;
        let last = &given[i];
        argument(out, layout, last, depth)?;
        depth += layout.cells(last.ty());
    }
    Ok(())
}

/// Adds the code of an argument: that of an action is jumped over.
#[cycle(emit)]
#[tactic(auto, unfolding(ncs_code::specs::Spelling::has_type))]
fn argument(
    out: &mut Emitter,
    layout: &Layout,
    given: &Expression,
    depth: u32,
) -> Result<(), NoMemory>
    requires ready { CanBeEmitted
        (out.old.labels + code.argument_labels (is_captured (plain given.now)))
        layout.now depth (plain given.now) }
    ensures { OnOk result (out.new ≡ extended out.old
        (code.argument_code layout.now out.old.labels depth (is_captured (plain given.now))
        (code.emit layout.now
        (out.old.labels + code.argument_labels (is_captured (plain given.now))) depth
        (plain given.now)))
        (code.argument_labels (is_captured (plain given.now))
        + code.labels (plain given.now))) }
{
    part_laws();
    places_above();
    if !is_void(given.ty()) {
        return expression(out, layout, given, depth);
    }
    let end = out.label()?;
    out.op(&Op::StoreState {
        globals: 4 * layout.globals(),
        locals: 4 * depth,
    })?;
    out.jump(Jump::Jmp, end)?;
    expression(out, layout, given, depth)?;
    out.op(&Op::Retn)?;
    out.place(end);
    Ok(())
}
