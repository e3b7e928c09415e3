//! The code of each statement.

ghost use Rattle.std.specs.Prelude.{◌≡◌, ◌++◌, ◌+◌, ◌-◌, ◌≤◌, IfOk, OnOk, None};
ghost use Rattle.std.specs.Option.{option_map};
ghost use Rattle.nss_tree.specs.Statements as tree;
ghost use Rattle.typing_rules.specs.Reading.{plain};
ghost use Rattle.typing_rules.specs.UnitReading.{typed_stmt, typed_stmts};
ghost use Rattle.emission_rules.specs.Bounds.{frame_limit};
ghost use Rattle.emission_rules.specs.Expressions as expr;
ghost use Rattle.emission_rules.specs.Layout.{all_declared_cells};
ghost use Rattle.emission_rules.specs.Operations.{dropped};
ghost use Rattle.emission_rules.specs.Statements as code;
ghost use Rattle.codegen_expr.specs.Emitted.{CanBeEmitted, extended};
ghost use Rattle.codegen_unit.specs.Ready.{
  AreOpenIn,
  IsPartReady,
  LoopReady,
  StmtReady,
  StmtsReady,
  SwitchReady,
  plain_exits,
};

use crate::declarations::{declared_cells, emit_names};
use crate::exits::{Exits, in_loop, in_switch};
use crate::loops::{emit_again, emit_turn};
use crate::parts::{emit_effect, emit_evaluated, emit_leave, emit_return};
use crate::switches::{close_switch, count_labels, emit_choice, make_labels, place_label};
use codegen_expr::{drop_cells, emit_expr};
use emission_rules::parts::places_above;
use ncs_emit::{Emitter, Jump, part_laws};
use nss_layout::Layout;
use nss_tree::Stmt;
use nwq_value::NoMemory;
use typing_rules::{Expression, TypedStmt};

#[cycle(statement)]
pub(crate) fn statement(
    out: &mut Emitter,
    layout: &Layout,
    exits: Exits,
    stmt: &TypedStmt,
    depth: u32,
) -> Result<(), NoMemory>
    requires ready { StmtReady out.old.labels layout.now depth exits (typed_stmt stmt.now) }
    ensures { OnOk result (out.new ≡ extended out.old
        (code.emit_stmt layout.now (plain_exits exits) out.old.labels depth (typed_stmt stmt.now))
        (code.stmt_labels (typed_stmt stmt.now))) }
{
    match stmt {
        Stmt::Block { items, .. } => block(out, layout, exits, items.as_slice(), depth),
        Stmt::Empty { .. } => Ok(()),
        Stmt::Expression { value, .. } => emit_effect(out, layout, value, depth),
        Stmt::If {
            condition,
            then,
            ..
        } => if_only(out, layout, exits, condition, then, depth),
        Stmt::IfElse {
            condition,
            then,
            otherwise,
            ..
        } => if_else(out, layout, exits, condition, then, otherwise, depth),
        Stmt::While {
            condition,
            body,
            ..
        } => while_loop(out, layout, condition, body, depth),
        Stmt::Do {
            body,
            condition,
            ..
        } => do_loop(out, layout, body, condition, depth),
        Stmt::For {
            start,
            condition,
            step,
            body,
            ..
        } => for_loop(out, layout, start, condition, step, body, depth),
        Stmt::Switch { value, body, .. } => {
            switch(out, layout, exits, value, body.as_slice(), depth)
        }
        Stmt::Break { .. } => emit_leave(out, exits.break_to, depth),
        Stmt::Continue { .. } => emit_leave(out, exits.continue_to, depth),
        Stmt::Return { value, .. } => emit_return(out, layout, value, depth),
        Stmt::Declaration { names, .. } => emit_names(out, layout, names.as_slice(), depth),
        Stmt::Case { .. } => Ok(()),
        Stmt::Default { .. } => Ok(()),
    }
}

/// Adds the code of statements in a row, where `at` is the next label of a switch that they stand
/// directly in, and gives the depth behind them.
#[cycle(statement)]
pub(crate) fn statements(
    out: &mut Emitter,
    layout: &Layout,
    exits: Exits,
    mut at: Option<u32>,
    stmts: &[TypedStmt],
    mut depth: u32,
) -> Result<u32, NoMemory>
    requires ready { StmtsReady out.old.labels layout.now depth exits (typed_stmts stmts.now) }
    requires open { AreOpenIn out.old.labels out.old.lines at (typed_stmts stmts.now) }
    ensures code { OnOk result (out.new ≡ extended out.old
        (code.emit_stmts layout.now (plain_exits exits) out.old.labels depth at
        (typed_stmts stmts.now))
        (code.all_stmt_labels (typed_stmts stmts.now))) }
    ensures depth { IfOk result (λ behind. behind
        ≡ depth + all_declared_cells layout.now.structs (typed_stmts stmts.now)) }
{
    part_laws();
    places_above();
    for stmt in stmts {
        at = place_label(out, at, stmt);
        statement(out, layout, exits, stmt, depth)?;
        depth += declared_cells(layout, stmt);
    }
    Ok(depth)
}

#[cycle(statement)]
fn block(
    out: &mut Emitter,
    layout: &Layout,
    exits: Exits,
    items: &[TypedStmt],
    depth: u32,
) -> Result<(), NoMemory>
    requires ready { StmtsReady out.old.labels layout.now depth exits (typed_stmts items.now) }
    ensures { OnOk result (out.new ≡ extended out.old
        (code.emit_stmts layout.now (plain_exits exits) out.old.labels depth None
        (typed_stmts items.now)
        ++ dropped (all_declared_cells layout.now.structs (typed_stmts items.now)))
        (code.all_stmt_labels (typed_stmts items.now))) }
{
    let behind = statements(out, layout, exits, None, items, depth)?;
    drop_cells(out, behind - depth)
}

#[cycle(statement)]
fn if_only(
    out: &mut Emitter,
    layout: &Layout,
    exits: Exits,
    condition: &Expression,
    then: &TypedStmt,
    depth: u32,
) -> Result<(), NoMemory>
    requires test { CanBeEmitted (out.old.labels + 1) layout.now depth (plain condition.now) }
    requires then { StmtReady (out.old.labels + 1 + expr.labels (plain condition.now)) layout.now
        depth exits (typed_stmt then.now) }
    ensures { OnOk result (out.new ≡ extended out.old
        (code.emit_stmt layout.now (plain_exits exits) out.old.labels depth
        (tree.if_only 0 (plain condition.now) (typed_stmt then.now)))
        (1 + expr.labels (plain condition.now) + code.stmt_labels (typed_stmt then.now))) }
{
    part_laws();
    places_above();
    let end = out.label()?;
    emit_expr(out, layout, condition, depth)?;
    out.jump(Jump::Jz, end)?;
    statement(out, layout, exits, then, depth)?;
    out.place(end);
    Ok(())
}

#[cycle(statement)]
fn if_else(
    out: &mut Emitter,
    layout: &Layout,
    exits: Exits,
    condition: &Expression,
    then: &TypedStmt,
    otherwise: &TypedStmt,
    depth: u32,
) -> Result<(), NoMemory>
    requires test { CanBeEmitted (out.old.labels + 2) layout.now depth (plain condition.now) }
    requires then { StmtReady (out.old.labels + 2 + expr.labels (plain condition.now)) layout.now
        depth exits (typed_stmt then.now) }
    requires otherwise { StmtReady
        (out.old.labels + 2 + expr.labels (plain condition.now)
        + code.stmt_labels (typed_stmt then.now))
        layout.now depth exits (typed_stmt otherwise.now) }
    ensures { OnOk result (out.new ≡ extended out.old
        (code.emit_stmt layout.now (plain_exits exits) out.old.labels depth
        (tree.if_else 0 (plain condition.now) (typed_stmt then.now) (typed_stmt otherwise.now)))
        (2 + expr.labels (plain condition.now) + code.stmt_labels (typed_stmt then.now)
        + code.stmt_labels (typed_stmt otherwise.now))) }
{
    part_laws();
    places_above();
    let other = make_labels(out, 2)?;
    let end = other + 1;
    emit_expr(out, layout, condition, depth)?;
    out.jump(Jump::Jz, other)?;
    statement(out, layout, exits, then, depth)?;
    out.jump(Jump::Jmp, end)?;
    out.place(other);
    statement(out, layout, exits, otherwise, depth)?;
    out.place(end);
    Ok(())
}

#[cycle(statement)]
fn while_loop(
    out: &mut Emitter,
    layout: &Layout,
    condition: &Expression,
    body: &TypedStmt,
    depth: u32,
) -> Result<(), NoMemory>
    requires test { CanBeEmitted (out.old.labels + 2) layout.now depth (plain condition.now) }
    requires body { LoopReady (out.old.labels + 2 + expr.labels (plain condition.now)) layout.now
        depth (typed_stmt body.now) }
    ensures { OnOk result (out.new ≡ extended out.old
        (code.emit_stmt layout.now code.no_exits out.old.labels depth
        (tree.while_loop 0 (plain condition.now) (typed_stmt body.now)))
        (2 + expr.labels (plain condition.now) + code.stmt_labels (typed_stmt body.now))) }
{
    part_laws();
    places_above();
    let next = make_labels(out, 2)?;
    let end = next + 1;
    let exits = in_loop(next, end, depth);
    out.place(next);
    emit_expr(out, layout, condition, depth)?;
    out.jump(Jump::Jz, end)?;
    statement(out, layout, exits, body, depth)?;
    out.jump(Jump::Jmp, next)?;
    out.place(end);
    Ok(())
}

#[cycle(statement)]
fn do_loop(
    out: &mut Emitter,
    layout: &Layout,
    body: &TypedStmt,
    condition: &Expression,
    depth: u32,
) -> Result<(), NoMemory>
    requires body { LoopReady (out.old.labels + 3) layout.now depth (typed_stmt body.now) }
    requires test { CanBeEmitted (out.old.labels + 3 + code.stmt_labels (typed_stmt body.now))
        layout.now depth (plain condition.now) }
    ensures { OnOk result (out.new ≡ extended out.old
        (code.emit_stmt layout.now code.no_exits out.old.labels depth
        (tree.do_loop 0 (typed_stmt body.now) (plain condition.now)))
        (3 + code.stmt_labels (typed_stmt body.now) + expr.labels (plain condition.now))) }
{
    part_laws();
    places_above();
    let top = make_labels(out, 3)?;
    let next = top + 1;
    let end = top + 2;
    let exits = in_loop(next, end, depth);
    out.place(top);
    statement(out, layout, exits, body, depth)?;
    out.place(next);
    emit_expr(out, layout, condition, depth)?;
    out.jump(Jump::Jnz, top)?;
    out.place(end);
    Ok(())
}

#[cycle(statement)]
fn for_loop(
    out: &mut Emitter,
    layout: &Layout,
    start: &Option<Expression>,
    condition: &Option<Expression>,
    step: &Option<Expression>,
    body: &TypedStmt,
    depth: u32,
) -> Result<(), NoMemory>
    requires start { IsPartReady (out.old.labels + 3) layout.now depth
        (option_map plain start.now) }
    requires test { IsPartReady
        (out.old.labels + 3 + code.some_labels (option_map plain start.now))
        layout.now depth (option_map plain condition.now) }
    requires body { LoopReady
        (out.old.labels + 3 + code.some_labels (option_map plain start.now)
        + code.some_labels (option_map plain condition.now))
        layout.now depth (typed_stmt body.now) }
    requires step { IsPartReady
        (out.old.labels + 3 + code.some_labels (option_map plain start.now)
        + code.some_labels (option_map plain condition.now)
        + code.stmt_labels (typed_stmt body.now))
        layout.now depth (option_map plain step.now) }
    ensures { OnOk result (out.new ≡ extended out.old
        (code.emit_stmt layout.now code.no_exits out.old.labels depth
        (tree.for_loop 0 (option_map plain start.now) (option_map plain condition.now)
        (option_map plain step.now) (typed_stmt body.now)))
        (3 + code.some_labels (option_map plain start.now)
        + code.some_labels (option_map plain condition.now)
        + code.stmt_labels (typed_stmt body.now)
        + code.some_labels (option_map plain step.now))) }
{
    part_laws();
    places_above();
    let top = make_labels(out, 3)?;
    let next = top + 1;
    let end = top + 2;
    let exits = in_loop(next, end, depth);
    emit_evaluated(out, layout, start, depth)?;
    emit_turn(out, layout, condition, depth, top, end)?;
    statement(out, layout, exits, body, depth)?;
    emit_again(out, layout, step, depth, next, top)?;
    out.place(end);
    Ok(())
}

#[cycle(statement)]
fn switch(
    out: &mut Emitter,
    layout: &Layout,
    exits: Exits,
    value: &Expression,
    body: &[TypedStmt],
    depth: u32,
) -> Result<(), NoMemory>
    requires value { CanBeEmitted (out.old.labels + 1 + code.count_labels (typed_stmts body.now))
        layout.now depth (plain value.now) }
    requires body { SwitchReady
        (out.old.labels + 1 + code.count_labels (typed_stmts body.now)
        + expr.labels (plain value.now))
        layout.now (depth + 1) exits (typed_stmts body.now) }
    ensures { OnOk result (out.new ≡ extended out.old
        (code.emit_stmt layout.now (plain_exits exits) out.old.labels depth
        (tree.switch 0 (plain value.now) (typed_stmts body.now)))
        (1 + code.count_labels (typed_stmts body.now) + expr.labels (plain value.now)
        + code.all_stmt_labels (typed_stmts body.now))) }
{
    part_laws();
    places_above();
    let end = make_labels(out, 1 + count_labels(body))?;
    emit_choice(out, layout, value, depth, end, body)?;
    let exits = in_switch(end, depth + 1, exits);
    let behind = statements(out, layout, exits, Some(end + 1), body, depth + 1)?;
    close_switch(out, end, behind - (depth + 1))
}
