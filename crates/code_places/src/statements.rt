//! The way through the code of statements and declarations.

ghost use Rattle.std.specs.Prelude.{◌≡◌, Some};
ghost use Rattle.std.specs.Option.{option_map};
ghost use Rattle.nss_tree.specs.Statements as tree;
ghost use Rattle.typing_rules.specs.Reading.{plain};
ghost use Rattle.typing_rules.specs.UnitReading.{typed_names, typed_stmt, typed_stmts};
ghost use Rattle.code_places.specs.Marks as marks;
ghost use Rattle.code_places.specs.Seeking.{sought};

use crate::cells::{all_declare, declares, either, has_cells};
use crate::expressions::seek_expr;
use crate::frame::{Frame, deeper, loop_frame, switch_frame};
use crate::lines::pass_start;
use crate::numbers::{behind, behind_if, behind_stmt, next};
use crate::seek::{Seek, pass, pass_constant, pass_if};
use nss_layout::Layout;
use nss_tree::Stmt;
use typing_rules::{Expression, TypedName, TypedStmt};

/// The way behind an expression of the statement `of` that is there for its effect alone.
fn seek_dropped(
    layout: &Layout,
    e: &Expression,
    of: Option<u32>,
    node: Option<u32>,
    seek: Seek,
) -> Seek
    ensures { result
        ≡ sought (marks.evaluated_marks layout.now of node (Some (plain e.now))) seek }
{
    let seek = seek_expr(layout, e, node, seek);
    pass_if(seek, has_cells(layout, e.ty()), 6, of)
}

/// The way behind an expression that may be left out, as [`seek_dropped`].
#[tactic(auto, using(crate::proofs::Seeking::seek_laws))]
fn seek_effect(
    layout: &Layout,
    e: &Option<Expression>,
    of: Option<u32>,
    node: Option<u32>,
    seek: Seek,
) -> Seek
    ensures { result
        ≡ sought (marks.evaluated_marks layout.now of node (option_map plain e.now)) seek }
{
    match e {
        None => seek,
        Some(e) => seek_dropped(layout, e, of, node, seek),
    }
}

/// The way behind the test of a loop: one that is left out is true.
#[tactic(auto, using(crate::proofs::Seeking::seek_laws))]
fn seek_tested(
    layout: &Layout,
    e: &Option<Expression>,
    of: Option<u32>,
    node: Option<u32>,
    seek: Seek,
) -> Seek
    ensures { result
        ≡ sought (marks.tested_marks layout.now of node (option_map plain e.now)) seek }
{
    match e {
        None => pass(seek, 6, of),
        Some(e) => seek_expr(layout, e, node, seek),
    }
}

/// The way behind what a `return` does before it goes back.
fn seek_returned(
    layout: &Layout,
    filled: bool,
    e: &Option<Expression>,
    node: Option<u32>,
    seek: Seek,
) -> Seek
    ensures { result
        ≡ sought (marks.returned_marks layout.now filled node (option_map plain e.now)) seek }
{
    match e {
        None => pass_if(seek, filled, 6, node),
        Some(e) => {
            let seek = pass(seek_expr(layout, e, next(node), seek), 8, node);
            pass_if(seek, either(filled, has_cells(layout, e.ty())), 6, node)
        }
    }
}

/// The way behind the first value of a declared name.
fn seek_initial(layout: &Layout, name: &TypedName, node: Option<u32>, seek: Seek) -> Seek
    ensures { result ≡ sought (marks.initial_marks layout.now node name.now.name.ty
        (option_map plain name.now.value)) seek }
{
    match &name.value {
        None => pass_start(seek, layout, name.name.ty, node),
        Some(e) => seek_expr(layout, e, next(node), seek),
    }
}

/// The way behind declared names.
pub(crate) fn seek_names(
    layout: &Layout,
    names: &[TypedName],
    mut node: Option<u32>,
    mut seek: Seek,
) -> Seek
    ensures { result ≡ sought (marks.names_marks layout.now node (typed_names names.now)) seek }
{
    for name in names {
        seek = seek_initial(layout, name, node, seek);
        node = behind_if(next(node), &name.value);
    }
    seek
}

/// The way behind the test of a case.
fn seek_test(stmt: &TypedStmt, of: Option<u32>, seek: Seek) -> Seek
    ensures { result ≡ sought (marks.test_marks of (typed_stmt stmt.now)) seek }
{
    match stmt {
        Stmt::Case { value, .. } => {
            let seek = pass_constant(pass(seek, 8, of), value, of);
            pass(pass(seek, 2, of), 6, of)
        }
        Stmt::Block { .. } => seek,
        Stmt::Empty { .. } => seek,
        Stmt::Expression { .. } => seek,
        Stmt::If { .. } => seek,
        Stmt::IfElse { .. } => seek,
        Stmt::While { .. } => seek,
        Stmt::Do { .. } => seek,
        Stmt::For { .. } => seek,
        Stmt::Switch { .. } => seek,
        Stmt::Break { .. } => seek,
        Stmt::Continue { .. } => seek,
        Stmt::Return { .. } => seek,
        Stmt::Declaration { .. } => seek,
        Stmt::Default { .. } => seek,
    }
}

/// The way behind the tests of a switch.
fn seek_tests(stmts: &[TypedStmt], of: Option<u32>, mut seek: Seek) -> Seek
    ensures { result ≡ sought (marks.tests_marks of (typed_stmts stmts.now)) seek }
{
    for stmt in stmts {
        seek = seek_test(stmt, of, seek);
    }
    seek
}

/// The way behind the code of a statement.
#[cycle(statements)]
pub(crate) fn seek_stmt(
    layout: &Layout,
    frame: Frame,
    stmt: &TypedStmt,
    node: Option<u32>,
    seek: Seek,
) -> Seek
    ensures { result
        ≡ sought (marks.stmt_marks layout.now frame node (typed_stmt stmt.now)) seek }
{
    match stmt {
        Stmt::Block { items, .. } => seek_block(layout, frame, items.as_slice(), node, seek),
        Stmt::Empty { .. } => seek,
        Stmt::Expression { value, .. } => seek_dropped(layout, value, node, next(node), seek),
        Stmt::If {
            condition,
            then,
            ..
        } => seek_if(layout, frame, condition, then, node, seek),
        Stmt::IfElse {
            condition,
            then,
            otherwise,
            ..
        } => seek_if_else(layout, frame, condition, then, otherwise, node, seek),
        Stmt::While {
            condition,
            body,
            ..
        } => seek_while(layout, frame, condition, body, node, seek),
        Stmt::Do {
            body,
            condition,
            ..
        } => seek_do(layout, frame, body, condition, node, seek),
        Stmt::For {
            start,
            condition,
            step,
            body,
            ..
        } => seek_for(layout, frame, start, condition, step, body, node, seek),
        Stmt::Switch { value, body, .. } => {
            seek_switch(layout, value, body.as_slice(), node, seek)
        }
        Stmt::Break { .. } => pass(pass_if(seek, frame.breaks, 6, node), 6, node),
        Stmt::Continue { .. } => pass(pass_if(seek, frame.continues, 6, node), 6, node),
        Stmt::Return { value, .. } => {
            let seek = seek_returned(layout, frame.filled, value, node, seek);
            pass(seek, 2, node)
        }
        Stmt::Declaration { names, .. } => seek_names(layout, names.as_slice(), next(node), seek),
        Stmt::Case { .. } => seek,
        Stmt::Default { .. } => seek,
    }
}

#[cycle(statements)]
fn seek_block(
    layout: &Layout,
    frame: Frame,
    items: &[TypedStmt],
    node: Option<u32>,
    seek: Seek,
) -> Seek
    ensures { result ≡ sought (marks.stmt_marks layout.now frame node
        (tree.block 0 (typed_stmts items.now))) seek }
{
    let seek = seek_stmts(layout, frame, items, next(node), seek);
    pass_if(seek, all_declare(layout, items), 6, node)
}

#[cycle(statements)]
fn seek_if(
    layout: &Layout,
    frame: Frame,
    condition: &Expression,
    then: &TypedStmt,
    node: Option<u32>,
    seek: Seek,
) -> Seek
    ensures { result ≡ sought (marks.stmt_marks layout.now frame node
        (tree.if_only 0 (plain condition.now) (typed_stmt then.now))) seek }
{
    let part = next(node);
    let seek = pass(seek_expr(layout, condition, part, seek), 6, node);
    seek_stmt(layout, frame, then, behind(part, condition), seek)
}

#[cycle(statements)]
fn seek_if_else(
    layout: &Layout,
    frame: Frame,
    condition: &Expression,
    then: &TypedStmt,
    otherwise: &TypedStmt,
    node: Option<u32>,
    seek: Seek,
) -> Seek
    ensures { result ≡ sought (marks.stmt_marks layout.now frame node (tree.if_else 0
        (plain condition.now) (typed_stmt then.now) (typed_stmt otherwise.now))) seek }
{
    let part = next(node);
    let first = behind(part, condition);
    let second = behind_stmt(first, then);
    let seek = pass(seek_expr(layout, condition, part, seek), 6, node);
    let seek = pass(seek_stmt(layout, frame, then, first, seek), 6, node);
    seek_stmt(layout, frame, otherwise, second, seek)
}

#[cycle(statements)]
fn seek_while(
    layout: &Layout,
    frame: Frame,
    condition: &Expression,
    body: &TypedStmt,
    node: Option<u32>,
    seek: Seek,
) -> Seek
    ensures { result ≡ sought (marks.stmt_marks layout.now frame node
        (tree.while_loop 0 (plain condition.now) (typed_stmt body.now))) seek }
{
    let part = next(node);
    let first = behind(part, condition);
    let seek = pass(seek_expr(layout, condition, part, seek), 6, node);
    let seek = seek_stmt(layout, loop_frame(frame), body, first, seek);
    pass(seek, 6, node)
}

#[cycle(statements)]
fn seek_do(
    layout: &Layout,
    frame: Frame,
    body: &TypedStmt,
    condition: &Expression,
    node: Option<u32>,
    seek: Seek,
) -> Seek
    ensures { result ≡ sought (marks.stmt_marks layout.now frame node
        (tree.do_loop 0 (typed_stmt body.now) (plain condition.now))) seek }
{
    let part = next(node);
    let second = behind_stmt(part, body);
    let seek = seek_stmt(layout, loop_frame(frame), body, part, seek);
    pass(seek_expr(layout, condition, second, seek), 6, node)
}

#[cycle(statements)]
fn seek_for(
    layout: &Layout,
    frame: Frame,
    start: &Option<Expression>,
    condition: &Option<Expression>,
    step: &Option<Expression>,
    body: &TypedStmt,
    node: Option<u32>,
    seek: Seek,
) -> Seek
    ensures { result ≡ sought (marks.stmt_marks layout.now frame node
        (tree.for_loop 0 (option_map plain start.now) (option_map plain condition.now)
        (option_map plain step.now) (typed_stmt body.now))) seek }
{
    let part = next(node);
    let second = behind_if(part, start);
    let third = behind_if(second, condition);
    let last = behind_if(third, step);
    let seek = seek_effect(layout, start, node, part, seek);
    let seek = pass(seek_tested(layout, condition, node, second, seek), 6, node);
    let seek = seek_stmt(layout, loop_frame(frame), body, last, seek);
    pass(seek_effect(layout, step, node, third, seek), 6, node)
}

#[cycle(statements)]
fn seek_switch(
    layout: &Layout,
    value: &Expression,
    body: &[TypedStmt],
    node: Option<u32>,
    seek: Seek,
) -> Seek
    ensures { result ≡ sought (marks.stmt_marks layout.now marks.switch_frame node
        (tree.switch 0 (plain value.now) (typed_stmts body.now))) seek }
{
    let part = next(node);
    let first = behind(part, value);
    let seek = seek_expr(layout, value, part, seek);
    let seek = pass(seek_tests(body, node, seek), 6, node);
    let seek = seek_stmts(layout, switch_frame(), body, first, seek);
    let seek = pass_if(seek, all_declare(layout, body), 6, node);
    pass(seek, 6, node)
}

/// The way behind statements in a row.
#[cycle(statements)]
pub(crate) fn seek_stmts(
    layout: &Layout,
    mut frame: Frame,
    stmts: &[TypedStmt],
    mut node: Option<u32>,
    mut seek: Seek,
) -> Seek
    ensures { result
        ≡ sought (marks.stmts_marks layout.now frame node (typed_stmts stmts.now)) seek }
{
    for stmt in stmts {
        seek = seek_stmt(layout, frame, stmt, node, seek);
        frame = deeper(frame, declares(layout, stmt));
        node = behind_stmt(node, stmt);
    }
    seek
}
