//! The walk over statements.

ghost use Rattle.std.specs.Prelude.{◌≡◌, OnOk, Some};
ghost use Rattle.std.specs.Option.{option_map};
ghost use Rattle.nss_tree.specs.Reading.{plain_expr, plain_names, plain_stmt, plain_stmts};
ghost use Rattle.nss_tree.specs.Statements as tree;
ghost use Rattle.typing_rules.specs.Rules.{case_rule, is_again, is_outside};
ghost use Rattle.typing_rules.specs.Sight.{case_seen, inside, left, looped};
ghost use Rattle.typing_rules.specs.Verdicts.{after, afters, constant_value};
ghost use Rattle.nss_scopes.specs.Views.{in_sight};
ghost use Rattle.nss_expressions.specs.Views.{heads_in, sight_in};
ghost use Rattle.expression_reasons.specs.Reasons.{condition_nodes, nodes_there, value_nodes};
ghost use Rattle.expression_reasons.specs.Seen.{noted, seen};
ghost use Rattle.expression_reasons.specs.Why.{because};
ghost use Rattle.nss_reasons.specs.Reasons.{case_why, return_why, stmt_nodes, stmts_nodes};
ghost use Rattle.nss_reasons.specs.Why.{case_reason, has_case, label_fits, label_reason};
ghost use Rattle.nwq_value.specs.Engine.{EngineTable};

use crate::declared::{typed_there, value_there};
use crate::line::line;
use expression_reasons::expression::{condition, expression};
use expression_reasons::found::note;
use expression_reasons::reason::Reason;
use expression_reasons::value::return_why;
use nss_expressions::constant::constant;
use nss_expressions::given::Given;
use nss_expressions::rules::is_int;
use nss_scopes::laws::scopes_are_left;
use nss_scopes::{Labels, Sight};
use nss_tree::{Constant, DeclaredName, Expr, Stmt, TypeName};
use nwq_value::{Const, NoMemory, Ty};
use typing_rules::laws::scopes_only_add;

/// Keeps the reason of the node with the token `k`, if it is one of this statement and none was
/// kept before; what the statement declares is in sight behind it.
#[cycle(walk)]
pub fn statement(
    given: &Given<'_>,
    sight: &mut Sight,
    k: u32,
    found: &mut Option<Reason>,
    statement: &Stmt,
) -> Result<(), NoMemory>
    ensures found { OnOk result (found.new ≡ seen k found.old
        (stmt_nodes (heads_in given.now) (sight_in given.now sight.old)
        (plain_stmt statement.now))) }
    ensures sight { OnOk result (sight_in given.now sight.new
        ≡ after (sight_in given.now sight.old) (plain_stmt statement.now)) }
{
    match statement {
        Stmt::Block { token, items } => block(given, sight, k, found, *token, items),
        Stmt::Empty { .. } => Ok(()),
        Stmt::Expression { value, .. } => expression(given, sight, k, found, false, value),
        Stmt::If {
            token,
            condition,
            then,
        } => if_only(given, sight, k, found, *token, condition, then),
        Stmt::IfElse {
            token,
            condition,
            then,
            otherwise,
        } => if_else(given, sight, k, found, *token, condition, then, otherwise),
        Stmt::While {
            token,
            condition,
            body,
        } => while_loop(given, sight, k, found, *token, condition, body),
        Stmt::Do {
            token,
            body,
            condition,
        } => do_loop(given, sight, k, found, *token, body, condition),
        Stmt::For {
            token,
            start,
            condition,
            step,
            body,
        } => for_loop(given, sight, k, found, *token, start, condition, step, body),
        Stmt::Switch { token, value, body } => {
            switch(given, sight, k, found, *token, value, body)
        }
        Stmt::Break { .. } => Ok(()),
        Stmt::Continue { .. } => Ok(()),
        Stmt::Return { token, value } => return_from(given, sight, k, found, *token, value),
        Stmt::Declaration { token, ty, names } => {
            declaration(given, sight, k, found, *token, ty, names.as_slice())
        }
        Stmt::Case { token, value } => case(given, sight, k, found, *token, value),
        Stmt::Default { .. } => {
            sight.see_default();
            Ok(())
        }
    }
}

/// The statements of a block or of the body of a switch.
#[cycle(walk)]
pub fn statements(
    given: &Given<'_>,
    sight: &mut Sight,
    k: u32,
    found: &mut Option<Reason>,
    statements: &[Stmt],
) -> Result<(), NoMemory>
    ensures found { OnOk result (found.new ≡ seen k found.old
        (stmts_nodes (heads_in given.now) (sight_in given.now sight.old)
        (plain_stmts statements.now))) }
    ensures sight { OnOk result (sight_in given.now sight.new
        ≡ afters (sight_in given.now sight.old) (plain_stmts statements.now)) }
{
    for one in statements {
        statement(given, sight, k, found, one)?;
    }
    Ok(())
}

/// The statement of an `if` or behind its `else`, whose scope is left behind it.
#[cycle(walk)]
fn in_branch(
    given: &Given<'_>,
    sight: &mut Sight,
    k: u32,
    found: &mut Option<Reason>,
    branch: &Stmt,
) -> Result<(), NoMemory>
    ensures found { OnOk result (found.new ≡ seen k found.old
        (stmt_nodes (heads_in given.now) (inside (sight_in given.now sight.old))
        (plain_stmt branch.now))) }
    ensures sight { OnOk result (sight_in given.now sight.new
        ≡ left (sight_in given.now sight.old)
        (after (inside (sight_in given.now sight.old)) (plain_stmt branch.now))) }
{
    scopes_only_add();
    scopes_are_left();
    let mark = sight.inside();
    let walked = statement(given, sight, k, found, branch);
    sight.leave(mark);
    walked
}

/// The statement of a loop, whose scope is left behind it.
#[cycle(walk)]
fn in_loop(
    given: &Given<'_>,
    sight: &mut Sight,
    k: u32,
    found: &mut Option<Reason>,
    body: &Stmt,
) -> Result<(), NoMemory>
    ensures found { OnOk result (found.new ≡ seen k found.old
        (stmt_nodes (heads_in given.now) (looped (sight_in given.now sight.old))
        (plain_stmt body.now))) }
    ensures sight { OnOk result (sight_in given.now sight.new
        ≡ left (sight_in given.now sight.old)
        (after (looped (sight_in given.now sight.old)) (plain_stmt body.now))) }
{
    scopes_only_add();
    scopes_are_left();
    let mark = sight.enter_loop();
    let walked = statement(given, sight, k, found, body);
    sight.leave(mark);
    walked
}

/// A block.
#[cycle(walk)]
fn block(
    given: &Given<'_>,
    sight: &mut Sight,
    k: u32,
    found: &mut Option<Reason>,
    token: u32,
    items: &[Stmt],
) -> Result<(), NoMemory>
    ensures found { OnOk result (found.new ≡ seen k found.old
        (stmt_nodes (heads_in given.now) (sight_in given.now sight.old)
        (tree.block token (plain_stmts items.now)))) }
    ensures sight { OnOk result (sight_in given.now sight.new
        ≡ after (sight_in given.now sight.old)
        (tree.block token (plain_stmts items.now))) }
{
    scopes_only_add();
    scopes_are_left();
    let mark = sight.enter();
    let walked = statements(given, sight, k, found, items);
    sight.leave(mark);
    walked
}

/// An `if` without `else`.
#[cycle(walk)]
fn if_only(
    given: &Given<'_>,
    sight: &mut Sight,
    k: u32,
    found: &mut Option<Reason>,
    token: u32,
    e: &Expr,
    then: &Stmt,
) -> Result<(), NoMemory>
    ensures found { OnOk result (found.new ≡ seen k found.old
        (stmt_nodes (heads_in given.now) (sight_in given.now sight.old)
        (tree.if_only token (plain_expr e.now) (plain_stmt then.now)))) }
    ensures sight { OnOk result (sight_in given.now sight.new
        ≡ after (sight_in given.now sight.old)
        (tree.if_only token (plain_expr e.now) (plain_stmt then.now))) }
{
    condition(given, sight, k, found, token, e)?;
    in_branch(given, sight, k, found, then)
}

/// An `if` with `else`.
#[cycle(walk)]
fn if_else(
    given: &Given<'_>,
    sight: &mut Sight,
    k: u32,
    found: &mut Option<Reason>,
    token: u32,
    e: &Expr,
    then: &Stmt,
    otherwise: &Stmt,
) -> Result<(), NoMemory>
    ensures found { OnOk result (found.new ≡ seen k found.old
        (stmt_nodes (heads_in given.now) (sight_in given.now sight.old)
        (tree.if_else token (plain_expr e.now) (plain_stmt then.now)
        (plain_stmt otherwise.now)))) }
    ensures sight { OnOk result (sight_in given.now sight.new
        ≡ after (sight_in given.now sight.old)
        (tree.if_else token (plain_expr e.now) (plain_stmt then.now)
        (plain_stmt otherwise.now))) }
{
    condition(given, sight, k, found, token, e)?;
    in_branch(given, sight, k, found, then)?;
    in_branch(given, sight, k, found, otherwise)
}

/// A `while`.
#[cycle(walk)]
fn while_loop(
    given: &Given<'_>,
    sight: &mut Sight,
    k: u32,
    found: &mut Option<Reason>,
    token: u32,
    e: &Expr,
    body: &Stmt,
) -> Result<(), NoMemory>
    ensures found { OnOk result (found.new ≡ seen k found.old
        (stmt_nodes (heads_in given.now) (sight_in given.now sight.old)
        (tree.while_loop token (plain_expr e.now) (plain_stmt body.now)))) }
    ensures sight { OnOk result (sight_in given.now sight.new
        ≡ after (sight_in given.now sight.old)
        (tree.while_loop token (plain_expr e.now) (plain_stmt body.now))) }
{
    condition(given, sight, k, found, token, e)?;
    in_loop(given, sight, k, found, body)
}

/// A `do`.
#[cycle(walk)]
fn do_loop(
    given: &Given<'_>,
    sight: &mut Sight,
    k: u32,
    found: &mut Option<Reason>,
    token: u32,
    body: &Stmt,
    e: &Expr,
) -> Result<(), NoMemory>
    ensures found { OnOk result (found.new ≡ seen k found.old
        (stmt_nodes (heads_in given.now) (sight_in given.now sight.old)
        (tree.do_loop token (plain_stmt body.now) (plain_expr e.now)))) }
    ensures sight { OnOk result (sight_in given.now sight.new
        ≡ after (sight_in given.now sight.old)
        (tree.do_loop token (plain_stmt body.now) (plain_expr e.now))) }
{
    condition(given, sight, k, found, token, e)?;
    in_loop(given, sight, k, found, body)
}

/// The condition of a `for` with this token, where it has one.
fn condition_there(
    given: &Given<'_>,
    sight: &Sight,
    k: u32,
    found: &mut Option<Reason>,
    token: u32,
    there: &Option<Expr>,
) -> Result<(), NoMemory>
    ensures found { OnOk result (found.new ≡ seen k found.old
        (nodes_there (condition_nodes (heads_in given.now) (sight_in given.now sight.now) token)
        (option_map plain_expr there.now))) }
{
    match there {
        None => Ok(()),
        Some(e) => condition(given, sight, k, found, token, e),
    }
}

/// The parts of a `for` before its statement.
fn for_head(
    given: &Given<'_>,
    sight: &Sight,
    k: u32,
    found: &mut Option<Reason>,
    token: u32,
    start: &Option<Expr>,
    e: &Option<Expr>,
    step: &Option<Expr>,
) -> Result<(), NoMemory>
    ensures found { OnOk result (found.new ≡ seen k (seen k (seen k found.old
        (nodes_there (value_nodes (heads_in given.now) (sight_in given.now sight.now))
        (option_map plain_expr start.now)))
        (nodes_there (condition_nodes (heads_in given.now) (sight_in given.now sight.now) token)
        (option_map plain_expr e.now)))
        (nodes_there (value_nodes (heads_in given.now) (sight_in given.now sight.now))
        (option_map plain_expr step.now))) }
{
    value_there(given, sight, k, found, start)?;
    condition_there(given, sight, k, found, token, e)?;
    value_there(given, sight, k, found, step)
}

/// A `for`.
#[cycle(walk)]
fn for_loop(
    given: &Given<'_>,
    sight: &mut Sight,
    k: u32,
    found: &mut Option<Reason>,
    token: u32,
    start: &Option<Expr>,
    e: &Option<Expr>,
    step: &Option<Expr>,
    body: &Stmt,
) -> Result<(), NoMemory>
    ensures found { OnOk result (found.new ≡ seen k found.old
        (stmt_nodes (heads_in given.now) (sight_in given.now sight.old)
        (tree.for_loop token (option_map plain_expr start.now) (option_map plain_expr e.now)
        (option_map plain_expr step.now) (plain_stmt body.now)))) }
    ensures sight { OnOk result (sight_in given.now sight.new
        ≡ after (sight_in given.now sight.old)
        (tree.for_loop token (option_map plain_expr start.now) (option_map plain_expr e.now)
        (option_map plain_expr step.now) (plain_stmt body.now))) }
{
    for_head(given, sight, k, found, token, start, e, step)?;
    in_loop(given, sight, k, found, body)
}

/// A `switch`.
#[cycle(walk)]
fn switch(
    given: &Given<'_>,
    sight: &mut Sight,
    k: u32,
    found: &mut Option<Reason>,
    token: u32,
    value: &Expr,
    body: &[Stmt],
) -> Result<(), NoMemory>
    ensures found { OnOk result (found.new ≡ seen k found.old
        (stmt_nodes (heads_in given.now) (sight_in given.now sight.old)
        (tree.switch token (plain_expr value.now) (plain_stmts body.now)))) }
    ensures sight { OnOk result (sight_in given.now sight.new
        ≡ after (sight_in given.now sight.old)
        (tree.switch token (plain_expr value.now) (plain_stmts body.now))) }
{
    scopes_only_add();
    scopes_are_left();
    condition(given, sight, k, found, token, value)?;
    let mark = sight.enter_switch(given.alloc);
    let walked = statements(given, sight, k, found, body);
    sight.leave(mark);
    walked
}

/// A `return` by itself.
fn own_return(
    given: &Given<'_>,
    sight: &Sight,
    k: u32,
    found: &mut Option<Reason>,
    token: u32,
    value: &Option<Expr>,
) -> Result<(), NoMemory>
    ensures found { OnOk result (found.new ≡ noted k found.old token
        (return_why (heads_in given.now) (sight_in given.now sight.now) token
        (option_map plain_expr value.now))) }
{
    if token != k {
        return Ok(());
    }
    let value = typed_there(given, sight, value)?;
    note(found, return_why(token, sight.result, value));
    Ok(())
}

/// A `return`.
fn return_from(
    given: &Given<'_>,
    sight: &Sight,
    k: u32,
    found: &mut Option<Reason>,
    token: u32,
    value: &Option<Expr>,
) -> Result<(), NoMemory>
    ensures found { OnOk result (found.new ≡ seen k found.old
        (stmt_nodes (heads_in given.now) (sight_in given.now sight.now)
        (tree.return_from token (option_map plain_expr value.now)))) }
{
    value_there(given, sight, k, found, value)?;
    own_return(given, sight, k, found, token, value)
}

/// A declaration; its names are in sight behind it.
fn declaration(
    given: &Given<'_>,
    sight: &mut Sight,
    k: u32,
    found: &mut Option<Reason>,
    token: u32,
    ty: &TypeName,
    declared: &[DeclaredName],
) -> Result<(), NoMemory>
    ensures found { OnOk result (found.new ≡ seen k found.old
        (stmt_nodes (heads_in given.now) (sight_in given.now sight.old)
        (tree.declaration token ty.now (plain_names declared.now)))) }
    ensures sight { OnOk result (sight_in given.now sight.new
        ≡ after (sight_in given.now sight.old)
        (tree.declaration token ty.now (plain_names declared.now))) }
{
    line(given, sight, k, found, token, ty, declared)?;
    sight.see_declaration();
    Ok(())
}

/// What is wrong with a label of this type.
fn label_reason(labels: &Option<Labels>, ty: Ty) -> Reason
    ensures { result ≡ label_reason labels.now ty }
{
    if is_outside(labels) {
        Reason::Misplaced
    } else {
        Reason::Label { ty }
    }
}

fn has_case(labels: &Option<Labels>, value: i32) -> bool
    ensures { result ≡ has_case labels.now value }
{
    match labels {
        None => false,
        Some(labels) => labels.has_case(value),
    }
}

/// What is wrong with a case of this value.
fn case_reason(labels: &Option<Labels>, value: &Const) -> Reason
    ensures { result ≡ case_reason labels.now value.now }
{
    match value {
        Const::Int(value) => {
            if has_case(labels, *value) {
                Reason::Again { value: *value }
            } else {
                label_reason(labels, Ty::Int)
            }
        }
        Const::Text(_) => label_reason(labels, Ty::Text),
        Const::SelfObject => label_reason(labels, Ty::Object),
        Const::InvalidObject => label_reason(labels, Ty::Object),
    }
}

/// Whether this case stood before in its switch.
fn is_again(labels: &Option<Labels>, value: &Const) -> bool
    ensures { result ≡ is_again labels.now value.now }
{
    match labels {
        Some(labels) => match value {
            Const::Int(value) => labels.has_case(*value),
            Const::Text(_) => false,
            Const::SelfObject => false,
            Const::InvalidObject => false,
        },
        None => false,
    }
}

/// Whether no label may stand here.
fn is_outside(labels: &Option<Labels>) -> bool
    ensures { result ≡ is_outside labels.now }
{
    match labels {
        Some(labels) => labels.is_late(),
        None => true,
    }
}

/// Whether a case of this value may stand among labels.
fn label_fits(labels: &Option<Labels>, value: &Const) -> bool
    ensures { result ≡ label_fits labels.now value.now }
{
    !is_again(labels, value) && (!is_outside(labels) && is_int(value.ty()))
}

/// A case of this value by itself.
fn case_why(labels: &Option<Labels>, token: u32, value: &Const) -> Option<Reason>
    ensures { result
        ≡ because (case_rule labels.now token) (case_reason labels.now) (Some value.now) }
{
    if label_fits(labels, value) {
        None
    } else {
        Some(case_reason(labels, value))
    }
}

/// A case of a constant that has this value; it is seen behind it.
fn case_of(
    sight: &mut Sight,
    k: u32,
    found: &mut Option<Reason>,
    token: u32,
    value: Const,
) -> Result<(), NoMemory>
    ensures found { OnOk result (found.new ≡ noted k found.old token
        (because (case_rule sight.old.labels token) (case_reason sight.old.labels)
        (Some value))) }
    ensures sight { OnOk result ((table : EngineTable)
        → in_sight table sight.new ≡ case_seen (in_sight table sight.old) (Some value)) }
{
    if token == k {
        note(found, case_why(&sight.labels, token, &value));
    }
    sight.see_case(&value)
}

/// A case; it is seen behind it.
fn case(
    given: &Given<'_>,
    sight: &mut Sight,
    k: u32,
    found: &mut Option<Reason>,
    token: u32,
    value: &Constant,
) -> Result<(), NoMemory>
    ensures found { OnOk result (found.new ≡ noted k found.old token
        (case_why (sight_in given.now sight.old) token value.now)) }
    ensures sight { OnOk result (sight_in given.now sight.new
        ≡ case_seen (sight_in given.now sight.old)
        (constant_value (sight_in given.now sight.old) value.now)) }
{
    let mut ignored = None;
    match constant(given.alloc, given.table, sight, &mut ignored, value)? {
        Some(value) => case_of(sight, k, found, token, value),
        None => Ok(()),
    }
}
