//! The walk over statements.

ghost use Rattle.std.specs.Prelude.{◌≡◌, ◌++◌, IfOk, OnOk};
ghost use Rattle.std.specs.Option.{option_map};
ghost use Rattle.nss_tree.specs.Reading.{plain_expr, plain_names, plain_stmt, plain_stmts};
ghost use Rattle.nss_tree.specs.Statements as tree;
ghost use Rattle.typing_rules.specs.Nodes.{at, faults_there, fine, if_there, kept, passed, two};
ghost use Rattle.typing_rules.specs.Reading.{plain};
ghost use Rattle.typing_rules.specs.Sight.{declaration_seen, inside, left, looped};
ghost use Rattle.typing_rules.specs.UnitReading.{typed_stmt, typed_stmts};
ghost use Rattle.typing_rules.specs.Verdicts.{after, after_names, afters, declaration_of};
ghost use Rattle.typing_rules.specs.Verdicts.{line_type, line_verdict, names_faults, names_fine};
ghost use Rattle.typing_rules.specs.Verdicts.{stmt_faults, stmt_verdict, stmts_faults, stmts_fine};
ghost use Rattle.typing_rules.specs.Verdicts.{value, value_faults};
ghost use Rattle.nss_expressions.specs.Views.{heads_in, sight_in};

use crate::declared::{names, value_there};
use crate::judge_statement::{
    judge_break, judge_continue, judge_do, judge_for, judge_if, judge_if_else, judge_return,
    judge_switch, judge_while, made_block, made_declaration, made_expression,
};
use crate::label::{case, default};
use nss_expressions::expression::expression;
use nss_expressions::given::Given;
use nss_expressions::line::line_type;
use nss_expressions::row::and_last;
use nss_scopes::Sight;
use nss_scopes::laws::scopes_are_left;
use nss_tree::{DeclaredName, Expr, Stmt, TypeName};
use nwq_value::{Items, NoMemory};
use typing_rules::laws::scopes_only_add;
use typing_rules::{Expression, Fault, TypedStmt};

/// The parts of a `for` before its statement.
#[derive(Drop)]
pub struct ForHead {
    pub start: Option<Option<Expression>>,
    pub condition: Option<Option<Expression>>,
    pub step: Option<Option<Expression>>,
}

/// The typed statement, if it has one; the least fault of its nodes and of what was kept before is
/// kept, and what it declares is in sight behind it.
#[cycle(walk)]
pub fn statement(
    given: &Given<'_>,
    sight: &mut Sight,
    least: &mut Option<Fault>,
    statement: &Stmt,
) -> Result<Option<TypedStmt>, NoMemory>
    ensures value { IfOk result (λ r. option_map typed_stmt r
        ≡ fine (stmt_verdict (heads_in given.now) (sight_in given.now sight.old)
        (plain_stmt statement.now))) }
    ensures least { OnOk result (least.new ≡ kept least.old
        (stmt_faults (heads_in given.now) (sight_in given.now sight.old)
        (plain_stmt statement.now))) }
    ensures sight { OnOk result (sight_in given.now sight.new
        ≡ after (sight_in given.now sight.old) (plain_stmt statement.now)) }
{
    match statement {
        Stmt::Block { token, items } => block(given, sight, least, *token, items),
        Stmt::Empty { token } => Ok(Some(Stmt::empty(*token))),
        Stmt::Expression { token, value } => {
            expression_statement(given, sight, least, *token, value)
        }
        Stmt::If {
            token,
            condition,
            then,
        } => if_only(given, sight, least, *token, condition, then),
        Stmt::IfElse {
            token,
            condition,
            then,
            otherwise,
        } => if_else(given, sight, least, *token, condition, then, otherwise),
        Stmt::While {
            token,
            condition,
            body,
        } => while_loop(given, sight, least, *token, condition, body),
        Stmt::Do {
            token,
            body,
            condition,
        } => do_loop(given, sight, least, *token, body, condition),
        Stmt::For {
            token,
            start,
            condition,
            step,
            body,
        } => for_loop(given, sight, least, *token, start, condition, step, body),
        Stmt::Switch { token, value, body } => switch(given, sight, least, *token, value, body),
        Stmt::Break { token } => Ok(judge_break(least, *token, sight.may_break)),
        Stmt::Continue { token } => Ok(judge_continue(least, *token, sight.in_loop)),
        Stmt::Return { token, value } => return_from(given, sight, least, *token, value),
        Stmt::Declaration { token, ty, names } => {
            declaration(given, sight, least, *token, ty, names.as_slice())
        }
        Stmt::Case { token, value } => case(given.alloc, given.table, sight, least, *token, value),
        Stmt::Default { token } => Ok(default(sight, least, *token)),
    }
}

/// The typed statements of a block or of the body of a switch, if each has one.
#[cycle(walk)]
pub fn statements(
    given: &Given<'_>,
    sight: &mut Sight,
    least: &mut Option<Fault>,
    statements: &[Stmt],
) -> Result<Option<Items<TypedStmt>>, NoMemory>
    ensures value { IfOk result (λ r. option_map typed_stmts r
        ≡ stmts_fine (heads_in given.now) (sight_in given.now sight.old)
        (plain_stmts statements.now)) }
    ensures least { OnOk result (least.new ≡ kept least.old
        (stmts_faults (heads_in given.now) (sight_in given.now sight.old)
        (plain_stmts statements.now))) }
    ensures sight { OnOk result (sight_in given.now sight.new
        ≡ afters (sight_in given.now sight.old) (plain_stmts statements.now)) }
{
    let mut all = Some(Items::new(given.alloc));
    for one in statements {
        let typed = statement(given, sight, least, one)?;
        all = and_last(all, typed)?;
    }
    Ok(all)
}

/// The statement of an `if` or behind its `else`, whose scope is left behind it.
#[cycle(walk)]
fn in_branch(
    given: &Given<'_>,
    sight: &mut Sight,
    least: &mut Option<Fault>,
    branch: &Stmt,
) -> Result<Option<TypedStmt>, NoMemory>
    ensures value { IfOk result (λ r. option_map typed_stmt r
        ≡ fine (stmt_verdict (heads_in given.now) (inside (sight_in given.now sight.old))
        (plain_stmt branch.now))) }
    ensures least { OnOk result (least.new ≡ kept least.old
        (stmt_faults (heads_in given.now) (inside (sight_in given.now sight.old))
        (plain_stmt branch.now))) }
    ensures sight { OnOk result (sight_in given.now sight.new
        ≡ left (sight_in given.now sight.old)
        (after (inside (sight_in given.now sight.old)) (plain_stmt branch.now))) }
{
    scopes_only_add();
    scopes_are_left();
    let mark = sight.inside();
    let typed = statement(given, sight, least, branch);
    sight.leave(mark);
    typed
}

/// The statement of a loop, whose scope is left behind it.
#[cycle(walk)]
fn in_loop(
    given: &Given<'_>,
    sight: &mut Sight,
    least: &mut Option<Fault>,
    body: &Stmt,
) -> Result<Option<TypedStmt>, NoMemory>
    ensures value { IfOk result (λ r. option_map typed_stmt r
        ≡ fine (stmt_verdict (heads_in given.now) (looped (sight_in given.now sight.old))
        (plain_stmt body.now))) }
    ensures least { OnOk result (least.new ≡ kept least.old
        (stmt_faults (heads_in given.now) (looped (sight_in given.now sight.old))
        (plain_stmt body.now))) }
    ensures sight { OnOk result (sight_in given.now sight.new
        ≡ left (sight_in given.now sight.old)
        (after (looped (sight_in given.now sight.old)) (plain_stmt body.now))) }
{
    scopes_only_add();
    scopes_are_left();
    let mark = sight.enter_loop();
    let typed = statement(given, sight, least, body);
    sight.leave(mark);
    typed
}

/// A block.
#[cycle(walk)]
fn block(
    given: &Given<'_>,
    sight: &mut Sight,
    least: &mut Option<Fault>,
    token: u32,
    items: &[Stmt],
) -> Result<Option<TypedStmt>, NoMemory>
    ensures value { IfOk result (λ r. option_map typed_stmt r
        ≡ fine (stmt_verdict (heads_in given.now) (sight_in given.now sight.old)
        (tree.block token (plain_stmts items.now)))) }
    ensures least { OnOk result (least.new ≡ kept least.old
        (stmt_faults (heads_in given.now) (sight_in given.now sight.old)
        (tree.block token (plain_stmts items.now)))) }
    ensures sight { OnOk result (sight_in given.now sight.new
        ≡ after (sight_in given.now sight.old)
        (tree.block token (plain_stmts items.now))) }
{
    scopes_only_add();
    scopes_are_left();
    let mark = sight.enter();
    let typed = statements(given, sight, least, items);
    sight.leave(mark);
    Ok(made_block(token, typed?))
}

/// An expression that stands as a statement.
fn expression_statement(
    given: &Given<'_>,
    sight: &Sight,
    least: &mut Option<Fault>,
    token: u32,
    value: &Expr,
) -> Result<Option<TypedStmt>, NoMemory>
    ensures value { IfOk result (λ r. option_map typed_stmt r
        ≡ fine (stmt_verdict (heads_in given.now) (sight_in given.now sight.now)
        (tree.expression token (plain_expr value.now)))) }
    ensures least { OnOk result (least.new ≡ kept least.old
        (stmt_faults (heads_in given.now) (sight_in given.now sight.now)
        (tree.expression token (plain_expr value.now)))) }
{
    let typed = expression(given, sight, least, false, value)?;
    Ok(made_expression(token, typed))
}

/// An `if` without `else`.
#[cycle(walk)]
fn if_only(
    given: &Given<'_>,
    sight: &mut Sight,
    least: &mut Option<Fault>,
    token: u32,
    condition: &Expr,
    then: &Stmt,
) -> Result<Option<TypedStmt>, NoMemory>
    ensures value { IfOk result (λ r. option_map typed_stmt r
        ≡ fine (stmt_verdict (heads_in given.now) (sight_in given.now sight.old)
        (tree.if_only token (plain_expr condition.now) (plain_stmt then.now)))) }
    ensures least { OnOk result (least.new ≡ kept least.old
        (stmt_faults (heads_in given.now) (sight_in given.now sight.old)
        (tree.if_only token (plain_expr condition.now) (plain_stmt then.now)))) }
    ensures sight { OnOk result (sight_in given.now sight.new
        ≡ after (sight_in given.now sight.old)
        (tree.if_only token (plain_expr condition.now) (plain_stmt then.now))) }
{
    let condition = expression(given, sight, least, false, condition)?;
    match in_branch(given, sight, least, then) {
        Ok(then) => judge_if(given.alloc, least, token, condition, then),
        Err(error) => {
            drop(condition);
            Err(error)
        }
    }
}

/// An `if` with `else`.
#[cycle(walk)]
fn if_else(
    given: &Given<'_>,
    sight: &mut Sight,
    least: &mut Option<Fault>,
    token: u32,
    condition: &Expr,
    then: &Stmt,
    otherwise: &Stmt,
) -> Result<Option<TypedStmt>, NoMemory>
    ensures value { IfOk result (λ r. option_map typed_stmt r
        ≡ fine (stmt_verdict (heads_in given.now) (sight_in given.now sight.old)
        (tree.if_else token (plain_expr condition.now) (plain_stmt then.now)
        (plain_stmt otherwise.now)))) }
    ensures least { OnOk result (least.new ≡ kept least.old
        (stmt_faults (heads_in given.now) (sight_in given.now sight.old)
        (tree.if_else token (plain_expr condition.now) (plain_stmt then.now)
        (plain_stmt otherwise.now)))) }
    ensures sight { OnOk result (sight_in given.now sight.new
        ≡ after (sight_in given.now sight.old)
        (tree.if_else token (plain_expr condition.now) (plain_stmt then.now)
        (plain_stmt otherwise.now))) }
{
    let condition = expression(given, sight, least, false, condition)?;
    match in_branch(given, sight, least, then) {
        Ok(then) => match in_branch(given, sight, least, otherwise) {
            Ok(otherwise) => judge_if_else(given.alloc, least, token, condition, then, otherwise),
            Err(error) => {
                drop(condition);
                drop(then);
                Err(error)
            }
        },
        Err(error) => {
            drop(condition);
            Err(error)
        }
    }
}

/// A `while`.
#[cycle(walk)]
fn while_loop(
    given: &Given<'_>,
    sight: &mut Sight,
    least: &mut Option<Fault>,
    token: u32,
    condition: &Expr,
    body: &Stmt,
) -> Result<Option<TypedStmt>, NoMemory>
    ensures value { IfOk result (λ r. option_map typed_stmt r
        ≡ fine (stmt_verdict (heads_in given.now) (sight_in given.now sight.old)
        (tree.while_loop token (plain_expr condition.now) (plain_stmt body.now)))) }
    ensures least { OnOk result (least.new ≡ kept least.old
        (stmt_faults (heads_in given.now) (sight_in given.now sight.old)
        (tree.while_loop token (plain_expr condition.now) (plain_stmt body.now)))) }
    ensures sight { OnOk result (sight_in given.now sight.new
        ≡ after (sight_in given.now sight.old)
        (tree.while_loop token (plain_expr condition.now) (plain_stmt body.now))) }
{
    let condition = expression(given, sight, least, false, condition)?;
    match in_loop(given, sight, least, body) {
        Ok(body) => judge_while(given.alloc, least, token, condition, body),
        Err(error) => {
            drop(condition);
            Err(error)
        }
    }
}

/// A `do`.
#[cycle(walk)]
fn do_loop(
    given: &Given<'_>,
    sight: &mut Sight,
    least: &mut Option<Fault>,
    token: u32,
    body: &Stmt,
    condition: &Expr,
) -> Result<Option<TypedStmt>, NoMemory>
    ensures value { IfOk result (λ r. option_map typed_stmt r
        ≡ fine (stmt_verdict (heads_in given.now) (sight_in given.now sight.old)
        (tree.do_loop token (plain_stmt body.now) (plain_expr condition.now)))) }
    ensures least { OnOk result (least.new ≡ kept least.old
        (stmt_faults (heads_in given.now) (sight_in given.now sight.old)
        (tree.do_loop token (plain_stmt body.now) (plain_expr condition.now)))) }
    ensures sight { OnOk result (sight_in given.now sight.new
        ≡ after (sight_in given.now sight.old)
        (tree.do_loop token (plain_stmt body.now) (plain_expr condition.now))) }
{
    let body = in_loop(given, sight, least, body)?;
    match expression(given, sight, least, false, condition) {
        Ok(condition) => judge_do(given.alloc, least, token, body, condition),
        Err(error) => {
            drop(body);
            Err(error)
        }
    }
}

/// A `for`.
#[cycle(walk)]
fn for_loop(
    given: &Given<'_>,
    sight: &mut Sight,
    least: &mut Option<Fault>,
    token: u32,
    start: &Option<Expr>,
    condition: &Option<Expr>,
    step: &Option<Expr>,
    body: &Stmt,
) -> Result<Option<TypedStmt>, NoMemory>
    ensures value { IfOk result (λ r. option_map typed_stmt r
        ≡ fine (stmt_verdict (heads_in given.now) (sight_in given.now sight.old)
        (tree.for_loop token (option_map plain_expr start.now) (option_map plain_expr condition.now)
        (option_map plain_expr step.now) (plain_stmt body.now)))) }
    ensures least { OnOk result (least.new ≡ kept least.old
        (stmt_faults (heads_in given.now) (sight_in given.now sight.old)
        (tree.for_loop token (option_map plain_expr start.now) (option_map plain_expr condition.now)
        (option_map plain_expr step.now) (plain_stmt body.now)))) }
    ensures sight { OnOk result (sight_in given.now sight.new
        ≡ after (sight_in given.now sight.old)
        (tree.for_loop token (option_map plain_expr start.now) (option_map plain_expr condition.now)
        (option_map plain_expr step.now) (plain_stmt body.now))) }
{
    let head = for_head(given, sight, least, start, condition, step)?;
    match in_loop(given, sight, least, body) {
        Ok(body) => {
            let ForHead {
                start,
                condition,
                step,
            } = head;
            judge_for(given.alloc, least, token, start, condition, step, body)
        }
        Err(error) => {
            drop(head);
            Err(error)
        }
    }
}

/// A `switch`.
#[cycle(walk)]
fn switch(
    given: &Given<'_>,
    sight: &mut Sight,
    least: &mut Option<Fault>,
    token: u32,
    value: &Expr,
    body: &[Stmt],
) -> Result<Option<TypedStmt>, NoMemory>
    ensures value { IfOk result (λ r. option_map typed_stmt r
        ≡ fine (stmt_verdict (heads_in given.now) (sight_in given.now sight.old)
        (tree.switch token (plain_expr value.now) (plain_stmts body.now)))) }
    ensures least { OnOk result (least.new ≡ kept least.old
        (stmt_faults (heads_in given.now) (sight_in given.now sight.old)
        (tree.switch token (plain_expr value.now) (plain_stmts body.now)))) }
    ensures sight { OnOk result (sight_in given.now sight.new
        ≡ after (sight_in given.now sight.old)
        (tree.switch token (plain_expr value.now) (plain_stmts body.now))) }
{
    scopes_only_add();
    scopes_are_left();
    let value = expression(given, sight, least, false, value)?;
    let crosses = sight.crosses_with(1);
    let mark = sight.enter_switch(given.alloc);
    let body = statements(given, sight, least, body);
    sight.leave(mark);
    match body {
        Ok(body) => Ok(judge_switch(least, token, crosses, value, body)),
        Err(error) => {
            drop(value);
            Err(error)
        }
    }
}

/// A `return`.
fn return_from(
    given: &Given<'_>,
    sight: &Sight,
    least: &mut Option<Fault>,
    token: u32,
    value: &Option<Expr>,
) -> Result<Option<TypedStmt>, NoMemory>
    ensures value { IfOk result (λ r. option_map typed_stmt r
        ≡ fine (stmt_verdict (heads_in given.now) (sight_in given.now sight.now)
        (tree.return_from token (option_map plain_expr value.now)))) }
    ensures least { OnOk result (least.new ≡ kept least.old
        (stmt_faults (heads_in given.now) (sight_in given.now sight.now)
        (tree.return_from token (option_map plain_expr value.now)))) }
{
    let typed = value_there(given, sight, least, value)?;
    Ok(judge_return(least, token, sight.result, typed))
}

fn for_head(
    given: &Given<'_>,
    sight: &Sight,
    least: &mut Option<Fault>,
    start: &Option<Expr>,
    condition: &Option<Expr>,
    step: &Option<Expr>,
) -> Result<ForHead, NoMemory>
    ensures start { IfOk result (λ r. option_map (option_map plain) r.start
        ≡ if_there (value (heads_in given.now) (sight_in given.now sight.now))
        (option_map plain_expr start.now)) }
    ensures condition { IfOk result (λ r. option_map (option_map plain) r.condition
        ≡ if_there (value (heads_in given.now) (sight_in given.now sight.now))
        (option_map plain_expr condition.now)) }
    ensures step { IfOk result (λ r. option_map (option_map plain) r.step
        ≡ if_there (value (heads_in given.now) (sight_in given.now sight.now))
        (option_map plain_expr step.now)) }
    ensures least { OnOk result (least.new ≡ kept (kept (kept least.old
        (faults_there (value_faults (heads_in given.now) (sight_in given.now sight.now))
        (option_map plain_expr start.now)))
        (faults_there (value_faults (heads_in given.now) (sight_in given.now sight.now))
        (option_map plain_expr condition.now)))
        (faults_there (value_faults (heads_in given.now) (sight_in given.now sight.now))
        (option_map plain_expr step.now))) }
{
    let start = value_there(given, sight, least, start)?;
    match value_there(given, sight, least, condition) {
        Ok(condition) => match value_there(given, sight, least, step) {
            Ok(step) => Ok(ForHead {
                start,
                condition,
                step,
            }),
            Err(error) => {
                drop(start);
                drop(condition);
                Err(error)
            }
        },
        Err(error) => {
            drop(start);
            Err(error)
        }
    }
}

fn declaration(
    given: &Given<'_>,
    sight: &mut Sight,
    least: &mut Option<Fault>,
    token: u32,
    ty: &TypeName,
    declared: &[DeclaredName],
) -> Result<Option<TypedStmt>, NoMemory>
    ensures value { IfOk result (λ r. option_map typed_stmt r
        ≡ fine (passed (declaration_of token)
        (two (line_type (sight_in given.now sight.old).structs ty.now)
        (names_fine (heads_in given.now) (sight_in given.now sight.old)
        (line_type (sight_in given.now sight.old).structs ty.now) (plain_names declared.now))))) }
    ensures least { OnOk result (least.new ≡ kept least.old
        (at token (line_verdict (sight_in given.now sight.old).structs ty.now)
        ++ names_faults (heads_in given.now) (sight_in given.now sight.old)
        (line_type (sight_in given.now sight.old).structs ty.now) (plain_names declared.now))) }
    ensures sight { OnOk result (sight_in given.now sight.new
        ≡ declaration_seen (after_names (sight_in given.now sight.old)
        (line_type (sight_in given.now sight.old).structs ty.now) (plain_names declared.now))) }
{
    let ty = line_type(least, token, &sight.structs, ty);
    let typed = names(given, sight, least, ty, declared)?;
    sight.see_declaration();
    Ok(made_declaration(token, ty, typed))
}
