//! The judgement of each kind of statement, by the answers of its parts.

ghost use Rattle.std.specs.Prelude.{◌≡◌, ◌&&◌, not, IfOk, OnOk, Some};
ghost use Rattle.std.specs.Option.{option_map};
ghost use Rattle.nss_tree.specs.Statements as tree;
ghost use Rattle.typing_rules.specs.declared.fault.FaultKind.TheVariants as kind;
ghost use Rattle.typing_rules.specs.Nodes.{asked, at, fine, first_kind, four, kept, no_parts};
ghost use Rattle.typing_rules.specs.Nodes.{no_row, passed, row, three, two, only};
ghost use Rattle.typing_rules.specs.Reading.{plain};
ghost use Rattle.typing_rules.specs.Rules.{do_rows, do_rule, for_rows, for_rule, if_else_rows};
ghost use Rattle.typing_rules.specs.Rules.{if_else_rule, if_rows, if_rule, is_condition};
ghost use Rattle.typing_rules.specs.Rules.{outside_rows, result_fits, return_rows, return_rule};
ghost use Rattle.typing_rules.specs.Rules.{when, while_rule};
ghost use Rattle.typing_rules.specs.Types.{is_int};
ghost use Rattle.typing_rules.specs.Typed.{type_of};
ghost use Rattle.typing_rules.specs.UnitReading.{typed_names, typed_stmt, typed_stmts};
ghost use Rattle.typing_rules.specs.Verdicts.{declaration_of};
ghost use Rattle.nss_statements.specs.Faults.{break_rule_by, continue_rule_by, fault_unless};
ghost use Rattle.nss_statements.specs.Faults.{fit_rows, fit_rule};
ghost use Rattle.nss_statements.specs.Faults.{switch_rows_by, switch_rule_by};

use crate::parts::{some_made, two};
use nss_expressions::note::note;
use nss_expressions::rules::{is_int, is_void};
use nss_tree::Stmt;
use nwq_value::{Items, NoMemory, Ty};
use std::alloc::Global;
use typing_rules::rules::same_type;
use typing_rules::{Expression, Fault, FaultKind, TypedName, TypedStmt};

/// A block of these.
pub fn made_block(token: u32, items: Option<Items<TypedStmt>>) -> Option<TypedStmt>
    ensures made { option_map typed_stmt result
        ≡ fine (passed (tree.block token) (option_map typed_stmts items)) }
{
    match items {
        Some(items) => Some(Stmt::block(token, items)),
        None => None,
    }
}

/// A statement of this expression.
pub fn made_expression(token: u32, value: Option<Expression>) -> Option<TypedStmt>
    ensures made { option_map typed_stmt result
        ≡ fine (passed (tree.expression token) (option_map plain value)) }
{
    match value {
        Some(value) => Some(Stmt::expression(token, value)),
        None => None,
    }
}

/// A declaration of these names.
pub fn made_declaration(
    token: u32,
    ty: Option<Ty>,
    names: Option<Items<TypedName>>,
) -> Option<TypedStmt>
    ensures made { option_map typed_stmt result
        ≡ fine (passed (declaration_of token) (two ty (option_map typed_names names))) }
{
    match ty {
        Some(ty) => match names {
            Some(names) => Some(Stmt::declaration(token, ty, names)),
            None => None,
        },
        None => {
            drop(names);
            None
        }
    }
}

/// A condition with what it decides on, if both are typed and the condition is an int.
fn with_condition<B: Drop>(
    least: &mut Option<Fault>,
    token: u32,
    condition: Option<Expression>,
    rest: Option<B>,
) -> Option<(Expression, B)>
    ensures value { result ≡ fine (asked fit_rows (fit_rule (λ p. is_int (type_of (plain p.0))))
        (two condition rest)) }
    ensures least { least.new ≡ kept least.old (at token
        (asked fit_rows (fit_rule (λ p. is_int (type_of (plain p.0)))) (two condition rest))) }
{
    match two(condition, rest) {
        Some((condition, rest)) => {
            if is_int(condition.ty()) {
                return Some((condition, rest));
            }
            drop(condition);
            drop(rest);
            note(least, FaultKind::Mismatch, token);
            None
        }
        None => None,
    }
}

/// An `if` without `else`.
pub fn judge_if(
    alloc: Global,
    least: &mut Option<Fault>,
    token: u32,
    condition: Option<Expression>,
    then: Option<TypedStmt>,
) -> Result<Option<TypedStmt>, NoMemory>
    ensures value { IfOk result (λ r. option_map typed_stmt r
        ≡ fine (asked if_rows (if_rule token)
        (two (option_map plain condition) (option_map typed_stmt then)))) }
    ensures least { OnOk result (least.new ≡ kept least.old (at token
        (asked if_rows (if_rule token)
        (two (option_map plain condition) (option_map typed_stmt then))))) }
{
    match with_condition(least, token, condition, then) {
        Some((condition, then)) => some_made(Stmt::if_only(alloc, token, condition, then)),
        None => Ok(None),
    }
}

/// A `while`.
pub fn judge_while(
    alloc: Global,
    least: &mut Option<Fault>,
    token: u32,
    condition: Option<Expression>,
    body: Option<TypedStmt>,
) -> Result<Option<TypedStmt>, NoMemory>
    ensures value { IfOk result (λ r. option_map typed_stmt r
        ≡ fine (asked if_rows (while_rule token)
        (two (option_map plain condition) (option_map typed_stmt body)))) }
    ensures least { OnOk result (least.new ≡ kept least.old (at token
        (asked if_rows (while_rule token)
        (two (option_map plain condition) (option_map typed_stmt body))))) }
{
    match with_condition(least, token, condition, body) {
        Some((condition, body)) => some_made(Stmt::while_loop(alloc, token, condition, body)),
        None => Ok(None),
    }
}

/// A `do`.
pub fn judge_do(
    alloc: Global,
    least: &mut Option<Fault>,
    token: u32,
    body: Option<TypedStmt>,
    condition: Option<Expression>,
) -> Result<Option<TypedStmt>, NoMemory>
    ensures value { IfOk result (λ r. option_map typed_stmt r
        ≡ fine (asked do_rows (do_rule token)
        (two (option_map typed_stmt body) (option_map plain condition)))) }
    ensures least { OnOk result (least.new ≡ kept least.old (at token
        (asked do_rows (do_rule token)
        (two (option_map typed_stmt body) (option_map plain condition))))) }
{
    match with_condition(least, token, condition, body) {
        Some((condition, body)) => some_made(Stmt::do_loop(alloc, token, body, condition)),
        None => Ok(None),
    }
}

/// An `if` with `else`.
pub fn judge_if_else(
    alloc: Global,
    least: &mut Option<Fault>,
    token: u32,
    condition: Option<Expression>,
    then: Option<TypedStmt>,
    otherwise: Option<TypedStmt>,
) -> Result<Option<TypedStmt>, NoMemory>
    ensures value { IfOk result (λ r. option_map typed_stmt r
        ≡ fine (asked if_else_rows (if_else_rule token)
        (three (option_map plain condition) (option_map typed_stmt then)
        (option_map typed_stmt otherwise)))) }
    ensures least { OnOk result (least.new ≡ kept least.old (at token
        (asked if_else_rows (if_else_rule token)
        (three (option_map plain condition) (option_map typed_stmt then)
        (option_map typed_stmt otherwise))))) }
{
    match with_condition(least, token, condition, two(then, otherwise)) {
        Some((condition, (then, otherwise))) => {
            some_made(Stmt::if_else(alloc, token, condition, then, otherwise))
        }
        None => Ok(None),
    }
}

fn is_condition(value: &Option<Expression>) -> bool
    ensures { result ≡ is_condition (option_map plain value.now) }
{
    match value {
        None => true,
        Some(x) => is_int(x.ty()),
    }
}

/// A `for` whose parts are typed.
fn judge_for_of(
    alloc: Global,
    least: &mut Option<Fault>,
    token: u32,
    start: Option<Expression>,
    condition: Option<Expression>,
    step: Option<Expression>,
    body: TypedStmt,
) -> Result<Option<TypedStmt>, NoMemory>
    ensures value { IfOk result (λ r. option_map typed_stmt r
        ≡ fine (asked for_rows (for_rule token) (Some (
          option_map plain start,
          option_map plain condition,
          option_map plain step,
          typed_stmt body,
        )))) }
    ensures least { OnOk result (least.new ≡ kept least.old (at token
        (asked for_rows (for_rule token) (Some (
          option_map plain start,
          option_map plain condition,
          option_map plain step,
          typed_stmt body,
        ))))) }
{
    if is_condition(&condition) {
        return some_made(Stmt::for_loop(alloc, token, start, condition, step, body));
    }
    drop(start);
    drop(condition);
    drop(step);
    drop(body);
    note(least, FaultKind::Mismatch, token);
    Ok(None)
}

/// A `for`.
pub fn judge_for(
    alloc: Global,
    least: &mut Option<Fault>,
    token: u32,
    start: Option<Option<Expression>>,
    condition: Option<Option<Expression>>,
    step: Option<Option<Expression>>,
    body: Option<TypedStmt>,
) -> Result<Option<TypedStmt>, NoMemory>
    ensures value { IfOk result (λ r. option_map typed_stmt r
        ≡ fine (asked for_rows (for_rule token) (four (option_map (option_map plain) start)
        (option_map (option_map plain) condition) (option_map (option_map plain) step)
        (option_map typed_stmt body)))) }
    ensures least { OnOk result (least.new ≡ kept least.old (at token
        (asked for_rows (for_rule token) (four (option_map (option_map plain) start)
        (option_map (option_map plain) condition) (option_map (option_map plain) step)
        (option_map typed_stmt body))))) }
{
    match two(two(start, condition), two(step, body)) {
        Some(((start, condition), (step, body))) => {
            judge_for_of(alloc, least, token, start, condition, step, body)
        }
        None => Ok(None),
    }
}

/// The fault of a switch, if it has one.
fn switch_fault(is_int: bool, crosses: bool) -> Option<FaultKind>
    ensures { result ≡ fault_unless (is_int && not crosses)
        (first_kind (row kind.Mismatch (not is_int) (row kind.Cells crosses no_row))) }
{
    if !is_int {
        Some(FaultKind::Mismatch)
    } else if crosses {
        Some(FaultKind::Cells)
    } else {
        None
    }
}

/// A `switch`; `crosses` says that its value's cell passes the limit of the frame.
pub fn judge_switch(
    least: &mut Option<Fault>,
    token: u32,
    crosses: bool,
    value: Option<Expression>,
    body: Option<Items<TypedStmt>>,
) -> Option<TypedStmt>
    ensures value { option_map typed_stmt result
        ≡ fine (asked (switch_rows_by crosses) (switch_rule_by crosses token)
        (two (option_map plain value) (option_map typed_stmts body))) }
    ensures least { least.new ≡ kept least.old (at token
        (asked (switch_rows_by crosses) (switch_rule_by crosses token)
        (two (option_map plain value) (option_map typed_stmts body)))) }
{
    match (value, body) {
        (Some(value), Some(body)) => match switch_fault(is_int(value.ty()), crosses) {
            None => Some(Stmt::switch(token, value, body)),
            Some(kind) => {
                drop(value);
                drop(body);
                note(least, kind, token);
                None
            }
        },
        (Some(value), None) => {
            drop(value);
            None
        }
        (None, body) => {
            drop(body);
            None
        }
    }
}

/// A `break` where one may stand or not.
pub fn judge_break(least: &mut Option<Fault>, token: u32, may_stand: bool) -> Option<TypedStmt>
    ensures value { option_map typed_stmt result
        ≡ fine (asked outside_rows (break_rule_by may_stand token) no_parts) }
    ensures least { least.new ≡ kept least.old (at token
        (asked outside_rows (break_rule_by may_stand token) no_parts)) }
{
    if may_stand {
        return Some(Stmt::break_off(token));
    }
    note(least, FaultKind::Outside, token);
    None
}

/// A `continue` where one may stand or not.
pub fn judge_continue(least: &mut Option<Fault>, token: u32, may_stand: bool) -> Option<TypedStmt>
    ensures value { option_map typed_stmt result
        ≡ fine (asked outside_rows (continue_rule_by may_stand token) no_parts) }
    ensures least { least.new ≡ kept least.old (at token
        (asked outside_rows (continue_rule_by may_stand token) no_parts)) }
{
    if may_stand {
        return Some(Stmt::continue_on(token));
    }
    note(least, FaultKind::Outside, token);
    None
}

fn result_fits(ty: Ty, value: &Option<Expression>) -> bool
    ensures { result ≡ result_fits ty (option_map plain value.now) }
{
    match value {
        None => is_void(ty),
        Some(x) => !is_void(ty) && same_type(ty, x.ty()),
    }
}

/// A `return` in a function with this result.
pub fn judge_return(
    least: &mut Option<Fault>,
    token: u32,
    ty: Option<Ty>,
    value: Option<Option<Expression>>,
) -> Option<TypedStmt>
    ensures value { option_map typed_stmt result
        ≡ fine (asked return_rows (return_rule token)
        (two ty (option_map (option_map plain) value))) }
    ensures least { least.new ≡ kept least.old (at token (asked return_rows (return_rule token)
        (two ty (option_map (option_map plain) value)))) }
{
    match (ty, value) {
        (Some(ty), Some(value)) => {
            if result_fits(ty, &value) {
                return Some(Stmt::return_from(token, value));
            }
            drop(value);
            note(least, FaultKind::Mismatch, token);
            None
        }
        (Some(_), None) => None,
        (None, value) => {
            drop(value);
            None
        }
    }
}
