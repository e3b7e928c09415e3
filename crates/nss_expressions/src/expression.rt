//! The walk over an expression.

ghost use Rattle.std.specs.Prelude.{◌≡◌, false, IfOk, OnOk};
ghost use Rattle.std.specs.Option.{option_map};
ghost use Rattle.nss_tree.specs.Expressions as tree;
ghost use Rattle.nss_tree.specs.Reading.{plain_expr, plain_exprs};
ghost use Rattle.typing_rules.specs.Nodes.{fine, kept};
ghost use Rattle.typing_rules.specs.Reading.{plain, plain_all};
ghost use Rattle.typing_rules.specs.Verdicts.{all_faults, all_fine, faults, verdict};
ghost use Rattle.nss_expressions.specs.Views.{heads_in, sight_in};
ghost use Rattle.nss_expressions.specs.Arguments.{with_last};

use crate::call::judge_call;
use crate::called::{callee, others, takes_action, types_wanted};
use crate::given::Given;
use crate::judge::{
    judge_assign, judge_binary, judge_member, judge_name, judge_postfix, judge_prefix,
};
use crate::known::name_means;
use crate::note::note;
use nss_scopes::Sight;
use nss_tree::{AssignOperator, BinaryOperator, Expr, PostfixOperator, PrefixOperator};
use nwq_value::{Const, Items, NoMemory, Param, Text};
use typing_rules::{Expression, Fault, FaultKind};

/// The typed expression, if it has one; the least fault of its nodes and of what was kept before is
/// kept. `as_action` says that it stands where an action is taken.
#[cycle(walk)]
pub fn expression(
    given: &Given<'_>,
    c: &Sight,
    least: &mut Option<Fault>,
    as_action: bool,
    e: &Expr,
) -> Result<Option<Expression>, NoMemory>
    ensures value { IfOk result (λ r. option_map plain r
        ≡ fine (verdict (heads_in given.now) (sight_in given.now c.now) as_action
        (plain_expr e.now))) }
    ensures least { OnOk result (least.new ≡ kept least.old
        (faults (heads_in given.now) (sight_in given.now c.now) as_action (plain_expr e.now))) }
{
    let alloc = given.alloc;
    match e {
        Expr::Int { value, .. } => Ok(Some(Expression::literal(Const::Int(*value)))),
        Expr::Float { token } => {
            note(least, FaultKind::RefusedType, *token);
            Ok(None)
        }
        Expr::Text { value, .. } => {
            let value = value.copy(alloc)?;
            Ok(Some(Expression::literal(Const::Text(value))))
        }
        Expr::ObjectSelf { .. } => Ok(Some(Expression::literal(Const::SelfObject))),
        Expr::ObjectInvalid { .. } => Ok(Some(Expression::literal(Const::InvalidObject))),
        Expr::Name { token, name } => {
            let means = name_means(given.table, c, name.bytes());
            judge_name(alloc, least, *token, c.at_file, means)
        }
        Expr::Call {
            token,
            name,
            arguments,
        } => call(given, c, least, as_action, *token, name, arguments),
        Expr::Member { token, of, name } => member(given, c, least, *token, of, name),
        Expr::Prefix {
            token,
            operator,
            of,
        } => prefix(given, c, least, *token, *operator, of),
        Expr::Postfix {
            token,
            operator,
            of,
        } => postfix(given, c, least, *token, *operator, of),
        Expr::Binary {
            token,
            operator,
            left,
            right,
        } => binary(given, c, least, *token, *operator, left, right),
        Expr::Assign {
            token,
            operator,
            place,
            value,
        } => assign(given, c, least, *token, *operator, place, value),
    }
}

/// A call.
#[cycle(walk)]
fn call(
    given: &Given<'_>,
    c: &Sight,
    least: &mut Option<Fault>,
    as_action: bool,
    token: u32,
    name: &Text,
    es: &[Expr],
) -> Result<Option<Expression>, NoMemory>
    ensures value { IfOk result (λ r. option_map plain r
        ≡ fine (verdict (heads_in given.now) (sight_in given.now c.now) as_action
        (tree.call token name.now (plain_exprs es.now)))) }
    ensures least { OnOk result (least.new ≡ kept least.old
        (faults (heads_in given.now) (sight_in given.now c.now) as_action
        (tree.call token name.now (plain_exprs es.now)))) }
{
    let called = callee(given, name.bytes());
    let xs = arguments(given, c, least, types_wanted(called), es)?;
    judge_call(given.alloc, least, token, c.at_file, as_action, xs, called)
}

/// A member of a value.
#[cycle(walk)]
fn member(
    given: &Given<'_>,
    c: &Sight,
    least: &mut Option<Fault>,
    token: u32,
    of: &Expr,
    name: &Text,
) -> Result<Option<Expression>, NoMemory>
    ensures value { IfOk result (λ r. option_map plain r
        ≡ fine (verdict (heads_in given.now) (sight_in given.now c.now) false
        (tree.member token (plain_expr of.now) name.now))) }
    ensures least { OnOk result (least.new ≡ kept least.old
        (faults (heads_in given.now) (sight_in given.now c.now) false
        (tree.member token (plain_expr of.now) name.now))) }
{
    let of = expression(given, c, least, false, of)?;
    judge_member(given.alloc, least, token, &c.structs, of, name.bytes())
}

/// An operator before a value.
#[cycle(walk)]
fn prefix(
    given: &Given<'_>,
    c: &Sight,
    least: &mut Option<Fault>,
    token: u32,
    operator: PrefixOperator,
    of: &Expr,
) -> Result<Option<Expression>, NoMemory>
    ensures value { IfOk result (λ r. option_map plain r
        ≡ fine (verdict (heads_in given.now) (sight_in given.now c.now) false
        (tree.prefix token operator (plain_expr of.now)))) }
    ensures least { OnOk result (least.new ≡ kept least.old
        (faults (heads_in given.now) (sight_in given.now c.now) false
        (tree.prefix token operator (plain_expr of.now)))) }
{
    let of = expression(given, c, least, false, of)?;
    judge_prefix(given.alloc, least, token, operator, of)
}

/// An operator behind a value.
#[cycle(walk)]
fn postfix(
    given: &Given<'_>,
    c: &Sight,
    least: &mut Option<Fault>,
    token: u32,
    operator: PostfixOperator,
    of: &Expr,
) -> Result<Option<Expression>, NoMemory>
    ensures value { IfOk result (λ r. option_map plain r
        ≡ fine (verdict (heads_in given.now) (sight_in given.now c.now) false
        (tree.postfix token operator (plain_expr of.now)))) }
    ensures least { OnOk result (least.new ≡ kept least.old
        (faults (heads_in given.now) (sight_in given.now c.now) false
        (tree.postfix token operator (plain_expr of.now)))) }
{
    let of = expression(given, c, least, false, of)?;
    judge_postfix(given.alloc, least, token, operator, of)
}

/// An operator between two values.
#[cycle(walk)]
fn binary(
    given: &Given<'_>,
    c: &Sight,
    least: &mut Option<Fault>,
    token: u32,
    operator: BinaryOperator,
    left: &Expr,
    right: &Expr,
) -> Result<Option<Expression>, NoMemory>
    ensures value { IfOk result (λ r. option_map plain r
        ≡ fine (verdict (heads_in given.now) (sight_in given.now c.now) false
        (tree.binary token operator (plain_expr left.now) (plain_expr right.now)))) }
    ensures least { OnOk result (least.new ≡ kept least.old
        (faults (heads_in given.now) (sight_in given.now c.now) false
        (tree.binary token operator (plain_expr left.now) (plain_expr right.now)))) }
{
    let left = expression(given, c, least, false, left)?;
    match expression(given, c, least, false, right) {
        Ok(right) => judge_binary(given.alloc, least, token, operator, left, right),
        Err(error) => {
            drop(left);
            Err(error)
        }
    }
}

/// An assignment of a value to a place.
#[cycle(walk)]
fn assign(
    given: &Given<'_>,
    c: &Sight,
    least: &mut Option<Fault>,
    token: u32,
    operator: AssignOperator,
    place: &Expr,
    value: &Expr,
) -> Result<Option<Expression>, NoMemory>
    ensures value { IfOk result (λ r. option_map plain r
        ≡ fine (verdict (heads_in given.now) (sight_in given.now c.now) false
        (tree.assign token operator (plain_expr place.now) (plain_expr value.now)))) }
    ensures least { OnOk result (least.new ≡ kept least.old
        (faults (heads_in given.now) (sight_in given.now c.now) false
        (tree.assign token operator (plain_expr place.now) (plain_expr value.now)))) }
{
    let place = expression(given, c, least, false, place)?;
    match expression(given, c, least, false, value) {
        Ok(value) => judge_assign(given.alloc, least, token, operator, place, value),
        Err(error) => {
            drop(place);
            Err(error)
        }
    }
}

/// The typed arguments of these parameters, if each has one.
#[cycle(walk)]
fn arguments(
    given: &Given<'_>,
    c: &Sight,
    least: &mut Option<Fault>,
    params: &[Param],
    es: &[Expr],
) -> Result<Option<Items<Expression>>, NoMemory>
    ensures value { IfOk result (λ r. option_map plain_all r
        ≡ all_fine (heads_in given.now) (sight_in given.now c.now) params.now
        (plain_exprs es.now)) }
    ensures least { OnOk result (least.new ≡ kept least.old
        (all_faults (heads_in given.now) (sight_in given.now c.now) params.now
        (plain_exprs es.now))) }
{
    let mut all = Some(Items::new(given.alloc));
    let mut rest = params;
    for e in es {
        let one = expression(given, c, least, takes_action(rest), e)?;
        all = and_last(all, one)?;
        rest = others(rest);
    }
    Ok(all)
}

/// One more typed expression behind others, where all are typed.
fn and_last(
    all: Option<Items<Expression>>,
    one: Option<Expression>,
) -> Result<Option<Items<Expression>>, NoMemory>
    ensures { IfOk result (λ r. option_map plain_all r
        ≡ with_last (option_map plain_all all) (option_map plain one)) }
{
    match all {
        Some(mut all) => match one {
            Some(one) => {
                all.push(one)?;
                Ok(Some(all))
            }
            None => Ok(None),
        },
        None => {
            drop(one);
            Ok(None)
        }
    }
}
