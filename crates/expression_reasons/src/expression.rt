//! The walk over an expression.

ghost use Rattle.std.specs.Prelude.{◌≡◌, false, IfOk, OnOk};
ghost use Rattle.std.specs.Option.{option_map};
ghost use Rattle.nss_tree.specs.Expressions as tree;
ghost use Rattle.nss_tree.specs.Reading.{plain_expr, plain_exprs};
ghost use Rattle.typing_rules.specs.Nodes.{two};
ghost use Rattle.typing_rules.specs.Reading.{plain, plain_all};
ghost use Rattle.typing_rules.specs.Rules.{assign_rule, binary_rule, member_rule};
ghost use Rattle.typing_rules.specs.Rules.{postfix_rule, prefix_rule};
ghost use Rattle.typing_rules.specs.Verdicts.{all_fine, value};
ghost use Rattle.nss_expressions.specs.Arguments.{with_last};
ghost use Rattle.nss_expressions.specs.Views.{heads_in, sight_in};
ghost use Rattle.expression_reasons.specs.Reasons.{all_nodes, call_node, condition_nodes, nodes};
ghost use Rattle.expression_reasons.specs.Seen.{noted, seen};
ghost use Rattle.expression_reasons.specs.Why.{assign_reason, because, member_reason, operands};
ghost use Rattle.expression_reasons.specs.Why.{condition_reason, condition_rule, postfix_reason};
ghost use Rattle.expression_reasons.specs.Why.{prefix_reason};

use crate::call::call_why;
use crate::found::note;
use crate::reason::Reason;
use crate::value::{assign_why, binary_why, condition_why, member_why, postfix_why, prefix_why};
use nss_expressions::called::{callee, others, takes_action, types_wanted};
use nss_expressions::expression::expression as typed_expression;
use nss_expressions::given::Given;
use nss_scopes::Sight;
use nss_tree::{AssignOperator, BinaryOperator, Expr, PostfixOperator, PrefixOperator};
use nwq_value::{Items, NoMemory, Param, Text};
use typing_rules::Expression;

/// The typed expression of a value, if it has one.
pub fn typed(given: &Given<'_>, c: &Sight, e: &Expr) -> Result<Option<Expression>, NoMemory>
    ensures value { IfOk result (λ r. option_map plain r
        ≡ value (heads_in given.now) (sight_in given.now c.now) (plain_expr e.now)) }
{
    let mut ignored = None;
    typed_expression(given, c, &mut ignored, false, e)
}

/// One more typed expression behind others, where all are typed.
fn and_last(
    all: Option<Items<Expression>>,
    one: Option<Expression>,
) -> Result<Option<Items<Expression>>, NoMemory>
    ensures { IfOk result (λ r. option_map plain_all r
        ≡ with_last (option_map plain_all all) (option_map plain one)) }
{
    match all {
        Some(mut all) => match one {
            Some(one) => {
                all.push(one)?;
                Ok(Some(all))
            }
            None => Ok(None),
        },
        None => {
            drop(one);
            Ok(None)
        }
    }
}

/// The typed arguments of these parameters, if each has one.
fn typed_arguments(
    given: &Given<'_>,
    c: &Sight,
    params: &[Param],
    es: &[Expr],
) -> Result<Option<Items<Expression>>, NoMemory>
    ensures value { IfOk result (λ r. option_map plain_all r
        ≡ all_fine (heads_in given.now) (sight_in given.now c.now) params.now
        (plain_exprs es.now)) }
{
    let mut ignored = None;
    let mut all = Some(Items::new(given.alloc));
    let mut rest = params;
    for e in es {
        let one = typed_expression(given, c, &mut ignored, takes_action(rest), e)?;
        all = and_last(all, one)?;
        rest = others(rest);
    }
    Ok(all)
}

/// A call by itself.
fn own_call(
    given: &Given<'_>,
    c: &Sight,
    k: u32,
    found: &mut Option<Reason>,
    as_action: bool,
    token: u32,
    name: &Text,
    es: &[Expr],
) -> Result<(), NoMemory>
    ensures found { OnOk result (found.new ≡ noted k found.old token
        (call_node (heads_in given.now) (sight_in given.now c.now) as_action name.now
        (plain_exprs es.now))) }
{
    if token != k {
        return Ok(());
    }
    let called = callee(given, name.bytes());
    let xs = typed_arguments(given, c, types_wanted(called), es)?;
    let why = call_why(given.alloc, c.at_file, as_action, xs, called)?;
    note(found, why);
    Ok(())
}

/// A member by itself.
fn own_member(
    given: &Given<'_>,
    c: &Sight,
    k: u32,
    found: &mut Option<Reason>,
    token: u32,
    of: &Expr,
    name: &Text,
) -> Result<(), NoMemory>
    ensures found { OnOk result (found.new ≡ noted k found.old token
        (because (member_rule c.now.structs name.now) member_reason
        (value (heads_in given.now) (sight_in given.now c.now) (plain_expr of.now)))) }
{
    if token != k {
        return Ok(());
    }
    let of = typed(given, c, of)?;
    note(found, member_why(&c.structs, of, name.bytes()));
    Ok(())
}

/// An operator before a value, by itself.
fn own_prefix(
    given: &Given<'_>,
    c: &Sight,
    k: u32,
    found: &mut Option<Reason>,
    token: u32,
    operator: PrefixOperator,
    of: &Expr,
) -> Result<(), NoMemory>
    ensures found { OnOk result (found.new ≡ noted k found.old token
        (because (prefix_rule operator) (prefix_reason operator)
        (value (heads_in given.now) (sight_in given.now c.now) (plain_expr of.now)))) }
{
    if token != k {
        return Ok(());
    }
    let of = typed(given, c, of)?;
    note(found, prefix_why(operator, of));
    Ok(())
}

/// An operator behind a value, by itself.
fn own_postfix(
    given: &Given<'_>,
    c: &Sight,
    k: u32,
    found: &mut Option<Reason>,
    token: u32,
    operator: PostfixOperator,
    of: &Expr,
) -> Result<(), NoMemory>
    ensures found { OnOk result (found.new ≡ noted k found.old token
        (because (postfix_rule operator) postfix_reason
        (value (heads_in given.now) (sight_in given.now c.now) (plain_expr of.now)))) }
{
    if token != k {
        return Ok(());
    }
    let of = typed(given, c, of)?;
    note(found, postfix_why(operator, of));
    Ok(())
}

/// An operator between two values, by itself.
fn own_binary(
    given: &Given<'_>,
    c: &Sight,
    k: u32,
    found: &mut Option<Reason>,
    token: u32,
    operator: BinaryOperator,
    left: &Expr,
    right: &Expr,
) -> Result<(), NoMemory>
    ensures found { OnOk result (found.new ≡ noted k found.old token
        (because (binary_rule operator) operands
        (two (value (heads_in given.now) (sight_in given.now c.now) (plain_expr left.now))
        (value (heads_in given.now) (sight_in given.now c.now) (plain_expr right.now))))) }
{
    if token != k {
        return Ok(());
    }
    let left = typed(given, c, left)?;
    match typed(given, c, right) {
        Ok(right) => {
            note(found, binary_why(operator, left, right));
            Ok(())
        }
        Err(error) => {
            drop(left);
            Err(error)
        }
    }
}

/// An assignment by itself.
fn own_assign(
    given: &Given<'_>,
    c: &Sight,
    k: u32,
    found: &mut Option<Reason>,
    token: u32,
    operator: AssignOperator,
    place: &Expr,
    from: &Expr,
) -> Result<(), NoMemory>
    ensures found { OnOk result (found.new ≡ noted k found.old token
        (because (assign_rule operator) assign_reason
        (two (value (heads_in given.now) (sight_in given.now c.now) (plain_expr place.now))
        (value (heads_in given.now) (sight_in given.now c.now) (plain_expr from.now))))) }
{
    if token != k {
        return Ok(());
    }
    let place = typed(given, c, place)?;
    match typed(given, c, from) {
        Ok(from) => {
            note(found, assign_why(operator, place, from));
            Ok(())
        }
        Err(error) => {
            drop(place);
            Err(error)
        }
    }
}

/// Keeps the reason of the node with the token `k`, if it is one of this expression and none was
/// kept before. `as_action` says that the expression stands where an action is taken.
#[cycle(walk)]
pub fn expression(
    given: &Given<'_>,
    c: &Sight,
    k: u32,
    found: &mut Option<Reason>,
    as_action: bool,
    e: &Expr,
) -> Result<(), NoMemory>
    ensures found { OnOk result (found.new ≡ seen k found.old
        (nodes (heads_in given.now) (sight_in given.now c.now) as_action (plain_expr e.now))) }
{
    match e {
        Expr::Int { .. } => Ok(()),
        Expr::Float { .. } => Ok(()),
        Expr::Text { .. } => Ok(()),
        Expr::ObjectSelf { .. } => Ok(()),
        Expr::ObjectInvalid { .. } => Ok(()),
        Expr::Name { .. } => Ok(()),
        Expr::Call {
            token,
            name,
            arguments,
        } => call(given, c, k, found, as_action, *token, name, arguments),
        Expr::Member { token, of, name } => member(given, c, k, found, *token, of, name),
        Expr::Prefix {
            token,
            operator,
            of,
        } => prefix(given, c, k, found, *token, *operator, of),
        Expr::Postfix {
            token,
            operator,
            of,
        } => postfix(given, c, k, found, *token, *operator, of),
        Expr::Binary {
            token,
            operator,
            left,
            right,
        } => binary(given, c, k, found, *token, *operator, left, right),
        Expr::Assign {
            token,
            operator,
            place,
            value,
        } => assign(given, c, k, found, *token, *operator, place, value),
    }
}

/// A call.
#[cycle(walk)]
fn call(
    given: &Given<'_>,
    c: &Sight,
    k: u32,
    found: &mut Option<Reason>,
    as_action: bool,
    token: u32,
    name: &Text,
    es: &[Expr],
) -> Result<(), NoMemory>
    ensures found { OnOk result (found.new ≡ seen k found.old
        (nodes (heads_in given.now) (sight_in given.now c.now) as_action
        (tree.call token name.now (plain_exprs es.now)))) }
{
    let called = callee(given, name.bytes());
    arguments(given, c, k, found, types_wanted(called), es)?;
    own_call(given, c, k, found, as_action, token, name, es)
}

/// A member of a value.
#[cycle(walk)]
fn member(
    given: &Given<'_>,
    c: &Sight,
    k: u32,
    found: &mut Option<Reason>,
    token: u32,
    of: &Expr,
    name: &Text,
) -> Result<(), NoMemory>
    ensures found { OnOk result (found.new ≡ seen k found.old
        (nodes (heads_in given.now) (sight_in given.now c.now) false
        (tree.member token (plain_expr of.now) name.now))) }
{
    expression(given, c, k, found, false, of)?;
    own_member(given, c, k, found, token, of, name)
}

/// An operator before a value.
#[cycle(walk)]
fn prefix(
    given: &Given<'_>,
    c: &Sight,
    k: u32,
    found: &mut Option<Reason>,
    token: u32,
    operator: PrefixOperator,
    of: &Expr,
) -> Result<(), NoMemory>
    ensures found { OnOk result (found.new ≡ seen k found.old
        (nodes (heads_in given.now) (sight_in given.now c.now) false
        (tree.prefix token operator (plain_expr of.now)))) }
{
    expression(given, c, k, found, false, of)?;
    own_prefix(given, c, k, found, token, operator, of)
}

/// An operator behind a value.
#[cycle(walk)]
fn postfix(
    given: &Given<'_>,
    c: &Sight,
    k: u32,
    found: &mut Option<Reason>,
    token: u32,
    operator: PostfixOperator,
    of: &Expr,
) -> Result<(), NoMemory>
    ensures found { OnOk result (found.new ≡ seen k found.old
        (nodes (heads_in given.now) (sight_in given.now c.now) false
        (tree.postfix token operator (plain_expr of.now)))) }
{
    expression(given, c, k, found, false, of)?;
    own_postfix(given, c, k, found, token, operator, of)
}

/// An operator between two values.
#[cycle(walk)]
fn binary(
    given: &Given<'_>,
    c: &Sight,
    k: u32,
    found: &mut Option<Reason>,
    token: u32,
    operator: BinaryOperator,
    left: &Expr,
    right: &Expr,
) -> Result<(), NoMemory>
    ensures found { OnOk result (found.new ≡ seen k found.old
        (nodes (heads_in given.now) (sight_in given.now c.now) false
        (tree.binary token operator (plain_expr left.now) (plain_expr right.now)))) }
{
    expression(given, c, k, found, false, left)?;
    expression(given, c, k, found, false, right)?;
    own_binary(given, c, k, found, token, operator, left, right)
}

/// An assignment of a value to a place.
#[cycle(walk)]
fn assign(
    given: &Given<'_>,
    c: &Sight,
    k: u32,
    found: &mut Option<Reason>,
    token: u32,
    operator: AssignOperator,
    place: &Expr,
    value: &Expr,
) -> Result<(), NoMemory>
    ensures found { OnOk result (found.new ≡ seen k found.old
        (nodes (heads_in given.now) (sight_in given.now c.now) false
        (tree.assign token operator (plain_expr place.now) (plain_expr value.now)))) }
{
    expression(given, c, k, found, false, place)?;
    expression(given, c, k, found, false, value)?;
    own_assign(given, c, k, found, token, operator, place, value)
}

/// Arguments of these parameters.
#[cycle(walk)]
fn arguments(
    given: &Given<'_>,
    c: &Sight,
    k: u32,
    found: &mut Option<Reason>,
    params: &[Param],
    es: &[Expr],
) -> Result<(), NoMemory>
    ensures found { OnOk result (found.new ≡ seen k found.old
        (all_nodes (heads_in given.now) (sight_in given.now c.now) params.now
        (plain_exprs es.now))) }
{
    let mut rest = params;
    for e in es {
        expression(given, c, k, found, takes_action(rest), e)?;
        rest = others(rest);
    }
    Ok(())
}

/// The condition of a statement with this token, by itself.
fn own_condition(
    given: &Given<'_>,
    c: &Sight,
    k: u32,
    found: &mut Option<Reason>,
    token: u32,
    e: &Expr,
) -> Result<(), NoMemory>
    ensures found { OnOk result (found.new ≡ noted k found.old token
        (because condition_rule condition_reason
        (value (heads_in given.now) (sight_in given.now c.now) (plain_expr e.now)))) }
{
    if token != k {
        return Ok(());
    }
    let condition = typed(given, c, e)?;
    note(found, condition_why(condition));
    Ok(())
}

/// The condition of a statement with this token.
pub fn condition(
    given: &Given<'_>,
    c: &Sight,
    k: u32,
    found: &mut Option<Reason>,
    token: u32,
    e: &Expr,
) -> Result<(), NoMemory>
    ensures found { OnOk result (found.new ≡ seen k found.old
        (condition_nodes (heads_in given.now) (sight_in given.now c.now) token
        (plain_expr e.now))) }
{
    expression(given, c, k, found, false, e)?;
    own_condition(given, c, k, found, token, e)
}
