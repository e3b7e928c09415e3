//! The numbers of nodes in preorder.

ghost use Rattle.std.specs.Prelude.{◌≡◌};
ghost use Rattle.std.specs.Option.{option_map};
ghost use Rattle.typing_rules.specs.Reading.{plain, plain_all};
ghost use Rattle.typing_rules.specs.UnitReading.{typed_item, typed_names, typed_stmt};
ghost use Rattle.typing_rules.specs.UnitReading.{typed_stmts};
ghost use Rattle.code_places.specs.Numbers as numbers;

use nss_tree::{FieldLine, Identifier, Item, Stmt};
use nwq_value::{Const, Ty};
use typing_rules::{Expression, TypedItem, TypedName, TypedParameter, TypedStmt};

/// The number behind this one.
pub(crate) fn next(node: Option<u32>) -> Option<u32>
    ensures { result ≡ numbers.next node }
{
    match node {
        None => None,
        Some(node) => {
            if node < 4294967295 {
                Some(node + 1)
            } else {
                None
            }
        }
    }
}

/// The number behind all nodes of an expression.
#[cycle(expressions)]
#[tactic(auto, using(typing_rules::specs::Readings::known))]
pub(crate) fn behind(node: Option<u32>, e: &Expression) -> Option<u32>
    ensures { result ≡ numbers.behind node (plain e.now) }
{
    let node = next(node);
    match e {
        Expression::Literal { .. } => node,
        Expression::Name { .. } => node,
        Expression::Call { arguments, .. } => behind_all(node, arguments.as_slice()),
        Expression::Member { of, .. } => behind(node, of),
        Expression::Prefix { of, .. } => behind(node, of),
        Expression::Postfix { of, .. } => behind(node, of),
        Expression::Binary { left, right, .. } => behind(behind(node, left), right),
        Expression::Assign { place, value, .. } => behind(behind(node, place), value),
    }
}

/// The number behind all nodes of arguments.
#[cycle(expressions)]
pub(crate) fn behind_all(mut node: Option<u32>, arguments: &[Expression]) -> Option<u32>
    ensures { result ≡ numbers.behind_all node (plain_all arguments.now) }
{
    for argument in arguments {
        node = behind(node, argument);
    }
    node
}

/// The number behind an expression that may be absent.
pub(crate) fn behind_if(node: Option<u32>, e: &Option<Expression>) -> Option<u32>
    ensures { result ≡ numbers.behind_if node (option_map plain e.now) }
{
    match e {
        None => node,
        Some(e) => behind(node, e),
    }
}

/// The number behind declared names.
pub(crate) fn behind_names(mut node: Option<u32>, names: &[TypedName]) -> Option<u32>
    ensures { result ≡ numbers.behind_names node (typed_names names.now) }
{
    for name in names {
        node = behind_if(next(node), &name.value);
    }
    node
}

/// The number behind all nodes of a statement.
#[cycle(statements)]
#[tactic(auto, using(nss_tree::specs::Readings::plain_cases))]
pub(crate) fn behind_stmt(node: Option<u32>, stmt: &TypedStmt) -> Option<u32>
    ensures { result ≡ numbers.behind_stmt node (typed_stmt stmt.now) }
{
    let node = next(node);
    match stmt {
        Stmt::Block { items, .. } => behind_stmts(node, items.as_slice()),
        Stmt::Empty { .. } => node,
        Stmt::Expression { value, .. } => behind(node, value),
        Stmt::If {
            condition,
            then,
            ..
        } => behind_stmt(behind(node, condition), then),
        Stmt::IfElse {
            condition,
            then,
            otherwise,
            ..
        } => {
            let node = behind_stmt(behind(node, condition), then);
            behind_stmt(node, otherwise)
        }
        Stmt::While {
            condition,
            body,
            ..
        } => behind_stmt(behind(node, condition), body),
        Stmt::Do {
            body,
            condition,
            ..
        } => behind(behind_stmt(node, body), condition),
        Stmt::For {
            start,
            condition,
            step,
            body,
            ..
        } => {
            let node = behind_if(behind_if(node, start), condition);
            behind_stmt(behind_if(node, step), body)
        }
        Stmt::Switch { value, body, .. } => behind_stmts(behind(node, value), body.as_slice()),
        Stmt::Break { .. } => node,
        Stmt::Continue { .. } => node,
        Stmt::Return { value, .. } => behind_if(node, value),
        Stmt::Declaration { names, .. } => behind_names(node, names.as_slice()),
        Stmt::Case { .. } => next(node),
        Stmt::Default { .. } => node,
    }
}

/// The number behind statements in a row.
#[cycle(statements)]
pub(crate) fn behind_stmts(mut node: Option<u32>, stmts: &[TypedStmt]) -> Option<u32>
    ensures { result ≡ numbers.behind_stmts node (typed_stmts stmts.now) }
{
    for stmt in stmts {
        node = behind_stmt(node, stmt);
    }
    node
}

/// The number behind the names of a line of fields.
fn behind_fields(mut node: Option<u32>, names: &[Identifier]) -> Option<u32>
    ensures { result ≡ numbers.behind_fields node names.now }
{
    for _name in names {
        node = next(node);
    }
    node
}

/// The number behind lines of fields.
fn behind_lines(mut node: Option<u32>, lines: &[FieldLine<Ty>]) -> Option<u32>
    ensures { result ≡ numbers.behind_lines node lines.now }
{
    for line in lines {
        node = behind_fields(next(node), line.names.as_slice());
    }
    node
}

/// The number behind a default that may be absent.
fn behind_default(node: Option<u32>, default: &Option<Const>) -> Option<u32>
    ensures { result ≡ numbers.behind_default node default.now }
{
    match default {
        None => node,
        Some(_) => next(node),
    }
}

/// The number behind parameters.
pub(crate) fn behind_parameters(mut node: Option<u32>, parameters: &[TypedParameter]) -> Option<u32>
    ensures { result ≡ numbers.behind_parameters node parameters.now }
{
    for parameter in parameters {
        node = behind_default(next(node), &parameter.default);
    }
    node
}

/// The number behind all nodes of an item.
pub(crate) fn behind_item(node: Option<u32>, item: &TypedItem) -> Option<u32>
    ensures { result ≡ numbers.behind_item node (typed_item item.now) }
{
    let node = next(node);
    match item {
        Item::Struct { fields, .. } => behind_lines(node, fields.as_slice()),
        Item::Const { .. } => next(next(node)),
        Item::Global { names, .. } => behind_names(node, names.as_slice()),
        Item::Function {
            parameters,
            body,
            ..
        } => {
            let node = behind_parameters(node, parameters.as_slice());
            match body {
                None => node,
                Some(body) => behind_stmts(node, body.as_slice()),
            }
        }
    }
}
