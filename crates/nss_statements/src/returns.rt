//! Whether a typed statement returns.

ghost use Rattle.std.specs.Prelude.{◌≡◌, if◌then◌else◌};
ghost use Rattle.typing_rules.specs.Returns.{has_break, has_default, have_break, is_default};
ghost use Rattle.typing_rules.specs.Returns.{is_statement, last_returns, returns, some_returns};
ghost use Rattle.typing_rules.specs.UnitReading.{typed_stmt, typed_stmts};

use nss_tree::Stmt;
use typing_rules::TypedStmt;

fn is_default(x: &TypedStmt) -> bool
    ensures { result ≡ is_default (typed_stmt x.now) }
{
    match x {
        Stmt::Default { .. } => true,
        Stmt::Block { .. } => false,
        Stmt::Empty { .. } => false,
        Stmt::Expression { .. } => false,
        Stmt::If { .. } => false,
        Stmt::IfElse { .. } => false,
        Stmt::While { .. } => false,
        Stmt::Do { .. } => false,
        Stmt::For { .. } => false,
        Stmt::Switch { .. } => false,
        Stmt::Break { .. } => false,
        Stmt::Continue { .. } => false,
        Stmt::Return { .. } => false,
        Stmt::Declaration { .. } => false,
        Stmt::Case { .. } => false,
    }
}

/// Whether it is a statement, and no label or declaration.
fn is_statement(x: &TypedStmt) -> bool
    ensures { result ≡ is_statement (typed_stmt x.now) }
{
    match x {
        Stmt::Declaration { .. } => false,
        Stmt::Case { .. } => false,
        Stmt::Default { .. } => false,
        Stmt::Block { .. } => true,
        Stmt::Empty { .. } => true,
        Stmt::Expression { .. } => true,
        Stmt::If { .. } => true,
        Stmt::IfElse { .. } => true,
        Stmt::While { .. } => true,
        Stmt::Do { .. } => true,
        Stmt::For { .. } => true,
        Stmt::Switch { .. } => true,
        Stmt::Break { .. } => true,
        Stmt::Continue { .. } => true,
        Stmt::Return { .. } => true,
    }
}

fn has_default(xs: &[TypedStmt]) -> bool
    ensures { result ≡ has_default (typed_stmts xs.now) }
{
    for x in xs {
        if is_default(x) {
            return true;
        }
    }
    false
}

/// Whether a break in it leaves the loop or the switch that it stands in.
#[cycle(breaks)]
fn has_break(x: &TypedStmt) -> bool
    ensures { result ≡ has_break (typed_stmt x.now) }
{
    match x {
        Stmt::Block { items, .. } => have_break(items),
        Stmt::If { then, .. } => has_break(then),
        Stmt::IfElse {
            then,
            otherwise,
            ..
        } => has_break(then) || has_break(otherwise),
        Stmt::Break { .. } => true,
        Stmt::Empty { .. } => false,
        Stmt::Expression { .. } => false,
        Stmt::While { .. } => false,
        Stmt::Do { .. } => false,
        Stmt::For { .. } => false,
        Stmt::Switch { .. } => false,
        Stmt::Continue { .. } => false,
        Stmt::Return { .. } => false,
        Stmt::Declaration { .. } => false,
        Stmt::Case { .. } => false,
        Stmt::Default { .. } => false,
    }
}

#[cycle(breaks)]
fn have_break(xs: &[TypedStmt]) -> bool
    ensures { result ≡ have_break (typed_stmts xs.now) }
{
    for x in xs {
        if has_break(x) {
            return true;
        }
    }
    false
}

/// Whether each way through it ends with a `return`.
#[cycle(returns)]
fn returns(x: &TypedStmt) -> bool
    ensures { result ≡ returns (typed_stmt x.now) }
{
    match x {
        Stmt::Block { items, .. } => some_returns(items),
        Stmt::IfElse {
            then,
            otherwise,
            ..
        } => returns(then) && returns(otherwise),
        Stmt::Do { body, .. } => returns(body),
        Stmt::Switch { body, .. } => {
            has_default(body) && !have_break(body) && last_returns(body)
        }
        Stmt::Return { .. } => true,
        Stmt::Empty { .. } => false,
        Stmt::Expression { .. } => false,
        Stmt::If { .. } => false,
        Stmt::While { .. } => false,
        Stmt::For { .. } => false,
        Stmt::Break { .. } => false,
        Stmt::Continue { .. } => false,
        Stmt::Declaration { .. } => false,
        Stmt::Case { .. } => false,
        Stmt::Default { .. } => false,
    }
}

/// Whether one of these returns.
#[cycle(returns)]
pub fn some_returns(xs: &[TypedStmt]) -> bool
    ensures test { result ≡ some_returns (typed_stmts xs.now) }
{
    for x in xs {
        if returns(x) {
            return true;
        }
    }
    false
}

/// Whether the last statement returns, labels and declarations passed over.
#[cycle(returns)]
fn last_returns(xs: &[TypedStmt]) -> bool
    ensures { result ≡ last_returns (typed_stmts xs.now) }
{
    let mut last = false;
    for x in xs {
        last = next_last(x, returns(x), last);
    }
    last
}

/// Whether a statement returns, which is known; of a label or declaration, what was told of those
/// before it.
fn next_last(x: &TypedStmt, returns: bool, before: bool) -> bool
    ensures { result ≡ (if is_statement (typed_stmt x.now) then returns else before) }
{
    if is_statement(x) { returns } else { before }
}
