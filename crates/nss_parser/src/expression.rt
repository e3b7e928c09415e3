ghost use Rattle.std.specs.Prelude.{◌≡◌, IfOk};
ghost use Rattle.nss_tree.specs.Expressions as tree;
ghost use Rattle.nss_tree.specs.Reading.{plain_expr, plain_exprs};
ghost use Rattle.nss_parser.specs.ReadExpression as read;
ghost use Rattle.nss_symbols.specs.Cursor.{Reads};

use crate::operator::{Suffix, assign_of, binary_of, level_of, prefix_of, suffix_of};
use nss_lexer::literal;
use nss_symbols::{Cursor, Seen, Stop, Terminal, name_text};
use nss_tree::{BinaryOperator, Expr};
use nwq_value::{Items, NoMemory, Text};
use std::alloc::Global;

/// The level after the tightest operators.
const UNARY_LEVEL: u32 = 11;

/// A member of an expression, after its `.`.
fn member(alloc: Global, tokens: &mut Cursor<'_>, number: u32, of: Expr) -> Result<Expr, Stop>
    ensures { Reads plain_expr (read.member number (plain_expr of) tokens.old) result tokens.new }
{
    match tokens.name(alloc) {
        Err(stop) => {
            drop(of);
            Err(stop)
        }
        Ok(name) => Ok(Expr::member(alloc, number, of, name)?),
    }
}

/// One `.name`, `++` or `--` after an expression.
#[tactic(auto, unfolding(crate::specs::ReadExpression::suffix))]
fn suffix(alloc: Global, tokens: &mut Cursor<'_>, kind: Suffix, of: Expr) -> Result<Expr, Stop>
    ensures { Reads plain_expr (read.suffix kind (plain_expr of) tokens.old) result tokens.new }
{
    match tokens.take() {
        Err(misfit) => {
            drop(of);
            Err(Stop::from(misfit))
        }
        Ok(number) => match kind {
            Suffix::Member => member(alloc, tokens, number, of),
            Suffix::Step(operator) => Ok(Expr::postfix(alloc, number, operator, of)?),
        },
    }
}

/// All that goes on an expression after it.
fn suffixes(alloc: Global, tokens: &mut Cursor<'_>, depth: usize, of: Expr) -> Result<Expr, Stop>
    ensures { Reads plain_expr (read.suffixes depth (plain_expr of) tokens.old) result tokens.new }
{
    let mut of = of;
    for _turn in 0..depth {
        let Some(kind) = suffix_of(tokens.peek()) else {
            return Ok(of);
        };
        let longer = suffix(alloc, tokens, kind, of)?;
        of = longer;
    }
    drop(of);
    Err(Stop::TooDeep)
}

/// No expressions.
#[tactic(auto, using(nss_tree::specs::Readings::plain_exprs_none))]
fn no_exprs(alloc: Global) -> Items<Expr>
    ensures { plain_exprs result ≡ tree.no_expr }
{
    Items::new(alloc)
}

/// One more expression at the end.
#[tactic(auto, using(nss_tree::specs::Readings::plain_exprs_push))]
fn push_expr(all: &mut Items<Expr>, next: Expr) -> Result<(), NoMemory>
    ensures { IfOk result
        (λ _. plain_exprs all.new ≡ tree.joined_exprs (plain_exprs all.old)
        (tree.more_exprs (plain_expr next) tree.no_expr)) }
{
    all.push(next)
}

/// The arguments of a call up to `)`, of which there is one at least.
#[cycle(level)]
fn some_arguments(alloc: Global, tokens: &mut Cursor<'_>, depth: usize) -> Result<Items<Expr>, Stop>
    ensures { Reads plain_exprs
        (read.arguments_from depth (read.level depth) depth tree.no_expr tokens.old) result
        tokens.new }
{
    let mut all = no_exprs(alloc);
    for _turn in 0..depth {
        let argument = level(alloc, tokens, depth, 0)?;
        push_expr(&mut all, argument)?;
        if tokens.sees(Terminal::Comma) {
            tokens.take()?;
        } else {
            tokens.expect(Terminal::Close)?;
            return Ok(all);
        }
    }
    Err(Stop::TooDeep)
}

/// The arguments of a call, after its `(` and through its `)`.
#[cycle(level)]
#[tactic(auto, unfolding(crate::specs::ReadExpression::arguments))]
fn arguments(alloc: Global, tokens: &mut Cursor<'_>, depth: usize) -> Result<Items<Expr>, Stop>
    ensures { Reads plain_exprs (read.arguments depth (read.level depth) tokens.old) result
        tokens.new }
{
    if tokens.sees(Terminal::Close) {
        tokens.take()?;
        Ok(no_exprs(alloc))
    } else {
        some_arguments(alloc, tokens, depth)
    }
}

/// What a name that was read is: a call where `(` follows.
#[cycle(level)]
#[tactic(auto, unfolding(crate::specs::ReadExpression::after_name))]
fn after_name(
    alloc: Global,
    tokens: &mut Cursor<'_>,
    depth: usize,
    number: u32,
    name: Text,
) -> Result<Expr, Stop>
    ensures { Reads plain_expr (read.after_name depth (read.level depth) number name tokens.old)
        result tokens.new }
{
    if tokens.sees(Terminal::Open) {
        tokens.take()?;
        let arguments = arguments(alloc, tokens, depth)?;
        Ok(Expr::call(number, name, arguments))
    } else {
        Ok(Expr::name(number, name))
    }
}

/// A literal, a name, a call or an expression in parentheses.
#[cycle(level)]
#[tactic(auto, unfolding(crate::specs::ReadExpression::primary))]
fn primary(alloc: Global, tokens: &mut Cursor<'_>, depth: usize) -> Result<Expr, Stop>
    ensures { Reads plain_expr (read.primary depth (read.level depth) tokens.old) result
        tokens.new }
{
    match tokens.peek() {
        Some(Seen::Int(value)) => {
            let number = tokens.take()?;
            Ok(Expr::int(number, value))
        }
        Some(Seen::Float) => {
            let number = tokens.take()?;
            Ok(Expr::float(number))
        }
        Some(Seen::Text(text)) => {
            let number = tokens.take()?;
            Ok(Expr::text(number, literal(alloc, text)?))
        }
        Some(Seen::Name(bytes)) => {
            let number = tokens.take()?;
            let name = name_text(alloc, bytes)?;
            after_name(alloc, tokens, depth, number, name)
        }
        Some(Seen::Fixed(Terminal::ObjectSelf)) => {
            let number = tokens.take()?;
            Ok(Expr::object_self(number))
        }
        Some(Seen::Fixed(Terminal::ObjectInvalid)) => {
            let number = tokens.take()?;
            Ok(Expr::object_invalid(number))
        }
        Some(Seen::Fixed(Terminal::Open)) => {
            tokens.take()?;
            let inner = level(alloc, tokens, depth, 0)?;
            match tokens.expect(Terminal::Close) {
                Err(misfit) => {
                    drop(inner);
                    Err(Stop::from(misfit))
                }
                Ok(_) => Ok(inner),
            }
        }
        _ => Err(Stop::Syntax),
    }
}

/// An operator, as its number, and an operand of a level after it.
#[cycle(level)]
#[tactic(auto, unfolding(crate::specs::ReadExpression::operand))]
fn operand(
    alloc: Global,
    tokens: &mut Cursor<'_>,
    depth: usize,
    least: u32,
) -> Result<(u32, Expr), Stop>
    ensures { Reads (λ p. (p.0, plain_expr p.1)) (read.operand (read.level depth) least tokens.old)
        result tokens.new }
{
    let number = tokens.take()?;
    let value = level(alloc, tokens, depth, least)?;
    Ok((number, value))
}

/// An operand with the operators before and after it.
#[cycle(level)]
#[tactic(auto, unfolding(crate::specs::ReadExpression::prefix))]
fn prefix(alloc: Global, tokens: &mut Cursor<'_>, depth: usize) -> Result<Expr, Stop>
    ensures { Reads plain_expr (read.prefix depth (read.level depth) tokens.old) result tokens.new }
{
    match prefix_of(tokens.peek()) {
        Some(operator) => {
            let (number, of) = operand(alloc, tokens, depth, UNARY_LEVEL)?;
            Ok(Expr::prefix(alloc, number, operator, of)?)
        }
        None => {
            let of = primary(alloc, tokens, depth)?;
            suffixes(alloc, tokens, depth, of)
        }
    }
}

/// An operator and its right operand, after its left one.
#[cycle(level)]
#[tactic(auto, unfolding(crate::specs::ReadExpression::operation))]
fn operation(
    alloc: Global,
    tokens: &mut Cursor<'_>,
    depth: usize,
    operator: BinaryOperator,
    left: Expr,
) -> Result<Expr, Stop>
    ensures { Reads plain_expr
        (read.operation depth (read.level depth) operator (plain_expr left) tokens.old) result
        tokens.new }
{
    match operand(alloc, tokens, depth, level_of(operator) + 1) {
        Err(stop) => {
            drop(left);
            Err(stop)
        }
        Ok((number, right)) => Ok(Expr::binary(alloc, number, operator, left, right)?),
    }
}

/// The operators from a level on, after a left operand.
#[cycle(level)]
fn climb(
    alloc: Global,
    tokens: &mut Cursor<'_>,
    depth: usize,
    least: u32,
    left: Expr,
) -> Result<Expr, Stop>
    ensures { Reads plain_expr
        (read.climb depth (read.level depth) depth least (plain_expr left) tokens.old) result
        tokens.new }
{
    let mut left = left;
    for _turn in 0..depth {
        let Some(operator) = binary_of(tokens.peek()) else {
            return Ok(left);
        };
        if level_of(operator) < least {
            return Ok(left);
        }
        let longer = operation(alloc, tokens, depth, operator, left)?;
        left = longer;
    }
    drop(left);
    Err(Stop::TooDeep)
}

/// An assignment to what was read, or the operators after it.
#[cycle(level)]
#[tactic(auto, unfolding(crate::specs::ReadExpression::assigned))]
fn assigned(alloc: Global, tokens: &mut Cursor<'_>, depth: usize, left: Expr) -> Result<Expr, Stop>
    ensures { Reads plain_expr
        (read.assigned depth (read.level depth) (plain_expr left) tokens.old) result tokens.new }
{
    match assign_of(tokens.peek()) {
        Some(operator) => match operand(alloc, tokens, depth, 0) {
            Err(stop) => {
                drop(left);
                Err(stop)
            }
            Ok((number, value)) => Ok(Expr::assign(alloc, number, operator, left, value)?),
        },
        None => climb(alloc, tokens, depth, 0, left),
    }
}

/// What follows the first operand of a level.
#[cycle(level)]
#[tactic(auto, unfolding(crate::specs::ReadExpression::after_first))]
fn after_first(
    alloc: Global,
    tokens: &mut Cursor<'_>,
    depth: usize,
    least: u32,
    left: Expr,
) -> Result<Expr, Stop>
    ensures { Reads plain_expr
        (read.after_first depth (read.level depth) least (plain_expr left) tokens.old) result
        tokens.new }
{
    if least == 0 {
        assigned(alloc, tokens, depth, left)
    } else {
        climb(alloc, tokens, depth, least, left)
    }
}

/// An expression of a level: 0 may be an assignment, then come the levels of operators, and the
/// last is unary.
#[cycle(level)]
#[tactic(auto, unfolding(crate::specs::ReadExpression::level))]
pub fn level(alloc: Global, tokens: &mut Cursor<'_>, depth: usize, least: u32) -> Result<Expr, Stop>
    ensures { Reads plain_expr (read.level depth least tokens.old) result tokens.new }
{
    if depth == 0 {
        return Err(Stop::TooDeep);
    }
    let left = prefix(alloc, tokens, depth - 1)?;
    after_first(alloc, tokens, depth - 1, least, left)
}

/// An expression.
pub fn expression(alloc: Global, tokens: &mut Cursor<'_>, depth: usize) -> Result<Expr, Stop>
    ensures { Reads plain_expr (read.level depth 0 tokens.old) result tokens.new }
{
    level(alloc, tokens, depth, 0)
}
