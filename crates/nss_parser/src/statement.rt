ghost use Rattle.std.specs.Prelude.{◌≡◌, IfOk};
ghost use Rattle.std.specs.Option.{option_map};
ghost use Rattle.nss_tree.specs.Statements as tree;
ghost use Rattle.nss_tree.specs.Reading.{plain_expr, plain_stmt, plain_stmts};
ghost use Rattle.nss_parser.specs.ReadStatement as read;
ghost use Rattle.nss_parser.specs.ReadParts as parts;
ghost use Rattle.nss_parser.specs.ReadParts.{plain_head};
ghost use Rattle.nss_symbols.specs.Cursor.{Reads};

use crate::declaration::{begins_type, constant_value, declared_names, typed};
use crate::expression::expression;
use nss_symbols::{Cursor, Seen, Stop, Terminal};
use nss_tree::{Expr, Stmt};
use nwq_value::{Items, NoMemory};
use std::alloc::Global;

/// An expression in parentheses.
#[tactic(auto, unfolding(crate::specs::ReadStatement::condition))]
fn condition(alloc: Global, tokens: &mut Cursor<'_>, depth: usize) -> Result<Expr, Stop>
    ensures { Reads plain_expr (read.condition depth tokens.old) result tokens.new }
{
    tokens.expect(Terminal::Open)?;
    let value = expression(alloc, tokens, depth)?;
    match tokens.expect(Terminal::Close) {
        Err(misfit) => {
            drop(value);
            Err(Stop::from(misfit))
        }
        Ok(_) => Ok(value),
    }
}

/// An expression, or none where the token that ends it comes next.
#[tactic(auto, unfolding(crate::specs::ReadStatement::optional))]
fn optional(
    alloc: Global,
    tokens: &mut Cursor<'_>,
    depth: usize,
    end: Terminal,
) -> Result<Option<Expr>, Stop>
    ensures { Reads (option_map plain_expr) (read.optional depth end tokens.old) result tokens.new }
{
    if tokens.sees(end) {
        Ok(None)
    } else {
        let value = expression(alloc, tokens, depth)?;
        Ok(Some(value))
    }
}

/// Names of one type, with their first values.
#[tactic(auto, unfolding(crate::specs::ReadStatement::declaration))]
fn declaration(alloc: Global, tokens: &mut Cursor<'_>, depth: usize) -> Result<Stmt, Stop>
    ensures { Reads plain_stmt (read.declaration depth tokens.old) result tokens.new }
{
    let (number, ty) = typed(alloc, tokens)?;
    let names = declared_names(alloc, tokens, depth)?;
    tokens.expect(Terminal::Semicolon)?;
    Ok(Stmt::declaration(number, ty, names))
}

/// `case` and its constant.
#[tactic(auto, unfolding(crate::specs::ReadStatement::case_label))]
fn case_label(alloc: Global, tokens: &mut Cursor<'_>) -> Result<Stmt, Stop>
    ensures { Reads plain_stmt (read.case_label tokens.old) result tokens.new }
{
    let number = tokens.take()?;
    let value = constant_value(alloc, tokens)?;
    tokens.expect(Terminal::Colon)?;
    Ok(Stmt::case_label(number, value))
}

/// `default` as a label.
#[tactic(auto, unfolding(crate::specs::ReadStatement::default_label))]
fn default_label(tokens: &mut Cursor<'_>) -> Result<Stmt, Stop>
    ensures { Reads plain_stmt (read.default_label tokens.old) result tokens.new }
{
    let number = tokens.take()?;
    tokens.expect(Terminal::Colon)?;
    Ok(Stmt::default_label(number))
}

/// An expression as a statement.
#[tactic(auto, unfolding(crate::specs::ReadStatement::expression_statement))]
fn expression_statement(alloc: Global, tokens: &mut Cursor<'_>, depth: usize) -> Result<Stmt, Stop>
    ensures { Reads plain_stmt (read.expression_statement depth tokens.old) result tokens.new }
{
    let number = tokens.here()?;
    let value = expression(alloc, tokens, depth)?;
    match tokens.expect(Terminal::Semicolon) {
        Err(misfit) => {
            drop(value);
            Err(Stop::from(misfit))
        }
        Ok(_) => Ok(Stmt::expression(number, value)),
    }
}

/// `break`.
#[tactic(auto, unfolding(crate::specs::ReadStatement::break_statement))]
fn break_statement(tokens: &mut Cursor<'_>) -> Result<Stmt, Stop>
    ensures { Reads plain_stmt (read.break_statement tokens.old) result tokens.new }
{
    let number = tokens.take()?;
    tokens.expect(Terminal::Semicolon)?;
    Ok(Stmt::break_off(number))
}

/// `continue`.
#[tactic(auto, unfolding(crate::specs::ReadStatement::continue_statement))]
fn continue_statement(tokens: &mut Cursor<'_>) -> Result<Stmt, Stop>
    ensures { Reads plain_stmt (read.continue_statement tokens.old) result tokens.new }
{
    let number = tokens.take()?;
    tokens.expect(Terminal::Semicolon)?;
    Ok(Stmt::continue_on(number))
}

/// `return`, with a value where one is written.
#[tactic(auto, unfolding(crate::specs::ReadStatement::return_statement))]
fn return_statement(alloc: Global, tokens: &mut Cursor<'_>, depth: usize) -> Result<Stmt, Stop>
    ensures { Reads plain_stmt (read.return_statement depth tokens.old) result tokens.new }
{
    let number = tokens.take()?;
    let value = optional(alloc, tokens, depth, Terminal::Semicolon)?;
    match tokens.expect(Terminal::Semicolon) {
        Err(misfit) => {
            drop(value);
            Err(Stop::from(misfit))
        }
        Ok(_) => Ok(Stmt::return_from(number, value)),
    }
}

/// No entries.
#[tactic(auto, using(nss_tree::specs::Readings::map_stmts_none))]
fn no_stmts(alloc: Global) -> Items<Stmt>
    ensures { plain_stmts result ≡ tree.no_stmt }
{
    Items::new(alloc)
}

/// One more entry at the end.
#[tactic(auto, using(nss_tree::specs::Readings::map_stmts_push))]
fn push_stmt(all: &mut Items<Stmt>, next: Stmt) -> Result<(), NoMemory>
    ensures { IfOk result
        (λ _. plain_stmts all.new ≡ tree.joined_stmts (plain_stmts all.old)
        (tree.more_stmts (plain_stmt next) tree.no_stmt)) }
{
    all.push(next)
}

/// What stands in a block, or with labels in the body of a switch.
#[cycle(statement)]
#[tactic(auto, unfolding(crate::specs::ReadStatement::entry, crate::specs::ReadStatement::labelled))]
fn entry(alloc: Global, tokens: &mut Cursor<'_>, depth: usize, labels: bool) -> Result<Stmt, Stop>
    ensures { Reads plain_stmt (read.entry depth (read.statement depth) labels tokens.old) result
        tokens.new }
{
    if begins_type(tokens.peek()) {
        declaration(alloc, tokens, depth)
    } else if !labels {
        statement(alloc, tokens, depth)
    } else if tokens.sees(Terminal::Case) {
        case_label(alloc, tokens)
    } else if tokens.sees(Terminal::Default) {
        default_label(tokens)
    } else {
        statement(alloc, tokens, depth)
    }
}

/// The rest of a block, or with labels of the body of a switch, after its `{` and through its `}`.
#[cycle(statement)]
#[tactic(auto, unfolding(crate::specs::ReadStatement::entries))]
pub fn entries(
    alloc: Global,
    tokens: &mut Cursor<'_>,
    depth: usize,
    labels: bool,
) -> Result<Items<Stmt>, Stop>
    ensures { Reads plain_stmts (read.entries depth (read.statement depth) labels tokens.old)
        result tokens.new }
{
    let mut all = no_stmts(alloc);
    for _turn in 0..depth {
        if tokens.sees(Terminal::CloseBrace) {
            tokens.take()?;
            return Ok(all);
        }
        let next = entry(alloc, tokens, depth, labels)?;
        push_stmt(&mut all, next)?;
    }
    Err(Stop::TooDeep)
}

/// `else` and its statement, where one comes next.
#[cycle(statement)]
#[tactic(auto, unfolding(crate::specs::ReadParts::else_part))]
fn else_part(alloc: Global, tokens: &mut Cursor<'_>, depth: usize) -> Result<Option<Stmt>, Stop>
    ensures { Reads (option_map plain_stmt) (parts.else_part (read.statement depth) tokens.old)
        result tokens.new }
{
    if tokens.sees(Terminal::Else) {
        tokens.take()?;
        let otherwise = statement(alloc, tokens, depth)?;
        Ok(Some(otherwise))
    } else {
        Ok(None)
    }
}

/// An `if` of its parts.
fn if_of(
    alloc: Global,
    number: u32,
    condition: Expr,
    then: Stmt,
    otherwise: Option<Stmt>,
) -> Result<Stmt, NoMemory>
    ensures { IfOk result
        (λ s. plain_stmt s ≡ parts.if_of number (plain_expr condition) (plain_stmt then)
        (option_map plain_stmt otherwise)) }
{
    match otherwise {
        Some(otherwise) => Stmt::if_else(alloc, number, condition, then, otherwise),
        None => Stmt::if_only(alloc, number, condition, then),
    }
}

/// What follows the first statement of an `if`: an `else` belongs to the `if` before it.
#[cycle(statement)]
#[tactic(auto, unfolding(crate::specs::ReadParts::if_rest))]
fn if_rest(
    alloc: Global,
    tokens: &mut Cursor<'_>,
    depth: usize,
    number: u32,
    condition: Expr,
    then: Stmt,
) -> Result<Stmt, Stop>
    ensures { Reads plain_stmt
        (parts.if_rest (read.statement depth) number (plain_expr condition) (plain_stmt then)
        tokens.old) result tokens.new }
{
    match else_part(alloc, tokens, depth) {
        Err(stop) => {
            drop(then);
            drop(condition);
            Err(stop)
        }
        Ok(otherwise) => Ok(if_of(alloc, number, condition, then, otherwise)?),
    }
}

/// `if`, with an `else` or none.
#[cycle(statement)]
#[tactic(auto, unfolding(crate::specs::ReadStatement::if_statement))]
fn if_statement(alloc: Global, tokens: &mut Cursor<'_>, depth: usize) -> Result<Stmt, Stop>
    ensures { Reads plain_stmt (read.if_statement depth (read.statement depth) tokens.old) result
        tokens.new }
{
    let number = tokens.take()?;
    let value = condition(alloc, tokens, depth)?;
    match statement(alloc, tokens, depth) {
        Err(stop) => {
            drop(value);
            Err(stop)
        }
        Ok(inner) => if_rest(alloc, tokens, depth, number, value, inner),
    }
}

/// `while`.
#[cycle(statement)]
#[tactic(auto, unfolding(crate::specs::ReadStatement::while_statement))]
fn while_statement(alloc: Global, tokens: &mut Cursor<'_>, depth: usize) -> Result<Stmt, Stop>
    ensures { Reads plain_stmt (read.while_statement depth (read.statement depth) tokens.old)
        result tokens.new }
{
    let number = tokens.take()?;
    let condition = condition(alloc, tokens, depth)?;
    match statement(alloc, tokens, depth) {
        Err(stop) => {
            drop(condition);
            Err(stop)
        }
        Ok(body) => Ok(Stmt::while_loop(alloc, number, condition, body)?),
    }
}

/// What stands behind the body of a `do`.
#[tactic(auto, unfolding(crate::specs::ReadParts::do_end))]
fn do_end(alloc: Global, tokens: &mut Cursor<'_>, depth: usize) -> Result<Expr, Stop>
    ensures { Reads plain_expr (parts.do_end depth tokens.old) result tokens.new }
{
    tokens.expect(Terminal::While)?;
    let value = condition(alloc, tokens, depth)?;
    match tokens.expect(Terminal::Semicolon) {
        Err(misfit) => {
            drop(value);
            Err(Stop::from(misfit))
        }
        Ok(_) => Ok(value),
    }
}

/// What follows the body of a `do`.
#[tactic(auto, unfolding(crate::specs::ReadParts::do_rest))]
fn do_rest(
    alloc: Global,
    tokens: &mut Cursor<'_>,
    depth: usize,
    number: u32,
    body: Stmt,
) -> Result<Stmt, Stop>
    ensures { Reads plain_stmt (parts.do_rest depth number (plain_stmt body) tokens.old) result
        tokens.new }
{
    match do_end(alloc, tokens, depth) {
        Err(stop) => {
            drop(body);
            Err(stop)
        }
        Ok(value) => Ok(Stmt::do_loop(alloc, number, body, value)?),
    }
}

/// `do`, with its `while` after the body.
#[cycle(statement)]
#[tactic(auto, unfolding(crate::specs::ReadStatement::do_statement))]
fn do_statement(alloc: Global, tokens: &mut Cursor<'_>, depth: usize) -> Result<Stmt, Stop>
    ensures { Reads plain_stmt (read.do_statement depth (read.statement depth) tokens.old) result
        tokens.new }
{
    let number = tokens.take()?;
    let inner = statement(alloc, tokens, depth)?;
    do_rest(alloc, tokens, depth, number, inner)
}

/// The three parts in the head of a `for`, each of which may be left out.
#[derive(Drop)]
pub struct ForHead<E = Expr> {
    pub start: Option<E>,
    pub condition: Option<E>,
    pub step: Option<E>,
}

/// A part in the head of a `for`, and the token that ends it.
#[tactic(auto, unfolding(crate::specs::ReadParts::for_part))]
fn for_part(
    alloc: Global,
    tokens: &mut Cursor<'_>,
    depth: usize,
    end: Terminal,
) -> Result<Option<Expr>, Stop>
    ensures { Reads (option_map plain_expr) (parts.for_part depth end tokens.old) result
        tokens.new }
{
    let value = optional(alloc, tokens, depth, end)?;
    match tokens.expect(end) {
        Err(misfit) => {
            drop(value);
            Err(Stop::from(misfit))
        }
        Ok(_) => Ok(value),
    }
}

/// The head of a `for`, from its `(` through its `)`.
#[tactic(auto, unfolding(crate::specs::ReadParts::for_head))]
fn for_head(alloc: Global, tokens: &mut Cursor<'_>, depth: usize) -> Result<ForHead, Stop>
    ensures { Reads plain_head (parts.for_head depth tokens.old) result tokens.new }
{
    tokens.expect(Terminal::Open)?;
    let start = for_part(alloc, tokens, depth, Terminal::Semicolon)?;
    match for_part(alloc, tokens, depth, Terminal::Semicolon) {
        Err(stop) => {
            drop(start);
            Err(stop)
        }
        Ok(condition) => match for_part(alloc, tokens, depth, Terminal::Close) {
            Err(stop) => {
                drop(condition);
                drop(start);
                Err(stop)
            }
            Ok(step) => Ok(ForHead {
                start,
                condition,
                step,
            }),
        },
    }
}

/// A `for` of its parts.
fn for_of(alloc: Global, number: u32, head: ForHead, body: Stmt) -> Result<Stmt, NoMemory>
    ensures { IfOk result
        (λ s. plain_stmt s ≡ parts.for_of number (plain_head head) (plain_stmt body)) }
{
    let ForHead {
        start,
        condition,
        step,
    } = head;
    Stmt::for_loop(alloc, number, start, condition, step, body)
}

/// `for`, each of whose three parts may be left out.
#[cycle(statement)]
#[tactic(auto, using(crate::proofs::PartLaws::for_is))]
fn for_statement(alloc: Global, tokens: &mut Cursor<'_>, depth: usize) -> Result<Stmt, Stop>
    ensures { Reads plain_stmt (read.for_statement depth (read.statement depth) tokens.old) result
        tokens.new }
{
    let number = tokens.take()?;
    let head = for_head(alloc, tokens, depth)?;
    match statement(alloc, tokens, depth) {
        Err(stop) => {
            drop(head);
            Err(stop)
        }
        Ok(body) => Ok(for_of(alloc, number, head, body)?),
    }
}

/// The body of a `switch`, a block with labels.
#[cycle(statement)]
fn switch_body(alloc: Global, tokens: &mut Cursor<'_>, depth: usize) -> Result<Items<Stmt>, Stop>
    ensures { Reads plain_stmts (read.switch_body depth (read.statement depth) tokens.old) result
        tokens.new }
{
    tokens.expect(Terminal::OpenBrace)?;
    entries(alloc, tokens, depth, true)
}

/// `switch`, whose body is a block with labels.
#[cycle(statement)]
#[tactic(auto, using(crate::proofs::PartLaws::switch_is))]
fn switch_statement(alloc: Global, tokens: &mut Cursor<'_>, depth: usize) -> Result<Stmt, Stop>
    ensures { Reads plain_stmt (read.switch_statement depth (read.statement depth) tokens.old)
        result tokens.new }
{
    let number = tokens.take()?;
    let value = condition(alloc, tokens, depth)?;
    match switch_body(alloc, tokens, depth) {
        Err(stop) => {
            drop(value);
            Err(stop)
        }
        Ok(body) => Ok(Stmt::switch(number, value, body)),
    }
}

/// The statement that its first token begins.
#[cycle(statement)]
#[tactic(auto, unfolding(crate::specs::ReadStatement::some_statement, crate::specs::ReadStatement::block))]
fn some_statement(alloc: Global, tokens: &mut Cursor<'_>, depth: usize) -> Result<Stmt, Stop>
    ensures { Reads plain_stmt (read.some_statement depth (read.statement depth) tokens.old) result
        tokens.new }
{
    match tokens.peek() {
        Some(Seen::Fixed(Terminal::OpenBrace)) => {
            let number = tokens.take()?;
            let items = entries(alloc, tokens, depth, false)?;
            Ok(Stmt::block(number, items))
        }
        Some(Seen::Fixed(Terminal::Semicolon)) => {
            let number = tokens.take()?;
            Ok(Stmt::empty(number))
        }
        Some(Seen::Fixed(Terminal::If)) => if_statement(alloc, tokens, depth),
        Some(Seen::Fixed(Terminal::While)) => while_statement(alloc, tokens, depth),
        Some(Seen::Fixed(Terminal::Do)) => do_statement(alloc, tokens, depth),
        Some(Seen::Fixed(Terminal::For)) => for_statement(alloc, tokens, depth),
        Some(Seen::Fixed(Terminal::Switch)) => switch_statement(alloc, tokens, depth),
        Some(Seen::Fixed(Terminal::Break)) => break_statement(tokens),
        Some(Seen::Fixed(Terminal::Continue)) => continue_statement(tokens),
        Some(Seen::Fixed(Terminal::Return)) => return_statement(alloc, tokens, depth),
        _ => expression_statement(alloc, tokens, depth),
    }
}

/// A statement.
#[cycle(statement)]
#[tactic(auto, unfolding(crate::specs::ReadStatement::statement))]
pub fn statement(alloc: Global, tokens: &mut Cursor<'_>, depth: usize) -> Result<Stmt, Stop>
    ensures { Reads plain_stmt (read.statement depth tokens.old) result tokens.new }
{
    if depth == 0 {
        return Err(Stop::TooDeep);
    }
    some_statement(alloc, tokens, depth - 1)
}
