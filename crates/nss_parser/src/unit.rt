ghost use Rattle.std.specs.Prelude.{◌≡◌, [], ◌∷◌, ◌++◌, map, IfOk};
ghost use Rattle.std.specs.Option.{option_map};
ghost use Rattle.nss_tree.specs.Reading.{plain_item, plain_name, plain_stmts};
ghost use Rattle.nss_parser.specs.ReadUnit as read;
ghost use Rattle.nss_parser.specs.ReadWhole.{body_rest};
ghost use Rattle.nss_symbols.specs.Outcome.{first};
ghost use Rattle.nss_symbols.specs.Cursor.{Reads};

use crate::declaration::{constant_value, declared_after, identifier, more_declared, typed};
use crate::statement::entries;
use nss_symbols::{Cursor, Stop, Terminal};
use nss_tree::{FieldLine, Identifier, Item, Parameter, Stmt, TypeName};
use nwq_value::{Items, NoMemory, Text};
use std::alloc::Global;

/// The names of fields that follow the first one, each after a comma.
fn more_fields(
    alloc: Global,
    tokens: &mut Cursor<'_>,
    depth: usize,
    first: Identifier,
) -> Result<Items<Identifier>, Stop>
    ensures { Reads (λ names. names) (read.more_fields depth (first ∷ []) tokens.old) result
        tokens.new }
{
    let mut names = Items::new(alloc);
    names.push(first)?;
    for _turn in 0..depth {
        if !tokens.sees(Terminal::Comma) {
            return Ok(names);
        }
        tokens.take()?;
        let next = identifier(alloc, tokens)?;
        names.push(next)?;
    }
    Err(Stop::TooDeep)
}

/// A line of a struct.
#[tactic(auto, unfolding(crate::specs::ReadUnit::field))]
fn field(alloc: Global, tokens: &mut Cursor<'_>, depth: usize) -> Result<FieldLine, Stop>
    ensures { Reads (λ line. line) (read.field depth tokens.old) result tokens.new }
{
    let (token, ty) = typed(alloc, tokens)?;
    let first = identifier(alloc, tokens)?;
    let names = more_fields(alloc, tokens, depth, first)?;
    tokens.expect(Terminal::Semicolon)?;
    Ok(FieldLine { token, ty, names })
}

/// The lines of a struct through its `}`, of which there is one at least.
fn fields(alloc: Global, tokens: &mut Cursor<'_>, depth: usize) -> Result<Items<FieldLine>, Stop>
    ensures { Reads (λ lines. lines) (read.fields_from depth depth [] tokens.old) result
        tokens.new }
{
    let mut lines = Items::new(alloc);
    for _turn in 0..depth {
        let line = field(alloc, tokens, depth)?;
        lines.push(line)?;
        if tokens.sees(Terminal::CloseBrace) {
            tokens.take()?;
            return Ok(lines);
        }
    }
    Err(Stop::TooDeep)
}

/// A struct, after its name.
#[tactic(auto, unfolding(crate::specs::ReadUnit::structure))]
fn structure(
    alloc: Global,
    tokens: &mut Cursor<'_>,
    depth: usize,
    of: Identifier,
) -> Result<Item, Stop>
    ensures { Reads plain_item (read.structure depth of tokens.old) result tokens.new }
{
    tokens.take()?;
    let lines = fields(alloc, tokens, depth)?;
    tokens.expect(Terminal::Semicolon)?;
    Ok(Item::structure(of.token, of.name, lines))
}

/// A const line.
#[tactic(auto, unfolding(crate::specs::ReadUnit::constant_line))]
fn constant_line(alloc: Global, tokens: &mut Cursor<'_>) -> Result<Item, Stop>
    ensures { Reads plain_item (read.constant_line tokens.old) result tokens.new }
{
    tokens.take()?;
    let (token, ty) = typed(alloc, tokens)?;
    let name = identifier(alloc, tokens)?;
    tokens.expect(Terminal::Assign)?;
    let value = constant_value(alloc, tokens)?;
    tokens.expect(Terminal::Semicolon)?;
    Ok(Item::constant(token, ty, name, value))
}

/// A parameter, after its name: its default follows a `=`.
#[tactic(auto, unfolding(crate::specs::ReadUnit::default))]
fn with_default(
    alloc: Global,
    tokens: &mut Cursor<'_>,
    token: u32,
    ty: TypeName,
    name: Text,
) -> Result<Parameter, Stop>
    ensures { Reads (λ p. p) (read.default token ty name tokens.old) result tokens.new }
{
    if tokens.sees(Terminal::Assign) {
        tokens.take()?;
        let value = constant_value(alloc, tokens)?;
        Ok(Parameter {
            token,
            ty,
            name,
            default: Some(value),
        })
    } else {
        Ok(Parameter {
            token,
            ty,
            name,
            default: None,
        })
    }
}

/// A parameter.
#[tactic(auto, unfolding(crate::specs::ReadUnit::parameter))]
fn parameter(alloc: Global, tokens: &mut Cursor<'_>) -> Result<Parameter, Stop>
    ensures { Reads (λ p. p) (read.parameter tokens.old) result tokens.new }
{
    let (token, ty) = typed(alloc, tokens)?;
    let name = tokens.name(alloc)?;
    with_default(alloc, tokens, token, ty, name)
}

/// Parameters through the `)` after them, of which there is one at least.
fn some_parameters(
    alloc: Global,
    tokens: &mut Cursor<'_>,
    depth: usize,
) -> Result<Items<Parameter>, Stop>
    ensures { Reads (λ all. all) (read.parameters_from depth [] tokens.old) result tokens.new }
{
    let mut all = Items::new(alloc);
    for _turn in 0..depth {
        let next = parameter(alloc, tokens)?;
        all.push(next)?;
        if tokens.sees(Terminal::Comma) {
            tokens.take()?;
        } else {
            tokens.expect(Terminal::Close)?;
            return Ok(all);
        }
    }
    Err(Stop::TooDeep)
}

/// Parameters through the `)` after them.
#[tactic(auto, unfolding(crate::specs::ReadUnit::parameters))]
fn parameters(
    alloc: Global,
    tokens: &mut Cursor<'_>,
    depth: usize,
) -> Result<Items<Parameter>, Stop>
    ensures { Reads (λ all. all) (read.parameters depth tokens.old) result tokens.new }
{
    if tokens.sees(Terminal::Close) {
        tokens.take()?;
        Ok(Items::new(alloc))
    } else {
        some_parameters(alloc, tokens, depth)
    }
}

/// A line of globals, after its first name.
#[tactic(auto, unfolding(crate::specs::ReadUnit::global))]
fn global(
    alloc: Global,
    tokens: &mut Cursor<'_>,
    depth: usize,
    token: u32,
    ty: TypeName,
    of: Identifier,
) -> Result<Item, Stop>
    ensures { Reads plain_item (read.global depth token ty of tokens.old) result tokens.new }
{
    let first = declared_after(alloc, tokens, depth, of)?;
    let names = more_declared(alloc, tokens, depth, first)?;
    tokens.expect(Terminal::Semicolon)?;
    Ok(Item::global(token, ty, names))
}

/// The body of a function, or the `;` of a prototype.
#[tactic(auto, unfolding(crate::specs::ReadUnit::body))]
fn body(alloc: Global, tokens: &mut Cursor<'_>, depth: usize) -> Result<Option<Items<Stmt>>, Stop>
    ensures { Reads (option_map plain_stmts) (read.body depth (body_rest depth) tokens.old) result
        tokens.new }
{
    if tokens.sees(Terminal::Semicolon) {
        tokens.take()?;
        Ok(None)
    } else {
        tokens.expect(Terminal::OpenBrace)?;
        let all = entries(alloc, tokens, depth, false)?;
        Ok(Some(all))
    }
}

/// A function, after its name.
#[tactic(auto, using(nss_tree::specs::Readings::map_body), unfolding(crate::specs::ReadUnit::function))]
fn function(
    alloc: Global,
    tokens: &mut Cursor<'_>,
    depth: usize,
    ty: TypeName,
    of: Identifier,
) -> Result<Item, Stop>
    ensures { Reads plain_item (read.function depth (body_rest depth) ty of tokens.old) result
        tokens.new }
{
    tokens.take()?;
    let all = parameters(alloc, tokens, depth)?;
    let body = body(alloc, tokens, depth)?;
    Ok(Item::function(of.token, ty, of.name, all, body))
}

/// A function or a line of globals, after its type.
#[tactic(auto, unfolding(crate::specs::ReadUnit::after_type))]
fn after_type(
    alloc: Global,
    tokens: &mut Cursor<'_>,
    depth: usize,
    token: u32,
    ty: TypeName,
) -> Result<Item, Stop>
    ensures { Reads plain_item (read.after_type depth (body_rest depth) token ty tokens.old) result
        tokens.new }
{
    let of = identifier(alloc, tokens)?;
    if tokens.sees(Terminal::Open) {
        function(alloc, tokens, depth, ty, of)
    } else {
        global(alloc, tokens, depth, token, ty, of)
    }
}

/// What begins with `struct`: a struct, or what has a struct as its type.
#[tactic(auto, unfolding(crate::specs::ReadUnit::after_struct))]
fn after_struct(alloc: Global, tokens: &mut Cursor<'_>, depth: usize) -> Result<Item, Stop>
    ensures { Reads plain_item (read.after_struct depth (body_rest depth) tokens.old) result
        tokens.new }
{
    let token = tokens.take()?;
    let of = identifier(alloc, tokens)?;
    if tokens.sees(Terminal::OpenBrace) {
        structure(alloc, tokens, depth, of)
    } else {
        after_type(alloc, tokens, depth, token, TypeName::Struct(of.name))
    }
}

/// What begins with a type that is no struct.
fn typed_item(alloc: Global, tokens: &mut Cursor<'_>, depth: usize) -> Result<Item, Stop>
    ensures { Reads plain_item (read.typed_item depth (body_rest depth) tokens.old) result
        tokens.new }
{
    let (token, ty) = typed(alloc, tokens)?;
    after_type(alloc, tokens, depth, token, ty)
}

/// One item of a unit.
#[tactic(auto, unfolding(crate::specs::ReadUnit::item))]
pub fn item(alloc: Global, tokens: &mut Cursor<'_>, depth: usize) -> Result<Item, Stop>
    ensures { Reads plain_item (read.item depth (body_rest depth) tokens.old) result tokens.new }
{
    if tokens.sees(Terminal::Struct) {
        after_struct(alloc, tokens, depth)
    } else if tokens.sees(Terminal::Const) {
        constant_line(alloc, tokens)
    } else {
        typed_item(alloc, tokens, depth)
    }
}

/// Whether no token is left.
fn is_at_end(tokens: &Cursor<'_>) -> bool
    ensures { result ≡ read.is_end (first tokens.now) }
{
    match tokens.peek() {
        None => true,
        Some(_) => false,
    }
}

/// One more item at the end.
fn push_item(items: &mut Items<Item>, next: Item) -> Result<(), NoMemory>
    ensures { IfOk result
        (λ _. map plain_item items.new ≡ map plain_item items.old ++ plain_item next ∷ []) }
{
    items.push(next)
}

/// All items of a unit.
#[tactic(auto, unfolding(crate::specs::ReadUnit::items))]
pub fn unit(alloc: Global, tokens: &mut Cursor<'_>, depth: usize) -> Result<Items<Item>, Stop>
    ensures { Reads (map plain_item) (read.items depth (body_rest depth) tokens.old) result
        tokens.new }
{
    let mut items = Items::new(alloc);
    for _turn in 0..depth {
        if is_at_end(tokens) {
            return Ok(items);
        }
        let next = item(alloc, tokens, depth)?;
        push_item(&mut items, next)?;
    }
    Err(Stop::TooDeep)
}
