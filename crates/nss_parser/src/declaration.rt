ghost use Rattle.std.specs.Prelude.{◌≡◌, [], ◌∷◌, ◌++◌, IfOk};
ghost use Rattle.std.specs.Option.{option_map};
ghost use Rattle.nss_tree.specs.Reading.{plain_name, plain_names};
ghost use Rattle.nss_parser.specs.Operators as table;
ghost use Rattle.nss_parser.specs.ReadDeclaration as read;
ghost use Rattle.nss_parser.specs.ReadStatement.{is_some_type, type_begins};
ghost use Rattle.nss_symbols.specs.Outcome as outcome;
ghost use Rattle.nss_symbols.specs.Cursor.{plain_symbol, Reads};

use crate::expression::expression;
use nss_lexer::literal;
use nss_symbols::{Cursor, Seen, Stop, Terminal, name_text};
use nss_tree::{Constant, DeclaredName, Identifier, TypeName};
use nwq_value::{Items, NoMemory};
use std::alloc::Global;

/// The type that a word is by itself.
fn type_word(terminal: Terminal) -> Option<TypeName>
    ensures { result ≡ table.type_word terminal }
{
    match terminal {
        Terminal::Void => Some(TypeName::Void),
        Terminal::Int => Some(TypeName::Int),
        Terminal::Float => Some(TypeName::Float),
        Terminal::String => Some(TypeName::String),
        Terminal::Object => Some(TypeName::Object),
        Terminal::Vector => Some(TypeName::Vector),
        Terminal::Location => Some(TypeName::Location),
        Terminal::Effect => Some(TypeName::Effect),
        Terminal::Event => Some(TypeName::Event),
        Terminal::Talent => Some(TypeName::Talent),
        Terminal::ItemProperty => Some(TypeName::ItemProperty),
        Terminal::Action => Some(TypeName::Action),
        _ => None,
    }
}

/// The type that comes next, where it is one by itself.
fn word_of(next: Option<Seen<'_>>) -> Option<TypeName>
    ensures { result ≡ read.word_of (option_map plain_symbol next.entry) }
{
    match next {
        Some(Seen::Fixed(terminal)) => type_word(terminal),
        _ => None,
    }
}

/// Whether a word is a type by itself.
fn is_type(terminal: Terminal) -> bool
    ensures { result ≡ is_some_type (table.type_word terminal) }
{
    match type_word(terminal) {
        Some(_) => true,
        None => false,
    }
}

/// Whether a type comes next.
pub fn begins_type(next: Option<Seen<'_>>) -> bool
    ensures { result ≡ type_begins (option_map plain_symbol next.entry) }
{
    match next {
        Some(Seen::Fixed(Terminal::Struct)) => true,
        Some(Seen::Fixed(terminal)) => is_type(terminal),
        _ => false,
    }
}

/// A type.
#[tactic(auto, unfolding(crate::specs::ReadDeclaration::type_name))]
fn type_name(alloc: Global, tokens: &mut Cursor<'_>) -> Result<TypeName, Stop>
    ensures { Reads (λ t. t) (read.type_name tokens.old) result tokens.new }
{
    match word_of(tokens.peek()) {
        Some(ty) => {
            tokens.take()?;
            Ok(ty)
        }
        None => {
            tokens.expect(Terminal::Struct)?;
            let name = tokens.name(alloc)?;
            Ok(TypeName::Struct(name))
        }
    }
}

/// A type with the number of its first token.
#[tactic(auto, unfolding(crate::specs::ReadDeclaration::typed))]
pub fn typed(alloc: Global, tokens: &mut Cursor<'_>) -> Result<(u32, TypeName), Stop>
    ensures { Reads (λ p. (p.0, p.1)) (read.typed tokens.old) result tokens.new }
{
    let number = tokens.here()?;
    let ty = type_name(alloc, tokens)?;
    Ok((number, ty))
}

/// A literal after a `-`.
fn negated(tokens: &mut Cursor<'_>) -> Result<Constant, Stop>
    ensures { Reads (λ c. c) (read.negated_by (outcome.first tokens.old) tokens.old) result
        tokens.new }
{
    match tokens.peek() {
        Some(Seen::Int(value)) => {
            let token = tokens.take()?;
            Ok(Constant::int(token, true, value))
        }
        Some(Seen::Float) => {
            let token = tokens.take()?;
            Ok(Constant::Float {
                token,
                negated: true,
            })
        }
        _ => Err(Stop::Syntax),
    }
}

/// A constant.
#[tactic(auto, unfolding(crate::specs::ReadDeclaration::constant_value))]
pub fn constant_value(alloc: Global, tokens: &mut Cursor<'_>) -> Result<Constant, Stop>
    ensures { Reads (λ c. c) (read.constant_value tokens.old) result tokens.new }
{
    match tokens.peek() {
        Some(Seen::Int(value)) => {
            let token = tokens.take()?;
            Ok(Constant::int(token, false, value))
        }
        Some(Seen::Float) => {
            let token = tokens.take()?;
            Ok(Constant::Float {
                token,
                negated: false,
            })
        }
        Some(Seen::Text(text)) => {
            let token = tokens.take()?;
            let value = literal(alloc, text)?;
            Ok(Constant::Text { token, value })
        }
        Some(Seen::Name(bytes)) => {
            let token = tokens.take()?;
            let name = name_text(alloc, bytes)?;
            Ok(Constant::Name { token, name })
        }
        Some(Seen::Fixed(Terminal::ObjectSelf)) => {
            let token = tokens.take()?;
            Ok(Constant::ObjectSelf { token })
        }
        Some(Seen::Fixed(Terminal::ObjectInvalid)) => {
            let token = tokens.take()?;
            Ok(Constant::ObjectInvalid { token })
        }
        Some(Seen::Fixed(Terminal::Minus)) => {
            tokens.take()?;
            negated(tokens)
        }
        _ => Err(Stop::Syntax),
    }
}

/// A name with its number.
#[tactic(auto, unfolding(crate::specs::ReadDeclaration::identifier))]
pub fn identifier(alloc: Global, tokens: &mut Cursor<'_>) -> Result<Identifier, Stop>
    ensures { Reads (λ n. n) (read.identifier tokens.old) result tokens.new }
{
    let token = tokens.here()?;
    let name = tokens.name(alloc)?;
    Ok(Identifier { token, name })
}

/// What a declared name declares: its first value follows a `=`.
#[tactic(auto, unfolding(crate::specs::ReadDeclaration::declared_after))]
pub fn declared_after(
    alloc: Global,
    tokens: &mut Cursor<'_>,
    depth: usize,
    of: Identifier,
) -> Result<DeclaredName, Stop>
    ensures { Reads plain_name (read.declared_after depth of tokens.old) result tokens.new }
{
    let Identifier { token, name } = of;
    if tokens.sees(Terminal::Assign) {
        tokens.take()?;
        let value = expression(alloc, tokens, depth)?;
        Ok(DeclaredName {
            token,
            name,
            value: Some(value),
        })
    } else {
        Ok(DeclaredName {
            token,
            name,
            value: None,
        })
    }
}

/// A declared name with its first value.
#[tactic(auto, unfolding(crate::specs::ReadDeclaration::declared))]
fn declared(alloc: Global, tokens: &mut Cursor<'_>, depth: usize) -> Result<DeclaredName, Stop>
    ensures { Reads plain_name (read.declared depth tokens.old) result tokens.new }
{
    let of = identifier(alloc, tokens)?;
    declared_after(alloc, tokens, depth, of)
}

/// The names that follow the first one, each after a comma.
pub fn more_declared(
    alloc: Global,
    tokens: &mut Cursor<'_>,
    depth: usize,
    first: DeclaredName,
) -> Result<Items<DeclaredName>, Stop>
    ensures { Reads plain_names (read.more_declared depth depth (plain_name first ∷ []) tokens.old)
        result tokens.new }
{
    let mut all = Items::new(alloc);
    push_name(&mut all, first)?;
    for _turn in 0..depth {
        if !tokens.sees(Terminal::Comma) {
            return Ok(all);
        }
        tokens.take()?;
        let next = declared(alloc, tokens, depth)?;
        push_name(&mut all, next)?;
    }
    Err(Stop::TooDeep)
}

/// One more name at the end.
fn push_name(all: &mut Items<DeclaredName>, next: DeclaredName) -> Result<(), NoMemory>
    ensures { IfOk result (λ _. plain_names all.new ≡ plain_names all.old ++ plain_name next ∷ []) }
{
    all.push(next)
}

/// Declared names with their first values, with commas between.
#[tactic(auto, unfolding(crate::specs::ReadDeclaration::declared_names))]
pub fn declared_names(
    alloc: Global,
    tokens: &mut Cursor<'_>,
    depth: usize,
) -> Result<Items<DeclaredName>, Stop>
    ensures { Reads plain_names (read.declared_names depth tokens.old) result tokens.new }
{
    let first = declared(alloc, tokens, depth)?;
    more_declared(alloc, tokens, depth, first)
}
