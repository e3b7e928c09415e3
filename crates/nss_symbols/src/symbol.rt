ghost use Rattle.std.specs.Prelude.{◌≡◌, ◌<◌, ◌≤◌, All, length, map, take, IfOk};
ghost use Rattle.std.specs.List.{AllByRecursion};
ghost use Rattle.nwq_value.specs.Limits.{name_limit, text_limit};
ghost use Rattle.nss_lexer.specs.Lexemes.{IsToken};
ghost use Rattle.nss_lexer.specs.Strings.{IsString, string_value};
ghost use Rattle.nss_symbols.specs.Symbols as symbol;
ghost use Rattle.nss_symbols.specs.Symbols.{IsLiteral};
ghost use Rattle.nss_symbols.specs.Terminals as table;
ghost use Rattle.nss_symbols.specs.Tokens.{of_terminal, symbol_of, symbols_of};
ghost use Rattle.nss_symbols.specs.Cursor.{plain_symbol, IsSound, AreSound};

use crate::terminal::{Terminal, terminal_of};
use nss_lexer::laws::values_are_bytes;
use nss_lexer::{Token, TokenKind};
use nwq_value::{NoMemory, Text};
use std::alloc::Global;

/// What the grammar sees of a token.
#[derive(Clone, Copy)]
pub enum Seen<'a> {
    /// a name's bytes, 255 at most
    Name(&'a [u8]),
    /// an int literal's value
    Int(u32),
    /// a float literal, without its value
    Float,
    /// a string with its quotes
    Text(&'a [u8]),
    /// a terminal: a word, an operator or another sign
    Fixed(Terminal),
    /// what is spelled as no terminal
    Unknown,
}

/// A name's bytes as a text.
#[tactic(auto, using(crate::proofs::NameLemmas::take_name))]
pub fn name_text(alloc: Global, bytes: &[u8]) -> Result<Text, NoMemory>
    requires fits { length bytes.now ≤ name_limit }
    ensures text { IfOk result (λ text. text ≡ bytes.now) }
{
    Text::of(alloc, bytes)
}

/// A terminal by its bytes.
fn spelled<'a>(text: &[u8]) -> Seen<'a>
    ensures same { plain_symbol result ≡ of_terminal (table.terminal_of text.now) }
    ensures sound { IsSound result }
    ensures literal { IsLiteral (plain_symbol result) }
{
    match terminal_of(text) {
        Some(terminal) => Seen::Fixed(terminal),
        None => Seen::Unknown,
    }
}

/// That each of these is a byte.
fn are_bytes(bytes: &[u8])
    ensures { All (λ b. b < 256) bytes.now }
{
    let _ = bytes.len();
}

/// A string with its quotes.
fn string_seen<'a>(text: &'a [u8]) -> Seen<'a>
    requires { IsString text.now }
    ensures same { plain_symbol result
        ≡ symbol.Text (take text_limit (string_value text.now)) }
    ensures sound { IsSound result }
    ensures literal { IsLiteral (plain_symbol result) }
{
    are_bytes(text);
    values_are_bytes();
    Seen::Text(text)
}

/// What the grammar sees of one token.
pub fn seen_of<'a>(token: &Token<'a>) -> Seen<'a>
    requires { IsToken token.now }
    ensures same { plain_symbol result ≡ symbol_of token.now }
    ensures sound { IsSound result }
    ensures literal { IsLiteral (plain_symbol result) }
{
    match token.kind {
        TokenKind::Name => Seen::Name(token.text),
        TokenKind::Word | TokenKind::Sign => spelled(token.text),
        TokenKind::Int(value) => Seen::Int(value),
        TokenKind::Float => Seen::Float,
        TokenKind::Text => string_seen(token.text),
    }
}

/// What the grammar sees of a unit's tokens.
pub fn seen_all<'a>(alloc: Global, tokens: &[Token<'a>]) -> Result<Vec<Seen<'a>>, NoMemory>
    requires tokens { AllByRecursion IsToken tokens.now }
    ensures same { IfOk result (λ all. map plain_symbol all.items ≡ symbols_of tokens.now) }
    ensures sound { IfOk result (λ all. AreSound all.items) }
    ensures literals { IfOk result
        (λ all. AllByRecursion IsLiteral (map plain_symbol all.items)) }
{
    let mut all = Vec::new(alloc);
    for token in tokens {
        all.push(seen_of(token))?;
    }
    Ok(all)
}
