ghost use Rattle.std.specs.Prelude.{◌≡◌, ◌<◌, ◌≤◌, All, length, IfOk};
ghost use Rattle.nss_lexer.specs.Lexemes.{IsToken};
ghost use Rattle.nss_lexer.specs.Splitting.{plain};
ghost use Rattle.nwq_value.specs.Limits.{name_limit};
ghost use Rattle.engine_table.specs.Symbols as spec;
ghost use Rattle.engine_table.specs.declared.symbol.Symbol.TheVariants as symbol;

use nss_lexer::{Token, TokenKind, literal};
use nwq_value::{NoMemory, Text};
use std::alloc::Global;

/// A word of the language. The types whose values are left out are one.
#[derive(Clone, Copy)]
pub enum Word {
    Void,
    Int,
    String,
    Object,
    Effect,
    Action,
    Event,
    OtherType,
    Const,
    ObjectSelf,
    ObjectInvalid,
    Other,
}

/// A sign of the language, as a header tells signs apart.
#[derive(Clone, Copy)]
pub enum Sign {
    Hash,
    Open,
    Close,
    /// `[` or `{`
    Opening,
    /// `]` or `}`
    Closing,
    Comma,
    Semicolon,
    Equals,
    Minus,
    Other,
}

/// A token as the grammar of a header sees it; a string is seen as the bytes that it stands for.
#[derive(Drop)]
pub enum Symbol {
    Name(Text),
    Int(u32),
    Text(Text),
    Word(Word),
    Sign(Sign),
    Float,
}

/// Whether the word is a type whose values are left out.
fn is_other_type(text: &[u8]) -> bool
    ensures { result ≡ spec.is_other_type text.now }
{
    text == b"float".as_slice()
        || text == b"vector".as_slice()
        || text == b"location".as_slice()
        || text == b"talent".as_slice()
        || text == b"itemproperty".as_slice()
}

/// The word that is no type.
fn plain_word(text: &[u8]) -> Word
    ensures { result ≡ spec.plain_word text.now }
{
    if text == b"const".as_slice() {
        Word::Const
    } else if text == b"OBJECT_SELF".as_slice() {
        Word::ObjectSelf
    } else if text == b"OBJECT_INVALID".as_slice() {
        Word::ObjectInvalid
    } else {
        Word::Other
    }
}

/// The word that is none of the types of the first rows.
fn later_word(text: &[u8]) -> Word
    ensures { result ≡ spec.later_word text.now }
{
    if text == b"action".as_slice() {
        Word::Action
    } else if text == b"event".as_slice() {
        Word::Event
    } else if is_other_type(text) {
        Word::OtherType
    } else {
        plain_word(text)
    }
}

/// The word that is spelled so.
fn word_of(text: &[u8]) -> Word
    ensures { result ≡ spec.word_of text.now }
{
    if text == b"void".as_slice() {
        Word::Void
    } else if text == b"int".as_slice() {
        Word::Int
    } else if text == b"string".as_slice() {
        Word::String
    } else if text == b"object".as_slice() {
        Word::Object
    } else if text == b"effect".as_slice() {
        Word::Effect
    } else {
        later_word(text)
    }
}

/// The sign of one byte.
fn sign_byte(byte: u8) -> Sign
    ensures { result ≡ spec.sign_byte byte }
{
    match byte {
        b'#' => Sign::Hash,
        b'(' => Sign::Open,
        b')' => Sign::Close,
        b'[' => Sign::Opening,
        b'{' => Sign::Opening,
        b']' => Sign::Closing,
        b'}' => Sign::Closing,
        b',' => Sign::Comma,
        b';' => Sign::Semicolon,
        b'=' => Sign::Equals,
        b'-' => Sign::Minus,
        _ => Sign::Other,
    }
}

/// The sign that is spelled so.
fn sign_of(text: &[u8]) -> Sign
    ensures { result ≡ spec.sign_of text.now }
{
    match text {
        [byte] => sign_byte(*byte),
        _ => Sign::Other,
    }
}

/// A name's bytes as a text.
#[tactic(auto, using(crate::proofs::SymbolLemmas::take_name))]
fn name_text(alloc: Global, bytes: &[u8]) -> Result<Text, NoMemory>
    requires { length bytes.now ≤ name_limit }
    ensures { IfOk result (λ text. text ≡ bytes.now) }
{
    Text::of(alloc, bytes)
}

/// That each of these is a byte.
fn are_bytes(bytes: &[u8])
    ensures { All (λ b. b < 256) bytes.now }
{
    let _ = bytes.len();
}

/// A string of these bytes.
fn text_symbol(text: Text) -> Symbol
    ensures same { result ≡ symbol.Text text }
    ensures bounds { spec.IsSymbol result }
{
    are_bytes(text.bytes());
    Symbol::Text(text)
}

/// What the grammar sees of a token.
pub(crate) fn symbol_of(alloc: Global, token: &Token<'_>) -> Result<Symbol, NoMemory>
    requires { IsToken token.now }
    ensures same { IfOk result (λ symbol. symbol ≡ spec.symbol_of (plain token.now)) }
    ensures bounds { IfOk result spec.IsSymbol }
{
    match token.kind {
        TokenKind::Name => Ok(Symbol::Name(name_text(alloc, token.text)?)),
        TokenKind::Word => Ok(Symbol::Word(word_of(token.text))),
        TokenKind::Int(value) => Ok(Symbol::Int(value)),
        TokenKind::Float => Ok(Symbol::Float),
        TokenKind::Text => Ok(text_symbol(literal(alloc, token.text)?)),
        TokenKind::Sign => Ok(Symbol::Sign(sign_of(token.text))),
    }
}
