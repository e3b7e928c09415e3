//! The tokens that can stand at a place of a unit.

ghost use Rattle.std.specs.Prelude.{◌≡◌, ◌+◌, ◌≤◌, ◌++◌, length, map, take};
ghost use Rattle.std.specs.Prelude.{IfNone, IfOk, IfSome, IsTrue, OnOk};
ghost use Rattle.std.specs.List.{AllByRecursion};
ghost use Rattle.nwq_value.specs.Limits.{token_limit};
ghost use Rattle.nss_lexer.specs.Lexemes.{IsToken};
ghost use Rattle.nss_symbols.specs.declared.terminal.Terminal.TheVariants as terminal;
ghost use Rattle.nss_symbols.specs.Cursor.{plain_symbol, AreSound};
ghost use Rattle.nss_symbols.specs.Outcome.{sees};
ghost use Rattle.nss_symbols.specs.Symbols.{numbered_from};
ghost use Rattle.nss_symbols.specs.Tokens.{symbol_of, symbols_of};
ghost use Rattle.nss_parser.specs.Front.{IsOpenBody};
ghost use Rattle.nss_parser.specs.Sentence.{IsPlace};
ghost use Rattle.message_tokens.specs.Behind.{opening, AddsBehind, IsCut, ListsAfter};
ghost use Rattle.message_tokens.specs.Behind.{ListsBehind, TellsFollowing};
ghost use Rattle.message_tokens.specs.Following.{HasNoPlace, Lists};
ghost use Rattle.message_tokens.specs.Kinds.{seen, HasEachKind};
ghost use Rattle.message_tokens.specs.Tries.{spelled};

use nss_lexer::{Token, TokenKind};
use nss_parser::laws::open_bodies_alike;
use nss_parser::{ParseFault, is_prefix, parse, whole_items};
use nss_symbols::{Cursor, NestWalk, Seen, Terminal, nest_walk, seen_all, seen_of};
use nwq_value::NoMemory;
use std::alloc::Global;

/// A kind of token, and a text of it.
#[derive(Clone, Copy)]
pub(crate) struct Tried {
    kind: TokenKind,
    text: &'static [u8],
}

/// The fewest tokens that are cut off: an item of three, and `void a() {`.
const LEAST_CUT: usize = 8;

/// What is tried at a place: each kind of token of a unit once, what is told first at the front,
/// and what the profile leaves out at the end.
const TRIED: [Tried; 74] = [
    Tried {
        kind: TokenKind::Sign,
        text: b";",
    },
    Tried {
        kind: TokenKind::Sign,
        text: b")",
    },
    Tried {
        kind: TokenKind::Name,
        text: b"a",
    },
    Tried {
        kind: TokenKind::Int(1),
        text: b"1",
    },
    Tried {
        kind: TokenKind::Text,
        text: b"\"\"",
    },
    Tried {
        kind: TokenKind::Sign,
        text: b"(",
    },
    Tried {
        kind: TokenKind::Sign,
        text: b",",
    },
    Tried {
        kind: TokenKind::Sign,
        text: b"{",
    },
    Tried {
        kind: TokenKind::Sign,
        text: b"}",
    },
    Tried {
        kind: TokenKind::Sign,
        text: b"=",
    },
    Tried {
        kind: TokenKind::Word,
        text: b"OBJECT_SELF",
    },
    Tried {
        kind: TokenKind::Word,
        text: b"OBJECT_INVALID",
    },
    Tried {
        kind: TokenKind::Word,
        text: b"int",
    },
    Tried {
        kind: TokenKind::Word,
        text: b"string",
    },
    Tried {
        kind: TokenKind::Word,
        text: b"object",
    },
    Tried {
        kind: TokenKind::Word,
        text: b"void",
    },
    Tried {
        kind: TokenKind::Word,
        text: b"struct",
    },
    Tried {
        kind: TokenKind::Word,
        text: b"if",
    },
    Tried {
        kind: TokenKind::Word,
        text: b"while",
    },
    Tried {
        kind: TokenKind::Word,
        text: b"for",
    },
    Tried {
        kind: TokenKind::Word,
        text: b"do",
    },
    Tried {
        kind: TokenKind::Word,
        text: b"switch",
    },
    Tried {
        kind: TokenKind::Word,
        text: b"return",
    },
    Tried {
        kind: TokenKind::Word,
        text: b"else",
    },
    Tried {
        kind: TokenKind::Word,
        text: b"case",
    },
    Tried {
        kind: TokenKind::Word,
        text: b"default",
    },
    Tried {
        kind: TokenKind::Word,
        text: b"break",
    },
    Tried {
        kind: TokenKind::Word,
        text: b"continue",
    },
    Tried {
        kind: TokenKind::Word,
        text: b"const",
    },
    Tried {
        kind: TokenKind::Word,
        text: b"effect",
    },
    Tried {
        kind: TokenKind::Word,
        text: b"event",
    },
    Tried {
        kind: TokenKind::Sign,
        text: b":",
    },
    Tried {
        kind: TokenKind::Sign,
        text: b".",
    },
    Tried {
        kind: TokenKind::Sign,
        text: b"+",
    },
    Tried {
        kind: TokenKind::Sign,
        text: b"-",
    },
    Tried {
        kind: TokenKind::Sign,
        text: b"*",
    },
    Tried {
        kind: TokenKind::Sign,
        text: b"/",
    },
    Tried {
        kind: TokenKind::Sign,
        text: b"%",
    },
    Tried {
        kind: TokenKind::Sign,
        text: b"==",
    },
    Tried {
        kind: TokenKind::Sign,
        text: b"!=",
    },
    Tried {
        kind: TokenKind::Sign,
        text: b"<",
    },
    Tried {
        kind: TokenKind::Sign,
        text: b">",
    },
    Tried {
        kind: TokenKind::Sign,
        text: b"<=",
    },
    Tried {
        kind: TokenKind::Sign,
        text: b">=",
    },
    Tried {
        kind: TokenKind::Sign,
        text: b"&&",
    },
    Tried {
        kind: TokenKind::Sign,
        text: b"||",
    },
    Tried {
        kind: TokenKind::Sign,
        text: b"!",
    },
    Tried {
        kind: TokenKind::Sign,
        text: b"~",
    },
    Tried {
        kind: TokenKind::Sign,
        text: b"++",
    },
    Tried {
        kind: TokenKind::Sign,
        text: b"--",
    },
    Tried {
        kind: TokenKind::Sign,
        text: b"+=",
    },
    Tried {
        kind: TokenKind::Sign,
        text: b"-=",
    },
    Tried {
        kind: TokenKind::Sign,
        text: b"*=",
    },
    Tried {
        kind: TokenKind::Sign,
        text: b"/=",
    },
    Tried {
        kind: TokenKind::Sign,
        text: b"%=",
    },
    Tried {
        kind: TokenKind::Sign,
        text: b"&=",
    },
    Tried {
        kind: TokenKind::Sign,
        text: b"|=",
    },
    Tried {
        kind: TokenKind::Sign,
        text: b"^=",
    },
    Tried {
        kind: TokenKind::Sign,
        text: b"<<=",
    },
    Tried {
        kind: TokenKind::Sign,
        text: b">>=",
    },
    Tried {
        kind: TokenKind::Sign,
        text: b">>>=",
    },
    Tried {
        kind: TokenKind::Sign,
        text: b"&",
    },
    Tried {
        kind: TokenKind::Sign,
        text: b"|",
    },
    Tried {
        kind: TokenKind::Sign,
        text: b"^",
    },
    Tried {
        kind: TokenKind::Sign,
        text: b"<<",
    },
    Tried {
        kind: TokenKind::Sign,
        text: b">>",
    },
    Tried {
        kind: TokenKind::Sign,
        text: b">>>",
    },
    Tried {
        kind: TokenKind::Word,
        text: b"float",
    },
    Tried {
        kind: TokenKind::Float,
        text: b"1.0",
    },
    Tried {
        kind: TokenKind::Word,
        text: b"vector",
    },
    Tried {
        kind: TokenKind::Word,
        text: b"location",
    },
    Tried {
        kind: TokenKind::Word,
        text: b"talent",
    },
    Tried {
        kind: TokenKind::Word,
        text: b"itemproperty",
    },
    Tried {
        kind: TokenKind::Word,
        text: b"action",
    },
];

/// These tokens, which stand in no file.
#[tactic(auto, using(crate::proofs::KindLemmas::seen_push, crate::proofs::KindLemmas::seen_whole))]
fn tokens_tried(alloc: Global, tried: &[Tried]) -> Result<Vec<Token<'static>>, NoMemory>
    ensures { IfOk result (λ all. map seen all.items ≡ map spelled tried.now) }
{
    let mut all = Vec::new(alloc);
    for one in tried {
        let token = Token {
            kind: one.kind,
            text: one.text,
            file: 0,
            start: 0,
            end: 0,
        };
        all.push(token)?;
    }
    Ok(all)
}

/// The tokens that are tried at a place.
#[tactic(auto, using(crate::proofs::KindLemmas::are_tokens, crate::proofs::KindLemmas::each_kind))]
pub fn candidates(alloc: Global) -> Result<Vec<Token<'static>>, NoMemory>
    ensures tokens { IfOk result (λ all. AllByRecursion IsToken all.items) }
    ensures each { IfOk result (λ all. HasEachKind all.items) }
{
    tokens_tried(alloc, &TRIED)
}

/// Whether a token can follow others. Of these, the walk over their nest and those behind whole
/// items are looked at alone.
fn can_follow<'a>(
    alloc: Global,
    walk: &NestWalk,
    count: u32,
    rest: &[Seen<'a>],
    token: &Token<'a>,
) -> Result<bool, NoMemory>
    requires few { count + length rest.now ≤ token_limit }
    requires sound { AreSound rest.now }
    requires token { IsToken token.now }
    ensures { IfOk result
        (TellsFollowing walk.now count (map plain_symbol rest.now) (symbol_of token.now)) }
{
    let symbol = seen_of(token);
    if !walk.stays_within(alloc, symbol)? {
        return Ok(false);
    }
    let mut all = Vec::from_slice(alloc, rest)?;
    all.push(symbol)?;
    is_prefix(alloc, count, all.as_slice())
}

/// Puts a token last where it can follow others.
fn put_able<'a>(
    alloc: Global,
    walk: &NestWalk,
    count: u32,
    rest: &[Seen<'a>],
    token: &Token<'a>,
    listed: &mut Vec<Token<'a>>,
) -> Result<(), NoMemory>
    requires few { count + length rest.now ≤ token_limit }
    requires sound { AreSound rest.now }
    requires token { IsToken token.now }
    ensures { OnOk result
        (AddsBehind walk.now count (map plain_symbol rest.now) token.now listed.old.items
        listed.new.items) }
{
    if !can_follow(alloc, walk, count, rest, token)? {
        return Ok(());
    }
    listed.push(*token)?;
    Ok(())
}

/// Those of some tokens that can follow others.
fn able_behind<'a>(
    alloc: Global,
    walk: &NestWalk,
    count: u32,
    rest: &[Seen<'a>],
    tried: &[Token<'a>],
) -> Result<Vec<Token<'a>>, NoMemory>
    requires few { count + length rest.now ≤ token_limit }
    requires sound { AreSound rest.now }
    requires tried { AllByRecursion IsToken tried.now }
    ensures lists { IfOk result (λ listed.
        ListsBehind walk.now count (map plain_symbol rest.now) tried.now listed.items) }
{
    let mut listed = Vec::new(alloc);
    for token in tried {
        put_able(alloc, walk, count, rest, token, &mut listed)?;
    }
    Ok(listed)
}

/// Whether tokens end in the body of a function, behind whole entries.
fn is_open_body(alloc: Global, symbols: &[Seen<'_>]) -> Result<bool, NoMemory>
    requires few { length symbols.now ≤ token_limit }
    requires sound { AreSound symbols.now }
    ensures { IfOk result (λ is. IsTrue is → IsOpenBody (map plain_symbol symbols.now)) }
{
    let mut all = Vec::from_slice(alloc, symbols)?;
    all.push(Seen::Fixed(Terminal::CloseBrace))?;
    let count = whole_items(alloc, all.as_slice())?;
    Ok(count == all.len())
}

/// Whether an `else` comes next.
fn sees_else(symbols: &[Seen<'_>]) -> bool
    requires few { length symbols.now ≤ token_limit }
    requires sound { AreSound symbols.now }
    ensures { result ≡ sees terminal.Else (numbered_from 0 (map plain_symbol symbols.now)) }
{
    Cursor::new(symbols).sees(Terminal::Else)
}

/// Whether so many tokens end in the body of a function, behind an entry that is whole.
fn is_cut(alloc: Global, symbols: &[Seen<'_>], cut: usize) -> Result<bool, NoMemory>
    requires few { length symbols.now ≤ token_limit }
    requires sound { AreSound symbols.now }
    ensures { IfOk result (λ is. IsTrue is → IsCut cut (map plain_symbol symbols.now)) }
{
    if cut < LEAST_CUT || cut >= symbols.len() || sees_else(&symbols[cut..]) {
        return Ok(false);
    }
    is_open_body(alloc, &symbols[..cut])
}

/// How many brackets are open behind a token.
fn depth_behind(depth: usize, symbol: &Seen<'_>) -> usize {
    match symbol {
        Seen::Fixed(Terminal::Open | Terminal::OpenBrace) => depth.saturating_add(1),
        Seen::Fixed(Terminal::Close | Terminal::CloseBrace) => depth.saturating_sub(1),
        _ => depth,
    }
}

/// Whether an entry may end at the first of two tokens.
fn may_end(symbol: &Seen<'_>, next: Option<&Seen<'_>>) -> bool {
    matches!(
        symbol,
        Seen::Fixed(Terminal::Semicolon | Terminal::CloseBrace)
    ) && !matches!(next, Some(Seen::Fixed(Terminal::Else | Terminal::While)))
}

/// How many tokens stand before the last entry of the body that is open at the end, or 0.
fn last_entry(symbols: &[Seen<'_>]) -> usize {
    let mut depth = 0;
    let mut cut = 0;
    for i in 0..symbols.len() {
        depth = depth_behind(depth, &symbols[i]);
        if depth == 0 {
            cut = 0;
        } else if depth == 1 && may_end(&symbols[i], symbols.get(i + 1)) {
            cut = i + 1;
        }
    }
    cut
}

/// Tokens behind the beginning of a body.
fn in_body<'a>(alloc: Global, rest: &[Seen<'a>]) -> Result<Vec<Seen<'a>>, NoMemory>
    requires sound { AreSound rest.now }
    ensures same { IfOk result
        (λ all. map plain_symbol all.items ≡ opening ++ map plain_symbol rest.now) }
    ensures many { IfOk result (λ all. length all.items ≡ 5 + length rest.now) }
    ensures sound { IfOk result (λ all. AreSound all.items) }
{
    let mut all = Vec::new(alloc);
    all.push(Seen::Fixed(Terminal::Void))?;
    all.push(Seen::Name(b"a"))?;
    all.push(Seen::Fixed(Terminal::Open))?;
    all.push(Seen::Fixed(Terminal::Close))?;
    all.push(Seen::Fixed(Terminal::OpenBrace))?;
    all.extend_from_slice(rest)?;
    Ok(all)
}

/// Those of some tokens that can follow others in a body, of which the entries before the last one
/// aren't read again.
fn able_in_body<'a>(
    alloc: Global,
    walk: &NestWalk,
    symbols: &[Seen<'a>],
    cut: usize,
    tried: &[Token<'a>],
) -> Result<Vec<Token<'a>>, NoMemory>
    requires few { length symbols.now ≤ token_limit }
    requires sound { AreSound symbols.now }
    requires cut { IsCut cut (map plain_symbol symbols.now) }
    requires tried { AllByRecursion IsToken tried.now }
    ensures lists { IfOk result (λ listed.
        ListsAfter walk.now (map plain_symbol symbols.now) tried.now listed.items) }
{
    open_bodies_alike();
    let rest = in_body(alloc, &symbols[cut..])?;
    able_behind(alloc, walk, (cut - 5) as u32, rest.as_slice(), tried)
}

/// Those of some tokens that can follow others, of which whole items are read once.
fn able_in_unit<'a>(
    alloc: Global,
    walk: &NestWalk,
    symbols: &[Seen<'a>],
    tried: &[Token<'a>],
) -> Result<Vec<Token<'a>>, NoMemory>
    requires few { length symbols.now ≤ token_limit }
    requires sound { AreSound symbols.now }
    requires tried { AllByRecursion IsToken tried.now }
    ensures lists { IfOk result (λ listed.
        ListsAfter walk.now (map plain_symbol symbols.now) tried.now listed.items) }
{
    let count = whole_items(alloc, symbols)?;
    able_behind(alloc, walk, count as u32, &symbols[count..], tried)
}

/// Those of some tokens that can follow others.
fn able_after<'a>(
    alloc: Global,
    walk: &NestWalk,
    symbols: &[Seen<'a>],
    tried: &[Token<'a>],
) -> Result<Vec<Token<'a>>, NoMemory>
    requires few { length symbols.now ≤ token_limit }
    requires sound { AreSound symbols.now }
    requires tried { AllByRecursion IsToken tried.now }
    ensures lists { IfOk result (λ listed.
        ListsAfter walk.now (map plain_symbol symbols.now) tried.now listed.items) }
{
    let cut = last_entry(symbols);
    if is_cut(alloc, symbols, cut)? {
        able_in_body(alloc, walk, symbols, cut, tried)
    } else {
        able_in_unit(alloc, walk, symbols, tried)
    }
}

/// Those of some tokens that can stand at this place of a unit: with which the tokens before it can
/// be completed. Items that stand whole before the place are read once, and so are the entries of a
/// body before its last one, not for each of the tokens.
#[tactic(auto, using(crate::proofs::GoingOn::all_taken))]
pub fn following<'a>(
    alloc: Global,
    tokens: &[Token<'a>],
    at: usize,
    tried: &[Token<'a>],
) -> Result<Vec<Token<'a>>, NoMemory>
    requires few { length tokens.now ≤ token_limit }
    requires tokens { AllByRecursion IsToken tokens.now }
    requires place { at ≤ length tokens.now }
    requires tried { AllByRecursion IsToken tried.now }
    ensures lists { IfOk result (λ listed. Lists (take at tokens.now) tried.now listed.items) }
{
    let symbols = seen_all(alloc, &tokens[..at])?;
    match nest_walk(alloc, symbols.as_slice())? {
        None => Ok(Vec::new(alloc)),
        Some(walk) => able_after(alloc, &walk, symbols.as_slice(), tried),
    }
}

/// The place at which the grammar refuses the tokens of a unit. There is none where they have a
/// tree, or nest too deep.
#[tactic(auto, using(crate::proofs::GoingOn::place_within, crate::proofs::GoingOn::deep_no_place))]
pub fn syntax_fault(alloc: Global, tokens: &[Token<'_>]) -> Result<Option<usize>, NoMemory>
    requires few { length tokens.now ≤ token_limit }
    requires tokens { AllByRecursion IsToken tokens.now }
    ensures place { IfOk result (λ fault. IfSome fault (IsPlace (symbols_of tokens.now))) }
    ensures within { IfOk result (λ fault. IfSome fault (λ i. i ≤ length tokens.now)) }
    ensures none { IfOk result (λ fault. IfNone fault (HasNoPlace (symbols_of tokens.now))) }
{
    match parse(alloc, tokens) {
        Ok(tree) => {
            drop(tree);
            Ok(None)
        }
        Err(ParseFault::Syntax(at)) => Ok(Some(at as usize)),
        Err(ParseFault::Nested(_)) => Ok(None),
        Err(ParseFault::NoMemory) => Err(NoMemory),
    }
}
