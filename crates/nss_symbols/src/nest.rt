ghost use Rattle.std.specs.Prelude.{◌≡◌, drop, ◌+◌, ◌<◌, ◌≤◌, ◌^◌, length, map, IfOk, OnOk};
ghost use Rattle.std.specs.Prelude.{[], ◌∷◌, ◌↔◌, IsTrue};
ghost use Rattle.nss_symbols.specs.Nest as nest;
ghost use Rattle.nss_symbols.specs.Nest.{IsNestAnswer, head_of, terminal_in, changed, closed};
ghost use Rattle.nss_symbols.specs.Nest.{do_counted, headed, opened, reset, start, total};
ghost use Rattle.nss_symbols.specs.Nest.{uncounted, IsWalkOver, StaysWithin};
ghost use Rattle.nss_symbols.specs.Cursor.{plain_symbol};

use crate::symbol::Seen;
use crate::terminal::Terminal;
use nwq_value::NoMemory;
use std::alloc::Global;
use std::marker::Model;

/// How deep tokens may nest.
pub const NEST: u32 = 256;

/// A number of the nest, and the count of open `do`s beside it.
#[derive(Clone, Copy)]
pub struct Level {
    /// what the level adds to the nest
    pub number: u32,
    /// how many `do`s are open there
    pub dos: u32,
}

/// The numbers that are carried over the tokens, the last one apart, and their sum.
#[derive(Drop)]
struct Nest {
    last: Level,
    below: Vec<Level>,
    sum: u32,
}

impl Model for Nest {
    ghost use Rattle.std.specs.Prelude.{◌≡◌};
    ghost use Rattle.nss_symbols.specs.Levels.{AreCounted, state_of};
    ghost use Rattle.nss_symbols.specs.Nest.{State, total};

    ghost Value = { State };

    ghost view = { λ n. state_of n.last n.below.items };

    ghost invariant = { λ n. (n.sum ≡ total (state_of n.last n.below.items))
        × AreCounted (state_of n.last n.below.items) };
}

fn is_opening(terminal: Terminal) -> bool
    ensures { result ≡ nest.is_opening terminal }
{
    match terminal {
        Terminal::Open | Terminal::OpenBrace | Terminal::OpenBracket => true,
        _ => false,
    }
}

fn is_closing(terminal: Terminal) -> bool
    ensures { result ≡ nest.is_closing terminal }
{
    match terminal {
        Terminal::Close | Terminal::CloseBrace | Terminal::CloseBracket => true,
        _ => false,
    }
}

fn is_end(terminal: Terminal) -> bool
    ensures { result ≡ nest.is_end terminal }
{
    match terminal {
        Terminal::CloseBrace | Terminal::Semicolon => true,
        _ => false,
    }
}

fn is_head(terminal: Terminal) -> bool
    ensures { result ≡ nest.is_head terminal }
{
    match terminal {
        Terminal::If
        | Terminal::Else
        | Terminal::While
        | Terminal::Do
        | Terminal::For
        | Terminal::Switch
        | Terminal::OrOr
        | Terminal::AndAnd
        | Terminal::Or
        | Terminal::Xor
        | Terminal::And
        | Terminal::Equal
        | Terminal::NotEqual
        | Terminal::GreaterEqual
        | Terminal::Greater
        | Terminal::Less
        | Terminal::LessEqual
        | Terminal::ShiftLeft
        | Terminal::ShiftRight
        | Terminal::ShiftRightUnsigned
        | Terminal::Plus
        | Terminal::Minus
        | Terminal::Star
        | Terminal::Slash
        | Terminal::Percent
        | Terminal::Not
        | Terminal::Tilde
        | Terminal::PlusPlus
        | Terminal::MinusMinus
        | Terminal::Dot
        | Terminal::Assign
        | Terminal::PlusAssign
        | Terminal::MinusAssign
        | Terminal::StarAssign
        | Terminal::SlashAssign
        | Terminal::PercentAssign
        | Terminal::AndAssign
        | Terminal::OrAssign
        | Terminal::XorAssign
        | Terminal::ShiftLeftAssign
        | Terminal::ShiftRightAssign
        | Terminal::ShiftRightUnsignedAssign => true,
        _ => false,
    }
}

fn is_do(terminal: Terminal) -> bool
    ensures { result ≡ nest.is_do terminal }
{
    match terminal {
        Terminal::Do => true,
        _ => false,
    }
}

fn is_while(terminal: Terminal) -> bool
    ensures { result ≡ nest.is_while terminal }
{
    match terminal {
        Terminal::While => true,
        _ => false,
    }
}

fn is_end_one(terminal: Option<Terminal>) -> bool
    ensures { result ≡ nest.is_some_and nest.is_end terminal }
{
    match terminal {
        Some(terminal) => is_end(terminal),
        None => false,
    }
}

fn is_else(terminal: Option<Terminal>) -> bool
    ensures { result ≡ nest.is_some_and nest.is_else terminal }
{
    match terminal {
        Some(Terminal::Else) => true,
        _ => false,
    }
}

fn is_while_one(terminal: Option<Terminal>) -> bool
    ensures { result ≡ nest.is_some_and nest.is_while terminal }
{
    match terminal {
        Some(terminal) => is_while(terminal),
        None => false,
    }
}

impl Nest {
    fn new(alloc: Global) -> Nest
        ensures { result ≡ start }
    {
        Nest {
            last: Level { number: 0, dos: 0 },
            below: Vec::new(alloc),
            sum: 0,
        }
    }

    fn copied(&self, alloc: Global) -> Result<Nest, NoMemory>
        ensures { IfOk result (λ nest. nest ≡ self.now) }
    {
        Ok(Nest {
            last: self.last,
            below: Vec::from_slice(alloc, self.below.as_slice())?,
            sum: self.sum,
        })
    }

    fn open(&mut self, terminal: Terminal) -> Result<(), NoMemory>
        requires { total self.old < 1000 }
        ensures state { OnOk result (self.new ≡ opened terminal self.old) }
        ensures sum { OnOk result (total self.new ≤ total self.old + 1) }
    {
        if is_opening(terminal) {
            self.below.push(self.last)?;
            self.last = Level { number: 1, dos: 0 };
            self.sum += 1;
        }
        Ok(())
    }

    fn close(&mut self, terminal: Terminal)
        ensures state { self.new ≡ closed terminal self.old }
        ensures sum { total self.new ≤ total self.old }
    {
        if is_closing(terminal) {
            match self.below.pop() {
                None => {}
                Some(level) => {
                    self.sum -= self.last.number;
                    self.last = level;
                }
            }
        }
    }

    fn head(&mut self, terminal: Terminal)
        requires { total self.old < 1000 }
        ensures state { self.new ≡ do_counted terminal (headed terminal self.old) }
        ensures sum { total self.new ≤ total self.old + 1 }
    {
        if is_head(terminal) {
            self.last.number += 1;
            self.sum += 1;
        }
        if is_do(terminal) {
            self.last.dos += 1;
        }
    }

    fn uncount(&mut self, before: Option<Terminal>, terminal: Terminal)
        ensures state { self.new ≡ uncounted before terminal self.old }
        ensures sum { total self.new ≡ total self.old }
    {
        if is_while(terminal) && is_end_one(before) {
            self.last.dos = self.last.dos.saturating_sub(1);
        }
    }

    fn reset(&mut self, terminal: Terminal, after: Option<Terminal>)
        requires { total self.old < 1000 }
        ensures { self.new ≡ reset terminal after self.old }
    {
        if is_end(terminal) && !is_else(after) && !(is_while_one(after) && self.last.dos != 0) {
            let number = if self.below.is_empty() { 0 } else { 1 };
            self.sum = self.sum - self.last.number + number;
            self.last = Level { number, dos: 0 };
        }
    }

    fn step(
        &mut self,
        before: Option<Terminal>,
        terminal: Option<Terminal>,
        after: Option<Terminal>,
    ) -> Result<(), NoMemory>
        requires { total self.old ≤ 256 }
        ensures { OnOk result (self.new ≡ changed before terminal after self.old) }
    {
        match terminal {
            None => {}
            Some(terminal) => {
                self.open(terminal)?;
                self.close(terminal);
                self.head(terminal);
                self.uncount(before, terminal);
                self.reset(terminal, after);
            }
        }
        Ok(())
    }

    /// The sum of the numbers.
    fn total(&self) -> u32
        ensures { result ≡ total self.now }
    {
        self.sum
    }
}

/// The terminal that a token is, if it is one.
fn terminal_in(symbol: &Seen<'_>) -> Option<Terminal>
    ensures { result ≡ terminal_in (plain_symbol symbol.now) }
{
    match symbol {
        Seen::Fixed(terminal) => Some(*terminal),
        _ => None,
    }
}

/// The same of the token at a place; none past the end.
#[tactic(auto, using(crate::proofs::NestLaws::head_at))]
fn terminal_at(symbols: &[Seen<'_>], at: usize) -> Option<Terminal>
    ensures { result ≡ head_of (drop at (map terminal_in (map plain_symbol symbols.now))) }
{
    match symbols.get(at) {
        None => None,
        Some(symbol) => terminal_in(symbol),
    }
}

/// The number of the first token whose nest passes the limit of 256, counted from 0.
pub fn first_over(alloc: Global, symbols: &[Seen<'_>]) -> Result<Option<u32>, NoMemory>
    requires count { length symbols.now < 2 ^ 32 }
    ensures first { IfOk result (IsNestAnswer (map plain_symbol symbols.now)) }
{
    let mut nest = Nest::new(alloc);
    let mut before = None;
    let mut terminal = terminal_at(symbols, 0);
    for i in 0..symbols.len() {
        let after = terminal_at(symbols, i + 1);
        nest.step(before, terminal, after)?;
        if nest.total() > NEST {
            return Ok(Some(i as u32));
        }
        before = terminal;
        terminal = after;
    }
    Ok(None)
}

/// A walk over tokens that is to go on: the last of them waits for the one after it.
#[derive(Drop)]
pub struct NestWalk {
    nest: Nest,
    before: Option<Terminal>,
    last: Option<Terminal>,
}

impl Model for NestWalk {
    ghost use Rattle.std.specs.Prelude.{◌≤◌};
    ghost use Rattle.nss_symbols.specs.Nest.{Walk, total};

    ghost Value = { Walk };

    ghost view = { λ w. record { state = w.nest; before = w.before; last = w.last } };

    ghost invariant = { λ w. total w.nest ≤ 256 };
}

impl NestWalk {
    /// Whether no token from the last one on nests too deep with this one behind it, at the end.
    #[tactic(auto)]
    pub fn stays_within(&self, alloc: Global, next: Seen<'_>) -> Result<bool, NoMemory>
        ensures { IfOk result (λ stays.
            (IsTrue stays) ↔ StaysWithin self.now (plain_symbol next.entry ∷ [])) }
    {
        let next = terminal_in(&next);
        let mut nest = self.nest.copied(alloc)?;
        nest.step(self.before, self.last, next)?;
        if nest.total() > NEST {
            return Ok(false);
        }
        nest.step(self.last, next, None)?;
        Ok(nest.total() <= NEST)
    }
}

/// The walk over tokens, or none where they nest too deep whatever follows.
pub fn nest_walk(alloc: Global, symbols: &[Seen<'_>]) -> Result<Option<NestWalk>, NoMemory>
    ensures { IfOk result (IsWalkOver (map plain_symbol symbols.now)) }
{
    let mut nest = Nest::new(alloc);
    let mut before = None;
    let mut last = None;
    for symbol in symbols {
        let next = terminal_in(symbol);
        nest.step(before, last, next)?;
        if nest.total() > NEST {
            return Ok(None);
        }
        before = last;
        last = next;
    }
    Ok(Some(NestWalk { nest, before, last }))
}
