ghost use Rattle.std.specs.Prelude.{◌≡◌, ◌+◌, ◌^◌, ◌<◌, ◌≤◌, length, drop, map, IfSome};
ghost use Rattle.std.specs.Option.{option_map};
ghost use Rattle.nss_symbols.specs.Symbols.{numbered_from};
ghost use Rattle.nss_symbols.specs.Outcome as read;
ghost use Rattle.nss_symbols.specs.Cursor.{plain_symbol, IsSound, AreSound, Passes, Reads};

use crate::symbol::{Seen, name_text};
use crate::terminal::Terminal;
use nwq_value::{NoMemory, Text};
use std::alloc::Global;
use std::marker::Model;

/// The next token can't stand there, or there is none.
#[derive(Clone, Copy)]
pub struct Misfit;

/// Why reading stopped. At `Syntax` the cursor stands at the token that can't stand there.
#[derive(Clone, Copy)]
pub enum Stop {
    /// memory ran out
    NoMemory,
    /// the next token can't stand there, or there is none
    Syntax,
    /// the depth that the reader was given ran out
    TooDeep,
}

impl From<NoMemory> for Stop {
    ghost use Rattle.nss_symbols.specs.declared.cursor.Stop.TheVariants as stop;

    ghost from_gives = { λ _ e. e ≡ stop.NoMemory };

    fn from(_error: NoMemory) -> Stop {
        Stop::NoMemory
    }
}

impl From<Misfit> for Stop {
    ghost use Rattle.nss_symbols.specs.declared.cursor.Stop.TheVariants as stop;

    ghost from_gives = { λ _ e. e ≡ stop.Syntax };

    fn from(_misfit: Misfit) -> Stop {
        Stop::Syntax
    }
}

/// The tokens that are still to be read. Contracts see them as a list of tokens with their numbers.
#[derive(Drop)]
pub struct Cursor<'a> {
    ahead: &'a [Seen<'a>],
    number: u32,
}

impl<'a> Model for Cursor<'a> {
    ghost use Rattle.std.specs.Prelude.{List, ◌+◌, ◌^◌, ◌<◌, length, map};
    ghost use Rattle.nss_symbols.specs.Symbols.{Numbered, numbered_from};
    ghost use Rattle.nss_symbols.specs.Cursor.{plain_symbol, AreSound};

    ghost Value = { List Numbered };

    ghost view = { λ c. numbered_from c.number (map plain_symbol c.ahead.now) };

    ghost invariant = { λ c. (c.number + length c.ahead.now < 2 ^ 32) × AreSound c.ahead.now };
}

/// All but the first.
fn tail<'a>(symbols: &'a [Seen<'a>]) -> &'a [Seen<'a>]
    requires { 1 ≤ length symbols.now }
    ensures { result.now ≡ drop 1 symbols.now }
{
    &symbols[1..]
}

impl<'a> Cursor<'a> {
    /// All tokens, the first with the number 0.
    pub fn new(symbols: &'a [Seen<'a>]) -> Cursor<'a>
        requires count { length symbols.now < 2 ^ 32 }
        requires sound { AreSound symbols.now }
        ensures all { result ≡ numbered_from 0 (map plain_symbol symbols.now) }
    {
        Cursor {
            ahead: symbols,
            number: 0,
        }
    }

    /// Tokens the first of which has this number.
    pub fn numbered(symbols: &'a [Seen<'a>], number: u32) -> Cursor<'a>
        requires count { number + length symbols.now < 2 ^ 32 }
        requires sound { AreSound symbols.now }
        ensures all { result ≡ numbered_from number (map plain_symbol symbols.now) }
    {
        Cursor {
            ahead: symbols,
            number,
        }
    }

    /// How many tokens are left.
    pub fn left(&self) -> usize
        ensures count { result ≡ length self.now }
    {
        self.ahead.len()
    }

    /// The next token, which stays.
    pub fn peek(&self) -> Option<Seen<'a>>
        ensures same { option_map plain_symbol result ≡ read.first self.now }
        ensures sound { IfSome result IsSound }
    {
        match self.ahead {
            [] => None,
            [next, ..] => Some(*next),
        }
    }

    /// The number of the next token, which stays.
    pub fn here(&self) -> Result<u32, Misfit>
        ensures read { Passes (λ n. n) (read.here self.now) result self.now }
    {
        match self.ahead {
            [] => Err(Misfit),
            [_, ..] => Ok(self.number),
        }
    }

    /// Passes the next token, and gives its number.
    pub fn take(&mut self) -> Result<u32, Misfit>
        ensures read { Passes (λ n. n) (read.take self.old) result self.new }
    {
        match self.ahead {
            [] => Err(Misfit),
            [_, ..] => {
                let number = self.number;
                self.ahead = tail(self.ahead);
                self.number += 1;
                Ok(number)
            }
        }
    }

    /// Whether this terminal comes next.
    #[tactic(auto, unfolding(crate::specs::Outcome::same_terminal))]
    pub fn sees(&self, terminal: Terminal) -> bool
        ensures next { result ≡ read.sees terminal self.now }
    {
        match self.peek() {
            Some(Seen::Fixed(next)) => terminal == next,
            _ => false,
        }
    }

    /// Passes this terminal.
    pub fn expect(&mut self, terminal: Terminal) -> Result<u32, Misfit>
        ensures read { Passes (λ n. n) (read.expect terminal self.old) result self.new }
    {
        if self.sees(terminal) {
            self.take()
        } else {
            Err(Misfit)
        }
    }

    /// Passes a name.
    pub fn name(&mut self, alloc: Global) -> Result<Text, Stop>
        ensures read { Reads (λ bytes. bytes) (read.name self.old) result self.new }
    {
        match self.peek() {
            Some(Seen::Name(bytes)) => {
                self.take()?;
                Ok(name_text(alloc, bytes)?)
            }
            _ => Err(Stop::Syntax),
        }
    }
}
