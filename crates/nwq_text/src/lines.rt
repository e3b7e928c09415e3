//! A text, read line by line.

ghost use Rattle.std.specs.Prelude.{◌≡◌, ◌+◌, ◌≤◌, [], ◌∷◌, length, take, drop};
ghost use Rattle.std.specs.Prelude.{MatchOption, IfNone, IfSome};
ghost use Rattle.nwq_text.specs.Lines.{lines_of, without_return, IsFirstLine};

use crate::cuts::cut;
use std::marker::Model;

/// A line of a text.
#[derive(Clone, Copy)]
pub struct Line<'a> {
    /// Its bytes, without what ends it.
    pub bytes: &'a [u8],
    /// Where it begins in the text.
    pub place: usize,
    /// Its number, counted from 1.
    pub number: u64,
}

/// A text whose lines are read one after another.
#[derive(Drop)]
pub struct Lines<'a> {
    text: &'a [u8],
    rest: &'a [u8],
    read: u64,
}

impl<'a> Model for Lines<'a> {
    ghost use Rattle.std.specs.Prelude.{◌≡◌, ◌+◌, ◌-◌, ◌≤◌, length, drop};
    ghost use Rattle.nwq_text.specs.Lines.{lines_of, Reading};

    ghost Value = { Reading };

    ghost view = { λ l. record { text = l.text.now; read = l.read; left = lines_of l.rest.now } };

    ghost invariant = { λ l. (drop (length l.text.now - length l.rest.now) l.text.now ≡ l.rest.now)
        × (l.read + length l.rest.now ≤ length l.text.now) };
}

/// A line without the carriage return at its end.
#[tactic(auto, using(crate::proofs::LineLemmas::returned, crate::proofs::LineLemmas::unreturned, crate::proofs::LineLemmas::empty_line))]
fn trimmed(line: &[u8]) -> &[u8]
    ensures line { result.now ≡ without_return line.now }
{
    match line.split_last() {
        None => line,
        Some((last, before)) => { if *last == b'\r' { before } else { line } }
    }
}

/// The first line of a text, and what follows it.
fn first_line(text: &[u8]) -> Option<(&[u8], &[u8])>
    ensures first { MatchOption result (text.now ≡ [])
        (λ p. IsFirstLine text.now p.0.now p.1.now) }
{
    if text.is_empty() {
        return None;
    }
    match cut(text, b'\n') {
        None => Some((text, &text[text.len()..])),
        Some((line, rest)) => Some((trimmed(line), rest)),
    }
}

impl<'a> Lines<'a> {
    /// A text of which no line was read yet.
    pub fn of(text: &'a [u8]) -> Lines<'a>
        ensures all { result ≡ record { text = text.now; read = 0; left = lines_of text.now } }
        ensures few { length result.left ≤ length text.now }
    {
        Lines {
            text,
            rest: text,
            read: 0,
        }
    }

    /// Reads the next line, and answers `None` where there is none.
    pub fn next_line(&mut self) -> Option<Line<'a>>
        ensures none { IfNone result (self.old.left ≡ []) }
        ensures unchanged { IfNone result (self.new ≡ self.old) }
        ensures first { IfSome result (λ line. self.old.left ≡ line.bytes.now ∷ self.new.left) }
        ensures number { IfSome result (λ line. line.number ≡ self.old.read + 1) }
        ensures read { IfSome result (λ line. self.new.read ≡ line.number) }
        ensures text { self.new.text ≡ self.old.text }
        ensures inside { IfSome result (λ line.
            line.place + length line.bytes.now ≤ length self.old.text) }
        ensures place { IfSome result (λ line.
            take (length line.bytes.now) (drop line.place self.old.text) ≡ line.bytes.now) }
    {
        let (bytes, rest) = first_line(self.rest)?;
        let place = self.text.len() - self.rest.len();
        let number = self.read + 1;
        self.rest = rest;
        self.read = number;
        Some(Line {
            bytes,
            place,
            number,
        })
    }
}
