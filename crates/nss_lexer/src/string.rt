ghost use Rattle.std.specs.Prelude.{◌≡◌, ◌<◌, ◌≤◌, ◌^◌, length, IfSome};
ghost use Rattle.nss_lexer.specs.Reading.{FitsByte, Keeps, step, closing};
ghost use Rattle.nss_lexer.specs.declared.string.Escape.TheVariants.{Outside};

use crate::bytes::{Class, digit_value, is_in};

/// How far into an escape the bytes before have led.
#[derive(Clone, Copy)]
pub enum Escape {
    Outside,
    AfterBackslash,
    AfterX,
    AfterDigit(u8),
}

/// What one more byte of a string does.
#[derive(Clone, Copy)]
pub enum Step {
    Gives(u8),
    Leads(Escape),
    Closes,
    Fails,
}

/// What one more byte of a string does.
pub fn step_by(state: Escape, b: u8) -> Step
    requires { FitsByte state }
    ensures value { result ≡ step state b }
    ensures keeps { Keeps result }
{
    match state {
        Escape::Outside => match b {
            b'\n' => Step::Fails,
            b'"' => Step::Closes,
            b'\\' => Step::Leads(Escape::AfterBackslash),
            _ => Step::Gives(b),
        },
        Escape::AfterBackslash => match b {
            b'\n' => Step::Fails, // a line end is no escape
            b'x' => Step::Leads(Escape::AfterX),
            b'n' => Step::Gives(b'\n'),
            _ => Step::Gives(b),
        },
        Escape::AfterX => {
            if is_in(Class::Hexadecimal, b) {
                Step::Leads(Escape::AfterDigit(digit_value(b)))
            } else {
                Step::Fails
            }
        }
        Escape::AfterDigit(high) => {
            if is_in(Class::Hexadecimal, b) {
                Step::Gives(16 * high + digit_value(b))
            } else {
                Step::Fails
            }
        }
    }
}

/// How many bytes come up to and with the closing quote, in the rest of a string.
pub fn closing_quote(text: &[u8]) -> Option<usize>
    requires { length text.now < 2 ^ 63 }
    ensures value { result ≡ closing Outside text.now }
    ensures within { IfSome result (λ n. n ≤ length text.now) }
{
    let mut state = Escape::Outside;
    for (n, b) in text.iter().enumerate() {
        match step_by(state, *b) {
            Step::Gives(_) => state = Escape::Outside,
            Step::Leads(next) => state = next,
            Step::Closes => return Some(n + 1),
            Step::Fails => return None,
        }
    }
    None
}
