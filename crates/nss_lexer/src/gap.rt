ghost use Rattle.std.specs.Prelude.{◌≡◌, ◌≤◌, ◌<◌, ◌^◌, length, drop, IfSome, None};
ghost use Rattle.nss_lexer.specs.Splitting as splitting;
ghost use Rattle.nss_lexer.specs.Reading as reading;

use crate::bytes::{Class, byte, is_blank, run, tail};

/// How many bytes come up to and with the next `*/`.
fn closing_comment(text: &[u8]) -> Option<usize>
    requires { length text.now < 2 ^ 32 }
    ensures value { result ≡ reading.closing_comment text.now }
    ensures within { IfSome result (λ n. n ≤ length text.now) }
{
    for (at, b) in text.iter().enumerate() {
        if *b == b'*' && byte(text, at + 1) == b'/' {
            return Some(at + 2);
        }
    }
    None
}

/// Whether a comment begins the bytes, closed or not.
pub fn begins_comment(bytes: &[u8]) -> bool
    ensures { result ≡ splitting.begins_comment bytes.now }
{
    match bytes {
        [b'/', b'/' | b'*', ..] => true,
        _ => false,
    }
}

/// The length of the closed comment that begins the bytes.
fn comment(bytes: &[u8]) -> Option<usize>
    requires { length bytes.now < 2 ^ 32 }
    ensures value { result ≡ reading.comment bytes.now }
    ensures within { IfSome result (λ n. (0 < n) × (n ≤ length bytes.now)) }
{
    match bytes {
        [b'/', b'/', text @ ..] => Some(run(Class::Line, text) + 2),
        [b'/', b'*', text @ ..] => match closing_comment(text) {
            None => None,
            Some(n) => Some(n + 2),
        },
        _ => None,
    }
}

/// The length of the blank or the closed comment that begins the bytes.
#[tactic(auto, unfolding(crate::specs::Reading::pass))]
fn pass(bytes: &[u8]) -> Option<usize>
    requires { length bytes.now < 2 ^ 32 }
    ensures value { result ≡ reading.pass bytes.now }
    ensures within { IfSome result (λ n. (0 < n) × (n ≤ length bytes.now)) }
{
    match bytes {
        [] => None,
        [b, ..] => {
            if is_blank(*b) {
                Some(1)
            } else {
                comment(bytes)
            }
        }
    }
}

/// The first place from `at` on where no blank or closed comment begins.
pub fn past_gap(bytes: &[u8], at: usize) -> usize
    requires place { at ≤ length bytes.now }
    requires size { length bytes.now < 2 ^ 32 }
    ensures gap { splitting.Gap (drop at bytes.now) (drop result bytes.now) }
    ensures stops { reading.pass (drop result bytes.now) ≡ None }
    ensures range { (at ≤ result) × (result ≤ length bytes.now) }
{
    let mut place = at;
    while let Some(n) = pass(tail(bytes, place)) {
        place += n;
    }
    place
}
