//! The numbers of an assembler text.

ghost use Rattle.std.specs.Prelude.{◌≡◌, ◌<◌, ◌≤◌, IfSome};
ghost use Rattle.nwq_text.specs.Unescape.{hex_value};
ghost use Rattle.ncs_text.specs.Arguments.{four_bytes, hex_byte, negative, number_below};
ghost use Rattle.ncs_text.specs.Arguments.{offset_to, target_place, signed_number};

use nwq_text::read_number;

/// Half of what four bytes count.
const REACH: u64 = 2_147_483_648;

fn hex_value_of(digit: u8) -> Option<u8>
    ensures value { result ≡ hex_value digit }
    ensures small { IfSome result (λ n. n < 16) }
{
    match digit {
        b'0'..=b'9' => Some(digit - b'0'),
        b'a'..=b'f' => Some(digit - b'a' + 10),
        _ => None,
    }
}

/// The byte that two hexadecimal digits in lower case write.
#[tactic(auto, unfolding(crate::specs::Arguments::hex_byte))]
pub(crate) fn hex_byte(high: u8, low: u8) -> Option<u8>
    ensures { result ≡ hex_byte high low }
{
    Some(16 * hex_value_of(high)? + hex_value_of(low)?)
}

/// The number below a limit that the digits write.
pub(crate) fn number_below(digits: &[u8], limit: u64) -> Option<u64>
    ensures number { result ≡ number_below limit digits.now }
    ensures bound { IfSome result (λ n. n < limit) }
{
    let number = read_number(digits)?;
    if number < limit { Some(number) } else { None }
}

fn negative(n: u64) -> i32
    requires { n ≤ 2147483648 }
    ensures { result ≡ negative n }
{
    if n == 0 { 0 } else { -1 - (n - 1) as i32 }
}

/// The number that digits write, behind a minus where it is negative.
#[tactic(auto, unfolding(crate::specs::Arguments::signed_number))]
pub(crate) fn signed_number(text: &[u8]) -> Option<i32>
    ensures { result ≡ signed_number text.now }
{
    match text {
        [] => None,
        [b'-', digits @ ..] => match number_below(digits, REACH + 1) {
            None => None,
            Some(n) => Some(negative(n)),
        },
        _ => match number_below(text, REACH) {
            None => None,
            Some(n) => Some(n as i32),
        },
    }
}

/// How far a jump at one place has to lead to come to another.
#[tactic(auto, unfolding(crate::specs::Arguments::offset_to))]
pub(crate) fn offset_to(at: u64, place: u32) -> i32
    ensures { result ≡ offset_to at place }
{
    if at < REACH && (place as u64) < REACH {
        place as i32 - at as i32
    } else {
        i32::MIN
    }
}

/// The place behind `@`.
#[tactic(auto, unfolding(crate::specs::Arguments::target_place))]
pub(crate) fn place_of(text: &[u8]) -> Option<u32>
    ensures { result ≡ target_place text.now }
{
    match text {
        [b'@', digits @ ..] => match number_below(digits, 2 * REACH) {
            None => None,
            Some(n) => Some(n as u32),
        },
        _ => None,
    }
}

/// The four bytes of a float.
#[tactic(auto, unfolding(crate::specs::Arguments::hex_bytes))]
pub(crate) fn four_bytes(text: &[u8]) -> Option<[u8; 4]>
    ensures { result ≡ four_bytes text.now }
{
    match text {
        [a, b, c, d, e, f, g, h] => Some([
            hex_byte(*a, *b)?,
            hex_byte(*c, *d)?,
            hex_byte(*e, *f)?,
            hex_byte(*g, *h)?,
        ]),
        _ => None,
    }
}
