ghost use Rattle.std.specs.Prelude.{◌≡◌, ◌<◌, ◌≤◌, ◌^◌, length, bytes_eq, map, option_and_then};
ghost use Rattle.std.specs.List.{list_any};
ghost use Rattle.std.specs.Str.Parse.{digits_value};
ghost use Rattle.nss_lexer.specs.Lexemes as grammar;
ghost use Rattle.nss_lexer.specs.Reading as reading;

use crate::bytes::{Class, byte, digit_value, is_in, is_letter, run};
use crate::string::closing_quote;
use crate::token::TokenKind;

/// A token's kind and its length, where it begins the bytes.
#[derive(Clone, Copy)]
pub struct Scanned {
    pub kind: TokenKind,
    pub length: usize,
}

/// How many bytes a name has at most.
const NAME_BYTES: usize = 255;

/// How many bytes a word has at most.
const WORD_BYTES: usize = 14;

/// The words that are no names.
pub const WORDS: [&[u8]; 27] = [
    b"void",
    b"int",
    b"float",
    b"string",
    b"object",
    b"vector",
    b"location",
    b"effect",
    b"event",
    b"talent",
    b"itemproperty",
    b"action",
    b"struct",
    b"const",
    b"if",
    b"else",
    b"while",
    b"do",
    b"for",
    b"switch",
    b"case",
    b"default",
    b"break",
    b"continue",
    b"return",
    b"OBJECT_SELF",
    b"OBJECT_INVALID",
];

/// The operators, the assignments and the other signs, the longest first.
pub const SIGNS: [&[u8]; 47] = [
    b">>>=", b">>>", b"<<=", b">>=", b"||", b"&&", b"==", b"!=", b">=", b"<=", b"<<", b">>", b"++",
    b"--", b"+=", b"-=", b"*=", b"/=", b"%=", b"&=", b"|=", b"^=", b"(", b")", b"{", b"}", b"[",
    b"]", b",", b";", b":", b"?", b"#", b".", b"=", b"|", b"^", b"&", b">", b"<", b"+", b"-", b"*",
    b"/", b"%", b"!", b"~",
];

/// Most names are longer than each word.
#[tactic(auto, using(crate::proofs::SignLemmas::no_long_word), unfolding(crate::specs::Lexemes::is_word))]
fn is_word(text: &[u8]) -> bool
    ensures { result ≡ grammar.is_word text.now }
{
    if text.len() > WORD_BYTES {
        return false;
    }
    is_among(&WORDS, text)
}

/// Whether the table has this text.
fn is_among(table: &[&[u8]], text: &[u8]) -> bool
    ensures { result ≡ list_any (λ entry. bytes_eq entry.now text.now) table.now }
{
    table.iter().any(|entry| *entry == text)
}

/// The number that the digits write, if it fits 32 bits.
fn number(radix: u8, digits: &[u8]) -> Option<u32>
    requires { (2 ≤ radix) × (radix ≤ 16) }
    ensures { result ≡ reading.small (digits_value radix digits.now) }
{
    let mut n = 0;
    for b in digits {
        let more = n as u64 * radix as u64 + digit_value(*b) as u64;
        if more > u32::MAX as u64 {
            return None;
        }
        n = more as u32;
    }
    Some(n)
}

/// A name or a word.
fn scan_name(bytes: &[u8]) -> Option<Scanned>
    ensures { result ≡ reading.within (reading.name_form bytes.now) }
{
    let length = run(Class::Name, bytes);
    if is_word(&bytes[..length]) {
        Some(Scanned {
            kind: TokenKind::Word,
            length,
        })
    } else if length <= NAME_BYTES {
        Some(Scanned {
            kind: TokenKind::Name,
            length,
        })
    } else {
        None
    }
}

/// An int, if its value fits 32 bits.
fn int(radix: u8, digits: &[u8], length: usize) -> Option<Scanned>
    requires { (2 ≤ radix) × (radix ≤ 16) }
    ensures { result
        ≡ reading.within (reading.scanned (TokenKind.Int (digits_value radix digits.now)) length) }
{
    match number(radix, digits) {
        None => None,
        Some(value) => Some(Scanned {
            kind: TokenKind::Int(value),
            length,
        }),
    }
}

/// How many bytes of a float follow its point: digits, and maybe an `f`.
fn fraction_length(tail: &[u8]) -> usize
    ensures value { result ≡ reading.fraction_length tail.now }
    ensures within { result ≤ length tail.now }
{
    let digits = run(Class::Decimal, tail);
    if byte(tail, digits) == b'f' {
        digits + 1
    } else {
        digits
    }
}

/// A float whose point stands at a place.
fn scan_fraction(bytes: &[u8], point: usize) -> Scanned
    requires { point < length bytes.now }
    ensures { result ≡ reading.float_form bytes.now point }
{
    Scanned {
        kind: TokenKind::Float,
        length: point + 1 + fraction_length(&bytes[point + 1..]),
    }
}

/// An int or a float that begins with a digit and isn't hexadecimal.
fn scan_decimal(bytes: &[u8]) -> Option<Scanned>
    ensures { result ≡ reading.within (reading.decimal_form bytes.now) }
{
    let end = run(Class::Decimal, bytes);
    match byte(bytes, end) {
        b'.' => Some(scan_fraction(bytes, end)),
        b'f' => Some(Scanned {
            kind: TokenKind::Float,
            length: end + 1,
        }),
        _ => int(10, &bytes[..end], end),
    }
}

fn begins_hexadecimal(bytes: &[u8]) -> bool
    ensures { result ≡ reading.begins_hexadecimal bytes.now }
{
    byte(bytes, 0) == b'0'
        && (byte(bytes, 1) == b'x' || byte(bytes, 1) == b'X')
        && is_in(Class::Hexadecimal, byte(bytes, 2))
}

fn scan_hexadecimal(bytes: &[u8]) -> Option<Scanned>
    requires { 2 ≤ length bytes.now }
    ensures { result ≡ reading.within (reading.hexadecimal_form bytes.now) }
{
    let digits = &bytes[2..];
    let count = run(Class::Hexadecimal, digits);
    int(16, &digits[..count], count + 2)
}

/// A number that begins with a digit.
fn scan_number(bytes: &[u8]) -> Option<Scanned>
    ensures { result ≡ reading.within (reading.number_form bytes.now) }
{
    if begins_hexadecimal(bytes) {
        scan_hexadecimal(bytes)
    } else {
        scan_decimal(bytes)
    }
}

/// A string that begins with its quote.
fn scan_string(bytes: &[u8]) -> Option<Scanned>
    requires { (0 < length bytes.now) × (length bytes.now < 2 ^ 32) }
    ensures { result ≡ reading.string_form bytes.now }
{
    match closing_quote(&bytes[1..]) {
        None => None,
        Some(end) => Some(Scanned {
            kind: TokenKind::Text,
            length: end + 1,
        }),
    }
}

fn is_prefix(sign: &[u8], bytes: &[u8]) -> bool
    ensures { result ≡ reading.is_prefix sign.now bytes.now }
{
    for (at, b) in sign.iter().enumerate() {
        if at >= bytes.len() {
            return false;
        }
        if *b != bytes[at] {
            return false;
        }
    }
    true
}

/// The length of the first entry that begins the bytes.
fn first_prefix(table: &[&[u8]], bytes: &[u8]) -> Option<usize>
    ensures { result ≡ reading.first_prefix (map (λ sign. sign.now) table.now) bytes.now }
{
    for sign in table {
        if is_prefix(sign, bytes) {
            return Some(sign.len());
        }
    }
    None
}

/// The length of the longest sign that begins the bytes. Of the signs that are found at once none
/// begins a longer one, but for `=`.
fn sign_length(bytes: &[u8]) -> Option<usize>
    ensures { result ≡ reading.first_prefix grammar.signs bytes.now }
{
    match bytes {
        [b'(', ..] => Some(1),
        [b')', ..] => Some(1),
        [b'{', ..] => Some(1),
        [b'}', ..] => Some(1),
        [b',', ..] => Some(1),
        [b';', ..] => Some(1),
        [b'.', ..] => Some(1),
        [b'=', b'=', ..] => Some(2),
        [b'=', ..] => Some(1),
        _ => first_prefix(&SIGNS, bytes),
    }
}

/// The longest sign.
fn scan_sign(bytes: &[u8]) -> Option<Scanned>
    ensures { result ≡ option_and_then reading.within (reading.sign_form bytes.now) }
{
    match sign_length(bytes) {
        None => None,
        Some(length) => Some(Scanned {
            kind: TokenKind::Sign,
            length,
        }),
    }
}

/// The longest token that begins the bytes, if it is within the limits.
#[tactic(auto, unfolding(crate::specs::Reading::form))]
pub fn scan(bytes: &[u8]) -> Option<Scanned>
    requires { (0 < length bytes.now) × (length bytes.now < 2 ^ 32) }
    ensures { result ≡ reading.lexeme bytes.now }
{
    let first = byte(bytes, 0);
    if is_letter(first) {
        scan_name(bytes)
    } else if is_in(Class::Decimal, first) {
        scan_number(bytes)
    } else if first == b'.' && is_in(Class::Decimal, byte(bytes, 1)) {
        Some(scan_fraction(bytes, 0))
    } else if first == b'"' {
        scan_string(bytes)
    } else {
        scan_sign(bytes)
    }
}
