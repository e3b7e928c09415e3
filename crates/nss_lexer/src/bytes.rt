ghost use Rattle.std.specs.Prelude.{◌≡◌, ◌≢◌, ◌<◌, ◌≤◌, ◌-◌, length, take, drop, slice_index};
ghost use Rattle.std.specs.Char as char;
ghost use Rattle.nss_lexer.specs.Bytes as classes;
ghost use Rattle.nss_lexer.specs.Reading as reading;

/// A kind of bytes that stand in a row: of a name, of a number, or of a comment.
#[derive(Clone, Copy)]
pub enum Class {
    Name,
    Decimal,
    Hexadecimal,
    /// All but a line end.
    Line,
}

/// The value of a digit or a letter, or 36.
pub fn digit_value(b: u8) -> u8
    ensures { result ≡ char.digit_value b }
{
    match b {
        b'0'..=b'9' => b - b'0',
        b'A'..=b'Z' => b - b'A' + 10,
        b'a'..=b'z' => b - b'a' + 10,
        _ => 36,
    }
}

pub fn is_blank(b: u8) -> bool
    ensures { result ≡ classes.is_blank b }
{
    (9 <= b && b <= 13) || b == b' '
}

pub fn is_letter(b: u8) -> bool
    ensures { result ≡ classes.is_letter b }
{
    b.is_ascii_alphabetic() || b == b'_'
}

pub fn is_in(class: Class, b: u8) -> bool
    ensures { result ≡ reading.is_in class b }
{
    match class {
        Class::Name => is_letter(b) || digit_value(b) < 10,
        Class::Decimal => digit_value(b) < 10,
        Class::Hexadecimal => digit_value(b) < 16,
        Class::Line => !(b == b'\n'),
    }
}

/// The byte at a place, or 0 past the end.
pub fn byte(bytes: &[u8], at: usize) -> u8
    ensures value { result ≡ slice_index bytes.now at }
    ensures inside { result ≢ 0 → at < length bytes.now }
{
    if at < bytes.len() { bytes[at] } else { 0 }
}

/// How many bytes of the class begin the bytes.
pub fn run(class: Class, bytes: &[u8]) -> usize
    ensures count { result ≡ reading.class_run class bytes.now }
    ensures within { result ≤ length bytes.now }
{
    let mut n = 0;
    while n < bytes.len() && is_in(class, bytes[n]) {
        n += 1;
    }
    n
}

/// The bytes from a place on.
pub fn tail(bytes: &[u8], at: usize) -> &[u8]
    requires { at ≤ length bytes.now }
    ensures value { result.now ≡ drop at bytes.now }
    ensures count { length result.now ≡ length bytes.now - at }
{
    &bytes[at..]
}

/// The first bytes.
pub fn head(bytes: &[u8], n: usize) -> &[u8]
    requires { n ≤ length bytes.now }
    ensures value { result.now ≡ take n bytes.now }
    ensures count { length result.now ≡ n }
{
    &bytes[..n]
}
