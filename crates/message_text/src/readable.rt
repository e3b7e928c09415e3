//! Which bytes a terminal shows as they are meant.

ghost use Rattle.std.specs.Prelude.{◌≡◌, ◌↔◌, IsTrue};
ghost use Rattle.std.specs.Str.{IsUtf8};
ghost use Rattle.message_text.specs.Shown as spec;
ghost use Rattle.message_text.specs.Shown.{IsReadable, HidesNone};

fn is_latin_control(a: u8, b: u8) -> bool
    ensures { result ≡ spec.is_latin_control a b }
{
    a == 0xc2 && (0x80..0xa0).contains(&b)
}

fn is_arabic_mark(a: u8, b: u8) -> bool
    ensures { result ≡ spec.is_arabic_mark a b }
{
    a == 0xd8 && b == 0x9c
}

fn is_general_mark(a: u8, b: u8, c: u8) -> bool
    ensures { result ≡ spec.is_general_mark a b c }
{
    a == 0xe2
        && ((b == 0x80 && ((142..144).contains(&c) || (168..175).contains(&c)))
            || (b == 0x81 && (166..170).contains(&c)))
}

/// Whether these bytes begin with a character that a terminal obeys.
fn begins_hidden(bytes: &[u8]) -> bool
    ensures { result ≡ spec.begins_hidden bytes.now }
{
    match bytes {
        [] => false,
        [_] => false,
        [a, b] => is_latin_control(*a, *b) || is_arabic_mark(*a, *b),
        [a, b, c, ..] => is_latin_control(*a, *b)
            || is_arabic_mark(*a, *b)
            || is_general_mark(*a, *b, *c),
    }
}

/// Whether no such character stands in these bytes.
fn hides_none(bytes: &[u8]) -> bool
    ensures none { (IsTrue result) ↔ HidesNone bytes.now }
{
    for i in 0..bytes.len() {
        if begins_hidden(&bytes[i..]) {
            return false;
        }
    }
    true
}

fn is_utf8(bytes: &[u8]) -> bool
    ensures { (IsTrue result) ↔ IsUtf8 bytes.now }
{
    match str::from_utf8(bytes) {
        Ok(_) => true,
        Err(_) => false,
    }
}

/// Whether these bytes are UTF-8 without characters that a terminal obeys. Those of ASCII aren't
/// looked for.
pub fn is_readable(bytes: &[u8]) -> bool
    ensures readable { (IsTrue result) ↔ IsReadable bytes.now }
{
    is_utf8(bytes) && hides_none(bytes)
}
