//! Where a place of a text stands in its line.

ghost use Rattle.std.specs.Prelude.{◌≡◌, ◌≤◌, length};
ghost use Rattle.message_text.specs.Place.{is_inner, HasCharacters, HasColumn, IsLineEnd};
ghost use Rattle.message_text.specs.Place.{IsLineStart};

/// Where the line begins in which the place stands.
pub fn line_start(bytes: &[u8], at: usize) -> usize
    requires { at ≤ length bytes.now }
    ensures start { IsLineStart bytes.now at result }
{
    let mut start = at;
    while start > 0 && bytes[start - 1] != b'\n' {
        start -= 1;
    }
    start
}

/// Where the line ends in which the place stands: at its newline, or at the end of the text.
pub fn line_end(bytes: &[u8], at: usize) -> usize
    requires { at ≤ length bytes.now }
    ensures end { IsLineEnd bytes.now at result }
{
    let mut end = at;
    while end < bytes.len() && bytes[end] != b'\n' {
        end += 1;
    }
    end
}

/// Whether a byte of a text begins no character.
pub(crate) fn is_inner(b: u8) -> bool
    ensures { result ≡ is_inner b }
{
    (128..192).contains(&b)
}

/// How many characters these bytes are.
fn characters_in(bytes: &[u8]) -> usize
    ensures count { HasCharacters bytes.now result }
    ensures few { result ≤ length bytes.now }
{
    match str::from_utf8(bytes) {
        Ok(_) => bytes.iter().filter(|b| !is_inner(**b)).count(),
        Err(_) => bytes.len(),
    }
}

/// The column of a place in its line, in characters and counted from 1.
pub fn column(bytes: &[u8], at: usize) -> u64
    requires { at ≤ length bytes.now }
    ensures column { HasColumn bytes.now at result }
{
    let start = line_start(bytes, at);
    characters_in(&bytes[start..at]) as u64 + 1
}
