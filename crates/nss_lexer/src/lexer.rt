ghost use Rattle.std.specs.Prelude.{◌≡◌, ◌≤◌, ◌<◌, ◌^◌, length, take, MatchOption, None};
ghost use Rattle.nwq_value.specs.Limits.{file_limit};
ghost use Rattle.nss_lexer.specs.Splitting.{BeginsWithToken, IsFirst, IsStuck, first};
ghost use Rattle.nss_lexer.specs.Reading as reading;

use crate::bytes::{head, tail};
use crate::gap::{begins_comment, past_gap};
use crate::scan::{Scanned, scan};
use crate::token::{Lexed, Token};

/// The token that begins the bytes, which no blank and no closed comment begins.
fn token_at_start(bytes: &[u8]) -> Option<Scanned>
    requires some { 0 < length bytes.now }
    requires size { length bytes.now < 2 ^ 32 }
    requires stops { reading.pass bytes.now ≡ None }
    ensures { MatchOption result (IsStuck bytes.now)
        (λ scanned. (0 < scanned.length) × (scanned.length ≤ length bytes.now)
        × BeginsWithToken bytes.now scanned.kind (take scanned.length bytes.now)) }
{
    if begins_comment(bytes) {
        return None;
    }
    scan(bytes)
}

/// The first token of the file at or after `at`; takes no memory.
pub fn next(bytes: &[u8], file: u16, at: u32) -> Lexed<'_>
    requires size { length bytes.now ≤ file_limit }
    requires place { at ≤ length bytes.now }
    ensures first { IsFirst bytes.now file at (first result) }
{
    let start = past_gap(bytes, at as usize);
    let rest = tail(bytes, start);
    if rest.is_empty() {
        return Lexed::End;
    }
    match token_at_start(rest) {
        None => Lexed::Bad(start as u32),
        Some(scanned) => Lexed::Token(Token {
            kind: scanned.kind,
            text: head(rest, scanned.length),
            file,
            start: start as u32,
            end: (start + scanned.length) as u32,
        }),
    }
}
