ghost use Rattle.std.specs.Prelude.{◌≡◌, ◌++◌, ◌<◌, ◌≤◌, ◌∷◌, [], List, ℕ, length, take, true};
ghost use Rattle.std.specs.Prelude.{false, MatchOption, ◌≢◌, OnOk, OnErr, IfOk};
ghost use Rattle.std.specs.List.{flat_map};
ghost use Rattle.std.specs.Option.{option_map};
ghost use Rattle.nwq_text.specs.Escape.{spelling, hex_digit, hex_spelling, escaped, quoted};
ghost use Rattle.nwq_text.specs.Escape.{ReadsText, ReadsQuoted, EscapesApart};
ghost use Rattle.nwq_text.specs.Unescape.{hex_value, after_x, after_backslash, front_spelled};
ghost use Rattle.nwq_text.specs.Unescape.{Unescapes, KeepsAll};

use nwq_value::text::TEXT_BYTES;
use nwq_value::{NoMemory, Text};
use std::alloc::Global;

/// Appends the escaped text of these bytes.
#[tactic(auto, unfolding(crate::specs::Escape::escaped))]
pub fn put_text(out: &mut Vec<u8>, text: &[u8]) -> Result<(), NoMemory>
    ensures ok { OnOk result (out.new.items ≡ out.old.items ++ escaped text.now) }
    ensures err { OnErr result (out.new.items ≡ out.old.items) }
{
    let start = out.len();
    let done = put_spellings(out, false, text);
    if done.is_err() {
        out.truncate(start);
    }
    done
}

/// Appends the quoted text of these bytes.
#[tactic(auto, unfolding(crate::specs::Escape::quoted))]
pub fn put_quoted(out: &mut Vec<u8>, text: &[u8]) -> Result<(), NoMemory>
    ensures ok { OnOk result (out.new.items ≡ out.old.items ++ quoted text.now) }
    ensures err { OnErr result (out.new.items ≡ out.old.items) }
{
    let start = out.len();
    let done = put_between_quotes(out, text);
    if done.is_err() {
        out.truncate(start);
    }
    done
}

#[tactic(auto, using(crate::proofs::EscapeLemmas::text_is_read, crate::proofs::EscapeLemmas::no_text))]
/// The text whose escaped text this is, and `None` exactly where it is the escaped text of no text.
pub fn read_text(alloc: Global, text: &[u8]) -> Result<Option<Text>, NoMemory>
    ensures reads { IfOk result (λ read. ReadsText text.now read) }
{
    match unescaped(alloc, false, text)? {
        Some(bytes) => text_of(alloc, bytes.as_slice()),
        None => Ok(None),
    }
}

#[tactic(auto, using(crate::proofs::EscapeLemmas::quoted_is_read, crate::proofs::EscapeLemmas::no_quoted))]
/// The bytes, however many, whose quoted text this is, and `None` exactly where it is the quoted
/// text of none.
pub fn read_quoted(alloc: Global, text: &[u8]) -> Result<Option<Vec<u8>>, NoMemory>
    ensures reads { IfOk result (λ read. ReadsQuoted text.now
        (option_map (λ bytes. bytes.items) read)) }
{
    match between_quotes(text) {
        Some(inner) => unescaped(alloc, true, inner),
        None => Ok(None),
    }
}

/// No two lists of bytes have the same escaped text, so what is read is what was put.
pub fn escapes_apart()
    ensures apart { EscapesApart }
{}

#[tactic(auto, using(crate::proofs::EscapeLemmas::all_kept))]
/// The text of these bytes, where they are no more than a text has.
fn text_of(alloc: Global, bytes: &[u8]) -> Result<Option<Text>, NoMemory>
    ensures { IfOk result (λ read. KeepsAll bytes.now read) }
{
    if bytes.len() > TEXT_BYTES {
        return Ok(None);
    }
    Ok(Some(Text::of(alloc, bytes)?))
}

#[tactic(auto, using(crate::proofs::EscapeLemmas::shorter_rest, crate::proofs::EscapeLemmas::one_more_read, crate::proofs::EscapeLemmas::unspelled_is_none, crate::proofs::EscapeLemmas::whole_is_read))]
/// The bytes whose spellings in a row this text is.
fn unescaped(alloc: Global, in_quotes: bool, text: &[u8]) -> Result<Option<Vec<u8>>, NoMemory>
    ensures { IfOk result (λ read. Unescapes in_quotes text.now
        (option_map (λ bytes. bytes.items) read)) }
{
    let mut bytes = Vec::new(alloc);
    let mut rest = text;
    while let Some((byte, after)) = front_of(in_quotes, rest) {
        bytes.push(byte)?;
        rest = after;
    }
    if !rest.is_empty() {
        return Ok(None);
    }
    Ok(Some(bytes))
}

/// Appends the spellings of these bytes. A prefix of them may stand there after `NoMemory`.
fn put_spellings(out: &mut Vec<u8>, in_quotes: bool, text: &[u8]) -> Result<(), NoMemory>
    ensures ok { OnOk result (out.new.items ≡ out.old.items
        ++ flat_map (spelling in_quotes) text.now) }
    ensures err { OnErr result (take (length out.old.items) out.new.items ≡ out.old.items) }
{
    for byte in text {
        put_spelling(out, in_quotes, *byte)?;
    }
    Ok(())
}

#[tactic(auto, using(crate::proofs::EscapeLemmas::between, crate::proofs::TakenBack::taken_back, crate::proofs::TakenBack::taken_back_after))]
/// The same between quotes.
fn put_between_quotes(out: &mut Vec<u8>, text: &[u8]) -> Result<(), NoMemory>
    ensures ok { OnOk result (out.new.items ≡ out.old.items
        ++ (34 ∷ flat_map (spelling true) text.now ++ 34 ∷ [])) }
    ensures err { OnErr result (take (length out.old.items) out.new.items ≡ out.old.items) }
{
    out.push(b'"')?;
    put_spellings(out, true, text)?;
    out.push(b'"')?;
    Ok(())
}

#[tactic(auto, unfolding(crate::specs::Escape::spelling))]
fn put_spelling(out: &mut Vec<u8>, in_quotes: bool, byte: u8) -> Result<(), NoMemory>
    ensures ok { OnOk result (out.new.items ≡ out.old.items ++ spelling in_quotes byte) }
    ensures err { OnErr result (out.new.items ≡ out.old.items) }
{
    match byte {
        b'\\' => put_bytes(out, b"\\\\"),
        b'\n' => put_bytes(out, b"\\n"),
        b' '..=b'~' if !(in_quotes && byte == b'"') => put_bytes(out, &[byte]),
        _ => put_bytes(out, &hex_spelling_of(byte)),
    }
}

fn put_bytes(out: &mut Vec<u8>, bytes: &[u8]) -> Result<(), NoMemory>
    ensures ok { OnOk result (out.new.items ≡ out.old.items ++ bytes.now) }
    ensures err { OnErr result (out.new.items ≡ out.old.items) }
{
    out.extend_from_slice(bytes)?;
    Ok(())
}

fn hex_spelling_of(byte: u8) -> [u8; 4]
    ensures { result ≡ hex_spelling byte }
{
    [
        b'\\',
        b'x',
        hex_digit_of(byte / 16),
        hex_digit_of(byte % 16),
    ]
}

fn hex_digit_of(value: u8) -> u8
    requires { value < 16 }
    ensures { result ≡ hex_digit value }
{
    if value < 10 {
        b'0' + value
    } else {
        b'a' + (value - 10)
    }
}

/// What stands between the quotes with which the text begins and ends.
fn between_quotes(text: &[u8]) -> Option<&[u8]>
    ensures { MatchOption result ((inner : List ℕ) → text.now ≢ 34 ∷ inner ++ 34 ∷ [])
        (λ inner. text.now ≡ 34 ∷ inner.now ++ 34 ∷ []) }
{
    match text {
        [b'"', inner @ .., b'"'] => Some(inner),
        _ => None,
    }
}

/// The byte that is spelled at the front, and what follows it.
#[tactic(auto, unfolding(crate::specs::Unescape::front_spelled))]
fn front_of(in_quotes: bool, text: &[u8]) -> Option<(u8, &[u8])>
    ensures { option_map (λ front. (front.0, front.1.now)) result
        ≡ front_spelled in_quotes text.now }
{
    let (first, rest) = text.split_first()?;
    match first {
        b'\\' => behind_backslash(in_quotes, rest),
        b' '..=b'~' if !(in_quotes && *first == b'"') => Some((*first, rest)),
        _ => None,
    }
}

fn behind_backslash(in_quotes: bool, text: &[u8]) -> Option<(u8, &[u8])>
    ensures { option_map (λ front. (front.0, front.1.now)) result
        ≡ after_backslash in_quotes text.now }
{
    let (first, rest) = text.split_first()?;
    match first {
        b'\\' => Some((b'\\', rest)),
        b'n' => Some((b'\n', rest)),
        b'x' => behind_x(in_quotes, rest),
        _ => None,
    }
}

fn behind_x(in_quotes: bool, text: &[u8]) -> Option<(u8, &[u8])>
    ensures { option_map (λ front. (front.0, front.1.now)) result ≡ after_x in_quotes text.now }
{
    let [high, low, rest @ ..] = text else {
        return None;
    };
    let byte = 16 * hex_value_of(*high)? + hex_value_of(*low)?;
    match byte {
        b'"' if in_quotes => Some((byte, rest)),
        b'\n' | b' '..=b'~' => None,
        _ => Some((byte, rest)),
    }
}

fn hex_value_of(digit: u8) -> Option<u8>
    ensures { result ≡ hex_value digit }
{
    match digit {
        b'0'..=b'9' => Some(digit - b'0'),
        b'a'..=b'f' => Some(digit - b'a' + 10),
        _ => None,
    }
}
