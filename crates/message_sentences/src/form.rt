//! The parts of a message.

ghost use Rattle.std.specs.Prelude.{◌≡◌, ◌++◌, ◌≤◌, ◌↔◌, length, IsTrue, OnOk};
ghost use Rattle.std.specs.Fmt.{decimal};
ghost use Rattle.std.specs.List.{list_all};
ghost use Rattle.nwq_text.specs.Line.{line_number};
ghost use Rattle.nwq_value.specs.Limits.{file_limit};
ghost use Rattle.message_text.specs.Shown.{Appends};
ghost use Rattle.message_sentences.specs.Form as spec;
ghost use Rattle.message_sentences.specs.Form.{kind_text, note_text, IsPlainName, ShowsEnd};
ghost use Rattle.message_sentences.specs.Form.{ShowsHead, ShowsName, ShowsNote, ShowsNoteAt};
ghost use Rattle.message_sentences.specs.Form.{ShowsSpot, ShowsWhole};
ghost use Rattle.message_sentences.specs.Template.{filled, filled_byte};

use message_text::{column, is_readable, put_place};
use nwq_text::{line_of, put_count, put_text};
use nwq_value::NoMemory;

pub fn put_words(out: &mut Vec<u8>, text: &str) -> Result<(), NoMemory>
    ensures appends { OnOk result (out.new.items ≡ out.old.items ++ text.now) }
{
    out.extend_from_slice(text.as_bytes())?;
    Ok(())
}

pub fn put_plain(out: &mut Vec<u8>, bytes: &[u8]) -> Result<(), NoMemory>
    ensures appends { OnOk result (out.new.items ≡ out.old.items ++ bytes.now) }
{
    out.extend_from_slice(bytes)?;
    Ok(())
}

fn put_byte(out: &mut Vec<u8>, piece: &[u8], byte: u8) -> Result<(), NoMemory>
    ensures appends { OnOk result (out.new.items ≡ out.old.items ++ filled_byte piece.now byte) }
{
    if byte == b'%' {
        put_text(out, piece)
    } else {
        put_plain(out, &[byte])
    }
}

/// Appends the bytes of a sentence.
fn put_filled(out: &mut Vec<u8>, sentence: &[u8], piece: &[u8]) -> Result<(), NoMemory>
    ensures appends { OnOk result (out.new.items ≡ out.old.items ++ filled piece.now sentence.now) }
{
    for byte in sentence {
        put_byte(out, piece, *byte)?;
    }
    Ok(())
}

/// Appends a sentence with the escaped piece for each `%`.
pub fn put_sentence(out: &mut Vec<u8>, sentence: &str, piece: &[u8]) -> Result<(), NoMemory>
    ensures appends { OnOk result (out.new.items ≡ out.old.items ++ filled piece.now sentence.now) }
{
    put_filled(out, sentence.as_bytes(), piece)
}

fn is_printed(byte: u8) -> bool
    ensures { result ≡ spec.is_printed byte }
{
    byte >= 32 && byte != 127
}

fn are_printed(bytes: &[u8]) -> bool
    ensures { result ≡ list_all spec.is_printed bytes.now }
{
    bytes.iter().all(|byte| is_printed(*byte))
}

/// Whether a name has no character that a terminal wouldn't show as it is.
fn is_plain_name(name: &[u8]) -> bool
    ensures plain { (IsTrue result) ↔ IsPlainName name.now }
{
    is_readable(name) && are_printed(name)
}

/// Appends the name of a file as an editor opens it: as it is, or else escaped.
#[tactic(auto, using(crate::proofs::FormLemmas::name_plain, crate::proofs::FormLemmas::name_escaped))]
pub fn put_name(out: &mut Vec<u8>, name: &[u8]) -> Result<(), NoMemory>
    ensures shows { OnOk result (Appends (ShowsName name.now) out.old.items out.new.items) }
{
    if is_plain_name(name) {
        put_plain(out, name)
    } else {
        put_text(out, name)
    }
}

/// Appends the number of the line of a place.
fn put_line_number(out: &mut Vec<u8>, bytes: &[u8], at: u32) -> Result<(), NoMemory>
    requires size { length bytes.now ≤ file_limit }
    requires place { at ≤ length bytes.now }
    ensures { OnOk result (out.new.items ≡ out.old.items ++ decimal (line_number bytes.now at)) }
{
    put_count(out, u64::from(line_of(bytes, at)))
}

/// Appends the name of a file, and the line and column of a place of it.
fn put_spot(out: &mut Vec<u8>, name: &[u8], bytes: &[u8], at: u32) -> Result<(), NoMemory>
    requires size { length bytes.now ≤ file_limit }
    requires place { at ≤ length bytes.now }
    ensures shows { OnOk result (Appends (ShowsSpot name.now bytes.now at)
        out.old.items out.new.items) }
{
    put_name(out, name)?;
    put_words(out, ":")?;
    put_line_number(out, bytes, at)?;
    put_words(out, ":")?;
    put_count(out, column(bytes, at as usize))
}

/// Begins a message on a place of a file.
pub fn put_head(out: &mut Vec<u8>, name: &[u8], bytes: &[u8], at: u32) -> Result<(), NoMemory>
    requires size { length bytes.now ≤ file_limit }
    requires place { at ≤ length bytes.now }
    ensures shows { OnOk result (Appends (ShowsHead name.now bytes.now at)
        out.old.items out.new.items) }
{
    put_spot(out, name, bytes, at)?;
    put_words(out, ": error: ")
}

/// Appends what a note says, up to the end of its line.
fn put_note_text(out: &mut Vec<u8>, sentence: &str, piece: &[u8]) -> Result<(), NoMemory>
    ensures appends { OnOk result (out.new.items
        ≡ out.old.items ++ note_text sentence.now piece.now) }
{
    put_words(out, ": note: ")?;
    put_sentence(out, sentence, piece)?;
    put_words(out, "\n")
}

/// Appends a note on a place of a file: a sentence with the escaped piece for each `%`, and the
/// line of the place with a caret.
pub fn put_note_at(
    out: &mut Vec<u8>,
    name: &[u8],
    bytes: &[u8],
    at: u32,
    sentence: &str,
    piece: &[u8],
) -> Result<(), NoMemory>
    requires size { length bytes.now ≤ file_limit }
    requires place { at ≤ length bytes.now }
    ensures shows { OnOk result (Appends
        (ShowsNoteAt name.now bytes.now at sentence.now piece.now) out.old.items out.new.items) }
{
    put_spot(out, name, bytes, at)?;
    put_note_text(out, sentence, piece)?;
    put_place(out, bytes, at as usize)
}

/// Appends a note on a whole file.
pub fn put_note(
    out: &mut Vec<u8>,
    name: &[u8],
    sentence: &str,
    piece: &[u8],
) -> Result<(), NoMemory>
    ensures shows { OnOk result (Appends (ShowsNote name.now sentence.now piece.now)
        out.old.items out.new.items) }
{
    put_name(out, name)?;
    put_note_text(out, sentence, piece)
}

/// Ends the first line of a message.
pub fn put_kind(out: &mut Vec<u8>, kind: &[u8]) -> Result<(), NoMemory>
    ensures appends { OnOk result (out.new.items ≡ out.old.items ++ kind_text kind.now) }
{
    put_words(out, " [")?;
    put_plain(out, kind)?;
    put_words(out, "]\n")
}

/// Ends a message on a place of a file.
pub fn put_end(out: &mut Vec<u8>, kind: &[u8], bytes: &[u8], at: u32) -> Result<(), NoMemory>
    requires place { at ≤ length bytes.now }
    ensures shows { OnOk result (Appends (ShowsEnd kind.now bytes.now at)
        out.old.items out.new.items) }
{
    put_kind(out, kind)?;
    put_place(out, bytes, at as usize)
}

/// Appends a message on a whole file.
#[tactic(auto, using(crate::proofs::FormLemmas::whole_shown))]
pub fn put_whole(out: &mut Vec<u8>, name: &[u8], sentence: &str, kind: &str) -> Result<(), NoMemory>
    ensures shows { OnOk result (Appends (ShowsWhole name.now sentence.now kind.now)
        out.old.items out.new.items) }
{
    put_name(out, name)?;
    put_words(out, ": error: ")?;
    put_words(out, sentence)?;
    put_kind(out, kind.as_bytes())
}
