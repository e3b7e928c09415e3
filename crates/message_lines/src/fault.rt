ghost use Rattle.std.specs.Prelude.{◌≡◌};

use message_sentences::{put_sentence, put_words};
use nwq_text::put_count;
use nwq_value::NoMemory;

/// What is wrong with a line: at which byte of it, counted from 0, and a sentence with a `%` for a
/// piece of the line. Where something stood before, the number of its line.
#[derive(Clone, Copy)]
pub struct LineFault<'a> {
    pub at: usize,
    pub sentence: &'static str,
    pub piece: &'a [u8],
    pub earlier: Option<u64>,
}

/// What is wrong with a field that begins at this byte of its line.
pub(crate) fn fault_at<'a>(at: usize, sentence: &'static str, piece: &'a [u8]) -> LineFault<'a>
    ensures at { result.at ≡ at }
{
    LineFault {
        at,
        sentence,
        piece,
        earlier: None,
    }
}

/// What is wrong with a field that stood in an earlier line.
pub(crate) fn again<'a>(
    at: usize,
    sentence: &'static str,
    piece: &'a [u8],
    line: u64,
) -> LineFault<'a>
    ensures at { result.at ≡ at }
{
    LineFault {
        at,
        sentence,
        piece,
        earlier: Some(line),
    }
}

/// Appends the sentence of a fault.
pub fn put_line_fault(out: &mut Vec<u8>, fault: LineFault<'_>) -> Result<(), NoMemory> {
    put_sentence(out, fault.sentence, fault.piece)?;
    match fault.earlier {
        None => Ok(()),
        Some(line) => {
            put_words(out, " in line ")?;
            put_count(out, line)
        }
    }
}
