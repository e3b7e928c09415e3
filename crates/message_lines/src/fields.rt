//! The fields of a line, which one blank parts from each other.

use crate::fault::{LineFault, fault_at};
use nwq_text::{Line, Lines, read_number};

/// A field of a line: the byte at which it begins, and its bytes.
#[derive(Clone, Copy)]
pub(crate) struct Field<'a> {
    pub at: usize,
    pub bytes: &'a [u8],
}

/// The bytes up to the first blank.
fn front(bytes: &[u8]) -> &[u8] {
    for (i, byte) in bytes.iter().enumerate() {
        if *byte == b' ' {
            return &bytes[..i];
        }
    }
    bytes
}

/// The field behind so many blanks, up to the next one.
pub(crate) fn field_behind(line: &[u8], number: u32) -> Option<Field<'_>> {
    let mut passed = 0u32;
    for (i, byte) in line.iter().enumerate() {
        if passed == number {
            return Some(Field {
                at: i,
                bytes: front(&line[i..]),
            });
        }
        if *byte == b' ' {
            passed = passed.saturating_add(1);
        }
    }
    None
}

/// What is wrong with the blank at a place of a line.
fn blank_at(line: &[u8], i: usize) -> Option<LineFault<'_>> {
    if i == 0 {
        return Some(fault_at(0, "a blank stands at the beginning of this line", b""));
    }
    if i < line.len() && line[i - 1] == b' ' {
        return Some(fault_at(i, "two blanks stand here, and one parts fields", b""));
    }
    if i.saturating_add(1) >= line.len() {
        return Some(fault_at(i, "a blank stands at the end of this line", b""));
    }
    None
}

/// The first of so many blanks of a line that can't stand where it does.
pub(crate) fn blank_fault(line: &[u8], most: u32) -> Option<LineFault<'_>> {
    let mut passed = 0u32;
    for (i, byte) in line.iter().enumerate() {
        if *byte == b' ' && passed < most {
            passed = passed.saturating_add(1);
            if let Some(fault) = blank_at(line, i) {
                return Some(fault);
            }
        }
    }
    None
}

/// Whether these digits are a number in a range.
pub(crate) fn is_number(digits: &[u8], low: u64, high: u64) -> bool {
    match read_number(digits) {
        Some(number) => low <= number && number <= high,
        None => false,
    }
}

/// The line of a text that has this number, or the empty one behind its end.
pub(crate) fn line_numbered(text: &[u8], number: u64) -> Line<'_> {
    let mut lines = Lines::of(text);
    while let Some(line) = lines.next_line() {
        if line.number == number {
            return line;
        }
    }
    Line {
        bytes: b"",
        place: text.len(),
        number,
    }
}

/// Whether a text begins with the mark of a byte order.
pub(crate) fn is_marked(text: &[u8]) -> bool {
    text.starts_with(b"\xef\xbb\xbf")
}
