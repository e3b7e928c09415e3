//! Lists of tables.

use crate::fault::{LineFault, again, fault_at};
use crate::fields::{is_marked, line_numbered};
use nwq_text::{Lines, is_script_name};

/// The number of the first line of a text that is this one.
fn first_like(text: &[u8], wanted: &[u8]) -> Option<u64> {
    let mut lines = Lines::of(text);
    while let Some(line) = lines.next_line() {
        if line.bytes == wanted {
            return Some(line.number);
        }
    }
    None
}

/// What is wrong with the line of a list of tables that is refused.
pub fn list_fault(text: &[u8], number: u64) -> LineFault<'_> {
    let line = line_numbered(text, number).bytes;
    if number == 1 && is_marked(text) {
        return fault_at(
            0,
            "the file begins with the mark of a byte order, which is no part of a name",
            b"",
        );
    }
    if line.is_empty() {
        return fault_at(0, "this line is empty, and each names a table", b"");
    }
    if !is_script_name(line) {
        return fault_at(
            0,
            "`%` is no name of a table: 1 to 16 of a to z, 0 to 9 and `_`, without `.2da`",
            line,
        );
    }
    match first_like(text, line) {
        Some(first) if first < number => again(0, "`%` stands here again, and before", line, first),
        _ => fault_at(0, "`%` is table number 65 of the list, one too many", line),
    }
}
