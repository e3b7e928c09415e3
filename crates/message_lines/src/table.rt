//! 2DA files.

use crate::fault::{LineFault, fault_at};
use crate::fields::{is_marked, line_numbered};

/// The place of a quote that stays open, if one does: a word that begins with a quote goes to the
/// next.
fn open_quote(line: &[u8]) -> Option<usize> {
    let mut open = None;
    let mut bare = false;
    for (i, byte) in line.iter().enumerate() {
        match *byte {
            b'"' if open.is_some() => open = None,
            b'"' if !bare => open = Some(i),
            b' ' | b'\t' if open.is_none() => bare = false,
            _ if open.is_none() => bare = true,
            _ => {}
        }
    }
    open
}

fn is_blank(line: &[u8]) -> bool {
    line.iter().all(|byte| *byte == b' ' || *byte == b'\t')
}

/// What is wrong with the first line of a 2DA file.
fn heading_fault<'a>(text: &[u8]) -> LineFault<'a> {
    fault_at(
        0,
        if is_marked(text) {
            "the file begins with the mark of a byte order; a 2DA file begins with `2DA V2.0`"
        } else {
            "a 2DA file begins with the line `2DA V2.0`"
        },
        b"",
    )
}

/// What is wrong with the line that names the columns.
fn columns_fault(line: &[u8]) -> LineFault<'_> {
    fault_at(
        0,
        if is_blank(line) {
            "the third line names the columns, and no name stands here"
        } else {
            "two columns have one name, in upper or lower case, or there are more than 1,024"
        },
        b"",
    )
}

/// What is wrong with the line of a 2DA file that is refused.
pub fn table_fault(text: &[u8], number: u64) -> LineFault<'_> {
    let line = line_numbered(text, number).bytes;
    if number == 1 {
        return heading_fault(text);
    }
    if number == 2 {
        return fault_at(
            0,
            "the second line is empty, or begins with `DEFAULT:`",
            b"",
        );
    }
    if let Some(at) = open_quote(line) {
        return fault_at(at, "this quote isn't closed on its line", b"");
    }
    if number == 3 {
        return columns_fault(line);
    }
    fault_at(
        0,
        "this row has more cells than there are columns, or is number 65,537",
        b"",
    )
}
