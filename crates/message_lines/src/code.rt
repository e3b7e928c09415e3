//! Assembler texts.

use crate::fault::{LineFault, fault_at};
use crate::fields::{blank_fault, field_behind, is_marked, line_numbered};
use ncs_code::opcode_named;

/// What is wrong with a line that begins with the name of an instruction.
fn arguments_fault(line: &[u8]) -> LineFault<'_> {
    match field_behind(line, 1) {
        None => fault_at(
            line.len(),
            "a blank and a type byte follow the name of an instruction",
            b"",
        ),
        Some(kind) => fault_at(
            kind.at,
            "the instruction takes another type byte, or other arguments behind `%`",
            kind.bytes,
        ),
    }
}

/// What is wrong with the line of an assembler text that is refused.
pub fn code_fault(text: &[u8], number: u64) -> LineFault<'_> {
    let line = line_numbered(text, number).bytes;
    if number == 1 && is_marked(text) {
        return fault_at(0, "the file begins with the mark of a byte order", b"");
    }
    if let Some(fault) = blank_fault(line, 2) {
        return fault;
    }
    let name = match field_behind(line, 0) {
        Some(name) => name.bytes,
        None => line,
    };
    if opcode_named(name).is_none() {
        return fault_at(0, "`%` is no name of an instruction", name);
    }
    arguments_fault(line)
}
