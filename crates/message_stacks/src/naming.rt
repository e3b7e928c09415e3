use crate::words::put;
use ncs_code::{Lit, Op};
use nwq_value::NoMemory;

/// What two operands are, by the type byte.
fn two_words(kind: u8) -> &'static str {
    match kind {
        0x20 => " of two ints",
        0x21 => " of two floats",
        0x22 => " of two objects",
        0x23 => " of two strings",
        0x24 => " of two runs of cells",
        0x25 => " of an int and a float",
        0x26 => " of a float and an int",
        0x30 => " of two effects",
        0x31 => " of two events",
        0x32 => " of two locations",
        0x33 => " of two talents",
        0x3A => " of two vectors",
        0x3B => " of a vector and a float",
        0x3C => " of a float and a vector",
        _ => "",
    }
}

/// What one operand is, by the type byte.
fn one_words(kind: u8) -> &'static str {
    match kind {
        0x03 => " of an int",
        0x04 => " of a float",
        0x05 => " of a string",
        0x06 => " of an object",
        0x10 => " of an effect",
        0x11 => " of an event",
        0x12 => " of a location",
        0x13 => " of a talent",
        _ => "",
    }
}

/// Which operands an instruction has.
fn operands(op: &Op<'_>) -> &'static str {
    match op {
        Op::Equal { kind, size: _ } | Op::Nequal { kind, size: _ } => two_words(*kind),
        Op::Geq { kind } | Op::Gt { kind } | Op::Lt { kind } | Op::Leq { kind } => two_words(*kind),
        Op::Add { kind } | Op::Sub { kind } | Op::Mul { kind } | Op::Div { kind } => {
            two_words(*kind)
        }
        Op::RsAdd { kind } | Op::Neg { kind } => one_words(*kind),
        Op::Const(Lit::Float(_)) => " of a float",
        _ => "",
    }
}

/// Names an instruction: `ADD of two ints`.
pub(crate) fn put_name(out: &mut Vec<u8>, op: &Op<'_>) -> Result<(), NoMemory> {
    put(out, op.name())?;
    put(out, operands(op))
}

/// The types whose values are left out, by the type byte.
pub(crate) fn left_out(kind: u8) -> &'static str {
    match kind {
        0x04 | 0x21 | 0x25 | 0x26 => "floats are left out of this profile",
        0x3A | 0x3B | 0x3C => "vectors are left out of this profile",
        0x12 | 0x32 => "locations are left out of this profile",
        0x13 | 0x33 => "talents are left out of this profile",
        _ => "values of this type are left out of this profile",
    }
}
