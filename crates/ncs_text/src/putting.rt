//! The spelling of the instruction that a line stands for.

ghost use Rattle.std.specs.Prelude.{◌≡◌, ◌+◌, ◌*◌, ◌<◌, ◌≤◌, ◌^◌, ◌∷◌, ◌++◌, [], List, ℕ, length};
ghost use Rattle.std.specs.Prelude.{true, IfOk, IfSome, IsTrue, MatchOption};
ghost use Rattle.ncs_text.specs.Arguments.{AreArguments, AreFields, IsArgument, IsString};
ghost use Rattle.ncs_text.specs.Arguments.{argument_bytes};
ghost use Rattle.ncs_text.specs.Assembly.{IsRemark, Writes};
ghost use Rattle.ncs_text.specs.Steps.{Appends, IsRow, Puts, PutsOrStops, PutsSome, SpelledWhole};

use crate::argument::{Argument, arguments_of};
use crate::number::{four_bytes, hex_byte, number_below, offset_to, place_of, signed_number};
use ncs_code::{decode, one_name, opcode_named, size_laws};
use nwq_text::{cut, read_quoted};
use nwq_value::NoMemory;
use std::alloc::Global;

/// Appends bytes that were found.
fn put(out: &mut Vec<u8>, bytes: &[u8]) -> Result<bool, NoMemory>
    ensures puts { IfOk result (λ took.
        (took ≡ true) × (out.new.items ≡ out.old.items ++ bytes.now)) }
    ensures longer { IfOk result (λ _. length out.new.items
        ≡ length out.old.items + length bytes.now) }
{
    out.extend_from_slice(bytes)?;
    Ok(true)
}

/// Appends what the text of an argument stands for that is no string.
#[tactic(auto, unfolding(crate::specs::Arguments::argument_bytes, ncs_code::specs::Spelling::two, ncs_code::specs::Spelling::four, ncs_code::specs::Spelling::signed))]
fn put_number(out: &mut Vec<u8>, at: u64, argument: Argument, text: &[u8]) -> Result<bool, NoMemory>
    ensures puts { IfOk result (λ took.
        Puts (argument_bytes at argument text.now) out.old.items took out.new.items) }
    ensures few { IfOk result (λ _. length out.new.items ≤ length out.old.items + 4) }
{
    match argument {
        Argument::Signed => match signed_number(text) {
            None => Ok(false),
            Some(n) => put(out, &n.cast_unsigned().to_be_bytes()),
        },
        Argument::Byte => match number_below(text, 256) {
            None => Ok(false),
            Some(n) => put(out, &[n as u8]),
        },
        Argument::Short => match number_below(text, 65_536) {
            None => Ok(false),
            Some(n) => put(out, &(n as u16).to_be_bytes()),
        },
        Argument::Word => match number_below(text, 4_294_967_296) {
            None => Ok(false),
            Some(n) => put(out, &(n as u32).to_be_bytes()),
        },
        Argument::Place => match place_of(text) {
            None => Ok(false),
            Some(place) => put(out, &offset_to(at, place).cast_unsigned().to_be_bytes()),
        },
        Argument::Float => match four_bytes(text) {
            None => Ok(false),
            Some(bytes) => put(out, &bytes),
        },
        Argument::Text => Ok(false),
    }
}

/// Appends a string behind its length.
#[tactic(auto, unfolding(ncs_code::specs::Spelling::two))]
fn put_string(alloc: Global, out: &mut Vec<u8>, text: &[u8]) -> Result<bool, NoMemory>
    ensures string { IfOk result (λ took.
        Appends (IsString text.now) out.old.items took out.new.items) }
    ensures few { IfOk result (λ _. length out.new.items ≤ length out.old.items + 65537) }
{
    let Some(string) = read_quoted(alloc, text)? else {
        return Ok(false);
    };
    if string.len() >= 65_536 {
        return Ok(false);
    }
    out.extend_from_slice(&(string.len() as u16).to_be_bytes())?;
    out.extend_from_slice(string.as_slice())?;
    Ok(true)
}

/// Appends the bytes of an argument.
fn put_argument(
    alloc: Global,
    out: &mut Vec<u8>,
    at: u64,
    argument: Argument,
    text: &[u8],
) -> Result<bool, NoMemory>
    ensures argument { IfOk result (λ took.
        Appends (IsArgument at argument text.now) out.old.items took out.new.items) }
    ensures few { IfOk result (λ _. length out.new.items ≤ length out.old.items + 65537) }
{
    match argument {
        Argument::Text => put_string(alloc, out, text),
        _ => put_number(out, at, argument, text),
    }
}

/// Appends the bytes of an argument and of those behind it.
fn put_fields(
    alloc: Global,
    out: &mut Vec<u8>,
    at: u64,
    argument: Argument,
    others: &[Argument],
    text: &[u8],
) -> Result<bool, NoMemory>
    ensures fields { IfOk result (λ took.
        Appends (AreFields at argument others.now text.now) out.old.items took out.new.items) }
    ensures few { IfOk result (λ _. length out.new.items
        ≤ length out.old.items + 65537 * (length others.now + 1)) }
{
    let Some((next, more)) = others.split_first() else {
        let took = put_argument(alloc, out, at, argument, text)?;
        return Ok(took);
    };
    let Some((field, rest)) = cut(text, b' ') else {
        return Ok(false);
    };
    if !put_argument(alloc, out, at, argument, field)? {
        return Ok(false);
    }
    let took = put_fields(alloc, out, at, *next, more, rest)?;
    Ok(took)
}

/// What stands behind a space.
fn behind_space(text: &[u8]) -> Option<&[u8]>
    ensures { MatchOption result ((fields : List ℕ) → text.now ≡ 32 ∷ fields → ⊥)
        (λ fields. text.now ≡ 32 ∷ fields.now) }
{
    let (first, fields) = text.split_first()?;
    if *first == b' ' { Some(fields) } else { None }
}

/// Appends the bytes of all arguments.
fn put_arguments(
    alloc: Global,
    out: &mut Vec<u8>,
    at: u64,
    arguments: &[Argument],
    text: &[u8],
) -> Result<bool, NoMemory>
    ensures arguments { IfOk result (λ took.
        Appends (AreArguments at arguments.now text.now) out.old.items took out.new.items) }
    ensures few { IfOk result (λ _. length out.new.items
        ≤ length out.old.items + 65537 * length arguments.now) }
{
    let Some((argument, others)) = arguments.split_first() else {
        return Ok(text.is_empty());
    };
    let Some(fields) = behind_space(text) else {
        return Ok(false);
    };
    let took = put_fields(alloc, out, at, *argument, others, fields)?;
    Ok(took)
}

/// The size of the instruction that these bytes spell, with nothing behind it.
fn size_of(bytes: &[u8]) -> Option<u32>
    requires some { 0 < length bytes.now }
    requires bounded { length bytes.now < 2 ^ 18 }
    ensures whole { SpelledWhole bytes.now result }
    ensures few { IfSome result (λ size. size < 2 ^ 18) }
{
    size_laws();
    match decode(bytes, 0) {
        Err(_) => None,
        Ok((_op, size)) => if size as usize == bytes.len() {
            Some(size)
        } else {
            None
        },
    }
}

/// Appends the instruction of a row whose arguments are these.
fn put_row(
    alloc: Global,
    out: &mut Vec<u8>,
    at: u64,
    code: u8,
    kind: u8,
    text: &[u8],
) -> Result<Option<u32>, NoMemory>
    ensures puts { IfOk result (λ size.
        PutsSome (IsRow at code kind text.now) out.old.items out.new.items size) }
    ensures few { IfOk result (λ size. IfSome size (λ n. n < 2 ^ 18)) }
{
    size_laws();
    let start = out.len();
    out.extend_from_slice(&[code, kind])?;
    if !put_arguments(alloc, out, at, arguments_of(code, kind), text)? {
        return Ok(None);
    }
    let spelled = &out.as_slice()[start..];
    Ok(size_of(spelled))
}

/// Appends the instruction that a line stands for.
fn put_op(alloc: Global, out: &mut Vec<u8>, at: u64, line: &[u8]) -> Result<Option<u32>, NoMemory>
    ensures puts { IfOk result (λ size.
        PutsSome (Writes at line.now) out.old.items out.new.items size) }
    ensures few { IfOk result (λ size. IfSome size (λ n. n < 2 ^ 18)) }
{
    one_name();
    let Some((name, rest)) = cut(line, b' ') else {
        return Ok(None);
    };
    let Some(code) = opcode_named(name) else {
        return Ok(None);
    };
    let Some((high, rest)) = rest.split_first() else {
        return Ok(None);
    };
    let Some((low, text)) = rest.split_first() else {
        return Ok(None);
    };
    let Some(kind) = hex_byte(*high, *low) else {
        return Ok(None);
    };
    let size = put_row(alloc, out, at, code, kind, text)?;
    Ok(size)
}

/// Does the line stand for nothing?
fn is_remark(line: &[u8]) -> bool
    ensures yes { IsTrue result → IsRemark line.now }
    ensures no { IsRemark line.now → IsTrue result }
{
    match line {
        [] => true,
        [first, ..] => *first == b';',
    }
}

/// Appends the instruction that a line stands for, if it isn't passed over.
pub(crate) fn put_line(
    alloc: Global,
    out: &mut Vec<u8>,
    at: u64,
    line: &[u8],
) -> Result<Option<u32>, NoMemory>
    ensures puts { IfOk result (λ size.
        PutsOrStops at line.now out.old.items out.new.items size) }
    ensures few { IfOk result (λ size. IfSome size (λ n. n < 2 ^ 18)) }
{
    size_laws();
    if is_remark(line) {
        return Ok(Some(0));
    }
    let size = put_op(alloc, out, at, line)?;
    Ok(size)
}
