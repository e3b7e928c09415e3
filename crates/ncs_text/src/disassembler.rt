//! From a file to its text.

ghost use Rattle.std.specs.Prelude.{◌≡◌, ◌<◌, ◌^◌, ◌∷◌, ◌++◌, [], IfOk, OnOk};
ghost use Rattle.std.specs.List.{flat_map};
ghost use Rattle.ncs_code.specs.Plain.{plain, plain_lit};
ghost use Rattle.nwq_text.specs.Escape.{hex_digit, quoted};
ghost use Rattle.ncs_text.specs.Assembly.{hex_pair};
ghost use Rattle.ncs_text.specs.Listing.{arguments_text, copied, literal_text, listing, number};
ghost use Rattle.ncs_text.specs.Listing.{op_line, run_size, signed_text, target};

use ncs_code::{HEADER_BYTES, Lit, Op, jump_place, place_laws, size_laws};
use ncs_file::Code;
use nwq_text::{put_count, put_quoted};
use nwq_value::NoMemory;
use std::alloc::Global;

fn hex_digit_of(value: u8) -> u8
    requires { value < 16 }
    ensures { result ≡ hex_digit value }
{
    if value < 10 {
        b'0' + value
    } else {
        b'a' + (value - 10)
    }
}

fn put_hex(out: &mut Vec<u8>, byte: u8) -> Result<(), NoMemory>
    ensures { OnOk result (out.new.items ≡ out.old.items ++ hex_pair byte) }
{
    out.extend_from_slice(&[hex_digit_of(byte / 16), hex_digit_of(byte % 16)])?;
    Ok(())
}

fn put_number(out: &mut Vec<u8>, n: u32) -> Result<(), NoMemory>
    ensures { OnOk result (out.new.items ≡ out.old.items ++ number n) }
{
    out.push(b' ')?;
    put_count(out, u64::from(n))
}

fn put_signed(out: &mut Vec<u8>, n: i32) -> Result<(), NoMemory>
    ensures { OnOk result (out.new.items ≡ out.old.items ++ signed_text n) }
{
    out.push(b' ')?;
    nwq_text::put_number(out, i64::from(n))
}

fn put_target(out: &mut Vec<u8>, at: u32, offset: i32) -> Result<(), NoMemory>
    requires { at < 2 ^ 31 }
    ensures { OnOk result (out.new.items ≡ out.old.items ++ target at offset) }
{
    out.extend_from_slice(b" @")?;
    put_count(out, u64::from(jump_place(at, offset)))
}

fn put_copied(out: &mut Vec<u8>, offset: i32, size: u16) -> Result<(), NoMemory>
    ensures { OnOk result (out.new.items ≡ out.old.items ++ copied offset size) }
{
    put_signed(out, offset)?;
    put_number(out, u32::from(size))
}

fn put_run_size(out: &mut Vec<u8>, kind: u8, size: u16) -> Result<(), NoMemory>
    ensures { OnOk result (out.new.items ≡ out.old.items ++ run_size kind size) }
{
    if kind == 0x24 {
        put_number(out, u32::from(size))
    } else {
        Ok(())
    }
}

fn put_float(out: &mut Vec<u8>, bytes: [u8; 4]) -> Result<(), NoMemory>
    ensures { OnOk result (out.new.items ≡ out.old.items ++ 32 ∷ flat_map hex_pair bytes) }
{
    out.push(b' ')?;
    put_hex(out, bytes[0])?;
    put_hex(out, bytes[1])?;
    put_hex(out, bytes[2])?;
    put_hex(out, bytes[3])
}

fn put_string(out: &mut Vec<u8>, text: &[u8]) -> Result<(), NoMemory>
    ensures { OnOk result (out.new.items ≡ out.old.items ++ 32 ∷ quoted text.now) }
{
    out.push(b' ')?;
    put_quoted(out, text)
}

fn put_literal(out: &mut Vec<u8>, lit: Lit<'_>) -> Result<(), NoMemory>
    ensures { OnOk result (out.new.items ≡ out.old.items ++ literal_text (plain_lit lit.entry)) }
{
    match lit {
        Lit::Int(n) => put_signed(out, n),
        Lit::Float(bytes) => put_float(out, bytes),
        Lit::Text(text) => put_string(out, text),
        Lit::Object(n) => put_number(out, n),
    }
}

fn put_numbers(out: &mut Vec<u8>, a: u32, b: u32) -> Result<(), NoMemory>
    ensures { OnOk result (out.new.items ≡ out.old.items ++ (number a ++ number b)) }
{
    put_number(out, a)?;
    put_number(out, b)
}

fn put_kept(out: &mut Vec<u8>, total: u16, offset: u16, size: u16) -> Result<(), NoMemory>
    ensures { OnOk result (out.new.items
        ≡ out.old.items ++ (number total ++ (number offset ++ number size))) }
{
    put_number(out, u32::from(total))?;
    put_numbers(out, u32::from(offset), u32::from(size))
}

/// Appends the arguments of an instruction.
fn put_arguments(out: &mut Vec<u8>, at: u32, op: &Op<'_>) -> Result<(), NoMemory>
    requires { at < 2 ^ 31 }
    ensures { OnOk result (out.new.items
        ≡ out.old.items ++ arguments_text at (plain op.now)) }
{
    match *op {
        Op::CpDownSp { offset, size }
        | Op::CpTopSp { offset, size }
        | Op::CpDownBp { offset, size }
        | Op::CpTopBp { offset, size } => put_copied(out, offset, size),
        Op::Const(lit) => put_literal(out, lit),
        Op::Action { routine, count } => put_numbers(out, u32::from(routine), u32::from(count)),
        Op::Equal { kind, size } | Op::Nequal { kind, size } => put_run_size(out, kind, size),
        Op::MovSp { offset }
        | Op::DecISp { offset }
        | Op::IncISp { offset }
        | Op::DecIBp { offset }
        | Op::IncIBp { offset } => put_signed(out, offset),
        Op::Jmp { offset } | Op::Jsr { offset } | Op::Jz { offset } | Op::Jnz { offset } => {
            put_target(out, at, offset)
        }
        Op::Destruct {
            total,
            offset,
            size,
        } => put_kept(out, total, offset, size),
        Op::StoreState { globals, locals } => put_numbers(out, globals, locals),
        _ => Ok(()),
    }
}

/// Appends the line of an instruction.
#[tactic(auto, unfolding(crate::specs::Listing::op_line))]
fn put_line(out: &mut Vec<u8>, at: u32, op: &Op<'_>) -> Result<(), NoMemory>
    requires { at < 2 ^ 31 }
    ensures { OnOk result (out.new.items ≡ out.old.items ++ op_line at (plain op.now)) }
{
    out.extend_from_slice(op.name().as_bytes())?;
    out.push(b' ')?;
    put_hex(out, op.kind())?;
    put_arguments(out, at, op)?;
    out.push(b'\n')?;
    Ok(())
}

/// The text of a file: a line for each instruction.
pub fn disassemble(alloc: Global, code: &Code) -> Result<Vec<u8>, NoMemory>
    ensures text { IfOk result (λ text. text.items ≡ listing code.now) }
{
    size_laws();
    place_laws();
    code.sound();
    let mut text = Vec::new(alloc);
    let mut at = HEADER_BYTES as u32;
    while let Some((op, size)) = code.op_at(at) {
        put_line(&mut text, at, &op)?;
        at += size;
    }
    Ok(text)
}
