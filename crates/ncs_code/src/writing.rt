ghost use Rattle.std.specs.Prelude.{◌≡◌, ◌+◌, ◌<◌, ◌^◌, ◌∷◌, ◌++◌, [], length, OnOk, OnErr, All};
ghost use Rattle.ncs_code.specs.Plain.{plain, plain_lit};
ghost use Rattle.ncs_code.specs.Spelling.{Fits, HasRow, HasTextSize, IsByte, LitFits, spelling};
ghost use Rattle.ncs_code.specs.Spelling.{lit_spelling, literal_size, op_size, run_size, signed};
ghost use Rattle.ncs_code.specs.Spelling.{two, four};

use crate::instruction::{Lit, Op};
use crate::opcode::*;
use nwq_value::NoMemory;

/// Appends bytes, all or none.
fn put(out: &mut Vec<u8>, bytes: &[u8]) -> Result<(), NoMemory>
    ensures ok { OnOk result (out.new.items ≡ out.old.items ++ bytes.now) }
    ensures err { OnErr result (out.new.items ≡ out.old.items) }
{
    out.extend_from_slice(bytes)?;
    Ok(())
}

fn put_bare(out: &mut Vec<u8>, code: u8, kind: u8) -> Result<(), NoMemory>
    ensures ok { OnOk result (out.new.items ≡ out.old.items ++ code ∷ kind ∷ []) }
    ensures err { OnErr result (out.new.items ≡ out.old.items) }
{
    put(out, &[code, kind])
}

#[tactic(auto, unfolding(crate::specs::Spelling::signed))]
fn put_offset(out: &mut Vec<u8>, code: u8, kind: u8, offset: i32) -> Result<(), NoMemory>
    ensures ok { OnOk result (out.new.items ≡ out.old.items ++ code ∷ kind ∷ signed offset) }
    ensures err { OnErr result (out.new.items ≡ out.old.items) }
{
    let [a, b, c, d] = offset.cast_unsigned().to_be_bytes();
    put(out, &[code, kind, a, b, c, d])
}

#[tactic(auto, unfolding(crate::specs::Spelling::signed, crate::specs::Spelling::two))]
fn put_copy(out: &mut Vec<u8>, code: u8, offset: i32, size: u16) -> Result<(), NoMemory>
    ensures ok { OnOk result (out.new.items
        ≡ out.old.items ++ code ∷ 0x01 ∷ (signed offset ++ two size)) }
    ensures err { OnErr result (out.new.items ≡ out.old.items) }
{
    let [a, b, c, d] = offset.cast_unsigned().to_be_bytes();
    let [e, f] = size.to_be_bytes();
    put(out, &[code, 0x01, a, b, c, d, e, f])
}

#[tactic(auto, unfolding(crate::specs::Spelling::two))]
fn put_comparison(out: &mut Vec<u8>, code: u8, kind: u8, size: u16) -> Result<(), NoMemory>
    ensures ok { OnOk result (out.new.items ≡ out.old.items ++ code ∷ kind ∷ run_size kind size) }
    ensures err { OnErr result (out.new.items ≡ out.old.items) }
{
    if kind == 0x24 {
        let [a, b] = size.to_be_bytes();
        put(out, &[code, kind, a, b])
    } else {
        put(out, &[code, kind])
    }
}

#[tactic(auto, unfolding(crate::specs::Spelling::two))]
fn put_call(out: &mut Vec<u8>, routine: u16, count: u8) -> Result<(), NoMemory>
    ensures ok { OnOk result (out.new.items
        ≡ out.old.items ++ 0x05 ∷ 0x00 ∷ (two routine ++ count ∷ [])) }
    ensures err { OnErr result (out.new.items ≡ out.old.items) }
{
    let [a, b] = routine.to_be_bytes();
    put(out, &[ACTION, 0x00, a, b, count])
}

#[tactic(auto, unfolding(crate::specs::Spelling::two))]
fn put_destruct(out: &mut Vec<u8>, total: u16, offset: u16, size: u16) -> Result<(), NoMemory>
    ensures ok { OnOk result (out.new.items
        ≡ out.old.items ++ 0x21 ∷ 0x01 ∷ (two total ++ two offset ++ two size)) }
    ensures err { OnErr result (out.new.items ≡ out.old.items) }
{
    let [a, b] = total.to_be_bytes();
    let [c, d] = offset.to_be_bytes();
    let [e, f] = size.to_be_bytes();
    put(out, &[DESTRUCT, 0x01, a, b, c, d, e, f])
}

#[tactic(auto, unfolding(crate::specs::Spelling::four))]
fn put_state(out: &mut Vec<u8>, globals: u32, locals: u32) -> Result<(), NoMemory>
    ensures ok { OnOk result (out.new.items
        ≡ out.old.items ++ 0x2C ∷ 0x10 ∷ (four globals ++ four locals)) }
    ensures err { OnErr result (out.new.items ≡ out.old.items) }
{
    let [a, b, c, d] = globals.to_be_bytes();
    let [e, f, g, h] = locals.to_be_bytes();
    put(out, &[STORE_STATE, 0x10, a, b, c, d, e, f, g, h])
}

#[tactic(auto, unfolding(crate::specs::Spelling::two), using(crate::proofs::Pieces::taken_back))]
fn put_text(out: &mut Vec<u8>, text: &[u8]) -> Result<(), NoMemory>
    requires { length text.now < 2 ^ 16 }
    ensures ok { OnOk result (out.new.items
        ≡ out.old.items ++ 0x04 ∷ 0x05 ∷ (two (length text.now) ++ text.now)) }
    ensures err { OnErr result (out.new.items ≡ out.old.items) }
    ensures bytes { All IsByte text.now }
{
    let start = out.len();
    let [a, b] = (text.len() as u16).to_be_bytes();
    put(out, &[CONST, 0x05, a, b])?;
    match put(out, text) {
        Ok(()) => Ok(()),
        Err(error) => {
            out.truncate(start);
            Err(error)
        }
    }
}

#[tactic(auto, unfolding(crate::specs::Spelling::four, crate::specs::Spelling::signed))]
fn put_lit(out: &mut Vec<u8>, lit: Lit<'_>) -> Result<(), NoMemory>
    requires { HasTextSize (plain_lit lit) }
    ensures ok { OnOk result (out.new.items
        ≡ out.old.items ++ 0x04 ∷ lit_spelling (plain_lit lit.entry)) }
    ensures err { OnErr result (out.new.items ≡ out.old.items) }
    ensures fits { LitFits (plain_lit lit.entry) }
{
    match lit {
        Lit::Int(n) => put_offset(out, CONST, 0x03, n),
        Lit::Float(bytes) => put(out, &[CONST, 0x04, bytes[0], bytes[1], bytes[2], bytes[3]]),
        Lit::Text(text) => put_text(out, text),
        Lit::Object(n) => {
            let [a, b, c, d] = n.to_be_bytes();
            put(out, &[CONST, 0x06, a, b, c, d])
        }
    }
}

/// How many bytes stand for what CONST pushes, behind its type byte.
fn size_of_lit(lit: Lit<'_>) -> u32
    requires { HasTextSize (plain_lit lit) }
    ensures size { result ≡ literal_size (plain_lit lit.entry) }
    ensures bounded { result < 2 ^ 17 }
{
    match lit {
        Lit::Int(_) | Lit::Float(_) | Lit::Object(_) => 4,
        Lit::Text(text) => 2 + text.len() as u32,
    }
}

impl Op<'_> {
    /// How many bytes its spelling has.
    pub fn size(&self) -> u32
        requires { HasRow (plain self.now) }
        ensures { result ≡ op_size (plain self.now) }
    {
        match *self {
            Op::CpDownSp { .. }
            | Op::CpTopSp { .. }
            | Op::CpDownBp { .. }
            | Op::CpTopBp { .. }
            | Op::Destruct { .. } => 8,
            Op::Const(lit) => 2 + size_of_lit(lit),
            Op::Action { .. } => 5,
            Op::Equal { kind: 0x24, .. } | Op::Nequal { kind: 0x24, .. } => 4,
            Op::MovSp { .. }
            | Op::Jmp { .. }
            | Op::Jsr { .. }
            | Op::Jz { .. }
            | Op::Jnz { .. }
            | Op::DecISp { .. }
            | Op::IncISp { .. }
            | Op::DecIBp { .. }
            | Op::IncIBp { .. } => 6,
            Op::StoreState { .. } => 10,
            _ => 2,
        }
    }

    /// Appends its spelling. After `NoMemory` the bytes are as before.
    pub fn encode(&self, out: &mut Vec<u8>) -> Result<(), NoMemory>
        requires { HasRow (plain self.now) }
        ensures ok { OnOk result (out.new.items ≡ out.old.items ++ spelling (plain self.now)) }
        ensures err { OnErr result (out.new.items ≡ out.old.items) }
        // What is known of every instruction: its fields fit their bytes.
        ensures fits { Fits (plain self.now) }
    {
        let (code, kind) = (self.opcode(), self.kind());
        match *self {
            Op::CpDownSp { offset, size }
            | Op::CpTopSp { offset, size }
            | Op::CpDownBp { offset, size }
            | Op::CpTopBp { offset, size } => put_copy(out, code, offset, size),
            Op::Const(lit) => put_lit(out, lit),
            Op::Action { routine, count } => put_call(out, routine, count),
            Op::Equal { size, .. } | Op::Nequal { size, .. } => {
                put_comparison(out, code, kind, size)
            }
            Op::MovSp { offset }
            | Op::Jmp { offset }
            | Op::Jsr { offset }
            | Op::Jz { offset }
            | Op::Jnz { offset }
            | Op::DecISp { offset }
            | Op::IncISp { offset }
            | Op::DecIBp { offset }
            | Op::IncIBp { offset } => put_offset(out, code, kind, offset),
            Op::Destruct {
                total,
                offset,
                size,
            } => put_destruct(out, total, offset, size),
            Op::StoreState { globals, locals } => put_state(out, globals, locals),
            _ => put_bare(out, code, kind),
        }
    }
}
