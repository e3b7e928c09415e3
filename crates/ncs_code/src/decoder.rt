ghost use Rattle.std.specs.Prelude.{◌≡◌, ◌≢◌, ◌+◌, ◌<◌, ◌≤◌, ◌∷◌, ◌++◌, ◌↔◌, List, ℕ, length, take};
ghost use Rattle.std.specs.Prelude.{drop, Some, None, IfOk, IsOkAnd, MatchResult, IsTrue};
ghost use Rattle.nwq_value.specs.Limits.{file_limit};
ghost use Rattle.ncs_code.specs.Plain.{PlainOp, plain};
ghost use Rattle.ncs_code.specs.Spelling.{IsOp, Spells, spelling, op_size, fault_of, is_opcode};
ghost use Rattle.ncs_code.specs.Spelling.{has_type, args_size, lit_size};

use crate::arguments::{call_at, copy_at, kept_at, lit_at, offset_at, run_size_at, state_at};
use crate::fault::CodeFault;
use crate::instruction::Op;
use crate::opcode::*;

fn is_code(code: u8) -> bool
    ensures { result ≡ is_opcode code }
{
    (CPDOWNSP..=NOP).contains(&code) && code != NO_OPCODE
}

/// Does the row of this opcode have this type byte?
#[tactic(auto, unfolding(crate::specs::Spelling::has_type))]
fn has_kind(code: u8, kind: u8) -> bool
    requires { IsTrue (is_opcode code) }
    ensures { result ≡ has_type code kind }
{
    match code {
        RSADD => matches!(kind, 0x03..=0x06 | 0x10..=0x19),
        CONST => matches!(kind, 0x03..=0x06),
        EQUAL | NEQUAL => matches!(kind, 0x20..=0x24 | 0x30..=0x39),
        GEQ | GT | LT | LEQ => matches!(kind, 0x20 | 0x21),
        ADD => matches!(kind, 0x20 | 0x21 | 0x23 | 0x25 | 0x26),
        SUB | MUL | DIV => matches!(kind, 0x20 | 0x21 | 0x25 | 0x26),
        NEG => matches!(kind, 0x03 | 0x04),
        CPDOWNSP | CPTOPSP | CPDOWNBP | CPTOPBP | DESTRUCT => kind == 0x01,
        LOGAND | LOGOR | INCOR | EXCOR | BOOLAND | SHLEFT | SHRIGHT | USHRIGHT | MOD => kind
            == 0x20,
        COMP | NOT | DECISP | INCISP | DECIBP | INCIBP => kind == 0x03,
        STORE_STATE => kind == 0x10,
        _ => kind == 0x00,
    }
}

/// How many bytes the argument of CONST takes.
#[tactic(auto, unfolding(crate::specs::Spelling::first_two))]
fn size_of_lit(kind: u8, args: &[u8]) -> usize
    ensures { result ≡ lit_size kind args.now }
{
    if kind != 0x05 {
        return 4;
    }
    if args.len() < 2 {
        return 2;
    }
    2 + u16::from_be_bytes([args[0], args[1]]) as usize
}

/// How many bytes the arguments take.
#[tactic(auto, unfolding(crate::specs::Spelling::args_size))]
fn size_of_args(code: u8, kind: u8, args: &[u8]) -> usize
    requires { IsTrue (is_opcode code) }
    ensures { result ≡ args_size code kind args.now }
{
    match code {
        CPDOWNSP | CPTOPSP | CPDOWNBP | CPTOPBP | DESTRUCT => 6,
        CONST => size_of_lit(kind, args),
        ACTION => 3,
        EQUAL | NEQUAL => if kind == 0x24 { 2 } else { 0 },
        MOVSP | JMP | JSR | JZ | JNZ | DECISP | INCISP | DECIBP | INCIBP => 4,
        STORE_STATE => 8,
        _ => 0,
    }
}

/// The instruction of a row, where its arguments are there.
#[tactic(auto, unfolding(crate::specs::Spelling::has_type, crate::specs::Spelling::args_size))]
fn op_of(code: u8, kind: u8, args: &[u8]) -> Op<'_>
    requires first { 1 ≤ code }
    requires last { code ≤ 0x2D }
    requires gap { code ≢ 0x1C }
    requires type_byte { IsTrue (has_type code kind) }
    requires long { args_size code kind args.now ≤ length args.now }
    ensures spelled { spelling (plain result)
        ≡ code ∷ kind ∷ take (args_size code kind args.now) args.now }
    ensures is_op { IsOp (plain result) }
{
    match code {
        CPDOWNSP => {
            let (offset, size) = copy_at(args);
            Op::CpDownSp { offset, size }
        }
        RSADD => Op::RsAdd { kind },
        CPTOPSP => {
            let (offset, size) = copy_at(args);
            Op::CpTopSp { offset, size }
        }
        CONST => Op::Const(lit_at(kind, args)),
        ACTION => {
            let (routine, count) = call_at(args);
            Op::Action { routine, count }
        }
        LOGAND => Op::LogAnd,
        LOGOR => Op::LogOr,
        INCOR => Op::IncOr,
        EXCOR => Op::ExcOr,
        BOOLAND => Op::BoolAnd,
        EQUAL => Op::Equal {
            kind,
            size: run_size_at(kind, args),
        },
        NEQUAL => Op::Nequal {
            kind,
            size: run_size_at(kind, args),
        },
        GEQ => Op::Geq { kind },
        GT => Op::Gt { kind },
        LT => Op::Lt { kind },
        LEQ => Op::Leq { kind },
        SHLEFT => Op::ShLeft,
        SHRIGHT => Op::ShRight,
        USHRIGHT => Op::UshRight,
        ADD => Op::Add { kind },
        SUB => Op::Sub { kind },
        MUL => Op::Mul { kind },
        DIV => Op::Div { kind },
        MOD => Op::Mod,
        NEG => Op::Neg { kind },
        COMP => Op::Comp,
        MOVSP => Op::MovSp {
            offset: offset_at(args),
        },
        JMP => Op::Jmp {
            offset: offset_at(args),
        },
        JSR => Op::Jsr {
            offset: offset_at(args),
        },
        JZ => Op::Jz {
            offset: offset_at(args),
        },
        RETN => Op::Retn,
        DESTRUCT => {
            let (total, offset, size) = kept_at(args);
            Op::Destruct {
                total,
                offset,
                size,
            }
        }
        NOT => Op::Not,
        DECISP => Op::DecISp {
            offset: offset_at(args),
        },
        INCISP => Op::IncISp {
            offset: offset_at(args),
        },
        JNZ => Op::Jnz {
            offset: offset_at(args),
        },
        CPDOWNBP => {
            let (offset, size) = copy_at(args);
            Op::CpDownBp { offset, size }
        }
        CPTOPBP => {
            let (offset, size) = copy_at(args);
            Op::CpTopBp { offset, size }
        }
        DECIBP => Op::DecIBp {
            offset: offset_at(args),
        },
        INCIBP => Op::IncIBp {
            offset: offset_at(args),
        },
        SAVEBP => Op::SaveBp,
        RESTOREBP => Op::RestoreBp,
        STORE_STATE => {
            let (globals, locals) = state_at(args);
            Op::StoreState { globals, locals }
        }
        NOP => Op::Nop,
        _ => unreachable!(),
    }
}

/// The instruction that the bytes begin with.
#[tactic(auto, unfolding(crate::specs::Spelling::fault_of))]
fn decode_prefix(bytes: &[u8]) -> Result<(Op<'_>, u32), CodeFault>
    requires some { 0 < length bytes.now }
    requires bounded { length bytes.now ≤ file_limit }
    ensures is_op { IfOk result (λ x. IsOp (plain x.0)) }
    ensures prefix { IfOk result (λ x. bytes.now ≡ spelling (plain x.0) ++ drop x.1 bytes.now) }
    ensures length { IfOk result (λ x. x.1 ≡ length (spelling (plain x.0))) }
    ensures fault { MatchResult result (λ _. fault_of bytes.now ≡ None)
        (λ fault. fault_of bytes.now ≡ Some fault) }
{
    let code = bytes[0];
    if !is_code(code) {
        return Err(CodeFault::Opcode);
    }
    if bytes.len() < 2 {
        return Err(CodeFault::Short);
    }
    let kind = bytes[1];
    if !has_kind(code, kind) {
        return Err(CodeFault::TypeByte);
    }
    let args = &bytes[2..];
    let size = size_of_args(code, kind, args);
    if args.len() < size {
        return Err(CodeFault::Short);
    }
    Ok((op_of(code, kind, args), 2 + size as u32))
}

/// The instruction that begins at a place, and how many bytes it takes.
pub fn decode(bytes: &[u8], at: u32) -> Result<(Op<'_>, u32), CodeFault>
    requires inside { at < length bytes.now }
    requires bounded { length bytes.now ≤ file_limit }

    // What is decoded is spelled there.
    ensures found { IfOk result (λ x. Spells (plain x.0) x.1 (drop at bytes.now)) }
    // What is spelled there is decoded, whatever follows.
    ensures only { (op : PlainOp) (rest : List ℕ) → IsOp op →
        drop at bytes.now ≡ spelling op ++ rest →
        IsOkAnd result (λ x. (plain x.0 ≡ op) × (x.1 ≡ op_size op)) }
    // The fault is the first that there is.
    ensures fault { MatchResult result (λ _. fault_of (drop at bytes.now) ≡ None)
        (λ fault. fault_of (drop at bytes.now) ≡ Some fault) }
{
    decode_prefix(&bytes[at as usize..])
}
