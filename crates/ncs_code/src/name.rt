//! Opcodes, type bytes and names of instructions.

ghost use Rattle.std.specs.Prelude.{◌≡◌, ◌≢◌, ◌≤◌, ◌∷◌, ◌↔◌, [], take, IsTrue};
ghost use Rattle.ncs_code.specs.Plain.{Const, plain, plain_lit};
ghost use Rattle.ncs_code.specs.Spelling.{is_opcode, opcode, spelling, type_byte};
ghost use Rattle.ncs_code.specs.Names.{IsNamed, name_at, name_of};

use crate::instruction::{Lit, Op};
use crate::opcode::*;

/// The one list of names.
fn name_at(code: u8) -> &'static str
    requires first { 1 ≤ code }
    requires last { code ≤ 0x2D }
    requires gap { code ≢ 0x1C }
    ensures { result.now ≡ name_at code }
{
    match code {
        CPDOWNSP => "CPDOWNSP",
        RSADD => "RSADD",
        CPTOPSP => "CPTOPSP",
        CONST => "CONST",
        ACTION => "ACTION",
        LOGAND => "LOGAND",
        LOGOR => "LOGOR",
        INCOR => "INCOR",
        EXCOR => "EXCOR",
        BOOLAND => "BOOLAND",
        EQUAL => "EQUAL",
        NEQUAL => "NEQUAL",
        GEQ => "GEQ",
        GT => "GT",
        LT => "LT",
        LEQ => "LEQ",
        SHLEFT => "SHLEFT",
        SHRIGHT => "SHRIGHT",
        USHRIGHT => "USHRIGHT",
        ADD => "ADD",
        SUB => "SUB",
        MUL => "MUL",
        DIV => "DIV",
        MOD => "MOD",
        NEG => "NEG",
        COMP => "COMP",
        MOVSP => "MOVSP",
        JMP => "JMP",
        JSR => "JSR",
        JZ => "JZ",
        RETN => "RETN",
        DESTRUCT => "DESTRUCT",
        NOT => "NOT",
        DECISP => "DECISP",
        INCISP => "INCISP",
        JNZ => "JNZ",
        CPDOWNBP => "CPDOWNBP",
        CPTOPBP => "CPTOPBP",
        DECIBP => "DECIBP",
        INCIBP => "INCIBP",
        SAVEBP => "SAVEBP",
        RESTOREBP => "RESTOREBP",
        STORE_STATE => "STORE_STATE",
        NOP => "NOP",
        _ => unreachable!(),
    }
}

fn kind_of_lit(lit: Lit<'_>) -> u8
    ensures { 0x04 ∷ result ∷ [] ≡ take 2 (spelling (Const (plain_lit lit.entry))) }
{
    match lit {
        Lit::Int(_) => 0x03,
        Lit::Float(_) => 0x04,
        Lit::Text(_) => 0x05,
        Lit::Object(_) => 0x06,
    }
}

impl Op<'_> {
    /// The first byte of its spelling.
    pub fn opcode(&self) -> u8
        ensures { result ≡ opcode (plain self.now) }
    {
        match *self {
            Op::CpDownSp { .. } => CPDOWNSP,
            Op::RsAdd { .. } => RSADD,
            Op::CpTopSp { .. } => CPTOPSP,
            Op::Const(_) => CONST,
            Op::Action { .. } => ACTION,
            Op::LogAnd => LOGAND,
            Op::LogOr => LOGOR,
            Op::IncOr => INCOR,
            Op::ExcOr => EXCOR,
            Op::BoolAnd => BOOLAND,
            Op::Equal { .. } => EQUAL,
            Op::Nequal { .. } => NEQUAL,
            Op::Geq { .. } => GEQ,
            Op::Gt { .. } => GT,
            Op::Lt { .. } => LT,
            Op::Leq { .. } => LEQ,
            Op::ShLeft => SHLEFT,
            Op::ShRight => SHRIGHT,
            Op::UshRight => USHRIGHT,
            Op::Add { .. } => ADD,
            Op::Sub { .. } => SUB,
            Op::Mul { .. } => MUL,
            Op::Div { .. } => DIV,
            Op::Mod => MOD,
            Op::Neg { .. } => NEG,
            Op::Comp => COMP,
            Op::MovSp { .. } => MOVSP,
            Op::Jmp { .. } => JMP,
            Op::Jsr { .. } => JSR,
            Op::Jz { .. } => JZ,
            Op::Retn => RETN,
            Op::Destruct { .. } => DESTRUCT,
            Op::Not => NOT,
            Op::DecISp { .. } => DECISP,
            Op::IncISp { .. } => INCISP,
            Op::Jnz { .. } => JNZ,
            Op::CpDownBp { .. } => CPDOWNBP,
            Op::CpTopBp { .. } => CPTOPBP,
            Op::DecIBp { .. } => DECIBP,
            Op::IncIBp { .. } => INCIBP,
            Op::SaveBp => SAVEBP,
            Op::RestoreBp => RESTOREBP,
            Op::StoreState { .. } => STORE_STATE,
            Op::Nop => NOP,
        }
    }

    /// The second byte of its spelling: the type byte.
    pub fn kind(&self) -> u8
        ensures { result ≡ type_byte (plain self.now) }
    {
        match *self {
            Op::RsAdd { kind }
            | Op::Equal { kind, .. }
            | Op::Nequal { kind, .. }
            | Op::Geq { kind }
            | Op::Gt { kind }
            | Op::Lt { kind }
            | Op::Leq { kind }
            | Op::Add { kind }
            | Op::Sub { kind }
            | Op::Mul { kind }
            | Op::Div { kind }
            | Op::Neg { kind } => kind,
            Op::Const(lit) => kind_of_lit(lit),
            Op::CpDownSp { .. }
            | Op::CpTopSp { .. }
            | Op::CpDownBp { .. }
            | Op::CpTopBp { .. }
            | Op::Destruct { .. } => 0x01,
            Op::Comp
            | Op::Not
            | Op::DecISp { .. }
            | Op::IncISp { .. }
            | Op::DecIBp { .. }
            | Op::IncIBp { .. } => 0x03,
            Op::StoreState { .. } => 0x10,
            Op::LogAnd
            | Op::LogOr
            | Op::IncOr
            | Op::ExcOr
            | Op::BoolAnd
            | Op::ShLeft
            | Op::ShRight
            | Op::UshRight
            | Op::Mod => 0x20,
            Op::Action { .. }
            | Op::MovSp { .. }
            | Op::Jmp { .. }
            | Op::Jsr { .. }
            | Op::Jz { .. }
            | Op::Jnz { .. }
            | Op::Retn
            | Op::SaveBp
            | Op::RestoreBp
            | Op::Nop => 0x00,
        }
    }

    /// Its name, which tells its opcode.
    pub fn name(&self) -> &'static str
        ensures { result.now ≡ name_of (plain self.now) }
    {
        name_at(self.opcode())
    }
}

/// Is this an opcode whose instructions have this name?
fn has_name(code: u8, name: &[u8]) -> bool
    requires first { 1 ≤ code }
    requires last { code ≤ 0x2D }
    ensures { IsTrue result ↔ (IsTrue (is_opcode code) × (name_at code ≡ name.now)) }
{
    code != NO_OPCODE && name_at(code).as_bytes() == name
}

/// The opcode of the instructions with this name.

pub fn opcode_named(name: &[u8]) -> Option<u8>
    ensures opcode { IsNamed name.now result }
{
    for code in CPDOWNSP..=NOP {
        if has_name(code, name) {
            return Some(code);
        }
    }
    None
}
