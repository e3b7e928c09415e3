//! The one list of opcodes.

pub(crate) const CPDOWNSP: u8 = 0x01;

pub(crate) const RSADD: u8 = 0x02;

pub(crate) const CPTOPSP: u8 = 0x03;

pub(crate) const CONST: u8 = 0x04;

pub(crate) const ACTION: u8 = 0x05;

pub(crate) const LOGAND: u8 = 0x06;

pub(crate) const LOGOR: u8 = 0x07;

pub(crate) const INCOR: u8 = 0x08;

pub(crate) const EXCOR: u8 = 0x09;

pub(crate) const BOOLAND: u8 = 0x0A;

pub(crate) const EQUAL: u8 = 0x0B;

pub(crate) const NEQUAL: u8 = 0x0C;

pub(crate) const GEQ: u8 = 0x0D;

pub(crate) const GT: u8 = 0x0E;

pub(crate) const LT: u8 = 0x0F;

pub(crate) const LEQ: u8 = 0x10;

pub(crate) const SHLEFT: u8 = 0x11;

pub(crate) const SHRIGHT: u8 = 0x12;

pub(crate) const USHRIGHT: u8 = 0x13;

pub(crate) const ADD: u8 = 0x14;

pub(crate) const SUB: u8 = 0x15;

pub(crate) const MUL: u8 = 0x16;

pub(crate) const DIV: u8 = 0x17;

pub(crate) const MOD: u8 = 0x18;

pub(crate) const NEG: u8 = 0x19;

pub(crate) const COMP: u8 = 0x1A;

pub(crate) const MOVSP: u8 = 0x1B;

/// What the engine's own list has here, an instruction that kept the whole stack, is in no file.
pub(crate) const NO_OPCODE: u8 = 0x1C;

pub(crate) const JMP: u8 = 0x1D;

pub(crate) const JSR: u8 = 0x1E;

pub(crate) const JZ: u8 = 0x1F;

pub(crate) const RETN: u8 = 0x20;

pub(crate) const DESTRUCT: u8 = 0x21;

pub(crate) const NOT: u8 = 0x22;

pub(crate) const DECISP: u8 = 0x23;

pub(crate) const INCISP: u8 = 0x24;

pub(crate) const JNZ: u8 = 0x25;

pub(crate) const CPDOWNBP: u8 = 0x26;

pub(crate) const CPTOPBP: u8 = 0x27;

pub(crate) const DECIBP: u8 = 0x28;

pub(crate) const INCIBP: u8 = 0x29;

pub(crate) const SAVEBP: u8 = 0x2A;

pub(crate) const RESTOREBP: u8 = 0x2B;

pub(crate) const STORE_STATE: u8 = 0x2C;

pub(crate) const NOP: u8 = 0x2D;
