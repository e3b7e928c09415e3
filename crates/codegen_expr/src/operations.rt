//! The instruction of each operation.

ghost use Rattle.std.specs.Prelude.{◌≡◌, ◌++◌, ◌≤◌, OnOk};
ghost use Rattle.nwq_value.specs.Limits.{struct_cell_limit};
ghost use Rattle.emission_rules.specs.Bounds.{IsOperator};
ghost use Rattle.emission_rules.specs.Operations as operations;
ghost use Rattle.emission_rules.specs.Expressions as code;
ghost use Rattle.ncs_code.specs.Plain.{plain};
ghost use Rattle.ncs_code.specs.Spelling.{HasRow};
ghost use Rattle.codegen_expr.specs.Parts.{plain_shortcut, prefix_behind};

use crate::lines::bytes_of;
use ncs_code::Op;
use ncs_emit::Emitter;
use nss_tree::{AssignOperator, BinaryOperator, PrefixOperator};
use nwq_value::{NoMemory, Ty};

/// Of two ints.
const INTS: u8 = 0x20;

/// The type byte of two values that are compared.
fn comparison_kind(ty: Ty) -> u8
    ensures { result ≡ operations.comparison_kind ty }
{
    match ty {
        Ty::Int => 0x20,
        Ty::Object => 0x22,
        Ty::Text => 0x23,
        Ty::Struct(_) => 0x24,
        Ty::Effect => 0x30,
        Ty::Event => 0x31,
        Ty::Void | Ty::Action | Ty::Refused => 0,
    }
}

/// Only two structs are compared with their size, in bytes.
fn comparison_size(ty: Ty, cells: u32) -> u16
    requires few { cells ≤ struct_cell_limit }
    ensures { result ≡ operations.comparison_size ty cells }
{
    match ty {
        Ty::Struct(_) => bytes_of(cells),
        Ty::Void
        | Ty::Int
        | Ty::Text
        | Ty::Object
        | Ty::Effect
        | Ty::Event
        | Ty::Action
        | Ty::Refused => 0,
    }
}

/// The type byte of a sum.
fn sum_kind(ty: Ty) -> u8
    ensures { result ≡ operations.sum_kind ty }
{
    match ty {
        Ty::Text => 0x23,
        Ty::Void
        | Ty::Int
        | Ty::Object
        | Ty::Effect
        | Ty::Event
        | Ty::Action
        | Ty::Struct(_)
        | Ty::Refused => 0x20,
    }
}

/// The operation on two values of a type that has so many cells.
#[tactic(auto, using(crate::proofs::Rows::rows), unfolding(ncs_code::specs::Spelling::has_type))]
pub(crate) fn operation(operator: BinaryOperator, ty: Ty, cells: u32) -> Op<'static>
    requires few { cells ≤ struct_cell_limit }
    requires fits { IsOperator operator ty }
    ensures op { plain result ≡ operations.operation operator ty cells }
    ensures row { HasRow (plain result) }
{
    match operator {
        BinaryOperator::Or => Op::LogOr,
        BinaryOperator::And => Op::LogAnd,
        BinaryOperator::BitOr => Op::IncOr,
        BinaryOperator::BitXor => Op::ExcOr,
        BinaryOperator::BitAnd => Op::BoolAnd,
        BinaryOperator::Equal => Op::Equal {
            kind: comparison_kind(ty),
            size: comparison_size(ty, cells),
        },
        BinaryOperator::NotEqual => Op::Nequal {
            kind: comparison_kind(ty),
            size: comparison_size(ty, cells),
        },
        BinaryOperator::GreaterOrEqual => Op::Geq { kind: INTS },
        BinaryOperator::Greater => Op::Gt { kind: INTS },
        BinaryOperator::Less => Op::Lt { kind: INTS },
        BinaryOperator::LessOrEqual => Op::Leq { kind: INTS },
        BinaryOperator::ShiftLeft => Op::ShLeft,
        BinaryOperator::ShiftRight => Op::ShRight,
        BinaryOperator::UnsignedShiftRight => Op::UshRight,
        BinaryOperator::Add => Op::Add { kind: sum_kind(ty) },
        BinaryOperator::Subtract => Op::Sub { kind: INTS },
        BinaryOperator::Multiply => Op::Mul { kind: INTS },
        BinaryOperator::Divide => Op::Div { kind: INTS },
        BinaryOperator::Remainder => Op::Mod,
    }
}

/// Puts what an assignment does to the value of its place and its own value: nothing for `=`.
#[tactic(auto, using(crate::proofs::Rows::rows), unfolding(ncs_code::specs::Spelling::has_type))]
pub(crate) fn combine(out: &mut Emitter, operator: AssignOperator, ty: Ty) -> Result<(), NoMemory>
    ensures { OnOk result (out.new
        ≡ record out.old { lines = out.old.lines ++ operations.combination operator ty }) }
{
    match operator {
        AssignOperator::Set => Ok(()),
        AssignOperator::Add => out.op(&Op::Add { kind: sum_kind(ty) }),
        AssignOperator::Subtract => out.op(&Op::Sub { kind: INTS }),
        AssignOperator::Multiply => out.op(&Op::Mul { kind: INTS }),
        AssignOperator::Divide => out.op(&Op::Div { kind: INTS }),
        AssignOperator::Remainder => out.op(&Op::Mod),
        AssignOperator::BitAnd => out.op(&Op::BoolAnd),
        AssignOperator::BitOr => out.op(&Op::IncOr),
        AssignOperator::BitXor => out.op(&Op::ExcOr),
        AssignOperator::ShiftLeft => out.op(&Op::ShLeft),
        AssignOperator::ShiftRight => out.op(&Op::ShRight),
        AssignOperator::UnsignedShiftRight => out.op(&Op::UshRight),
    }
}

/// What an operator does where its left operand decides alone.
#[derive(Clone, Copy)]
pub enum Shortcut {
    /// The right one is left out where the left one isn't 0.
    WhereTrue,
    /// The right one is left out where the left one is 0.
    WhereFalse,
    Never,
}

pub(crate) fn shortcut_of(operator: BinaryOperator) -> Shortcut
    ensures { plain_shortcut result ≡ code.shortcut operator }
{
    match operator {
        BinaryOperator::Or => Shortcut::WhereTrue,
        BinaryOperator::And => Shortcut::WhereFalse,
        BinaryOperator::BitOr => Shortcut::Never,
        BinaryOperator::BitXor => Shortcut::Never,
        BinaryOperator::BitAnd => Shortcut::Never,
        BinaryOperator::Equal => Shortcut::Never,
        BinaryOperator::NotEqual => Shortcut::Never,
        BinaryOperator::GreaterOrEqual => Shortcut::Never,
        BinaryOperator::Greater => Shortcut::Never,
        BinaryOperator::Less => Shortcut::Never,
        BinaryOperator::LessOrEqual => Shortcut::Never,
        BinaryOperator::ShiftLeft => Shortcut::Never,
        BinaryOperator::ShiftRight => Shortcut::Never,
        BinaryOperator::UnsignedShiftRight => Shortcut::Never,
        BinaryOperator::Add => Shortcut::Never,
        BinaryOperator::Subtract => Shortcut::Never,
        BinaryOperator::Multiply => Shortcut::Never,
        BinaryOperator::Divide => Shortcut::Never,
        BinaryOperator::Remainder => Shortcut::Never,
    }
}

/// Whether an assignment reads nothing of its place.
pub(crate) fn is_set(operator: AssignOperator) -> bool
    ensures { result ≡ code.is_set operator }
{
    match operator {
        AssignOperator::Set => true,
        AssignOperator::Add => false,
        AssignOperator::Subtract => false,
        AssignOperator::Multiply => false,
        AssignOperator::Divide => false,
        AssignOperator::Remainder => false,
        AssignOperator::BitAnd => false,
        AssignOperator::BitOr => false,
        AssignOperator::BitXor => false,
        AssignOperator::ShiftLeft => false,
        AssignOperator::ShiftRight => false,
        AssignOperator::UnsignedShiftRight => false,
    }
}

/// Puts the operation of a prefix operator on its value: nothing for `++` and `--`.
#[tactic(auto, unfolding(ncs_code::specs::Spelling::has_type))]
pub(crate) fn operate(out: &mut Emitter, operator: PrefixOperator) -> Result<(), NoMemory>
    ensures { OnOk result (out.new
        ≡ record out.old { lines = out.old.lines ++ prefix_behind operator }) }
{
    match operator {
        PrefixOperator::Minus => out.op(&Op::Neg { kind: 0x03 }),
        PrefixOperator::Complement => out.op(&Op::Comp),
        PrefixOperator::Not => out.op(&Op::Not),
        PrefixOperator::Increment => Ok(()),
        PrefixOperator::Decrement => Ok(()),
    }
}
