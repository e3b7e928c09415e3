//! The instructions of one node.

ghost use Rattle.std.specs.Prelude.{◌≡◌, ℕ, ◌==◌, if◌then◌else◌};
ghost use Rattle.ncs_code.specs.Spelling.{op_size};
ghost use Rattle.typing_rules.specs.Cells.{cell_types};
ghost use Rattle.emission_rules.specs.Operations as code_operations;
ghost use Rattle.emission_rules.specs.Expressions as code;
ghost use Rattle.code_places.specs.Marks as marks;
ghost use Rattle.code_places.specs.Seeking.{passed, sought};

use crate::seek::{Seek, pass, pass_constant, pass_if};
use nss_layout::Layout;
use nss_tree::{AssignOperator, BinaryOperator, PrefixOperator};
use nwq_value::{Const, Ty};
use typing_rules::{Callee, Place};

/// Goes over the starting values of so many cells.
fn pass_started(seek: Seek, cells: &[Ty], node: Option<u32>) -> Seek
    ensures { result ≡ sought (marks.started_marks node cells.now) seek }
{
    let mut seek = seek;
    for _cell in cells {
        seek = pass(seek, 2, node);
    }
    seek
}

/// Goes over the starting value of a type.
#[tactic(auto, using(crate::proofs::Seeking::seek_laws))]
pub(crate) fn pass_start(seek: Seek, layout: &Layout, ty: Ty, node: Option<u32>) -> Seek
    ensures { result ≡ sought (marks.started_marks node (cell_types layout.now.structs ty)) seek }
{
    match ty {
        Ty::Void => seek,
        Ty::Struct(number) => pass_started(seek, layout.struct_cells(number), node),
        Ty::Int | Ty::Text | Ty::Object | Ty::Effect | Ty::Event | Ty::Action | Ty::Refused =>
            pass_started(seek, &[ty], node),
    }
}

/// Goes over the room for the result of a call.
#[tactic(auto, using(crate::proofs::Seeking::seek_laws))]
pub(crate) fn pass_room(
    seek: Seek,
    layout: &Layout,
    callee: Callee,
    ty: Ty,
    node: Option<u32>,
) -> Seek
    ensures { result ≡ sought (marks.started_marks node (code.result_room layout.now callee ty))
        seek }
{
    match callee {
        Callee::Unit(_) => pass_start(seek, layout, ty, node),
        Callee::Engine(_) => seek,
    }
}

/// Goes over constants, the last one first.
pub(crate) fn pass_constants(seek: Seek, constants: &[Const], node: Option<u32>) -> Seek
    ensures { result ≡ sought (marks.constants_marks node constants.now) seek }
{
    let mut seek = seek;
    let mut i = constants.len();
    while i > 0 {
        i -= 1;
        seek = pass_constant(seek, &constants[i], node);
    }
    seek
}

/// Goes over the call itself.
pub(crate) fn pass_call(seek: Seek, callee: Callee, node: Option<u32>) -> Seek
    ensures { result ≡ passed (marks.call_mark node callee) seek }
{
    match callee {
        Callee::Unit(_) => pass(seek, 6, node),
        Callee::Engine(_) => pass(seek, 5, node),
    }
}

/// Goes over the reading of a name.
pub(crate) fn pass_name(seek: Seek, place: &Place, node: Option<u32>) -> Seek
    ensures { result ≡ passed (marks.name_mark node place.now) seek }
{
    match place {
        Place::Local(_) => pass(seek, 8, node),
        Place::Global(_) => pass(seek, 8, node),
        Place::Const(constant) => pass_constant(seek, constant, node),
    }
}

/// Goes over what a prefix does before its value.
#[tactic(auto, using(crate::proofs::Seeking::seek_laws))]
pub(crate) fn before_prefix(
    seek: Seek,
    operator: PrefixOperator,
    place: bool,
    node: Option<u32>,
) -> Seek
    ensures { result ≡ sought (marks.before_prefix node operator place) seek }
{
    match operator {
        PrefixOperator::Minus => seek,
        PrefixOperator::Complement => seek,
        PrefixOperator::Not => seek,
        PrefixOperator::Increment => pass_if(seek, place, 6, node),
        PrefixOperator::Decrement => pass_if(seek, place, 6, node),
    }
}

/// Goes over what a prefix does behind its value.
#[tactic(auto, using(crate::proofs::Seeking::seek_laws))]
pub(crate) fn behind_prefix(seek: Seek, operator: PrefixOperator, node: Option<u32>) -> Seek
    ensures { result ≡ sought (marks.behind_prefix node operator) seek }
{
    match operator {
        PrefixOperator::Minus => pass(seek, 2, node),
        PrefixOperator::Complement => pass(seek, 2, node),
        PrefixOperator::Not => pass(seek, 2, node),
        PrefixOperator::Increment => seek,
        PrefixOperator::Decrement => seek,
    }
}

/// The bytes of a comparison of two values of the type.
fn comparison_size(ty: Ty) -> u32
    ensures { result ≡ (if code_operations.comparison_kind ty == 0x24 then 4 else 2) }
{
    match ty {
        Ty::Struct(_) => 4,
        Ty::Void
        | Ty::Int
        | Ty::Text
        | Ty::Object
        | Ty::Effect
        | Ty::Event
        | Ty::Action
        | Ty::Refused => 2,
    }
}

/// The bytes of an operation on two values of the type.
pub(crate) fn operation_size(operator: BinaryOperator, ty: Ty) -> u32
    ensures { (n : ℕ) → result ≡ op_size (code_operations.operation operator ty n) }
{
    match operator {
        BinaryOperator::Equal | BinaryOperator::NotEqual => comparison_size(ty),
        BinaryOperator::Or
        | BinaryOperator::And
        | BinaryOperator::BitOr
        | BinaryOperator::BitXor
        | BinaryOperator::BitAnd
        | BinaryOperator::GreaterOrEqual
        | BinaryOperator::Greater
        | BinaryOperator::Less
        | BinaryOperator::LessOrEqual
        | BinaryOperator::ShiftLeft
        | BinaryOperator::ShiftRight
        | BinaryOperator::UnsignedShiftRight
        | BinaryOperator::Add
        | BinaryOperator::Subtract
        | BinaryOperator::Multiply
        | BinaryOperator::Divide
        | BinaryOperator::Remainder => 2,
    }
}

/// Goes over what `||` does between its operands.
fn pass_or(seek: Seek, size: u32, node: Option<u32>) -> Seek
    ensures { result ≡ sought (marks.between node code.WhereTrue size) seek }
{
    let seek = pass(pass(seek, 8, node), 6, node);
    let seek = pass(pass(seek, 6, node), size, node);
    pass(seek, 6, node)
}

/// Goes over what `&&` does between its operands.
fn pass_and(seek: Seek, size: u32, node: Option<u32>) -> Seek
    ensures { result ≡ sought (marks.between node code.WhereFalse size) seek }
{
    pass(pass(seek, 8, node), 6, node)
}

/// Goes over what stands between the operands.
#[tactic(auto, using(crate::proofs::Seeking::seek_laws))]
pub(crate) fn between(seek: Seek, operator: BinaryOperator, size: u32, node: Option<u32>) -> Seek
    ensures { result ≡ sought (marks.between node (code.shortcut operator) size) seek }
{
    match operator {
        BinaryOperator::Or => pass_or(seek, size, node),
        BinaryOperator::And => pass_and(seek, size, node),
        BinaryOperator::BitOr
        | BinaryOperator::BitXor
        | BinaryOperator::BitAnd
        | BinaryOperator::Equal
        | BinaryOperator::NotEqual
        | BinaryOperator::GreaterOrEqual
        | BinaryOperator::Greater
        | BinaryOperator::Less
        | BinaryOperator::LessOrEqual
        | BinaryOperator::ShiftLeft
        | BinaryOperator::ShiftRight
        | BinaryOperator::UnsignedShiftRight
        | BinaryOperator::Add
        | BinaryOperator::Subtract
        | BinaryOperator::Multiply
        | BinaryOperator::Divide
        | BinaryOperator::Remainder => seek,
    }
}

/// Whether it is `=`.
pub(crate) fn is_set(operator: AssignOperator) -> bool
    ensures { result ≡ code.is_set operator }
{
    match operator {
        AssignOperator::Set => true,
        AssignOperator::Add
        | AssignOperator::Subtract
        | AssignOperator::Multiply
        | AssignOperator::Divide
        | AssignOperator::Remainder
        | AssignOperator::BitAnd
        | AssignOperator::BitOr
        | AssignOperator::BitXor
        | AssignOperator::ShiftLeft
        | AssignOperator::ShiftRight
        | AssignOperator::UnsignedShiftRight => false,
    }
}
