//! Lines that many nodes share.

ghost use Rattle.std.specs.Prelude.{◌≡◌, ◌++◌, ◌∷◌, ◌*◌, ◌<◌, ◌≤◌, ◌^◌, [], pos, OnOk};
ghost use Rattle.std.specs.List.{AllByRecursion};
ghost use Rattle.nwq_value.specs.Limits.{struct_cell_limit};
ghost use Rattle.typing_rules.specs.Cells.{cell_types};
ghost use Rattle.emission_rules.specs.Bounds.{IsCell, IsType, frame_limit};
ghost use Rattle.emission_rules.specs.Operations as code;
ghost use Rattle.ncs_code.specs.Plain as ops;
ghost use Rattle.ncs_code.specs.Plain.{plain};
ghost use Rattle.ncs_code.specs.Spelling.{HasRow};
ghost use Rattle.ncs_emit.specs.Labelled.{Instruction, JumpTo, Label, placements};
ghost use Rattle.ncs_emit.specs.declared.jump.Jump.TheVariants.{Jmp, Jz};
ghost use Rattle.typing_rules.specs.Types.{is_void};

use ncs_code::{Lit, Op};
use ncs_emit::{Emitter, Jump, part_laws};
use nss_layout::Layout;
use nwq_value::{Const, NoMemory, Ty};

/// The offset of the place so many cells beneath the top, or beneath the base.
pub(crate) fn beneath(cells: u32) -> i32
    requires small { cells < 2 ^ 29 }
    ensures { result ≡ code.beneath cells }
{
    0 - (4 * cells) as i32
}

/// How many bytes so many cells of a value take.
pub(crate) fn bytes_of(cells: u32) -> u16
    requires few { cells ≤ struct_cell_limit }
    ensures { result ≡ code.bytes_of cells }
{
    (4 * cells) as u16
}

/// Whether a value of the type is none.
pub(crate) fn is_void(ty: Ty) -> bool
    ensures { result ≡ is_void ty }
{
    match ty {
        Ty::Void => true,
        Ty::Int
        | Ty::Text
        | Ty::Object
        | Ty::Effect
        | Ty::Event
        | Ty::Action
        | Ty::Struct(_)
        | Ty::Refused => false,
    }
}

/// Puts a constant.
#[tactic(auto, unfolding(ncs_code::specs::Spelling::has_type))]
pub fn emit_constant(out: &mut Emitter, constant: &Const) -> Result<(), NoMemory>
    ensures ok { OnOk result (out.new
        ≡ record out.old { lines = out.old.lines ++ code.constant constant.now ∷ [] }) }
{
    match constant {
        Const::Int(n) => out.op(&Op::Const(Lit::Int(*n))),
        Const::Text(text) => out.op(&Op::Const(Lit::Text(text.bytes()))),
        Const::SelfObject => out.op(&Op::Const(Lit::Object(0))),
        Const::InvalidObject => out.op(&Op::Const(Lit::Object(1))),
    }
}

/// Puts a second copy of the top cell.
#[tactic(auto, unfolding(ncs_code::specs::Spelling::has_type))]
pub fn emit_top_again(out: &mut Emitter) -> Result<(), NoMemory>
    ensures ok { OnOk result (out.new
        ≡ record out.old { lines = out.old.lines ++ code.top_again ∷ [] }) }
{
    out.op(&Op::CpTopSp {
        offset: -4,
        size: 4,
    })
}

/// Goes on to the right operand of `||` where the left one on top is 0, and else leaves it out.
#[tactic(auto, unfolding(ncs_code::specs::Spelling::has_type))]
pub(crate) fn skip_right(
    out: &mut Emitter,
    op: &Op<'_>,
    right: u32,
    end: u32,
) -> Result<(), NoMemory>
    requires row { HasRow (plain op.now) }
    requires right { right < out.old.labels }
    requires end { end < out.old.labels }
    requires unplaced { placements out.old.lines right ≡ 0 }
    ensures { OnOk result (out.new ≡ record out.old {
      lines = out.old.lines
          ++ code.top_again ∷ JumpTo Jz right ∷ code.int_constant (pos 1)
          ∷ Instruction (plain op.now) ∷ JumpTo Jmp end ∷ Label right ∷ [];
    }) }
{
    part_laws();
    emit_top_again(out)?;
    out.jump(Jump::Jz, right)?;
    out.op(&Op::Const(Lit::Int(1)))?;
    out.op(op)?;
    out.jump(Jump::Jmp, end)?;
    out.place(right);
    Ok(())
}

/// Takes so many cells off: puts nothing where there are none.
#[tactic(auto, using(crate::proofs::Dropping::dropped_some), unfolding(ncs_code::specs::Spelling::has_type))]
pub fn drop_cells(out: &mut Emitter, cells: u32) -> Result<(), NoMemory>
    requires small { cells < 2 ^ 29 }
    ensures ok { OnOk result (out.new
        ≡ record out.old { lines = out.old.lines ++ code.dropped cells }) }
{
    if cells == 0 {
        return Ok(());
    }
    out.op(&Op::MovSp {
        offset: beneath(cells),
    })
}

/// Puts a cell with the starting value of its type.
#[tactic(auto, unfolding(ncs_code::specs::Spelling::has_type))]
fn start_cell(out: &mut Emitter, ty: Ty) -> Result<(), NoMemory>
    requires cell { IsCell ty }
    ensures ok { OnOk result (out.new ≡ record out.old {
      lines = out.old.lines ++ Instruction (ops.RsAdd (code.cell_kind ty)) ∷ [];
    }) }
{
    match ty {
        Ty::Int => out.op(&Op::RsAdd { kind: 0x03 }),
        Ty::Text => out.op(&Op::RsAdd { kind: 0x05 }),
        Ty::Object => out.op(&Op::RsAdd { kind: 0x06 }),
        Ty::Effect => out.op(&Op::RsAdd { kind: 0x10 }),
        Ty::Event => out.op(&Op::RsAdd { kind: 0x11 }),
        Ty::Void | Ty::Action | Ty::Struct(_) | Ty::Refused => unreachable!(),
    }
}

/// Puts cells with the starting values of their types.
fn start_all(out: &mut Emitter, types: &[Ty]) -> Result<(), NoMemory>
    requires cells { AllByRecursion IsCell types.now }
    ensures ok { OnOk result (out.new
        ≡ record out.old { lines = out.old.lines ++ code.started types.now }) }
{
    for ty in types {
        start_cell(out, *ty)?;
    }
    Ok(())
}

/// Puts the cells of a value with the starting values of their types.
pub fn start_cells(out: &mut Emitter, layout: &Layout, ty: Ty) -> Result<(), NoMemory>
    requires is_type { IsType layout.now ty }
    ensures ok { OnOk result (out.new ≡ record out.old {
      lines = out.old.lines ++ code.started (cell_types layout.now.structs ty);
    }) }
{
    match ty {
        Ty::Void => Ok(()),
        Ty::Struct(number) => start_all(out, layout.struct_cells(number)),
        Ty::Int | Ty::Text | Ty::Object | Ty::Effect | Ty::Event | Ty::Action | Ty::Refused =>
            start_cell(out, ty),
    }
}
