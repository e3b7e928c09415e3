//! What a call puts around its arguments.

ghost use Rattle.std.specs.Prelude.{◌≡◌, ◌++◌, ◌∷◌, [], length, IfOk, OnOk};
ghost use Rattle.emission_rules.specs.Bounds.{IsCallee, IsType};
ghost use Rattle.emission_rules.specs.Operations as operations;
ghost use Rattle.emission_rules.specs.Expressions as code;

use crate::lines::{emit_constant, start_cells};
use ncs_code::Op;
use ncs_emit::{Emitter, Jump};
use nss_layout::Layout;
use nwq_value::{Const, NoMemory, Ty};
use typing_rules::Callee;

/// Puts the cells that a call makes for its result, and gives how many they are.
pub(crate) fn emit_room(
    out: &mut Emitter,
    layout: &Layout,
    callee: Callee,
    ty: Ty,
) -> Result<u32, NoMemory>
    requires is_type { IsType layout.now ty }
    ensures lines { OnOk result (out.new ≡ record out.old {
      lines = out.old.lines ++ operations.started (code.result_room layout.now callee ty);
    }) }
    ensures cells { IfOk result
        (λ count. count ≡ length (code.result_room layout.now callee ty)) }
{
    match callee {
        Callee::Unit(_) => {
            start_cells(out, layout, ty)?;
            Ok(layout.cells(ty))
        }
        Callee::Engine(_) => Ok(0),
    }
}

/// Puts constants, the last one first.
pub(crate) fn emit_constants(out: &mut Emitter, constants: &[Const]) -> Result<(), NoMemory>
    ensures { OnOk result (out.new
        ≡ record out.old { lines = out.old.lines ++ code.constants constants.now }) }
{
    let mut i = constants.len();
    while i > 0 {
        i -= 1;
        emit_constant(out, &constants[i])?;
    }
    Ok(())
}

/// Puts the call itself.
#[tactic(auto, unfolding(ncs_code::specs::Spelling::has_type))]
pub(crate) fn emit_called(out: &mut Emitter, callee: Callee, count: usize) -> Result<(), NoMemory>
    requires is_callee { IsCallee out.old.labels count callee }
    ensures { OnOk result (out.new
        ≡ record out.old { lines = out.old.lines ++ code.call_line callee count ∷ [] }) }
{
    match callee {
        Callee::Unit(number) => out.jump(Jump::Jsr, number),
        Callee::Engine(routine) => out.op(&Op::Action {
            routine,
            count: count as u8,
        }),
    }
}
