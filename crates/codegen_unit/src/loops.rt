//! The test and the third part of a `for`.

ghost use Rattle.std.specs.Prelude.{◌≡◌, ◌++◌, ◌∷◌, ◌<◌, [], OnOk};
ghost use Rattle.std.specs.Option.{option_map};
ghost use Rattle.ncs_emit.specs.Labelled.{JumpTo, Label, placements};
ghost use Rattle.ncs_emit.specs.declared.jump.Jump.TheVariants.{Jmp, Jz};
ghost use Rattle.typing_rules.specs.Reading.{plain};
ghost use Rattle.emission_rules.specs.Statements as code;
ghost use Rattle.codegen_expr.specs.Emitted.{extended};
ghost use Rattle.codegen_unit.specs.Ready.{IsPartReady};

use crate::parts::{emit_evaluated, emit_tested};
use ncs_emit::{Emitter, Jump};
use nss_layout::Layout;
use nwq_value::NoMemory;
use typing_rules::Expression;

/// A turn begins: it ends at a label where the test is 0.
pub(crate) fn emit_turn(
    out: &mut Emitter,
    layout: &Layout,
    condition: &Option<Expression>,
    depth: u32,
    top: u32,
    end: u32,
) -> Result<(), NoMemory>
    requires ready { IsPartReady out.old.labels layout.now depth (option_map plain condition.now) }
    requires top { top < out.old.labels }
    requires end { end < out.old.labels }
    requires unplaced { placements out.old.lines top ≡ 0 }
    ensures { OnOk result (out.new ≡ extended out.old
        (Label top
        ∷ (code.tested layout.now out.old.labels depth (option_map plain condition.now)
        ++ JumpTo Jz end ∷ []))
        (code.some_labels (option_map plain condition.now))) }
{
    out.place(top);
    emit_tested(out, layout, condition, depth)?;
    out.jump(Jump::Jz, end)
}

/// The third part, and the next turn.
pub(crate) fn emit_again(
    out: &mut Emitter,
    layout: &Layout,
    step: &Option<Expression>,
    depth: u32,
    next: u32,
    top: u32,
) -> Result<(), NoMemory>
    requires ready { IsPartReady out.old.labels layout.now depth (option_map plain step.now) }
    requires next { next < out.old.labels }
    requires top { top < out.old.labels }
    requires unplaced { placements out.old.lines next ≡ 0 }
    ensures { OnOk result (out.new ≡ extended out.old
        (Label next
        ∷ (code.evaluated layout.now out.old.labels depth (option_map plain step.now)
        ++ JumpTo Jmp top ∷ []))
        (code.some_labels (option_map plain step.now))) }
{
    out.place(next);
    emit_evaluated(out, layout, step, depth)?;
    out.jump(Jump::Jmp, top)
}
