//! Expressions as parts of statements.

ghost use Rattle.std.specs.Prelude.{◌≡◌, ◌++◌, ◌-◌, ◌∷◌, ◌≤◌, [], IsTrue, OnOk};
ghost use Rattle.std.specs.Option.{option_map};
ghost use Rattle.nwq_value.specs.Limits.{struct_cell_limit};
ghost use Rattle.ncs_code.specs.Plain as ops;
ghost use Rattle.ncs_emit.specs.Labelled.{Instruction, JumpTo};
ghost use Rattle.ncs_emit.specs.declared.jump.Jump.TheVariants.{Jmp};
ghost use Rattle.typing_rules.specs.Reading.{plain};
ghost use Rattle.typing_rules.specs.Typed.{type_of};
ghost use Rattle.typing_rules.specs.Cells.{cells};
ghost use Rattle.emission_rules.specs.Bounds.{frame_limit};
ghost use Rattle.emission_rules.specs.Expressions as expr;
ghost use Rattle.emission_rules.specs.Operations.{dropped};
ghost use Rattle.emission_rules.specs.Statements as code;
ghost use Rattle.codegen_expr.specs.Emitted.{CanBeEmitted, extended};
ghost use Rattle.codegen_unit.specs.Ready.{IsMade, IsPartReady, depth_of, label_of, leads};

use crate::exits::Target;
use codegen_expr::{drop_cells, emit_expr};
use ncs_code::{Lit, Op};
use ncs_emit::{Emitter, Jump};
use nss_layout::Layout;
use nwq_value::NoMemory;
use typing_rules::Expression;

/// Evaluates an expression for its effect alone.
#[tactic(auto, using(crate::proofs::Bounded::ready_few))]
pub(crate) fn emit_effect(
    out: &mut Emitter,
    layout: &Layout,
    e: &Expression,
    depth: u32,
) -> Result<(), NoMemory>
    requires ready { CanBeEmitted out.old.labels layout.now depth (plain e.now) }
    ensures { OnOk result (out.new ≡ extended out.old
        (expr.emit layout.now out.old.labels depth (plain e.now)
        ++ dropped (cells layout.now.structs (type_of (plain e.now))))
        (expr.labels (plain e.now))) }
{
    emit_expr(out, layout, e, depth)?;
    drop_cells(out, layout.cells(e.ty()))
}

/// The same of one that may be absent.
pub(crate) fn emit_evaluated(
    out: &mut Emitter,
    layout: &Layout,
    e: &Option<Expression>,
    depth: u32,
) -> Result<(), NoMemory>
    requires ready { IsPartReady out.old.labels layout.now depth (option_map plain e.now) }
    ensures { OnOk result (out.new ≡ extended out.old
        (code.evaluated layout.now out.old.labels depth (option_map plain e.now))
        (code.some_labels (option_map plain e.now))) }
{
    match e {
        None => Ok(()),
        Some(e) => emit_effect(out, layout, e, depth),
    }
}

/// A test that is left out is true.
#[tactic(auto, unfolding(ncs_code::specs::Spelling::has_type))]
pub(crate) fn emit_tested(
    out: &mut Emitter,
    layout: &Layout,
    e: &Option<Expression>,
    depth: u32,
) -> Result<(), NoMemory>
    requires ready { IsPartReady out.old.labels layout.now depth (option_map plain e.now) }
    ensures { OnOk result (out.new ≡ extended out.old
        (code.tested layout.now out.old.labels depth (option_map plain e.now))
        (code.some_labels (option_map plain e.now))) }
{
    match e {
        None => out.op(&Op::Const(Lit::Int(1))),
        Some(e) => emit_expr(out, layout, e, depth),
    }
}

/// Writes a value on top of this frame onto the result's cells beneath it, and takes off the value
/// and the frame.
#[tactic(auto, unfolding(ncs_code::specs::Spelling::has_type))]
fn emit_stored(out: &mut Emitter, layout: &Layout, depth: u32, count: u32) -> Result<(), NoMemory>
    requires small { depth ≤ frame_limit }
    requires few { count ≤ struct_cell_limit }
    ensures { OnOk result (out.new
        ≡ record out.old { lines = out.old.lines ++ code.stored layout.now depth count }) }
{
    out.op(&Op::CpDownSp {
        offset: 0 - (4 * (depth + 2 * count)) as i32,
        size: (4 * count) as u16,
    })?;
    drop_cells(out, depth + count)
}

/// Takes the frame off, once its value is kept if it has one.
#[tactic(auto, using(crate::proofs::Bounded::ready_few))]
fn emit_returned(
    out: &mut Emitter,
    layout: &Layout,
    e: &Option<Expression>,
    depth: u32,
) -> Result<(), NoMemory>
    requires ready { IsPartReady out.old.labels layout.now depth (option_map plain e.now) }
    requires small { depth ≤ frame_limit }
    ensures { OnOk result (out.new ≡ extended out.old
        (code.returned layout.now out.old.labels depth (option_map plain e.now))
        (code.some_labels (option_map plain e.now))) }
{
    match e {
        None => drop_cells(out, depth),
        Some(e) => {
            emit_expr(out, layout, e, depth)?;
            emit_stored(out, layout, depth, layout.cells(e.ty()))
        }
    }
}

/// Leaves the function, with its value if it has one.
#[tactic(auto, unfolding(ncs_code::specs::Spelling::has_type))]
pub(crate) fn emit_return(
    out: &mut Emitter,
    layout: &Layout,
    e: &Option<Expression>,
    depth: u32,
) -> Result<(), NoMemory>
    requires ready { IsPartReady out.old.labels layout.now depth (option_map plain e.now) }
    requires small { depth ≤ frame_limit }
    ensures { OnOk result (out.new ≡ extended out.old
        (code.returned layout.now out.old.labels depth (option_map plain e.now)
        ++ Instruction ops.Retn ∷ [])
        (code.some_labels (option_map plain e.now))) }
{
    emit_returned(out, layout, e, depth)?;
    out.op(&Op::Retn)
}

/// Leaves a loop or a switch, or goes on with a loop.
pub(crate) fn emit_leave(
    out: &mut Emitter,
    target: Option<Target>,
    depth: u32,
) -> Result<(), NoMemory>
    requires small { depth ≤ frame_limit }
    requires leads { IsTrue (leads target) }
    requires made { IsMade out.old.labels target }
    ensures { OnOk result (out.new ≡ record out.old {
      lines = out.old.lines
          ++ (dropped (depth - depth_of target) ++ JumpTo Jmp (label_of target) ∷ []);
    }) }
{
    match target {
        None => unreachable!(),
        Some(target) => {
            drop_cells(out, depth.saturating_sub(target.depth))?;
            out.jump(Jump::Jmp, target.label)
        }
    }
}
