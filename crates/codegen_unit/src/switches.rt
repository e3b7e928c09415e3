//! The labels of a switch, and the tests that lead to them.

ghost use Rattle.std.specs.Prelude.{◌≡◌, ◌++◌, ◌+◌, ◌≤◌, ◌<◌, ◌^◌, ◌∷◌, [], ℕ, IfOk, OnOk};
ghost use Rattle.typing_rules.specs.Reading.{plain};
ghost use Rattle.typing_rules.specs.UnitReading.{typed_stmt, typed_stmts};
ghost use Rattle.emission_rules.specs.Bounds.{frame_limit};
ghost use Rattle.emission_rules.specs.Expressions as expr;
ghost use Rattle.codegen_expr.specs.Emitted.{CanBeEmitted, extended};
ghost use Rattle.ncs_code.specs.Plain as ops;
ghost use Rattle.ncs_emit.specs.Labelled.{Instruction, JumpTo, Label, placements};
ghost use Rattle.ncs_emit.specs.declared.jump.Jump.TheVariants.{Jmp, Jnz};
ghost use Rattle.emission_rules.specs.Operations as operations;
ghost use Rattle.emission_rules.specs.Statements as code;
ghost use Rattle.codegen_unit.specs.Ready.{IsOpenAt};

use codegen_expr::{drop_cells, emit_constant, emit_expr, emit_top_again};
use ncs_code::Op;
use ncs_emit::{Emitter, Jump, part_laws};
use nss_layout::Layout;
use nss_tree::Stmt;
use nwq_value::{Const, NoMemory};
use typing_rules::{Expression, TypedStmt};

/// Whether a statement is a label of a switch.
pub(crate) fn is_label(stmt: &TypedStmt) -> bool
    ensures { result ≡ code.is_label (typed_stmt stmt.now) }
{
    match stmt {
        Stmt::Case { .. } => true,
        Stmt::Default { .. } => true,
        Stmt::Block { .. } => false,
        Stmt::If { .. } => false,
        Stmt::IfElse { .. } => false,
        Stmt::While { .. } => false,
        Stmt::Do { .. } => false,
        Stmt::For { .. } => false,
        Stmt::Switch { .. } => false,
        Stmt::Empty { .. } => false,
        Stmt::Expression { .. } => false,
        Stmt::Break { .. } => false,
        Stmt::Continue { .. } => false,
        Stmt::Return { .. } => false,
        Stmt::Declaration { .. } => false,
    }
}

/// Whether a statement is the label where no case fits.
fn is_default(stmt: &TypedStmt) -> bool
    ensures { result ≡ code.is_default (typed_stmt stmt.now) }
{
    match stmt {
        Stmt::Default { .. } => true,
        Stmt::Case { .. } => false,
        Stmt::Block { .. } => false,
        Stmt::If { .. } => false,
        Stmt::IfElse { .. } => false,
        Stmt::While { .. } => false,
        Stmt::Do { .. } => false,
        Stmt::For { .. } => false,
        Stmt::Switch { .. } => false,
        Stmt::Empty { .. } => false,
        Stmt::Expression { .. } => false,
        Stmt::Break { .. } => false,
        Stmt::Continue { .. } => false,
        Stmt::Return { .. } => false,
        Stmt::Declaration { .. } => false,
    }
}

/// The number of the next label behind a statement.
fn behind(at: u32, stmt: &TypedStmt) -> u32
    requires small { code.behind at (typed_stmt stmt.now) < 2 ^ 32 }
    ensures { result ≡ code.behind at (typed_stmt stmt.now) }
{
    if is_label(stmt) { at + 1 } else { at }
}

/// How many labels a switch has.
pub(crate) fn count_labels(stmts: &[TypedStmt]) -> u32
    requires small { code.count_labels (typed_stmts stmts.now) < 2 ^ 32 }
    ensures { result ≡ code.count_labels (typed_stmts stmts.now) }
{
    let mut count = 0;
    for stmt in stmts {
        count = behind(count, stmt);
    }
    count
}

/// Makes so many labels, and gives the first one.
pub(crate) fn make_labels(out: &mut Emitter, count: u32) -> Result<u32, NoMemory>
    requires some { 1 ≤ count }
    requires small { out.old.labels + count < 2 ^ 32 }
    ensures first { IfOk result (λ first. first ≡ out.old.labels) }
    ensures made { OnOk result (out.new
        ≡ record out.old { labels = out.old.labels + count }) }
    ensures unplaced { OnOk result ((label : ℕ) → out.old.labels ≤ label
        → label < out.old.labels + count → placements out.new.lines label ≡ 0) }
{
    let first = out.label()?;
    for _more in 1..count {
        out.label()?;
    }
    Ok(first)
}

/// Compares the selector with the value of a case, where the statement is one.
#[tactic(auto, unfolding(ncs_code::specs::Spelling::has_type))]
fn emit_case(out: &mut Emitter, at: u32, value: &Const) -> Result<(), NoMemory>
    requires made { at < out.old.labels }
    ensures { OnOk result (out.new ≡ record out.old {
      lines = out.old.lines
          ++ operations.top_again ∷ operations.constant value.now
          ∷ Instruction (ops.Equal operations.two_ints 0) ∷ JumpTo Jnz at ∷ [];
    }) }
{
    emit_top_again(out)?;
    emit_constant(out, value)?;
    out.op(&Op::Equal {
        kind: 0x20,
        size: 0,
    })?;
    out.jump(Jump::Jnz, at)
}

/// Compares the selector with the value of a case, where the statement is one.
fn emit_test(out: &mut Emitter, at: u32, stmt: &TypedStmt) -> Result<(), NoMemory>
    requires made { code.behind at (typed_stmt stmt.now) ≤ out.old.labels }
    ensures { OnOk result (out.new ≡ record out.old {
      lines = out.old.lines ++ code.test_of at (typed_stmt stmt.now);
    }) }
{
    match stmt {
        Stmt::Case { value, .. } => emit_case(out, at, value),
        Stmt::Default { .. } => Ok(()),
        Stmt::Block { .. } => Ok(()),
        Stmt::If { .. } => Ok(()),
        Stmt::IfElse { .. } => Ok(()),
        Stmt::While { .. } => Ok(()),
        Stmt::Do { .. } => Ok(()),
        Stmt::For { .. } => Ok(()),
        Stmt::Switch { .. } => Ok(()),
        Stmt::Empty { .. } => Ok(()),
        Stmt::Expression { .. } => Ok(()),
        Stmt::Break { .. } => Ok(()),
        Stmt::Continue { .. } => Ok(()),
        Stmt::Return { .. } => Ok(()),
        Stmt::Declaration { .. } => Ok(()),
    }
}

/// Compares the selector with each case in order.
pub(crate) fn emit_tests(
    out: &mut Emitter,
    mut at: u32,
    stmts: &[TypedStmt],
) -> Result<(), NoMemory>
    requires made { at + code.count_labels (typed_stmts stmts.now) ≤ out.old.labels }
    requires small { out.old.labels < 2 ^ 32 }
    ensures { OnOk result (out.new ≡ record out.old {
      lines = out.old.lines ++ code.tests at (typed_stmts stmts.now);
    }) }
{
    for stmt in stmts {
        emit_test(out, at, stmt)?;
        at = behind(at, stmt);
    }
    Ok(())
}

/// Where it goes on if no case fits.
pub(crate) fn otherwise(end: u32, mut at: u32, stmts: &[TypedStmt]) -> u32
    requires small { at + code.count_labels (typed_stmts stmts.now) < 2 ^ 32 }
    ensures { result ≡ code.otherwise end at (typed_stmts stmts.now) }
{
    for stmt in stmts {
        if is_default(stmt) {
            return at;
        }
        at = behind(at, stmt);
    }
    end
}

/// Places a label of a switch where the statement is one, and gives the number of the next.
pub(crate) fn place_label(out: &mut Emitter, at: Option<u32>, stmt: &TypedStmt) -> Option<u32>
    requires small { out.old.labels < 2 ^ 32 }
    requires open { IsOpenAt out.old.labels out.old.lines at (typed_stmt stmt.now) }
    ensures placed { out.new
        ≡ record out.old { lines = out.old.lines ++ code.placed at (typed_stmt stmt.now) } }
    ensures next { result ≡ code.placed_on at (typed_stmt stmt.now) }
{
    match at {
        None => None,
        Some(label) => {
            if is_label(stmt) {
                out.place(label);
                Some(label + 1)
            } else {
                Some(label)
            }
        }
    }
}

/// Evaluates the selector, and goes on at the case that it fits.
#[tactic(auto, using(crate::proofs::Choosing::otherwise_made))]
pub(crate) fn emit_choice(
    out: &mut Emitter,
    layout: &Layout,
    value: &Expression,
    depth: u32,
    end: u32,
    body: &[TypedStmt],
) -> Result<(), NoMemory>
    requires ready { CanBeEmitted out.old.labels layout.now depth (plain value.now) }
    requires made { end + 1 + code.count_labels (typed_stmts body.now) ≤ out.old.labels }
    ensures { OnOk result (out.new ≡ extended out.old
        (expr.emit layout.now out.old.labels depth (plain value.now)
        ++ (code.tests (end + 1) (typed_stmts body.now)
        ++ JumpTo Jmp (code.otherwise end (end + 1) (typed_stmts body.now)) ∷ []))
        (expr.labels (plain value.now))) }
{
    emit_expr(out, layout, value, depth)?;
    emit_tests(out, end + 1, body)?;
    out.jump(Jump::Jmp, otherwise(end, end + 1, body))
}

/// Takes off the cells that the body declares, and behind the end the selector.
pub(crate) fn close_switch(out: &mut Emitter, end: u32, cells: u32) -> Result<(), NoMemory>
    requires small { cells ≤ frame_limit }
    requires made { end < out.old.labels }
    requires unplaced { placements out.old.lines end ≡ 0 }
    ensures { OnOk result (out.new ≡ record out.old {
      lines = out.old.lines
          ++ (operations.dropped cells ++ Label end ∷ operations.dropped 1);
    }) }
{
    part_laws();
    drop_cells(out, cells)?;
    out.place(end);
    drop_cells(out, 1)
}
