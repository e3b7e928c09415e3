//! Declarations, and how many cells they declare.

ghost use Rattle.std.specs.Prelude.{◌≡◌, ◌+◌, ◌≤◌, ◌<◌, ◌^◌, OnOk};
ghost use Rattle.std.specs.Option.{option_map};
ghost use Rattle.typing_rules.specs.Reading.{plain};
ghost use Rattle.typing_rules.specs.UnitReading.{typed_names, typed_stmt};
ghost use Rattle.emission_rules.specs.Bounds.{IsType, frame_limit};
ghost use Rattle.emission_rules.specs.Layout as laid;
ghost use Rattle.emission_rules.specs.Statements as code;
ghost use Rattle.codegen_expr.specs.Emitted.{extended};
ghost use Rattle.codegen_unit.specs.Ready.{IsPartReady, NamesReady};

use codegen_expr::{emit_expr, start_cells};
use ncs_emit::Emitter;
use nss_layout::Layout;
use nss_tree::Stmt;
use nwq_value::{NoMemory, Ty};
use typing_rules::{Expression, TypedName, TypedStmt};

/// Makes the cells of a name: its first value, or the starting values of its type.
fn emit_initial(
    out: &mut Emitter,
    layout: &Layout,
    ty: Ty,
    value: &Option<Expression>,
    depth: u32,
) -> Result<(), NoMemory>
    requires is_type { IsType layout.now ty }
    requires ready { IsPartReady out.old.labels layout.now depth (option_map plain value.now) }
    ensures { OnOk result (out.new ≡ extended out.old
        (code.initial layout.now out.old.labels depth ty (option_map plain value.now))
        (code.some_labels (option_map plain value.now))) }
{
    match value {
        None => start_cells(out, layout, ty),
        Some(value) => emit_expr(out, layout, value, depth),
    }
}

/// Adds the code of declared names, one after another.
pub(crate) fn emit_names(
    out: &mut Emitter,
    layout: &Layout,
    names: &[TypedName],
    mut depth: u32,
) -> Result<(), NoMemory>
    requires ready { NamesReady out.old.labels layout.now depth (typed_names names.now) }
    ensures { OnOk result (out.new ≡ extended out.old
        (code.emit_names layout.now out.old.labels depth (typed_names names.now))
        (code.names_labels (typed_names names.now))) }
{
    for name in names {
        emit_initial(out, layout, name.name.ty, &name.value, depth)?;
        depth += layout.cells(name.name.ty);
    }
    Ok(())
}

/// How many cells names have together.
pub(crate) fn names_cells(layout: &Layout, names: &[TypedName]) -> u32
    requires few { laid.names_cells layout.now.structs (typed_names names.now) ≤ frame_limit }
    ensures { result ≡ laid.names_cells layout.now.structs (typed_names names.now) }
{
    let mut cells = 0;
    for name in names {
        cells += layout.cells(name.name.ty);
    }
    cells
}

/// By how many cells a statement leaves the frame deeper than it was.
#[tactic(auto, using(nss_tree::specs::Readings::plain_cases))]
pub(crate) fn declared_cells(layout: &Layout, stmt: &TypedStmt) -> u32
    requires few { laid.declared_cells layout.now.structs (typed_stmt stmt.now) ≤ frame_limit }
    ensures { result ≡ laid.declared_cells layout.now.structs (typed_stmt stmt.now) }
{
    match stmt {
        Stmt::Declaration { names, .. } => names_cells(layout, names.as_slice()),
        Stmt::Block { .. } => 0,
        Stmt::If { .. } => 0,
        Stmt::IfElse { .. } => 0,
        Stmt::While { .. } => 0,
        Stmt::Do { .. } => 0,
        Stmt::For { .. } => 0,
        Stmt::Switch { .. } => 0,
        Stmt::Empty { .. } => 0,
        Stmt::Expression { .. } => 0,
        Stmt::Break { .. } => 0,
        Stmt::Continue { .. } => 0,
        Stmt::Return { .. } => 0,
        Stmt::Case { .. } => 0,
        Stmt::Default { .. } => 0,
    }
}
