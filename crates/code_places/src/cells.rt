//! Which values and declarations have cells.

ghost use Rattle.std.specs.Prelude.{◌≡◌, ◌||◌};
ghost use Rattle.typing_rules.specs.Cells.{cells};
ghost use Rattle.typing_rules.specs.UnitReading.{typed_names, typed_stmt, typed_stmts};
ghost use Rattle.emission_rules.specs.Layout.{all_declared_cells, declared_cells, names_cells};
ghost use Rattle.emission_rules.specs.Layout.{params_cells};
ghost use Rattle.code_places.specs.Marks.{some};

use nss_layout::Layout;
use nss_tree::Stmt;
use nwq_value::Ty;
use typing_rules::{TypedName, TypedParameter, TypedStmt};

/// How many cells a value of the type has.
pub(crate) fn cell_count(layout: &Layout, ty: Ty) -> usize
    ensures { result ≡ cells layout.now.structs ty }
{
    match ty {
        Ty::Void => 0,
        Ty::Struct(number) => layout.struct_cells(number).len(),
        Ty::Int | Ty::Text | Ty::Object | Ty::Effect | Ty::Event | Ty::Action | Ty::Refused => 1,
    }
}

/// Whether a value of the type has cells.
#[tactic(auto, using(crate::proofs::Seeking::more_than_none))]
pub(crate) fn has_cells(layout: &Layout, ty: Ty) -> bool
    ensures { result ≡ some (cells layout.now.structs ty) }
{
    cell_count(layout, ty) > 0
}

/// Whether one of the two.
pub(crate) fn either(a: bool, b: bool) -> bool
    ensures { result ≡ (a || b) }
{
    if a { true } else { b }
}

/// Whether declared names have cells.
pub(crate) fn names_have_cells(layout: &Layout, names: &[TypedName]) -> bool
    ensures { result ≡ some (names_cells layout.now.structs (typed_names names.now)) }
{
    let mut any = false;
    for name in names {
        any = either(any, has_cells(layout, name.name.ty));
    }
    any
}

/// Whether parameters have cells.
pub(crate) fn parameters_have_cells(layout: &Layout, parameters: &[TypedParameter]) -> bool
    ensures { result ≡ some (params_cells layout.now.structs parameters.now) }
{
    let mut any = false;
    for parameter in parameters {
        any = either(any, has_cells(layout, parameter.ty));
    }
    any
}

/// Whether a statement leaves the frame deeper than it was.
#[tactic(auto, using(nss_tree::specs::Readings::plain_cases))]
pub(crate) fn declares(layout: &Layout, stmt: &TypedStmt) -> bool
    ensures { result ≡ some (declared_cells layout.now.structs (typed_stmt stmt.now)) }
{
    match stmt {
        Stmt::Declaration { names, .. } => names_have_cells(layout, names.as_slice()),
        Stmt::Block { .. } => false,
        Stmt::Empty { .. } => false,
        Stmt::Expression { .. } => false,
        Stmt::If { .. } => false,
        Stmt::IfElse { .. } => false,
        Stmt::While { .. } => false,
        Stmt::Do { .. } => false,
        Stmt::For { .. } => false,
        Stmt::Switch { .. } => false,
        Stmt::Break { .. } => false,
        Stmt::Continue { .. } => false,
        Stmt::Return { .. } => false,
        Stmt::Case { .. } => false,
        Stmt::Default { .. } => false,
    }
}

/// Whether statements in a row do.
pub(crate) fn all_declare(layout: &Layout, stmts: &[TypedStmt]) -> bool
    ensures { result ≡ some (all_declared_cells layout.now.structs (typed_stmts stmts.now)) }
{
    let mut any = false;
    for stmt in stmts {
        any = either(any, declares(layout, stmt));
    }
    any
}
