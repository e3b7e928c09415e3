//! The positions of variables, in the order of their numbers.

ghost use Rattle.std.specs.Prelude.{◌≡◌, ◌++◌, ◌+◌, ◌<◌, IfOk, OnErr, OnOk};
ghost use Rattle.std.specs.Option.{option_map};
ghost use Rattle.nss_tree.specs.Reading.{tree_of_stmts};
ghost use Rattle.nss_tree.specs.Statements.{map_stmts};
ghost use Rattle.typing_rules.specs.Reading.{plain};
ghost use Rattle.typing_rules.specs.UnitReading.{typed_items, typed_item, typed_names, typed_stmt};
ghost use Rattle.typing_rules.specs.UnitReading.{typed_stmts};
ghost use Rattle.emission_rules.specs.Layout as laid;

use crate::structs::cells_of;
use nss_tree::{Item, Stmt};
use nwq_value::{Items, NoMemory, Ty};
use typing_rules::{TypedItem, TypedName, TypedParameter, TypedStmt};

/// So many cells more. It fails exactly where a frame passes the budget of 4,294,967,295 cells; a
/// body that is typed has 2^28 at most.
fn deeper(depth: u32, cells: usize) -> Result<u32, NoMemory>
    ensures sum { IfOk result (λ all. all ≡ depth + cells) }
    ensures passed { OnErr result (4294967295 < depth + cells) }
{
    if cells > (u32::MAX - depth) as usize {
        return Err(NoMemory);
    }
    Ok(depth + cells as u32)
}

/// How many cells parameters have together.
fn params_cells(structs: &[Items<Ty>], parameters: &[TypedParameter]) -> Result<u32, NoMemory>
    ensures { IfOk result (λ cells. cells ≡ laid.params_cells structs.now parameters.now) }
{
    let mut cells = 0;
    for parameter in parameters {
        cells = deeper(cells, cells_of(structs, parameter.ty))?;
    }
    Ok(cells)
}

/// Puts the positions of parameters last, where they have so many cells together: the last
/// parameter stands at the bottom.
fn params_positions(
    structs: &[Items<Ty>],
    positions: &mut Items<u32>,
    cells: u32,
    parameters: &[TypedParameter],
) -> Result<(), NoMemory>
    requires all { cells ≡ laid.params_cells structs.now parameters.now }
    ensures { OnOk result (positions.new
        ≡ positions.old ++ laid.params_positions structs.now parameters.now) }
{
    let mut above = cells;
    for parameter in parameters {
        above -= cells_of(structs, parameter.ty) as u32;
        positions.push(above)?;
    }
    Ok(())
}

/// The depth behind names that are declared from this depth on.
fn names_behind(structs: &[Items<Ty>], mut depth: u32, names: &[TypedName]) -> Result<u32, NoMemory>
    ensures { IfOk result
        (λ behind. behind ≡ depth + laid.names_cells structs.now (typed_names names.now)) }
{
    for name in names {
        depth = deeper(depth, cells_of(structs, name.name.ty))?;
    }
    Ok(depth)
}

/// Puts the positions of names last that are declared from this depth on.
fn names_positions(
    structs: &[Items<Ty>],
    positions: &mut Items<u32>,
    mut depth: u32,
    names: &[TypedName],
) -> Result<(), NoMemory>
    ensures { OnOk result (positions.new
        ≡ positions.old ++ laid.names_positions structs.now depth (typed_names names.now)) }
{
    for name in names {
        positions.push(depth)?;
        depth = deeper(depth, cells_of(structs, name.name.ty))?;
    }
    Ok(())
}

/// The depth behind a statement.
#[tactic(auto, using(nss_tree::specs::Readings::plain_cases))]
fn behind(structs: &[Items<Ty>], depth: u32, stmt: &TypedStmt) -> Result<u32, NoMemory>
    ensures { IfOk result
        (λ behind. behind ≡ depth + laid.declared_cells structs.now (typed_stmt stmt.now)) }
{
    match stmt {
        Stmt::Declaration { names, .. } => names_behind(structs, depth, names.as_slice()),
        Stmt::Block { .. } => Ok(depth),
        Stmt::If { .. } => Ok(depth),
        Stmt::IfElse { .. } => Ok(depth),
        Stmt::While { .. } => Ok(depth),
        Stmt::Do { .. } => Ok(depth),
        Stmt::For { .. } => Ok(depth),
        Stmt::Switch { .. } => Ok(depth),
        Stmt::Empty { .. } => Ok(depth),
        Stmt::Expression { .. } => Ok(depth),
        Stmt::Break { .. } => Ok(depth),
        Stmt::Continue { .. } => Ok(depth),
        Stmt::Return { .. } => Ok(depth),
        Stmt::Case { .. } => Ok(depth),
        Stmt::Default { .. } => Ok(depth),
    }
}

/// Puts the positions of what a statement declares last.
#[cycle(statements)]
#[tactic(auto, using(nss_tree::specs::Readings::plain_cases))]
fn stmt_positions(
    structs: &[Items<Ty>],
    positions: &mut Items<u32>,
    depth: u32,
    stmt: &TypedStmt,
) -> Result<(), NoMemory>
    ensures { OnOk result (positions.new
        ≡ positions.old ++ laid.positions structs.now depth (typed_stmt stmt.now)) }
{
    match stmt {
        Stmt::Declaration { names, .. } => {
            names_positions(structs, positions, depth, names.as_slice())
        }
        Stmt::Block { items, .. } => stmts_positions(structs, positions, depth, items.as_slice()),
        Stmt::If { then, .. } => stmt_positions(structs, positions, depth, then),
        Stmt::IfElse {
            then,
            otherwise,
            ..
        } => {
            stmt_positions(structs, positions, depth, then)?;
            stmt_positions(structs, positions, depth, otherwise)
        }
        Stmt::While { body, .. } => stmt_positions(structs, positions, depth, body),
        Stmt::Do { body, .. } => stmt_positions(structs, positions, depth, body),
        Stmt::For { body, .. } => stmt_positions(structs, positions, depth, body),
        Stmt::Switch { body, .. } => {
            let depth = deeper(depth, 1)?;
            stmts_positions(structs, positions, depth, body.as_slice())
        }
        Stmt::Empty { .. } => Ok(()),
        Stmt::Expression { .. } => Ok(()),
        Stmt::Break { .. } => Ok(()),
        Stmt::Continue { .. } => Ok(()),
        Stmt::Return { .. } => Ok(()),
        Stmt::Case { .. } => Ok(()),
        Stmt::Default { .. } => Ok(()),
    }
}

/// The same of statements in a row.
#[cycle(statements)]
fn stmts_positions(
    structs: &[Items<Ty>],
    positions: &mut Items<u32>,
    mut depth: u32,
    stmts: &[TypedStmt],
) -> Result<(), NoMemory>
    ensures { OnOk result (positions.new
        ≡ positions.old ++ laid.all_positions structs.now depth (typed_stmts stmts.now)) }
{
    for stmt in stmts {
        stmt_positions(structs, positions, depth, stmt)?;
        depth = behind(structs, depth, stmt)?;
    }
    Ok(())
}

/// Puts the positions of a function's variables last.
fn function_positions(
    structs: &[Items<Ty>],
    positions: &mut Items<u32>,
    parameters: &[TypedParameter],
    body: &Option<Items<TypedStmt>>,
) -> Result<(), NoMemory>
    ensures { OnOk result (positions.new
        ≡ positions.old
        ++ (laid.params_positions structs.now parameters.now
        ++ laid.body_positions structs.now (laid.params_cells structs.now parameters.now)
        (option_map (map_stmts plain) (option_map tree_of_stmts body.now)))) }
{
    let depth = params_cells(structs, parameters)?;
    params_positions(structs, positions, depth, parameters)?;
    match body {
        None => Ok(()),
        Some(body) => stmts_positions(structs, positions, depth, body.as_slice()),
    }
}

/// How many cells of globals stand behind an item.
fn globals_behind(structs: &[Items<Ty>], globals: u32, item: &TypedItem) -> Result<u32, NoMemory>
    ensures { IfOk result
        (λ behind. behind ≡ globals + laid.item_cells structs.now (typed_item item.now)) }
{
    match item {
        Item::Struct { .. } => Ok(globals),
        Item::Const { .. } => Ok(globals),
        Item::Global { names, .. } => names_behind(structs, globals, names.as_slice()),
        Item::Function { .. } => Ok(globals),
    }
}

/// Puts the positions of what an item declares last, where so many cells of globals stand before
/// it.
fn item_positions(
    structs: &[Items<Ty>],
    positions: &mut Items<u32>,
    globals: u32,
    item: &TypedItem,
) -> Result<(), NoMemory>
    ensures { OnOk result (positions.new
        ≡ positions.old ++ laid.item_positions structs.now globals (typed_item item.now)) }
{
    match item {
        Item::Struct { .. } => Ok(()),
        Item::Const { .. } => Ok(()),
        Item::Global { names, .. } => {
            names_positions(structs, positions, globals, names.as_slice())
        }
        Item::Function {
            parameters,
            body,
            ..
        } => function_positions(structs, positions, parameters.as_slice(), body),
    }
}

/// Puts the positions of all variables last, and gives the cells of all globals.
pub(crate) fn items_positions(
    structs: &[Items<Ty>],
    positions: &mut Items<u32>,
    items: &[TypedItem],
) -> Result<u32, NoMemory>
    ensures positions { OnOk result (positions.new
        ≡ positions.old ++ laid.items_positions structs.now 0 (typed_items items.now)) }
    ensures globals { IfOk result
        (λ globals. globals ≡ laid.global_cells structs.now (typed_items items.now)) }
{
    let mut globals = 0;
    for item in items {
        item_positions(structs, positions, globals, item)?;
        globals = globals_behind(structs, globals, item)?;
    }
    Ok(globals)
}
