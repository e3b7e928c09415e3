//! The code of a whole unit: its start, and its functions.

ghost use Rattle.std.specs.Prelude.{◌≡◌, ◌++◌, ◌+◌, ◌<◌, ◌≤◌, ◌^◌, ◌∷◌, [], ℕ, List, None, true};
ghost use Rattle.std.specs.Prelude.{IfErr, IfOk, OnOk, if◌then◌else◌};
ghost use Rattle.nwq_value.specs.Limits.{file_limit};
ghost use Rattle.ncs_code.specs.File.{file_length};
ghost use Rattle.ncs_code.specs.Plain as ops;
ghost use Rattle.ncs_emit.specs.Faults.{EmitFails};
ghost use Rattle.ncs_emit.specs.Labelled.{Instruction, JumpTo, Label, placements, program};
ghost use Rattle.ncs_emit.specs.declared.jump.Jump.TheVariants.{Jsr};
ghost use Rattle.emission_rules.specs.Operations.{dropped};
ghost use Rattle.typing_rules.specs.Typed as typed;
ghost use Rattle.typing_rules.specs.UnitReading.{typed_item, typed_items, typed_stmts, typed_unit};
ghost use Rattle.emission_rules.specs.Bounds.{AreItems, IsBounded, IsEntry, frame_limit};
ghost use Rattle.emission_rules.specs.Bounds.{globals_weight};
ghost use Rattle.emission_rules.specs.Layout as laid;
ghost use Rattle.emission_rules.specs.Statements as code;
ghost use Rattle.emission_rules.specs.Units as units;
ghost use Rattle.codegen_expr.specs.Emitted.{extended};
ghost use Rattle.codegen_unit.specs.Ready.{AreFunctionsOpen, FunctionsReady, GlobalsReady};
ghost use Rattle.codegen_unit.specs.Ready.{StmtsReady};

use crate::declarations::{emit_names, names_cells};
use crate::exits::no_exits;
use crate::statements::statements;
use crate::switches::make_labels;
use codegen_expr::drop_cells;
use emission_rules::laws::each_placed_once;
use emission_rules::parts::places_above;
use ncs_code::Op;
use ncs_emit::{EmitFault, Emitter, Jump, part_laws};
use nss_layout::{Layout, lay};
use nss_tree::Item;
use nwq_value::NoMemory;
use std::alloc::Global;
use typing_rules::{EntryPoint, Typed, TypedItem, TypedParameter, TypedStmt};

/// Why a file was not made: it would be so large, or memory ran out.
pub type GenFault = EmitFault;

/// How many cells parameters have together.
fn params_cells(layout: &Layout, parameters: &[TypedParameter]) -> u32
    requires few { laid.params_cells layout.now.structs parameters.now ≤ frame_limit }
    ensures { result ≡ laid.params_cells layout.now.structs parameters.now }
{
    let mut cells = 0;
    for parameter in parameters {
        cells += layout.cells(parameter.ty);
    }
    cells
}

/// Adds the code of a function at the label of its number.
#[tactic(auto, unfolding(ncs_code::specs::Spelling::has_type))]
fn emit_function(
    out: &mut Emitter,
    layout: &Layout,
    number: u32,
    parameters: &[TypedParameter],
    body: &[TypedStmt],
) -> Result<(), NoMemory>
    requires ready { StmtsReady out.old.labels layout.now
        (laid.params_cells layout.now.structs parameters.now)
        (record { break_to = None; continue_to = None }) (typed_stmts body.now) }
    requires made { number < out.old.labels }
    requires unplaced { placements out.old.lines number ≡ 0 }
    ensures code { OnOk result (out.new ≡ extended out.old
        (units.emit_function layout.now out.old.labels number parameters.now (typed_stmts body.now))
        (code.all_stmt_labels (typed_stmts body.now))) }
    ensures others { OnOk result ((label : ℕ) → number < label → label < out.old.labels
        → placements out.new.lines label ≡ placements out.old.lines label) }
{
    part_laws();
    places_above();
    out.place(number);
    let depth = params_cells(layout, parameters);
    let behind = statements(out, layout, no_exits(), None, body, depth)?;
    drop_cells(out, behind - depth)?;
    drop_cells(out, depth)?;
    out.op(&Op::Retn)
}

/// Adds the code of an item, if it is a function with a body, at the label of this number, and
/// gives the number of the next function.
fn emit_item(
    out: &mut Emitter,
    layout: &Layout,
    number: u32,
    item: &TypedItem,
) -> Result<u32, NoMemory>
    requires ready { FunctionsReady out.old.labels layout.now (typed_item item.now ∷ []) }
    requires open { AreFunctionsOpen out.old.labels out.old.lines number
        (typed_item item.now ∷ []) }
    ensures code { IfOk result (λ next. (rest : List typed.TypedItem) →
        extended out.old
        (units.emit_functions layout.now out.old.labels number (typed_item item.now ∷ rest))
        (units.functions_labels (typed_item item.now ∷ rest))
        ≡ extended out.new (units.emit_functions layout.now out.new.labels next rest)
        (units.functions_labels rest)) }
    ensures labels { OnOk result (out.new.labels
        ≡ out.old.labels + units.functions_labels (typed_item item.now ∷ [])) }
    ensures number { IfOk result
        (λ next. next ≡ number + units.body_count (typed_item item.now ∷ [])) }
    ensures others { IfOk result (λ next. (label : ℕ) → next ≤ label → label < out.old.labels
        → placements out.new.lines label ≡ placements out.old.lines label) }
{
    match item {
        Item::Struct { .. } => Ok(number),
        Item::Const { .. } => Ok(number),
        Item::Global { .. } => Ok(number),
        Item::Function {
            parameters,
            body,
            ..
        } => match body {
            None => Ok(number),
            Some(body) => {
                emit_function(out, layout, number, parameters.as_slice(), body.as_slice())?;
                Ok(number + 1)
            }
        },
    }
}

/// Adds the code of all functions, in the order of their bodies.
fn emit_functions(out: &mut Emitter, layout: &Layout, items: &[TypedItem]) -> Result<(), NoMemory>
    requires ready { FunctionsReady out.old.labels layout.now (typed_items items.now) }
    requires open { AreFunctionsOpen out.old.labels out.old.lines 0 (typed_items items.now) }
    ensures { OnOk result (out.new ≡ extended out.old
        (units.emit_functions layout.now out.old.labels 0 (typed_items items.now))
        (units.functions_labels (typed_items items.now))) }
{
    let mut number = 0;
    for item in items {
        number = emit_item(out, layout, number, item)?;
    }
    Ok(())
}

/// Makes the cells of the globals of an item, and gives the depth behind them.
fn emit_global(
    out: &mut Emitter,
    layout: &Layout,
    depth: u32,
    item: &TypedItem,
) -> Result<u32, NoMemory>
    requires ready { GlobalsReady out.old.labels layout.now depth (typed_item item.now ∷ []) }
    ensures code { IfOk result (λ behind. (rest : List typed.TypedItem) →
        extended out.old
        (units.emit_globals layout.now out.old.labels depth (typed_item item.now ∷ rest))
        (units.globals_labels (typed_item item.now ∷ rest))
        ≡ extended out.new (units.emit_globals layout.now out.new.labels behind rest)
        (units.globals_labels rest)) }
    ensures labels { OnOk result (out.new.labels
        ≡ out.old.labels + units.globals_labels (typed_item item.now ∷ [])) }
    ensures depth { IfOk result (λ behind. behind
        ≡ depth + laid.item_cells layout.now.structs (typed_item item.now)) }
{
    match item {
        Item::Struct { .. } => Ok(depth),
        Item::Const { .. } => Ok(depth),
        Item::Function { .. } => Ok(depth),
        Item::Global { names, .. } => {
            emit_names(out, layout, names.as_slice(), depth)?;
            Ok(depth + names_cells(layout, names.as_slice()))
        }
    }
}

/// Makes the cells of all globals, one after another.
fn emit_globals(out: &mut Emitter, layout: &Layout, items: &[TypedItem]) -> Result<(), NoMemory>
    requires ready { GlobalsReady out.old.labels layout.now 0 (typed_items items.now) }
    ensures { OnOk result (out.new ≡ extended out.old
        (units.emit_globals layout.now out.old.labels 0 (typed_items items.now))
        (units.globals_labels (typed_items items.now))) }
{
    let mut depth = 0;
    for item in items {
        depth = emit_global(out, layout, depth, item)?;
    }
    Ok(())
}

/// Whether a unit declares globals.
fn has_globals(items: &[TypedItem]) -> bool
    ensures { result ≡ units.has_globals (typed_items items.now) }
{
    for item in items {
        if is_global(item) {
            return true;
        }
    }
    false
}

fn is_global(item: &TypedItem) -> bool
    ensures { (rest : List typed.TypedItem) → units.has_globals (typed_item item.now ∷ rest)
        ≡ if result then true else units.has_globals rest }
{
    match item {
        Item::Struct { .. } => false,
        Item::Const { .. } => false,
        Item::Function { .. } => false,
        Item::Global { .. } => true,
    }
}

/// One for a function with a body.
fn body_of(item: &TypedItem) -> u32
    ensures count { (rest : List typed.TypedItem) → units.body_count (typed_item item.now ∷ rest)
        ≡ result + units.body_count rest }
    ensures small { result ≤ 1 }
{
    match item {
        Item::Struct { .. } => 0,
        Item::Const { .. } => 0,
        Item::Global { .. } => 0,
        Item::Function { body, .. } => match body {
            None => 0,
            Some(_) => 1,
        },
    }
}

/// How many functions with bodies a unit has.
fn body_count(items: &[TypedItem]) -> u32
    requires small { units.body_count (typed_items items.now) < 2 ^ 32 }
    ensures { result ≡ units.body_count (typed_items items.now) }
{
    let mut count = 0;
    for item in items {
        count += body_of(item);
    }
    count
}

/// Calls the function that a script begins with, and takes off its result.
#[tactic(auto, unfolding(ncs_code::specs::Spelling::has_type))]
fn emit_entry(out: &mut Emitter, entry: EntryPoint) -> Result<(), NoMemory>
    requires made { IsEntry out.old.labels entry }
    ensures { OnOk result (out.new
        ≡ record out.old { lines = out.old.lines ++ units.entry_call entry }) }
{
    match entry {
        EntryPoint::Main(number) => out.jump(Jump::Jsr, number),
        EntryPoint::Conditional(number) => {
            out.op(&Op::RsAdd { kind: 0x03 })?;
            out.jump(Jump::Jsr, number)?;
            drop_cells(out, 1)
        }
    }
}

/// Begins on top of the globals, and takes them off at the end.
#[tactic(auto, unfolding(ncs_code::specs::Spelling::has_type))]
fn emit_main(out: &mut Emitter, layout: &Layout, entry: EntryPoint) -> Result<(), NoMemory>
    requires made { IsEntry out.old.labels entry }
    requires globals { layout.now.globals ≤ frame_limit }
    ensures { OnOk result (out.new ≡ record out.old {
      lines = out.old.lines
          ++ (Instruction ops.SaveBp
          ∷ (units.entry_call entry
          ++ (Instruction ops.RestoreBp
          ∷ (dropped layout.now.globals ++ Instruction ops.Retn ∷ []))));
    }) }
{
    out.op(&Op::SaveBp)?;
    emit_entry(out, entry)?;
    out.op(&Op::RestoreBp)?;
    drop_cells(out, layout.globals())?;
    out.op(&Op::Retn)
}

/// Calls what makes the globals, and begins it.
#[tactic(auto, unfolding(ncs_code::specs::Spelling::has_type))]
fn begin_globals(out: &mut Emitter) -> Result<(), NoMemory>
    requires small { out.old.labels + 1 < 2 ^ 32 }
    ensures { OnOk result (out.new ≡ extended out.old
        (JumpTo Jsr out.old.labels ∷ Instruction ops.Retn ∷ Label out.old.labels ∷ []) 1) }
{
    part_laws();
    let init = out.label()?;
    out.jump(Jump::Jsr, init)?;
    out.op(&Op::Retn)?;
    out.place(init);
    Ok(())
}

/// Adds the start of a unit with globals.
fn emit_init(
    out: &mut Emitter,
    layout: &Layout,
    items: &[TypedItem],
    entry: EntryPoint,
) -> Result<(), NoMemory>
    requires ready { GlobalsReady (out.old.labels + 1) layout.now 0 (typed_items items.now) }
    requires made { IsEntry out.old.labels entry }
    ensures { OnOk result (out.new ≡ extended out.old
        (units.emit_start layout.now out.old.labels true (typed_items items.now) entry)
        (units.start_labels true (typed_items items.now))) }
{
    begin_globals(out)?;
    emit_globals(out, layout, items)?;
    emit_main(out, layout, entry)
}

/// Adds the start of a unit.
#[tactic(auto, unfolding(ncs_code::specs::Spelling::has_type))]
fn emit_start(
    out: &mut Emitter,
    layout: &Layout,
    items: &[TypedItem],
    entry: EntryPoint,
) -> Result<(), NoMemory>
    requires ready { GlobalsReady out.old.labels layout.now 0 (typed_items items.now) }
    requires small { out.old.labels
        + units.start_labels (units.has_globals (typed_items items.now)) (typed_items items.now)
        < 2 ^ 32 }
    requires made { IsEntry out.old.labels entry }
    ensures { OnOk result (out.new ≡ extended out.old
        (units.emit_start layout.now out.old.labels (units.has_globals (typed_items items.now))
        (typed_items items.now) entry)
        (units.start_labels (units.has_globals (typed_items items.now))
        (typed_items items.now))) }
{
    if has_globals(items) {
        return emit_init(out, layout, items, entry);
    }
    emit_entry(out, entry)?;
    out.op(&Op::Retn)
}

/// Adds the code of a unit to none.
fn emit_unit(out: &mut Emitter, layout: &Layout, unit: &Typed) -> Result<(), NoMemory>
    requires bounded { IsBounded (typed_unit unit.now) }
    requires few { (units.unit_code (typed_unit unit.now)).labels < 2 ^ 32 }
    requires laid { layout.now ≡ laid.layout_of (typed_unit unit.now) }
    requires lines { out.old.lines ≡ [] }
    requires labels { out.old.labels ≡ 0 }
    ensures { OnOk result (out.new ≡ units.unit_code (typed_unit unit.now)) }
{
    part_laws();
    places_above();
    let items = unit.items.as_slice();
    make_labels(out, body_count(items))?;
    emit_start(out, layout, items, unit.entry)?;
    emit_functions(out, layout, items)
}

/// The file of a typed unit, or the size of one that is too large.
pub fn generate(alloc: Global, unit: &Typed) -> Result<Vec<u8>, GenFault>
    requires bounded { IsBounded (typed_unit unit.now) }
    requires few { (units.unit_code (typed_unit unit.now)).labels < 2 ^ 32 }
    ensures file { IfOk result (λ bytes. bytes.items ≡ units.unit_file (typed_unit unit.now)) }
    ensures small { OnOk result
        (file_length (program (units.unit_code (typed_unit unit.now)).lines) ≤ file_limit) }
    ensures fault { IfErr result
        (λ fault. EmitFails fault (units.unit_code (typed_unit unit.now)).lines) }
{
    each_placed_once();
    let layout = lay(alloc, unit)?;
    let mut out = Emitter::new(alloc);
    emit_unit(&mut out, &layout, unit)?;
    out.finish(alloc)
}
