//! Labels of a switch.

ghost use Rattle.std.specs.Prelude.{◌≡◌, ◌++◌, ◌&&◌, not, IfOk, OnOk, Some};
ghost use Rattle.std.specs.Option.{option_map};
ghost use Rattle.nwq_value.specs.Engine.{EngineTable, const_type};
ghost use Rattle.nss_tree.specs.Statements as tree;
ghost use Rattle.typing_rules.specs.declared.fault.FaultKind.TheVariants as kind;
ghost use Rattle.typing_rules.specs.Nodes.{asked, at, fine, first_kind, kept, no_parts, only, row};
ghost use Rattle.typing_rules.specs.Rules.{case_rows, case_rule, default_rows, default_rule};
ghost use Rattle.typing_rules.specs.Rules.{has_default_label, is_again, is_outside};
ghost use Rattle.typing_rules.specs.Sight.{case_seen, default_seen};
ghost use Rattle.typing_rules.specs.Types.{is_int};
ghost use Rattle.typing_rules.specs.UnitReading.{typed_stmt};
ghost use Rattle.typing_rules.specs.Verdicts.{constant_faults, constant_value};
ghost use Rattle.nss_scopes.specs.Views.{in_sight};
ghost use Rattle.nss_statements.specs.Faults.{fault_unless};

use nss_expressions::constant::constant;
use nss_expressions::note::note;
use nss_expressions::rules::is_int;
use nss_scopes::{Labels, Sight};
use nss_tree::{Constant, Stmt};
use nwq_value::{Const, NoMemory, Table};
use std::alloc::Global;
use typing_rules::{Fault, FaultKind, TypedStmt};

/// Whether this case stood before in its switch.
fn is_again(labels: &Option<Labels>, value: &Const) -> bool
    ensures { result ≡ is_again labels.now value.now }
{
    match labels {
        Some(labels) => match value {
            Const::Int(value) => labels.has_case(*value),
            Const::Text(_) => false,
            Const::SelfObject => false,
            Const::InvalidObject => false,
        },
        None => false,
    }
}

/// Whether no label may stand here.
fn is_outside(labels: &Option<Labels>) -> bool
    ensures { result ≡ is_outside labels.now }
{
    match labels {
        Some(labels) => labels.is_late(),
        None => true,
    }
}

fn has_default_label(labels: &Option<Labels>) -> bool
    ensures { result ≡ has_default_label labels.now }
{
    match labels {
        Some(labels) => labels.has_default(),
        None => false,
    }
}

/// The fault of a case, if it has one.
fn case_fault(is_again: bool, is_outside: bool, is_int: bool) -> Option<FaultKind>
    ensures { result ≡ fault_unless (not is_again && (not is_outside && is_int))
        (first_kind (row kind.Redeclared is_again
        (row kind.Outside is_outside (only kind.Mismatch)))) }
{
    if is_again {
        Some(FaultKind::Redeclared)
    } else if is_outside {
        Some(FaultKind::Outside)
    } else if !is_int {
        Some(FaultKind::Mismatch)
    } else {
        None
    }
}

/// The fault of a `default`, if it has one.
fn default_fault(is_again: bool, is_outside: bool) -> Option<FaultKind>
    ensures { result ≡ fault_unless (not is_again && not is_outside)
        (first_kind (row kind.Redeclared is_again (only kind.Outside))) }
{
    if is_again {
        Some(FaultKind::Redeclared)
    } else if is_outside {
        Some(FaultKind::Outside)
    } else {
        None
    }
}

/// A case of this value.
fn judge_case(labels: &Option<Labels>, least: &mut Option<Fault>, token: u32, value: &Const) -> bool
    ensures value { result
        ≡ (not (is_again labels.now value.now) && (not (is_outside labels.now)
        && is_int (const_type value.now))) }
    ensures least { least.new ≡ kept least.old (at token
        (asked (case_rows labels.now) (case_rule labels.now token) (Some value.now))) }
{
    match case_fault(
        is_again(labels, value),
        is_outside(labels),
        is_int(value.ty()),
    ) {
        None => true,
        Some(kind) => {
            note(least, kind, token);
            false
        }
    }
}

/// A case of a constant that has this value; it is seen behind it.
fn case_of(
    sight: &mut Sight,
    least: &mut Option<Fault>,
    token: u32,
    value: Const,
) -> Result<Option<TypedStmt>, NoMemory>
    ensures value { IfOk result (λ r. option_map typed_stmt r
        ≡ fine (asked (case_rows sight.old.labels) (case_rule sight.old.labels token)
        (Some value))) }
    ensures least { OnOk result (least.new ≡ kept least.old (at token
        (asked (case_rows sight.old.labels) (case_rule sight.old.labels token) (Some value)))) }
    ensures sight { OnOk result ((table : EngineTable)
        → in_sight table sight.new ≡ case_seen (in_sight table sight.old) (Some value)) }
{
    let fits = judge_case(&sight.labels, least, token, &value);
    sight.see_case(&value)?;
    if fits {
        return Ok(Some(Stmt::case_label(token, value)));
    }
    Ok(None)
}

/// A case; it is seen behind it.
pub fn case(
    alloc: Global,
    table: &Table,
    sight: &mut Sight,
    least: &mut Option<Fault>,
    token: u32,
    value: &Constant,
) -> Result<Option<TypedStmt>, NoMemory>
    ensures value { IfOk result (λ r. option_map typed_stmt r
        ≡ fine (asked (case_rows sight.old.labels) (case_rule sight.old.labels token)
        (constant_value (in_sight table.now sight.old) value.now))) }
    ensures least { OnOk result (least.new ≡ kept least.old
        (constant_faults (in_sight table.now sight.old) value.now ++ at token
        (asked (case_rows sight.old.labels) (case_rule sight.old.labels token)
        (constant_value (in_sight table.now sight.old) value.now)))) }
    ensures sight { OnOk result (in_sight table.now sight.new
        ≡ case_seen (in_sight table.now sight.old)
        (constant_value (in_sight table.now sight.old) value.now)) }
{
    match constant(alloc, table, sight, least, value)? {
        Some(value) => case_of(sight, least, token, value),
        None => Ok(None),
    }
}

/// A `default`; it is seen behind it.
pub fn default(sight: &mut Sight, least: &mut Option<Fault>, token: u32) -> Option<TypedStmt>
    ensures value { option_map typed_stmt result
        ≡ fine (asked (default_rows sight.old.labels) (default_rule sight.old.labels token)
        no_parts) }
    ensures least { least.new ≡ kept least.old (at token
        (asked (default_rows sight.old.labels) (default_rule sight.old.labels token) no_parts)) }
    ensures sight { (table : EngineTable)
        → in_sight table sight.new ≡ default_seen (in_sight table sight.old) }
{
    let fault = default_fault(has_default_label(&sight.labels), is_outside(&sight.labels));
    sight.see_default();
    match fault {
        None => Some(Stmt::default_label(token)),
        Some(kind) => {
            note(least, kind, token);
            None
        }
    }
}
