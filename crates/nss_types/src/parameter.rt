//! Parameters of a function.

ghost use Rattle.std.specs.Prelude.{◌≡◌, ◌++◌, ◌&&◌, not, false, IfOk, OnOk, Some};
ghost use Rattle.std.specs.Option.{option_map};
ghost use Rattle.typing_rules.specs.declared.fault.FaultKind.TheVariants as kind;
ghost use Rattle.typing_rules.specs.Nodes.{asked, at, faults_there, fine, first_kind, if_there};
ghost use Rattle.typing_rules.specs.Nodes.{kept};
ghost use Rattle.typing_rules.specs.Nodes.{no_row, only, row, two};
ghost use Rattle.typing_rules.specs.Rules.{default_fits, is_behind, is_missing, is_refused};
ghost use Rattle.typing_rules.specs.Rules.{parameter_rows, parameter_rule};
ghost use Rattle.typing_rules.specs.Verdicts.{after_params, constant_faults, late_after};
ghost use Rattle.typing_rules.specs.Verdicts.{parameter_declared};
ghost use Rattle.typing_rules.specs.Verdicts.{parameter_verdict, params_faults, params_fine};
ghost use Rattle.nss_scopes.specs.Entries.{meant_of};
ghost use Rattle.nss_scopes.specs.Views.{in_sight};
ghost use Rattle.nss_statements.specs.Faults.{fault_unless};

use nss_expressions::constant::constant_there;
use nss_expressions::line::{declared_type, type_means, value_type};
use nss_expressions::note::note;
use nss_expressions::row::and_last;
use nss_scopes::{Meant, Sight};
use nss_tree::Parameter;
use nwq_value::{Const, Items, NoMemory, Table, Ty};
use std::alloc::Global;
use typing_rules::rules::same_type;
use typing_rules::{Fault, FaultKind, TypedParameter, Variable};

fn default_fits(ty: Ty, value: &Option<Const>) -> bool
    ensures { result ≡ default_fits ty value.now }
{
    match value {
        None => true,
        Some(value) => same_type(ty, value.ty()),
    }
}

/// Whether one with a default stands before, and this one has none.
fn is_behind(late: bool, value: &Option<Const>) -> bool
    ensures { result ≡ is_behind late value.now }
{
    if late { value.is_none() } else { false }
}

/// Whether one with a default stands before the next one.
fn late_after(late: bool, p: &Parameter) -> bool
    ensures { result ≡ late_after late p.now }
{
    if late { true } else { p.default.is_some() }
}

/// The fault of a parameter whose type is one of a value, if it has one.
fn parameter_fault(is_taken: bool, is_behind: bool, fits: bool, crosses: bool) -> Option<FaultKind>
    ensures { result ≡ fault_unless (not is_taken && (not is_behind && (fits && not crosses)))
        (first_kind (row kind.Redeclared is_taken (row kind.Arity is_behind
        (row kind.Mismatch (not fits) (row kind.Cells crosses no_row))))) }
{
    if is_taken {
        Some(FaultKind::Redeclared)
    } else if is_behind {
        Some(FaultKind::Arity)
    } else if !fits {
        Some(FaultKind::Mismatch)
    } else if crosses {
        Some(FaultKind::Cells)
    } else {
        None
    }
}

/// The kind of fault of a parameter whose type is none of a value.
fn untyped_kind(meant: Meant, is_taken: bool, is_behind: bool) -> FaultKind
    ensures { result ≡ first_kind (row kind.RefusedType (is_refused (meant_of meant))
        (row kind.Unknown (is_missing (meant_of meant)) (row kind.Redeclared is_taken
        (row kind.Arity is_behind (only kind.Mismatch))))) }
{
    match meant {
        Meant::Refused => FaultKind::RefusedType,
        Meant::Missing => FaultKind::Unknown,
        Meant::Is(_) => {
            if is_taken {
                FaultKind::Redeclared
            } else if is_behind {
                FaultKind::Arity
            } else {
                FaultKind::Mismatch
            }
        }
    }
}

/// A parameter of which this type and this default are known; `late` says that one with a default
/// stands before.
fn judge_parameter(
    table: &Table,
    c: &Sight,
    least: &mut Option<Fault>,
    late: bool,
    p: &Parameter,
    meant: Meant,
    value: Option<Const>,
) -> Option<TypedParameter>
    ensures value { result ≡ fine (asked (parameter_rows (in_sight table.now c.now) late p.now)
        (parameter_rule (in_sight table.now c.now) late p.now) (Some (meant_of meant, value))) }
    ensures least { least.new ≡ kept least.old (at p.now.token
        (asked (parameter_rows (in_sight table.now c.now) late p.now)
        (parameter_rule (in_sight table.now c.now) late p.now) (Some (meant_of meant, value)))) }
{
    let is_taken = c.is_taken(table, p.name.bytes());
    let is_behind = is_behind(late, &value);
    match value_type(meant) {
        None => {
            drop(value);
            note(least, untyped_kind(meant, is_taken, is_behind), p.token);
            None
        }
        Some(ty) => {
            let fits = default_fits(ty, &value);
            let crosses = c.crosses_with(c.structs.cells(ty));
            match parameter_fault(is_taken, is_behind, fits, crosses) {
                None => Some(Parameter {
                    token: p.token,
                    ty,
                    name: Variable { number: c.next, ty },
                    default: value,
                }),
                Some(kind) => {
                    drop(value);
                    note(least, kind, p.token);
                    None
                }
            }
        }
    }
}

/// A parameter by what is known of its type and its default.
fn judge_parts(
    table: &Table,
    c: &Sight,
    least: &mut Option<Fault>,
    late: bool,
    p: &Parameter,
    meant: Option<Meant>,
    value: Option<Option<Const>>,
) -> Option<TypedParameter>
    ensures value { result ≡ fine (asked (parameter_rows (in_sight table.now c.now) late p.now)
        (parameter_rule (in_sight table.now c.now) late p.now)
        (two (option_map meant_of meant) value)) }
    ensures least { least.new ≡ kept least.old (at p.now.token
        (asked (parameter_rows (in_sight table.now c.now) late p.now)
        (parameter_rule (in_sight table.now c.now) late p.now)
        (two (option_map meant_of meant) value))) }
{
    match (meant, value) {
        (Some(meant), Some(value)) => judge_parameter(table, c, least, late, p, meant, value),
        (Some(_), None) => None,
        (None, value) => {
            drop(value);
            None
        }
    }
}

/// A parameter with its default; it is in sight behind it.
fn parameter(
    alloc: Global,
    table: &Table,
    c: &mut Sight,
    least: &mut Option<Fault>,
    late: bool,
    p: &Parameter,
) -> Result<Option<TypedParameter>, NoMemory>
    ensures value { IfOk result
        (λ r. r ≡ fine (parameter_verdict (in_sight table.now c.old) late p.now)) }
    ensures least { OnOk result (least.new ≡ kept least.old
        (faults_there (constant_faults (in_sight table.now c.old)) p.now.default
        ++ at p.now.token (parameter_verdict (in_sight table.now c.old) late p.now))) }
    ensures sight { OnOk result (in_sight table.now c.new
        ≡ parameter_declared (in_sight table.now c.old) p.now) }
{
    let value = constant_there(alloc, table, c, least, &p.default)?;
    let meant = type_means(&c.structs, &p.ty);
    let typed = judge_parts(table, c, least, late, p, meant, value);
    let ty = declared_type(&c.structs, &p.ty);
    match c.declare(alloc, &p.name, ty) {
        Ok(()) => Ok(typed),
        Err(error) => {
            drop(typed);
            Err(error)
        }
    }
}

/// The parameters of a function.
pub fn parameters(
    alloc: Global,
    table: &Table,
    c: &mut Sight,
    least: &mut Option<Fault>,
    ps: &[Parameter],
) -> Result<Option<Items<TypedParameter>>, NoMemory>
    ensures value { IfOk result
        (λ r. r ≡ params_fine (in_sight table.now c.old) false ps.now) }
    ensures least { OnOk result (least.new ≡ kept least.old
        (params_faults (in_sight table.now c.old) false ps.now)) }
    ensures sight { OnOk result (in_sight table.now c.new
        ≡ after_params (in_sight table.now c.old) ps.now) }
{
    let mut all = Some(Items::new(alloc));
    let mut late = false;
    for p in ps {
        let one = parameter(alloc, table, c, least, late, p)?;
        all = and_last(all, one)?;
        late = late_after(late, p);
    }
    Ok(all)
}
