//! Declared names of one line.

ghost use Rattle.std.specs.Prelude.{◌≡◌, ◌++◌, ◌&&◌, not, IfOk, OnOk};
ghost use Rattle.std.specs.Option.{option_map};
ghost use Rattle.nss_tree.specs.Reading.{plain_expr, plain_name, plain_names};
ghost use Rattle.typing_rules.specs.declared.fault.FaultKind.TheVariants as kind;
ghost use Rattle.typing_rules.specs.Nodes.{asked, at, faults_there, fine, first_kind, if_there};
ghost use Rattle.typing_rules.specs.Nodes.{kept};
ghost use Rattle.typing_rules.specs.Nodes.{no_row, row, two};
ghost use Rattle.typing_rules.specs.Reading.{plain};
ghost use Rattle.typing_rules.specs.Rules.{value_fits, variable_rows, variable_rule};
ghost use Rattle.typing_rules.specs.Sight.{declared};
ghost use Rattle.typing_rules.specs.UnitReading.{typed_name, typed_names};
ghost use Rattle.typing_rules.specs.Verdicts.{after_names, names_faults, names_fine, value};
ghost use Rattle.typing_rules.specs.Verdicts.{value_faults, variable_verdict};
ghost use Rattle.nss_scopes.specs.Views.{in_sight};
ghost use Rattle.nss_statements.specs.Faults.{fault_unless};
ghost use Rattle.nss_expressions.specs.Views.{heads_in, sight_in};

use nss_expressions::expression::expression;
use nss_expressions::given::Given;
use nss_expressions::note::note;
use nss_expressions::row::and_last;
use nss_scopes::Sight;
use nss_tree::{DeclaredName, Expr};
use nwq_value::{Items, NoMemory, Table, Ty};
use typing_rules::rules::same_type;
use typing_rules::{Expression, Fault, FaultKind, TypedName, Variable};

/// The typed expression of a part that may be absent.
pub fn value_there(
    given: &Given<'_>,
    sight: &Sight,
    least: &mut Option<Fault>,
    there: &Option<Expr>,
) -> Result<Option<Option<Expression>>, NoMemory>
    ensures value { IfOk result (λ r. option_map (option_map plain) r
        ≡ if_there (value (heads_in given.now) (sight_in given.now sight.now))
        (option_map plain_expr there.now)) }
    ensures least { OnOk result (least.new ≡ kept least.old
        (faults_there (value_faults (heads_in given.now) (sight_in given.now sight.now))
        (option_map plain_expr there.now))) }
{
    match there {
        None => Ok(Some(None)),
        Some(e) => match expression(given, sight, least, false, e)? {
            Some(x) => Ok(Some(Some(x))),
            None => Ok(None),
        },
    }
}

fn value_fits(ty: Ty, value: &Option<Expression>) -> bool
    ensures { result ≡ value_fits ty (option_map plain value.now) }
{
    match value {
        None => true,
        Some(x) => same_type(ty, x.ty()),
    }
}

/// The fault of a declared name, if it has one.
fn variable_fault(is_taken: bool, fits: bool, crosses: bool) -> Option<FaultKind>
    ensures { result ≡ fault_unless (not is_taken && (fits && not crosses))
        (first_kind (row kind.Redeclared is_taken
        (row kind.Mismatch (not fits) (row kind.Cells crosses no_row)))) }
{
    if is_taken {
        Some(FaultKind::Redeclared)
    } else if !fits {
        Some(FaultKind::Mismatch)
    } else if crosses {
        Some(FaultKind::Cells)
    } else {
        None
    }
}

/// A name that is declared with this type and this first value.
fn judge_variable(
    table: &Table,
    sight: &Sight,
    least: &mut Option<Fault>,
    ty: Option<Ty>,
    name: &DeclaredName,
    value: Option<Option<Expression>>,
) -> Option<TypedName>
    ensures value { option_map typed_name result
        ≡ fine (asked (variable_rows (in_sight table.now sight.now) name.now.name)
        (variable_rule (in_sight table.now sight.now) (plain_name name.now))
        (two ty (option_map (option_map plain) value))) }
    ensures least { least.new ≡ kept least.old (at name.now.token
        (asked (variable_rows (in_sight table.now sight.now) name.now.name)
        (variable_rule (in_sight table.now sight.now) (plain_name name.now))
        (two ty (option_map (option_map plain) value)))) }
{
    match ty {
        None => {
            drop(value);
            None
        }
        Some(ty) => match value {
            None => None,
            Some(value) => {
                let is_taken = sight.is_taken(table, name.name.bytes());
                let fits = value_fits(ty, &value);
                let crosses = sight.crosses_with(sight.structs.cells(ty));
                match variable_fault(is_taken, fits, crosses) {
                    None => Some(DeclaredName {
                        token: name.token,
                        name: Variable {
                            number: sight.next,
                            ty,
                        },
                        value,
                    }),
                    Some(kind) => {
                        drop(value);
                        note(least, kind, name.token);
                        None
                    }
                }
            }
        },
    }
}

/// A declared name with its first value; it is in sight behind it.
fn variable(
    given: &Given<'_>,
    sight: &mut Sight,
    least: &mut Option<Fault>,
    ty: Option<Ty>,
    name: &DeclaredName,
) -> Result<Option<TypedName>, NoMemory>
    ensures value { IfOk result (λ r. option_map typed_name r
        ≡ fine (variable_verdict (heads_in given.now) (sight_in given.now sight.old) ty
        (plain_name name.now))) }
    ensures least { OnOk result (least.new ≡ kept least.old
        (faults_there (value_faults (heads_in given.now) (sight_in given.now sight.old))
        (option_map plain_expr name.now.value)
        ++ at name.now.token (variable_verdict (heads_in given.now) (sight_in given.now sight.old)
        ty (plain_name name.now)))) }
    ensures sight { OnOk result (sight_in given.now sight.new
        ≡ declared (sight_in given.now sight.old) name.now.name ty) }
{
    let value = value_there(given, sight, least, &name.value)?;
    let typed = judge_variable(given.table, sight, least, ty, name, value);
    match sight.declare(given.alloc, &name.name, ty) {
        Ok(()) => Ok(typed),
        Err(error) => {
            drop(typed);
            Err(error)
        }
    }
}

/// The declared names of a line of this type.
pub fn names(
    given: &Given<'_>,
    sight: &mut Sight,
    least: &mut Option<Fault>,
    ty: Option<Ty>,
    names: &[DeclaredName],
) -> Result<Option<Items<TypedName>>, NoMemory>
    ensures value { IfOk result (λ r. option_map typed_names r
        ≡ names_fine (heads_in given.now) (sight_in given.now sight.old) ty
        (plain_names names.now)) }
    ensures least { OnOk result (least.new ≡ kept least.old
        (names_faults (heads_in given.now) (sight_in given.now sight.old) ty
        (plain_names names.now))) }
    ensures sight { OnOk result (sight_in given.now sight.new
        ≡ after_names (sight_in given.now sight.old) ty (plain_names names.now)) }
{
    let mut all = Some(Items::new(given.alloc));
    for name in names {
        let one = variable(given, sight, least, ty, name)?;
        all = and_last(all, one)?;
    }
    Ok(all)
}
