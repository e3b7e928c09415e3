//! Declared names of one line.

ghost use Rattle.std.specs.Prelude.{◌≡◌, ◌++◌, IfOk, OnOk};
ghost use Rattle.std.specs.Option.{option_map};
ghost use Rattle.nss_tree.specs.Reading.{plain_expr, plain_name, plain_names};
ghost use Rattle.typing_rules.specs.Nodes.{if_there, two};
ghost use Rattle.typing_rules.specs.Reading.{plain};
ghost use Rattle.typing_rules.specs.Rules.{variable_rule};
ghost use Rattle.typing_rules.specs.Sight.{declared};
ghost use Rattle.typing_rules.specs.Verdicts.{after_names, value};
ghost use Rattle.nss_scopes.specs.Views.{in_sight};
ghost use Rattle.nss_expressions.specs.Views.{heads_in, sight_in};
ghost use Rattle.expression_reasons.specs.Reasons.{nodes_there, value_nodes};
ghost use Rattle.expression_reasons.specs.Seen.{noted, own, seen};
ghost use Rattle.expression_reasons.specs.Why.{because};
ghost use Rattle.nss_reasons.specs.Reasons.{names_nodes, variable_why};
ghost use Rattle.nss_reasons.specs.Why.{declared_by, declared_why, fits_type, value_reason};
ghost use Rattle.nss_reasons.specs.Why.{variable_reason};

use expression_reasons::expression::{expression, typed};
use expression_reasons::found::note;
use expression_reasons::reason::Reason;
use expression_reasons::value::type_there;
use nss_expressions::given::Given;
use nss_scopes::Sight;
use nss_tree::{DeclaredName, Expr};
use nwq_value::{NoMemory, Table, Ty};
use typing_rules::Expression;
use typing_rules::rules::same_type;

/// The typed expression of a part that may be absent.
pub fn typed_there(
    given: &Given<'_>,
    c: &Sight,
    there: &Option<Expr>,
) -> Result<Option<Option<Expression>>, NoMemory>
    ensures value { IfOk result (λ r. option_map (option_map plain) r
        ≡ if_there (value (heads_in given.now) (sight_in given.now c.now))
        (option_map plain_expr there.now)) }
{
    match there {
        None => Ok(Some(None)),
        Some(e) => match typed(given, c, e)? {
            Some(x) => Ok(Some(Some(x))),
            None => Ok(None),
        },
    }
}

/// A part that may be absent.
pub fn value_there(
    given: &Given<'_>,
    c: &Sight,
    k: u32,
    found: &mut Option<Reason>,
    there: &Option<Expr>,
) -> Result<(), NoMemory>
    ensures found { OnOk result (found.new ≡ seen k found.old
        (nodes_there (value_nodes (heads_in given.now) (sight_in given.now c.now))
        (option_map plain_expr there.now))) }
{
    match there {
        None => Ok(()),
        Some(e) => expression(given, c, k, found, false, e),
    }
}

/// What is wrong with a value of this type, or with the cells of what takes it.
pub fn value_reason(wanted: Ty, given: Option<Ty>) -> Reason
    ensures reason { result ≡ value_reason wanted given }
{
    match given {
        None => Reason::Cells,
        Some(given) => {
            if same_type(wanted, given) {
                Reason::Cells
            } else {
                Reason::Value { given, wanted }
            }
        }
    }
}

/// Whether a value of this type, if one is given, fits the type that is wanted.
pub fn value_fits(wanted: Ty, given: Option<Ty>) -> bool
    ensures fits { result ≡ fits_type wanted given }
{
    match given {
        None => true,
        Some(given) => same_type(wanted, given),
    }
}

/// What is wrong with a declared name, if something is.
fn declared_by(taken: bool, fits: bool, crosses: bool, reason: Reason) -> Option<Reason>
    ensures { result ≡ declared_by taken fits crosses reason }
{
    if taken {
        Some(Reason::Taken)
    } else if fits && !crosses {
        None
    } else {
        Some(reason)
    }
}

/// A name that is declared with this type and a value of this type, if one is written.
fn declared_why(
    table: &Table,
    c: &Sight,
    ty: Ty,
    name: &DeclaredName,
    given: Option<Ty>,
) -> Option<Reason>
    ensures { result ≡ declared_why (in_sight table.now c.now) name.now.name ty given }
{
    let taken = c.is_taken(table, name.name.bytes());
    let fits = value_fits(ty, given);
    let crosses = c.crosses_with(c.structs.cells(ty));
    let reason = value_reason(ty, given);
    declared_by(taken, fits, crosses, reason)
}

/// A name that is declared with this type and this first value.
fn variable_why(
    table: &Table,
    c: &Sight,
    ty: Option<Ty>,
    name: &DeclaredName,
    value: Option<Option<Expression>>,
) -> Option<Reason>
    ensures { result ≡ because (variable_rule (in_sight table.now c.now) (plain_name name.now))
        (variable_reason (in_sight table.now c.now) name.now.name)
        (two ty (option_map (option_map plain) value)) }
{
    match ty {
        None => {
            drop(value);
            None
        }
        Some(ty) => match value {
            None => None,
            Some(value) => declared_why(table, c, ty, name, type_there(value)),
        },
    }
}

/// A declared name by itself.
fn own_variable(
    given: &Given<'_>,
    c: &Sight,
    k: u32,
    found: &mut Option<Reason>,
    ty: Option<Ty>,
    name: &DeclaredName,
) -> Result<(), NoMemory>
    ensures found { OnOk result (found.new ≡ noted k found.old name.now.token
        (variable_why (heads_in given.now) (sight_in given.now c.now) ty (plain_name name.now))) }
{
    if name.token != k {
        return Ok(());
    }
    let value = typed_there(given, c, &name.value)?;
    note(found, variable_why(given.table, c, ty, name, value));
    Ok(())
}

/// A declared name with its first value; it is in sight behind it.
fn variable(
    given: &Given<'_>,
    c: &mut Sight,
    k: u32,
    found: &mut Option<Reason>,
    ty: Option<Ty>,
    name: &DeclaredName,
) -> Result<(), NoMemory>
    ensures found { OnOk result (found.new ≡ seen k found.old
        (nodes_there (value_nodes (heads_in given.now) (sight_in given.now c.old))
        (option_map plain_expr name.now.value)
        ++ own name.now.token (variable_why (heads_in given.now) (sight_in given.now c.old) ty
        (plain_name name.now)))) }
    ensures sight { OnOk result (sight_in given.now c.new
        ≡ declared (sight_in given.now c.old) name.now.name ty) }
{
    value_there(given, c, k, found, &name.value)?;
    own_variable(given, c, k, found, ty, name)?;
    c.declare(given.alloc, &name.name, ty)
}

/// The declared names of a line of this type.
pub fn names(
    given: &Given<'_>,
    c: &mut Sight,
    k: u32,
    found: &mut Option<Reason>,
    ty: Option<Ty>,
    names: &[DeclaredName],
) -> Result<(), NoMemory>
    ensures found { OnOk result (found.new ≡ seen k found.old
        (names_nodes (heads_in given.now) (sight_in given.now c.old) ty (plain_names names.now))) }
    ensures sight { OnOk result (sight_in given.now c.new
        ≡ after_names (sight_in given.now c.old) ty (plain_names names.now)) }
{
    for name in names {
        variable(given, c, k, found, ty, name)?;
    }
    Ok(())
}
