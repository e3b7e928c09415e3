//! The walk over the items of a unit.

ghost use Rattle.std.specs.Prelude.{◌≡◌, false, OnOk, map};
ghost use Rattle.std.specs.Option.{option_map};
ghost use Rattle.nss_tree.specs.Reading.{plain_item, plain_stmts};
ghost use Rattle.typing_rules.specs.Nodes.{two};
ghost use Rattle.typing_rules.specs.Rules.{constant_name_rule, is_behind, parameter_rule};
ghost use Rattle.typing_rules.specs.Types.{same_type};
ghost use Rattle.typing_rules.specs.Verdicts.{after_body, after_item, after_items, after_params};
ghost use Rattle.typing_rules.specs.Verdicts.{in_body, in_function, late_after};
ghost use Rattle.typing_rules.specs.Verdicts.{parameter_declared};
ghost use Rattle.nss_scopes.specs.Entries.{meant_of};
ghost use Rattle.nss_scopes.specs.Views.{in_sight};
ghost use Rattle.nss_expressions.specs.Views.{heads_in, sight_in};
ghost use Rattle.expression_reasons.specs.Reasons.{nodes_there};
ghost use Rattle.expression_reasons.specs.Seen.{noted, seen};
ghost use Rattle.expression_reasons.specs.Why.{because};
ghost use Rattle.expression_reasons.specs.declared.reason.Reason.TheVariants.{Value};
ghost use Rattle.nss_reasons.specs.Reasons.{constant_why, item_nodes, items_nodes, parameter_by};
ghost use Rattle.nss_reasons.specs.Reasons.{parameter_why, params_nodes, stmts_nodes};
ghost use Rattle.nss_reasons.specs.Why.{constant_reason, const_type_there, declared_by, default_by};
ghost use Rattle.nss_reasons.specs.Why.{default_fits_type, default_reason, parameter_by_tests};
ghost use Rattle.nss_reasons.specs.Why.{parameter_reason};

use crate::declared::value_fits;
use crate::line::{fields, line, own_constant_line};
use crate::statement::statements;
use expression_reasons::found::note;
use expression_reasons::reason::Reason;
use nss_expressions::constant::{constant, constant_there};
use nss_expressions::given::Given;
use nss_expressions::line::{constant_line_type, declared_type, result_type, type_means};
use nss_expressions::rules::is_void;
use nss_scopes::laws::scopes_are_left;
use nss_scopes::{Meant, Sight};
use nss_tree::{Constant, Identifier, Item, Parameter, Stmt, TypeName};
use nss_types::item as typed;
use nwq_value::{Const, Items, NoMemory, Table, Ty};
use std::slice;
use typing_rules::laws::scopes_only_add;
use typing_rules::rules::same_type;

/// The type of a default that may be absent.
fn default_type(value: &Option<Const>) -> Option<Ty>
    ensures { result ≡ const_type_there value.now }
{
    match value {
        None => None,
        Some(value) => Some(value.ty()),
    }
}

/// What is wrong with a default of this type, or with the cells of its parameter.
fn default_by(wanted: Ty, given: Option<Ty>) -> Reason
    ensures { result ≡ default_by wanted given }
{
    match given {
        None => Reason::Cells,
        Some(given) => {
            if same_type(wanted, given) {
                Reason::Cells
            } else {
                Reason::Default { given, wanted }
            }
        }
    }
}

/// What is wrong with the type of a parameter, with its default or with its cells.
fn default_reason(wanted: Ty, given: Option<Ty>) -> Reason
    ensures { result ≡ default_reason wanted given }
{
    if is_void(wanted) {
        Reason::NoVariable { ty: wanted }
    } else {
        default_by(wanted, given)
    }
}

/// Whether a parameter may be of this type, and its default, if one is given, of the other.
fn default_fits(wanted: Ty, given: Option<Ty>) -> bool
    ensures { result ≡ default_fits_type wanted given }
{
    !is_void(wanted) && value_fits(wanted, given)
}

/// What is wrong with a parameter, if something is.
fn parameter_by_tests(
    taken: bool,
    behind: bool,
    fits: bool,
    crosses: bool,
    reason: Reason,
) -> Option<Reason>
    ensures { result ≡ parameter_by_tests taken behind fits crosses reason }
{
    if taken {
        Some(Reason::Taken)
    } else if behind {
        Some(Reason::NoDefault)
    } else if fits && !crosses {
        None
    } else {
        Some(reason)
    }
}

/// Whether one with a default stands before, and this one has none.
fn is_behind(late: bool, value: &Option<Const>) -> bool
    ensures { result ≡ is_behind late value.now }
{
    if late { value.is_none() } else { false }
}

/// A parameter of this type and this default; `late` says that one with a default stands before.
fn parameter_by(
    table: &Table,
    c: &Sight,
    late: bool,
    p: &Parameter,
    ty: Ty,
    value: &Option<Const>,
) -> Option<Reason>
    ensures { result ≡ parameter_by (in_sight table.now c.now) late p.now (ty, value.now) }
{
    let taken = c.is_taken(table, p.name.bytes());
    let behind = is_behind(late, value);
    let given = default_type(value);
    let fits = default_fits(ty, given);
    let crosses = c.crosses_with(c.structs.cells(ty));
    let reason = default_reason(ty, given);
    parameter_by_tests(taken, behind, fits, crosses, reason)
}

/// A parameter whose type means this, and of this default.
fn parameter_meant(
    table: &Table,
    c: &Sight,
    late: bool,
    p: &Parameter,
    meant: Meant,
    value: &Option<Const>,
) -> Option<Reason>
    ensures { result ≡ because (parameter_rule (in_sight table.now c.now) late p.now)
        (parameter_reason (in_sight table.now c.now) late p.now.name)
        (Some (meant_of meant, value.now)) }
{
    match meant {
        Meant::Is(ty) => parameter_by(table, c, late, p, ty, value),
        Meant::Refused => Some(Reason::LeftOut),
        Meant::Missing => Some(Reason::NoStruct),
    }
}

/// A parameter whose type means this, and of this default, if they are typed.
fn parameter_why(
    table: &Table,
    c: &Sight,
    late: bool,
    p: &Parameter,
    meant: Option<Meant>,
    value: Option<Option<Const>>,
) -> Option<Reason>
    ensures { result ≡ because (parameter_rule (in_sight table.now c.now) late p.now)
        (parameter_reason (in_sight table.now c.now) late p.now.name)
        (two (option_map meant_of meant) value) }
{
    match meant {
        None => {
            drop(value);
            None
        }
        Some(meant) => match value {
            None => None,
            Some(value) => {
                let why = parameter_meant(table, c, late, p, meant, &value);
                drop(value);
                why
            }
        },
    }
}

/// A parameter by itself.
fn own_parameter(
    given: &Given<'_>,
    c: &Sight,
    k: u32,
    found: &mut Option<Reason>,
    late: bool,
    p: &Parameter,
) -> Result<(), NoMemory>
    ensures found { OnOk result (found.new ≡ noted k found.old p.now.token
        (parameter_why (sight_in given.now c.now) late p.now)) }
{
    if p.token != k {
        return Ok(());
    }
    let mut ignored = None;
    let value = constant_there(given.alloc, given.table, c, &mut ignored, &p.default)?;
    let meant = type_means(&c.structs, &p.ty);
    note(found, parameter_why(given.table, c, late, p, meant, value));
    Ok(())
}

/// Whether one with a default stands before the next one.
fn late_after(late: bool, p: &Parameter) -> bool
    ensures { result ≡ late_after late p.now }
{
    if late { true } else { p.default.is_some() }
}

/// A parameter, which is declared behind it.
fn parameter(
    given: &Given<'_>,
    c: &mut Sight,
    k: u32,
    found: &mut Option<Reason>,
    late: bool,
    p: &Parameter,
) -> Result<(), NoMemory>
    ensures found { OnOk result (found.new ≡ noted k found.old p.now.token
        (parameter_why (sight_in given.now c.old) late p.now)) }
    ensures sight { OnOk result (sight_in given.now c.new
        ≡ parameter_declared (sight_in given.now c.old) p.now) }
{
    own_parameter(given, c, k, found, late, p)?;
    let ty = declared_type(&c.structs, &p.ty);
    c.declare(given.alloc, &p.name, ty)
}

/// The parameters of a function.
fn parameters(
    given: &Given<'_>,
    c: &mut Sight,
    k: u32,
    found: &mut Option<Reason>,
    ps: &[Parameter],
) -> Result<(), NoMemory>
    ensures found { OnOk result (found.new
        ≡ seen k found.old (params_nodes (sight_in given.now c.old) false ps.now)) }
    ensures sight { OnOk result (sight_in given.now c.new
        ≡ after_params (sight_in given.now c.old) ps.now) }
{
    let mut late = false;
    for p in ps {
        parameter(given, c, k, found, late, p)?;
        late = late_after(late, p);
    }
    Ok(())
}

/// The body of a function, where there is one.
fn body_there(
    given: &Given<'_>,
    c: &mut Sight,
    k: u32,
    found: &mut Option<Reason>,
    body: &Option<Items<Stmt>>,
) -> Result<(), NoMemory>
    ensures found { OnOk result (found.new ≡ seen k found.old
        (nodes_there (stmts_nodes (heads_in given.now) (sight_in given.now c.old))
        (option_map plain_stmts body.now))) }
    ensures sight { OnOk result (sight_in given.now c.new
        ≡ after_body (sight_in given.now c.old) (option_map plain_stmts body.now)) }
{
    match body {
        None => Ok(()),
        Some(xs) => statements(given, c, k, found, xs.as_slice()),
    }
}

/// The parameters and the body of a function, in the scope that begins with them.
fn parts(
    given: &Given<'_>,
    c: &mut Sight,
    k: u32,
    found: &mut Option<Reason>,
    ps: &[Parameter],
    body: &Option<Items<Stmt>>,
) -> Result<(), NoMemory>
    ensures found { OnOk result (found.new ≡ seen k (seen k found.old
        (params_nodes (sight_in given.now c.old) false ps.now))
        (nodes_there (stmts_nodes (heads_in given.now)
        (after_params (sight_in given.now c.old) ps.now)) (option_map plain_stmts body.now))) }
    ensures sight { OnOk result (sight_in given.now c.new
        ≡ after_body (after_params (sight_in given.now c.old) ps.now)
        (option_map plain_stmts body.now)) }
{
    parameters(given, c, k, found, ps)?;
    body_there(given, c, k, found, body)
}

/// A function. What is in sight behind it is what was before it.
fn function(
    given: &Given<'_>,
    c: &mut Sight,
    k: u32,
    found: &mut Option<Reason>,
    ty: &TypeName,
    ps: &[Parameter],
    body: &Option<Items<Stmt>>,
) -> Result<(), NoMemory>
    ensures found { OnOk result (found.new ≡ seen k (seen k found.old
        (params_nodes (in_function (sight_in given.now c.old) ty.now) false ps.now))
        (nodes_there (stmts_nodes (heads_in given.now)
        (in_body (sight_in given.now c.old) ty.now ps.now)) (option_map plain_stmts body.now))) }
    ensures sight { OnOk result (sight_in given.now c.new ≡ sight_in given.now c.old) }
{
    scopes_only_add();
    scopes_are_left();
    let next = c.next;
    let ty = result_type(&c.structs, ty);
    let mark = c.begin(ty);
    let walked = parts(given, c, k, found, ps, body);
    c.leave(mark);
    c.next = next;
    walked
}

/// A constant's name with this type and a value of this type.
fn constant_by(taken: bool, wanted: Ty, given: Ty) -> Option<Reason>
    ensures { result ≡ declared_by taken (same_type wanted given) false (Value given wanted) }
{
    if taken {
        return Some(Reason::Taken);
    }
    if same_type(wanted, given) {
        return None;
    }
    Some(Reason::Value { given, wanted })
}

/// A constant's name with this type and this value, if they are typed.
fn constant_why(
    table: &Table,
    c: &Sight,
    name: &[u8],
    ty: Option<Ty>,
    value: Option<Const>,
) -> Option<Reason>
    ensures { result ≡ because (constant_name_rule (in_sight table.now c.now) name.now)
        (constant_reason (in_sight table.now c.now) name.now) (two ty value) }
{
    match ty {
        None => {
            drop(value);
            None
        }
        Some(ty) => match value {
            None => None,
            Some(value) => {
                let given = value.ty();
                drop(value);
                constant_by(c.is_taken(table, name), ty, given)
            }
        },
    }
}

/// The name of a const line by itself.
fn own_constant(
    given: &Given<'_>,
    c: &Sight,
    k: u32,
    found: &mut Option<Reason>,
    ty: &TypeName,
    name: &Identifier,
    value: &Constant,
) -> Result<(), NoMemory>
    ensures found { OnOk result (found.new ≡ noted k found.old name.now.token
        (constant_why (sight_in given.now c.now) ty.now name.now.name value.now)) }
{
    if name.token != k {
        return Ok(());
    }
    let mut ignored = None;
    let ty = constant_line_type(&mut ignored, k, &c.structs, ty);
    let value = constant(given.alloc, given.table, c, &mut ignored, value)?;
    note(
        found,
        constant_why(given.table, c, name.name.bytes(), ty, value),
    );
    Ok(())
}

/// Goes behind an item.
fn go_behind(given: &Given<'_>, c: &mut Sight, x: &Item) -> Result<(), NoMemory>
    ensures sight { OnOk result (sight_in given.now c.new
        ≡ after_item (sight_in given.now c.old) (plain_item x.now)) }
{
    let mut ignored = None;
    let typed = typed::items(given, c, &mut ignored, slice::from_ref(x))?;
    drop(typed);
    Ok(())
}

/// Keeps the reason of the node with the token `k`, if it is one of this item and none was kept
/// before; what the item declares is in sight behind it.
fn item(
    given: &Given<'_>,
    c: &mut Sight,
    k: u32,
    found: &mut Option<Reason>,
    x: &Item,
) -> Result<(), NoMemory>
    ensures found { OnOk result (found.new ≡ seen k found.old
        (item_nodes (heads_in given.now) (sight_in given.now c.old) (plain_item x.now))) }
    ensures sight { OnOk result (sight_in given.now c.new
        ≡ after_item (sight_in given.now c.old) (plain_item x.now)) }
{
    match x {
        Item::Struct { fields: ls, .. } => {
            fields(&c.structs, k, found, ls.as_slice());
            go_behind(given, c, x)
        }
        Item::Const {
            token,
            ty,
            name,
            value,
        } => {
            own_constant_line(&c.structs, k, found, *token, ty);
            own_constant(given, c, k, found, ty, name, value)?;
            go_behind(given, c, x)
        }
        Item::Global {
            token,
            ty,
            names: ds,
        } => line(given, c, k, found, *token, ty, ds.as_slice()),
        Item::Function {
            result,
            parameters,
            body,
            ..
        } => {
            function(given, c, k, found, result, parameters.as_slice(), body)?;
            go_behind(given, c, x)
        }
    }
}

/// The items of a unit.
pub fn items(
    given: &Given<'_>,
    c: &mut Sight,
    k: u32,
    found: &mut Option<Reason>,
    xs: &[Item],
) -> Result<(), NoMemory>
    ensures found { OnOk result (found.new ≡ seen k found.old
        (items_nodes (heads_in given.now) (sight_in given.now c.old) (map plain_item xs.now))) }
    ensures sight { OnOk result (sight_in given.now c.new
        ≡ after_items (sight_in given.now c.old) (map plain_item xs.now)) }
{
    for x in xs {
        item(given, c, k, found, x)?;
    }
    Ok(())
}
