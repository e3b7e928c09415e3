//! Items of a unit, and what stands in sight behind each.

ghost use Rattle.std.specs.Prelude.{◌≡◌, ◌≤◌, ◌++◌, ◌∷◌, ◌&&◌, [], not, IfOk, IfSome, OnOk, map};
ghost use Rattle.std.specs.Option.{option_map};
ghost use Rattle.nwq_value.specs.Limits.{struct_cell_limit};
ghost use Rattle.nss_tree.specs.Reading.{plain_item, plain_names};
ghost use Rattle.nss_tree.specs.Units as unit;
ghost use Rattle.typing_rules.specs.declared.fault.FaultKind.TheVariants as kind;
ghost use Rattle.typing_rules.specs.Nodes.{asked, at, fine, first_kind, kept, only, row, two};
ghost use Rattle.typing_rules.specs.Rules.{constant_name_rows, constant_name_rule, struct_rows};
ghost use Rattle.typing_rules.specs.Rules.{no_fields, struct_rule};
ghost use Rattle.typing_rules.specs.UnitReading.{typed_item, typed_items, typed_names};
ghost use Rattle.typing_rules.specs.Verdicts.{after_item, after_items, constant_item};
ghost use Rattle.typing_rules.specs.Verdicts.{constant_meaning, global_item, item_faults};
ghost use Rattle.typing_rules.specs.Verdicts.{item_fine};
ghost use Rattle.typing_rules.specs.Verdicts.{items_faults, items_fine, lines_faults, lines_fine};
ghost use Rattle.typing_rules.specs.Verdicts.{constant_faults, constant_line_verdict};
ghost use Rattle.typing_rules.specs.Verdicts.{constant_name_verdict, struct_members};
ghost use Rattle.typing_rules.specs.Verdicts.{struct_verdict};
ghost use Rattle.nss_scopes.specs.Entries.{members_of};
ghost use Rattle.nss_scopes.specs.Slots.{meaning_of};
ghost use Rattle.nss_scopes.specs.Views.{in_sight};
ghost use Rattle.nss_statements.specs.Faults.{fault_unless};
ghost use Rattle.nss_expressions.specs.Views.{heads_in, sight_in};

use crate::field::{Fields, lines, struct_members};
use crate::function::function;
use nss_expressions::constant::constant;
use nss_expressions::given::Given;
use nss_expressions::line::{constant_line_type, line_type};
use nss_expressions::note::note;
use nss_expressions::row::and_last;
use nss_scopes::{Meaning, Members, Names, Places, Sight, Structs};
use nss_statements::declared::names;
use nss_tree::{Constant, DeclaredName, FieldLine, Identifier, Item, TypeName};
use nwq_value::{Const, Items, NoMemory, Table, Text, Ty};
use std::alloc::Global;
use typing_rules::rules::same_type;
use typing_rules::{Fault, FaultKind, TypedItem, TypedLine, TypedName};

/// A struct of these lines.
fn judge_struct(
    least: &mut Option<Fault>,
    token: u32,
    structs: &Structs,
    name: &Text,
    lines: Option<Items<TypedLine>>,
) -> Option<Items<TypedLine>>
    ensures value { result
        ≡ fine (asked struct_rows (struct_rule structs.now name.now) lines) }
    ensures least { least.new ≡ kept least.old
        (at token (asked struct_rows (struct_rule structs.now name.now) lines)) }
{
    match lines {
        None => None,
        Some(lines) => {
            if !structs.has(name.bytes()) {
                return Some(lines);
            }
            drop(lines);
            note(least, FaultKind::Redeclared, token);
            None
        }
    }
}

/// The members of a struct, if it is typed.
fn members_if(
    alloc: Global,
    structs: &Structs,
    lines: &Option<Items<TypedLine>>,
) -> Result<Option<Members>, NoMemory>
    requires few { IfSome lines.now
        (λ ls. (struct_members structs.now ls).cells ≤ struct_cell_limit) }
    ensures { IfOk result (λ r. option_map members_of r
        ≡ option_map (struct_members structs.now) lines.now) }
{
    match lines {
        None => Ok(None),
        Some(lines) => Ok(Some(struct_members(alloc, structs, lines.as_slice())?)),
    }
}

fn made_struct(token: u32, name: Text, lines: Option<Items<TypedLine>>) -> Option<TypedItem>
    ensures { option_map typed_item result ≡ option_map (unit.structure token name) lines }
{
    match lines {
        None => {
            drop(name);
            None
        }
        Some(lines) => Some(Item::structure(token, name, lines)),
    }
}

/// The lines of a struct, which have fields of their own.
fn struct_lines(
    alloc: Global,
    least: &mut Option<Fault>,
    structs: &Structs,
    ls: &[FieldLine],
) -> Result<Option<Items<TypedLine>>, NoMemory>
    ensures value { IfOk result (λ r. r ≡ lines_fine structs.now no_fields ls.now) }
    ensures least { OnOk result
        (least.new ≡ kept least.old (lines_faults structs.now no_fields ls.now)) }
{
    let mut fields = Fields {
        names: Places::new(alloc),
        count: 0,
    };
    let typed = lines(alloc, least, structs, &mut fields, ls);
    drop(fields);
    typed
}

/// The lines of a struct of this name, if it is typed.
fn typed_struct(
    alloc: Global,
    structs: &Structs,
    least: &mut Option<Fault>,
    token: u32,
    name: &Text,
    ls: &[FieldLine],
) -> Result<Option<Items<TypedLine>>, NoMemory>
    ensures value { IfOk result (λ r. r ≡ fine (struct_verdict structs.now name.now ls.now)) }
    ensures least { OnOk result (least.new ≡ kept least.old
        (lines_faults structs.now no_fields ls.now
        ++ at token (struct_verdict structs.now name.now ls.now))) }
{
    let typed = struct_lines(alloc, least, structs, ls)?;
    Ok(judge_struct(least, token, structs, name, typed))
}

/// Declares a struct, typed or not, and gives its name back.
fn declare_struct(
    alloc: Global,
    structs: &mut Structs,
    name: &Text,
    lines: &Option<Items<TypedLine>>,
) -> Result<Text, NoMemory>
    requires few { IfSome lines.now
        (λ ls. (struct_members structs.old ls).cells ≤ struct_cell_limit) }
    ensures name { IfOk result (λ r. r ≡ name.now) }
    ensures structs { OnOk result (structs.new ≡ structs.old ++ record {
      called = name.now;
      members = option_map (struct_members structs.old) lines.now;
    } ∷ []) }
{
    let called = name.copy(alloc)?;
    let own = name.copy(alloc)?;
    let members = members_if(alloc, structs, lines)?;
    structs.push(alloc, called, members)?;
    Ok(own)
}

/// A struct; it is declared behind it.
fn structure(
    given: &Given<'_>,
    c: &mut Sight,
    least: &mut Option<Fault>,
    token: u32,
    name: &Text,
    ls: &[FieldLine],
) -> Result<Option<TypedItem>, NoMemory>
    ensures value { IfOk result (λ r. option_map typed_item r
        ≡ item_fine (heads_in given.now) (sight_in given.now c.old)
        (unit.structure token name.now ls.now)) }
    ensures least { OnOk result (least.new ≡ kept least.old
        (item_faults (heads_in given.now) (sight_in given.now c.old)
        (unit.structure token name.now ls.now))) }
    ensures sight { OnOk result (sight_in given.now c.new
        ≡ after_item (sight_in given.now c.old) (unit.structure token name.now ls.now)) }
{
    let typed = typed_struct(given.alloc, &c.structs, least, token, name, ls)?;
    match declare_struct(given.alloc, &mut c.structs, name, &typed) {
        Ok(own) => Ok(made_struct(token, own, typed)),
        Err(error) => {
            drop(typed);
            Err(error)
        }
    }
}

/// The fault of a constant's name, if it has one.
fn constant_fault(is_taken: bool, fits: bool) -> Option<FaultKind>
    ensures { result ≡ fault_unless (not is_taken && fits)
        (first_kind (row kind.Redeclared is_taken (only kind.Mismatch))) }
{
    if is_taken {
        Some(FaultKind::Redeclared)
    } else if !fits {
        Some(FaultKind::Mismatch)
    } else {
        None
    }
}

/// A constant's name with this type and this value.
fn judge_constant(
    table: &Table,
    c: &Sight,
    least: &mut Option<Fault>,
    name: &Identifier,
    ty: Option<Ty>,
    value: Option<Const>,
) -> Option<(Ty, Const)>
    ensures value { result
        ≡ fine (asked (constant_name_rows (in_sight table.now c.now) name.now.name)
        (constant_name_rule (in_sight table.now c.now) name.now.name) (two ty value)) }
    ensures least { least.new ≡ kept least.old (at name.now.token
        (asked (constant_name_rows (in_sight table.now c.now) name.now.name)
        (constant_name_rule (in_sight table.now c.now) name.now.name) (two ty value))) }
{
    match ty {
        None => {
            drop(value);
            None
        }
        Some(ty) => match value {
            None => None,
            Some(value) => {
                let is_taken = c.is_taken(table, name.name.bytes());
                let fits = same_type(ty, value.ty());
                match constant_fault(is_taken, fits) {
                    None => Some((ty, value)),
                    Some(kind) => {
                        drop(value);
                        note(least, kind, name.token);
                        None
                    }
                }
            }
        },
    }
}

fn constant_means(alloc: Global, typed: &Option<(Ty, Const)>) -> Result<Option<Meaning>, NoMemory>
    ensures { IfOk result (λ r. option_map meaning_of r
        ≡ option_map constant_meaning typed.now) }
{
    match typed {
        None => Ok(None),
        Some((_, value)) => Ok(Some(Meaning::Constant(value.copy(alloc)?))),
    }
}

fn made_constant(token: u32, name: Identifier, typed: Option<(Ty, Const)>) -> Option<TypedItem>
    ensures { option_map typed_item result ≡ option_map (constant_item token name) typed }
{
    match typed {
        None => {
            drop(name);
            None
        }
        Some((ty, value)) => Some(Item::constant(token, ty, name, value)),
    }
}

/// The type and the value of a const line's name, if they are typed.
fn typed_constant(
    given: &Given<'_>,
    c: &Sight,
    least: &mut Option<Fault>,
    token: u32,
    ty: &TypeName,
    name: &Identifier,
    value: &Constant,
) -> Result<Option<(Ty, Const)>, NoMemory>
    ensures value { IfOk result (λ r. r ≡ fine
        (constant_name_verdict (sight_in given.now c.now) ty.now name.now.name value.now)) }
    ensures least { OnOk result (least.new ≡ kept least.old
        ((at token (constant_line_verdict (sight_in given.now c.now).structs ty.now)
        ++ constant_faults (sight_in given.now c.now) value.now) ++ at name.now.token
        (constant_name_verdict (sight_in given.now c.now) ty.now name.now.name value.now))) }
{
    let ty = constant_line_type(least, token, &c.structs, ty);
    let value = constant(given.alloc, given.table, c, least, value)?;
    Ok(judge_constant(given.table, c, least, name, ty, value))
}

/// Declares a constant, typed or not, and gives its name back.
fn declare_constant(
    alloc: Global,
    names: &mut Names,
    name: &Identifier,
    typed: &Option<(Ty, Const)>,
) -> Result<Identifier, NoMemory>
    ensures name { IfOk result (λ r. r ≡ name.now) }
    ensures names { OnOk result (names.new ≡ names.old ++ record {
      called = name.now.name;
      means = option_map constant_meaning typed.now;
    } ∷ []) }
{
    let called = name.name.copy(alloc)?;
    let own = name.name.copy(alloc)?;
    let means = constant_means(alloc, typed)?;
    names.declare(called, means)?;
    Ok(Identifier {
        token: name.token,
        name: own,
    })
}

/// A const line; its name is in sight behind it.
fn const_line(
    given: &Given<'_>,
    c: &mut Sight,
    least: &mut Option<Fault>,
    token: u32,
    ty: &TypeName,
    name: &Identifier,
    value: &Constant,
) -> Result<Option<TypedItem>, NoMemory>
    ensures value { IfOk result (λ r. option_map typed_item r
        ≡ item_fine (heads_in given.now) (sight_in given.now c.old)
        (unit.constant token ty.now name.now value.now)) }
    ensures least { OnOk result (least.new ≡ kept least.old
        (item_faults (heads_in given.now) (sight_in given.now c.old)
        (unit.constant token ty.now name.now value.now))) }
    ensures sight { OnOk result (sight_in given.now c.new ≡ after_item (sight_in given.now c.old)
        (unit.constant token ty.now name.now value.now)) }
{
    let typed = typed_constant(given, c, least, token, ty, name, value)?;
    match declare_constant(given.alloc, &mut c.names, name, &typed) {
        Ok(own) => Ok(made_constant(token, own, typed)),
        Err(error) => {
            drop(typed);
            Err(error)
        }
    }
}

fn made_global(token: u32, ty: Option<Ty>, names: Option<Items<TypedName>>) -> Option<TypedItem>
    ensures { option_map typed_item result
        ≡ option_map (global_item token) (two ty (option_map typed_names names)) }
{
    match ty {
        Some(ty) => match names {
            Some(names) => Some(Item::global(token, ty, names)),
            None => None,
        },
        None => {
            drop(names);
            None
        }
    }
}

/// A line of global variables; they are in sight behind it.
fn globals(
    given: &Given<'_>,
    c: &mut Sight,
    least: &mut Option<Fault>,
    token: u32,
    ty: &TypeName,
    ds: &[DeclaredName],
) -> Result<Option<TypedItem>, NoMemory>
    ensures value { IfOk result (λ r. option_map typed_item r
        ≡ item_fine (heads_in given.now) (sight_in given.now c.old)
        (unit.global token ty.now (plain_names ds.now))) }
    ensures least { OnOk result (least.new ≡ kept least.old
        (item_faults (heads_in given.now) (sight_in given.now c.old)
        (unit.global token ty.now (plain_names ds.now)))) }
    ensures sight { OnOk result (sight_in given.now c.new ≡ after_item (sight_in given.now c.old)
        (unit.global token ty.now (plain_names ds.now))) }
{
    let ty = line_type(least, token, &c.structs, ty);
    let xs = names(given, c, least, ty, ds)?;
    Ok(made_global(token, ty, xs))
}

/// An item; what it declares is in sight behind it.
fn item(
    given: &Given<'_>,
    c: &mut Sight,
    least: &mut Option<Fault>,
    x: &Item,
) -> Result<Option<TypedItem>, NoMemory>
    ensures value { IfOk result (λ r. option_map typed_item r
        ≡ item_fine (heads_in given.now) (sight_in given.now c.old) (plain_item x.now)) }
    ensures least { OnOk result (least.new ≡ kept least.old
        (item_faults (heads_in given.now) (sight_in given.now c.old) (plain_item x.now))) }
    ensures sight { OnOk result (sight_in given.now c.new
        ≡ after_item (sight_in given.now c.old) (plain_item x.now)) }
{
    match x {
        Item::Struct {
            token,
            name,
            fields,
        } => structure(given, c, least, *token, name, fields.as_slice()),
        Item::Const {
            token,
            ty,
            name,
            value,
        } => const_line(given, c, least, *token, ty, name, value),
        Item::Global { token, ty, names } => {
            globals(given, c, least, *token, ty, names.as_slice())
        }
        Item::Function {
            token,
            result,
            name,
            parameters,
            body,
        } => function(
            given,
            c,
            least,
            *token,
            result,
            name,
            parameters.as_slice(),
            body,
        ),
    }
}

/// The items of a unit.
pub fn items(
    given: &Given<'_>,
    c: &mut Sight,
    least: &mut Option<Fault>,
    xs: &[Item],
) -> Result<Option<Items<TypedItem>>, NoMemory>
    ensures value { IfOk result (λ r. option_map typed_items r
        ≡ items_fine (heads_in given.now) (sight_in given.now c.old) (map plain_item xs.now)) }
    ensures least { OnOk result (least.new ≡ kept least.old
        (items_faults (heads_in given.now) (sight_in given.now c.old)
        (map plain_item xs.now))) }
    ensures sight { OnOk result (sight_in given.now c.new
        ≡ after_items (sight_in given.now c.old) (map plain_item xs.now)) }
{
    let mut all = Some(Items::new(given.alloc));
    for x in xs {
        let one = item(given, c, least, x)?;
        all = and_last(all, one)?;
    }
    Ok(all)
}
