//! Constants: the values of const lines, of defaults and of cases.

ghost use Rattle.std.specs.Prelude.{◌≡◌, IfOk, OnOk};
ghost use Rattle.std.specs.Option.{option_map};
ghost use Rattle.nss_tree.specs.Places.{token_of};
ghost use Rattle.typing_rules.specs.Nodes.{asked, at, fine, kept, faults_there, if_there};
ghost use Rattle.typing_rules.specs.Rules.{constant_named, constant_rows, constant_rule, signed};
ghost use Rattle.typing_rules.specs.Verdicts.{constant_faults, constant_value};
ghost use Rattle.nss_scopes.specs.Views.{in_sight};
ghost use Rattle.nss_expressions.specs.Views.{known_of};

use crate::known::{Known, name_means};
use crate::note::note;
use nss_scopes::Sight;
use nss_tree::Constant;
use nwq_value::{Const, NoMemory, Table};
use std::alloc::Global;
use typing_rules::{Fault, FaultKind};

fn signed(negated: bool, value: i32) -> i32
    ensures { result ≡ signed negated value }
{
    if negated { value.wrapping_neg() } else { value }
}

/// The value of a name that means this.
fn named_constant(
    alloc: Global,
    least: &mut Option<Fault>,
    token: u32,
    means: Option<Option<Known<'_>>>,
) -> Result<Option<Const>, NoMemory>
    ensures value { IfOk result (λ r. r ≡ fine (asked constant_rows constant_rule
        (option_map constant_named (option_map (option_map known_of) means.entry)))) }
    ensures least { OnOk result (least.new ≡ kept least.old (at token
        (asked constant_rows constant_rule
        (option_map constant_named (option_map (option_map known_of) means.entry))))) }
{
    match means {
        None => Ok(None),
        Some(None) => {
            note(least, FaultKind::Unknown, token);
            Ok(None)
        }
        Some(Some(Known::Variable { .. })) => {
            note(least, FaultKind::NotConst, token);
            Ok(None)
        }
        Some(Some(Known::Constant(value))) => Ok(Some(value.copy(alloc)?)),
    }
}

/// The value of a constant, if it has one.
pub fn constant(
    alloc: Global,
    table: &Table,
    c: &Sight,
    least: &mut Option<Fault>,
    constant: &Constant,
) -> Result<Option<Const>, NoMemory>
    ensures value { IfOk result
        (λ r. r ≡ constant_value (in_sight table.now c.now) constant.now) }
    ensures least { OnOk result
        (least.new ≡ kept least.old (constant_faults (in_sight table.now c.now) constant.now)) }
{
    match constant {
        Constant::Int { negated, value, .. } => Ok(Some(Const::Int(signed(*negated, *value)))),
        Constant::Float { token, .. } => {
            note(least, FaultKind::RefusedType, *token);
            Ok(None)
        }
        Constant::Text { value, .. } => Ok(Some(Const::Text(value.copy(alloc)?))),
        Constant::Name { token, name } => {
            named_constant(alloc, least, *token, name_means(table, c, name.bytes()))
        }
        Constant::ObjectSelf { .. } => Ok(Some(Const::SelfObject)),
        Constant::ObjectInvalid { .. } => Ok(Some(Const::InvalidObject)),
    }
}

/// The value of a constant that may be absent.
pub fn constant_there(
    alloc: Global,
    table: &Table,
    c: &Sight,
    least: &mut Option<Fault>,
    there: &Option<Constant>,
) -> Result<Option<Option<Const>>, NoMemory>
    ensures value { IfOk result
        (λ r. r ≡ if_there (constant_value (in_sight table.now c.now)) there.now) }
    ensures least { OnOk result (least.new ≡ kept least.old
        (faults_there (constant_faults (in_sight table.now c.now)) there.now)) }
{
    match there {
        None => Ok(Some(None)),
        Some(it) => match constant(alloc, table, c, least, it)? {
            Some(value) => Ok(Some(Some(value))),
            None => Ok(None),
        },
    }
}
