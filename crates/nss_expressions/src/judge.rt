//! The judgement of each kind of expression, by the answers of its parts.

ghost use Rattle.std.specs.Prelude.{◌≡◌, IfOk, OnOk, Some, if◌then◌else◌};
ghost use Rattle.std.specs.Option.{option_map};
ghost use Rattle.typing_rules.specs.Nodes.{asked, at, fine, kept, two};
ghost use Rattle.typing_rules.specs.Reading.{plain};
ghost use Rattle.typing_rules.specs.Rules.{assign_rows, assign_rule, binary_rows, binary_rule};
ghost use Rattle.typing_rules.specs.Rules.{member_at, member_rows, member_rule, name_rows};
ghost use Rattle.typing_rules.specs.Rules.{name_rule};
ghost use Rattle.typing_rules.specs.Rules.{postfix_rows, postfix_rule, prefix_rows, prefix_rule};
ghost use Rattle.typing_rules.specs.declared.fault.FaultKind.TheVariants as kind;
ghost use Rattle.typing_rules.specs.Sight.{members_in};
ghost use Rattle.nss_expressions.specs.Views.{known_of};

use crate::known::Known;
use crate::note::note;
use crate::rules::{assigned_type, is_int, is_step, place_of};
use nss_scopes::Structs;
use nss_tree::{AssignOperator, BinaryOperator, PostfixOperator, PrefixOperator};
use nwq_value::{NoMemory, Ty};
use std::alloc::Global;
use typing_rules::rules::binary_type;
use typing_rules::{Expression, Fault, FaultKind, Place};

/// A name that means this.
pub fn judge_name(
    alloc: Global,
    least: &mut Option<Fault>,
    token: u32,
    at_file: bool,
    means: Option<Option<Known<'_>>>,
) -> Result<Option<Expression>, NoMemory>
    ensures value { IfOk result (λ r. option_map plain r
        ≡ fine (asked name_rows (name_rule at_file)
        (option_map (option_map known_of) means.entry))) }
    ensures least { OnOk result (least.new ≡ kept least.old
        (at token (asked name_rows (name_rule at_file)
        (option_map (option_map known_of) means.entry)))) }
{
    match means {
        None => Ok(None),
        Some(None) => {
            note(least, FaultKind::Unknown, token);
            Ok(None)
        }
        Some(
            Some(
                Known::Variable {
                    number,
                    is_local,
                    ty,
                },
            ),
        ) => Ok(Some(Expression::name(ty, place_of(at_file, number, is_local)))),
        Some(Some(Known::Constant(value))) => {
            let ty = value.ty();
            let value = value.copy(alloc)?;
            Ok(Some(Expression::name(ty, Place::Const(value))))
        }
    }
}

/// The type of a struct's field, and how many cells stand before it.
fn member_at(structs: &Structs, ty: Ty, name: &[u8]) -> Option<(Ty, u32)>
    ensures { result ≡ option_map (λ m. (m.ty, m.before))
        (member_at name.now (members_in structs.now ty)) }
{
    match structs.members(ty) {
        Some(members) => match members.find(name) {
            Some(member) => Some((member.ty, member.before)),
            None => None,
        },
        None => None,
    }
}

/// A member of a value.
pub fn judge_member(
    alloc: Global,
    least: &mut Option<Fault>,
    token: u32,
    structs: &Structs,
    of: Option<Expression>,
    name: &[u8],
) -> Result<Option<Expression>, NoMemory>
    ensures value { IfOk result (λ r. option_map plain r
        ≡ fine (asked member_rows (member_rule structs.now name.now) (option_map plain of))) }
    ensures least { OnOk result (least.new ≡ kept least.old
        (at token (asked member_rows (member_rule structs.now name.now) (option_map plain of)))) }
{
    match of {
        None => Ok(None),
        Some(of) => match member_at(structs, of.ty(), name) {
            Some((ty, before)) => Ok(Some(Expression::member(alloc, ty, of, before)?)),
            None => {
                drop(of);
                note(least, FaultKind::Unknown, token);
                Ok(None)
            }
        },
    }
}

/// The kind of a fault at what is no place where one is written, or else has another type than an
/// int.
fn kind_of_step(is_place: bool) -> FaultKind
    ensures { result ≡ (if is_place then kind.Mismatch else kind.NotPlace) }
{
    if is_place {
        FaultKind::Mismatch
    } else {
        FaultKind::NotPlace
    }
}

/// An operator before a value.
pub fn judge_prefix(
    alloc: Global,
    least: &mut Option<Fault>,
    token: u32,
    operator: PrefixOperator,
    of: Option<Expression>,
) -> Result<Option<Expression>, NoMemory>
    ensures value { IfOk result (λ r. option_map plain r
        ≡ fine (asked (prefix_rows operator) (prefix_rule operator) (option_map plain of))) }
    ensures least { OnOk result (least.new ≡ kept least.old
        (at token (asked (prefix_rows operator) (prefix_rule operator) (option_map plain of)))) }
{
    match of {
        None => Ok(None),
        Some(of) => {
            let is_written = !is_step(operator) || of.is_place();
            if is_int(of.ty()) && is_written {
                return Ok(Some(Expression::prefix(alloc, Ty::Int, operator, of)?));
            }
            drop(of);
            note(least, kind_of_step(is_written), token);
            Ok(None)
        }
    }
}

/// `++` or `--` behind a value.
pub fn judge_postfix(
    alloc: Global,
    least: &mut Option<Fault>,
    token: u32,
    operator: PostfixOperator,
    of: Option<Expression>,
) -> Result<Option<Expression>, NoMemory>
    ensures value { IfOk result (λ r. option_map plain r
        ≡ fine (asked postfix_rows (postfix_rule operator) (option_map plain of))) }
    ensures least { OnOk result (least.new ≡ kept least.old
        (at token (asked postfix_rows (postfix_rule operator) (option_map plain of)))) }
{
    match of {
        None => Ok(None),
        Some(of) => {
            let is_place = of.is_place();
            if is_int(of.ty()) && is_place {
                return Ok(Some(Expression::postfix(alloc, Ty::Int, operator, of)?));
            }
            drop(of);
            note(least, kind_of_step(is_place), token);
            Ok(None)
        }
    }
}

/// An operator between two values.
pub fn judge_binary(
    alloc: Global,
    least: &mut Option<Fault>,
    token: u32,
    operator: BinaryOperator,
    left: Option<Expression>,
    right: Option<Expression>,
) -> Result<Option<Expression>, NoMemory>
    ensures value { IfOk result (λ r. option_map plain r
        ≡ fine (asked binary_rows (binary_rule operator)
        (two (option_map plain left) (option_map plain right)))) }
    ensures least { OnOk result (least.new ≡ kept least.old
        (at token (asked binary_rows (binary_rule operator)
        (two (option_map plain left) (option_map plain right))))) }
{
    match (left, right) {
        (Some(left), Some(right)) => match binary_type(operator, left.ty(), right.ty()) {
            Some(ty) => Ok(Some(Expression::binary(alloc, ty, operator, left, right)?)),
            None => {
                drop(left);
                drop(right);
                note(least, FaultKind::Mismatch, token);
                Ok(None)
            }
        },
        (Some(left), None) => {
            drop(left);
            Ok(None)
        }
        (None, right) => {
            drop(right);
            Ok(None)
        }
    }
}

/// An assignment of a value to a place.
pub fn judge_assign(
    alloc: Global,
    least: &mut Option<Fault>,
    token: u32,
    operator: AssignOperator,
    place: Option<Expression>,
    value: Option<Expression>,
) -> Result<Option<Expression>, NoMemory>
    ensures value { IfOk result (λ r. option_map plain r
        ≡ fine (asked assign_rows (assign_rule operator)
        (two (option_map plain place) (option_map plain value)))) }
    ensures least { OnOk result (least.new ≡ kept least.old
        (at token (asked assign_rows (assign_rule operator)
        (two (option_map plain place) (option_map plain value))))) }
{
    match (place, value) {
        (Some(place), Some(value)) => judge_assigned(alloc, least, token, operator, place, value),
        (Some(place), None) => {
            drop(place);
            Ok(None)
        }
        (None, value) => {
            drop(value);
            Ok(None)
        }
    }
}

fn judge_assigned(
    alloc: Global,
    least: &mut Option<Fault>,
    token: u32,
    operator: AssignOperator,
    place: Expression,
    value: Expression,
) -> Result<Option<Expression>, NoMemory>
    ensures value { IfOk result (λ r. option_map plain r
        ≡ fine (asked assign_rows (assign_rule operator) (Some (plain place, plain value)))) }
    ensures least { OnOk result (least.new ≡ kept least.old
        (at token (asked assign_rows (assign_rule operator) (Some (plain place, plain value))))) }
{
    let is_place = place.is_place();
    let ty = assigned_type(operator, place.ty(), value.ty());
    match ty {
        Some(ty) if is_place => Ok(Some(Expression::assign(alloc, ty, operator, place, value)?)),
        _ => {
            drop(place);
            drop(value);
            note(least, kind_of_step(is_place), token);
            Ok(None)
        }
    }
}
