//! Why an operator, a member or a condition is refused, by the answers of its parts.

ghost use Rattle.std.specs.Prelude.{◌≡◌, is_some, Some};
ghost use Rattle.std.specs.Option.{option_map};
ghost use Rattle.typing_rules.specs.Nodes.{two};
ghost use Rattle.typing_rules.specs.Reading.{plain};
ghost use Rattle.typing_rules.specs.Rules.{assign_rule, binary_rule, member_at, member_rule};
ghost use Rattle.typing_rules.specs.Rules.{postfix_rule, prefix_rule, return_rule};
ghost use Rattle.typing_rules.specs.Sight.{members_in};
ghost use Rattle.typing_rules.specs.Typed.{type_of};
ghost use Rattle.expression_reasons.specs.Why.{assign_reason, because, condition_reason};
ghost use Rattle.expression_reasons.specs.Why.{condition_rule};
ghost use Rattle.expression_reasons.specs.Why.{member_reason, operands, postfix_reason};
ghost use Rattle.expression_reasons.specs.Why.{prefix_reason};
ghost use Rattle.expression_reasons.specs.Why.{result_is, return_reason, step_reason};

use crate::reason::Reason;
use nss_expressions::rules::{assigned_type, is_int, is_step, is_void};
use nss_scopes::Structs;
use nss_tree::{AssignOperator, BinaryOperator, PostfixOperator, PrefixOperator};
use nwq_value::Ty;
use typing_rules::Expression;
use typing_rules::rules::{binary_type, same_type};

/// An operator between two values.
pub fn binary_why(
    operator: BinaryOperator,
    left: Option<Expression>,
    right: Option<Expression>,
) -> Option<Reason>
    ensures why { result ≡ because (binary_rule operator) operands
        (two (option_map plain left) (option_map plain right)) }
{
    match (left, right) {
        (Some(left), Some(right)) => {
            let (first, second) = (left.ty(), right.ty());
            drop(left);
            drop(right);
            match binary_type(operator, first, second) {
                Some(_) => None,
                None => Some(Reason::Operands {
                    left: first,
                    right: second,
                }),
            }
        }
        (Some(left), None) => {
            drop(left);
            None
        }
        (None, right) => {
            drop(right);
            None
        }
    }
}

fn assigned_why(operator: AssignOperator, place: Expression, value: Expression) -> Option<Reason>
    ensures { result ≡ because (assign_rule operator) assign_reason
        (two (option_map plain (Some place)) (option_map plain (Some value))) }
{
    let is_place = place.is_place();
    let (first, second) = (place.ty(), value.ty());
    drop(place);
    drop(value);
    if !is_place {
        return Some(Reason::NoPlace);
    }
    match assigned_type(operator, first, second) {
        Some(_) => None,
        None => Some(Reason::Operands {
            left: first,
            right: second,
        }),
    }
}

/// An assignment of a value to a place.
pub fn assign_why(
    operator: AssignOperator,
    place: Option<Expression>,
    value: Option<Expression>,
) -> Option<Reason>
    ensures why { result ≡ because (assign_rule operator) assign_reason
        (two (option_map plain place) (option_map plain value)) }
{
    match (place, value) {
        (Some(place), Some(value)) => assigned_why(operator, place, value),
        (Some(place), None) => {
            drop(place);
            None
        }
        (None, value) => {
            drop(value);
            None
        }
    }
}

/// What is wrong with the operand of an operator that takes an int, and maybe writes it.
fn step_reason(is_written: bool, ty: Ty) -> Reason
    ensures { result ≡ step_reason is_written ty }
{
    if is_written {
        Reason::Operand { ty }
    } else {
        Reason::NoPlace
    }
}

/// An operator before a value.
pub fn prefix_why(operator: PrefixOperator, of: Option<Expression>) -> Option<Reason>
    ensures why { result
        ≡ because (prefix_rule operator) (prefix_reason operator) (option_map plain of) }
{
    match of {
        None => None,
        Some(of) => {
            let is_written = !is_step(operator) || of.is_place();
            let ty = of.ty();
            drop(of);
            if is_int(ty) && is_written {
                None
            } else {
                Some(step_reason(is_written, ty))
            }
        }
    }
}

/// `++` or `--` behind a value.
pub fn postfix_why(operator: PostfixOperator, of: Option<Expression>) -> Option<Reason>
    ensures why { result ≡ because (postfix_rule operator) postfix_reason (option_map plain of) }
{
    match of {
        None => None,
        Some(of) => {
            let is_place = of.is_place();
            let ty = of.ty();
            drop(of);
            if is_int(ty) && is_place {
                None
            } else {
                Some(step_reason(is_place, ty))
            }
        }
    }
}

/// Whether a value of this type has a member of this name.
fn has_member(structs: &Structs, ty: Ty, name: &[u8]) -> bool
    ensures { result ≡ is_some (member_at name.now (members_in structs.now ty)) }
{
    match structs.members(ty) {
        Some(members) => members.find(name).is_some(),
        None => false,
    }
}

/// A member of a value.
pub fn member_why(structs: &Structs, of: Option<Expression>, name: &[u8]) -> Option<Reason>
    ensures why { result
        ≡ because (member_rule structs.now name.now) member_reason (option_map plain of) }
{
    match of {
        None => None,
        Some(of) => {
            let ty = of.ty();
            drop(of);
            if has_member(structs, ty, name) {
                None
            } else {
                Some(Reason::NoMember { of: ty })
            }
        }
    }
}

/// A value that must be an int.
pub fn condition_why(condition: Option<Expression>) -> Option<Reason>
    ensures why { result ≡ because condition_rule condition_reason (option_map plain condition) }
{
    match condition {
        None => None,
        Some(condition) => {
            let ty = condition.ty();
            drop(condition);
            if is_int(ty) {
                None
            } else {
                Some(Reason::Condition { ty })
            }
        }
    }
}

/// The type of a value that may be absent.
pub fn type_there(value: Option<Expression>) -> Option<Ty>
    ensures ty { result ≡ option_map type_of (option_map plain value) }
{
    match value {
        None => None,
        Some(value) => {
            let ty = value.ty();
            drop(value);
            Some(ty)
        }
    }
}

/// Whether a function with this result gives back a value of this type, or none.
fn result_fits(wanted: Ty, given: Option<Ty>) -> bool
    ensures { result ≡ result_is wanted given }
{
    match given {
        None => is_void(wanted),
        Some(ty) => !is_void(wanted) && same_type(wanted, ty),
    }
}

/// A `return` of a function with this result.
pub fn return_why(
    token: u32,
    wanted: Option<Ty>,
    value: Option<Option<Expression>>,
) -> Option<Reason>
    ensures why { result ≡ because (return_rule token) return_reason
        (two wanted (option_map (option_map plain) value)) }
{
    match wanted {
        None => {
            drop(value);
            None
        }
        Some(wanted) => match value {
            None => None,
            Some(value) => {
                let given = type_there(value);
                if result_fits(wanted, given) {
                    None
                } else {
                    Some(Reason::Returned { given, wanted })
                }
            }
        },
    }
}
