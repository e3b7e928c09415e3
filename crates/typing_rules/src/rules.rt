//! The tables of types that rules cite.

ghost use Rattle.std.specs.Prelude.{◌≡◌};
ghost use Rattle.typing_rules.specs.Types.{binary_type, is_compared, same_type};

use nss_tree::BinaryOperator;
use nwq_value::Ty;

/// Whether two types are one.
pub fn same_type(left: Ty, right: Ty) -> bool
    ensures test { result ≡ same_type left right }
{
    match (left, right) {
        (Ty::Void, Ty::Void) => true,
        (Ty::Int, Ty::Int) => true,
        (Ty::Text, Ty::Text) => true,
        (Ty::Object, Ty::Object) => true,
        (Ty::Effect, Ty::Effect) => true,
        (Ty::Event, Ty::Event) => true,
        (Ty::Action, Ty::Action) => true,
        (Ty::Struct(a), Ty::Struct(b)) => a == b,
        (Ty::Refused, Ty::Refused) => true,
        _ => false,
    }
}

/// Whether two values of this type are compared by `==` and `!=`.
pub fn is_compared(ty: Ty) -> bool
    ensures test { result ≡ is_compared ty }
{
    match ty {
        Ty::Int | Ty::Text | Ty::Object | Ty::Effect | Ty::Event | Ty::Struct(_) => true,
        Ty::Void | Ty::Action | Ty::Refused => false,
    }
}

/// The type of an operation with two operands of these types.
pub fn binary_type(operator: BinaryOperator, left: Ty, right: Ty) -> Option<Ty>
    ensures typed { result ≡ binary_type operator left right }
{
    match operator {
        BinaryOperator::Add => match (left, right) {
            (Ty::Int, Ty::Int) => Some(Ty::Int),
            (Ty::Text, Ty::Text) => Some(Ty::Text),
            _ => None,
        },
        BinaryOperator::Equal | BinaryOperator::NotEqual => {
            if is_compared(left) && same_type(left, right) {
                Some(Ty::Int)
            } else {
                None
            }
        }
        _ => match (left, right) {
            (Ty::Int, Ty::Int) => Some(Ty::Int),
            _ => None,
        },
    }
}
