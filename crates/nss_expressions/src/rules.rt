//! The tables of types that rules cite, beside those of `typing_rules`.

ghost use Rattle.std.specs.Prelude.{◌≡◌};
ghost use Rattle.typing_rules.specs.Types.{assigned_type, is_action, is_int, is_step, is_void};
ghost use Rattle.typing_rules.specs.Rules.{variable_place};

use nss_tree::{AssignOperator, PrefixOperator};
use nwq_value::Ty;
use typing_rules::Place;
use typing_rules::rules::same_type;

pub fn is_int(ty: Ty) -> bool
    ensures test { result ≡ is_int ty }
{
    matches!(ty, Ty::Int)
}

pub fn is_void(ty: Ty) -> bool
    ensures test { result ≡ is_void ty }
{
    matches!(ty, Ty::Void)
}

pub fn is_action(ty: Ty) -> bool
    ensures test { result ≡ is_action ty }
{
    matches!(ty, Ty::Action)
}

/// Whether the operator writes what it stands before.
pub fn is_step(operator: PrefixOperator) -> bool
    ensures test { result ≡ is_step operator }
{
    matches!(
        operator,
        PrefixOperator::Increment | PrefixOperator::Decrement
    )
}

/// The type of an assignment of a value of the second type to a place of the first one.
pub fn assigned_type(operator: AssignOperator, place: Ty, value: Ty) -> Option<Ty>
    ensures typed { result ≡ assigned_type operator place value }
{
    match operator {
        AssignOperator::Set => {
            if same_type(place, value) {
                Some(place)
            } else {
                None
            }
        }
        AssignOperator::Add => match (place, value) {
            (Ty::Int, Ty::Int) => Some(Ty::Int),
            (Ty::Text, Ty::Text) => Some(Ty::Text),
            _ => None,
        },
        _ => match (place, value) {
            (Ty::Int, Ty::Int) => Some(Ty::Int),
            _ => None,
        },
    }
}

/// The place of a variable. Globals are local in the first value of a global, where they are still
/// being made.
pub fn place_of(at_file: bool, number: u32, is_local: bool) -> Place
    ensures place { result ≡ variable_place at_file number is_local }
{
    if at_file || is_local {
        Place::Local(number)
    } else {
        Place::Global(number)
    }
}
