ghost use Rattle.std.specs.Prelude.{◌≡◌, map};
ghost use Rattle.std.specs.List.{list_any};
ghost use Rattle.nwq_value.specs.Roles.{engine_role, has_signature, header_signatures};
ghost use Rattle.nwq_value.specs.Roles.{is_barred_type};
ghost use Rattle.nwq_value.specs.Roles.{role_of_row, role_without_row, ty_eq, tys_eq, types_of};
ghost use Rattle.nwq_value.specs.Rows.{row_signature};

use crate::engine::{Param, Role};
use crate::value::Ty;

/// A function of the built-in header, with the role of its row in the engine's table, where it has
/// one.
struct Row {
    name: &'static [u8],
    gives: Ty,
    takes: &'static [Ty],
    role: Option<Role>,
}

static ROWS: [Row; 41] = [
    Row {
        name: b"Random",
        gives: Ty::Int,
        takes: &[Ty::Int],
        role: Some(Role::Built(0)),
    },
    Row {
        name: b"PrintString",
        gives: Ty::Void,
        takes: &[Ty::Text],
        role: Some(Role::Built(1)),
    },
    Row {
        name: b"PrintFloat",
        gives: Ty::Void,
        takes: &[Ty::Refused, Ty::Int, Ty::Int],
        role: None,
    },
    Row {
        name: b"FloatToString",
        gives: Ty::Text,
        takes: &[Ty::Refused, Ty::Int, Ty::Int],
        role: None,
    },
    Row {
        name: b"PrintInteger",
        gives: Ty::Void,
        takes: &[Ty::Int],
        role: Some(Role::Built(4)),
    },
    Row {
        name: b"PrintObject",
        gives: Ty::Void,
        takes: &[Ty::Object],
        role: Some(Role::Built(5)),
    },
    Row {
        name: b"AssignCommand",
        gives: Ty::Void,
        takes: &[Ty::Object, Ty::Action],
        role: Some(Role::Built(6)),
    },
    Row {
        name: b"DelayCommand",
        gives: Ty::Void,
        takes: &[Ty::Int, Ty::Action],
        role: Some(Role::Built(7)),
    },
    Row {
        name: b"ExecuteScript",
        gives: Ty::Void,
        takes: &[Ty::Text, Ty::Object],
        role: Some(Role::Built(8)),
    },
    Row {
        name: b"ClearAllActions",
        gives: Ty::Void,
        takes: &[Ty::Int],
        role: Some(Role::Built(9)),
    },
    Row {
        name: b"ActionDoCommand",
        gives: Ty::Void,
        takes: &[Ty::Action],
        role: Some(Role::Built(10)),
    },
    Row {
        name: b"ActionWait",
        gives: Ty::Void,
        takes: &[Ty::Int],
        role: Some(Role::Built(11)),
    },
    Row {
        name: b"ActionSpeakString",
        gives: Ty::Void,
        takes: &[Ty::Text, Ty::Int],
        role: Some(Role::Built(12)),
    },
    Row {
        name: b"SpeakString",
        gives: Ty::Void,
        takes: &[Ty::Text, Ty::Int],
        role: Some(Role::Built(13)),
    },
    Row {
        name: b"GetObjectByTag",
        gives: Ty::Object,
        takes: &[Ty::Text, Ty::Int],
        role: Some(Role::Built(14)),
    },
    Row {
        name: b"GetTag",
        gives: Ty::Text,
        takes: &[Ty::Object],
        role: Some(Role::Built(15)),
    },
    Row {
        name: b"GetIsObjectValid",
        gives: Ty::Int,
        takes: &[Ty::Object],
        role: Some(Role::Built(16)),
    },
    Row {
        name: b"GetLocalInt",
        gives: Ty::Int,
        takes: &[Ty::Object, Ty::Text],
        role: Some(Role::Built(17)),
    },
    Row {
        name: b"SetLocalInt",
        gives: Ty::Void,
        takes: &[Ty::Object, Ty::Text, Ty::Int],
        role: Some(Role::Built(18)),
    },
    Row {
        name: b"GetLocalString",
        gives: Ty::Text,
        takes: &[Ty::Object, Ty::Text],
        role: Some(Role::Built(19)),
    },
    Row {
        name: b"SetLocalString",
        gives: Ty::Void,
        takes: &[Ty::Object, Ty::Text, Ty::Text],
        role: Some(Role::Built(20)),
    },
    Row {
        name: b"DeleteLocalInt",
        gives: Ty::Void,
        takes: &[Ty::Object, Ty::Text],
        role: Some(Role::Built(21)),
    },
    Row {
        name: b"DeleteLocalString",
        gives: Ty::Void,
        takes: &[Ty::Object, Ty::Text],
        role: Some(Role::Built(22)),
    },
    Row {
        name: b"ApplyEffectToObject",
        gives: Ty::Void,
        takes: &[Ty::Int, Ty::Effect, Ty::Object, Ty::Int],
        role: Some(Role::Built(23)),
    },
    Row {
        name: b"RemoveEffect",
        gives: Ty::Void,
        takes: &[Ty::Object, Ty::Effect],
        role: Some(Role::Built(24)),
    },
    Row {
        name: b"EffectDamage",
        gives: Ty::Effect,
        takes: &[Ty::Int, Ty::Int, Ty::Int],
        role: None,
    },
    Row {
        name: b"EffectHeal",
        gives: Ty::Effect,
        takes: &[Ty::Int],
        role: None,
    },
    Row {
        name: b"SetCommandable",
        gives: Ty::Void,
        takes: &[Ty::Int, Ty::Object],
        role: None,
    },
    Row {
        name: b"abs",
        gives: Ty::Int,
        takes: &[Ty::Int],
        role: Some(Role::Pure(0)),
    },
    Row {
        name: b"IntToString",
        gives: Ty::Text,
        takes: &[Ty::Int],
        role: Some(Role::Pure(1)),
    },
    Row {
        name: b"StringToInt",
        gives: Ty::Int,
        takes: &[Ty::Text],
        role: Some(Role::Pure(2)),
    },
    Row {
        name: b"IntToHexString",
        gives: Ty::Text,
        takes: &[Ty::Int],
        role: Some(Role::Pure(3)),
    },
    Row {
        name: b"GetStringLength",
        gives: Ty::Int,
        takes: &[Ty::Text],
        role: Some(Role::Pure(4)),
    },
    Row {
        name: b"GetStringLeft",
        gives: Ty::Text,
        takes: &[Ty::Text, Ty::Int],
        role: Some(Role::Pure(5)),
    },
    Row {
        name: b"GetStringRight",
        gives: Ty::Text,
        takes: &[Ty::Text, Ty::Int],
        role: Some(Role::Pure(6)),
    },
    Row {
        name: b"GetSubString",
        gives: Ty::Text,
        takes: &[Ty::Text, Ty::Int, Ty::Int],
        role: Some(Role::Pure(7)),
    },
    Row {
        name: b"InsertString",
        gives: Ty::Text,
        takes: &[Ty::Text, Ty::Text, Ty::Int],
        role: Some(Role::Pure(8)),
    },
    Row {
        name: b"Get2DAString",
        gives: Ty::Text,
        takes: &[Ty::Text, Ty::Text, Ty::Int],
        role: Some(Role::Pure(9)),
    },
    Row {
        name: b"EventUserDefined",
        gives: Ty::Event,
        takes: &[Ty::Int],
        role: Some(Role::Built(38)),
    },
    Row {
        name: b"SignalEvent",
        gives: Ty::Void,
        takes: &[Ty::Object, Ty::Event],
        role: Some(Role::Built(39)),
    },
    Row {
        name: b"GetUserDefinedEventNumber",
        gives: Ty::Int,
        takes: &[],
        role: Some(Role::Built(40)),
    },
];

/// Whether the types are equal.
fn same_type(a: Ty, b: Ty) -> bool
    ensures { result ≡ ty_eq a b }
{
    a == b
}

/// Whether these are parameters of these types, in order.
#[tactic(auto, unfolding(crate::specs::Roles::tys_eq))]
fn are_types(params: &[Param], takes: &[Ty]) -> bool
    ensures { result ≡ tys_eq (types_of params.now) takes.now }
{
    match params {
        [] => takes.is_empty(),
        [param, params @ ..] => match takes {
            [] => false,
            [ty, takes @ ..] => same_type(param.ty, *ty) && are_types(params, takes),
        },
    }
}

/// Whether a routine has the row's signature.
#[tactic(auto, unfolding(crate::specs::Roles::has_signature))]
fn has_signature(name: &[u8], gives: Ty, params: &[Param], row: &Row) -> bool
    ensures { result ≡ has_signature name.now gives (types_of params.now) (row_signature row.now) }
{
    name == row.name && same_type(gives, row.gives) && are_types(params, row.takes)
}

/// The role of the first row with this signature.
#[tactic(auto, unfolding(crate::specs::Roles::role_of_row))]
fn role_in(rows: &[Row], name: &[u8], gives: Ty, params: &[Param]) -> Option<Role>
    ensures { result
        ≡ role_of_row (map row_signature rows.now) name.now gives (types_of params.now) }
{
    match rows {
        [] => None,
        [row, rest @ ..] => {
            if has_signature(name, gives, params, row) {
                row.role
            } else {
                role_in(rest, name, gives, params)
            }
        }
    }
}

/// The rows of the built-in header.
#[tactic(auto, unfolding(crate::specs::Header::header_routines))]
fn rows() -> &'static [Row]
    ensures { map row_signature result.now ≡ header_signatures }
{
    &ROWS
}

/// Whether no call can pass or give a value of this type.
fn is_barred(ty: Ty) -> bool
    ensures { result ≡ is_barred_type ty }
{
    matches!(ty, Ty::Refused | Ty::Action)
}

/// Whether one of these is a parameter that no call can pass.
fn any_barred(params: &[Param]) -> bool
    ensures { result ≡ list_any (λ p. is_barred_type p.ty) params.now }
{
    params.iter().any(|param| is_barred(param.ty))
}

/// The role of a routine for which the engine has no row.
#[tactic(auto, using(crate::proofs::RoleLemmas::any_barred_type), unfolding(crate::specs::Roles::role_without_row))]
fn plain_role(gives: Ty, params: &[Param]) -> Role
    ensures { result ≡ role_without_row gives (types_of params.now) }
{
    if is_barred(gives) {
        Role::Uncallable
    } else if any_barred(params) {
        Role::Uncallable
    } else {
        Role::World
    }
}

/// The role of a routine with this name, result and parameters, which depends on their types alone:
/// that of the engine's row where the built-in header has this very signature, else `Uncallable`
/// where a type is refused or an action, and else `World`.
#[tactic(auto, unfolding(crate::specs::Roles::engine_role))]
pub fn role_of(name: &[u8], gives: Ty, params: &[Param]) -> Role
    ensures role { result ≡ engine_role name.now gives (types_of params.now) }
{
    match role_in(rows(), name, gives, params) {
        Some(role) => role,
        None => plain_role(gives, params),
    }
}
