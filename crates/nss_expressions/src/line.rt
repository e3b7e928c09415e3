//! Types as they are written.

ghost use Rattle.std.specs.Prelude.{◌≡◌};
ghost use Rattle.std.specs.Option.{option_map};
ghost use Rattle.typing_rules.specs.Nodes.{at, first_kind, kept};
ghost use Rattle.typing_rules.specs.Rules.{constant_type, line_rows};
ghost use Rattle.typing_rules.specs.Sight.{any_type, declared_type, result_type, type_means};
ghost use Rattle.typing_rules.specs.Sight.{value_type};
ghost use Rattle.typing_rules.specs.Verdicts.{constant_line_verdict, line_type, line_verdict};
ghost use Rattle.typing_rules.specs.Nodes.{fine};
ghost use Rattle.nss_scopes.specs.Entries.{meant_of};

use crate::note::note;
use nss_scopes::{Meant, Structs};
use nss_tree::TypeName;
use nwq_value::Ty;
use typing_rules::{Fault, FaultKind};

/// What a type as it is written means; `None` where it is a struct that isn't typed.
pub fn type_means(structs: &Structs, ty: &TypeName) -> Option<Meant>
    ensures meaning { option_map meant_of result ≡ type_means structs.now ty.now }
{
    match ty {
        TypeName::Void => Some(Meant::Is(Ty::Void)),
        TypeName::Int => Some(Meant::Is(Ty::Int)),
        TypeName::String => Some(Meant::Is(Ty::Text)),
        TypeName::Object => Some(Meant::Is(Ty::Object)),
        TypeName::Effect => Some(Meant::Is(Ty::Effect)),
        TypeName::Event => Some(Meant::Is(Ty::Event)),
        TypeName::Float => Some(Meant::Refused),
        TypeName::Vector => Some(Meant::Refused),
        TypeName::Location => Some(Meant::Refused),
        TypeName::Talent => Some(Meant::Refused),
        TypeName::ItemProperty => Some(Meant::Refused),
        TypeName::Action => Some(Meant::Refused),
        TypeName::Struct(name) => structs.means(name.bytes()),
    }
}

/// The type of a value that may be declared with it.
pub fn value_type(meant: Meant) -> Option<Ty>
    ensures typed { result ≡ value_type (meant_of meant) }
{
    match meant {
        Meant::Is(Ty::Void) => None,
        Meant::Is(ty) => Some(ty),
        Meant::Refused => None,
        Meant::Missing => None,
    }
}

/// The type of a function's result.
pub fn any_type(meant: Meant) -> Option<Ty>
    ensures typed { result ≡ any_type (meant_of meant) }
{
    match meant {
        Meant::Is(ty) => Some(ty),
        Meant::Refused => None,
        Meant::Missing => None,
    }
}

/// The type of a constant.
fn constant_type(meant: Meant) -> Option<Ty>
    ensures { result ≡ constant_type (meant_of meant) }
{
    match meant {
        Meant::Is(Ty::Int) => Some(Ty::Int),
        Meant::Is(Ty::Text) => Some(Ty::Text),
        Meant::Is(_) => None,
        Meant::Refused => None,
        Meant::Missing => None,
    }
}

/// The type of what a line declares, or of a parameter.
pub fn declared_type(structs: &Structs, ty: &TypeName) -> Option<Ty>
    ensures typed { result ≡ declared_type structs.now ty.now }
{
    match type_means(structs, ty) {
        Some(meant) => value_type(meant),
        None => None,
    }
}

/// The type of a function's result as it is written.
pub fn result_type(structs: &Structs, ty: &TypeName) -> Option<Ty>
    ensures typed { result ≡ result_type structs.now ty.now }
{
    match type_means(structs, ty) {
        Some(meant) => any_type(meant),
        None => None,
    }
}

/// The kind of fault of a line's type.
fn line_kind(meant: Meant) -> FaultKind
    ensures { result ≡ first_kind (line_rows (meant_of meant)) }
{
    match meant {
        Meant::Refused => FaultKind::RefusedType,
        Meant::Missing => FaultKind::Unknown,
        Meant::Is(_) => FaultKind::Mismatch,
    }
}

/// The type of a line of fields or variables.
pub fn line_type(
    least: &mut Option<Fault>,
    token: u32,
    structs: &Structs,
    ty: &TypeName,
) -> Option<Ty>
    ensures value { result ≡ line_type structs.now ty.now }
    ensures least { least.new ≡ kept least.old (at token (line_verdict structs.now ty.now)) }
{
    match type_means(structs, ty) {
        None => None,
        Some(meant) => match value_type(meant) {
            Some(ty) => Some(ty),
            None => {
                note(least, line_kind(meant), token);
                None
            }
        },
    }
}

/// The type of the line of a constant.
pub fn constant_line_type(
    least: &mut Option<Fault>,
    token: u32,
    structs: &Structs,
    ty: &TypeName,
) -> Option<Ty>
    ensures value { result ≡ fine (constant_line_verdict structs.now ty.now) }
    ensures least { least.new
        ≡ kept least.old (at token (constant_line_verdict structs.now ty.now)) }
{
    match type_means(structs, ty) {
        None => None,
        Some(meant) => match constant_type(meant) {
            Some(ty) => Some(ty),
            None => {
                note(least, line_kind(meant), token);
                None
            }
        },
    }
}
