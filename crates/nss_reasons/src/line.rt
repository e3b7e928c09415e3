//! Types as they are written, and lines of variables.

ghost use Rattle.std.specs.Prelude.{◌≡◌, OnOk};
ghost use Rattle.nss_tree.specs.Reading.{plain_names};
ghost use Rattle.typing_rules.specs.Rules.{constant_type};
ghost use Rattle.typing_rules.specs.Sight.{value_type};
ghost use Rattle.typing_rules.specs.Verdicts.{after_names, line_type};
ghost use Rattle.nss_scopes.specs.Entries.{meant_of};
ghost use Rattle.nss_expressions.specs.Views.{heads_in, sight_in};
ghost use Rattle.expression_reasons.specs.Seen.{noted, seen};
ghost use Rattle.expression_reasons.specs.Why.{unless};
ghost use Rattle.expression_reasons.specs.declared.reason.Reason.TheVariants.{NoConstant};
ghost use Rattle.expression_reasons.specs.declared.reason.Reason.TheVariants.{NoVariable};
ghost use Rattle.nss_reasons.specs.Reasons.{fields_nodes, line_nodes};
ghost use Rattle.nss_reasons.specs.Why.{constant_line_why, line_reason, line_why};

use crate::declared::names;
use expression_reasons::found::note;
use expression_reasons::reason::Reason;
use nss_expressions::given::Given;
use nss_expressions::line::{line_type, type_means};
use nss_scopes::{Meant, Sight, Structs};
use nss_tree::{DeclaredName, FieldLine, TypeName};
use nwq_value::{NoMemory, Ty};

/// What is wrong with a type that means this, of variables or fields.
fn variable_reason(meant: Meant) -> Option<Reason>
    ensures { result
        ≡ unless (value_type (meant_of meant)) (line_reason NoVariable (meant_of meant)) }
{
    match meant {
        Meant::Is(Ty::Void) => Some(Reason::NoVariable { ty: Ty::Void }),
        Meant::Is(_) => None,
        Meant::Refused => Some(Reason::LeftOut),
        Meant::Missing => Some(Reason::NoStruct),
    }
}

/// What is wrong with a type that means this, of a constant.
fn constant_reason(meant: Meant) -> Option<Reason>
    ensures { result
        ≡ unless (constant_type (meant_of meant)) (line_reason NoConstant (meant_of meant)) }
{
    match meant {
        Meant::Is(Ty::Int) => None,
        Meant::Is(Ty::Text) => None,
        Meant::Is(ty) => Some(Reason::NoConstant { ty }),
        Meant::Refused => Some(Reason::LeftOut),
        Meant::Missing => Some(Reason::NoStruct),
    }
}

fn line_why(structs: &Structs, ty: &TypeName) -> Option<Reason>
    ensures { result ≡ line_why structs.now ty.now }
{
    match type_means(structs, ty) {
        None => None,
        Some(meant) => variable_reason(meant),
    }
}

fn constant_line_why(structs: &Structs, ty: &TypeName) -> Option<Reason>
    ensures { result ≡ constant_line_why structs.now ty.now }
{
    match type_means(structs, ty) {
        None => None,
        Some(meant) => constant_reason(meant),
    }
}

/// The type of a line of variables or fields by itself.
fn own_line(structs: &Structs, k: u32, found: &mut Option<Reason>, token: u32, ty: &TypeName)
    ensures { found.new ≡ noted k found.old token (line_why structs.now ty.now) }
{
    if token == k {
        note(found, line_why(structs, ty));
    }
}

/// The type of a const line by itself.
pub fn own_constant_line(
    structs: &Structs,
    k: u32,
    found: &mut Option<Reason>,
    token: u32,
    ty: &TypeName,
)
    ensures found { found.new ≡ noted k found.old token (constant_line_why structs.now ty.now) }
{
    if token == k {
        note(found, constant_line_why(structs, ty));
    }
}

/// The lines of a struct.
pub fn fields(structs: &Structs, k: u32, found: &mut Option<Reason>, ls: &[FieldLine])
    ensures found { found.new ≡ seen k found.old (fields_nodes structs.now ls.now) }
{
    for l in ls {
        own_line(structs, k, found, l.token, &l.ty);
    }
}

/// A line of variables; they are in sight behind it.
pub fn line(
    given: &Given<'_>,
    c: &mut Sight,
    k: u32,
    found: &mut Option<Reason>,
    token: u32,
    ty: &TypeName,
    ds: &[DeclaredName],
) -> Result<(), NoMemory>
    ensures found { OnOk result (found.new ≡ seen k found.old
        (line_nodes (heads_in given.now) (sight_in given.now c.old) token ty.now
        (plain_names ds.now))) }
    ensures sight { OnOk result (sight_in given.now c.new
        ≡ after_names (sight_in given.now c.old) (line_type c.old.structs ty.now)
        (plain_names ds.now)) }
{
    own_line(&c.structs, k, found, token, ty);
    let mut ignored = None;
    let ty = line_type(&mut ignored, token, &c.structs, ty);
    names(given, c, k, found, ty, ds)
}
