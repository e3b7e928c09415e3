//! What a call calls.

ghost use Rattle.std.specs.Prelude.{◌≡◌, IfOk, length};
ghost use Rattle.std.specs.Option.{option_map};
ghost use Rattle.nwq_value.specs.Engine.{routine_named};
ghost use Rattle.typing_rules.specs.Sight.{callee, is_callable_role, of_signature};
ghost use Rattle.typing_rules.specs.Sight.{routine_called, types_wanted};
ghost use Rattle.typing_rules.specs.Rules.{defaults, is_barred, is_of_unit, others, takes_action};
ghost use Rattle.nss_scopes.specs.Entries.{signature_of};
ghost use Rattle.nss_expressions.specs.Views.{called_of, heads_in};
ghost use Rattle.nss_expressions.specs.Arguments.{defaults_behind};

use crate::given::Given;
use crate::rules::{is_action, is_void};
use nss_scopes::Signature;
use nwq_value::{Const, Items, NoMemory, Param, Role, Table, Ty};
use std::alloc::Global;
use typing_rules::Callee;

/// What a call calls, with the parameters and the result of it.
#[derive(Clone, Copy)]
pub struct Called<'u> {
    pub callee: Callee,
    pub params: &'u [Param],
    pub result: Ty,
    pub is_callable: bool,
}

fn is_callable_role(role: Role) -> bool
    ensures { result ≡ is_callable_role role }
{
    !matches!(role, Role::Uncallable)
}

fn of_signature(number: u32, signature: &Signature) -> Called<'_>
    ensures { called_of result ≡ of_signature number (signature_of signature.now) }
{
    Called {
        callee: Callee::Unit(number),
        params: signature.params.as_slice(),
        result: signature.result,
        is_callable: true,
    }
}

/// The routine of the header with this name.
fn routine_called<'u>(table: &'u Table, name: &[u8]) -> Option<Called<'u>>
    ensures { option_map called_of result
        ≡ routine_called table.now.routines (routine_named name.now table.now.routines) }
{
    match table.by_name(name) {
        Some(number) => match table.routine(number) {
            Some(routine) => Some(Called {
                callee: Callee::Engine(number),
                params: routine.params.as_slice(),
                result: routine.result,
                is_callable: is_callable_role(routine.role),
            }),
            None => None,
        },
        None => None,
    }
}

/// What a call of this name calls, maybe nothing; `None` where that declaration isn't typed.
pub fn callee<'u>(given: &Given<'u>, name: &[u8]) -> Option<Option<Called<'u>>>
    ensures callee { option_map (option_map called_of) result
        ≡ callee (heads_in given.now) given.now.table.now name.now }
{
    match given.heads.body(name) {
        Some(number) => match given.heads.find(name) {
            Some(head) => match &head.types {
                Some(signature) => Some(Some(of_signature(number, signature))),
                None => None,
            },
            None => Some(None),
        },
        None => Some(routine_called(given.table, name)),
    }
}

/// The parameters that are wanted, where there are any.
pub fn types_wanted<'u>(called: Option<Option<Called<'u>>>) -> &'u [Param]
    ensures wanted { result.now ≡ types_wanted (option_map (option_map called_of) called.entry) }
{
    match called {
        Some(Some(called)) => called.params,
        Some(None) => &[],
        None => &[],
    }
}

/// Whether an argument stands where an action is taken.
pub fn takes_action(params: &[Param]) -> bool
    ensures test { result ≡ takes_action params.now }
{
    match params {
        [] => false,
        [first, ..] => is_action(first.ty),
    }
}

/// The parameters behind the first.
pub fn others(params: &[Param]) -> &[Param]
    ensures others { result.now ≡ others params.now }
{
    match params {
        [] => params,
        [_, rest @ ..] => rest,
    }
}

/// Whether such a call may not stand in a global's first value.
pub fn is_barred(as_action: bool, called: &Called<'_>) -> bool
    ensures test { result ≡ is_barred as_action (called_of called.now) }
{
    matches!(called.callee, Callee::Unit(_)) || (as_action && is_void(called.result))
}

/// The defaults of these parameters, where each has one.
fn defaults(alloc: Global, params: &[Param]) -> Result<Option<Items<Const>>, NoMemory>
    ensures { IfOk result (λ r. r ≡ defaults params.now) }
{
    let mut all = Items::new(alloc);
    for param in params {
        match &param.default {
            Some(value) => {
                let value = value.copy(alloc)?;
                all.push(value)?;
            }
            None => return Ok(None),
        }
    }
    Ok(Some(all))
}

/// The defaults of the parameters behind so many arguments; `None` where there are too many
/// arguments, or too few.
pub fn filled(
    alloc: Global,
    count: usize,
    params: &[Param],
) -> Result<Option<Items<Const>>, NoMemory>
    ensures filled { IfOk result (λ r. r ≡ defaults_behind count params.now) }
{
    if count > params.len() {
        return Ok(None);
    }
    defaults(alloc, &params[count..])
}
