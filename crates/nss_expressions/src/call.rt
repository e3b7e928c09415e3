//! The judgement of a call, by its arguments and what it calls.

ghost use Rattle.std.specs.Prelude.{◌≡◌, false, IfOk, OnOk, not, Some};
ghost use Rattle.std.specs.Option.{option_map};
ghost use Rattle.typing_rules.specs.declared.fault.FaultKind.TheVariants as kind;
ghost use Rattle.typing_rules.specs.Nodes.{asked, at, fine, first_kind, kept, only, row, two};
ghost use Rattle.typing_rules.specs.Reading.{plain, plain_all};
ghost use Rattle.typing_rules.specs.Rules.{all_taken, call_rows, call_rule, is_void_call, takes};
ghost use Rattle.nss_expressions.specs.Arguments.{first_takes};
ghost use Rattle.nss_expressions.specs.Views.{called_of};

use crate::called::{Called, filled, is_barred, others};
use crate::note::note;
use crate::rules::{is_action, is_void};
use nwq_value::{Items, NoMemory, Param, Ty};
use std::alloc::Global;
use typing_rules::rules::same_type;
use typing_rules::{Expression, Fault, FaultKind};

/// Whether a value is a call of a function without a result.
#[tactic(auto, using(typing_rules::specs::Readings::known))]
fn is_void_call(x: &Expression) -> bool
    ensures { result ≡ is_void_call (plain x.now) }
{
    match x {
        Expression::Call { ty, .. } => is_void(*ty),
        Expression::Literal { .. } => false,
        Expression::Name { .. } => false,
        Expression::Member { .. } => false,
        Expression::Prefix { .. } => false,
        Expression::Postfix { .. } => false,
        Expression::Binary { .. } => false,
        Expression::Assign { .. } => false,
    }
}

/// Whether a parameter of this type takes the value.
fn takes(ty: Ty, x: &Expression) -> bool
    ensures { result ≡ takes ty (plain x.now) }
{
    if is_action(ty) {
        is_void_call(x)
    } else {
        !is_void(ty) && same_type(ty, x.ty())
    }
}

/// Whether there is a first parameter, and it takes the value.
fn first_takes(params: &[Param], x: &Expression) -> bool
    ensures { result ≡ first_takes params.now (plain x.now) }
{
    match params {
        [] => false,
        [first, ..] => takes(first.ty, x),
    }
}

/// Whether the parameters take the values, each the one at its place.
fn all_taken(xs: &[Expression], params: &[Param]) -> bool
    ensures { result ≡ all_taken (plain_all xs.now) params.now }
{
    let mut rest = params;
    for x in xs {
        if !first_takes(rest, x) {
            return false;
        }
        rest = others(rest);
    }
    true
}

/// The first kind of fault that is true of a call.
fn call_kind(is_callable: bool, has_arity: bool, is_barred: bool) -> FaultKind
    ensures { result ≡ first_kind (row kind.RefusedType (not is_callable)
        (row kind.Unknown false
        (row kind.Arity (not has_arity) (row kind.NotConst is_barred (only kind.Mismatch))))) }
{
    if !is_callable {
        FaultKind::RefusedType
    } else if !has_arity {
        FaultKind::Arity
    } else if is_barred {
        FaultKind::NotConst
    } else {
        FaultKind::Mismatch
    }
}

/// A call of this with these arguments.
fn judge_called(
    alloc: Global,
    least: &mut Option<Fault>,
    token: u32,
    at_file: bool,
    as_action: bool,
    arguments: Items<Expression>,
    called: &Called<'_>,
) -> Result<Option<Expression>, NoMemory>
    ensures value { IfOk result (λ r. option_map plain r
        ≡ fine (asked (call_rows at_file as_action) (call_rule at_file as_action)
        (Some (plain_all arguments, Some (called_of called.now))))) }
    ensures least { OnOk result (least.new ≡ kept least.old
        (at token (asked (call_rows at_file as_action) (call_rule at_file as_action)
        (Some (plain_all arguments, Some (called_of called.now)))))) }
{
    let is_barred = at_file && is_barred(as_action, called);
    let taken = all_taken(arguments.as_slice(), called.params);
    let defaults = filled(alloc, arguments.len(), called.params)?;
    match defaults {
        Some(defaults) => {
            if called.is_callable && !is_barred && taken {
                let (ty, callee) = (called.result, called.callee);
                return Ok(Some(Expression::call(ty, callee, arguments, defaults)));
            }
            drop(arguments);
            drop(defaults);
            note(least, call_kind(called.is_callable, true, is_barred), token);
            Ok(None)
        }
        None => {
            drop(arguments);
            note(
                least,
                call_kind(called.is_callable, false, is_barred),
                token,
            );
            Ok(None)
        }
    }
}

/// A call with these arguments of what its name means.
pub fn judge_call(
    alloc: Global,
    least: &mut Option<Fault>,
    token: u32,
    at_file: bool,
    as_action: bool,
    arguments: Option<Items<Expression>>,
    called: Option<Option<Called<'_>>>,
) -> Result<Option<Expression>, NoMemory>
    ensures value { IfOk result (λ r. option_map plain r
        ≡ fine (asked (call_rows at_file as_action) (call_rule at_file as_action)
        (two (option_map plain_all arguments) (option_map (option_map called_of) called.entry)))) }
    ensures least { OnOk result (least.new ≡ kept least.old
        (at token (asked (call_rows at_file as_action) (call_rule at_file as_action)
        (two (option_map plain_all arguments)
        (option_map (option_map called_of) called.entry))))) }
{
    match arguments {
        None => Ok(None),
        Some(arguments) => match called {
            None => {
                drop(arguments);
                Ok(None)
            }
            Some(None) => {
                drop(arguments);
                note(least, FaultKind::Unknown, token);
                Ok(None)
            }
            Some(Some(called)) => {
                judge_called(alloc, least, token, at_file, as_action, arguments, &called)
            }
        },
    }
}
