//! Why a call is refused, by its arguments and what it calls.

ghost use Rattle.std.specs.Prelude.{◌≡◌, IfOk};
ghost use Rattle.std.specs.Option.{option_map};
ghost use Rattle.typing_rules.specs.Nodes.{two};
ghost use Rattle.typing_rules.specs.Reading.{plain, plain_all};
ghost use Rattle.typing_rules.specs.Rules.{is_void_call, takes};
ghost use Rattle.nss_expressions.specs.Views.{called_of};
ghost use Rattle.expression_reasons.specs.Why.{call_why, called_why, untaken, without_default};

use crate::reason::Reason;
use nss_expressions::called::{Called, filled, is_barred};
use nss_expressions::rules::{is_action, is_void};
use nwq_value::{Items, NoMemory, Param, Ty};
use std::alloc::Global;
use typing_rules::Expression;
use typing_rules::rules::same_type;

/// Whether a value is a call of a function without a result.
#[tactic(auto, using(typing_rules::specs::Readings::known))]
fn is_void_call(x: &Expression) -> bool
    ensures { result ≡ is_void_call (plain x.now) }
{
    match x {
        Expression::Call { ty, .. } => is_void(*ty),
        Expression::Literal { .. } => false,
        Expression::Name { .. } => false,
        Expression::Member { .. } => false,
        Expression::Prefix { .. } => false,
        Expression::Postfix { .. } => false,
        Expression::Binary { .. } => false,
        Expression::Assign { .. } => false,
    }
}

/// Whether a parameter of this type takes the value.
fn takes(ty: Ty, x: &Expression) -> bool
    ensures { result ≡ takes ty (plain x.now) }
{
    if is_action(ty) {
        is_void_call(x)
    } else {
        !is_void(ty) && same_type(ty, x.ty())
    }
}

/// How many parameters stand before the first one with a default.
fn without_default(params: &[Param]) -> usize
    ensures { result ≡ without_default params.now }
{
    let mut count = 0;
    while count < params.len() {
        if params[count].default.is_some() {
            return count;
        }
        count += 1;
    }
    count
}

/// The first argument that its parameter doesn't take.
fn untaken(xs: &[Expression], params: &[Param]) -> Option<Reason>
    ensures { result ≡ untaken 0 (plain_all xs.now) params.now }
{
    let mut number = 0;
    while number < xs.len() && number < params.len() {
        let (x, wanted) = (&xs[number], params[number].ty);
        if !takes(wanted, x) {
            return Some(Reason::Argument {
                number: number + 1,
                given: x.ty(),
                wanted,
            });
        }
        number += 1;
    }
    None
}

/// A call of this with these arguments.
fn called_why(
    alloc: Global,
    at_file: bool,
    as_action: bool,
    xs: &[Expression],
    called: &Called<'_>,
) -> Result<Option<Reason>, NoMemory>
    ensures { IfOk result (λ r. r
        ≡ called_why at_file as_action (plain_all xs.now) (called_of called.now)) }
{
    if !called.is_callable {
        return Ok(Some(Reason::Uncallable));
    }
    match filled(alloc, xs.len(), called.params)? {
        None => Ok(Some(Reason::Arguments {
            given: xs.len(),
            least: without_default(called.params),
            most: called.params.len(),
        })),
        Some(defaults) => {
            drop(defaults);
            if at_file && is_barred(as_action, called) {
                Ok(Some(Reason::Barred))
            } else {
                Ok(untaken(xs, called.params))
            }
        }
    }
}

/// A call with these arguments of what its name means.
pub fn call_why(
    alloc: Global,
    at_file: bool,
    as_action: bool,
    arguments: Option<Items<Expression>>,
    called: Option<Option<Called<'_>>>,
) -> Result<Option<Reason>, NoMemory>
    ensures why { IfOk result (λ r. r ≡ call_why at_file as_action
        (two (option_map plain_all arguments) (option_map (option_map called_of) called.entry))) }
{
    match arguments {
        None => Ok(None),
        Some(xs) => match called {
            None => {
                drop(xs);
                Ok(None)
            }
            Some(None) => {
                drop(xs);
                Ok(Some(Reason::NoFunction))
            }
            Some(Some(called)) => {
                let why = called_why(alloc, at_file, as_action, xs.as_slice(), &called);
                drop(xs);
                why
            }
        },
    }
}
