ghost use Rattle.std.specs.Prelude.{◌≡◌, ◌≤◌, ◌++◌, IfOk, length, IsTrue};
ghost use Rattle.std.specs.List.{list_any};
ghost use Rattle.stack_shape.specs.Calls.{action_count, argument_types, call_effect, fits_call};
ghost use Rattle.stack_shape.specs.Calls.{is_action, is_callable, is_void, result_types};

use crate::effect::{StackEffect, exchange};
use crate::top_first::TopFirst;
use nwq_value::{NoMemory, Param, Role, Routine, Ty, Tys};
use std::alloc::Global;

pub fn is_action(ty: Ty) -> bool
    ensures { result ≡ is_action ty }
{
    matches!(ty, Ty::Action)
}

fn is_void(ty: Ty) -> bool
    ensures { result ≡ is_void ty }
{
    matches!(ty, Ty::Void)
}

fn any_void(params: &[Param]) -> bool
    ensures { result ≡ list_any (λ p. is_void p.ty) params.now }
{
    params.iter().any(|param| is_void(param.ty))
}

/// Whether a call of the routine is carried out at all.
#[tactic(auto, unfolding(crate::specs::Calls::is_callable))]
pub fn is_callable(routine: &Routine) -> bool
    ensures callable { result ≡ is_callable routine.now }
{
    match routine.role {
        Role::Uncallable => false,
        Role::Built(_) | Role::Pure(_) | Role::World => !any_void(routine.params.as_slice()),
    }
}

/// How many pending states a call takes.
pub fn action_count(params: &[Param]) -> usize
    ensures count { result ≡ action_count params.now }
    ensures bound { result ≤ length params.now }
{
    match params {
        [] => 0,
        [param, params @ ..] => {
            let rest = action_count(params);
            if is_action(param.ty) { rest + 1 } else { rest }
        }
    }
}

/// Puts last what a call with these parameters takes from the cells, from the top.
fn put_arguments(types: &mut Tys, params: &[Param]) -> Result<(), NoMemory>
    ensures { IfOk result (λ _. types.new ≡ types.old ++ argument_types params.now) }
{
    match params {
        [] => Ok(()),
        [first, rest @ ..] => {
            if is_action(first.ty) {
                put_arguments(types, rest)
            } else {
                types.push(first.ty)?;
                put_arguments(types, rest)
            }
        }
    }
}

/// What a call with these parameters takes from the cells, from the top.
fn argument_types(alloc: Global, params: &[Param]) -> Result<Tys, NoMemory>
    ensures { IfOk result (λ types. types ≡ argument_types params.now) }
{
    let mut types = Tys::new(alloc);
    put_arguments(&mut types, params)?;
    Ok(types)
}

/// What a call pushes.
fn result_types(alloc: Global, ty: Ty) -> Result<Tys, NoMemory>
    ensures { IfOk result (λ types. types ≡ result_types ty) }
{
    if is_void(ty) {
        Ok(Tys::new(alloc))
    } else {
        Tys::of_slice(alloc, &[ty])
    }
}

/// Whether a call with this count fits the routine and the number of pending states.
#[tactic(auto, unfolding(crate::specs::Calls::fits_call))]
fn fits_call(routine: &Routine, count: u8, pending: u32) -> bool
    ensures { result ≡ fits_call routine.now count pending }
{
    is_callable(routine)
        && count as usize == routine.params.len()
        && action_count(routine.params.as_slice()) <= pending as usize
}

/// The effect of a call of the routine with this count, where so many states are pending, or `None`
/// where the call doesn't fit. It also takes `action_count` of the pending states.
#[tactic(auto, unfolding(crate::specs::Calls::call_effect))]
pub fn call_effect<C: TopFirst>(
    alloc: Global,
    routine: &Routine,
    count: u8,
    pending: u32,
    cells: &C,
) -> Result<Option<StackEffect>, NoMemory>
    ensures effect { IfOk result (λ effect. effect
        ≡ call_effect routine.now count pending (C.slots cells.now)) }
{
    if !fits_call(routine, count, pending) {
        return Ok(None);
    }
    let pops = argument_types(alloc, routine.params.as_slice())?;
    let pushes = result_types(alloc, routine.result)?;
    exchange(alloc, pops.as_slice(), pushes.as_slice(), cells)
}
