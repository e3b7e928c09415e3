//! Plays with the hooks of a program without tables.

ghost use Rattle.std.specs.Prelude.{◌≤◌, [], IfOk};
ghost use Rattle.hook_table.specs.Standard.{function_numbered, IsAnswer};
ghost use Rattle.hook_table.specs.InHooks.{known_by};
ghost use Rattle.world_core.specs.Calls.{AreServing};

use crate::bases::{BUSIER, DEEPER, OWN, WHOLE};
use crate::changed::all_stand;
use crate::example::is_resumed;
use crate::sketch::Sketch;
use hook_table::{Call, Hooks};
use nwq_hooks::{all_are_put, call_function, put_hook};
use nwq_value::{Args, NoMemory, Value};
use std::alloc::Global;
use std::test::*;

/// What is tried: the example, or changes of a state from the first number of a row on.
#[derive(Clone, Copy)]
enum Trial<'a> {
    Example,
    Changes(&'a Sketch, u32),
}

fn holds(alloc: Global, trial: Trial<'_>, hooks: &Hooks) -> Result<bool, NoMemory>
    requires hooks { AreServing (known_by hooks.now) }
{
    match trial {
        Trial::Example => Ok(is_resumed(alloc, hooks)),
        Trial::Changes(sketch, first) => all_stand(alloc, sketch, first, hooks),
    }
}

/// Whether it holds with hooks.
fn holds_with_hooks(alloc: Global, trial: Trial<'_>) -> Result<bool, NoMemory> {
    let mut hooks = Hooks::new(alloc);
    for n in 0u8..10 {
        let call: Call = Box::new(
            alloc,
            move |args: &Args| -> Result<Value, NoMemory>
                requires { n ≤ 9 }
                ensures { IfOk result (λ v. IsAnswer [] (function_numbered n).name
                    (function_numbered n).result args.now v) }
            { call_function(alloc, n, args) },
        )?;
        put_hook(alloc, &mut hooks, n, call)?;
    }
    all_are_put(&hooks);
    holds(alloc, trial, &hooks)
}

#[test]
fn an_example(rt: HostRuntime) -> Result<(), Fail> {
    assert!(rt; holds_with_hooks(rt.alloc(), Trial::Example)?);
    Ok(())
}

#[test]
fn something_of_each_kind(rt: HostRuntime) -> Result<(), Fail> {
    assert!(rt; holds_with_hooks(rt.alloc(), Trial::Changes(&WHOLE, 1))?);
    Ok(())
}

#[test]
fn more_of_each_kind(rt: HostRuntime) -> Result<(), Fail> {
    assert!(rt; holds_with_hooks(rt.alloc(), Trial::Changes(&WHOLE, 2))?);
    Ok(())
}

#[test]
fn queues_effects_and_events(rt: HostRuntime) -> Result<(), Fail> {
    assert!(rt; holds_with_hooks(rt.alloc(), Trial::Changes(&BUSIER, 3))?);
    Ok(())
}

#[test]
fn more_queues_effects_and_events(rt: HostRuntime) -> Result<(), Fail> {
    assert!(rt; holds_with_hooks(rt.alloc(), Trial::Changes(&BUSIER, 4))?);
    Ok(())
}

#[test]
fn many_locals(rt: HostRuntime) -> Result<(), Fail> {
    assert!(rt; holds_with_hooks(rt.alloc(), Trial::Changes(&DEEPER, 5))?);
    Ok(())
}

#[test]
fn many_more_locals(rt: HostRuntime) -> Result<(), Fail> {
    assert!(rt; holds_with_hooks(rt.alloc(), Trial::Changes(&DEEPER, 6))?);
    Ok(())
}

#[test]
fn a_header_of_its_own(rt: HostRuntime) -> Result<(), Fail> {
    assert!(rt; holds_with_hooks(rt.alloc(), Trial::Changes(&OWN, 7))?);
    Ok(())
}

#[test]
fn a_header_of_its_own_again(rt: HostRuntime) -> Result<(), Fail> {
    assert!(rt; holds_with_hooks(rt.alloc(), Trial::Changes(&OWN, 8))?);
    Ok(())
}
