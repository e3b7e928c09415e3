//! What a call of a header's routine does, by the routine's role.
ghost use Rattle.std.specs.Prelude.{◌≡◌, ◌<◌, ◌≤◌, ◌+◌, ◌^◌, ◌++◌, ◌∷◌, [], drop, slice_get};
ghost use Rattle.std.specs.Prelude.{ℕ, Some};
ghost use Rattle.std.specs.Prelude.{IfOk, OnOk, OnErr};
ghost use Rattle.nwq_value.specs.Engine.{IsRoutine};
ghost use Rattle.nwq_value.specs.declared.engine.Role.TheVariants as role;
ghost use Rattle.world_rules.specs.declared.data.Told.TheVariants as line;
ghost use Rattle.world_rules.specs.AlikeLaws.{call};
ghost use Rattle.world_rules.specs.Arguments.{ints_of};
ghost use Rattle.world_rules.specs.Changes.{told};
ghost use Rattle.world_rules.specs.Engine.{by_role, world_value};
ghost use Rattle.world_rules.specs.Kept.{IsWorld};
ghost use Rattle.world_rules.specs.Pure.{pure};
ghost use Rattle.world_rules.specs.World.{count};
ghost use Rattle.hook_table.specs.Standard.{types_of_values};
ghost use Rattle.hook_table.specs.InHooks.{known_by};
ghost use Rattle.stack_shape.specs.Calls.{argument_types};
ghost use Rattle.world_core.specs.Calls.{cells_of, AreServing, IsEarly};
ghost use Rattle.world_parts.specs.Row.{does};

use hook_table::Hooks;
use hook_table::laws::standard_hooks_serve;
use nwq_value::header::roles_tell;
use nwq_value::{Args, Effect, Ints, NoMemory, Role, Routine, Text, Ty, Value};
use std::alloc::Global;
use world_parts::Parts;
use world_rules::Told;

/// Puts the number of an int last.
fn push_int(ints: &mut Ints, value: &Value) -> Result<(), NoMemory>
    ensures ok { OnOk result (ints.new ≡ ints.old ++ ints_of (value.now ∷ [])) }
{
    match value {
        Value::Int(n) => ints.push(*n),
        Value::Text(_) | Value::Object(_) | Value::Effect(_) | Value::Event(_) => Ok(()),
    }
}

/// The ints among arguments.
#[tactic(auto, using(crate::proofs::EngineLemmas::one_more_int))]
fn ints_of(alloc: Global, args: &Args) -> Result<Ints, NoMemory>
    ensures ok { IfOk result (λ ints. ints ≡ ints_of args.now) }
{
    let mut ints = Ints::new(alloc);
    for value in args.as_slice() {
        push_int(&mut ints, value)?;
    }
    Ok(ints)
}

/// What a world function gives.
fn world_value(
    alloc: Global,
    number: u16,
    gives: Ty,
    args: &Args,
) -> Result<Option<Value>, NoMemory>
    ensures value { IfOk result (λ value. value ≡ world_value number gives args.now) }
{
    match gives {
        Ty::Effect => {
            let ints = ints_of(alloc, args)?;
            Ok(Some(Value::Effect(Effect::new(alloc, number, ints)?)))
        }
        Ty::Int => Ok(Some(Value::Int(0))),
        Ty::Text => Ok(Some(Value::Text(Text::empty(alloc)?))),
        Ty::Object => Ok(Some(Value::Object(0))),
        Ty::Event => Ok(Some(Value::Event(0))),
        Ty::Void | Ty::Action | Ty::Struct(_) | Ty::Refused => Ok(None),
    }
}

/// The name that a call leaves in the trace, and what the call gives.
fn called(
    alloc: Global,
    number: u16,
    routine: &Routine,
    args: &Args,
) -> Result<(Text, Option<Value>), NoMemory>
    ensures ok { IfOk result (λ both. (both.0 ≡ routine.now.name)
        × (both.1 ≡ world_value number routine.now.result args.now)) }
{
    let value = world_value(alloc, number, routine.result, args)?;
    match routine.name.copy(alloc) {
        Err(NoMemory) => {
            drop(value);
            Err(NoMemory)
        }
        Ok(name) => Ok((name, value)),
    }
}

/// The same, with room for the line.
fn ready_call<X: Drop>(
    parts: &mut Parts<X>,
    number: u16,
    routine: &Routine,
    args: &Args,
) -> Result<(Text, Option<Value>), NoMemory>
    ensures ok { IfOk result (λ both. (both.0 ≡ routine.now.name)
        × (both.1 ≡ world_value number routine.now.result args.now)) }
    ensures line { OnOk result (1 ≤ parts.new.lines) }
    ensures same { parts.new.world ≡ parts.old.world }
    ensures posts { parts.new.posts ≡ parts.old.posts }
{
    match parts.room_for_line() {
        Err(NoMemory) => Err(NoMemory),
        Ok(()) => called(parts.alloc(), number, routine, args),
    }
}

/// Equal arguments.
fn copies(alloc: Global, args: &Args) -> Result<Args, NoMemory>
    ensures same { IfOk result (λ copies. copies ≡ args.now) }
{
    let mut copies = Vec::with_capacity(alloc, args.len())?;
    for value in args.as_slice() {
        copies.push(value.copy(alloc)?)?;
    }
    Ok(Args::of_vec(copies))
}

/// A world function leaves its call in the trace.
fn world_call<X: Drop>(
    parts: &mut Parts<X>,
    number: u16,
    routine: &Routine,
    caller: u32,
    args: &Args,
) -> Result<Option<Value>, NoMemory>
    ensures ok { IfOk result (λ value. (value ≡ world_value number routine.now.result args.now)
        × (parts.new.world ≡ told caller (line.Call routine.now.name args.now) parts.old.world)) }
    ensures err { OnErr result (parts.new.world ≡ parts.old.world) }
    ensures posts { parts.new.posts ≡ parts.old.posts }
{
    let args = copies(parts.alloc(), args)?;
    match ready_call(parts, number, routine, &args) {
        Err(NoMemory) => {
            drop(args);
            Err(NoMemory)
        }
        Ok((name, value)) => {
            parts.tell(caller, Told::Call(name, args));
            Ok(value)
        }
    }
}

/// A function of strings and numbers, or the look-up of a cell: the hook of its number answers.
pub(crate) fn pure_call(
    hooks: &Hooks,
    k: u8,
    routine: &Routine,
    args: &Args,
) -> Result<Option<Value>, NoMemory>
    requires hooks { AreServing (known_by hooks.now) }
    requires routine { IsRoutine routine.now }
    requires role { routine.now.role ≡ role.Pure k }
    requires types { types_of_values args.now ≡ argument_types routine.now.params }
    ensures value { IfOk result
        (λ value. value ≡ pure (cells_of (known_by hooks.now)) k args.now) }
{
    roles_tell();
    standard_hooks_serve();
    match hooks.call(k as usize, args) {
        Err(NoMemory) => Err(NoMemory),
        Ok(value) => Ok(Some(value)),
    }
}

/// The engine's own routine of a number. All of the room is taken first.
fn built_call<X: Drop>(
    parts: &mut Parts<X>,
    room: u32,
    number: u16,
    caller: u32,
    args: &Args,
    action: Option<X>,
) -> Result<Option<Value>, NoMemory>
    requires world { IsWorld parts.old.world }
    requires early { IsEarly parts.old.world }
    requires caller { caller ≤ count parts.old.world }
    requires room { room ≤ parts.old.posts }
    requires small { room ≤ 1 }
    ensures ok { IfOk result (λ value. record { value = value; world = parts.new.world }
        ≡ does number (call caller args.now action) parts.old.world) }
    ensures err { OnErr result (parts.new.world ≡ parts.old.world) }
    ensures posts { room ≤ parts.new.posts }
{
    match take_room(parts, room) {
        Err(NoMemory) => {
            drop(action);
            Err(NoMemory)
        }
        Ok(()) => parts.row(number, caller, args, action),
    }
}

/// Makes room for a post beside the spare room, and for a line.
pub(crate) fn take_room<X: Drop>(parts: &mut Parts<X>, room: u32) -> Result<(), NoMemory>
    requires room { room ≤ parts.old.posts }
    requires small { room ≤ 1 }
    ensures posts { OnOk result (room + 1 ≤ parts.new.posts) }
    ensures line { OnOk result (1 ≤ parts.new.lines) }
    ensures same { parts.new.world ≡ parts.old.world }
    ensures left { room ≤ parts.new.posts }
{
    parts.room_for_posts(room + 1)?;
    parts.room_for_line()
}

/// A call of a routine by its role.
#[tactic(auto, unfolding(world_parts::specs::Row::does))]
pub(crate) fn by_role<X: Drop>(
    parts: &mut Parts<X>,
    room: u32,
    hooks: &Hooks,
    number: u16,
    routine: &Routine,
    caller: u32,
    args: &Args,
    action: Option<X>,
) -> Result<Option<Value>, NoMemory>
    requires world { IsWorld parts.old.world }
    requires early { IsEarly parts.old.world }
    requires caller { caller ≤ count parts.old.world }
    requires room { room ≤ parts.old.posts }
    requires small { room ≤ 1 }
    requires hooks { (k : ℕ) → routine.now.role ≡ role.Pure k
        → AreServing (known_by hooks.now) }
    requires routine { IsRoutine routine.now }
    requires types { (k : ℕ) → routine.now.role ≡ role.Pure k
        → types_of_values args.now ≡ argument_types routine.now.params }
    ensures ok { IfOk result (λ value. record { value = value; world = parts.new.world }
        ≡ by_role (cells_of (known_by hooks.now)) number routine.now
        routine.now.role (call caller args.now action) parts.old.world) }
    ensures err { OnErr result (parts.new.world ≡ parts.old.world) }
    ensures posts { room ≤ parts.new.posts }
{
    match routine.role {
        Role::Built(own) => built_call(parts, room, own, caller, args, action),
        Role::Pure(k) => {
            drop(action);
            pure_call(hooks, k, routine, args)
        }
        Role::World => {
            drop(action);
            world_call(parts, number, routine, caller, args)
        }
        Role::Uncallable => {
            drop(action);
            Ok(None)
        }
    }
}
