//! A world of three objects, and calls on it that test their conditions when they run.
ghost use Rattle.std.specs.Prelude.{◌≡◌, ◌≢◌, ◌≤◌, ℕ, true, false, map, slice_get, Some, IfOk};
ghost use Rattle.std.specs.List.{AllByRecursion};
ghost use Rattle.delay_agenda.specs.declared.entry.Kind.TheVariants as variant;
ghost use Rattle.nwq_value.specs.declared.engine.Role.TheVariants.{Pure};
ghost use Rattle.nwq_value.specs.declared.engine.Routine.{Routine};
ghost use Rattle.world_rules.specs.Kept.{IsActing, IsPlaced};
ghost use Rattle.world_rules.specs.World.{count};
ghost use Rattle.world_core.specs.Calls.{planned, IsEarly};

use area_tree::Area;
use delay_agenda::Kind;
use engine_table::built_in;
use gff_bytes::View;
use gff_read::read;
use hook_table::Hooks;
use nwq_value::*;
use std::alloc::Global;
use world_core::{Events, Start, World};

/// Two creatures with the tag `guard` and a trigger `gate`. The first has the variables `n` 5 and
/// `s` "abc" and the script `ud_guard` in OnUserDefined, the second `Su` in ScriptUserDefine too.
const AREA: [u8; 598] = [
    71, 73, 84, 32, 86, 51, 46, 50, 56, 0, 0, 0, 6, 0, 0, 0, 128, 0, 0, 0, 15, 0, 0, 0, 52, 1, 0,
    0, 9, 0, 0, 0, 196, 1, 0, 0, 58, 0, 0, 0, 254, 1, 0, 0, 56, 0, 0, 0, 54, 2, 0, 0, 32, 0, 0, 0,
    255, 255, 255, 255, 0, 0, 0, 0, 2, 0, 0, 0, 4, 0, 0, 0, 8, 0, 0, 0, 3, 0, 0, 0, 0, 0, 0, 0, 20,
    0, 0, 0, 3, 0, 0, 0, 0, 0, 0, 0, 32, 0, 0, 0, 3, 0, 0, 0, 4, 0, 0, 0, 44, 0, 0, 0, 3, 0, 0, 0,
    1, 0, 0, 0, 14, 0, 0, 0, 1, 0, 0, 0, 15, 0, 0, 0, 0, 0, 0, 0, 0, 0, 0, 0, 15, 0, 0, 0, 1, 0, 0,
    0, 12, 0, 0, 0, 10, 0, 0, 0, 2, 0, 0, 0, 0, 0, 0, 0, 11, 0, 0, 0, 3, 0, 0, 0, 9, 0, 0, 0, 15,
    0, 0, 0, 4, 0, 0, 0, 20, 0, 0, 0, 10, 0, 0, 0, 5, 0, 0, 0, 18, 0, 0, 0, 4, 0, 0, 0, 6, 0, 0, 0,
    1, 0, 0, 0, 5, 0, 0, 0, 7, 0, 0, 0, 5, 0, 0, 0, 10, 0, 0, 0, 5, 0, 0, 0, 23, 0, 0, 0, 4, 0, 0,
    0, 6, 0, 0, 0, 3, 0, 0, 0, 10, 0, 0, 0, 7, 0, 0, 0, 28, 0, 0, 0, 10, 0, 0, 0, 2, 0, 0, 0, 35,
    0, 0, 0, 11, 0, 0, 0, 8, 0, 0, 0, 44, 0, 0, 0, 11, 0, 0, 0, 3, 0, 0, 0, 47, 0, 0, 0, 10, 0, 0,
    0, 2, 0, 0, 0, 50, 0, 0, 0, 67, 114, 101, 97, 116, 117, 114, 101, 32, 76, 105, 115, 116, 0, 0,
    0, 84, 114, 105, 103, 103, 101, 114, 76, 105, 115, 116, 0, 0, 0, 0, 0, 84, 97, 103, 0, 0, 0, 0,
    0, 0, 0, 0, 0, 0, 0, 0, 0, 79, 110, 85, 115, 101, 114, 68, 101, 102, 105, 110, 101, 100, 0, 0,
    0, 86, 97, 114, 84, 97, 98, 108, 101, 0, 0, 0, 0, 0, 0, 0, 0, 78, 97, 109, 101, 0, 0, 0, 0, 0,
    0, 0, 0, 0, 0, 0, 0, 84, 121, 112, 101, 0, 0, 0, 0, 0, 0, 0, 0, 0, 0, 0, 0, 86, 97, 108, 117,
    101, 0, 0, 0, 0, 0, 0, 0, 0, 0, 0, 0, 83, 99, 114, 105, 112, 116, 85, 115, 101, 114, 68, 101,
    102, 105, 110, 101, 5, 0, 0, 0, 103, 117, 97, 114, 100, 8, 117, 100, 95, 103, 117, 97, 114,
    100, 1, 0, 0, 0, 110, 1, 0, 0, 0, 115, 3, 0, 0, 0, 97, 98, 99, 5, 0, 0, 0, 103, 117, 97, 114,
    100, 2, 83, 117, 2, 111, 117, 4, 0, 0, 0, 103, 97, 116, 101, 0, 0, 0, 0, 1, 0, 0, 0, 2, 0, 0,
    0, 3, 0, 0, 0, 4, 0, 0, 0, 5, 0, 0, 0, 6, 0, 0, 0, 7, 0, 0, 0, 8, 0, 0, 0, 9, 0, 0, 0, 10, 0,
    0, 0, 11, 0, 0, 0, 12, 0, 0, 0, 13, 0, 0, 0, 2, 0, 0, 0, 1, 0, 0, 0, 4, 0, 0, 0, 1, 0, 0, 0, 5,
    0, 0, 0, 2, 0, 0, 0, 2, 0, 0, 0, 3, 0, 0, 0,
];

fn area(alloc: Global) -> Option<Area> {
    let bytes = AREA.as_slice();
    match View::open(bytes) {
        Err(_) => None,
        Ok(view) => match read(alloc, &view) {
            Err(_) => None,
            Ok(tree) => match Area::of(alloc, tree) {
                Ok(area) => Some(area),
                Err(_) => None,
            },
        },
    }
}

fn events(alloc: Global) -> Result<Events, NoMemory>
    ensures objects { IfOk result (λ events. (most : ℕ)
        → AllByRecursion (λ p. p.object ≤ most) (map planned events)) }
{
    let script = Text::of(alloc, b"boot")?;
    let mut events = Events::new(alloc);
    events.push(Start {
        due: 5,
        object: 0,
        script,
    })?;
    Ok(events)
}

/// The world of the area, with the random numbers 7 and 12 and one start, due at 5.
pub fn world(alloc: Global, version: u8) -> Option<World<u32>> {
    match (events(alloc), Randoms::of_slice(alloc, &[7, 12])) {
        (Ok(events), Ok(random)) => match area(alloc) {
            None => None,
            Some(area) => match World::new(alloc, area, random, &events, version) {
                Ok(world) => Some(world),
                Err(_) => None,
            },
        },
        _ => None,
    }
}

pub fn table(alloc: Global) -> Option<Table> {
    match built_in(alloc) {
        Ok(table) => Some(table),
        Err(_) => None,
    }
}

/// Whether a hook would answer for the routine.
fn is_hooked(table: &Table, n: u16) -> bool
    ensures none { result ≡ false → (r : Routine) (k : ℕ) → slice_get table.now.routines n ≡ Some r
        → r.role ≢ Pure k }
{
    match table.routine(n) {
        None => false,
        Some(found) => match found.role {
            Role::Pure(_) => true,
            Role::Built(_) | Role::World | Role::Uncallable => false,
        },
    }
}

fn is_early(world: &World<u32>) -> bool
    ensures early { result ≡ true → IsEarly world.now.world }
{
    world.clock() < 4_611_686_018_427_387_904 && world.next_number() < 9_223_372_036_854_775_808
}

/// An argument.
#[derive(Clone, Copy)]
pub enum Arg<'a> {
    Int(i32),
    Text(&'a [u8]),
    Object(u32),
    Event(i32),
    Effect(u16, &'a [i32]),
}

fn value(alloc: Global, arg: &Arg<'_>) -> Result<Value, NoMemory> {
    match arg {
        Arg::Int(n) => Ok(Value::Int(*n)),
        Arg::Text(bytes) => Ok(Value::Text(Text::of(alloc, *bytes)?)),
        Arg::Object(o) => Ok(Value::Object(*o)),
        Arg::Event(n) => Ok(Value::Event(*n)),
        Arg::Effect(routine, ints) => {
            let ints = Ints::of_slice(alloc, *ints)?;
            Ok(Value::Effect(Effect::new(alloc, *routine, ints)?))
        }
    }
}

fn args(alloc: Global, given: &[Arg<'_>]) -> Result<Args, NoMemory> {
    let mut args = Args::new(alloc);
    for arg in given {
        args.push(value(alloc, arg)?)?;
    }
    Ok(args)
}

/// What a call answers, `None` where its conditions don't hold or memory is missing.
fn call(
    alloc: Global,
    world: &mut World<u32>,
    table: &Table,
    routine: u16,
    caller: u32,
    args: &Args,
    action: Option<u32>,
) -> Option<Option<Value>> {
    if !is_early(world) || caller > world.count() || is_hooked(table, routine) {
        return None;
    }
    let hooks = Hooks::new(alloc);
    match world.engine(&hooks, table, routine, caller, args, action) {
        Ok(value) => Some(value),
        Err(_) => None,
    }
}

/// What a call answers.
fn answer(
    alloc: Global,
    world: &mut World<u32>,
    table: &Table,
    routine: u16,
    caller: u32,
    given: &[Arg<'_>],
    action: Option<u32>,
) -> Option<Option<Value>> {
    match args(alloc, given) {
        Err(_) => None,
        Ok(args) => call(alloc, world, table, routine, caller, &args, action),
    }
}

/// Whether a call answers nothing.
pub fn does(
    alloc: Global,
    world: &mut World<u32>,
    table: &Table,
    routine: u16,
    caller: u32,
    given: &[Arg<'_>],
) -> bool {
    let answer = answer(alloc, world, table, routine, caller, given, None);
    let is = matches!(&answer, Some(None));
    drop(answer);
    is
}

/// The same with an action.
pub fn stores(
    alloc: Global,
    world: &mut World<u32>,
    table: &Table,
    routine: u16,
    caller: u32,
    given: &[Arg<'_>],
    action: u32,
) -> bool {
    let answer = answer(alloc, world, table, routine, caller, given, Some(action));
    let is = matches!(&answer, Some(None));
    drop(answer);
    is
}

/// Whether a call of caller 1 answers this value.
pub fn gives(
    alloc: Global,
    world: &mut World<u32>,
    table: &Table,
    routine: u16,
    given: &[Arg<'_>],
    expected: &Arg<'_>,
) -> bool {
    let answer = answer(alloc, world, table, routine, 1, given, None);
    let is = match (&answer, value(alloc, expected)) {
        (Some(Some(found)), Ok(expected)) => found.same(&expected),
        _ => false,
    };
    drop(answer);
    is
}

/// Whether these are the lines that were told since the last time.
pub fn told(alloc: Global, world: &mut World<u32>, text: &[u8]) -> bool {
    let mut out = Vec::new(alloc);
    let done = world.drain(&mut out).is_ok();
    done && out.as_slice() == text
}

/// What an entry is: an event with its user number, a stored action, a Turn with the action that it
/// came to, the end of an effect.
#[derive(Clone, Copy, PartialEq, Eq)]
pub enum Is {
    Event(u32, i32),
    Stored(u32, u32),
    Turn(u32, Option<u32>),
    Unapply(u32),
}

/// Runs what needs no script; a Turn's action is done at once.
fn run(world: &mut World<u32>, number: u64, kind: Kind<u32>) -> Option<Is>
    requires placed { IsPlaced (count world.old.world) kind }
    requires acting { (o : ℕ) → kind ≡ variant.Turn o → IsActing o world.old.world }
    requires early { IsEarly world.old.world }
{
    match kind {
        Kind::Event { object, user, .. } => Some(Is::Event(object, user)),
        Kind::Stored { object, action } => Some(Is::Stored(object, action)),
        Kind::Turn { object } => match world.turn(object) {
            Ok(action) => Some(Is::Turn(object, action)),
            Err(_) => None,
        },
        Kind::Unapply { object } => match world.unapply(object, number) {
            Ok(()) => Some(Is::Unapply(object)),
            Err(_) => None,
        },
    }
}

/// The next entry that is due by a time: when, under which number, and what it is.
pub fn next(world: &mut World<u32>, until: u64) -> Option<(u64, u64, Is)> {
    match world.begin(until) {
        Err(_) => None,
        Ok(None) => None,
        Ok(Some(entry)) => {
            if !is_early(world) {
                drop(entry);
                return None;
            }
            let (due, number) = (entry.due, entry.number);
            match run(world, number, entry.kind) {
                None => None,
                Some(is) => Some((due, number, is)),
            }
        }
    }
}

/// Whether the next entry is an event with this script.
pub fn begins(world: &mut World<u32>, until: u64, name: &[u8]) -> bool {
    match world.begin(until) {
        Err(_) => false,
        Ok(None) => false,
        Ok(Some(entry)) => {
            let is = match &entry.kind {
                Kind::Event { script, .. } => script.bytes() == name,
                _ => false,
            };
            drop(entry);
            is
        }
    }
}
