//! The engine's routines at their edges, and entries.
use crate::play::Arg::{Effect, Event, Int, Object, Text};
use crate::play::{Arg, Is, begins, does, gives, next, stores, table, told, world};
use nwq_value::{NoMemory, Table};
use std::alloc::Global;
use std::test::*;
use world_core::World;

/// What is done with a world, and what is to come of it.
#[derive(Clone, Copy)]
enum Step {
    /// A routine, its caller and its arguments. It answers nothing.
    Does(u16, u32, &'static [Arg<'static>]),
    /// The same with an action behind them.
    Stores(u16, u32, &'static [Arg<'static>], u32),
    /// A routine that object 1 calls, its arguments, and its answer.
    Gives(u16, &'static [Arg<'static>], Arg<'static>),
    /// The lines since the last time.
    Told(&'static [u8]),
    /// The next entry up to a time.
    Next(u64, Option<(u64, u64, Is)>),
    /// The same where it is an event with this script.
    Begins(u64, &'static [u8]),
    /// The time.
    Clock(u64),
}

use Step::{Begins, Clock, Does, Gives, Next, Stores, Told};

fn holds(alloc: Global, w: &mut World<u32>, t: &Table, step: Step) -> bool {
    match step {
        Does(routine, caller, given) => does(alloc, w, t, routine, caller, given),
        Stores(routine, caller, given, action) => {
            stores(alloc, w, t, routine, caller, given, action)
        }
        Gives(routine, given, answer) => gives(alloc, w, t, routine, given, &answer),
        Told(lines) => told(alloc, w, lines),
        Next(until, entry) => next(w, until) == entry,
        Begins(until, script) => begins(w, until, script),
        Clock(time) => w.clock() == time,
    }
}

/// The place of the first step of which something else comes, if there is one.
fn first_other(alloc: Global, w: &mut World<u32>, t: &Table, steps: &[Step]) -> Option<usize> {
    for (place, step) in steps.iter().enumerate() {
        if !holds(alloc, w, t, *step) {
            return Some(place);
        }
    }
    None
}

/// The same of steps in a new world for plans of a version.
fn first_other_in(
    alloc: Global,
    version: u8,
    t: &Table,
    steps: &[Step],
) -> Result<Option<usize>, NoMemory> {
    match world(alloc, version) {
        None => Err(NoMemory),
        Some(mut w) => {
            let other = first_other(alloc, &mut w, t, steps);
            drop(w);
            Ok(other)
        }
    }
}

/// The places of the first steps, each in a world of its own, and of the first among them of which
/// something else comes, if there are such.
fn first_wrong(
    alloc: Global,
    t: &Table,
    all: &[(u8, &[Step])],
) -> Result<Option<(usize, usize)>, NoMemory> {
    for (place, (version, steps)) in all.iter().enumerate() {
        match first_other_in(alloc, *version, t, steps)? {
            None => {}
            Some(other) => return Ok(Some((place, other))),
        }
    }
    Ok(None)
}

/// The same under the built-in header.
fn first_built(alloc: Global, all: &[(u8, &[Step])]) -> Result<Option<(usize, usize)>, NoMemory> {
    match table(alloc) {
        None => Err(NoMemory),
        Some(t) => {
            let wrong = first_wrong(alloc, &t, all);
            drop(t);
            wrong
        }
    }
}

/// The effect of a hit.
const STRUCK: Arg = Effect(25, &[1, 8]);

const LINES: &[Step] = &[
    Does(1, 1, &[Text(b"a\n")]),
    Does(4, 0, &[Int(-7)]),
    Does(5, 3, &[Object(9)]),
    Does(13, 2, &[Text(b"hi"), Int(0)]),
    Told(b"0 #1 print a\\n\n0 #0 print -7\n0 #3 print #9\n0 #2 speak hi\n"),
    Told(b""),
];

const INTS: &[Step] = &[
    Gives(17, &[Object(1), Text(b"n")], Int(5)),
    Gives(17, &[Object(4), Text(b"n")], Int(0)),
    Gives(17, &[Object(u32::MAX), Text(b"n")], Int(0)),
    Does(18, 1, &[Object(1), Text(b"n"), Int(-3)]),
    Does(18, 1, &[Object(0), Text(b"n"), Int(8)]),
    Gives(17, &[Object(1), Text(b"n")], Int(-3)),
    Does(21, 1, &[Object(1), Text(b"n")]),
    Gives(17, &[Object(1), Text(b"n")], Int(0)),
];

const TEXTS: &[Step] = &[
    Gives(19, &[Object(1), Text(b"s")], Text(b"abc")),
    Does(20, 1, &[Object(2), Text(b"s"), Text(b"new")]),
    Gives(19, &[Object(2), Text(b"s")], Text(b"new")),
    Does(22, 1, &[Object(1), Text(b"s")]),
    Gives(19, &[Object(1), Text(b"s")], Text(b"")),
    Gives(19, &[Object(9), Text(b"s")], Text(b"")),
];

const OBJECTS: &[Step] = &[
    Gives(14, &[Text(b"guard"), Int(1)], Object(2)),
    Gives(14, &[Text(b"guard"), Int(2)], Object(0)),
    Gives(14, &[Text(b"guard"), Int(-1)], Object(0)),
    Gives(15, &[Object(3)], Text(b"gate")),
    Gives(15, &[Object(4)], Text(b"")),
    Gives(16, &[Object(3)], Int(1)),
    Gives(16, &[Object(4)], Int(0)),
    Gives(16, &[Object(0)], Int(0)),
];

const RANDOM: &[Step] = &[
    Gives(0, &[Int(0)], Int(0)),
    Gives(0, &[Int(5)], Int(2)),
    Gives(0, &[Int(-5)], Int(0)),
    Gives(0, &[Int(100)], Int(12)),
    Gives(0, &[Int(5)], Int(0)),
];

const DELAYS: &[Step] = &[
    Stores(7, 2, &[Int(-5)], 11),
    Stores(7, 2, &[Int(i32::MAX)], 12),
    Stores(6, 1, &[Object(9)], 13),
    Stores(6, 1, &[Object(3)], 14),
    Next(10, Some((0, 1, Is::Stored(2, 11)))),
    Next(10, Some((0, 3, Is::Stored(3, 14)))),
    Next(10, Some((5, 0, Is::Event(0, 0)))),
    Next(10, None),
    Clock(5),
    Next(3_000_000_000, Some((2_147_483_647, 2, Is::Stored(2, 12)))),
];

const TURNS: &[Step] = &[
    Does(11, 1, &[Int(7)]),
    Does(12, 1, &[Text(b"x"), Int(0)]),
    Does(11, 0, &[Int(1)]),
    Next(9, Some((0, 1, Is::Turn(1, None)))),
    Next(9, Some((5, 0, Is::Event(0, 0)))),
    Next(9, Some((7, 2, Is::Turn(1, None)))),
    Told(b"7 #1 speak x\n"),
    Next(9, None),
];

const ACTIONS: &[Step] = &[
    Stores(10, 2, &[], 21),
    Stores(10, 0, &[], 22),
    Next(0, Some((0, 1, Is::Turn(2, Some(21))))),
    Next(0, None),
];

const CLEARED_ONCE: &[Step] = &[
    Does(11, 1, &[Int(7)]),
    Stores(7, 1, &[Int(0)], 5),
    Does(9, 1, &[Int(0)]),
    Next(0, Some((0, 1, Is::Turn(1, None)))),
    Next(0, Some((0, 2, Is::Stored(1, 5)))),
    Next(0, None),
];

const CLEARED_WHOLE: &[Step] = &[
    Does(11, 1, &[Int(7)]),
    Stores(7, 1, &[Int(0)], 5),
    Does(9, 1, &[Int(0)]),
    Does(9, 2, &[Int(0)]),
    Next(0, Some((0, 2, Is::Stored(1, 5)))),
    Next(0, None),
];

const EFFECTS: &[Step] = &[
    Does(23, 1, &[Int(0), STRUCK, Object(2), Int(0)]),
    Does(23, 1, &[Int(1), STRUCK, Object(2), Int(4)]),
    Does(23, 1, &[Int(2), STRUCK, Object(2), Int(0)]),
    Does(23, 1, &[Int(3), STRUCK, Object(2), Int(0)]),
    Does(23, 1, &[Int(2), STRUCK, Object(9), Int(0)]),
    Told(b"0 #2 apply 0 25(1,8)\n0 #2 apply 1 25(1,8)\n0 #2 apply 2 25(1,8)\n"),
    Next(4, Some((4, 1, Is::Unapply(2)))),
    Told(b"4 #2 expire 25(1,8)\n"),
];

const REMOVED: &[Step] = &[
    Does(23, 1, &[Int(1), STRUCK, Object(2), Int(4)]),
    Does(23, 1, &[Int(2), STRUCK, Object(2), Int(0)]),
    Told(b"0 #2 apply 1 25(1,8)\n0 #2 apply 2 25(1,8)\n"),
    Does(24, 1, &[Object(2), Effect(25, &[1])]),
    Does(24, 1, &[Object(2), STRUCK]),
    Does(24, 1, &[Object(9), STRUCK]),
    Next(4, Some((4, 1, Is::Unapply(2)))),
    Told(b"0 #2 remove 25(1,8)\n"),
];

const EVENTS: &[Step] = &[
    Gives(38, &[Int(-7)], Event(-7)),
    Does(39, 1, &[Object(1), Event(-7)]),
    Does(39, 1, &[Object(2), Event(1)]),
    Does(39, 1, &[Object(3), Event(2)]),
    Does(39, 1, &[Object(4), Event(3)]),
    Begins(0, b"ud_guard"),
    Gives(40, &[], Int(-7)),
    Begins(0, b"Su"),
    Begins(0, b""),
    Next(0, None),
];

const WORLD_FUNCTIONS: &[Step] = &[
    Gives(25, &[Int(3), Int(8), Int(-1)], Effect(25, &[3, 8, -1])),
    Does(27, 2, &[Int(1), Object(3)]),
    Told(b"0 #1 call EffectDamage(3,8,-1)\n0 #2 call SetCommandable(1,#3)\n"),
];

/// Steps by the version of plans: calls of routines, and entries.
const ROUTINES: &[(u8, &[Step])] = &[
    (2, LINES),
    (2, INTS),
    (2, TEXTS),
    (2, OBJECTS),
    (2, RANDOM),
    (2, WORLD_FUNCTIONS),
];

const ENTRIES: &[(u8, &[Step])] = &[
    (2, DELAYS),
    (2, TURNS),
    (2, ACTIONS),
    (1, CLEARED_ONCE),
    (2, CLEARED_WHOLE),
    (2, EFFECTS),
    (2, REMOVED),
    (2, EVENTS),
];

#[test]
fn routines(rt: HostRuntime) -> Result<(), Fail> {
    assert_eq!(rt; first_built(rt.alloc(), ROUTINES)?, None);
    Ok(())
}

#[test]
fn entries(rt: HostRuntime) -> Result<(), Fail> {
    assert_eq!(rt; first_built(rt.alloc(), ENTRIES)?, None);
    Ok(())
}

fn ends(alloc: Global, w: &mut World<u32>) -> bool {
    let Ok(name) = nwq_value::Text::of(alloc, b"a b") else {
        return false;
    };
    w.no_script(0, &name).is_ok()
        && w.deep(2, &name).is_ok()
        && w.fault(3).is_ok()
        && told(
            alloc,
            w,
            b"0 #0 noscript a b\n0 #2 deep a b\n0 #3 fault divide\n",
        )
        && w.may_run(0, 3)
        && w.may_run(9, 9)
        && !w.may_run(0, 4)
}

fn a_world_ends(alloc: Global) -> bool {
    match world(alloc, 2) {
        None => false,
        Some(mut w) => {
            let is = ends(alloc, &mut w);
            drop(w);
            is
        }
    }
}

#[test]
fn ends_are_told(rt: HostRuntime) {
    assert!(rt; a_world_ends(rt.alloc()));
}
