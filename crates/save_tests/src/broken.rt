//! States that break one rule, states that just keep it, and states that break two.

use crate::bases::{
    BUSY, DELAYED, E, EVENT, GLOBALS, I, IDLE, LOCALS, MANY, NO_AREA, O, Q, S, STORED, TURN, U,
    UNAPPLY,
};
use crate::change::Answer::*;
use crate::change::Change::*;
use crate::change::{Change, Row, first_other};
use crate::sketch::Item::*;
use crate::sketch::Kind::*;
use crate::sketch::{Captured, Cell, Code, Entry, Object, Script, Variable, Words};
use std::test::*;

/// Code files that are none: the last two have no opcode, and a jump into itself.
const EMPTY: Code = Code::Bytes(b"");

const SHORT: Code = Code::Bytes(b"\x01\x02");

const OTHER_LENGTH: Code = Code::Bytes(b"NCS V1.0B\0\0\0\x10\x20\0");

const NO_OPCODE: Code = Code::Bytes(b"NCS V1.0B\0\0\0\x0e\x1c");

const NO_TARGET: Code = Code::Bytes(b"NCS V1.0B\0\0\0\x13\x1d\0\0\0\0\x01");

const UNSTACKED: Code = Code::Text(b"ADD 20\nRETN 00\n");

/// What a state is of, rules 1 to 3.
const BEGINNINGS: &[Row] = &[
    ("nothing", &[], Accepted),
    ("header in a line", &[Header(b"int")], Unfit(1)),
    ("header without tokens", &[Header(b"\x01")], Unfit(1)),
    ("header, twice", &[Header(b"int A(); int A();")], Unfit(1)),
    ("other header", &[Header(b"int A();")], Unfit(2)),
    (
        "other header, not called",
        &[
            Header(b"int A();"),
            Scripts(&[]),
            Objects(&[IDLE, IDLE]),
            Agenda(&[EVENT]),
        ],
        Accepted,
    ),
    ("empty code", &[Coded(EMPTY)], Unfit(2)),
    ("short code", &[Coded(SHORT)], Unfit(2)),
    ("first code of two", &[Scripts(&[BAD, Q])], Unfit(2)),
    ("code of another length", &[Coded(OTHER_LENGTH)], Unfit(2)),
    ("code without opcode", &[Coded(NO_OPCODE)], Unfit(2)),
    ("code without target", &[Coded(NO_TARGET)], Unfit(2)),
    ("code not well stacked", &[Coded(UNSTACKED)], Unfit(2)),
    ("empty area", &[Area(b"")], Unfit(3)),
    ("area that is cut", &[Area(b"GIT V3.28\0\0\0")], Unfit(3)),
    ("tree that is no area", &[Area(NO_AREA)], Unfit(3)),
    ("no objects", &[Objects(&[])], Unfit(3)),
    ("an object less", &[Objects(&[BUSY])], Unfit(3)),
    ("an object more", &[Objects(&[BUSY, IDLE, IDLE])], Unfit(3)),
];

const BAD: Script = Script(Words(b"p", 1), UNSTACKED);

/// 2^61 - 1.
const LAST: u64 = 2_305_843_009_213_693_951;

/// 2^61.
const FULL: u64 = 2_305_843_009_213_693_952;

/// Numbers, of rule 4.
const NUMBERS: &[Row] = &[
    ("version 0", &[Version(0)], Unfit(4)),
    ("version 1", &[Version(1)], Accepted),
    ("version 3", &[Version(3)], Unfit(4)),
    ("version 255", &[Version(255)], Unfit(4)),
    ("no instructions", &[Limit(0)], Unfit(4)),
    ("one instruction", &[Limit(1)], Accepted),
    ("most instructions", &[Limit(16_777_216)], Accepted),
    ("one instruction more", &[Limit(16_777_217)], Unfit(4)),
    ("no entries", &[Entries(0), Taken(0)], Unfit(4)),
    ("one entry", &[Entries(1), Taken(1)], Accepted),
    ("most entries", &[Entries(1_000_000)], Accepted),
    ("one entry more", &[Entries(1_000_001)], Unfit(4)),
    ("the last time", &[Until(4_294_967_295)], Accepted),
    ("one time later", &[Until(4_294_967_296)], Unfit(4)),
    ("all entries taken", &[Taken(100)], Accepted),
    ("one more taken", &[Taken(101)], Unfit(4)),
    ("clock at the end", &[Until(1_000)], Accepted),
    ("clock behind the end", &[Until(999)], Unfit(4)),
    ("most executed", &[Done(LAST)], Accepted),
    ("one more executed", &[Done(FULL)], Unfit(4)),
    ("last next number", &[Next(LAST)], Accepted),
    ("one behind it", &[Next(FULL)], Unfit(4)),
    ("last time due", &[Due(LAST)], Accepted),
    ("due behind it", &[Due(FULL)], Unfit(4)),
    ("no random numbers", &[Random(0)], Accepted),
    ("most random numbers", &[Random(65_536)], Accepted),
    ("one random number more", &[Random(65_537)], Unfit(4)),
];

const N: Variable = Variable::Int(Words(b"n", 1), 1);

const V: Variable = Variable::Int(Words(b"v", 1), 2);

const T: Variable = Variable::Text(Words(b"n", 1), Words(b"", 1));

/// Not busy, with an int `n`, and with two.
const ONE_INT: Object = Object(false, &[N], &[], &[]);

const TWO_INTS: Object = Object(false, &[N, N], &[], &[]);

/// Names, of rule 4.
const NAMES: &[Row] = &[
    (
        "no scripts",
        &[Scripts(&[]), Objects(&[IDLE, IDLE]), Agenda(&[EVENT])],
        Accepted,
    ),
    ("256 scripts", &[More(254)], Accepted),
    ("257 scripts", &[More(255)], Unfit(4)),
    ("no name", &[Named(Words(b"", 1))], Unfit(4)),
    ("a name of 16", &[Named(Words(b"q", 16))], Accepted),
    ("a name of 17", &[Named(Words(b"q", 17))], Unfit(4)),
    ("a name of any sign", &[Named(Words(b"az_09", 3))], Accepted),
    ("a capital letter", &[Named(Words(b"R", 1))], Unfit(4)),
    ("a dot", &[Named(Words(b"r.ncs", 1))], Unfit(4)),
    ("a space", &[Named(Words(b"r ", 1))], Unfit(4)),
    ("a byte 0", &[Named(Words(b"r\0", 1))], Unfit(4)),
    ("a sign past `z`", &[Named(Words(b"{", 1))], Unfit(4)),
    ("first name of two", &[Scripts(&[UNNAMED, Q])], Unfit(4)),
    ("a name twice", &[Named(Words(b"q", 1))], Unfit(4)),
    ("the first name twice", &[Named(Words(b"p", 1))], Unfit(4)),
    ("an int twice", &[Has(&[N])], Unfit(4)),
    ("a string twice", &[Has(&[T])], Unfit(4)),
    ("others twice", &[Has(&[V, V])], Unfit(4)),
    ("another int", &[Has(&[V])], Accepted),
    (
        "an int in each object",
        &[Objects(&[BUSY, ONE_INT])],
        Accepted,
    ),
    ("twice in the last", &[Objects(&[BUSY, TWO_INTS])], Unfit(4)),
];

const UNNAMED: Script = Script(Words(b"-", 1), Code::Tells);

/// A text as long as may be, and one byte longer.
const LONG: Words = Words(b"x", 8_192);

const LONGER: Words = Words(b"x", 8_193);

/// Globals and locals of `p`'s states, also with such texts.
const G: &[Cell] = GLOBALS;

const L: &[Cell] = LOCALS;

const LONG_G: &[Cell] = &[I, Cell::Text(LONG)];

const LONGER_G: &[Cell] = &[I, Cell::Text(LONGER)];

const LONG_L: &[Cell] = &[I, Cell::Text(LONG), O, E, U, I];

const LONGER_L: &[Cell] = &[I, Cell::Text(LONGER), O, E, U, I];

const LONG_NAME: Variable = Variable::Int(LONGER, 1);

const LONG_VALUE: Variable = Variable::Text(LONGER, LONGER);

/// Texts, of rule 4: of variables, of an entry's state and of its name, and of actions.
const TEXTS: &[Row] = &[
    ("long variables", &[Has(&[LONG_NAME, LONG_VALUE])], Accepted),
    ("long global", &[State(0, 249, LONG_G, L)], Accepted),
    ("longer global", &[State(0, 249, LONGER_G, L)], Unfit(4)),
    ("long local", &[State(0, 249, G, LONG_L)], Accepted),
    ("longer local", &[State(0, 249, G, LONGER_L)], Unfit(4)),
    ("long name", &[Waits(Event(2, LONG, 0))], Accepted),
    ("longer name", &[Waits(Event(2, LONGER, 0))], Unfit(4)),
    ("long speech", &[Does(&[Wait(1), Speak(LONG)])], Accepted),
    (
        "longer speech",
        &[Does(&[Wait(1), Speak(LONGER)])],
        Unfit(4),
    ),
    (
        "global to do",
        &[Does(&[Do(Captured(0, 332, LONG_G, L))])],
        Accepted,
    ),
    (
        "longer to do",
        &[Does(&[Do(Captured(0, 332, LONGER_G, L))])],
        Unfit(4),
    ),
    (
        "local to do",
        &[Does(&[Do(Captured(0, 332, G, LONG_L))])],
        Accepted,
    ),
    (
        "longer one",
        &[Does(&[Do(Captured(0, 332, G, LONGER_L))])],
        Unfit(4),
    ),
];

const NAME: Words = Words(b"q", 1);

const EARLY: Entry = Entry(999, 3, Turn(1));

/// Entries that are due with the Turn of `TURN`.
const SAME: Entry = Entry(1_000, 3, Unapply(1));

const BEFORE: Entry = Entry(1_000, 2, Unapply(1));

const BEHIND: Entry = Entry(1_000, 4, Unapply(1));

/// Agendas, rule 5.
const AGENDAS: &[Row] = &[
    (
        "nothing waits",
        &[Objects(&[IDLE, IDLE]), Agenda(&[])],
        Accepted,
    ),
    ("due before the clock", &[Agenda(&[EARLY, EVENT])], Unfit(5)),
    ("two due before it", &[Clock(1_001)], Unfit(5)),
    ("all due before it", &[Clock(3_001)], Unfit(5)),
    ("due behind the end", &[Until(1_500)], Accepted),
    ("not by time", &[Agenda(&[TURN, UNAPPLY, STORED])], Unfit(5)),
    ("not by time, last", &[Due(2_999)], Unfit(5)),
    ("by number", &[Agenda(&[TURN, BEHIND])], Accepted),
    ("not by number", &[Agenda(&[TURN, BEFORE])], Unfit(5)),
    (
        "one number and time twice",
        &[Agenda(&[TURN, SAME])],
        Unfit(5),
    ),
    ("the first number twice", &[Number(3)], Unfit(5)),
    ("the last number twice", &[Number(4)], Unfit(5)),
    ("the number before the next", &[Number(8)], Accepted),
    ("the next number", &[Number(9)], Unfit(5)),
    ("a number behind the next", &[Number(10)], Unfit(5)),
    ("all before the next", &[Next(7)], Accepted),
    ("one not before the next", &[Next(6)], Unfit(5)),
    ("event of none", &[Waits(Event(0, NAME, 1))], Accepted),
    ("event of 2", &[Waits(Event(2, NAME, 1))], Accepted),
    ("event of 3", &[Waits(Event(3, NAME, 1))], Unfit(5)),
    (
        "event of many",
        &[Waits(Event(u32::MAX, NAME, 1))],
        Unfit(5),
    ),
    ("stored of none", &[Waits(Stored(0, DELAYED))], Accepted),
    ("stored of 2", &[Waits(Stored(2, DELAYED))], Accepted),
    ("stored of 3", &[Waits(Stored(3, DELAYED))], Unfit(5)),
    ("Turn of none", &[Waits(Turn(0))], Unfit(5)),
    ("Turn of 3", &[Waits(Turn(3))], Unfit(5)),
    ("unapply of none", &[Waits(Unapply(0))], Unfit(5)),
    ("unapply of 2", &[Waits(Unapply(2))], Accepted),
    ("unapply of 3", &[Waits(Unapply(3))], Unfit(5)),
    (
        "any effect's number",
        &[Objects(&[ENDS_BY_ANY, IDLE])],
        Accepted,
    ),
];

const ENDS_BY_ANY: Object = Object(true, &[], &[Some(u64::MAX)], &[]);

/// 20 cells as `MANY`, but for the twelfth, and for the lowest.
const OTHER_12: &[Cell] = &[I, S, O, E, U, I, S, O, E, U, I, I, O, E, U, I, S, O, E, U];

const OTHER_1: &[Cell] = &[S, S, O, E, U, I, S, O, E, U, I, S, O, E, U, I, S, O, E, U];

const DEEP_CODE: Change = Coded(Code::Deep);

/// Captured states, rule 6.
const STATES: &[Row] = &[
    (
        "other values",
        &[State(0, 249, &[I, S], &[I, S, O, E, U, I])],
        Accepted,
    ),
    ("the other place", &[State(0, 332, G, L)], Accepted),
    ("a place further", &[State(0, 250, G, L)], Unfit(6)),
    ("a place before", &[State(0, 248, G, L)], Unfit(6)),
    ("where it is stored", &[State(0, 233, G, L)], Unfit(6)),
    ("the next instruction", &[State(0, 257, G, L)], Unfit(6)),
    ("place 0", &[State(0, 0, G, L)], Unfit(6)),
    ("the first place", &[State(0, 13, &[], &[])], Unfit(6)),
    ("the end", &[State(0, 401, G, L)], Unfit(6)),
    ("the last place", &[State(0, u32::MAX, G, L)], Unfit(6)),
    ("another script", &[State(1, 249, G, L)], Unfit(6)),
    ("the scripts' count", &[State(2, 249, G, L)], Unfit(6)),
    ("the last script", &[State(u32::MAX, 249, G, L)], Unfit(6)),
    ("no globals", &[State(0, 249, &[], L)], Unfit(6)),
    ("a global less", &[State(0, 249, &[S], L)], Unfit(6)),
    ("a global more", &[State(0, 249, &[I, I, S], L)], Unfit(6)),
    ("another global", &[State(0, 249, &[O, S], L)], Unfit(6)),
    ("globals turned", &[State(0, 249, &[S, I], L)], Unfit(6)),
    ("no locals", &[State(0, 249, G, &[])], Unfit(6)),
    (
        "a local less",
        &[State(0, 249, G, &[S, O, E, U, I])],
        Unfit(6),
    ),
    (
        "one more",
        &[State(0, 249, G, &[I, I, S, O, E, U, I])],
        Unfit(6),
    ),
    ("no int", &[State(0, 249, G, &[O, S, O, E, U, I])], Unfit(6)),
    (
        "no string",
        &[State(0, 249, G, &[I, I, O, E, U, I])],
        Unfit(6),
    ),
    (
        "no object",
        &[State(0, 249, G, &[I, S, I, E, U, I])],
        Unfit(6),
    ),
    (
        "no effect",
        &[State(0, 249, G, &[I, S, O, U, U, I])],
        Unfit(6),
    ),
    (
        "no event",
        &[State(0, 249, G, &[I, S, O, E, I, I])],
        Unfit(6),
    ),
    (
        "place to do",
        &[Does(&[Do(Captured(0, 333, G, L))])],
        Unfit(6),
    ),
    (
        "second to do",
        &[Does(&[Wait(1), Do(Captured(0, 332, G, &[]))])],
        Unfit(6),
    ),
    (
        "script to do",
        &[Does(&[Do(Captured(2, 332, G, L))])],
        Unfit(6),
    ),
    (
        "the last object's",
        &[Objects(&[BUSY, ASTRAY]), Waits(Turn(2))],
        Unfit(6),
    ),
    ("20 locals", &[DEEP_CODE, State(2, 69, &[], MANY)], Accepted),
    (
        "the 12th",
        &[DEEP_CODE, State(2, 69, &[], OTHER_12)],
        Unfit(6),
    ),
    (
        "the lowest",
        &[DEEP_CODE, State(2, 69, &[], OTHER_1)],
        Unfit(6),
    ),
    (
        "and a global",
        &[DEEP_CODE, State(2, 69, &[I], MANY)],
        Unfit(6),
    ),
];

const ASTRAY: Object = Object(true, &[], &[], &[Do(Captured(0, 331, G, L))]);

/// Busy and without a Turn, and the other way round.
const WAITING: Object = Object(true, &[], &[], &[Wait(1)]);

const RESTING: Object = Object(false, &[], &[], &[Wait(1)]);

const TURN_OF_2: Entry = Entry(1_000, 4, Turn(2));

/// Busy objects, rule 7.
const TURNS: &[Row] = &[
    (
        "busy, no Turn",
        &[Agenda(&[EVENT, STORED, UNAPPLY])],
        Unfit(7),
    ),
    ("Turn, not busy", &[Objects(&[IDLE, IDLE])], Unfit(7)),
    ("Turn of another", &[Agenda(&[TURN_OF_2])], Unfit(7)),
    ("Turn of 2 besides", &[Waits(Turn(2))], Unfit(7)),
    ("two Turns", &[Waits(Turn(1))], Unfit(7)),
    (
        "actions, not busy",
        &[Objects(&[RESTING, IDLE]), Agenda(&[EVENT])],
        Unfit(7),
    ),
    (
        "actions and a Turn, not busy",
        &[Objects(&[RESTING, IDLE])],
        Unfit(7),
    ),
    ("the last is busy", &[Objects(&[BUSY, WAITING])], Unfit(7)),
    (
        "both are busy",
        &[Objects(&[BUSY, WAITING]), Waits(Turn(2))],
        Accepted,
    ),
    (
        "one has both Turns",
        &[Objects(&[BUSY, WAITING]), Waits(Turn(1))],
        Unfit(7),
    ),
    (
        "busy, nothing to do",
        &[Objects(&[ENDS_BY_ANY, IDLE])],
        Accepted,
    ),
];

/// Two rules are broken, and the first is told.
const PAIRS: &[Row] = &[
    ("1 and 2", &[Header(b"int"), Coded(UNSTACKED)], Unfit(1)),
    ("1 and 7", &[Header(b"int"), Waits(Turn(1))], Unfit(1)),
    ("2 and 3", &[Coded(UNSTACKED), Area(b"")], Unfit(2)),
    ("2 and 4", &[Coded(UNSTACKED), Version(3)], Unfit(2)),
    ("3 and 4", &[Area(NO_AREA), Version(3)], Unfit(3)),
    ("3 and 7", &[Objects(&[BUSY, IDLE, WAITING])], Unfit(3)),
    ("4 and 5", &[Version(3), Number(9)], Unfit(4)),
    ("4 and 6", &[Done(FULL), State(0, 250, G, L)], Unfit(4)),
    ("4 and 7", &[Limit(0), Waits(Turn(1))], Unfit(4)),
    ("5 and 6", &[Next(6), State(0, 250, G, L)], Unfit(5)),
    ("5 and 7", &[Next(6), Waits(Turn(1))], Unfit(5)),
    (
        "6 and 7",
        &[Agenda(&[EVENT]), State(0, 250, G, L)],
        Unfit(6),
    ),
];

#[test]
fn what_a_state_is_of(rt: HostRuntime) -> Result<(), Fail> {
    assert_eq!(rt; first_other(rt.alloc(), BEGINNINGS)?, "");
    Ok(())
}

#[test]
fn limits(rt: HostRuntime) -> Result<(), Fail> {
    assert_eq!(rt; first_other(rt.alloc(), NUMBERS)?, "");
    assert_eq!(rt; first_other(rt.alloc(), TEXTS)?, "");
    Ok(())
}

#[test]
fn names(rt: HostRuntime) -> Result<(), Fail> {
    assert_eq!(rt; first_other(rt.alloc(), NAMES)?, "");
    Ok(())
}

#[test]
fn agendas(rt: HostRuntime) -> Result<(), Fail> {
    assert_eq!(rt; first_other(rt.alloc(), AGENDAS)?, "");
    assert_eq!(rt; first_other(rt.alloc(), TURNS)?, "");
    Ok(())
}

#[test]
fn captured_states(rt: HostRuntime) -> Result<(), Fail> {
    assert_eq!(rt; first_other(rt.alloc(), STATES)?, "");
    assert_eq!(rt; first_other(rt.alloc(), PAIRS)?, "");
    Ok(())
}
