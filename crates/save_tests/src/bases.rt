//! States that a play can go on from, and what rows put in the place of their parts.

use crate::sketch::{
    Besides, Captured, Cell, Code, Entry, Item, Kind, Object, Script, Sketch, Variable, Words,
};

/// A global int and a global string. `main` sets six locals, an int, a string, an object, an
/// effect, an event and an int, delays a call of `Tell` with all of them, whose state resumes at
/// 249, and puts one into the queue, whose state resumes at 332. `Tell` prints, writes a variable,
/// applies the effect for a time and signals the event.
pub const TELLS: &[u8] = b"\
      JSR 00 @21\nRETN 00\nCONST 03 7\nCONST 05 \"x\"\nSAVEBP 00\nJSR 00 @188\n\
      RESTOREBP 00\nMOVSP 00 -8\nRETN 00\nCPTOPBP 01 -8 4\nCPTOPSP 01 -8 4\nADD 20\n\
      CPTOPSP 01 -28 4\nADD 20\nACTION 00 4 1\nCPTOPBP 01 -4 4\nCPTOPSP 01 -12 4\nADD 23\n\
      ACTION 00 1 1\nCPTOPSP 01 -24 4\nCONST 05 \"n\"\nCONST 06 0\nACTION 00 18 3\n\
      CONST 03 100\nCONST 06 0\nCPTOPSP 01 -24 4\nCONST 03 1\nACTION 00 23 4\n\
      CPTOPSP 01 -20 4\nCONST 06 0\nACTION 00 39 2\nMOVSP 00 -24\nRETN 00\nCONST 03 1\n\
      CONST 05 \"y\"\nCONST 06 0\nCONST 03 3\nACTION 00 26 1\nCONST 03 5\nACTION 00 38 1\n\
      CONST 03 9\nSTORE_STATE 10 8 24\nJMP 00 @305\nCPTOPSP 01 -4 4\nCPTOPSP 01 -12 4\n\
      CPTOPSP 01 -20 4\nCPTOPSP 01 -28 4\nCPTOPSP 01 -36 4\nCPTOPSP 01 -44 4\nJSR 00 @50\n\
      RETN 00\nCONST 03 500\nACTION 00 7 2\nSTORE_STATE 10 8 24\nJMP 00 @388\n\
      CPTOPSP 01 -4 4\nCPTOPSP 01 -12 4\nCPTOPSP 01 -20 4\nCPTOPSP 01 -28 4\n\
      CPTOPSP 01 -36 4\nCPTOPSP 01 -44 4\nJSR 00 @50\nRETN 00\nACTION 00 10 1\n\
      MOVSP 00 -24\nRETN 00\n";

/// It prints the number of its event.
pub const PRINTS: &[u8] = b"\
      JSR 00 @21\nRETN 00\nACTION 00 40 0\nACTION 00 4 1\nRETN 00\n";

/// Under a header of its own it delays the print of a local, whose state resumes at 35.
pub const DELAYS: &[u8] = b"\
      CONST 03 5\nSTORE_STATE 10 0 4\nJMP 00 @50\nCPTOPSP 01 -4 4\nACTION 00 0 1\nRETN 00\n\
      CONST 03 1000\nACTION 00 1 2\nMOVSP 00 -4\nRETN 00\n";

/// It does nothing.
pub const NOTHING: &[u8] = b"RETN 00\n";

/// A state of 20 locals of the five types in turn is stored, and resumes at 69.
pub const DEEP: &[u8] = b"\
      RSADD 03\nRSADD 05\nRSADD 06\nRSADD 10\nRSADD 11\nRSADD 03\nRSADD 05\nRSADD 06\n\
      RSADD 10\nRSADD 11\nRSADD 03\nRSADD 05\nRSADD 06\nRSADD 10\nRSADD 11\nRSADD 03\n\
      RSADD 05\nRSADD 06\nRSADD 10\nRSADD 11\nSTORE_STATE 10 0 80\nJMP 00 @71\nRETN 00\n\
      CONST 03 1\nACTION 00 7 2\nMOVSP 00 -80\nRETN 00\n";

/// An area of two creatures. The first one's `ScriptUserDefine` is `q`.
pub const AREA: &[u8] = b"\
    GIT V3.28\0\0\0\x03\0\0\0\x5c\0\0\0\x02\0\0\0t\0\0\0\x02\0\0\0\x94\0\0\0\x02\0\0\0\x96\0\
    \0\0\0\0\0\0\x96\0\0\0\x0c\0\0\0\xff\xff\xff\xff\0\0\0\0\x01\0\0\0\0\0\0\0\x01\0\0\0\x01\
    \0\0\0\0\0\0\0\xff\xff\xff\xff\0\0\0\0\x0f\0\0\0\0\0\0\0\0\0\0\0\x0b\0\0\0\x01\0\0\0\0\0\
    \0\0Creature List\0\0\0ScriptUserDefine\x01q\x02\0\0\0\x01\0\0\0\x02\0\0\0";

/// The same, where `Creature List` is a BYTE.
pub const NO_AREA: &[u8] = b"\
    GIT V3.28\0\0\0\x03\0\0\0\x5c\0\0\0\x02\0\0\0t\0\0\0\x02\0\0\0\x94\0\0\0\x02\0\0\0\x96\0\
    \0\0\0\0\0\0\x96\0\0\0\x0c\0\0\0\xff\xff\xff\xff\0\0\0\0\x01\0\0\0\0\0\0\0\x01\0\0\0\x01\
    \0\0\0\0\0\0\0\xff\xff\xff\xff\0\0\0\0\0\0\0\0\0\0\0\0\0\0\0\0\x0b\0\0\0\x01\0\0\0\0\0\0\
    \0Creature List\0\0\0ScriptUserDefine\x01q\x02\0\0\0\x01\0\0\0\x02\0\0\0";

/// `p` and `q`.
pub const SCRIPTS: &[Script] = &[P, Q];

pub const P: Script = Script(Words(b"p", 1), Code::Tells);

pub const Q: Script = Script(Words(b"q", 1), Code::Prints);

pub const GLOBALS: &[Cell] = &[Cell::Int(7), Cell::Text(Words(b"x", 1))];

pub const LOCALS: &[Cell] = &[
    Cell::Int(1),
    Cell::Text(Words(b"y", 1)),
    Cell::Object(1),
    Cell::Effect,
    Cell::Event(5),
    Cell::Int(9),
];

/// The state of `p` that is delayed.
pub const DELAYED: Captured = Captured(0, 249, GLOBALS, LOCALS);

/// The state of `p` that is an action.
pub const ACTION: Captured = Captured(0, 332, GLOBALS, LOCALS);

pub const VARIABLES: &[Variable] = &[
    Variable::Int(Words(b"n", 1), -1),
    Variable::Text(Words(b"n", 1), Words(b"t", 1)),
];

/// A busy object.
pub const BUSY: Object = Object(
    true,
    VARIABLES,
    &[Some(4), None],
    &[
        Item::Do(ACTION),
        Item::Wait(500),
        Item::Speak(Words(b"hi", 1)),
    ],
);

/// An object without anything.
pub const IDLE: Object = Object(false, &[], &[], &[]);

pub const TURN: Entry = Entry(1000, 3, Kind::Turn(1));

pub const EVENT: Entry = Entry(1000, 5, Kind::Event(2, Words(b"q", 1), 77));

pub const STORED: Entry = Entry(2000, 6, Kind::Stored(1, DELAYED));

pub const UNAPPLY: Entry = Entry(3000, 4, Kind::Unapply(1));

const NOTHING_MORE: Besides = Besides {
    script: None,
    variables: &[],
    items: &[],
    entry: None,
};

/// A state with something of each kind.
pub const WHOLE: Sketch = Sketch {
    header: None,
    scripts: SCRIPTS,
    more: 0,
    area: AREA,
    version: 2,
    limit: 5_000,
    entries: 100,
    until: 60_000,
    clock: 1_000,
    taken: 3,
    done: 40,
    next: 9,
    random: 2,
    objects: &[BUSY, IDLE],
    agenda: &[TURN, EVENT, STORED, UNAPPLY],
    besides: NOTHING_MORE,
};

/// Five actions: a state, a speech, two waits and a state.
const QUEUE: &[Item] = &[
    Item::Do(ACTION),
    Item::Speak(Words(b"a\n\xe4", 1)),
    Item::Wait(0),
    Item::Wait(-7),
    Item::Do(DELAYED),
];

/// Two busy objects with effects, and events that wait with their numbers, of version 1.
pub const BUSIER: Sketch = Sketch {
    header: None,
    scripts: SCRIPTS,
    more: 1,
    area: AREA,
    version: 1,
    limit: 131_072,
    entries: 10_000,
    until: 60_000,
    clock: 0,
    taken: 0,
    done: 0,
    next: 12,
    random: 5,
    objects: &[
        Object(true, VARIABLES, &[Some(7), Some(8), None], QUEUE),
        Object(true, &[], &[Some(9)], &[Item::Wait(300)]),
    ],
    agenda: &[
        Entry(0, 2, Kind::Event(1, Words(b"q", 1), 5)),
        Entry(0, 3, Kind::Event(2, Words(b"q", 1), -6)),
        Entry(0, 10, Kind::Turn(1)),
        Entry(50, 7, Kind::Unapply(1)),
        Entry(60, 8, Kind::Unapply(1)),
        Entry(60, 9, Kind::Unapply(2)),
        Entry(100, 1, Kind::Event(0, Words(b"p", 1), 0)),
        Entry(300, 11, Kind::Turn(2)),
        Entry(400, 4, Kind::Event(2, Words(b"none", 1), 7)),
    ],
    besides: NOTHING_MORE,
};

pub const I: Cell = Cell::Int(0);

pub const S: Cell = Cell::Text(Words(b"s", 1));

pub const O: Cell = Cell::Object(77);

pub const E: Cell = Cell::Effect;

pub const U: Cell = Cell::Event(-1);

/// The locals of `DEEP`.
pub const MANY: &[Cell] = &[I, S, O, E, U, I, S, O, E, U, I, S, O, E, U, I, S, O, E, U];

/// A state of 20 locals waits, twice.
pub const DEEPER: Sketch = Sketch {
    header: None,
    scripts: &[Script(Words(b"deep", 1), Code::Deep)],
    more: 0,
    area: AREA,
    version: 2,
    limit: 100,
    entries: 50,
    until: 9_000,
    clock: 1_000,
    taken: 3,
    done: 40,
    next: 9,
    random: 0,
    objects: &[IDLE, IDLE],
    agenda: &[
        Entry(1_500, 6, Kind::Stored(0, Captured(0, 69, &[], MANY))),
        Entry(2_500, 7, Kind::Stored(2, Captured(0, 69, &[], MANY))),
    ],
    besides: NOTHING_MORE,
};

/// A state under a header of its own, of two routines. The script delays the print of its local.
pub const OWN: Sketch = Sketch {
    header: Some(b"void PrintInteger(int n); void DelayCommand(int n, action a);"),
    scripts: &[Script(Words(b"own", 1), Code::Delays)],
    more: 0,
    area: AREA,
    version: 2,
    limit: 1_000,
    entries: 10,
    until: 10_000,
    clock: 10,
    taken: 1,
    done: 8,
    next: 3,
    random: 0,
    objects: &[IDLE, IDLE],
    agenda: &[
        Entry(10, 1, Kind::Event(1, Words(b"own", 1), 0)),
        Entry(
            1_000,
            0,
            Kind::Stored(1, Captured(0, 35, &[], &[Cell::Int(5)])),
        ),
        Entry(
            1_000,
            2,
            Kind::Stored(0, Captured(0, 35, &[], &[Cell::Int(6)])),
        ),
    ],
    besides: NOTHING_MORE,
};
