//! The state of a play, byte by byte: what `save` writes of it, and what `resume` makes of it.

use nwq_top::Status;
use test_rows::answers::{Held, PLAIN, Row};
use test_rows::contents::{DEFERS, EMPTY_AREA, PLAN_OF_ONE};
use test_rows::samples::Sample;

/// The state's bytes in front of the place at which its one stored action goes on: it begins, with
/// the built-in header and the code of the script `p`; the area, and the plan's version; the
/// limits, the clock of 0, one entry and 14 instructions; no random numbers and no objects; one
/// entry for the time 1,000, which is an action of the object 0 and of the script 0.
const FRONT: &[u8] = b"\
    NWQSAVE1\0\x01\0\0\0\x01\0\0\0pn\0\0\0NCS V1.0B\0\0\0n\x1e\0\0\0\0\x08 \0\x04\x03\0\0\0\x01,\
    \x10\0\0\0\0\0\0\0\x04\x1d\0\0\0\0\x15\x03\x01\xff\xff\xff\xfc\0\x04\x05\0\0\x04\x01 \0\x04\
    \x03\0\0\x03\xe8\x05\0\0\x07\x02\x04\x03\0\0\0\x02\x01\x01\xff\xff\xff\xf8\0\x04\x1b\0\xff\xff\
    \xff\xfc\x03\x01\xff\xff\xff\xfc\0\x04\x05\0\0\x04\x01\x1b\0\xff\xff\xff\xfc \0D\0\0\0GIT V3.2\
    8\0\0\0\x01\0\0\0D\0\0\0\0\0\0\0D\0\0\0\0\0\0\0D\0\0\0\0\0\0\0D\0\0\0\0\0\0\0D\0\0\0\0\0\0\0\
    \xff\xff\xff\xff\xff\xff\xff\xff\0\0\0\0\x01\0\0\x02\0\0\0\0\0\x10'\0\0\0\0\0\0`\xea\0\0\0\0\0\
    \0\0\0\0\0\0\0\0\0\x01\0\0\0\0\0\0\0\x0e\0\0\0\0\0\0\0\x02\0\0\0\0\0\0\0\0\0\0\0\0\0\0\0\x01\0\
    \0\0\xe8\x03\0\0\0\0\0\0\x01\0\0\0\0\0\0\0\x01\0\0\0\0\0\0\0\0";

/// Behind the first byte of that place: no globals, and the local 1.
const REST: &[u8] = b"\
    \0\0\0\0\0\0\0\x01\0\0\0\x03\x01\0\0\0";

/// The place: 16 bytes behind the STORE_STATE that stored the action.
const PLACE: u8 = 43;

/// The state, and one whose place is one greater.
const STATE: Held = Held::Repeated(&[FRONT], PLACE, 1, REST);

const MOVED: Held = Held::Repeated(&[FRONT], PLACE + 1, 1, REST);

/// The play is saved as this state, the state is resumed, and it is refused where the place is one
/// greater.
pub const ROWS: &[Row] = &[
    Row {
        line: "save - a.git x.plan 1 s.nwq",
        own: &[PLAN_OF_ONE, DEFERS, EMPTY_AREA],
        puts: Some(2),
        text: "0 #0 print 2\nsaved s.nwq entries 1\n",
        after: &[("s.nwq", STATE)],
        ..PLAIN
    },
    Row {
        line: "resume s.nwq f.git",
        own: &[("s.nwq", STATE)],
        text: "1000 #0 print 1\nend done clock 1000 entries 2 instructions 17\n",
        after: &[("f.git", Held::Of(Sample::Empty))],
        ..PLAIN
    },
    Row {
        line: "resume s.nwq f.git",
        own: &[("s.nwq", MOVED)],
        status: Status::Area,
        text: "refused s.nwq unfit 6\n",
        after: &[("f.git", Held::Nothing)],
        ..PLAIN
    },
];
