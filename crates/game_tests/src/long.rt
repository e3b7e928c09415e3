//! A variable that is longer than a string may be: it is kept whole in the area and in a state.

use test_rows::answers::{Held, PLAIN, Row};
use test_rows::bases::Base;

/// The area of the guard in front of the value of its variable `count`.
const FRONT: &[u8] = b"\
    GIT V3.28\0\0\0\x04\0\0\0h\0\0\0\n\0\0\0\xe0\0\0\0\x07\0\0\0P\x01\0\0\x33'\0\0\x83(\0\0$\0\0\0\
    \xa7(\0\0\x14\0\0\0\xff\xff\xff\xff\0\0\0\0\x01\0\0\0\x04\0\0\0\0\0\0\0\x03\0\0\0\0\0\0\0\x0c\
    \0\0\0\x03\0\0\0\0\0\0\0\x18\0\0\0\x03\0\0\0\x0f\0\0\0\0\0\0\0\0\0\0\0\n\0\0\0\x01\0\0\0\0\0\0\
    \0\x0b\0\0\0\x02\0\0\0\x09\0\0\0\x0f\0\0\0\x03\0\0\0\x08\0\0\0\n\0\0\0\x04\0\0\0\x0e\0\0\0\x04\
    \0\0\0\x05\0\0\0\x01\0\0\0\x05\0\0\0\x06\0\0\0";

/// Behind the first byte of that value: of its variable `long` all but its bytes.
const MIDDLE: &[u8] = b"\
    \0\0\0\n\0\0\0\x04\0\0\0\x17\0\0\0\x04\0\0\0\x05\0\0\0\x03\0\0\0\n\0\0\0\x06\0\0\0\x1f\0\0\0Cr\
    eature List\0\0\0Tag\0\0\0\0\0\0\0\0\0\0\0\0\0ScriptHeartbeat\0VarTable\0\0\0\0\0\0\0\0Name\0\
    \0\0\0\0\0\0\0\0\0\0\0Type\0\0\0\0\0\0\0\0\0\0\0\0Value\0\0\0\0\0\0\0\0\0\0\0\x05\0\0\0guard\
    \x04tick\x05\0\0\0count\x04\0\0\0long\x10'\0\0";

/// How many bytes the variable `long` has.
const LENGTH: usize = 10_000;

/// Behind them.
const REST: &[u8] = b"\
    \x01\0\0\0\x02\0\0\0\x03\0\0\0\x04\0\0\0\x05\0\0\0\x06\0\0\0\x07\0\0\0\x08\0\0\0\x09\0\0\0\x01\
    \0\0\0\x01\0\0\0\x02\0\0\0\x02\0\0\0\x03\0\0\0";

/// The area with a count of 5, and with one of 7.
pub const FIVE: Held = Held::Repeated(&[FRONT, b"\x05", MIDDLE], b'x', LENGTH, REST);

const SEVEN: Held = Held::Repeated(&[FRONT, b"\x07", MIDDLE], b'x', LENGTH, REST);

/// What the rounds print.
pub const TEXT: &str = "0 #1 speak round 6\n6000 #1 print 6\n6000 #1 speak round 7\n\
    12000 #1 print 7\nend done clock 12000 entries 6 instructions 64\n";

/// The guard's rounds keep the string whole. Saved and resumed they go as a game of `saves`.
pub const ROWS: &[Row] = &[Row {
    line: "play - a.git x.plan f.git",
    base: Base::Rounds,
    own: &[("a.git", FIVE)],
    text: TEXT,
    after: &[("f.git", SEVEN)],
    ..PLAIN
}];
