//! Calls of the outside that fail as plans are played or saved, each in turn: what was put and
//! written before stays, nothing comes after it, and the status is that of faults.

use crate::games;
use nwq_top::Status;
use test_rows::answers::{Failing, Held, Named, PLAIN, Row};
use test_rows::bases::Base;
use test_rows::rows::Cut;
use test_rows::samples::Sample;

const NOT_COMPILED: &[Named] = &[("p.ncs", Held::Nothing)];

const NO_FILE: &[Named] = &[("tick.ncs", Held::Nothing), ("f.git", Held::Nothing)];

const NO_AREA: &[Named] = &[
    ("tick.ncs", Held::Of(Sample::Tick)),
    ("f.git", Held::Nothing),
];

const AN_AREA: &[Named] = &[
    ("tick.ncs", Held::Of(Sample::Tick)),
    ("f.git", Held::Of(Sample::Seven)),
];

/// The lines of the play of a guard's rounds.
const LINES: &str =
    "0 #1 speak round 6\n6000 #1 print 6\n6000 #1 speak round 7\n12000 #1 print 7\n";

/// Of the play of a guard's rounds.
pub const PLAYS: &[Cut] = &[
    (Failing::File(0), 0, "", NO_FILE),
    (Failing::File(1), 0, "", NO_FILE),
    (Failing::File(2), 0, "", NO_FILE),
    (Failing::File(3), 0, "", NO_FILE),
    (Failing::File(4), 0, "", NO_AREA),
    (Failing::File(5), 4, LINES, NO_AREA),
    (Failing::Put(0), 1, "", NO_AREA),
    (Failing::Put(1), 2, "0 #1 speak round 6\n", NO_AREA),
    (
        Failing::Put(2),
        3,
        "0 #1 speak round 6\n6000 #1 print 6\n",
        NO_AREA,
    ),
    (
        Failing::Put(3),
        4,
        "0 #1 speak round 6\n6000 #1 print 6\n6000 #1 speak round 7\n",
        NO_AREA,
    ),
    (Failing::Put(4), 5, LINES, AN_AREA),
];

const FIRST: &[Named] = &[
    ("a.ncs", Held::Of(Sample::FirstSum)),
    ("b.ncs", Held::Nothing),
    ("f.git", Held::Nothing),
];

/// Of the play of three.
pub const THREES: &[Cut] = &[
    (Failing::File(1), 0, "", games::NO_FILES),
    (Failing::File(5), 0, "", FIRST),
    (Failing::File(6), 0, "", FIRST),
    (Failing::File(7), 0, "", games::TWO_FILES),
    (Failing::File(8), 0, "", games::TWO_FILES),
    (
        Failing::File(9),
        2,
        "0 #0 print 5\n20 #1 print 5\n",
        games::TWO_FILES,
    ),
];

const COMPILED: &[Named] = &[("p.ncs", Held::Something)];

/// Of a play that is saved over an older state, which stays whole.
pub const SAVES: &[Cut] = &[
    (Failing::File(0), 0, "", NOT_COMPILED),
    (Failing::File(1), 0, "", NOT_COMPILED),
    (Failing::File(2), 0, "", NOT_COMPILED),
    (Failing::File(3), 0, "", COMPILED),
    (Failing::File(4), 1, "0 #0 print 2\n", COMPILED),
    (Failing::Put(0), 1, "", COMPILED),
    (
        Failing::Put(1),
        2,
        "0 #0 print 2\n",
        &[("p.ncs", Held::Something), ("s.nwq", Held::Something)],
    ),
];

pub const PLAY: Row = Row {
    line: "play - a.git x.plan f.git",
    base: Base::Rounds,
    status: Status::Fault,
    ..PLAIN
};

pub const PLAY_THREE: Row = Row {
    line: "play h.nss a.git x.plan f.git",
    base: Base::Three,
    status: Status::Fault,
    ..PLAIN
};

pub const SAVE: Row = Row {
    line: "save - a.git x.plan 1 s.nwq",
    base: Base::Saved,
    status: Status::Fault,
    ..PLAIN
};
