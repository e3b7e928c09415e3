//! Calls of the outside that fail as a script is run or compiled, each in turn: what was put and
//! written before stays, nothing comes after it, and the status is that of faults.

use nwq_top::Status;
use test_rows::answers::{Failing, Held, Named, PLAIN, Row};
use test_rows::bases::Base;
use test_rows::rows::Cut;

const NOT_COMPILED: &[Named] = &[("p.ncs", Held::Nothing)];

/// Of `run h.nss p`.
pub const RUNS: &[Cut] = &[
    (Failing::File(0), 0, "", NOT_COMPILED),
    (Failing::File(1), 0, "", NOT_COMPILED),
    (Failing::File(2), 0, "", NOT_COMPILED),
    (Failing::Put(0), 1, "", NOT_COMPILED),
    (Failing::Put(1), 2, "0 #0 print 1\n", NOT_COMPILED),
    (
        Failing::Put(2),
        3,
        "0 #0 print 1\n5 #0 print 2\n",
        NOT_COMPILED,
    ),
];

/// Of `compile h.nss p`. A file that was written stays.
pub const COMPILES: &[Cut] = &[
    (Failing::File(0), 0, "", NOT_COMPILED),
    (Failing::File(1), 0, "", NOT_COMPILED),
    (Failing::File(2), 0, "", NOT_COMPILED),
    (Failing::File(3), 0, "", NOT_COMPILED),
    (Failing::Put(0), 1, "", &[("p.ncs", Held::Something)]),
];

/// Words whose calls fail.
pub const RUN: Row = Row {
    line: "run h.nss p",
    base: Base::Script,
    status: Status::Fault,
    ..PLAIN
};

pub const COMPILE: Row = Row {
    line: "compile h.nss p",
    base: Base::Script,
    status: Status::Fault,
    ..PLAIN
};
