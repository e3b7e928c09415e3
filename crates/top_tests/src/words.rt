//! Words that are no form of a command.

use nwq_top::Status;
use test_rows::answers::{Held, PLAIN, Row};

/// Words are refused, and nothing is written.
pub const REFUSED: Row = Row {
    own: &[
        ("p.nss", Held::Bytes(b"void main() {}")),
        ("in", Held::Bytes(b"")),
    ],
    status: Status::Words,
    puts: Some(1),
    text: "refused words\n",
    after: &[("out", Held::Nothing), ("p.ncs", Held::Nothing)],
    ..PLAIN
};

pub const LINES: &[&str] = &[
    "",
    "run",
    "run -",
    "run - P",
    "run - p -",
    "run -- p",
    "run -h p",
    "run h.nss -",
    "run - seventeen_letters",
    "compile -",
    "compile - P",
    "tree",
    "tree in out",
    "dis in",
    "asm in -out",
    "check in",
    "play - a.git p.plan",
    "play - a.git p.plan -f",
    "play - a.git p.plan f.git t.txt more",
    "save - a.git p.plan 0 s.nwq",
    "save - a.git p.plan 1000001 s.nwq",
    "resume s.nwq",
    "generate",
    "generate x",
    "generate 1000001",
    "generate 12345678901",
    "generate 1 2",
    "generate -1",
];
