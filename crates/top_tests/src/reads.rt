//! Files that are read and aren't there, or are too long: the first such file is told, and nothing
//! is written behind it.

use nwq_top::Status;
use test_rows::answers::{Held, PLAIN, Row};
use test_rows::bases::Base;

/// A file isn't there.
pub const MISSING: Row = Row {
    base: Base::Three,
    status: Status::Missing,
    puts: Some(1),
    text: "missing",
    after: &[("f.git", Held::Nothing)],
    ..PLAIN
};

/// A file is one byte too long.
pub const LONG: Row = Row {
    status: Status::Long,
    text: "long",
    ..MISSING
};

/// What it holds then.
pub const BLANKS: Held = Held::Repeated(&[], b' ', 16_777_217, b"");

/// Words over the files of the play of three, and a file that they read.
pub const READS: &[(&str, &str)] = &[
    ("run h.nss b", "h.nss"),
    ("run - b", "b.nss"),
    ("run - a", "inc.nss"),
    ("compile h.nss b", "h.nss"),
    ("compile - b", "b.nss"),
    ("compile - a", "inc.nss"),
    ("tree a.git", "a.git"),
    ("check h.nss c.ncs", "h.nss"),
    ("check - c.ncs", "c.ncs"),
    ("dis c.ncs f.git", "c.ncs"),
    ("asm c.ncs f.git", "c.ncs"),
    ("play h.nss a.git x.plan f.git", "x.plan"),
    ("play h.nss a.git x.plan f.git", "h.nss"),
    ("play h.nss a.git x.plan f.git", "a.nss"),
    ("play h.nss a.git x.plan f.git", "inc.nss"),
    ("play h.nss a.git x.plan f.git", "b.nss"),
    ("play h.nss a.git x.plan f.git", "c.ncs"),
    ("play h.nss a.git x.plan f.git", "a.git"),
];
