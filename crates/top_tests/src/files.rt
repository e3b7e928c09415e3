//! The commands over files that are no source texts: `tree`, `dis`, `asm` and `check`.

use nwq_top::Status;
use test_rows::answers::{Failing, Held, PLAIN, Row};
use test_rows::rows::{Short, Told};
use test_rows::samples::Sample;

pub const TOLD: &[Told] = &[
    (
        "tree in",
        Held::Of(Sample::Tree),
        Status::Done,
        "gff \"GIT \"\nstruct 4294967295\n  A byte 7\n",
        Held::Nothing,
    ),
    (
        "tree in",
        Held::Of(Sample::Empty),
        Status::Done,
        "gff \"GIT \"\nstruct 4294967295\n",
        Held::Nothing,
    ),
    // A list that has its one struct twice.
    (
        "tree in",
        Held::Bytes(
            b"\
            GIT V3.28\0\0\0\x03\0\0\0\\\0\0\0\x01\0\0\0h\0\0\0\x01\0\0\0x\0\0\0\0\0\0\0x\0\0\0\0\
            \0\0\0x\0\0\0\x0c\0\0\0\xff\xff\xff\xff\0\0\0\0\x01\0\0\0\x04\0\0\0\xff\xff\xff\xff\0\
            \0\0\0\x04\0\0\0\xff\xff\xff\xff\0\0\0\0\x0f\0\0\0\0\0\0\0\0\0\0\0Creature List\0\0\0\
            \x02\0\0\0\x01\0\0\0\x01\0\0\0",
        ),
        Status::Area,
        "refused in shared 1\n",
        Held::Nothing,
    ),
    (
        "dis in out",
        Held::Of(Sample::Nothing),
        Status::Done,
        "disassembled out 3\n",
        Held::Of(Sample::Listing),
    ),
    (
        "asm in out",
        Held::Of(Sample::Listing),
        Status::Done,
        "assembled out 23\n",
        Held::Of(Sample::Nothing),
    ),
    (
        "asm in out",
        Held::Bytes(b""),
        Status::Done,
        "assembled out 13\n",
        Held::Bytes(b"NCS V1.0B\0\0\0\x0d"),
    ),
    (
        "dis in out",
        Held::Bytes(b"NCS V1.0"),
        Status::Code,
        "refused in magic\n",
        Held::Nothing,
    ),
    (
        "dis in out",
        Held::Bytes(b"NCS V1.0B\0\0\0\x0e"),
        Status::Code,
        "refused in length\n",
        Held::Nothing,
    ),
    (
        "dis in out",
        Held::Bytes(b"NCS V1.0B\0\0\0\x0e\x1c"),
        Status::Code,
        "refused in 13 opcode\n",
        Held::Nothing,
    ),
    (
        "dis in out",
        Held::Bytes(b"NCS V1.0B\0\0\0\x0f\x20\x01"),
        Status::Code,
        "refused in 13 typebyte\n",
        Held::Nothing,
    ),
    (
        "dis in out",
        Held::Bytes(b"NCS V1.0B\0\0\0\x0e\x20"),
        Status::Code,
        "refused in 13 short\n",
        Held::Nothing,
    ),
    (
        "dis in out",
        Held::Bytes(b"NCS V1.0B\0\0\0\x13\x1d\0\0\0\0\x01"),
        Status::Code,
        "refused in 13 target\n",
        Held::Nothing,
    ),
    (
        "check - in",
        Held::Of(Sample::Nothing),
        Status::Done,
        "passed 3\n",
        Held::Nothing,
    ),
    (
        "check - in",
        Held::Bytes(b"NCS V1.0B\0\0\0\x11\x20\0\x14\x21"),
        Status::Done,
        "passed 2\n",
        Held::Nothing,
    ),
    (
        "check - in",
        Held::Bytes(b"NCS V1.0B\0\0\0\x11\x14\x21\x20\0"),
        Status::Code,
        "refused in unstacked\n",
        Held::Nothing,
    ),
    (
        "check - in",
        Held::Bytes(b"NCS V1.0B\0\0\0\x0d"),
        Status::Code,
        "refused in unstacked\n",
        Held::Nothing,
    ),
    // A copy from beneath the stack.
    (
        "check - in",
        Held::Bytes(b"NCS V1.0B\0\0\0\x17\x03\x01\xff\xff\xff\xfc\0\x04\x20\0"),
        Status::Code,
        "refused in unstacked\n",
        Held::Nothing,
    ),
    (
        "check - in",
        Held::Bytes(b"NCS V1.0B\0\0\0\x0e\x1e"),
        Status::Code,
        "refused in 13 short\n",
        Held::Nothing,
    ),
    (
        "check - in",
        Held::Bytes(b"NCS V1.0B\0\0\0\x0e"),
        Status::Code,
        "refused in length\n",
        Held::Nothing,
    ),
    (
        "check - in",
        Held::Bytes(b"NCS V1.0B\0\0\0\x15\x1d\0\0\0\0\x07 \0"),
        Status::Code,
        "refused in 13 target\n",
        Held::Nothing,
    ),
    (
        "check - in",
        Held::Bytes(b"NCS V1.0B\0\0\0\x0e\x1c"),
        Status::Code,
        "refused in 13 opcode\n",
        Held::Nothing,
    ),
    (
        "check - in",
        Held::Bytes(b"NCS V1.0B\0\0\0\x0f\x14@"),
        Status::Code,
        "refused in 13 typebyte\n",
        Held::Nothing,
    ),
    (
        "asm in out",
        Held::Bytes(b"JMP 00 @14\nRETN 00\n"),
        Status::Code,
        "refused in target 1\n",
        Held::Nothing,
    ),
    (
        "asm in out",
        Held::Bytes(b"FOO 00\n"),
        Status::Code,
        "refused in line 1\n",
        Held::Nothing,
    ),
    (
        "asm in out",
        Held::Bytes(b"; first\n\nRETN 00\nRETN 01\n"),
        Status::Code,
        "refused in line 4\n",
        Held::Nothing,
    ),
    (
        "tree in",
        Held::Changed(Sample::Tree, &[(4, 0x3333_3356)]),
        Status::Area,
        "refused in version\n",
        Held::Nothing,
    ),
    (
        "tree in",
        Held::Changed(Sample::Tree, &[(12, 0)]),
        Status::Area,
        "refused in range struct 0\n",
        Held::Nothing,
    ),
    (
        "tree in",
        Held::Changed(Sample::Tree, &[(64, 2)]),
        Status::Area,
        "refused in range index 0\n",
        Held::Nothing,
    ),
    (
        "tree in",
        Held::Changed(Sample::Tree, &[(68, 16)]),
        Status::Area,
        "refused in type 0\n",
        Held::Nothing,
    ),
    (
        "tree in",
        Held::Changed(Sample::Tree, &[(72, 1)]),
        Status::Area,
        "refused in range label 1\n",
        Held::Nothing,
    ),
    (
        "tree in",
        Held::Changed(Sample::Tree, &[(72, 7)]),
        Status::Area,
        "refused in range label 7\n",
        Held::Nothing,
    ),
    (
        "tree in",
        Held::Changed(Sample::Tree, &[(68, 7)]),
        Status::Area,
        "refused in range data 0\n",
        Held::Nothing,
    ),
    (
        "tree in",
        Held::Changed(Sample::Tree, &[(68, 14)]),
        Status::Area,
        "refused in range struct 7\n",
        Held::Nothing,
    ),
    (
        "tree in",
        Held::Changed(Sample::Tree, &[(68, 14), (76, 0)]),
        Status::Area,
        "refused in shared 0\n",
        Held::Nothing,
    ),
    (
        "tree in",
        Held::Changed(Sample::Tree, &[(68, 15)]),
        Status::Area,
        "refused in range list 7\n",
        Held::Nothing,
    ),
    (
        "tree in",
        Held::Changed(Sample::Tree, &[(16, 97)]),
        Status::Area,
        "refused in section 1\n",
        Held::Nothing,
    ),
    // The file of an area without objects but for its last byte.
    (
        "tree in",
        Held::First(Sample::Empty, 67),
        Status::Area,
        "refused in section 0\n",
        Held::Nothing,
    ),
];

/// The begins of a file are refused with one line.
pub const SHORT_TREE: Row = Row {
    line: "tree in",
    status: Status::Area,
    puts: Some(1),
    ..PLAIN
};

pub const SHORT_CODE: Row = Row {
    line: "check - in",
    status: Status::Code,
    puts: Some(1),
    ..PLAIN
};

/// The begins of the tree's file.
pub const TREES: &[Short] = &[
    (0, 56, "refused in short\n"),
    (56, 68, "refused in section 0\n"),
    (68, 80, "refused in section 1\n"),
    (80, 96, "refused in section 2\n"),
];

/// Those of a file of code, which is cut in its format's name or behind it.
pub const CODES: &[Short] = &[(0, 9, "refused in magic\n"), (9, 42, "refused in length\n")];

/// Words over a file `in`, what it holds, and the call of files that fails.
macro_rules! fault {
    ($line:expr, $sample:expr, $call:expr) => {
        Row {
            line: $line,
            own: &[("in", Held::Of($sample))],
            failing: Failing::File($call),
            status: Status::Fault,
            puts: Some(0),
            after: &[("out", Held::Nothing)],
            ..PLAIN
        }
    };
}

pub const FAULTS: &[Row] = &[
    fault!("tree in", Sample::Tree, 0),
    fault!("dis in out", Sample::Nothing, 0),
    fault!("dis in out", Sample::Nothing, 1),
    fault!("asm in out", Sample::Listing, 0),
    fault!("asm in out", Sample::Listing, 1),
    fault!("check - in", Sample::Sum, 0),
    fault!("check in in", Sample::Sum, 0),
];
