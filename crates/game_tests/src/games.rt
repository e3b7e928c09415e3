//! Plans that are played over areas.

use nwq_top::Status;
use test_rows::answers::{Held, Named, PLAIN, Row};
use test_rows::bases::Base;
use test_rows::contents::GUARDED;
use test_rows::samples::Sample;

/// What stands after a play that was refused before its scripts were compiled.
pub const NO_FILES: &[Named] = &[
    ("a.ncs", Held::Nothing),
    ("b.ncs", Held::Nothing),
    ("f.git", Held::Nothing),
];

/// What stands after a play that was refused behind its scripts.
pub const TWO_FILES: &[Named] = &[
    ("a.ncs", Held::Of(Sample::FirstSum)),
    ("b.ncs", Held::Of(Sample::Nothing)),
    ("f.git", Held::Nothing),
];

/// Plays that are done.
pub const DONE: &[Row] = &[
    Row {
        line: "play - a.git x.plan f.git",
        base: Base::Rounds,
        // Four lines, of an entry each, and the end.
        puts: Some(5),
        text: "0 #1 speak round 6\n6000 #1 print 6\n6000 #1 speak round 7\n12000 #1 print 7\n\
            end done clock 12000 entries 6 instructions 64\n",
        after: &[
            ("tick.ncs", Held::Of(Sample::Tick)),
            ("f.git", Held::Of(Sample::Seven)),
        ],
        ..PLAIN
    },
    Row {
        line: "play h.nss a.git x.plan f.git",
        base: Base::Three,
        puts: Some(3),
        text: "0 #0 print 5\n20 #1 print 5\nend done clock 20 entries 3 instructions 17\n",
        after: &[
            ("a.ncs", Held::Of(Sample::FirstSum)),
            ("b.ncs", Held::Of(Sample::Nothing)),
            ("c.ncs", Held::Of(Sample::FirstSum)),
            ("inc.ncs", Held::Nothing),
            ("f.git", Held::Of(Sample::Guard)),
        ],
        ..PLAIN
    },
    Row {
        line: "play - a.git x.plan f.git",
        own: &[
            ("x.plan", Held::Bytes(b"NWQ PLAN 1\n")),
            ("a.git", Held::Of(Sample::Tree)),
        ],
        puts: Some(1),
        text: "end done clock 0 entries 0 instructions 0\n",
        after: &[("f.git", Held::Of(Sample::Tree))],
        ..PLAIN
    },
    // A script that is executed has globals of its own, and its lines are put with its entry's.
    Row {
        line: "play - a.git x.plan f.git",
        own: &[
            (
                "x.plan",
                Held::Bytes(b"NWQ PLAN 1\nscript s\nscript t\nstart 0 - s\n"),
            ),
            (
                "s.nss",
                Held::Bytes(
                    b"int g=1; void main() { \
                ExecuteScript(\"t\", GetObjectByTag(\"guard\")); PrintInteger(g); }",
                ),
            ),
            (
                "t.nss",
                Held::Bytes(b"int g=5; void main() { g=6; PrintInteger(g); }"),
            ),
            GUARDED,
        ],
        puts: Some(2),
        text: "0 #1 print 6\n0 #0 print 1\nend done clock 0 entries 1 instructions 30\n",
        after: &[("f.git", Held::Of(Sample::Guard))],
        ..PLAIN
    },
    // Plays that are made from a number: no file is read or written.
    Row {
        line: "generate 0",
        puts: Some(1),
        text: "generated creatures 1 events 1 lines 3 bytes 42\n\
            end done clock 100 entries 5 instructions 87\n",
        after: &[("beat.ncs", Held::Nothing)],
        ..PLAIN
    },
    Row {
        line: "generate 9099",
        puts: Some(1),
        text: "generated creatures 100 events 1000 lines 3000 bytes 58440\n\
            end done clock 10000 entries 5000 instructions 209200\n",
        after: &[("beat.ncs", Held::Nothing)],
        ..PLAIN
    },
];

/// Plays that a limit ends: the area that is left is left as it was.
pub const ENDED: &[Row] = &[
    Row {
        line: "play - a.git x.plan f.git",
        own: &[
            (
                "x.plan",
                Held::Bytes(b"NWQ PLAN 1\nlimit 6\nscript p\nstart 0 - p\n"),
            ),
            ("p.nss", Held::Bytes(b"void main() { PrintInteger(2+3); }")),
            GUARDED,
            ("f.git", Held::Bytes(b"before")),
        ],
        status: Status::Limit,
        puts: Some(2),
        text: "0 #0 print 5\nend instructions clock 0 entries 1 instructions 6\n",
        after: &[
            ("p.ncs", Held::Of(Sample::Sum)),
            ("f.git", Held::Bytes(b"before")),
        ],
        ..PLAIN
    },
    Row {
        line: "play - a.git x.plan f.git",
        own: &[
            (
                "x.plan",
                Held::Bytes(b"NWQ PLAN 1\nentries 5\nscript s\nstart 0 0 s guard\n"),
            ),
            (
                "s.nss",
                Held::Bytes(b"void F() { AssignCommand(OBJECT_SELF, F()); } void main() { F(); }"),
            ),
            GUARDED,
        ],
        status: Status::Limit,
        puts: Some(1),
        text: "due 0 5 stored #1 s\nend entries clock 0 entries 5 instructions 37\n",
        after: &[("f.git", Held::Nothing)],
        ..PLAIN
    },
];

/// The play of three with another file under one name, and how it is refused.
macro_rules! refused {
    ($name:expr, $held:expr, $status:expr, $text:expr, $after:expr) => {
        Row {
            line: "play h.nss a.git x.plan f.git",
            base: Base::Three,
            own: &[($name, $held)],
            status: $status,
            puts: Some(1),
            text: $text,
            after: $after,
            ..PLAIN
        }
    };
}

/// The play of three, refused at each of its steps.
pub const REFUSED: &[Row] = &[
    refused!(
        "x.plan",
        Held::Bytes(b"NWQ PLAN 3\n"),
        Status::Area,
        "refused x.plan line 1\n",
        NO_FILES
    ),
    refused!(
        "x.plan",
        Held::Bytes(b"NWQ PLAN 1\nscript a\nscript a\n"),
        Status::Area,
        "refused x.plan line 3\n",
        NO_FILES
    ),
    refused!(
        "h.nss",
        Held::Bytes(b"int A(); int A();"),
        Status::Script,
        "refused h.nss 1 13 twice\n",
        NO_FILES
    ),
    refused!(
        "a.nss",
        Held::Bytes(b"void main() {"),
        Status::Script,
        "refused a.nss 1 13 syntax\n",
        NO_FILES
    ),
    refused!(
        "a.nss",
        Held::Bytes(b"void main() { 1 = 2; }"),
        Status::Script,
        "refused a.nss 1 16 notplace\n",
        NO_FILES
    ),
    refused!(
        "inc.nss",
        Held::Bytes(b"int 5;"),
        Status::Script,
        "refused inc.nss 1 4 syntax\n",
        NO_FILES
    ),
    refused!(
        "b.nss",
        Held::Bytes(b""),
        Status::Script,
        "refused b.nss 1 0 entry\n",
        &[
            ("a.ncs", Held::Of(Sample::FirstSum)),
            ("b.ncs", Held::Nothing),
            ("f.git", Held::Nothing),
        ]
    ),
    refused!(
        "c.ncs",
        Held::Bytes(b"NCS V1.0"),
        Status::Code,
        "refused c.ncs magic\n",
        TWO_FILES
    ),
    // Under this header there is one routine.
    refused!(
        "c.ncs",
        Held::Of(Sample::Sum),
        Status::Code,
        "refused c.ncs unstacked\n",
        TWO_FILES
    ),
    refused!(
        "a.git",
        Held::Bytes(b"GIT V3.2"),
        Status::Area,
        "refused a.git short\n",
        TWO_FILES
    ),
    refused!(
        "a.git",
        Held::Of(Sample::Broken),
        Status::Area,
        "refused a.git shape 3 0 0\n",
        TWO_FILES
    ),
];

/// The front of an area as large as a file may be: the guard with a VOID `Fill` beside the list.
const LARGE_FRONT: &[u8] = b"\
    GIT V3.28\0\0\0\x02\0\0\0P\0\0\0\x04\0\0\0\x80\0\0\0\x04\0\0\0\xc0\0\0\0(\xff\xff\0\
    \xe8\xff\xff\0\x10\0\0\0\xf8\xff\xff\0\x08\0\0\0\xff\xff\xff\xff\0\0\0\0\x02\0\0\0\
    \x04\0\0\0\x08\0\0\0\x02\0\0\0\x0f\0\0\0\0\0\0\0\0\0\0\0\x0d\0\0\0\x01\0\0\0\0\0\0\0\
    \x0a\0\0\0\x02\0\0\0\x1a\xff\xff\0\x0b\0\0\0\x03\0\0\0#\xff\xff\0Creature List\0\0\0\
    Fill\0\0\0\0\0\0\0\0\0\0\0\0Tag\0\0\0\0\0\0\0\0\0\0\0\0\0ScriptHeartbeat\0\x16\xff\xff\0";

/// How many bytes of the VOID stand between front and rest.
const LARGE_FILL: usize = 16_776_982;

/// The rest of that area.
const LARGE_REST: &[u8] = b"\
    \x05\0\0\0guard\x04tick\0\0\0\0\x01\0\0\0\x02\0\0\0\x03\0\0\0\x01\0\0\0\x01\0\0\0";

/// The largest area.
const LARGE_AREA: Held = Held::Repeated(&[LARGE_FRONT], 0, LARGE_FILL, LARGE_REST);

/// The play of a script over this area, how it ends, what it prints, and what is left.
macro_rules! played_over {
    ($source:expr, $status:expr, $text:expr, $left:expr) => {
        Row {
            line: "play - a.git x.plan f.git",
            own: &[
                (
                    "x.plan",
                    Held::Bytes(b"NWQ PLAN 1\nscript s\nstart 0 0 s guard\n"),
                ),
                ("s.nss", Held::Bytes($source)),
                ("a.git", LARGE_AREA),
                ("f.git", Held::Bytes(b"before")),
            ],
            status: $status,
            puts: Some(2),
            text: $text,
            after: &[("f.git", $left)],
            ..PLAIN
        }
    };
}

/// Scripts that are played over an area as large as a file may be: the area that is left is written
/// or not. A new variable takes 153 bytes: with its table a field of 12 bytes, an index of 4, a
/// label of 16 and a list of 8, and its entry a struct of 12, three fields of 36, their indices of
/// 12 and labels of 48, and a name of 5.
pub const LARGE: &[Row] = &[
    played_over!(
        b"void main() { PrintInteger(7); }",
        Status::Done,
        "0 #1 print 7\nend done clock 0 entries 1 instructions 5\n",
        LARGE_AREA
    ),
    played_over!(
        b"void main() { SetLocalInt(OBJECT_SELF, \"n\", 1); PrintInteger(7); }",
        Status::Area,
        "0 #1 print 7\nrefused f.git large 16777369\n",
        Held::Bytes(b"before")
    ),
];
