//! Worked examples of plays: what a plan, its scripts and an area come to.

use nwq_top::Status;
use test_rows::answers::{Failing, Held, PLAIN, Row};
use test_rows::samples::Sample;

/// Plans over an area.
pub const ROWS: &[Row] = &[
    // An action argument is captured before the arguments to its left are evaluated.
    Row {
        line: "play - a.git x.plan f.git",
        own: &[
            (
                "x.plan",
                Held::Bytes(b"NWQ PLAN 1\nscript p\nstart 0 0 p 0\n"),
            ),
            (
                "p.nss",
                Held::Bytes(
                    b"void main() { int n=0; AssignCommand(GetObjectByTag(IntToString(n++)), \
                    PrintInteger(n)); PrintInteger(n); }",
                ),
            ),
            ("a.git", Held::Of(Sample::Zero)),
        ],
        text: "0 #1 print 1\n0 #1 print 0\nend done clock 0 entries 2 instructions 18\n",
        after: &[("f.git", Held::Of(Sample::Zero))],
        ..PLAIN
    },
    // Actions that are cleared while one of them waits: its Turn stays in version 1, and goes in
    // version 2.
    Row {
        line: "play - a.git x.plan f.git",
        own: &[
            (
                "x.plan",
                Held::Bytes(
                    b"NWQ PLAN 1\nscript a\nscript b\nstart 0 0 a guard\nstart 1000 0 b guard\n",
                ),
            ),
            (
                "a.nss",
                Held::Bytes(b"void main() { ActionWait(2000); ActionSpeakString(\"hi\"); }"),
            ),
            ("b.nss", Held::Bytes(b"void main() { ClearAllActions(); }")),
            ("a.git", Held::Of(Sample::Guard)),
        ],
        text: "end done clock 2000 entries 4 instructions 13\n",
        after: &[("f.git", Held::Of(Sample::Guard))],
        ..PLAIN
    },
    Row {
        line: "play - a.git x.plan f.git",
        own: &[
            (
                "x.plan",
                Held::Bytes(
                    b"NWQ PLAN 2\nscript a\nscript b\nstart 0 0 a guard\nstart 1000 0 b guard\n",
                ),
            ),
            (
                "a.nss",
                Held::Bytes(b"void main() { ActionWait(2000); ActionSpeakString(\"hi\"); }"),
            ),
            ("b.nss", Held::Bytes(b"void main() { ClearAllActions(); }")),
            ("a.git", Held::Of(Sample::Guard)),
        ],
        text: "end done clock 1000 entries 3 instructions 13\n",
        after: &[("f.git", Held::Of(Sample::Guard))],
        ..PLAIN
    },
    // A script that the plan doesn't list.
    Row {
        line: "play - a.git x.plan f.git",
        own: &[
            ("x.plan", Held::Bytes(b"NWQ PLAN 1\nstart 0 - q\n")),
            ("a.git", Held::Of(Sample::Guard)),
        ],
        text: "0 #0 noscript q\nend done clock 0 entries 1 instructions 0\n",
        after: &[("f.git", Held::Of(Sample::Guard))],
        ..PLAIN
    },
    // A division by zero in an executed script ends the whole entry.
    Row {
        line: "play - a.git x.plan f.git",
        own: &[
            (
                "x.plan",
                Held::Bytes(b"NWQ PLAN 1\nscript s\nscript t\nstart 0 - s\n"),
            ),
            (
                "s.nss",
                Held::Bytes(
                    b"int g=1; void main() { ExecuteScript(\"t\", GetObjectByTag(\"guard\")); \
                    PrintInteger(g); }",
                ),
            ),
            ("t.nss", Held::Bytes(b"void main() { PrintInteger(1/0); }")),
            ("a.git", Held::Of(Sample::Guard)),
        ],
        text: "0 #1 fault divide\nend done clock 0 entries 1 instructions 13\n",
        after: &[("f.git", Held::Of(Sample::Guard))],
        ..PLAIN
    },
    // A signalled event is an entry of its own, with its number.
    Row {
        line: "play - a.git x.plan f.git",
        own: &[
            (
                "x.plan",
                Held::Bytes(b"NWQ PLAN 2\nscript s\nscript usr\nstart 0 0 s guard\n"),
            ),
            (
                "s.nss",
                Held::Bytes(
                    b"void main() { SignalEvent(OBJECT_SELF, EventUserDefined(7)); \
                    PrintInteger(GetUserDefinedEventNumber()); }",
                ),
            ),
            (
                "usr.nss",
                Held::Bytes(b"void main() { PrintInteger(GetUserDefinedEventNumber()); }"),
            ),
            ("a.git", Held::Of(Sample::Notified)),
        ],
        text: "0 #1 print 0\n0 #1 print 7\nend done clock 0 entries 2 instructions 14\n",
        after: &[("f.git", Held::Of(Sample::Notified))],
        ..PLAIN
    },
    // As many instructions as the limit allows.
    Row {
        line: "play - a.git x.plan f.git",
        own: &[
            (
                "x.plan",
                Held::Bytes(b"NWQ PLAN 1\nlimit 7\nscript p\nstart 0 - p\n"),
            ),
            ("p.nss", Held::Bytes(b"void main() { PrintInteger(2+3); }")),
            ("a.git", Held::Of(Sample::Guard)),
        ],
        text: "0 #0 print 5\nend done clock 0 entries 1 instructions 7\n",
        after: &[
            ("p.ncs", Held::Of(Sample::Sum)),
            ("f.git", Held::Of(Sample::Guard)),
        ],
        ..PLAIN
    },
    // An effect for half a second.
    Row {
        line: "play - a.git x.plan f.git",
        own: &[
            (
                "x.plan",
                Held::Bytes(b"NWQ PLAN 1\nscript p\nstart 0 - p\n"),
            ),
            (
                "p.nss",
                Held::Bytes(
                    b"void main() { ApplyEffectToObject(1, EffectDamage(3), \
                    GetObjectByTag(\"guard\"), 500); }",
                ),
            ),
            ("a.git", Held::Of(Sample::Guard)),
        ],
        text: "0 #0 call EffectDamage(3,8,0)\n0 #1 apply 1 25(3,8,0)\n500 #1 expire 25(3,8,0)\n\
            end done clock 500 entries 2 instructions 13\n",
        after: &[("f.git", Held::Of(Sample::Guard))],
        ..PLAIN
    },
    // One variable is set; all else of the file stays, fields that nobody knows among it.
    Row {
        line: "play - a.git x.plan f.git",
        own: &[
            (
                "x.plan",
                Held::Bytes(b"NWQ PLAN 1\nscript p\nstart 0 0 p gob\n"),
            ),
            (
                "p.nss",
                Held::Bytes(b"void main() { SetLocalInt(OBJECT_SELF, \"num\", 41); }"),
            ),
            ("a.git", Held::Of(Sample::Goblin)),
        ],
        text: "end done clock 0 entries 1 instructions 7\n",
        after: &[("f.git", Held::Of(Sample::ChangedGoblin))],
        ..PLAIN
    },
    // The guard's rounds by the code file in place of the source.
    Row {
        line: "play - a.git x.plan f.git",
        own: &[
            (
                "x.plan",
                Held::Bytes(
                    b"NWQ PLAN 1\nbinary tick\nevent 0 0 ScriptHeartbeat guard\nevent 6000 0 \
                    ScriptHeartbeat guard\n",
                ),
            ),
            ("tick.ncs", Held::Of(Sample::Tick)),
            ("a.git", Held::Of(Sample::Five)),
        ],
        text: "0 #1 speak round 6\n6000 #1 print 6\n6000 #1 speak round 7\n12000 #1 print 7\n\
            end done clock 12000 entries 6 instructions 64\n",
        after: &[
            ("tick.ncs", Held::Of(Sample::Tick)),
            ("f.git", Held::Of(Sample::Seven)),
        ],
        ..PLAIN
    },
    // A script that isn't there: the one before it was compiled.
    Row {
        line: "play - a.git x.plan f.git",
        own: &[
            (
                "x.plan",
                Held::Bytes(b"NWQ PLAN 1\nscript a\nscript b\nstart 0 - a\n"),
            ),
            ("a.nss", Held::Bytes(b"void main() {}")),
            ("a.git", Held::Of(Sample::Guard)),
        ],
        status: Status::Missing,
        puts: Some(1),
        text: "missing b.nss\n",
        after: &[
            ("a.ncs", Held::Of(Sample::Nothing)),
            ("b.ncs", Held::Nothing),
            ("f.git", Held::Nothing),
        ],
        ..PLAIN
    },
    // A file of code that copies from beneath its stack.
    Row {
        line: "play - a.git x.plan f.git",
        own: &[
            (
                "x.plan",
                Held::Bytes(b"NWQ PLAN 1\nbinary e\nstart 0 - e\n"),
            ),
            (
                "e.ncs",
                Held::Bytes(b"NCS V1.0B\0\0\0\x17\x03\x01\xff\xff\xff\xfc\0\x04\x20\0"),
            ),
            ("a.git", Held::Of(Sample::Guard)),
        ],
        status: Status::Code,
        puts: Some(1),
        text: "refused e.ncs unstacked\n",
        after: &[("f.git", Held::Nothing)],
        ..PLAIN
    },
    // A limit of no instructions.
    Row {
        line: "play - a.git x.plan f.git",
        own: &[
            ("x.plan", Held::Bytes(b"NWQ PLAN 1\nlimit 0\n")),
            ("a.git", Held::Of(Sample::Tree)),
        ],
        status: Status::Area,
        text: "refused x.plan line 2\n",
        after: &[("f.git", Held::Nothing)],
        ..PLAIN
    },
    // A version that no plan has.
    Row {
        line: "play - a.git x.plan f.git",
        own: &[
            ("x.plan", Held::Bytes(b"NWQ PLAN 9\n")),
            ("a.git", Held::Of(Sample::Tree)),
        ],
        status: Status::Area,
        text: "refused x.plan line 1\n",
        after: &[("f.git", Held::Nothing)],
        ..PLAIN
    },
];
