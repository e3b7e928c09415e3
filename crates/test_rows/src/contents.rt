//! What the names of each base hold.

use crate::answers::{Held, Named};
use crate::samples::Sample;

/// What scripts may include, beside themselves.
pub const INCLUDES: &[Named] = &[
    ("none.nss", Held::Bytes(b"// nothing\n")),
    ("head.nss", Held::Bytes(b"int a;\nint 5;")),
    ("front.nss", Held::Bytes(b"void main()")),
];

/// The example `examples/module`.
pub const MODULE: &[Named] = &[
    (
        "greet.nss",
        Held::Bytes(
            b"\
// A greeting at once, and a second one two seconds later. The include has the functions.
#include \"inc_lines\"

void main()
{
    int nGoblins = 1;
    Greet(Count(nGoblins, \"goblin\"));
    nGoblins = nGoblins + 2;
    DelayCommand(2000, Greet(Count(nGoblins, \"goblin\")));
    nGoblins = 0;    // too late: the delayed call keeps the 3
}
",
        ),
    ),
    (
        "inc_lines.nss",
        Held::Bytes(
            b"\
// Lines for scripts of this module.

// \"1 goblin\", \"3 goblins\"
string Count(int nCount, string sWhat)
{
    if (nCount == 1) return \"1 \" + sWhat;
    return IntToString(nCount) + \" \" + sWhat + \"s\";
}

void Greet(string sWho)
{
    SpeakString(\"Well met, \" + sWho + \"!\");
}
",
        ),
    ),
];

const PLAN_OF_THREE: Named = (
    "x.plan",
    Held::Bytes(
        b"NWQ PLAN 1\nscript a\nscript b\nbinary c\nstart 0 - a\nstart 10 - b\n\
            start 20 0 c guard\n",
    ),
);

const HEADER: Named = ("h.nss", Held::Bytes(b"void PrintInteger(int n);"));

const A: Named = (
    "a.nss",
    Held::Bytes(b"#include \"inc\"\nvoid main() { PrintInteger(2+3); }"),
);

const INCLUDE: Named = ("inc.nss", Held::Bytes(b"int Twice(int n);"));

const B: Named = ("b.nss", Held::Bytes(b"void main() {}"));

const C: Named = ("c.ncs", Held::Of(Sample::FirstSum));

pub const GUARDED: Named = ("a.git", Held::Of(Sample::Guard));

/// A plan of two scripts, of which one has an include, and of a binary, under a header.
pub const THREE: &[Named] = &[PLAN_OF_THREE, HEADER, A, INCLUDE, B, C, GUARDED];

/// A plan of two heartbeats of a guard, the script `tick` with its include, and the area.
pub const ROUNDS: &[Named] = &[
    (
        "x.plan",
        Held::Bytes(
            b"NWQ PLAN 1\nscript tick\nevent 0 0 ScriptHeartbeat guard\n\
                event 6000 0 ScriptHeartbeat guard\n",
        ),
    ),
    (
        "tick.nss",
        Held::Bytes(
            b"#include \"inc_util\"\nvoid main() { \
            int n = GetLocalInt(OBJECT_SELF, \"count\") + 1; \
            SetLocalInt(OBJECT_SELF, \"count\", n); \
            ActionSpeakString(Say(n)); \
            DelayCommand(6000, PrintInteger(n)); }",
        ),
    ),
    (
        "inc_util.nss",
        Held::Bytes(b"string Say(int n) { return \"round \" + IntToString(n); }"),
    ),
    ("a.git", Held::Of(Sample::Five)),
];

/// A header, a script with an include, and its play of two entries.
pub const SCRIPT: &[Named] = &[
    (
        "h.nss",
        Held::Bytes(b"void PrintInteger(int n); void DelayCommand(int ms, action a);"),
    ),
    (
        "p.nss",
        Held::Bytes(
            b"#include \"inc\"\nvoid main() { DelayCommand(5, Later()); PrintInteger(1); }",
        ),
    ),
    ("inc.nss", Held::Bytes(b"void Later() { PrintInteger(2); }")),
];

/// Effects that stand for a time and for good, queues with waits and stored actions, events with
/// user numbers that wait, random numbers of which some are used, and an executed script that
/// defers a part of its work.
pub const BUSY: &[Named] = &[
    (
        "h.nss",
        Held::Bytes(
            b"#define ENGINE_NUM_STRUCTURES 2\n\
        #define ENGINE_STRUCTURE_0 effect\n\
        #define ENGINE_STRUCTURE_1 event\n\
        int DURATION_TYPE_TEMPORARY = 1;\n\
        int DURATION_TYPE_PERMANENT = 2;\n\
        int Random(int n);\n\
        void PrintInteger(int n);\n\
        void PrintString(string s);\n\
        string IntToString(int n);\n\
        void DelayCommand(int ms, action a);\n\
        void ActionWait(int ms);\n\
        void ActionSpeakString(string s, int v = 0);\n\
        void ActionDoCommand(action a);\n\
        void ExecuteScript(string s, object o);\n\
        event EventUserDefined(int n);\n\
        void SignalEvent(object o, event e);\n\
        int GetUserDefinedEventNumber();\n\
        void SetLocalInt(object o, string s, int n);\n\
        void SetLocalString(object o, string s, string v);\n\
        string GetLocalString(object o, string s);\n\
        effect Glow(int n);\n\
        void ApplyEffectToObject(int d, effect e, object o, int ms = 0);\n",
        ),
    ),
    (
        "x.plan",
        Held::Bytes(
            b"NWQ PLAN 2\nrandom 3 1 4 1 5 9\nscript a\nscript b\nscript usr\n\
            start 0 0 a guard\nstart 1500 0 b guard\nstart 2500 0 a guard\n",
        ),
    ),
    (
        "a.nss",
        Held::Bytes(
            b"int nRound = 7;\n\
        void Later(int n, string s) { PrintString(s + IntToString(n + nRound)); }\n\
        void main() {\n\
        int n = Random(10);\n\
        ApplyEffectToObject(DURATION_TYPE_TEMPORARY, Glow(n), OBJECT_SELF, 2000);\n\
        ApplyEffectToObject(DURATION_TYPE_PERMANENT, Glow(n + 1), OBJECT_SELF);\n\
        nRound = nRound + n;\n\
        ActionWait(700); ActionSpeakString(\"now\"); ActionDoCommand(Later(n, \"do \"));\n\
        DelayCommand(1200, Later(n, \"later \"));\n\
        SignalEvent(OBJECT_SELF, EventUserDefined(40 + n));\n\
        ExecuteScript(\"b\", OBJECT_SELF);\n\
        SetLocalString(OBJECT_SELF, \"said\", \"round \" + IntToString(n));\n\
        SetLocalInt(OBJECT_SELF, \"said\", n); }",
        ),
    ),
    (
        "b.nss",
        Held::Bytes(
            b"void main() { int n = Random(5); \
        DelayCommand(900, PrintString(\"b \" + IntToString(n))); \
        ActionWait(300); PrintString(GetLocalString(OBJECT_SELF, \"said\")); }",
        ),
    ),
    (
        "usr.nss",
        Held::Bytes(b"void main() { PrintInteger(GetUserDefinedEventNumber()); }"),
    ),
    ("a.git", Held::Of(Sample::Notified)),
];

/// A plan that starts `p`, which defers a part of its work.
pub const PLAN_OF_ONE: Named = (
    "x.plan",
    Held::Bytes(b"NWQ PLAN 1\nscript p\nstart 0 - p\n"),
);

pub const DEFERS: Named = (
    "p.nss",
    Held::Bytes(
        b"void main() { int n=1; DelayCommand(1000, PrintInteger(n)); n=2; PrintInteger(n); }",
    ),
);

pub const OLD: Named = ("s.nwq", Held::Bytes(b"an older state"));

/// What a play is saved from in which `p` defers a part of its work, beside an older state.
pub const SAVED: &[Named] = &[PLAN_OF_ONE, DEFERS, GUARDED, OLD];

const TABLE: Named = (
    "x.2da",
    Held::Bytes(b"2DA V2.0\n\n LABEL COST\n0 Sword 10\n1 **** 5\n"),
);

const LIST: Named = ("t.txt", Held::Bytes(b"x\n"));

pub const EMPTY_AREA: Named = ("a.git", Held::Of(Sample::Empty));

/// All but the script.
pub const CELLS: &[Named] = &[PLAN_OF_ONE, EMPTY_AREA, LIST, TABLE];

/// Two scripts, of which one is none.
pub const TWO: &[Named] = &[
    ("p.nss", Held::Bytes(b"void main() { PrintInteger(2+3); }")),
    ("q.nss", Held::Bytes(b"void main() {")),
];

/// An area, a script that draws one random number, and plans that start it: with no number, with as
/// many as it draws, and with one more.
pub const RANDOMS: &[Named] = &[
    ("a.git", Held::Of(Sample::Notified)),
    (
        "r.nss",
        Held::Bytes(b"void main() { PrintInteger(Random(6)); }"),
    ),
    (
        "none.plan",
        Held::Bytes(b"NWQ PLAN 2\nscript r\nstart 0 - r\n"),
    ),
    (
        "used.plan",
        Held::Bytes(b"NWQ PLAN 2\nrandom 3 1\nscript r\nstart 0 - r\nstart 1 - r\n"),
    ),
    (
        "left.plan",
        Held::Bytes(b"NWQ PLAN 2\nrandom 3 1 4\nscript r\nstart 0 - r\nstart 1 - r\n"),
    ),
];

/// An area, a script that divides by 0 in a call, and a plan that starts it twice.
pub const DIVIDED: &[Named] = &[
    ("a.git", Held::Of(Sample::Notified)),
    (
        "d.nss",
        Held::Bytes(
            b"int Half(int n) {\n    return 1 / n;\n}\n\nvoid main() {\n    \
                PrintInteger(Half(0));\n}\n",
        ),
    ),
    (
        "d.plan",
        Held::Bytes(b"NWQ PLAN 2\nscript d\nstart 5 - d\nstart 9 - d\n"),
    ),
];
