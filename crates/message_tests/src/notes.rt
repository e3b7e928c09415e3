//! Notes on plays that did their work, over files in memory.

use crate::rows::{Held, Row, are_said, are_said_used_up};

/// An area of one creature with the tag `CAT`, whose heartbeat is the script `cat`.
const CAT: &[u8] = b"\
    GIT V3.28\x00\x00\x00\x02\x00\x00\x00P\x00\x00\x00\x03\x00\x00\x00t\x00\x00\x00\
    \x03\x00\x00\x00\xa4\x00\x00\x00\x0b\x00\x00\x00\xaf\x00\x00\x00\x08\x00\x00\x00\
    \xb7\x00\x00\x00\x08\x00\x00\x00\xff\xff\xff\xff\x00\x00\x00\x00\x01\x00\x00\x00\
    \x00\x00\x00\x00\x00\x00\x00\x00\x02\x00\x00\x00\x0f\x00\x00\x00\x00\x00\x00\x00\
    \x00\x00\x00\x00\x0a\x00\x00\x00\x01\x00\x00\x00\x00\x00\x00\x00\x0b\x00\x00\x00\
    \x02\x00\x00\x00\x07\x00\x00\x00Creature List\x00\x00\x00Tag\x00\x00\x00\x00\x00\
    \x00\x00\x00\x00\x00\x00\x00\x00ScriptHeartbeat\x00\x03\x00\x00\x00CAT\x03cat\
    \x01\x00\x00\x00\x02\x00\x00\x00\x01\x00\x00\x00\x01\x00\x00\x00";

/// A file without lists of objects.
const NONE: &[u8] = b"\
    ARE V3.28\x00\x00\x00\x01\x00\x00\x00D\x00\x00\x00\x00\x00\x00\x00D\x00\x00\x00\
    \x00\x00\x00\x00D\x00\x00\x00\x00\x00\x00\x00D\x00\x00\x00\x00\x00\x00\x00D\x00\
    \x00\x00\x00\x00\x00\x00\xff\xff\xff\xff\xff\xff\xff\xff\x00\x00\x00\x00";

/// A state with two random numbers, and else nothing.
const TWO_LEFT: &[u8] = b"\
    NWQSAVE1\0\0\0\0\0\0\0\0\0\x02\xe8\x03\0\0\0\0\0\0\x0a\0\0\0\0\0\0\0\
    \x60\xea\0\0\0\0\0\0\0\0\0\0\0\0\0\0\x01\0\0\0\0\0\0\0\x03\0\0\0\0\0\0\0\
    \x01\0\0\0\0\0\0\0\x02\0\0\0\x01\0\0\0\x07\0\0\0\0\0\0\0\0\0\0\0";

/// The same with none.
const NONE_LEFT: &[u8] = b"\
    NWQSAVE1\0\0\0\0\0\0\0\0\0\x02\xe8\x03\0\0\0\0\0\0\x0a\0\0\0\0\0\0\0\
    \x60\xea\0\0\0\0\0\0\0\0\0\0\0\0\0\0\x01\0\0\0\0\0\0\0\x03\0\0\0\0\0\0\0\
    \x01\0\0\0\0\0\0\0\0\0\0\0\0\0\0\0\0\0\0\0";

/// A plan with random numbers.
const DICE: &[u8] = b"NWQ PLAN 1\nrandom 4\nrandom 1 2\n";

/// Plays and runs that ended with 0 or 5.
const NOTES: &[Row] = &[
    Row {
        words: &["nwq", "play", "-", "a.git", "a.plan", "b.git"],
        files: &[
            Held {
                name: "a.git",
                bytes: CAT,
            },
            Held {
                name: "a.plan",
                bytes: b"NWQ PLAN 1\n; event 0 0 X Y\nevent 0 0 ScriptHeartbeat CAT\n\
                    event 1 0 OnHeartbeat CAT\nstart 2 0 cat DOG\n\
                    event 3 1 ScriptHeartbeat CAT\nrandom 4\n",
            },
        ],
        number: 0,
        line: b"end done clock 3 entries 4 instructions 0\n",
        said: "a.plan:4:11: note: the object has no field `OnHeartbeat` for a script, so the \
            event does nothing\nevent 1 0 OnHeartbeat CAT\n          ^\na.plan:5:15: note: no \
            object has the tag `DOG`, so the script starts on none\nstart 2 0 cat \
            DOG\n              ^\na.plan:6:9: note: no object of this number has the tag `CAT`, \
            so the event does nothing\nevent 3 1 ScriptHeartbeat CAT\n        ^\n",
    },
    Row {
        words: &["nwq", "play", "-", "a.git", "a.plan", "b.git"],
        files: &[
            Held {
                name: "a.git",
                bytes: NONE,
            },
            Held {
                name: "a.plan",
                bytes: b"NWQ PLAN 1\nscript p\n",
            },
            Held {
                name: "p.nss",
                bytes: b"void main() { PrintInteger(Random(6)); }",
            },
        ],
        number: 5,
        line: b"end entries clock 0 entries 1 instructions 0\n",
        said: "a.git: note: the file has none of the lists of objects, as an `.are` file has \
            none\na.plan: note: the script `p` calls `Random`, which gives 0: the play has no \
            random numbers\n",
    },
    Row {
        words: &["nwq", "run", "-", "p"],
        files: &[Held {
            name: "p.nss",
            bytes: b"void main() { PrintInteger(Random(6)); }",
        }],
        number: 0,
        line: b"end done clock 0 entries 1 instructions 9\n",
        said: "p.nss: note: the script `p` calls `Random`, which gives 0: the play has no random \
            numbers\n",
    },
    Row {
        words: &["nwq", "run", "-", "p"],
        files: &[Held {
            name: "p.nss",
            bytes: b"void main() { PrintInteger(6); }",
        }],
        number: 0,
        line: b"end done clock 0 entries 1 instructions 9\n",
        said: "",
    },
];

/// Plays of which the program remarks that they left no random numbers.
const USED_UP: &[Row] = &[
    Row {
        words: &["nwq", "play", "-", "a.git", "a.plan", "b.git"],
        files: &[
            Held {
                name: "a.git",
                bytes: CAT,
            },
            Held {
                name: "a.plan",
                bytes: DICE,
            },
        ],
        number: 5,
        line: b"end entries clock 3 entries 4 instructions 30\n",
        said: "a.plan: note: the plan's random numbers, 3 in all, are used up: each further \
            `Random` gives 0\n",
    },
    // Of a plan that gives none, another note tells.
    Row {
        words: &["nwq", "play", "-", "a.git", "a.plan", "b.git"],
        files: &[
            Held {
                name: "a.git",
                bytes: CAT,
            },
            Held {
                name: "a.plan",
                bytes: b"NWQ PLAN 1\nscript p\n",
            },
            Held {
                name: "p.nss",
                bytes: b"void main() { PrintInteger(Random(6)); }",
            },
        ],
        number: 0,
        line: b"end done clock 0 entries 1 instructions 9\n",
        said: "a.plan: note: the script `p` calls `Random`, which gives 0: the play has no random \
            numbers\n",
    },
    Row {
        words: &["nwq", "resume", "s.nwq", "b.git"],
        files: &[Held {
            name: "s.nwq",
            bytes: TWO_LEFT,
        }],
        number: 0,
        line: b"end done clock 3 entries 4 instructions 30\n",
        said: "s.nwq: note: the state's random numbers, 2 in all, are used up: each further \
            `Random` gives 0\n",
    },
    Row {
        words: &["nwq", "resume", "s.nwq", "b.git"],
        files: &[Held {
            name: "s.nwq",
            bytes: NONE_LEFT,
        }],
        number: 0,
        line: b"end done clock 3 entries 4 instructions 30\n",
        said: "",
    },
    // The file of the state has another one's bytes by now.
    Row {
        words: &["nwq", "resume", "s.nwq", "s.nwq"],
        files: &[Held {
            name: "s.nwq",
            bytes: CAT,
        }],
        number: 0,
        line: b"end done clock 3 entries 4 instructions 30\n",
        said: "s.nwq: note: the command read this file as STATE, and then wrote over it\n",
    },
];

/// Commands that wrote over a file that they read, and some that didn't.
const OVERWRITTEN: &[Row] = &[
    Row {
        words: &["nwq", "play", "-", "a.git", "a.plan", "a.git"],
        files: &[],
        number: 0,
        line: b"end done clock 0 entries 0 instructions 0\n",
        said: "a.git: note: the command read this file as AREA, and then wrote over it\n",
    },
    Row {
        words: &["nwq", "play", "h.nss", "a.git", "a.plan", "h.nss", "a.git"],
        files: &[],
        number: 0,
        line: b"end done clock 0 entries 0 instructions 0\n",
        said: "h.nss: note: the command read this file as HEADER, and then wrote over it\n",
    },
    // A limit ended the play: nothing was written.
    Row {
        words: &["nwq", "play", "-", "a.git", "a.plan", "a.git"],
        files: &[],
        number: 5,
        line: b"end entries clock 0 entries 0 instructions 0\n",
        said: "",
    },
    Row {
        words: &["nwq", "play", "-", "a.git", "a.plan", "cat.nss"],
        files: &[Held {
            name: "a.plan",
            bytes: b"NWQ PLAN 1\nbinary dog\nscript cat\n",
        }],
        number: 0,
        line: b"end done clock 0 entries 0 instructions 0\n",
        said: "cat.nss: note: the command read this file as a script of the plan, and then wrote \
            over it\n",
    },
    // A file that the command made is no input, and a binary has no source.
    Row {
        words: &["nwq", "play", "-", "a.git", "a.plan", "cat.ncs"],
        files: &[Held {
            name: "a.plan",
            bytes: b"NWQ PLAN 1\nbinary dog\nscript cat\n",
        }],
        number: 0,
        line: b"end done clock 0 entries 0 instructions 0\n",
        said: "",
    },
    Row {
        words: &["nwq", "save", "-", "a.git", "a.plan", "4", "dog.ncs"],
        files: &[Held {
            name: "a.plan",
            bytes: b"NWQ PLAN 1\nbinary dog\nscript cat\n",
        }],
        number: 0,
        line: b"saved dog.ncs entries 4\n",
        said: "dog.ncs: note: the command read this file as a script of the plan, and then wrote \
            over it\n",
    },
    Row {
        words: &[
            "nwq", "save", "-", "a.git", "a.plan", "4", "a.plan", "a.git",
        ],
        files: &[],
        number: 0,
        line: b"saved a.plan entries 4\n",
        said: "a.plan: note: the command read this file as PLAN, and then wrote over it\n",
    },
    Row {
        words: &["nwq", "resume", "s.nwq", "t.txt", "t.txt"],
        files: &[],
        number: 0,
        line: b"end done clock 3 entries 4 instructions 30\n",
        said: "t.txt: note: the command read this file as TABLES, and then wrote over it\n",
    },
    Row {
        words: &["nwq", "dis", "p.ncs", "p.ncs"],
        files: &[],
        number: 0,
        line: b"disassembled p.ncs 2\n",
        said: "p.ncs: note: the command read this file as FILE, and then wrote over it\n",
    },
    Row {
        words: &["nwq", "asm", "p.txt", "p.ncs"],
        files: &[],
        number: 0,
        line: b"assembled p.ncs 2\n",
        said: "",
    },
    Row {
        words: &["nwq", "compile", "q.ncs", "q"],
        files: &[],
        number: 0,
        line: b"compiled q.ncs 23\n",
        said: "q.ncs: note: the command read this file as HEADER, and then wrote the code of a \
            script over it\n",
    },
    Row {
        words: &["nwq", "compile", "q.nss", "q"],
        files: &[],
        number: 0,
        line: b"compiled q.ncs 23\n",
        said: "",
    },
    // Code is written before a limit ends the play.
    Row {
        words: &["nwq", "play", "-", "a.git", "a.plan", "b.git", "cat.ncs"],
        files: &[Held {
            name: "a.plan",
            bytes: b"NWQ PLAN 1\nbinary dog\nscript cat\n",
        }],
        number: 5,
        line: b"end entries clock 0 entries 0 instructions 0\n",
        said: "cat.ncs: note: the command read this file as TABLES, and then wrote the code of a \
            script over it\n",
    },
    // A binary is only read.
    Row {
        words: &["nwq", "play", "dog.ncs", "a.git", "a.plan", "b.git"],
        files: &[Held {
            name: "a.plan",
            bytes: b"NWQ PLAN 1\nbinary dog\nscript cat\n",
        }],
        number: 0,
        line: b"end done clock 0 entries 0 instructions 0\n",
        said: "",
    },
    // Written twice: the code of a script, and the state.
    Row {
        words: &["nwq", "save", "cat.ncs", "a.git", "a.plan", "4", "cat.ncs"],
        files: &[Held {
            name: "a.plan",
            bytes: b"NWQ PLAN 1\nscript cat\n",
        }],
        number: 0,
        line: b"saved cat.ncs entries 4\n",
        said: "cat.ncs: note: the command read this file as HEADER, and then wrote the code of a \
            script over it\ncat.ncs: note: the command read this file as HEADER, and then wrote \
            over it\n",
    },
];

/// Plays that were saved: what is left stands in the state, unless a limit stopped an entry.
const SAVED: &[Row] = &[
    Row {
        words: &["nwq", "save", "-", "a.git", "a.plan", "4", "s.nwq"],
        files: &[
            Held {
                name: "a.git",
                bytes: CAT,
            },
            Held {
                name: "a.plan",
                bytes: DICE,
            },
            Held {
                name: "s.nwq",
                bytes: NONE_LEFT,
            },
        ],
        number: 0,
        line: b"saved s.nwq entries 4\n",
        said: "a.plan: note: the plan's random numbers, 3 in all, are used up: each further \
            `Random` gives 0\n",
    },
    Row {
        words: &["nwq", "save", "-", "a.git", "a.plan", "4", "s.nwq"],
        files: &[
            Held {
                name: "a.git",
                bytes: CAT,
            },
            Held {
                name: "a.plan",
                bytes: DICE,
            },
            Held {
                name: "s.nwq",
                bytes: TWO_LEFT,
            },
        ],
        number: 0,
        line: b"saved s.nwq entries 4\n",
        said: "",
    },
    Row {
        words: &["nwq", "save", "-", "a.git", "a.plan", "4", "s.nwq"],
        files: &[
            Held {
                name: "a.git",
                bytes: CAT,
            },
            Held {
                name: "a.plan",
                bytes: DICE,
            },
            Held {
                name: "s.nwq",
                bytes: NONE_LEFT,
            },
        ],
        number: 5,
        line: b"end instructions clock 3 entries 4 instructions 30\n",
        said: "",
    },
];

#[test]
fn notes(rt: HostRuntime) {
    assert!(rt; are_said(rt.alloc(), NOTES));
}

#[test]
fn random_numbers(rt: HostRuntime) {
    assert!(rt; are_said_used_up(rt.alloc(), USED_UP));
    assert!(rt; are_said(rt.alloc(), SAVED));
}

#[test]
fn inputs_that_are_gone(rt: HostRuntime) {
    assert!(rt; are_said(rt.alloc(), OVERWRITTEN));
}
