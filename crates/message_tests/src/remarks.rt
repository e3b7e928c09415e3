//! Notes on entries that ended before their end, with all that is said. The places are those of the
//! code that the compiler makes of these scripts.

use crate::rows::Held;
use command_messages::{End, tell_end};
use nwq_outside::{MemFiles, MemSink};
use nwq_value::{NoMemory, Text};
use play_remarks::{Ending, Remark, Spot};
use std::alloc::Global;

/// Globals, so that the start of its code calls twice. The division stands at 101.
const GUARD: &[u8] = b"\
    #include \"lib\"\nint g = 4;\n\nint Share(int nSum, int nCount) {\n\
    \x20   int n = nSum / nCount;\n    return n;\n}\n\nvoid main() {\n\
    \x20   PrintInteger(Share(7, 0));\n}\n";

const LIB: &[u8] = b"int Part(int n) {\n    return 100 % n;\n}\n";

/// Three actions: one that is delayed, one that is assigned and one in a queue.
const LATER: &[u8] = b"\
    #include \"lib\"\nvoid Tell(int n) {\n    PrintInteger(Part(n));\n}\n\nvoid main() {\n\
    \x20   int nGold = 3;\n    int nHeirs = 0;\n\
    \x20   DelayCommand(6, PrintInteger(nGold / nHeirs));\n\
    \x20   AssignCommand(OBJECT_SELF, Tell(nHeirs));\n\
    \x20   ActionDoCommand(ExecuteScript(\"guard\", OBJECT_SELF));\n}\n";

/// A recursion and a loop without end.
const DEEP: &[u8] = b"\
    int Deep(int n) {\n    return Deep(n + 1);\n}\n\nvoid Loop() {\n    while (TRUE) {\n\
    \x20       PrintInteger(1);\n    }\n}\n\nvoid main() {\n\
    \x20   if (GetLocalInt(OBJECT_SELF, \"loop\")) Loop();\n    PrintInteger(Deep(0));\n}\n";

/// A division in a call of a call.
const NEST: &[u8] = b"\
    int Part(int n) {\n    return 100 % n;\n}\n\nint Half(int n) {\n    return Part(n) / 2;\n}\n\n\
    void main() {\n    PrintInteger(Half(0));\n}\n";

/// The start of a binary, which calls a routine behind it.
const START: &[u8] = b"NCS V1.0B\0\0\0\x15\x1e\0\0\0\0\x08\x20\0";

/// The numbers of the scripts in the plan.
const GUARDS: u32 = 0;

const LATERS: u32 = 1;

const PLAN: &[Held] = &[
    Held {
        name: "a.plan",
        bytes: b"NWQ PLAN 1\nscript guard\nscript later\n",
    },
    Held {
        name: "guard.nss",
        bytes: GUARD,
    },
    Held {
        name: "later.nss",
        bytes: LATER,
    },
    Held {
        name: "lib.nss",
        bytes: LIB,
    },
];

const PLAY: &[&str] = &["nwq", "play", "-", "a.git", "a.plan", "b.git"];

const SAVE: &[&str] = &["nwq", "save", "-", "a.git", "a.plan", "4", "s.nwq"];

const NAMES: &[&str] = &["guard", "later"];

/// What is remarked of an entry, each place with the number of its script, and what is said of it.
#[derive(Drop)]
struct Row {
    ending: Ending,
    time: u32,
    at: (u32, u32),
    returns: &'static [(u32, u32)],
    begun: (u32, u32),
    values: &'static [i32],
    said: &'static str,
}

/// A play, with its files and the names of its scripts.
#[derive(Drop)]
struct Played {
    words: &'static [&'static str],
    files: &'static [Held],
    names: &'static [&'static str],
    number: u8,
}

fn spot(place: (u32, u32)) -> Spot {
    Spot {
        script: place.0,
        place: place.1,
    }
}

fn spots_of(alloc: Global, places: &[(u32, u32)]) -> Result<Vec<Spot>, NoMemory> {
    let mut spots = Vec::new(alloc);
    for place in places {
        spots.push(spot(*place))?;
    }
    Ok(spots)
}

fn remark_of(alloc: Global, row: &Row) -> Result<Remark, NoMemory> {
    Ok(Remark {
        ending: row.ending,
        time: row.time,
        at: spot(row.at),
        returns: spots_of(alloc, row.returns)?,
        begun: spot(row.begun),
        values: Vec::from_slice(alloc, row.values)?,
    })
}

fn remarks_of(alloc: Global, row: &Row, count: usize) -> Result<Vec<Remark>, NoMemory> {
    let mut remarks = Vec::new(alloc);
    for _turn in 0..count {
        remarks.push(remark_of(alloc, row)?)?;
    }
    Ok(remarks)
}

fn words_of(alloc: Global, words: &[&str]) -> Result<Vec<String>, NoMemory> {
    let mut all = Vec::new(alloc);
    for word in words {
        all.push(String::from_str(alloc, word)?)?;
    }
    Ok(all)
}

fn names_of(alloc: Global, names: &[&str]) -> Result<Vec<Text>, NoMemory> {
    let mut all = Vec::new(alloc);
    for name in names {
        all.push(Text::of(alloc, name.as_bytes())?)?;
    }
    Ok(all)
}

/// What is said after these words, of these remarks on the scripts of these names.
fn told_by<'a>(
    alloc: Global,
    words: &[String],
    number: u8,
    names: &'a [Text],
    remarks: &'a [Remark],
    files: &mut MemFiles,
) -> MemSink {
    let mut err = MemSink::new(alloc);
    let end = End {
        number,
        line: b"",
        trouble: None,
        random_used_up: false,
        remarks,
        names,
        no_text: None,
    };
    tell_end(alloc, words, end, files, &mut err);
    err
}

/// What is said of these remarks on a play.
fn told(alloc: Global, played: &Played, remarks: &[Remark]) -> Result<MemSink, NoMemory> {
    let mut files = MemFiles::new(alloc);
    for file in played.files {
        files.add(file.name, file.bytes)?;
    }
    let words = words_of(alloc, played.words)?;
    let names = names_of(alloc, played.names)?;
    Ok(told_by(
        alloc,
        words.as_slice(),
        played.number,
        names.as_slice(),
        remarks,
        &mut files,
    ))
}

/// Whether all this is said of an entry.
fn is_said(alloc: Global, played: &Played, row: &Row) -> Result<bool, NoMemory> {
    let remarks = remarks_of(alloc, row, 1)?;
    let err = told(alloc, played, remarks.as_slice())?;
    Ok(err.bytes() == row.said.as_bytes())
}

fn are_said(alloc: Global, played: &Played, rows: &[Row]) -> bool {
    rows.iter()
        .all(|row| matches!(is_said(alloc, played, row), Ok(true)))
}

/// A division in a function, one in an include, in a delayed action, and one in a script that an
/// action of a queue runs.
const DIVISIONS: &[Row] = &[
    Row {
        ending: Ending::Divide,
        time: 6500,
        at: (GUARDS, 101),
        returns: &[(GUARDS, 161), (GUARDS, 35), (GUARDS, 19)],
        begun: (GUARDS, 13),
        values: &[],
        said: "\
            guard.nss:5:18: note: a division by 0 ended the entry at 6500 here, in `Share` \
            [divide]\n\
            \u{20}   int n = nSum / nCount;\n\
            \u{20}                ^\n\
            guard.nss:10:18: note: called from `main`\n",
    },
    Row {
        ending: Ending::Divide,
        time: 0,
        at: (LATERS, 35),
        returns: &[(LATERS, 77), (LATERS, 184)],
        begun: (LATERS, 170),
        values: &[3, 0],
        said: "\
            lib.nss:2:16: note: a division by 0 ended the entry at 0 here, in `Part` [divide]\n\
            \u{20}   return 100 % n;\n\
            \u{20}              ^\n\
            later.nss:3:18: note: called from `Tell`\n\
            later.nss:10:32: note: called from an action of `main`\n\
            later.nss:10:5: note: the action was deferred here, in `main`; it captured 3, 0\n",
    },
    Row {
        ending: Ending::Divide,
        time: 6000,
        at: (LATERS, 134),
        returns: &[],
        begun: (LATERS, 118),
        values: &[3, 0],
        said: "\
            later.nss:9:40: note: a division by 0 ended the entry at 6000 here, in an action of \
            `main` [divide]\n\
            \u{20}   DelayCommand(6, PrintInteger(nGold / nHeirs));\n\
            \u{20}                                      ^\n\
            later.nss:9:5: note: the action was deferred here, in `main`; it captured 3, 0\n",
    },
    Row {
        ending: Ending::Divide,
        time: 7,
        at: (GUARDS, 101),
        returns: &[(GUARDS, 161), (GUARDS, 35), (GUARDS, 19), (LATERS, 233)],
        begun: (LATERS, 213),
        values: &[],
        said: "\
            guard.nss:5:18: note: a division by 0 ended the entry at 7 here, in `Share` \
            [divide]\n\
            \u{20}   int n = nSum / nCount;\n\
            \u{20}                ^\n\
            guard.nss:10:18: note: called from `main`\n\
            later.nss:11:21: note: called from an action of `main`\n\
            later.nss:11:5: note: the action was deferred here, in `main`\n",
    },
];

/// What is said of a play of the plan after these words.
fn of_plan(words: &'static [&'static str]) -> Played {
    Played {
        words,
        files: PLAN,
        names: NAMES,
        number: 0,
    }
}

#[test]
fn divisions(rt: HostRuntime) {
    let alloc = rt.alloc();
    assert!(rt; are_said(alloc, &of_plan(PLAY), DIVISIONS));
    assert!(rt; are_said(alloc, &of_plan(SAVE), DIVISIONS));
}

/// In the run of a script, in a call of a call.
const NESTED: &[Row] = &[Row {
    ending: Ending::Divide,
    time: 0,
    at: (0, 35),
    returns: &[(0, 77), (0, 123), (0, 19)],
    begun: (0, 13),
    values: &[],
    said: "\
        nest.nss:2:16: note: a division by 0 ended the entry at 0 here, in `Part` [divide]\n\
        \u{20}   return 100 % n;\n\
        \u{20}              ^\n\
        nest.nss:6:12: note: called from `Half`\n\
        nest.nss:10:18: note: called from `main`\n",
}];

#[test]
fn runs(rt: HostRuntime) {
    let played = Played {
        words: &["nwq", "run", "-", "nest"],
        files: &[Held {
            name: "nest.nss",
            bytes: NEST,
        }],
        names: &["nest"],
        number: 0,
    };
    assert!(rt; are_said(rt.alloc(), &played, NESTED));
}

/// A loop that meets the limit, and a recursion that does.
const ENDLESS: &[Row] = &[
    Row {
        ending: Ending::Limit,
        time: 0,
        at: (0, 75),
        returns: &[(0, 131), (0, 19)],
        begun: (0, 13),
        values: &[],
        said: "\
            deep.nss:6:5: note: the limit of instructions ended the entry at 0 here, in `Loop` \
            [limit]\n\
            \u{20}   while (TRUE) {\n\
            \u{20}   ^\n\
            deep.nss:12:43: note: called from `main`\n",
    },
    Row {
        ending: Ending::Limit,
        time: 0,
        at: (0, 31),
        returns: &[(0, 45), (0, 45), (0, 45), (0, 145), (0, 19)],
        begun: (0, 13),
        values: &[],
        said: "\
            deep.nss:2:21: note: the limit of instructions ended the entry at 0 here, in \
            `Deep`; 4 calls of `Deep` are under way [limit]\n\
            \u{20}   return Deep(n + 1);\n\
            \u{20}                   ^\n\
            deep.nss:2:12: note: called from `Deep`, 3 times\n\
            deep.nss:13:18: note: called from `main`\n",
    },
];

/// What is said after these words of a play of that script, which a limit stopped.
fn of_deep(words: &'static [&'static str]) -> Played {
    Played {
        words,
        files: &[
            Held {
                name: "a.plan",
                bytes: b"NWQ PLAN 1\nscript deep\n",
            },
            Held {
                name: "deep.nss",
                bytes: DEEP,
            },
        ],
        names: &["deep"],
        number: 5,
    }
}

#[test]
fn limits(rt: HostRuntime) {
    let alloc = rt.alloc();
    assert!(rt; are_said(alloc, &of_deep(&["nwq", "run", "-", "deep"]), ENDLESS));
    assert!(rt; are_said(alloc, &of_deep(PLAY), ENDLESS));
    assert!(rt; are_said(alloc, &of_deep(SAVE), ENDLESS));
}

/// In a routine of a binary, and in the rest of a play, whose sources aren't there.
const OFFSETS: &[Row] = &[
    Row {
        ending: Ending::Divide,
        time: 0,
        at: (0, 33),
        returns: &[(0, 19)],
        begun: (0, 13),
        values: &[],
        said: "\
            guard.ncs: note: a division by 0 ended the entry at 0 at offset 33, in the routine \
            at offset 21 [divide]\n\
            guard.ncs: note: called from offset 13, in the routine at offset 13\n",
    },
    Row {
        ending: Ending::Divide,
        time: 0,
        at: (0, 60),
        returns: &[],
        begun: (0, 50),
        values: &[-1],
        said: "\
            guard.ncs: note: a division by 0 ended the entry at 0 at offset 60, in the routine \
            at offset 50 [divide]\n\
            guard.ncs: note: the action was deferred at offset 34; it captured -1\n",
    },
];

#[test]
fn binaries(rt: HostRuntime) {
    let played = Played {
        words: PLAY,
        files: &[
            Held {
                name: "a.plan",
                bytes: b"NWQ PLAN 1\nbinary guard\n",
            },
            Held {
                name: "guard.ncs",
                bytes: START,
            },
        ],
        names: &["guard"],
        number: 0,
    };
    assert!(rt; are_said(rt.alloc(), &played, OFFSETS));
}

const RESUMED: Played = Played {
    words: &["nwq", "resume", "s.nwq", "b.git"],
    files: &[],
    names: NAMES,
    number: 0,
};

const ALONE: Row = Row {
    ending: Ending::Divide,
    time: 12_000,
    at: (LATERS, 35),
    returns: &[(LATERS, 77), (LATERS, 184)],
    begun: (LATERS, 170),
    values: &[3, 0],
    said: "\
            later: note: a division by 0 ended the entry at 12000 at offset 35 [divide]\n\
            later: note: the action was deferred at offset 154; it captured 3, 0\n",
};

/// How many entries are noted.
const MOST: usize = 16;

/// What ends the notes where there are more.
const MORE: &[u8] = b"s.nwq: note: further entries ended before their end\n";

/// What is said of sixteen such entries, and that there are more.
fn sixteen_and_more(alloc: Global) -> Result<Vec<u8>, NoMemory> {
    let mut all = Vec::new(alloc);
    for _turn in 0..MOST {
        all.extend_from_slice(ALONE.said.as_bytes())?;
    }
    all.extend_from_slice(MORE)?;
    Ok(all)
}

/// Whether that is said of so many.
fn are_cut(alloc: Global, count: usize) -> Result<bool, NoMemory> {
    let remarks = remarks_of(alloc, &ALONE, count)?;
    let err = told(alloc, &RESUMED, remarks.as_slice())?;
    Ok(err.bytes() == sixteen_and_more(alloc)?.as_slice())
}

#[test]
fn resumed(rt: HostRuntime) {
    let alloc = rt.alloc();
    assert!(rt; matches!(is_said(alloc, &RESUMED, &ALONE), Ok(true)));
    assert!(rt; matches!(are_cut(alloc, 17), Ok(true)));
    assert!(rt; matches!(are_cut(alloc, 20), Ok(true)));
}
