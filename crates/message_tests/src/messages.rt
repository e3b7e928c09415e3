//! Whole messages, over files in memory and a sink that keeps them.

use crate::rows::{Held, Refused, Row, are_said, first_untold};
use std::test::Fail;

const SOURCES: &[Row] = &[
    Row {
        words: &["nwq", "compile", "-", "p"],
        files: &[Held {
            name: "p.nss",
            bytes: b"void main() {\n\tbreak 5;\n}\n",
        }],
        number: 2,
        line: b"refused p.nss 2 21 syntax\n",
        said: "p.nss:2:8: error: `5` can't stand here; here could stand `;` [syntax]\n\tbreak 5;\n\
            \t      ^\n",
    },
    Row {
        words: &["nwq", "compile", "-", "p"],
        files: &[Held {
            name: "p.nss",
            bytes: b"void main() { PrintInteger(); }",
        }],
        number: 2,
        line: b"refused p.nss 1 14 arity\n",
        said: "p.nss:1:15: error: `PrintInteger` takes 1 argument, and 0 are given [arity]\nvoid \
            main() { PrintInteger(); }\n              ^\n",
    },
    Row {
        words: &["nwq", "run", "-", "p"],
        files: &[Held {
            name: "p.nss",
            bytes: b"int n = m;",
        }],
        number: 2,
        line: b"refused p.nss 1 8 unknown\n",
        said: "p.nss:1:9: error: `m` isn't declared here, and the header has no such constant \
            [unknown]\nint n = m;\n        ^\n",
    },
    // The file was changed in between.
    Row {
        words: &["nwq", "run", "-", "p"],
        files: &[],
        number: 2,
        line: b"refused p.nss 1 8 unknown\n",
        said: "p.nss: error: the file is refused [unknown]\n",
    },
    Row {
        words: &["nwq", "run", "-", "p"],
        files: &[
            Held {
                name: "p.nss",
                bytes: b"#include \"q\"\nvoid main() {}",
            },
            Held {
                name: "q.nss",
                bytes: b"// none\n#include \"Lock\"\n",
            },
        ],
        number: 6,
        line: b"missing lock.nss\n",
        said: "q.nss:2:10: error: there is no file `lock.nss`, which this line asks for \
            [missing]\n#include \"Lock\"\n         ^\n",
    },
];

/// Types that don't fit, in scripts of one line each.
const TYPES: &[Row] = &[
    Row {
        words: &["nwq", "compile", "-", "p"],
        files: &[Held {
            name: "p.nss",
            bytes: b"void main() { string s = \"a\" + 1; }",
        }],
        number: 2,
        line: b"refused p.nss 1 29 mismatch\n",
        said: "p.nss:1:30: error: the types that `+` is given don't go together: string and int; \
            `IntToString` gives the string of an int [mismatch]\nvoid main() { string s = \"a\" + \
            1; }\n                             ^\n",
    },
    Row {
        words: &["nwq", "compile", "-", "p"],
        files: &[Held {
            name: "p.nss",
            bytes: b"struct S { int n; }; void main() { struct S s; int n = s; }",
        }],
        number: 2,
        line: b"refused p.nss 1 51 mismatch\n",
        said: "p.nss:1:52: error: the value has another type than `n`: a struct, where int is \
            wanted [mismatch]\nstruct S { int n; }; void main() { struct S s; int n = s; \
            }\n                                                   ^\n",
    },
    Row {
        words: &["nwq", "compile", "-", "p"],
        files: &[Held {
            name: "p.nss",
            bytes: b"void main() { PrintInteger(\"a\"); }",
        }],
        number: 2,
        line: b"refused p.nss 1 14 mismatch\n",
        said: "p.nss:1:15: error: an argument of `PrintInteger` has another type than its \
            parameter: argument 1: string, where int is wanted [mismatch]\nvoid main() { \
            PrintInteger(\"a\"); }\n              ^\n",
    },
    Row {
        words: &["nwq", "compile", "-", "p"],
        files: &[Held {
            name: "p.nss",
            bytes: b"int f(int n, string s) { return n; } void main() { f(1, f(2, \"\") * -3); }",
        }],
        number: 2,
        line: b"refused p.nss 1 51 mismatch\n",
        said: "p.nss:1:52: error: an argument of `f` has another type than its parameter: \
            argument 2: int, where string is wanted [mismatch]\nint f(int n, string s) { return \
            n; } void main() { f(1, f(2, \"\") * -3); \
            }\n                                                   ^\n",
    },
    Row {
        words: &["nwq", "compile", "-", "p"],
        files: &[Held {
            name: "p.nss",
            bytes: b"int f() { return OBJECT_SELF; } void main() {}",
        }],
        number: 2,
        line: b"refused p.nss 1 10 mismatch\n",
        said: "p.nss:1:11: error: `return` gives a value of another type than the function's: \
            object, where int is wanted [mismatch]\nint f() { return OBJECT_SELF; } void main() \
            {}\n          ^\n",
    },
    Row {
        words: &["nwq", "compile", "-", "p"],
        files: &[Held {
            name: "p.nss",
            bytes: b"void main() { int i; for (i = 0; \"a\"; i++) ; }",
        }],
        number: 2,
        line: b"refused p.nss 1 21 mismatch\n",
        said: "p.nss:1:22: error: the condition of `for` is no int: string [mismatch]\nvoid \
            main() { int i; for (i = 0; \"a\"; i++) ; }\n                     ^\n",
    },
    Row {
        words: &["nwq", "compile", "-", "p"],
        files: &[Held {
            name: "p.nss",
            bytes: b"void f() {} void main() { if (1 + f() * 2) ; }",
        }],
        number: 2,
        line: b"refused p.nss 1 38 mismatch\n",
        said: "p.nss:1:39: error: the types that `*` is given don't go together: void and int \
            [mismatch]\nvoid f() {} void main() { if (1 + f() * 2) ; \
            }\n                                      ^\n",
    },
    Row {
        words: &["nwq", "compile", "-", "p"],
        files: &[Held {
            name: "p.nss",
            bytes: b"void main() { object o; if (1) !o; }",
        }],
        number: 2,
        line: b"refused p.nss 1 31 mismatch\n",
        said: "p.nss:1:32: error: what `!` is given is no int: object [mismatch]\nvoid main() { \
            object o; if (1) !o; }\n                               ^\n",
    },
];

/// Scripts of one line that are refused, each for another reason.
const SCRIPTS: &[Refused] = &[
    Refused {
        bytes: b"void main() { object o; int i; if (i) -o; }",
        line: b"refused p.nss 1 38 mismatch\n",
        said: "p.nss:1:39: error: what `-` is given is no int: object [mismatch]\nvoid main() { \
            object o; int i; if (i) -o; }\n                                      ^\n",
    },
    Refused {
        bytes: b"int nwq_int; void main() { string s = 1; }",
        line: b"refused p.nss 1 34 mismatch\n",
        said: "p.nss:1:35: error: the value has another type than `s`: int, where string is wanted \
            [mismatch]\nint nwq_int; void main() { string s = 1; \
            }\n                                  ^\n",
    },
    Refused {
        bytes: b"void main() { int n; do n; while (\"s\"); }",
        line: b"refused p.nss 1 21 mismatch\n",
        said: "p.nss:1:22: error: the condition of `do` is no int: string [mismatch]\nvoid main() \
            { int n; do n; while (\"s\"); }\n                     ^\n",
    },
    Refused {
        bytes: b"void main() { switch (\"a\") { } }",
        line: b"refused p.nss 1 14 mismatch\n",
        said: "p.nss:1:15: error: the condition of `switch` is no int: string [mismatch]\nvoid \
            main() { switch (\"a\") { } }\n              ^\n",
    },
    Refused {
        bytes: b"void f() { return 1; } void main() {}",
        line: b"refused p.nss 1 11 mismatch\n",
        said: "p.nss:1:12: error: `return` gives a value of another type than the function's: int, \
            where void is wanted [mismatch]\nvoid f() { return 1; } void main() {}\n           ^\n",
    },
    Refused {
        bytes: b"const int N = \"a\"; void main() {}",
        line: b"refused p.nss 1 10 mismatch\n",
        said: "p.nss:1:11: error: the value has another type than `N`: string, where int is wanted \
            [mismatch]\nconst int N = \"a\"; void main() {}\n          ^\n",
    },
    Refused {
        bytes: b"void f(int n = \"a\") {} void main() {}",
        line: b"refused p.nss 1 7 mismatch\n",
        said: "p.nss:1:8: error: the default has another type than its parameter, which begins \
            with `int`: string, where int is wanted [mismatch]\nvoid f(int n = \"a\") {} void \
            main() {}\n       ^\n",
    },
    Refused {
        bytes: b"void main() { switch (1) { case \"a\": ; } }",
        line: b"refused p.nss 1 27 mismatch\n",
        said: "p.nss:1:28: error: the value of `case` is no int: string [mismatch]\nvoid main() { \
            switch (1) { case \"a\": ; } }\n                           ^\n",
    },
    Refused {
        bytes: b"void main() { SetLocalInt(1, 2, 3); }",
        line: b"refused p.nss 1 14 mismatch\n",
        said: "p.nss:1:15: error: an argument of `SetLocalInt` has another type than its \
            parameter: argument 1: int, where object is wanted [mismatch]\nvoid main() { \
            SetLocalInt(1, 2, 3); }\n              ^\n",
    },
    Refused {
        bytes: b"void main() { DelayCommand(1, 2); }",
        line: b"refused p.nss 1 14 mismatch\n",
        said: "p.nss:1:15: error: an argument of `DelayCommand` has another type than its \
            parameter: argument 2: int, where action is wanted [mismatch]\nvoid main() { \
            DelayCommand(1, 2); }\n              ^\n",
    },
    Refused {
        bytes: b"int f(int n, int m = 1) { return n; } void main() { f(); }",
        line: b"refused p.nss 1 52 arity\n",
        said: "p.nss:1:53: error: `f` takes 1 to 2 arguments, and 0 are given [arity]\nint f(int \
            n, int m = 1) { return n; } void main() { f(); \
            }\n                                                    ^\n",
    },
    Refused {
        bytes: b"void main() { string s; s = 1; }",
        line: b"refused p.nss 1 26 mismatch\n",
        said: "p.nss:1:27: error: the types that `=` is given don't go together: string and int \
            [mismatch]\nvoid main() { string s; s = 1; }\n                          ^\n",
    },
    Refused {
        bytes: b"int f() { return; } void main() {}",
        line: b"refused p.nss 1 10 mismatch\n",
        said: "p.nss:1:11: error: `return` gives no value, and the function has a result \
            [mismatch]\nint f() { return; } void main() {}\n          ^\n",
    },
    Refused {
        bytes: b"void main() { void v; }",
        line: b"refused p.nss 1 14 mismatch\n",
        said: "p.nss:1:15: error: no variable, parameter or member is of the type `void` \
            [mismatch]\nvoid main() { void v; }\n              ^\n",
    },
    Refused {
        bytes: b"const object O = OBJECT_SELF; void main() {}",
        line: b"refused p.nss 1 6 mismatch\n",
        said: "p.nss:1:7: error: no constant is of the type `object`: one is an int or a string \
            [mismatch]\nconst object O = OBJECT_SELF; void main() {}\n      ^\n",
    },
    Refused {
        bytes: b"void f(int a = 1, int b) {} void main() {}",
        line: b"refused p.nss 1 18 arity\n",
        said: "p.nss:1:19: error: `int` begins a parameter without a default, behind one that has \
            one [arity]\nvoid f(int a = 1, int b) {} void main() {}\n                  ^\n",
    },
    Refused {
        bytes: b"void main() { int n; n.x = 1; }",
        line: b"refused p.nss 1 22 unknown\n",
        said: "p.nss:1:23: error: what stands before `.` is no struct: int [unknown]\nvoid \
            main() { int n; n.x = 1; }\n                      ^\n",
    },
    Refused {
        bytes: b"struct S { int n; }; void main() { struct S s; s.x = 1; }",
        line: b"refused p.nss 1 48 unknown\n",
        said: "p.nss:1:49: error: there is no member `x`: the struct has none, or what stands \
            before the point is no struct [unknown]\nstruct S { int n; }; void main() { struct S \
            s; s.x = 1; }\n                                                ^\n",
    },
    Refused {
        bytes: b"void main() { if (1) { int n = 1; }",
        line: b"refused p.nss 1 35 syntax\n",
        said: "p.nss:1:36: error: the script ends here, and isn't whole: the `{` of line 1, column \
            13, isn't closed; here could stand `;`, a name, a number, a string, `(`, `{` and more \
            [syntax]\nvoid main() { if (1) { int n = 1; }\n                                   \
            ^\n",
    },
    Refused {
        bytes: b"void main() { int int = 1; }",
        line: b"refused p.nss 1 18 syntax\n",
        said: "p.nss:1:19: error: `int` can't stand here; here could stand a name; `int` is a word \
            of the language [syntax]\nvoid main() { int int = 1; }\n                  ^\n",
    },
    Refused {
        bytes: b"int TRUE; void main() {}",
        line: b"refused p.nss 1 4 redeclared\n",
        said: "p.nss:1:5: error: `TRUE` is a constant of the header, and can't be declared again \
            [redeclared]\nint TRUE; void main() {}\n    ^\n",
    },
    Refused {
        bytes: b"int Random(int n) { return 1; } void main() {}",
        line: b"refused p.nss 1 4 redeclared\n",
        said: "p.nss:1:5: error: `Random` is a routine of the header, and can't be declared again \
            [redeclared]\nint Random(int n) { return 1; } void main() {}\n    ^\n",
    },
    // In a function the header's names are free: the scope itself has it.
    Refused {
        bytes: b"void main() { int Random; int Random; }",
        line: b"refused p.nss 1 30 redeclared\n",
        said: "p.nss:1:31: error: `Random` stands here a second time, or has other types than \
            where it was declared [redeclared]\nvoid main() { int Random; int Random; \
            }\n                              ^\n",
    },
    Refused {
        bytes: b"void main() { int n = GetLocalInt; }",
        line: b"refused p.nss 1 22 unknown\n",
        said: "p.nss:1:23: error: `GetLocalInt` is a routine of the header, and no value: its \
            arguments in brackets are missing [unknown]\nvoid main() { int n = GetLocalInt; \
            }\n                      ^\n",
    },
    Refused {
        bytes: b"void main() { a..b; }",
        line: b"refused p.nss 1 16 syntax\n",
        said: "p.nss:1:17: error: `.` can't stand here; here could stand a name [syntax]\nvoid \
            main() { a..b; }\n                ^\n",
    },
    Refused {
        bytes: b"void f(int n) {} void main() { f(1.5); }",
        line: b"refused p.nss 1 33 refusedtype\n",
        said: "p.nss:1:34: error: `1.5` is of a type that is left out; times are whole \
            milliseconds here: 2 seconds are 2000 [refusedtype]\nvoid f(int n) {} void main() { \
            f(1.5); }\n                                 ^\n",
    },
    Refused {
        bytes: b"void main() { switch (1) { case 1: ; case 1: ; } }",
        line: b"refused p.nss 1 37 redeclared\n",
        said: "p.nss:1:38: error: a `case` of this value stands before in its switch: 1 \
            [redeclared]\nvoid main() { switch (1) { case 1: ; case 1: ; } \
            }\n                                     ^\n",
    },
    Refused {
        bytes: b"void main() { string s = \"\\x4g\"; }",
        line: b"refused p.nss 1 25 bad\n",
        said: "p.nss:1:26: error: this string isn't closed on its line, or a `\\` in it begins no \
            escape [bad]\nvoid main() { string s = \"\\x4g\"; }\n                         ^\n",
    },
    Refused {
        bytes: b"const int A = ;",
        line: b"refused p.nss 1 14 syntax\n",
        said: "p.nss:1:15: error: `;` can't stand here; here could stand a name, a number, a \
            string, `OBJECT_SELF`, `OBJECT_INVALID`, `-` and more [syntax]\nconst int A = \
            ;\n              ^\n",
    },
];

/// A file whose name has blanks and letters outside ASCII, and a word that begins its flaw.
const NAMED: &[Refused] = &[Refused {
    bytes: b"",
    line: b"refused pl\\xc3\\xa4n version 3.git version\n",
    said: "pl\u{e4}n version 3.git: error: bytes 4 to 7 aren't `V3.2`: it is no GFF file of this \
            version [version]\n",
}];

/// A name with a character that a terminal obeys.
const HIDDEN: &[Refused] = &[Refused {
    bytes: b"",
    line: b"refused a\\xc2\\x9b.git short\n",
    said: "a\\xc2\\x9b.git: error: the file has fewer than 56 bytes, so no header of a GFF file \
            [short]\n",
}];

/// A line with a mark of direction is shown escaped.
const MARKED: &[Refused] = &[Refused {
    bytes: b"void main() { n; } // \xe2\x80\xae\xc3\xa4",
    line: b"refused p.nss 1 14 unknown\n",
    said: "p.nss:1:15: error: `n` isn't declared here, and the header has no such constant \
            [unknown]\nvoid main() { n; } // \\xe2\\x80\\xae\\xc3\\xa4\n              ^\n",
}];

const OTHERS: &[Row] = &[
    Row {
        words: &["nwq", "tree", "my area.git"],
        files: &[],
        number: 4,
        line: b"refused my area.git section 5\n",
        said: "my area.git: error: section 5, the list indices, passes the end of the file \
            [section]\n",
    },
    Row {
        words: &["nwq", "dis", "a.ncs", "a.txt"],
        files: &[],
        number: 3,
        line: b"refused a.ncs 13 opcode\n",
        said: "a.ncs: error: the byte at offset 13 is no opcode [opcode]\n",
    },
    Row {
        words: &["nwq", "play", "-", "a.git", "a.plan", "b.git"],
        files: &[Held {
            name: "a.plan",
            bytes: b"NWQ PLAN 1\nscript p\nlimit  4\n",
        }],
        number: 4,
        line: b"refused a.plan line 3\n",
        said: "a.plan:3:7: error: two blanks stand here, and one parts fields \
            [line]\nlimit  4\n      ^\n",
    },
    Row {
        words: &["nwq", "play", "-", "a.git", "a.plan", "b.git"],
        files: &[Held {
            name: "a.plan",
            bytes: b"NWQ PLAN 1\nscript patrol\n",
        }],
        number: 6,
        line: b"missing patrol.nss\n",
        said: "a.plan:2:1: error: there is no file `patrol.nss`, which this line asks for \
            [missing]\nscript patrol\n^\n",
    },
    // A table of the name is listed too, and asks for another file.
    Row {
        words: &["nwq", "play", "-", "a.git", "a.plan", "b.git", "t.txt"],
        files: &[
            Held {
                name: "t.txt",
                bytes: b"patrol\n",
            },
            Held {
                name: "a.plan",
                bytes: b"NWQ PLAN 1\nscript patrol\n",
            },
        ],
        number: 6,
        line: b"missing patrol.nss\n",
        said: "a.plan:2:1: error: there is no file `patrol.nss`, which this line asks for \
            [missing]\nscript patrol\n^\n",
    },
    // Two scripts have a function of one name, and the second is refused.
    Row {
        words: &["nwq", "play", "-", "a.git", "a.plan", "b.git"],
        files: &[
            Held {
                name: "a.plan",
                bytes: b"NWQ PLAN 1\nscript one\nscript two\n",
            },
            Held {
                name: "one.nss",
                bytes: b"void f(int n) {} void main() { f(1); }",
            },
            Held {
                name: "two.nss",
                bytes: b"void f(int n, int m) {} void main() { f(1); }",
            },
        ],
        number: 2,
        line: b"refused two.nss 1 38 arity\n",
        said: "two.nss:1:39: error: `f` takes 2 arguments, and 1 is given [arity]\nvoid f(int n, \
            int m) {} void main() { f(1); }\n                                      ^\n",
    },
    Row {
        words: &["nwq", "resume", "a.state", "b.git"],
        files: &[],
        number: 4,
        line: b"refused a.state state 12\n",
        said: "a.state: error: the bytes stop being a state of a play at offset 12 [state]\n",
    },
    Row {
        words: &["nwq", "resume", "a.state", "b.git"],
        files: &[],
        number: 4,
        line: b"refused a.state unfit 5\n",
        said: "a.state: error: the entries of the agenda can't wait so: their order, numbers, \
            times or objects [unfit]\n",
    },
    Row {
        words: &["nwq", "tree", "a.git"],
        files: &[],
        number: 6,
        line: b"missing a.git\n",
        said: "a.git: error: there is no such file [missing]\n",
    },
    Row {
        words: &["nwq", "tree", "a.git"],
        files: &[],
        number: 7,
        line: b"",
        said: "standard output: error: it could not be written [fault]\n",
    },
    Row {
        words: &["nwq", "tree", "a.git"],
        files: &[],
        number: 0,
        line: b"gff\n",
        said: "",
    },
];

#[test]
fn sources(rt: HostRuntime) {
    assert!(rt; are_said(rt.alloc(), SOURCES));
}

#[test]
fn types(rt: HostRuntime) {
    assert!(rt; are_said(rt.alloc(), TYPES));
}

#[test]
fn others(rt: HostRuntime) {
    assert!(rt; are_said(rt.alloc(), OTHERS));
}

#[test]
fn scripts(rt: HostRuntime) -> Result<(), Fail> {
    let words = ["nwq", "compile", "-", "p"];
    assert_eq!(rt;
        first_untold(rt.alloc(), &words, "p.nss", 2, SCRIPTS)?,
        None
    );
    assert_eq!(rt; first_untold(rt.alloc(), &words, "p.nss", 2, MARKED)?, None);
    Ok(())
}

#[test]
fn names(rt: HostRuntime) -> Result<(), Fail> {
    let words = ["nwq", "tree", "pl\u{e4}n version 3.git"];
    assert_eq!(rt;
        first_untold(rt.alloc(), &words, "pl\u{e4}n version 3.git", 4, NAMED)?,
        None
    );
    let words = ["nwq", "tree", "a\u{9b}.git"];
    assert_eq!(rt;
        first_untold(rt.alloc(), &words, "a\u{9b}.git", 4, HIDDEN)?,
        None
    );
    Ok(())
}
