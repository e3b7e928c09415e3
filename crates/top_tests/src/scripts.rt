//! Scripts: what `run` plays and `compile` makes of them, and how both refuse them.

use nwq_top::Status;
use test_rows::answers::{Failing, Held, PLAIN, Row};
use test_rows::bases::Base;
use test_rows::samples::Sample;

/// A script is run, and nothing is written.
pub const PLAYED: Row = Row {
    line: "run - p",
    base: Base::Includes,
    after: &[("p.ncs", Held::Nothing)],
    ..PLAIN
};

/// The same of a script alone, whose last line isn't asked.
pub const TRACED: Row = Row {
    line: "run - p",
    whole: false,
    ..PLAIN
};

/// A script is refused with one line, and nothing is written.
pub const REFUSED_RUN: Row = Row {
    status: Status::Script,
    puts: Some(1),
    ..PLAYED
};

/// The same of `compile`.
pub const REFUSED_COMPILE: Row = Row {
    line: "compile - p",
    ..REFUSED_RUN
};

/// Scripts and all that `run - p` prints, where the play is done.
pub const PLAYS: &[(&str, &str)] = &[
    (
        "void main() {}",
        "end done clock 0 entries 1 instructions 3\n",
    ),
    (
        "void main() { PrintInteger(2+3); }",
        "0 #0 print 5\nend done clock 0 entries 1 instructions 7\n",
    ),
    (
        "void main() { PrintInteger(1-2); }",
        "0 #0 print -1\nend done clock 0 entries 1 instructions 7\n",
    ),
    (
        "void main() { PrintInteger(4294967295+2); }",
        "0 #0 print 1\nend done clock 0 entries 1 instructions 7\n",
    ),
    (
        "void main() { // in order\nPrintInteger(0x7fffFFFF+1); /* then */ PrintInteger(7); }",
        "0 #0 print -2147483648\n0 #0 print 7\nend done clock 0 entries 1 instructions 9\n",
    ),
    (
        "#include \"P\"\nvoid main() {}",
        "end done clock 0 entries 1 instructions 3\n",
    ),
    (
        "#include \"front\"\n{ PrintInteger(1+2); #include \"FRONT\"\n }",
        "0 #0 print 3\nend done clock 0 entries 1 instructions 7\n",
    ),
    (
        "void main() { int n=1; DelayCommand(1000, PrintInteger(n)); n=2; PrintInteger(n); }",
        "0 #0 print 2\n1000 #0 print 1\nend done clock 1000 entries 2 instructions 17\n",
    ),
    (
        "int n=1; void main() { DelayCommand(1000, PrintInteger(n)); n=2; PrintInteger(n); }",
        "0 #0 print 2\n1000 #0 print 1\nend done clock 1000 entries 2 instructions 21\n",
    ),
    (
        "void main() { int i; for (i=0; i<3; i++) PrintInteger(i); }",
        "0 #0 print 0\n0 #0 print 1\n0 #0 print 2\nend done clock 0 entries 1 instructions 42\n",
    ),
    (
        "int StartingConditional() { return 3; }",
        "end done clock 0 entries 1 instructions 8\n",
    ),
    (
        "int g=1; void F() { g=g+1; PrintInteger(g); } void main() { F(); F(); }",
        "0 #0 print 2\n0 #0 print 3\nend done clock 0 entries 1 instructions 27\n",
    ),
    (
        "void main() { switch (2) { case 1: PrintInteger(1); case 2: PrintInteger(2); \
            default: PrintInteger(3); } }",
        "0 #0 print 2\n0 #0 print 3\nend done clock 0 entries 1 instructions 17\n",
    ),
    (
        "void main() { PrintInteger(7); PrintInteger(1/0); PrintInteger(8); }",
        "0 #0 print 7\n0 #0 fault divide\nend done clock 0 entries 1 instructions 6\n",
    ),
    (
        "void main() { int p; p += p += 1/0; }",
        "0 #0 fault divide\nend done clock 0 entries 1 instructions 7\n",
    ),
    // As many brackets as may be.
    (
        "void main() { PrintInteger((((((((((((((((((((((((((((((((((((((((((((((((((((((((\
            ((((((((((((((((((((((((((((((((((((((((((((((((((((((((((((((((((((((((((((((((((\
            ((((((((((((((((((((((((((((((((((((((((((((((((((((((((((((((((((((((((((((((((((\
            (((((((((((((((((((((((((((((((((((1))))))))))))))))))))))))))))))))))))))))))))))\
            ))))))))))))))))))))))))))))))))))))))))))))))))))))))))))))))))))))))))))))))))))\
            ))))))))))))))))))))))))))))))))))))))))))))))))))))))))))))))))))))))))))))))))))\
            ))))))))))))))))))))))))))))))))))))))))))))); }",
        "0 #0 print 1\nend done clock 0 entries 1 instructions 5\n",
    ),
    (
        "void main() { int p; \
            p += p += p += p += p += p += p += p += p += p += p += p += p += p += p += p += p += \
            p += p += p += p += p += p += p += p += p += p += p += p += p += p += p += p += p += \
            p += p += p += p += p += p += p += p += p += p += p += p += p += p += p += p += p += \
            p += p += p += p += p += p += p += p += p += p += p += p += p += p += p += p += p += \
            p += p += p += p += p += p += p += p += p += p += p += p += p += p += p += p += p += \
            p += p += p += p += p += p += p += p += p += p += p += p += p += p += p += 1/0; }",
        "0 #0 fault divide\nend done clock 0 entries 1 instructions 105\n",
    ),
    (
        "void main() { PrintObject(OBJECT_INVALID); }",
        "0 #0 print #0\nend done clock 0 entries 1 instructions 5\n",
    ),
    (
        "void main() { PrintString(GetSubString(\"abcdef\", 2, 3) + IntToHexString(255)); }",
        "0 #0 print cde0x000000ff\nend done clock 0 entries 1 instructions 11\n",
    ),
    (
        "void main() { PrintString(Get2DAString(\"x\",\"COST\",0)); }",
        "0 #0 print \nend done clock 0 entries 1 instructions 8\n",
    ),
    (
        "void main() { PrintInteger(1); ExecuteScript(\"p\"); }",
        "0 #0 print 1\n0 #0 print 1\n0 #0 print 1\n0 #0 print 1\n0 #0 print 1\n0 #0 print 1\n\
            0 #0 print 1\n0 #0 print 1\n0 #0 print 1\n0 #0 deep p\n\
            end done clock 0 entries 1 instructions 72\n",
    ),
];

/// Scripts and the lines that `run - p` prints before the end, where the play is done.
pub const TRACES: &[(&str, &str)] = &[
    (
        "int g; void F() { g=g+1; PrintInteger(g); } void main() { DelayCommand(10, F()); \
            DelayCommand(20, F()); }",
        "10 #0 print 1\n20 #0 print 1\n",
    ),
    (
        "void main() { DelayCommand(500, PrintString(\"A\")); \
            DelayCommand(500, PrintString(\"B\")); }",
        "500 #0 print A\n500 #0 print B\n",
    ),
    (
        "int f() { DelayCommand(1, PrintString(\"inner\")); return 5; } void main() { \
            DelayCommand(f(), PrintString(\"outer\")); }",
        "1 #0 print inner\n5 #0 print outer\n",
    ),
    (
        "void main() { DelayCommand(5, PrintInteger(8)); PrintInteger(7); PrintInteger(1/0); }",
        "0 #0 print 7\n0 #0 fault divide\n5 #0 print 8\n",
    ),
    (
        "void main() { if (1) if (0) PrintInteger(1); else PrintInteger(2); }",
        "0 #0 print 2\n",
    ),
    (
        "int f(int a, int b) { if (a==0) return b; return f(a-1,b+1); } void main() { \
            PrintInteger(f(3,4)); }",
        "0 #0 print 7\n",
    ),
    (
        "void main() { PrintInteger((-2147483647 - 1) / -1); PrintInteger(1 << 32); }",
        "0 #0 print -2147483648\n0 #0 print 1\n",
    ),
    (
        "void main() { string s=\"a\"; int i; for(i=0;i<40;i++) s=s+s; \
            PrintInteger(GetStringLength(s)); }",
        "0 #0 print 8192\n",
    ),
    (
        "struct P { int x; int y; }; struct P Make(int a) { struct P p; p.x=a; p.y=a+1; \
            return p; } void main() { PrintInteger(Make(4).y); }",
        "0 #0 print 5\n",
    ),
    (
        "int n=1; void main() { n=5; DelayCommand(1, PrintInteger(n)); }",
        "1 #0 print 5\n",
    ),
    (
        "void main() { PrintInteger(StringToInt(\"-12x\")); \
            PrintString(InsertString(\"ab\",\"X\",9)); PrintString(GetStringRight(\"abc\",5)); \
            PrintString(GetSubString(\"abc\",4,1)); }",
        "0 #0 print -12\n0 #0 print abX\n0 #0 print abc\n0 #0 print \n",
    ),
    (
        "void main() { ExecuteScript(\"q\"); PrintInteger(3); }",
        "0 #0 noscript q\n0 #0 print 3\n",
    ),
    (
        "void main() { event e; PrintInteger(e == EventUserDefined(0)); }",
        "0 #0 print 1\n",
    ),
];

/// Scripts that are refused, and the line that tells it.
pub const REFUSED: &[(&str, &str)] = &[
    ("", "refused p.nss 1 0 entry\n"),
    ("#include \"none\"\n", "refused p.nss 2 16 entry\n"),
    ("int a;", "refused p.nss 1 6 entry\n"),
    (
        "void main() { PrintInteger(1++2); }",
        "refused p.nss 1 30 syntax\n",
    ),
    (
        "void main() { PrintInteger(1); } x",
        "refused p.nss 1 33 syntax\n",
    ),
    ("void main() { int 5; }", "refused p.nss 1 18 syntax\n"),
    (
        "void main() { int a; a + 1 = 2; }",
        "refused p.nss 1 27 syntax\n",
    ),
    ("void main() { else; }", "refused p.nss 1 14 syntax\n"),
    ("void main() {", "refused p.nss 1 13 syntax\n"),
    (
        "void main()\n#include \"none\"",
        "refused p.nss 2 27 syntax\n",
    ),
    (
        "#include \"head\"\nvoid main() {}",
        "refused head.nss 2 11 syntax\n",
    ),
    (
        "void main() {\n PrintInteger(4294967296); }",
        "refused p.nss 2 28 bad\n",
    ),
    ("void main() { \"a", "refused p.nss 1 14 bad\n"),
    ("void main() { /* open", "refused p.nss 1 14 bad\n"),
    ("#include foo", "refused p.nss 1 0 include\n"),
    (
        "void main() { float f; }",
        "refused p.nss 1 14 refusedtype\n",
    ),
    ("void main() { int n = n; }", "refused p.nss 1 22 unknown\n"),
    ("int f; void f() {}", "refused p.nss 1 12 redeclared\n"),
    (
        "void main() { int a; int a; }",
        "refused p.nss 1 25 redeclared\n",
    ),
    ("void f(int n = 1, int m) {}", "refused p.nss 1 18 arity\n"),
    (
        "int n; void main() { switch (1) { case n: ; } }",
        "refused p.nss 1 39 notconst\n",
    ),
    ("void main() { 1 = 2; }", "refused p.nss 1 16 notplace\n"),
    ("void main() { break; }", "refused p.nss 1 14 outside\n"),
    (
        "void main() { string s = 1; }",
        "refused p.nss 1 21 mismatch\n",
    ),
    (
        "void main() { DelayCommand(1, Random(3)); }",
        "refused p.nss 1 14 mismatch\n",
    ),
    ("int f() {} void main() {}", "refused p.nss 1 4 noreturn\n"),
    (
        "int f() { if (1) return 2; } void main() {}",
        "refused p.nss 1 4 noreturn\n",
    ),
    (
        "struct A { int a, b, c, d, e, f, g, h; }; struct B { struct A a, b, c, d, e, f, g, h; \
            int z; };",
        "refused p.nss 1 90 cells\n",
    ),
    // Of several causes: a byte that begins no token comes before syntax, syntax before a node at
    // fault, and that before the end, which is the end of the script's own file.
    ("void main() { else; \"a", "refused p.nss 1 20 bad\n"),
    ("void main() { x; 5 5; }", "refused p.nss 1 19 syntax\n"),
    ("#include \"front\"", "refused p.nss 1 16 syntax\n"),
    ("int n = m;", "refused p.nss 1 8 unknown\n"),
    // A node at fault in an include, before one of the script.
    (
        "void main() {}\n#include \"front\"\n{ x; }",
        "refused front.nss 1 5 redeclared\n",
    ),
];

/// A script that prints 5.
const FIVE: &[u8] = b"void main() { PrintInteger(2+3); }";

/// A script that is run under a header.
macro_rules! under {
    ($header:expr, $script:expr, $status:expr, $text:expr) => {
        Row {
            line: "run h.nss p",
            own: &[
                ("p.nss", Held::Bytes($script)),
                ("h.nss", Held::Bytes($header)),
            ],
            status: $status,
            text: $text,
            after: &[("p.ncs", Held::Nothing)],
            ..PLAIN
        }
    };
}

/// Headers with scripts.
pub const HEADERS: &[Row] = &[
    under!(
        b"void PrintInteger(int n);",
        FIVE,
        Status::Done,
        "0 #0 print 5\nend done clock 0 entries 1 instructions 7\n"
    ),
    under!(
        b"// twice\nint A();\nvoid PrintInteger(int);\nint B();",
        FIVE,
        Status::Done,
        "0 #0 print 5\nend done clock 0 entries 1 instructions 7\n"
    ),
    under!(
        b"float Cos(float f); vector V(float x=0.0, float y=0.0);\nvoid PrintInteger(int n);",
        FIVE,
        Status::Done,
        "0 #0 print 5\nend done clock 0 entries 1 instructions 7\n"
    ),
    under!(
        b"int PrintInteger(int n);",
        FIVE,
        Status::Done,
        "0 #0 call PrintInteger(5)\nend done clock 0 entries 1 instructions 8\n"
    ),
    under!(
        b"int A(); int A();",
        FIVE,
        Status::Script,
        "refused h.nss 1 13 twice\n"
    ),
    under!(
        b"int A();\nint B()",
        FIVE,
        Status::Script,
        "refused h.nss 2 16 header\n"
    ),
    under!(
        b"int A();\n\"",
        FIVE,
        Status::Script,
        "refused h.nss 2 9 bad\n"
    ),
    under!(b"", FIVE, Status::Script, "refused p.nss 1 14 unknown\n"),
    // A header is refused before a script is.
    under!(
        b"int A()",
        b"#include foo",
        Status::Script,
        "refused h.nss 1 7 header\n"
    ),
];

/// A script of a front, so many of a byte, and a rest, which is run.
macro_rules! sized {
    ($front:expr, $byte:expr, $count:expr, $rest:expr, $status:expr, $text:expr) => {
        Row {
            line: "run - p",
            own: &[("p.nss", Held::Repeated(&[$front], $byte, $count, $rest))],
            status: $status,
            puts: Some(1),
            text: $text,
            ..PLAIN
        }
    };
}

/// Scripts at a limit of units.
pub const SIZES: &[Row] = &[
    sized!(
        b"",
        b'(',
        257,
        b"",
        Status::Script,
        "refused p.nss 1 256 nested\n"
    ),
    // It comes before syntax, also where that fault stands before it.
    sized!(
        b"5 ",
        b'(',
        257,
        b"",
        Status::Script,
        "refused p.nss 1 258 nested\n"
    ),
    sized!(
        b"void main() {",
        b'~',
        255,
        b"1; }",
        Status::Done,
        "end done clock 0 entries 1 instructions 260\n"
    ),
    sized!(
        b"void main() {",
        b'~',
        256,
        b"1; }",
        Status::Script,
        "refused p.nss 1 268 nested\n"
    ),
    sized!(
        b"void main() { PrintInteger(",
        b'(',
        255,
        b"1",
        Status::Script,
        "refused p.nss 1 281 nested\n"
    ),
    sized!(
        b"void main() {",
        b';',
        99_994,
        b"}",
        Status::Done,
        "end done clock 0 entries 1 instructions 3\n"
    ),
    sized!(
        b"void main() {",
        b';',
        99_995,
        b"}",
        Status::Script,
        "refused p.nss 1 100008 tokens\n"
    ),
];

/// Plays that are told whole, those that a limit ends among them, and files that are compiled.
pub const ENDED_AND_COMPILED: &[Row] = &[
    Row {
        line: "run - p",
        own: &[("p.nss", Held::Bytes(b"void main() { while(TRUE) {} }"))],
        status: Status::Limit,
        puts: Some(1),
        text: "end instructions clock 0 entries 1 instructions 131072\n",
        ..PLAIN
    },
    Row {
        line: "run - p",
        own: &[(
            "p.nss",
            Held::Bytes(
                b"void main() { PrintInteger(1); DelayCommand(7, PrintInteger(2)); \
                    while(TRUE) {} }",
            ),
        )],
        status: Status::Limit,
        puts: Some(2),
        text: "0 #0 print 1\ndue 7 1 stored #0 p\n\
            end instructions clock 0 entries 1 instructions 131072\n",
        ..PLAIN
    },
    Row {
        line: "run h.nss p",
        own: &[
            (
                "h.nss",
                Held::Bytes(b"int GetFoo(string s, int n=3); void PrintInteger(int n);"),
            ),
            (
                "p.nss",
                Held::Bytes(b"void main() { PrintInteger(GetFoo(\"a b\")); }"),
            ),
        ],
        puts: Some(2),
        text: "0 #0 call GetFoo(\"a b\",3)\n0 #0 print 0\n\
            end done clock 0 entries 1 instructions 7\n",
        ..PLAIN
    },
    Row {
        line: "run - greet",
        base: Base::Module,
        puts: Some(3),
        text: "\
0 #0 speak Well met, 1 goblin!
2000 #0 speak Well met, 3 goblins!
end done clock 2000 entries 2 instructions 71
",
        after: &[("greet.ncs", Held::Nothing)],
        ..PLAIN
    },
    Row {
        line: "compile - p",
        own: &[("p.nss", Held::Bytes(b"void main() {}"))],
        puts: Some(1),
        text: "compiled p.ncs 23\n",
        after: &[("p.ncs", Held::Of(Sample::Nothing))],
        ..PLAIN
    },
    Row {
        line: "compile - p",
        own: &[("p.nss", Held::Bytes(b"void main() { PrintInteger(2+3); }"))],
        puts: Some(1),
        text: "compiled p.ncs 42\n",
        after: &[("p.ncs", Held::Of(Sample::Sum))],
        ..PLAIN
    },
    Row {
        line: "compile h.nss p",
        own: &[
            ("h.nss", Held::Bytes(b"void PrintInteger(int n);")),
            ("p.nss", Held::Bytes(b"void main() { PrintInteger(2+3); }")),
        ],
        puts: Some(1),
        text: "compiled p.ncs 42\n",
        after: &[("p.ncs", Held::Of(Sample::FirstSum))],
        ..PLAIN
    },
    // An include that isn't there, and one that can't be read.
    Row {
        line: "run - p",
        own: &[("p.nss", Held::Bytes(b"#include \"nope\"\nvoid main() {}"))],
        status: Status::Missing,
        puts: Some(1),
        text: "missing nope.nss\n",
        ..PLAIN
    },
    Row {
        line: "run - p",
        own: &[
            ("p.nss", Held::Bytes(b"#include \"inc\"\nvoid main() {}")),
            ("inc.nss", Held::Bytes(b"")),
        ],
        failing: Failing::File(1),
        status: Status::Fault,
        puts: Some(0),
        ..PLAIN
    },
    Row {
        line: "compile - p",
        own: &[(
            "p.nss",
            Held::Bytes(b"void main() { PrintObject(OBJECT_INVALID); }"),
        )],
        puts: Some(1),
        text: "compiled p.ncs 34\n",
        after: &[(
            "p.ncs",
            Held::Bytes(
                b"NCS V1.0B\x00\x00\x00\x22\x1e\x00\x00\x00\x00\x08\x20\x00\x04\x06\x00\x00\x00\
                    \x01\x05\x00\x00\x05\x01\x20\x00",
            ),
        )],
        ..PLAIN
    },
];
