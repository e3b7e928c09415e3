//! Lines that are done one after another over the same files.

use test_rows::answers::{Held, PLAIN, Row};
use test_rows::bases::Base;
use test_rows::samples::Sample;

const SOURCE: &[u8] = b"int f(int a, int b) { if (a==0) return b; return f(a-1,b+1); } \
    void main() { PrintInteger(f(3,4)); }";

/// A row goes on over what the row before left, where it says so.
pub const ROWS: &[Row] = &[
    // What is compiled is well stacked, and means the same.
    Row {
        line: "compile - p",
        own: &[("p.nss", Held::Bytes(SOURCE))],
        text: "compiled p.ncs 158\n",
        after: &[("p.ncs", Held::Something)],
        ..PLAIN
    },
    Row {
        line: "check - p.ncs",
        left: true,
        text: "passed 29\n",
        after: &[("p.ncs", Held::Something)],
        ..PLAIN
    },
    Row {
        line: "run - p",
        left: true,
        text: "0 #0 print 7\nend done clock 0 entries 1 instructions 61\n",
        after: &[("p.ncs", Held::Something)],
        ..PLAIN
    },
    // A script's file of code goes to its text and back.
    Row {
        line: "play - a.git x.plan f.git",
        base: Base::Rounds,
        text: "0 #1 speak round 6\n6000 #1 print 6\n6000 #1 speak round 7\n12000 #1 print 7\n\
            end done clock 12000 entries 6 instructions 64\n",
        after: &[
            ("tick.ncs", Held::Of(Sample::Tick)),
            ("f.git", Held::Of(Sample::Seven)),
        ],
        ..PLAIN
    },
    Row {
        line: "dis tick.ncs t.txt",
        base: Base::Rounds,
        left: true,
        text: "disassembled t.txt 34\n",
        ..PLAIN
    },
    Row {
        line: "asm t.txt tick.ncs",
        base: Base::Rounds,
        left: true,
        text: "assembled tick.ncs 203\n",
        after: &[
            ("tick.ncs", Held::Of(Sample::Tick)),
            ("f.git", Held::Of(Sample::Seven)),
        ],
        ..PLAIN
    },
];
