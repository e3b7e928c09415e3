//! Small units, each with its least fault or none.

use engine_table::{built_in, read_header};
use nss_parser::parse;
use nss_tree::Tree;
use nss_types::{TypeFault, type_unit};
use nwq_value::{FILE_BYTES, NoMemory, Table};
use std::alloc::Global;
use std::test::Fail;
use test_units::tokens_of;
use typing_rules::{Fault, FaultKind};

/// A unit, with the kind and the token of its least fault where it has one.
pub type Row = (&'static [u8], Option<(FaultKind, u32)>);

/// The tree of a unit, which is short.
fn tree_of(alloc: Global, source: &[u8]) -> Option<Tree> {
    if source.len() > FILE_BYTES {
        return None;
    }
    match tokens_of(alloc, source) {
        Ok(tokens) => match parse(alloc, tokens.as_slice()) {
            Ok(tree) => Some(tree),
            Err(_) => None,
        },
        Err(_) => None,
    }
}

/// Whether a unit has this least fault, or is typed.
fn is_as_wanted(alloc: Global, table: &Table, row: &Row) -> bool {
    match tree_of(alloc, row.0) {
        None => false,
        Some(tree) => match type_unit(alloc, tree, table) {
            Ok(typed) => {
                drop(typed);
                row.1.is_none()
            }
            Err(TypeFault::Fault(Fault { kind, token })) => row.1 == Some((kind, token)),
            Err(TypeFault::NoMemory) => false,
        },
    }
}

/// The first unit, counted from 1, that isn't as it is wanted.
fn first_unlike(alloc: Global, table: &Table, rows: &[Row]) -> u32 {
    for (number, row) in (1u32..1000).zip(rows) {
        if !is_as_wanted(alloc, table, row) {
            return number;
        }
    }
    0
}

/// The same under the built-in header.
pub fn first_unlike_built_in(alloc: Global, rows: &[Row]) -> Result<u32, NoMemory> {
    let table = built_in(alloc)?;
    Ok(first_unlike(alloc, &table, rows))
}

/// The same under a header of these lines.
pub fn first_unlike_under(alloc: Global, header: &[u8], rows: &[Row]) -> Option<u32> {
    if header.len() > FILE_BYTES {
        return None;
    }
    match read_header(alloc, header) {
        Ok(table) => Some(first_unlike(alloc, &table, rows)),
        Err(_) => None,
    }
}

const EXPRESSIONS: [Row; 33] = [
    (b"void main() {  }", None),
    (
        b"void main() { int a = 1 + 2 * 3; a = a % 2; a += 1; a++; --a; -a; ~a; !a; }",
        None,
    ),
    (
        b"void main() { string s = \"a\" + \"b\"; s += s; int a = s == \"b\"; \
            object o = OBJECT_SELF; a = o != OBJECT_INVALID; }",
        None,
    ),
    (b"void main() { 1.0; }", Some((FaultKind::RefusedType, 5))),
    (
        b"void main() { int a = .5f + 1; }",
        Some((FaultKind::RefusedType, 8)),
    ),
    (b"void main() { a; }", Some((FaultKind::Unknown, 5))),
    (b"void main() { int a = a; }", Some((FaultKind::Unknown, 8))),
    (b"void main() { 1 + b; }", Some((FaultKind::Unknown, 7))),
    (
        b"void main() { 1 + \"a\"; }",
        Some((FaultKind::Mismatch, 6)),
    ),
    (
        b"void main() { \"a\" - \"b\"; }",
        Some((FaultKind::Mismatch, 6)),
    ),
    (
        b"void main() { 1 == \"a\"; }",
        Some((FaultKind::Mismatch, 6)),
    ),
    (
        b"void main() { OBJECT_SELF && 1; }",
        Some((FaultKind::Mismatch, 6)),
    ),
    (
        b"void main() { \"a\" < \"b\"; }",
        Some((FaultKind::Mismatch, 6)),
    ),
    (b"void main() { OBJECT_SELF == OBJECT_INVALID; }", None),
    (b"void main() { -\"a\"; }", Some((FaultKind::Mismatch, 5))),
    (
        b"void main() { !OBJECT_SELF; }",
        Some((FaultKind::Mismatch, 5)),
    ),
    (b"void main() { ~\"s\"; }", Some((FaultKind::Mismatch, 5))),
    (b"void main() { 1 = 2; }", Some((FaultKind::NotPlace, 6))),
    (b"void main() { ++1; }", Some((FaultKind::NotPlace, 5))),
    (b"void main() { 1++; }", Some((FaultKind::NotPlace, 6))),
    (
        b"void main() { int a; (a + 1) = 2; }",
        Some((FaultKind::NotPlace, 13)),
    ),
    (
        b"int const_f() { return 1; } void main() { const_f() = 1; }",
        Some((FaultKind::NotPlace, 17)),
    ),
    (
        b"void main() { int a; a = \"s\"; }",
        Some((FaultKind::Mismatch, 9)),
    ),
    (
        b"void main() { string s; s -= s; }",
        Some((FaultKind::Mismatch, 9)),
    ),
    (
        b"void main() { string s; s++; }",
        Some((FaultKind::Mismatch, 9)),
    ),
    (
        b"void main() { string s; --s; }",
        Some((FaultKind::Mismatch, 8)),
    ),
    (b"void main() { int a, b; a = b = 1; }", None),
    (
        b"const int C = 1; void main() { C = 2; }",
        Some((FaultKind::NotPlace, 12)),
    ),
    (b"void main() { TRUE = 2; }", Some((FaultKind::NotPlace, 6))),
    (
        b"void main() { \"a\" = 1; }",
        Some((FaultKind::NotPlace, 6)),
    ),
    (
        b"void main() { a + (1 + \"s\"); }",
        Some((FaultKind::Unknown, 5)),
    ),
    (
        b"void main() { (1 + \"s\") + a; }",
        Some((FaultKind::Mismatch, 7)),
    ),
    (b"void main() { -a = b; }", Some((FaultKind::Unknown, 6))),
];

const CALLS: [Row; 26] = [
    (
        b"void f(int a, string s = \"x\") {} void main() { f(1); f(1, \"y\"); }",
        None,
    ),
    (
        b"void f(int a) {} void main() { f(); }",
        Some((FaultKind::Arity, 13)),
    ),
    (
        b"void f(int a) {} void main() { f(1, 2); }",
        Some((FaultKind::Arity, 13)),
    ),
    (
        b"void f(int a) {} void main() { f(\"s\"); }",
        Some((FaultKind::Mismatch, 13)),
    ),
    (b"void main() { f(); }", Some((FaultKind::Unknown, 5))),
    (
        b"void f(); void main() { f(); }",
        Some((FaultKind::Unknown, 10)),
    ),
    (b"void f(); void main() { f(); } void f() {}", None),
    (b"void main() { g(); } int g() { return 1; }", None),
    (
        b"void f() {} void main() { int a = f(); }",
        Some((FaultKind::Mismatch, 12)),
    ),
    (
        b"void f() {} void main() { f() + 1; }",
        Some((FaultKind::Mismatch, 14)),
    ),
    (
        b"void f() {} void main() { f(); for (f(); ; f()) break; }",
        None,
    ),
    (
        b"void f() {} void h(int a) {} void main() { h(f()); }",
        Some((FaultKind::Mismatch, 19)),
    ),
    (
        b"void main() { f(1, 2); } int f() { if (1) return 1; }",
        Some((FaultKind::Arity, 5)),
    ),
    (
        b"int f() { f(); } void main() {  }",
        Some((FaultKind::NoReturn, 1)),
    ),
    (
        b"void main() { f(\"a\"); } void f(float x) {}",
        Some((FaultKind::RefusedType, 14)),
    ),
    (b"void main() { int n = Random(3); }", None),
    (
        b"void main() { Random(\"a\"); }",
        Some((FaultKind::Mismatch, 5)),
    ),
    (b"void main() { Random(); }", Some((FaultKind::Arity, 5))),
    (b"void main() { PrintInteger(1); }", None),
    (
        b"void main() { AssignCommand(OBJECT_SELF, PrintInteger(1)); }",
        None,
    ),
    (
        b"void main() { AssignCommand(OBJECT_SELF, Random(3)); }",
        Some((FaultKind::Mismatch, 5)),
    ),
    (
        b"void main() { AssignCommand(OBJECT_SELF, 1); }",
        Some((FaultKind::Mismatch, 5)),
    ),
    (
        b"int v() { return 1; } void main() { AssignCommand(OBJECT_SELF, v()); }",
        Some((FaultKind::Mismatch, 14)),
    ),
    (
        b"void v() {} void main() { AssignCommand(OBJECT_SELF, v()); }",
        None,
    ),
    (
        b"void f(int a = 1); void main() { f(); } void f(int a = 2) {}",
        None,
    ),
    (
        b"void f(int a); void main() { f(); } void f(int a = 2) {}",
        Some((FaultKind::Arity, 12)),
    ),
];

const STRUCTS: [Row; 21] = [
    (
        b"struct P { int x, y; string s; }; void main() { struct P p; p.x = p.y + 1; p.s += \"a\"; \
            struct P q; p = q; p == q; }",
        None,
    ),
    (
        b"struct P { int x; }; void main() { struct P p; p.y; }",
        Some((FaultKind::Unknown, 18)),
    ),
    (
        b"void main() { int a; a.x; }",
        Some((FaultKind::Unknown, 9)),
    ),
    (
        b"void f() {} void main() { f().x; }",
        Some((FaultKind::Unknown, 14)),
    ),
    (
        b"void main() { struct P p; }",
        Some((FaultKind::Unknown, 5)),
    ),
    (
        b"struct P { struct P p; }; void main() {  }",
        Some((FaultKind::Unknown, 3)),
    ),
    (
        b"void main() { struct P p; } struct P { int x; };",
        Some((FaultKind::Unknown, 5)),
    ),
    (
        b"struct P { int x; }; struct P { int y; }; void main() {  }",
        Some((FaultKind::Redeclared, 9)),
    ),
    (
        b"struct P { int x; int x; }; void main() {  }",
        Some((FaultKind::Redeclared, 7)),
    ),
    (
        b"struct P { int x, x; }; void main() {  }",
        Some((FaultKind::Redeclared, 6)),
    ),
    (
        b"struct P { float x; }; void main() {  }",
        Some((FaultKind::RefusedType, 3)),
    ),
    (
        b"struct P { void x; }; void main() {  }",
        Some((FaultKind::Mismatch, 3)),
    ),
    (b"int P; struct P { int x; }; void main() {  }", None),
    (
        b"struct P { int x; }; struct Q { int x; }; \
            void main() { struct P p; struct Q q; p == q; }",
        Some((FaultKind::Mismatch, 30)),
    ),
    (
        b"struct P { int x; }; struct Q { int x; }; void main() { struct P p; struct Q q; p = q; }",
        Some((FaultKind::Mismatch, 30)),
    ),
    (
        b"struct P { int x; }; struct Q { struct P p; }; void main() { struct Q q; q.p.x = 1; }",
        None,
    ),
    (
        b"struct P { int a0, a1, a2, a3, a4, a5, a6, a7, a8, a9, a10, a11, a12, a13, a14, \
            a15, a16, a17, a18, a19, a20, a21, a22, a23, a24, a25, a26, a27, a28, a29, \
            a30, a31, a32, a33, a34, a35, a36, a37, a38, a39, a40, a41, a42, a43, a44, \
            a45, a46, a47, a48, a49, a50, a51, a52, a53, a54, a55, a56, a57, a58, a59, \
            a60, a61, a62, a63, z; }; \
            void main() {  }",
        Some((FaultKind::Cells, 132)),
    ),
    (
        b"struct P { int a0, a1, a2, a3, a4, a5, a6, a7, a8, a9, a10, a11, a12, a13, a14, \
            a15, a16, a17, a18, a19, a20, a21, a22, a23, a24, a25, a26, a27, a28, a29, \
            a30, a31, a32, a33, a34, a35, a36, a37, a38, a39, a40, a41, a42, a43, a44, \
            a45, a46, a47, a48, a49, a50, a51, a52, a53, a54, a55, a56, a57, a58, a59, \
            a60, a61, a62, a63; }; \
            void main() {  }",
        None,
    ),
    (
        b"struct P { float x; }; void main() { struct P p; p.x = 1; p = 2; }",
        Some((FaultKind::RefusedType, 3)),
    ),
    (
        b"struct P { int x; }; struct P f() { struct P p; return p; } void main() { f().x = 1; }",
        Some((FaultKind::NotPlace, 32)),
    ),
    (
        b"struct P { int x; }; void main() { struct P p; p + p; }",
        Some((FaultKind::Mismatch, 18)),
    ),
];

const NAMES: [Row; 35] = [
    (
        b"void main() { int a; int a; }",
        Some((FaultKind::Redeclared, 9)),
    ),
    (
        b"void main() { int a, a; }",
        Some((FaultKind::Redeclared, 8)),
    ),
    (b"void main() { int a; { int a; } { string a; } }", None),
    (b"int a; void main() { string a; a = \"s\"; }", None),
    (
        b"int a; void main() { string a; a = 1; }",
        Some((FaultKind::Mismatch, 12)),
    ),
    (b"void main() { { int a; } int a; }", None),
    (
        b"void main() { { int a; } a; }",
        Some((FaultKind::Unknown, 10)),
    ),
    (
        b"void f(int a) { int a; } void main() {  }",
        Some((FaultKind::Redeclared, 8)),
    ),
    (b"void f(int a) { { int a; } } void main() {  }", None),
    (
        b"void f(int a, int a) {} void main() {  }",
        Some((FaultKind::Redeclared, 6)),
    ),
    (
        b"int a; int a; void main() {  }",
        Some((FaultKind::Redeclared, 4)),
    ),
    (
        b"int TRUE; void main() {  }",
        Some((FaultKind::Redeclared, 1)),
    ),
    (
        b"int Random; void main() {  }",
        Some((FaultKind::Redeclared, 1)),
    ),
    (b"void main() { int TRUE; int Random; }", None),
    (
        b"int f; void f() {} void main() {  }",
        Some((FaultKind::Redeclared, 4)),
    ),
    (
        b"void f() {} int f; void main() {  }",
        Some((FaultKind::Redeclared, 7)),
    ),
    (
        b"void Random() {} void main() {  }",
        Some((FaultKind::Redeclared, 1)),
    ),
    (
        b"void f(); int f(); void main() {  }",
        Some((FaultKind::Redeclared, 6)),
    ),
    (
        b"void f(int a); void f(string a) {} void main() {  }",
        Some((FaultKind::Redeclared, 8)),
    ),
    (
        b"void f() {} void f() {} void main() {  }",
        Some((FaultKind::Redeclared, 7)),
    ),
    (b"void f(); void f(); void f() {} void main() {  }", None),
    (
        b"const int C = 1; int C; void main() {  }",
        Some((FaultKind::Redeclared, 7)),
    ),
    (
        b"void main() { int a = \"s\"; }",
        Some((FaultKind::Mismatch, 6)),
    ),
    (
        b"void main() { float a; }",
        Some((FaultKind::RefusedType, 5)),
    ),
    (
        b"void main() { float a = x; }",
        Some((FaultKind::RefusedType, 5)),
    ),
    (b"void main() { void a; }", Some((FaultKind::Mismatch, 5))),
    (
        b"void main() { vector v; }",
        Some((FaultKind::RefusedType, 5)),
    ),
    (
        b"void main() { location l; }",
        Some((FaultKind::RefusedType, 5)),
    ),
    (
        b"void main() { action a; }",
        Some((FaultKind::RefusedType, 5)),
    ),
    (b"int a = 1; int b = a + 1; void main() { b = a; }", None),
    (
        b"int a = b; int b; void main() {  }",
        Some((FaultKind::Unknown, 3)),
    ),
    (
        b"int f() { return 1; } int a = f(); void main() {  }",
        Some((FaultKind::NotConst, 12)),
    ),
    (b"int a = Random(3); void main() {  }", None),
    (
        b"int TRUE = \"s\"; void main() {  }",
        Some((FaultKind::Redeclared, 1)),
    ),
    (
        b"void main() { int a = 1; { int a = b; } }",
        Some((FaultKind::Unknown, 14)),
    ),
];

const CONSTANTS: [Row; 21] = [
    (
        b"const int C = 1; const string S = \"s\"; const int D = C; const int E = -1; \
            void main() { C + D; }",
        None,
    ),
    (
        b"const int A = \"s\"; void main() {  }",
        Some((FaultKind::Mismatch, 2)),
    ),
    (
        b"const object O = OBJECT_SELF; void main() {  }",
        Some((FaultKind::Mismatch, 1)),
    ),
    (
        b"const float F = 1.0; void main() {  }",
        Some((FaultKind::RefusedType, 1)),
    ),
    (
        b"const int A = B; void main() {  }",
        Some((FaultKind::Unknown, 4)),
    ),
    (
        b"int g; const int A = g; void main() {  }",
        Some((FaultKind::NotConst, 7)),
    ),
    (b"const int A = TRUE; void main() {  }", None),
    (
        b"const int A = 1; const int A = 2; void main() {  }",
        Some((FaultKind::Redeclared, 8)),
    ),
    (
        b"const struct P A = 1; void main() {  }",
        Some((FaultKind::Unknown, 1)),
    ),
    (
        b"const int C = 1; void F(int C, int D = C) {} void main() {  }",
        Some((FaultKind::NotConst, 15)),
    ),
    (
        b"const int C = 1; void F(int C = C) {} void main() {  }",
        None,
    ),
    (
        b"void f(int x = 1.0) {} void main() {  }",
        Some((FaultKind::RefusedType, 6)),
    ),
    (
        b"void f(float x = 1.0) {} void main() {  }",
        Some((FaultKind::RefusedType, 6)),
    ),
    (
        b"void f(int x = \"s\") {} void main() {  }",
        Some((FaultKind::Mismatch, 3)),
    ),
    (
        b"void f(int a = 1, int b) {} void main() {  }",
        Some((FaultKind::Arity, 8)),
    ),
    (
        b"void f(float x) {} void main() {  }",
        Some((FaultKind::RefusedType, 3)),
    ),
    (
        b"float f() {} void main() {  }",
        Some((FaultKind::RefusedType, 1)),
    ),
    (
        b"void f(void x) {} void main() {  }",
        Some((FaultKind::Mismatch, 3)),
    ),
    (
        b"void f(object o = OBJECT_SELF, string s = \"\") {} void main() { f(); }",
        None,
    ),
    (
        b"void f(struct P p) {} void main() {  }",
        Some((FaultKind::Unknown, 3)),
    ),
    (
        b"struct P f() {} void main() {  }",
        Some((FaultKind::Unknown, 2)),
    ),
];

const STATEMENTS: [Row; 34] = [
    (
        b"void main() { if (1) ; else ; while (0) ; do ; while (0); for (;;) break; return; }",
        None,
    ),
    (
        b"void main() { if (\"x\") ; }",
        Some((FaultKind::Mismatch, 5)),
    ),
    (
        b"void main() { if (\"x\") { y; } }",
        Some((FaultKind::Unknown, 10)),
    ),
    (
        b"void main() { if (\"x\") ; else ; }",
        Some((FaultKind::Mismatch, 5)),
    ),
    (
        b"void main() { while (\"x\") ; }",
        Some((FaultKind::Mismatch, 5)),
    ),
    (
        b"void main() { do ; while (\"x\"); }",
        Some((FaultKind::Mismatch, 5)),
    ),
    (
        b"void main() { for (; \"x\"; ) ; }",
        Some((FaultKind::Mismatch, 5)),
    ),
    (b"void main() { for (\"x\"; 1; \"y\") ; }", None),
    (
        b"void main() { switch (\"x\") { } }",
        Some((FaultKind::Mismatch, 5)),
    ),
    (b"void main() { break; }", Some((FaultKind::Outside, 5))),
    (b"void main() { continue; }", Some((FaultKind::Outside, 5))),
    (
        b"void main() { switch (1) { case 1: continue; } }",
        Some((FaultKind::Outside, 13)),
    ),
    (
        b"void main() { while (1) { switch (1) { case 1: continue; } if (1) break; } }",
        None,
    ),
    (
        b"void main() { switch (1) { case 1: case 2: break; default: ; } }",
        None,
    ),
    (
        b"void main() { switch (1) { case 1: case 1: ; } }",
        Some((FaultKind::Redeclared, 13)),
    ),
    (
        b"void main() { switch (1) { default: default: ; } }",
        Some((FaultKind::Redeclared, 12)),
    ),
    (
        b"void main() { switch (1) { int a; case 1: ; } }",
        Some((FaultKind::Outside, 13)),
    ),
    (
        b"void main() { switch (1) { int a; default: ; } }",
        Some((FaultKind::Outside, 13)),
    ),
    (
        b"void main() { switch (1) { case 1: { int a; } case 2: ; } }",
        None,
    ),
    (
        b"void main() { switch (1) { case \"s\": ; } }",
        Some((FaultKind::Mismatch, 10)),
    ),
    (
        b"int n; void main() { switch (1) { case n: ; } }",
        Some((FaultKind::NotConst, 14)),
    ),
    (
        b"void main() { switch (1) { case n: ; } }",
        Some((FaultKind::Unknown, 11)),
    ),
    (
        b"const int N = 1; void main() { switch (1) { case 1: case N: ; } }",
        Some((FaultKind::Redeclared, 19)),
    ),
    (
        b"void main() { switch (1) { case 1: switch (2) { case 1: ; } } }",
        None,
    ),
    (b"void main() { return 1; }", Some((FaultKind::Mismatch, 5))),
    (
        b"int f() { return; } void main() {  }",
        Some((FaultKind::Mismatch, 5)),
    ),
    (
        b"int f() { return \"s\"; } void main() {  }",
        Some((FaultKind::Mismatch, 5)),
    ),
    (
        b"void v() {} void f() { return v(); } void main() {  }",
        Some((FaultKind::Mismatch, 11)),
    ),
    (
        b"void main() { while (x) { int x; } }",
        Some((FaultKind::Unknown, 7)),
    ),
    (
        b"void main() { do { int x; } while (x); }",
        Some((FaultKind::Unknown, 13)),
    ),
    (
        b"void main() { switch (1) { case 1: int a; a = 1; } }",
        None,
    ),
    (
        b"void main() { float f; f = 1; f + 1; }",
        Some((FaultKind::RefusedType, 5)),
    ),
    (
        b"void main() { { float f; } 1 + \"s\"; }",
        Some((FaultKind::RefusedType, 6)),
    ),
    (
        b"void main() { 1 + \"s\"; float f; }",
        Some((FaultKind::Mismatch, 6)),
    ),
];

const RETURNS: [Row; 19] = [
    (b"int f() { return 1; } void main() {  }", None),
    (
        b"int f() {} void main() {  }",
        Some((FaultKind::NoReturn, 1)),
    ),
    (
        b"int f() { if (1) return 1; } void main() {  }",
        Some((FaultKind::NoReturn, 1)),
    ),
    (
        b"int f() { if (1) return 1; else return 2; } void main() {  }",
        None,
    ),
    (b"int f() { { return 1; } } void main() {  }", None),
    (
        b"int f() { do return 1; while (1); } void main() {  }",
        None,
    ),
    (
        b"int f() { do { break; return 1; } while (1); } void main() {  }",
        None,
    ),
    (
        b"int f() { while (1) return 1; } void main() {  }",
        Some((FaultKind::NoReturn, 1)),
    ),
    (
        b"int f() { for (;;) return 1; } void main() {  }",
        Some((FaultKind::NoReturn, 1)),
    ),
    (
        b"int f() { switch (1) { default: return 1; } } void main() {  }",
        None,
    ),
    (
        b"int f() { switch (1) { case 1: return 1; } } void main() {  }",
        Some((FaultKind::NoReturn, 1)),
    ),
    (
        b"int f() { switch (1) { default: break; return 1; } } void main() {  }",
        Some((FaultKind::NoReturn, 1)),
    ),
    (
        b"int f() { switch (1) { default: while (1) break; return 1; } } void main() {  }",
        None,
    ),
    (
        b"int f() { switch (1) { case 1: return 1; default: return 2; case 3: } } void main() {  }",
        None,
    ),
    (
        b"int f() { switch (1) { default: return 1; case 2: ; } } void main() {  }",
        Some((FaultKind::NoReturn, 1)),
    ),
    (b"int f(); void main() {  }", None),
    (b"int f() { return 1; 2; } void main() {  }", None),
    (
        b"void main() {  } int f() { float x; }",
        Some((FaultKind::RefusedType, 11)),
    ),
    (
        b"int f() { x; } void main() {  }",
        Some((FaultKind::Unknown, 5)),
    ),
];

const ENTRIES: [Row; 12] = [
    (b"", Some((FaultKind::Entry, 0))),
    (b"int a;", Some((FaultKind::Entry, 3))),
    (b"void main();", Some((FaultKind::Entry, 5))),
    (b"int main() { return 1; }", Some((FaultKind::Entry, 9))),
    (b"void main(int a) {}", Some((FaultKind::Entry, 8))),
    (b"int StartingConditional() { return 1; }", None),
    (
        b"void StartingConditional() {}",
        Some((FaultKind::Entry, 6)),
    ),
    (
        b"void main() {} int StartingConditional() { return 1; }",
        None,
    ),
    (b"void main(); void main() {}", None),
    (b"int a = b;", Some((FaultKind::Unknown, 3))),
    (b"int f() {}", Some((FaultKind::NoReturn, 1))),
    (
        b"int StartingConditional() { if (1) return 1; }",
        Some((FaultKind::NoReturn, 1)),
    ),
];

#[test]
fn expressions(rt: HostRuntime) -> Result<(), Fail> {
    let table = built_in(rt.alloc()).ok().ok_or("no table")?;
    assert_eq!(rt; first_unlike(rt.alloc(), &table, EXPRESSIONS.as_slice()), 0);
    Ok(())
}

#[test]
fn calls(rt: HostRuntime) -> Result<(), Fail> {
    let table = built_in(rt.alloc()).ok().ok_or("no table")?;
    assert_eq!(rt; first_unlike(rt.alloc(), &table, CALLS.as_slice()), 0);
    Ok(())
}

#[test]
fn structs(rt: HostRuntime) -> Result<(), Fail> {
    let table = built_in(rt.alloc()).ok().ok_or("no table")?;
    assert_eq!(rt; first_unlike(rt.alloc(), &table, STRUCTS.as_slice()), 0);
    Ok(())
}

#[test]
fn names(rt: HostRuntime) -> Result<(), Fail> {
    let table = built_in(rt.alloc()).ok().ok_or("no table")?;
    assert_eq!(rt; first_unlike(rt.alloc(), &table, NAMES.as_slice()), 0);
    Ok(())
}

#[test]
fn constants(rt: HostRuntime) -> Result<(), Fail> {
    let table = built_in(rt.alloc()).ok().ok_or("no table")?;
    assert_eq!(rt; first_unlike(rt.alloc(), &table, CONSTANTS.as_slice()), 0);
    Ok(())
}

#[test]
fn statements(rt: HostRuntime) -> Result<(), Fail> {
    let table = built_in(rt.alloc()).ok().ok_or("no table")?;
    assert_eq!(rt; first_unlike(rt.alloc(), &table, STATEMENTS.as_slice()), 0);
    Ok(())
}

#[test]
fn returns(rt: HostRuntime) -> Result<(), Fail> {
    let table = built_in(rt.alloc()).ok().ok_or("no table")?;
    assert_eq!(rt; first_unlike(rt.alloc(), &table, RETURNS.as_slice()), 0);
    Ok(())
}

#[test]
fn entries(rt: HostRuntime) -> Result<(), Fail> {
    let table = built_in(rt.alloc()).ok().ok_or("no table")?;
    assert_eq!(rt; first_unlike(rt.alloc(), &table, ENTRIES.as_slice()), 0);
    Ok(())
}
