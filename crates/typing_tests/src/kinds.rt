//! Each kind of fault at the constructs that can have it.
use crate::units::{Row, first_unlike_built_in};
use std::test::*;
use typing_rules::FaultKind;

const OPERATORS: &[Row] = &[
    (
        b"void main() { OBJECT_SELF || 1; }",
        Some((FaultKind::Mismatch, 6)),
    ),
    (
        b"void main() { OBJECT_SELF | 1; }",
        Some((FaultKind::Mismatch, 6)),
    ),
    (
        b"void main() { OBJECT_SELF ^ 1; }",
        Some((FaultKind::Mismatch, 6)),
    ),
    (
        b"void main() { OBJECT_SELF & 1; }",
        Some((FaultKind::Mismatch, 6)),
    ),
    (
        b"void main() { \"a\" >= \"b\"; }",
        Some((FaultKind::Mismatch, 6)),
    ),
    (
        b"void main() { \"a\" > \"b\"; }",
        Some((FaultKind::Mismatch, 6)),
    ),
    (
        b"void main() { \"a\" <= \"b\"; }",
        Some((FaultKind::Mismatch, 6)),
    ),
    (
        b"void main() { 1 << \"b\"; }",
        Some((FaultKind::Mismatch, 6)),
    ),
    (
        b"void main() { 1 >> \"b\"; }",
        Some((FaultKind::Mismatch, 6)),
    ),
    (
        b"void main() { 1 >>> \"b\"; }",
        Some((FaultKind::Mismatch, 6)),
    ),
    (
        b"void main() { \"a\" * 2; }",
        Some((FaultKind::Mismatch, 6)),
    ),
    (
        b"void main() { \"a\" / 2; }",
        Some((FaultKind::Mismatch, 6)),
    ),
    (
        b"void main() { \"a\" % 2; }",
        Some((FaultKind::Mismatch, 6)),
    ),
    (
        b"void main() { effect e; event v; e == e; v != v; e = e; v = v; }",
        None,
    ),
    (
        b"void main() { effect e; event v; e == v; }",
        Some((FaultKind::Mismatch, 12)),
    ),
    (
        b"void main() { OBJECT_SELF != 0; }",
        Some((FaultKind::Mismatch, 6)),
    ),
    (
        b"void main() { event v; v + v; }",
        Some((FaultKind::Mismatch, 9)),
    ),
    (
        b"void main() { effect e; !e; }",
        Some((FaultKind::Mismatch, 8)),
    ),
    (
        b"void main() { int a; a += \"s\"; }",
        Some((FaultKind::Mismatch, 9)),
    ),
    (
        b"void main() { string s; s += 1; }",
        Some((FaultKind::Mismatch, 9)),
    ),
    (
        b"void main() { object o; o += o; }",
        Some((FaultKind::Mismatch, 9)),
    ),
    (
        b"void main() { string s; s *= 2; }",
        Some((FaultKind::Mismatch, 9)),
    ),
    (
        b"void main() { string s; s <<= s; }",
        Some((FaultKind::Mismatch, 9)),
    ),
    (
        b"void main() { string s; s /= 1; }",
        Some((FaultKind::Mismatch, 9)),
    ),
    (
        b"void main() { string s; s %= 1; }",
        Some((FaultKind::Mismatch, 9)),
    ),
    (
        b"void main() { string s; s &= 1; }",
        Some((FaultKind::Mismatch, 9)),
    ),
    (
        b"void main() { string s; s ^= 1; }",
        Some((FaultKind::Mismatch, 9)),
    ),
    (
        b"void main() { string s; s >>= 1; }",
        Some((FaultKind::Mismatch, 9)),
    ),
    (
        b"void main() { string s; s >>>= 1; }",
        Some((FaultKind::Mismatch, 9)),
    ),
    (
        b"void main() { int a; a |= OBJECT_SELF; }",
        Some((FaultKind::Mismatch, 9)),
    ),
    (
        b"void main() { object o; effect e; o = e; }",
        Some((FaultKind::Mismatch, 12)),
    ),
    (
        b"void main() { object o; o--; }",
        Some((FaultKind::Mismatch, 9)),
    ),
    (
        b"void main() { string s; ++s; }",
        Some((FaultKind::Mismatch, 8)),
    ),
    (b"void main() { 1 += 2; }", Some((FaultKind::NotPlace, 6))),
    (b"void main() { 1 -= 2; }", Some((FaultKind::NotPlace, 6))),
    (b"void main() { 1 *= 2; }", Some((FaultKind::NotPlace, 6))),
    (b"void main() { 1 /= 2; }", Some((FaultKind::NotPlace, 6))),
    (b"void main() { 1 %= 2; }", Some((FaultKind::NotPlace, 6))),
    (b"void main() { 1 &= 2; }", Some((FaultKind::NotPlace, 6))),
    (b"void main() { 1 |= 2; }", Some((FaultKind::NotPlace, 6))),
    (b"void main() { 1 ^= 2; }", Some((FaultKind::NotPlace, 6))),
    (b"void main() { 1 <<= 2; }", Some((FaultKind::NotPlace, 6))),
    (b"void main() { 1 >>= 2; }", Some((FaultKind::NotPlace, 6))),
    (b"void main() { 1 >>>= 2; }", Some((FaultKind::NotPlace, 6))),
    (b"void main() { 1--; }", Some((FaultKind::NotPlace, 6))),
    // What is no place comes before what has a wrong type.
    (
        b"void main() { \"a\" += 1; }",
        Some((FaultKind::NotPlace, 6)),
    ),
    (b"void main() { ++\"s\"; }", Some((FaultKind::NotPlace, 5))),
    (b"void main() { \"s\"++; }", Some((FaultKind::NotPlace, 6))),
    (
        b"void main() { OBJECT_SELF = 1; }",
        Some((FaultKind::NotPlace, 6)),
    ),
    (
        b"void main() { int a; a++ ++; }",
        Some((FaultKind::NotPlace, 10)),
    ),
    (
        b"void main() { int a; ++a++; }",
        Some((FaultKind::NotPlace, 8)),
    ),
    (
        b"void main() { int a; --(a = 1); }",
        Some((FaultKind::NotPlace, 8)),
    ),
    (b"void main() { int a; (a) = 1; ++(a); (a)--; }", None),
    (
        b"void f() {} void main() { f() = 1; }",
        Some((FaultKind::NotPlace, 14)),
    ),
    (
        b"void f() {} void main() { int a; a = f(); }",
        Some((FaultKind::Mismatch, 15)),
    ),
    (
        b"void f() {} void main() { -f(); }",
        Some((FaultKind::Mismatch, 11)),
    ),
    (
        b"void f() {} void main() { f() == f(); }",
        Some((FaultKind::Mismatch, 14)),
    ),
    (b"void main() { int a = -2147483648 + 0xffffffff; }", None),
];

const CALLEES: &[Row] = &[
    // What cannot be called comes before wrong counts and types.
    (
        b"void main() { PrintFloat(1); }",
        Some((FaultKind::RefusedType, 5)),
    ),
    (
        b"void main() { PrintFloat(); }",
        Some((FaultKind::RefusedType, 5)),
    ),
    (
        b"void main() { PrintFloat(1.0); }",
        Some((FaultKind::RefusedType, 7)),
    ),
    (
        b"void main() { string s = FloatToString(1); }",
        Some((FaultKind::RefusedType, 8)),
    ),
    (
        b"void main() { Random(1, 2); }",
        Some((FaultKind::Arity, 5)),
    ),
    (
        b"void main() { Random(\"a\", 1); }",
        Some((FaultKind::Arity, 5)),
    ),
    (
        b"void main() { ExecuteScript(\"a\"); ExecuteScript(\"a\", OBJECT_INVALID); }",
        None,
    ),
    (
        b"void main() { ExecuteScript(); }",
        Some((FaultKind::Arity, 5)),
    ),
    (
        b"void main() { ExecuteScript(\"a\", OBJECT_SELF, 1); }",
        Some((FaultKind::Arity, 5)),
    ),
    // A variable hides no function.
    (b"void f() {} void main() { int f; f(); f = 1; }", None),
    (
        b"void f() {} void main() { f; }",
        Some((FaultKind::Unknown, 11)),
    ),
    (
        b"int a; void main() { a(); }",
        Some((FaultKind::Unknown, 8)),
    ),
    (b"void main() { Random; }", Some((FaultKind::Unknown, 5))),
    (b"void main() { TRUE(); }", Some((FaultKind::Unknown, 5))),
    // The unit's function is meant, and not the header's.
    (
        b"void main() { Random(\"a\"); } int Random(string s) { return 1; }",
        Some((FaultKind::Redeclared, 12)),
    ),
    // A prototype alone is meant by no call.
    (
        b"void main() { Random(\"a\"); } int Random(string s);",
        Some((FaultKind::Mismatch, 5)),
    ),
    (
        b"void main() { AssignCommand(OBJECT_SELF, (PrintInteger(1))); }",
        None,
    ),
    (
        b"void main() { DelayCommand(\"x\", PrintInteger(1)); }",
        Some((FaultKind::Mismatch, 5)),
    ),
    (
        b"void main() { DelayCommand(1); }",
        Some((FaultKind::Arity, 5)),
    ),
    (
        b"void main() { DelayCommand(1, PrintInteger()); }",
        Some((FaultKind::Arity, 9)),
    ),
    (
        b"void main() { DelayCommand(1, DelayCommand(2, PrintInteger(3))); }",
        None,
    ),
    (
        b"void main() { ActionDoCommand(\"s\"); }",
        Some((FaultKind::Mismatch, 5)),
    ),
    (
        b"void main() { PrintInteger(DelayCommand(1, PrintInteger(1))); }",
        Some((FaultKind::Mismatch, 5)),
    ),
    (
        b"void main() { event v = EventUserDefined(1); SignalEvent(OBJECT_SELF, v); \
          SignalEvent(OBJECT_SELF, 1); }",
        Some((FaultKind::Mismatch, 20)),
    ),
    (
        b"struct P { int x; }; void f(struct P p) {} void main() { struct P p; f(p); f(p.x); }",
        Some((FaultKind::Mismatch, 31)),
    ),
    (
        b"int f(int n) { return f(n) + g(n); } int g(int n) { return f(n); } void main() { \
          f(1); }",
        None,
    ),
    (
        b"void f(int n) { int n2 = n; f(\"a\"); } void main() { }",
        Some((FaultKind::Mismatch, 12)),
    ),
    (
        b"void f(); void f() {} void main() { f(); f(1); }",
        Some((FaultKind::Arity, 20)),
    ),
];

const FAULTS_OF_STRUCTS: &[Row] = &[
    (
        b"struct P p; void main() { }",
        Some((FaultKind::Unknown, 0)),
    ),
    // Names of structs are a list of their own.
    (
        b"struct Random { int x; }; struct main { int y; }; void main() { struct Random r; \
          struct main m; }",
        None,
    ),
    (
        b"struct P { int TRUE; int main; }; void main() { struct P p; p.TRUE = p.main; }",
        None,
    ),
    (
        b"struct P { int x; }; struct Q { struct P p; }; void main() { struct Q q; q.p.p; }",
        Some((FaultKind::Unknown, 29)),
    ),
    (b"void main() { \"a\".x; }", Some((FaultKind::Unknown, 6))),
    (
        b"void main() { OBJECT_SELF.x = 1; }",
        Some((FaultKind::Unknown, 6)),
    ),
    (
        b"struct P { string s; }; void main() { struct P p; p.s = 1; }",
        Some((FaultKind::Mismatch, 20)),
    ),
    (
        b"struct P { string s; }; void main() { struct P p; p.s++; }",
        Some((FaultKind::Mismatch, 20)),
    ),
    (
        b"struct P { int x; }; void main() { struct P p; (p = p).x = 1; }",
        Some((FaultKind::NotPlace, 24)),
    ),
    (
        b"struct P { int x; }; struct P f() { struct P p; return p; } void main() { f().x++; }",
        Some((FaultKind::NotPlace, 32)),
    ),
    (
        b"struct P { int x; }; struct P f() { struct P p; return p; } void main() { f() = \
          f(); }",
        Some((FaultKind::NotPlace, 30)),
    ),
    (
        b"struct P { int x; }; void main() { struct P p; if (p) ; }",
        Some((FaultKind::Mismatch, 17)),
    ),
    (
        b"struct P { int x; }; void main() { struct P p; !p; }",
        Some((FaultKind::Mismatch, 17)),
    ),
    (
        b"struct P { int x; }; struct Q { int x; }; struct P f() { struct Q q; return q; } \
          void main() { }",
        Some((FaultKind::Mismatch, 26)),
    ),
    (
        b"struct P { int x; }; struct Q { int x; }; void f(struct P p); void f(struct Q q) {} \
          void main() { }",
        Some((FaultKind::Redeclared, 25)),
    ),
    (
        b"struct P { int x; }; struct Q { int x; }; void main() { struct P p; struct Q q = p; \
          }",
        Some((FaultKind::Mismatch, 27)),
    ),
    (
        b"struct P { struct Q q; }; struct Q { int x; }; void main() { }",
        Some((FaultKind::Unknown, 3)),
    ),
    (
        b"struct P { action a; }; void main() { }",
        Some((FaultKind::RefusedType, 3)),
    ),
    (
        b"struct P { event v; effect e; object o; }; void main() { struct P p; p.v == p.v; \
          p.e = p.e; }",
        None,
    ),
    (
        b"struct P { int x; }; const struct P A = 1; void main() { }",
        Some((FaultKind::Mismatch, 9)),
    ),
    (
        b"struct P { int x; }; void f(struct P p = 1) {} void main() { }",
        Some((FaultKind::Mismatch, 11)),
    ),
    (
        b"struct P { int x; }; struct P f() { struct P p; return p; } struct P g = f(); void \
          main() { }",
        Some((FaultKind::NotConst, 26)),
    ),
    (
        b"struct P { int x; }; struct P f() {} void main() { }",
        Some((FaultKind::NoReturn, 10)),
    ),
];

const DECLARED_NAMES: &[Row] = &[
    (
        b"void main() { talent t; }",
        Some((FaultKind::RefusedType, 5)),
    ),
    (
        b"void main() { itemproperty t; }",
        Some((FaultKind::RefusedType, 5)),
    ),
    (
        b"float g; void main() { }",
        Some((FaultKind::RefusedType, 0)),
    ),
    (b"void g; void main() { }", Some((FaultKind::Mismatch, 0))),
    (
        b"void f(action a) {} void main() { }",
        Some((FaultKind::RefusedType, 3)),
    ),
    (
        b"location f(); void main() { }",
        Some((FaultKind::RefusedType, 1)),
    ),
    (
        b"event v; effect e; event f(event a, effect b) { return a; } void main() { v = f(v, \
          e); }",
        None,
    ),
    // A declaration is judged by its type alone.
    (
        b"void main() { float f = 1.0; }",
        Some((FaultKind::RefusedType, 5)),
    ),
    (
        b"void main() { float f = 1; }",
        Some((FaultKind::RefusedType, 5)),
    ),
    (
        b"void main() { void a = b; }",
        Some((FaultKind::Mismatch, 5)),
    ),
    (
        b"void main() { struct P p = b; }",
        Some((FaultKind::Unknown, 5)),
    ),
    (
        b"const float F = x; void main() { }",
        Some((FaultKind::RefusedType, 1)),
    ),
    (b"void main() { int a = 1, b = a, c = a + b; }", None),
    (
        b"void main() { int a = b, c = d; }",
        Some((FaultKind::Unknown, 8)),
    ),
    (
        b"void main() { int a, b = b; }",
        Some((FaultKind::Unknown, 10)),
    ),
    (
        b"int TRUE() { return 1; } void main() { }",
        Some((FaultKind::Redeclared, 1)),
    ),
    (
        b"const int Random = 1; void main() { }",
        Some((FaultKind::Redeclared, 2)),
    ),
    (
        b"void Random(int n); void main() { }",
        Some((FaultKind::Redeclared, 1)),
    ),
    (
        b"const int f = 1; void f() {} void main() { }",
        Some((FaultKind::Redeclared, 7)),
    ),
    (
        b"void f(); int f = 1; void main() { }",
        Some((FaultKind::Redeclared, 6)),
    ),
    (
        b"void f(int a); void f() {} void main() { }",
        Some((FaultKind::Redeclared, 8)),
    ),
    (
        b"void main() {} void main() {}",
        Some((FaultKind::Redeclared, 7)),
    ),
    (
        b"void main() { switch (1) { case 1: int a; int a; } }",
        Some((FaultKind::Redeclared, 17)),
    ),
    // The body of a switch is a scope.
    (
        b"void main() { int a; switch (1) { case 1: string a; a = \"s\"; } }",
        None,
    ),
    (
        b"void main() { if (1) { int a; } else { int a; } while (0) { int a; } }",
        None,
    ),
    (
        b"void main() { for (i = 0; i < 3; i++) { int i; } }",
        Some((FaultKind::Unknown, 7)),
    ),
    (b"void main() { g; } int g;", Some((FaultKind::Unknown, 5))),
    (
        b"void main() { C; } const int C = 1;",
        Some((FaultKind::Unknown, 5)),
    ),
    (b"int g = g; void main() { }", Some((FaultKind::Unknown, 3))),
    (
        b"int g = TRUE; object o = OBJECT_SELF; string s = \"a\" + \"b\"; void main() { }",
        None,
    ),
    (
        b"int g = \"s\" + 1; void main() { }",
        Some((FaultKind::Mismatch, 4)),
    ),
    (
        b"int g = \"s\"; void main() { }",
        Some((FaultKind::Mismatch, 1)),
    ),
    // An action in a first value is at fault itself.
    (
        b"int g = DelayCommand(1, PrintInteger(1)); void main() { }",
        Some((FaultKind::NotConst, 7)),
    ),
    (
        b"int f(int n) { return n; } int g = 1 + f(2); void main() { }",
        Some((FaultKind::NotConst, 16)),
    ),
    (
        b"int f(int n) { return n; } int g = f(x); void main() { }",
        Some((FaultKind::Unknown, 16)),
    ),
    (
        b"int g = f(); int f() { return 1; } void main() { }",
        Some((FaultKind::NotConst, 3)),
    ),
    (
        b"int g = f(); void main() { }",
        Some((FaultKind::Unknown, 3)),
    ),
];

const FIRST_VALUES_OF_GLOBALS: &[Row] = &[
    (
        b"int g = 1.5; void main() { }",
        Some((FaultKind::RefusedType, 3)),
    ),
    (
        b"int g = PrintFloat(1); void main() { }",
        Some((FaultKind::RefusedType, 3)),
    ),
    (
        b"int g = Random(); void main() { }",
        Some((FaultKind::Arity, 3)),
    ),
    (
        b"int g = Random(\"s\"); void main() { }",
        Some((FaultKind::Mismatch, 3)),
    ),
    (
        b"int a; int g = a.x; void main() { }",
        Some((FaultKind::Unknown, 7)),
    ),
    (
        b"int g = 1 = 2; void main() { }",
        Some((FaultKind::NotPlace, 4)),
    ),
    (
        b"int g = ++1; void main() { }",
        Some((FaultKind::NotPlace, 3)),
    ),
    (
        b"int g = 1++; void main() { }",
        Some((FaultKind::NotPlace, 4)),
    ),
    (
        b"string s; int g = ++s; void main() { }",
        Some((FaultKind::Mismatch, 6)),
    ),
    (
        b"string s; int g = s--; void main() { }",
        Some((FaultKind::Mismatch, 7)),
    ),
    (
        b"int g = -\"s\"; void main() { }",
        Some((FaultKind::Mismatch, 3)),
    ),
    (
        b"int a; int g = a = \"s\"; void main() { }",
        Some((FaultKind::Mismatch, 7)),
    ),
    (b"int a; int g = a = 2; void main() { }", None),
    (b"int a = 1, b = ++a, c = a--; void main() { }", None),
    (
        b"int g = PrintInteger(1); void main() { }",
        Some((FaultKind::Mismatch, 1)),
    ),
    // What is no action is none here either, and an action is at fault itself.
    (
        b"int g = DelayCommand(1, Random(3)); void main() { }",
        Some((FaultKind::Mismatch, 3)),
    ),
    (
        b"int g = DelayCommand(1, 5); void main() { }",
        Some((FaultKind::Mismatch, 3)),
    ),
    (
        b"void f() {} int g = DelayCommand(1, f()); void main() { }",
        Some((FaultKind::NotConst, 13)),
    ),
    (
        b"int f() { return 1; } int g = DelayCommand(1, f()); void main() { }",
        Some((FaultKind::NotConst, 16)),
    ),
    // A call that may not stand here: what can't be called and wrong counts come before it, wrong
    // types after it.
    (
        b"int g = DelayCommand(1, PrintFloat(1)); void main() { }",
        Some((FaultKind::RefusedType, 7)),
    ),
    (
        b"int g = f(); int f(int n) { return 1; } void main() { }",
        Some((FaultKind::Arity, 3)),
    ),
    (
        b"int g = f(\"s\"); int f(int n) { return 1; } void main() { }",
        Some((FaultKind::NotConst, 3)),
    ),
];

const CONSTANT_VALUES: &[Row] = &[
    // The token of a constant with a sign is that of its literal.
    (
        b"const int A = -1.0; void main() { }",
        Some((FaultKind::RefusedType, 5)),
    ),
    (
        b"const int A = -2147483648; const int B = 0xffffffff; void main() { }",
        None,
    ),
    (
        b"const int A = OBJECT_SELF; void main() { }",
        Some((FaultKind::Mismatch, 2)),
    ),
    (
        b"const effect E = 1; void main() { }",
        Some((FaultKind::Mismatch, 1)),
    ),
    (
        b"const void V = 1; void main() { }",
        Some((FaultKind::Mismatch, 1)),
    ),
    (
        b"const string S = \"a\"; const string T = S; const int N = S; void main() { }",
        Some((FaultKind::Mismatch, 14)),
    ),
    (
        b"void g() {} const int A = g; void main() { }",
        Some((FaultKind::Unknown, 10)),
    ),
    (
        b"const int A = A; void main() { }",
        Some((FaultKind::Unknown, 4)),
    ),
    (
        b"const int TRUE = 1; void main() { }",
        Some((FaultKind::Redeclared, 2)),
    ),
    (
        b"void f(int a = b) {} void main() { }",
        Some((FaultKind::Unknown, 6)),
    ),
    (
        b"int g; void f(int a = g) {} void main() { }",
        Some((FaultKind::NotConst, 9)),
    ),
    (
        b"void f(int a = -1, int b = TRUE, string s = \"x\", object o = OBJECT_INVALID) {} \
          void main() { f(); }",
        None,
    ),
    (
        b"void f(object o = 1) {} void main() { }",
        Some((FaultKind::Mismatch, 3)),
    ),
    (
        b"void f(effect e = 1) {} void main() { }",
        Some((FaultKind::Mismatch, 3)),
    ),
    (
        b"void f(string s = -1) {} void main() { }",
        Some((FaultKind::Mismatch, 3)),
    ),
    (
        b"void f(int a = 1, string b = \"\", int c); void main() { }",
        Some((FaultKind::Arity, 13)),
    ),
    (
        b"void main() { switch (1) { case -1: ; case 0xffffffff: ; } }",
        Some((FaultKind::Redeclared, 15)),
    ),
    (
        b"void main() { switch (1) { case -1.0: ; } }",
        Some((FaultKind::RefusedType, 12)),
    ),
    (
        b"void main() { switch (1) { case OBJECT_SELF: ; } }",
        Some((FaultKind::Mismatch, 10)),
    ),
    (
        b"const string S = \"a\"; void main() { switch (1) { case S: ; } }",
        Some((FaultKind::Mismatch, 16)),
    ),
    (
        b"void main() { int n; switch (n) { case n: ; } }",
        Some((FaultKind::NotConst, 14)),
    ),
    (
        b"void f(int n) { switch (n) { case n: ; } } void main() { }",
        Some((FaultKind::NotConst, 13)),
    ),
    (
        b"void f() {} void main() { switch (1) { case f: ; } }",
        Some((FaultKind::Unknown, 17)),
    ),
    (
        b"void main() { switch (1) { case DURATION_TYPE_PERMANENT: case TRUE: ; case 2: ; } }",
        Some((FaultKind::Redeclared, 17)),
    ),
];

const WAYS: &[Row] = &[
    (
        b"void main() { if (1) break; }",
        Some((FaultKind::Outside, 9)),
    ),
    (
        b"void main() { while (0) ; continue; }",
        Some((FaultKind::Outside, 10)),
    ),
    (
        b"void main() { switch (1) { case 1: break; } break; }",
        Some((FaultKind::Outside, 16)),
    ),
    (
        b"void main() { switch (1) { case 1: if (1) continue; } }",
        Some((FaultKind::Outside, 17)),
    ),
    (
        b"void main() { do continue; while (1); for (;;) continue; while (1) switch (1) { \
          default: break; } }",
        None,
    ),
    (
        b"void main() { switch (1) { int a; case 1: ; case 2: ; } }",
        Some((FaultKind::Outside, 13)),
    ),
    (
        b"void main() { switch (1) { case 1: int a; default: ; } }",
        Some((FaultKind::Outside, 16)),
    ),
    // A value that stood before comes before a label behind a declaration.
    (
        b"void main() { switch (1) { case 1: int a; ; case 1: ; } }",
        Some((FaultKind::Redeclared, 17)),
    ),
    (
        b"void main() { switch (\"x\") { case 1: ; } }",
        Some((FaultKind::Mismatch, 5)),
    ),
    (
        b"void main() { switch (OBJECT_SELF) { } }",
        Some((FaultKind::Mismatch, 5)),
    ),
    (
        b"void main() { event v; while (v) ; }",
        Some((FaultKind::Mismatch, 8)),
    ),
    (
        b"void f() {} void main() { if (f()) ; }",
        Some((FaultKind::Mismatch, 11)),
    ),
    (
        b"void f() {} void main() { for (; f(); ) ; }",
        Some((FaultKind::Mismatch, 11)),
    ),
    (
        b"void f() {} void main() { while (f()) ; }",
        Some((FaultKind::Mismatch, 11)),
    ),
    (
        b"void f() {} void main() { do ; while (f()); }",
        Some((FaultKind::Mismatch, 11)),
    ),
    (
        b"void f() {} void main() { switch (f()) { } }",
        Some((FaultKind::Mismatch, 11)),
    ),
    (
        b"object f() { return OBJECT_SELF; } string g() { return \"\"; } effect h() { effect \
          e; return e; } void main() { }",
        None,
    ),
    (
        b"int f() { return OBJECT_SELF; } void main() { }",
        Some((FaultKind::Mismatch, 5)),
    ),
    (
        b"void f() {} int g() { return f(); } void main() { }",
        Some((FaultKind::Mismatch, 11)),
    ),
    (
        b"int f() { return x; } void main() { }",
        Some((FaultKind::Unknown, 6)),
    ),
    (
        b"int f() { if (1) { return 1; } else { while (1) return 2; } } void main() { }",
        Some((FaultKind::NoReturn, 1)),
    ),
    (
        b"int f() { switch (1) { default: return 1; int a; } } void main() { }",
        None,
    ),
    (
        b"int f() { switch (1) { default: switch (2) { default: break; } return 1; } } void \
          main() { }",
        None,
    ),
    (
        b"int f() { switch (1) { default: if (1) break; return 1; } } void main() { }",
        Some((FaultKind::NoReturn, 1)),
    ),
    (
        b"int f() { switch (1) { default: { break; } return 1; } } void main() { }",
        Some((FaultKind::NoReturn, 1)),
    ),
    (
        b"int f() { do { if (1) return 1; } while (1); } void main() { }",
        Some((FaultKind::NoReturn, 1)),
    ),
    (b"int f() { for (;;) ; return 1; } void main() { }", None),
    (
        b"int f() { { if (1) return 1; else { return 2; } } ; } void main() { }",
        None,
    ),
    (
        b"int f() { switch (1) { default: ; } } void main() { }",
        Some((FaultKind::NoReturn, 1)),
    ),
];

const ENTRY_POINTS: &[Row] = &[
    (
        b"int StartingConditional(int a) { return 1; }",
        Some((FaultKind::Entry, 11)),
    ),
    (b"int StartingConditional(); void main() {}", None),
    (b"void main() {} void StartingConditional() {}", None),
    (
        b"int main() { return 1; } int StartingConditional() { return 1; }",
        None,
    ),
    (b"struct P { int x; };", Some((FaultKind::Entry, 8))),
    (b"const int C = 1;", Some((FaultKind::Entry, 6))),
    (b"int StartingConditional();", Some((FaultKind::Entry, 5))),
    (
        b"void main(); int StartingConditional() { return 1; }",
        None,
    ),
];

/// Nodes of which two kinds are true: the first one in the order of kinds is told.
const TWO_KINDS: &[Row] = &[
    (
        b"void main() { switch (1) { int a; case \"s\": ; } }",
        Some((FaultKind::Outside, 13)),
    ),
    (
        b"void main() { switch (1) { default: int a; ; default: ; } }",
        Some((FaultKind::Redeclared, 16)),
    ),
    (
        b"const int TRUE = \"s\"; void main() { }",
        Some((FaultKind::Redeclared, 2)),
    ),
    (
        b"void main() { int a; int a = \"s\"; }",
        Some((FaultKind::Redeclared, 9)),
    ),
    // Heads of functions.
    (
        b"float Random(int n) { return 1; } void main() { }",
        Some((FaultKind::RefusedType, 1)),
    ),
    (
        b"struct Z Random(int n) { } void main() { }",
        Some((FaultKind::Unknown, 2)),
    ),
    // Parameters.
    (
        b"void f(int a, float a) {} void main() { }",
        Some((FaultKind::RefusedType, 6)),
    ),
    (
        b"void f(int a = 1, float b) {} void main() { }",
        Some((FaultKind::RefusedType, 8)),
    ),
    (
        b"void f(float a = 1) {} void main() { }",
        Some((FaultKind::RefusedType, 3)),
    ),
    (
        b"void f(int a, struct Z a) {} void main() { }",
        Some((FaultKind::Unknown, 6)),
    ),
    (
        b"void f(int a = 1, struct Z b) {} void main() { }",
        Some((FaultKind::Unknown, 8)),
    ),
    (
        b"void f(struct Z a = 1) {} void main() { }",
        Some((FaultKind::Unknown, 3)),
    ),
    (
        b"void f(int a = 1, int a) {} void main() { }",
        Some((FaultKind::Redeclared, 8)),
    ),
    (
        b"void f(int a, int a = \"s\") {} void main() { }",
        Some((FaultKind::Redeclared, 6)),
    ),
    (
        b"void f(int a, void a) {} void main() { }",
        Some((FaultKind::Redeclared, 6)),
    ),
    (
        b"void f(int a = 1, void b) {} void main() { }",
        Some((FaultKind::Arity, 8)),
    ),
];

#[test]
fn operators(rt: HostRuntime) -> Result<(), Fail> {
    assert_eq!(rt; first_unlike_built_in(rt.alloc(), OPERATORS)?, 0);
    Ok(())
}

#[test]
fn callees(rt: HostRuntime) -> Result<(), Fail> {
    assert_eq!(rt; first_unlike_built_in(rt.alloc(), CALLEES)?, 0);
    Ok(())
}

#[test]
fn faults_of_structs(rt: HostRuntime) -> Result<(), Fail> {
    assert_eq!(rt; first_unlike_built_in(rt.alloc(), FAULTS_OF_STRUCTS)?, 0);
    Ok(())
}

#[test]
fn declared_names(rt: HostRuntime) -> Result<(), Fail> {
    assert_eq!(rt; first_unlike_built_in(rt.alloc(), DECLARED_NAMES)?, 0);
    Ok(())
}

#[test]
fn first_values_of_globals(rt: HostRuntime) -> Result<(), Fail> {
    assert_eq!(rt;
        first_unlike_built_in(rt.alloc(), FIRST_VALUES_OF_GLOBALS)?,
        0
    );
    Ok(())
}

#[test]
fn constant_values(rt: HostRuntime) -> Result<(), Fail> {
    assert_eq!(rt; first_unlike_built_in(rt.alloc(), CONSTANT_VALUES)?, 0);
    Ok(())
}

#[test]
fn ways(rt: HostRuntime) -> Result<(), Fail> {
    assert_eq!(rt; first_unlike_built_in(rt.alloc(), WAYS)?, 0);
    Ok(())
}

#[test]
fn entry_points(rt: HostRuntime) -> Result<(), Fail> {
    assert_eq!(rt; first_unlike_built_in(rt.alloc(), ENTRY_POINTS)?, 0);
    Ok(())
}

#[test]
fn two_kinds(rt: HostRuntime) -> Result<(), Fail> {
    assert_eq!(rt; first_unlike_built_in(rt.alloc(), TWO_KINDS)?, 0);
    Ok(())
}
