//! Units with several faults, where the order of tokens and the order of reading differ.
use crate::units::{Row, first_unlike_built_in};
use std::test::*;
use typing_rules::FaultKind;

const ORDERS: &[Row] = &[
    // A fault in a body and a later one in a parameter, and the other way round.
    (
        b"void main() { x; } void f(int a, int a) {}",
        Some((FaultKind::Unknown, 5)),
    ),
    (
        b"void f(int a, int a) { x; } void main() { y; }",
        Some((FaultKind::Redeclared, 6)),
    ),
    (
        b"void main() { x; } void f(float y) {}",
        Some((FaultKind::Unknown, 5)),
    ),
    (
        b"void f(float y) {} void main() { x; }",
        Some((FaultKind::RefusedType, 3)),
    ),
    (
        b"void main() { x; } void f(int a = \"s\") {}",
        Some((FaultKind::Unknown, 5)),
    ),
    (
        b"void f(int a = \"s\") {} void main() { x; }",
        Some((FaultKind::Mismatch, 3)),
    ),
    // Items are declared before bodies are read.
    (
        b"void main() { x; } int TRUE;",
        Some((FaultKind::Unknown, 5)),
    ),
    (
        b"int TRUE; void main() { x; }",
        Some((FaultKind::Redeclared, 1)),
    ),
    (
        b"void f() { x; } void f() {} void main() { }",
        Some((FaultKind::Unknown, 5)),
    ),
    (
        b"void f() {} void f() { x; } void main() { }",
        Some((FaultKind::Redeclared, 7)),
    ),
    (
        b"void main() { x; } struct P { float f; };",
        Some((FaultKind::Unknown, 5)),
    ),
    (
        b"void main() { x; } int f() {}",
        Some((FaultKind::Unknown, 5)),
    ),
    (
        b"int f() {} void main() { x; }",
        Some((FaultKind::NoReturn, 1)),
    ),
    // A function with a fault inside is not at fault for its returns.
    (
        b"int f() { if (1) x; } void main() { }",
        Some((FaultKind::Unknown, 9)),
    ),
    (b"void main(int a) { x; }", Some((FaultKind::Unknown, 7))),
    // Two faults of one statement.
    (
        b"void main() { x(1 + \"s\"); }",
        Some((FaultKind::Mismatch, 8)),
    ),
    (b"void main() { x(y); }", Some((FaultKind::Unknown, 7))),
    (
        b"void main() { a = 1 + \"s\"; }",
        Some((FaultKind::Unknown, 5)),
    ),
    (
        b"void main() { int a; a = 1 + \"s\" + b; }",
        Some((FaultKind::Mismatch, 11)),
    ),
    (
        b"void main() { int a; a + \"s\" - b; }",
        Some((FaultKind::Mismatch, 9)),
    ),
    (
        b"void main() { int a; b + \"s\" - a; }",
        Some((FaultKind::Unknown, 8)),
    ),
    (
        b"void main() { Random(x) + Random(\"s\"); }",
        Some((FaultKind::Unknown, 7)),
    ),
    (
        b"void main() { Random(\"s\") + Random(x); }",
        Some((FaultKind::Mismatch, 5)),
    ),
    (
        b"void main() { for (a; b; c) d; }",
        Some((FaultKind::Unknown, 7)),
    ),
    // What stands inside comes before the statement around it.
    (
        b"void main() { do x; while (\"s\"); }",
        Some((FaultKind::Unknown, 6)),
    ),
    (
        b"void main() { while (\"s\") x; }",
        Some((FaultKind::Unknown, 9)),
    ),
    (
        b"void main() { switch (\"x\") { case 1: ; case 1: ; } }",
        Some((FaultKind::Redeclared, 14)),
    ),
    (
        b"void main() { switch (x) { case 1: ; case 1: ; } }",
        Some((FaultKind::Unknown, 7)),
    ),
    (
        b"void main() { if (1) x; else y; }",
        Some((FaultKind::Unknown, 9)),
    ),
    // A declaration without a type, used twice.
    (
        b"float g; void main() { g = 1; g + \"s\"; }",
        Some((FaultKind::RefusedType, 0)),
    ),
    (
        b"void main() { f(\"a\"); f(1, 2); } void f(float x) {}",
        Some((FaultKind::RefusedType, 21)),
    ),
    (
        b"void main() { int a = f(); f() + \"s\"; } float f() { return 1; }",
        Some((FaultKind::RefusedType, 20)),
    ),
    (
        b"const int A = B; int c = A; void main() { A + \"s\"; c + \"s\"; }",
        Some((FaultKind::Unknown, 4)),
    ),
    (
        b"struct P { vector v; }; void main() { struct P p; p.v = 1; p = 2; struct P q; }",
        Some((FaultKind::RefusedType, 3)),
    ),
    (
        b"void f(int a = b) {} void main() { f(); f(\"s\"); }",
        Some((FaultKind::Unknown, 6)),
    ),
    (
        b"void main() { location l; l = 1; l.x; ++l; }",
        Some((FaultKind::RefusedType, 5)),
    ),
    // A variable whose first value isn't typed has its type all the same.
    (
        b"void main() { int a = f(); a + \"s\"; } float f() { return 1; }",
        Some((FaultKind::Mismatch, 13)),
    ),
    (
        b"int g = f(); void main() { g = \"s\"; } int f(float x) { return 1; }",
        Some((FaultKind::Mismatch, 13)),
    ),
    (
        b"int a = f(); const int C = a; void main() { } int f(float x) { return 1; }",
        Some((FaultKind::NotConst, 11)),
    ),
    (
        b"void main() { int a = f(); ++a.x; } int f(float x) { return 1; }",
        Some((FaultKind::Unknown, 14)),
    ),
    // A fault in the body of a function is none of its calls.
    (
        b"void main() { f(1); f(\"s\"); } void f(int a) { g; }",
        Some((FaultKind::Mismatch, 10)),
    ),
];

#[test]
fn orders(rt: HostRuntime) -> Result<(), Fail> {
    assert_eq!(rt; first_unlike_built_in(rt.alloc(), ORDERS)?, 0);
    Ok(())
}
