//! Units under a header of their own.
use crate::units::{Row, first_unlike_under};
use std::test::*;
use typing_rules::FaultKind;

const HEADER: &[u8] =
    b"int A(int a = 1, int b); void B(effect e, float f); float F = 1.0; string S = \
    \"k\"; object O = OBJECT_SELF; void V(void x); void L(location l); talent T(); void \
    W(event v);";

const HEADERS: &[Row] = &[
    // A parameter without default behind one with a default.
    (b"void main() { A(1, 2); }", None),
    (b"void main() { A(1); }", Some((FaultKind::Arity, 5))),
    (b"void main() { A(1, 2, 3); }", Some((FaultKind::Arity, 5))),
    (
        b"void main() { effect e; B(e, 1); }",
        Some((FaultKind::RefusedType, 8)),
    ),
    // A constant of a type that is left out is forgotten.
    (b"int F; void main() { F = 1; }", None),
    (b"void main() { F; }", Some((FaultKind::Unknown, 5))),
    (b"int S; void main() { }", Some((FaultKind::Redeclared, 1))),
    (
        b"const string R = S; void main() { string s = S + R; object o = O; s = R; }",
        None,
    ),
    (
        b"const object X = O; void main() { }",
        Some((FaultKind::Mismatch, 1)),
    ),
    (b"void f(object o = O) {} void main() { f(); }", None),
    (b"void main() { V(1); }", Some((FaultKind::Mismatch, 5))),
    (b"void main() { V(); }", Some((FaultKind::Arity, 5))),
    (b"void main() { L(1); }", Some((FaultKind::RefusedType, 5))),
    (b"void main() { T(); }", Some((FaultKind::RefusedType, 5))),
    (
        b"void main() { event v; W(v); W(1); }",
        Some((FaultKind::Mismatch, 13)),
    ),
    (
        b"void main() { PrintInteger(1); }",
        Some((FaultKind::Unknown, 5)),
    ),
];

#[test]
fn headers(rt: HostRuntime) {
    assert_eq!(rt; first_unlike_under(rt.alloc(), HEADER, HEADERS), Some(0));
}
