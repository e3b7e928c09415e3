use nss_parser::{ParseFault, parse};
use nss_tree::{Expr, Item, Stmt, Tree};
use nwq_value::FILE_BYTES;
use std::alloc::Global;
use test_units::tokens_of;

/// The tree of a script, which is short.
fn tree_of(alloc: Global, source: &[u8]) -> Result<Tree, ParseFault> {
    if source.len() > FILE_BYTES {
        return Err(ParseFault::NoMemory);
    }
    let tokens = tokens_of(alloc, source)?;
    parse(alloc, tokens.as_slice())
}

/// The place of a script's fault of syntax.
fn syntax_of(alloc: Global, source: &[u8]) -> Option<u32> {
    match tree_of(alloc, source) {
        Ok(tree) => {
            drop(tree);
            None
        }
        Err(ParseFault::Syntax(place)) => Some(place),
        Err(_fault) => None,
    }
}

/// The first token of a script that nests too deep.
fn nested_of(alloc: Global, source: &[u8]) -> Option<u32> {
    match tree_of(alloc, source) {
        Ok(tree) => {
            drop(tree);
            None
        }
        Err(ParseFault::Nested(place)) => Some(place),
        Err(_fault) => None,
    }
}

/// Whether these are the tokens of the nodes, in preorder, and no more.
fn has_places(tree: &Tree, want: &[u32]) -> bool {
    for (node, token) in (0u32..100).zip(want) {
        if tree.place(node) != Some(*token) {
            return false;
        }
    }
    match u32::try_from(want.len()) {
        Ok(count) => tree.place(count) == None,
        Err(_) => false,
    }
}

/// Each script with the tokens of its tree's nodes in preorder.
const TREES: [(&[u8], &[u32]); 15] = [
    (b"", &[]),
    // levels, loosest first, and the other way round
    (
        b"int g = a || b && c | d ^ e & f == h < i << j + k * l;",
        &[
            0, 1, 4, 3, 6, 5, 8, 7, 10, 9, 12, 11, 14, 13, 16, 15, 18, 17, 20, 19, 22, 21, 23,
        ],
    ),
    (
        b"int g = a * b + c << d < e == f & h ^ i | j && k || l;",
        &[
            0, 1, 22, 20, 18, 16, 14, 12, 10, 8, 6, 4, 3, 5, 7, 9, 11, 13, 15, 17, 19, 21, 23,
        ],
    ),
    // operators of one level group to the left
    (b"int g = a - b + c;", &[0, 1, 6, 4, 3, 5, 7]),
    // assignments group to the right
    (b"void f() { a = b += c; }", &[1, 5, 6, 5, 8, 7, 9]),
    // what stands behind an operand is tighter than what stands before it
    (
        b"int g = -f(a, !p.x++)--;",
        &[0, 1, 3, 14, 4, 6, 8, 12, 10, 9],
    ),
    // each kind of literal, and a member that is assigned to
    (
        b"int g = p.x += f(~1, \"s\", OBJECT_SELF, OBJECT_INVALID, 1.0, -2f) * p;",
        &[0, 1, 6, 4, 3, 23, 7, 9, 10, 12, 14, 16, 18, 20, 21, 24],
    ),
    // parentheses are no node, and what they hold may be assigned to
    (b"void f() { (a + 1) = 2; }", &[1, 5, 10, 7, 6, 8, 11]),
    (
        b"void f() { { ; } while (a) break; do continue; while (b); }",
        &[1, 5, 6, 8, 10, 12, 14, 15, 19],
    ),
    (
        b"int f() { for (a; b; c) return; for (;;) return d; }",
        &[1, 5, 7, 9, 11, 13, 15, 20, 21],
    ),
    (
        b"void f() { if (a) ; else if (b) { } else do ; while (c); }",
        &[1, 5, 7, 9, 11, 13, 15, 18, 19, 22],
    ),
    (
        b"void f() { switch (a) { case -1: int b, c = 2; default: b; case \"s\": case N: ; } }",
        &[
            1, 5, 7, 10, 12, 14, 15, 17, 19, 21, 23, 23, 25, 26, 28, 29, 31,
        ],
    ),
    (
        b"struct P { int a, b; struct Q q; }; const string S = \"x\"; int g;",
        &[1, 3, 4, 6, 8, 10, 15, 16, 18, 20, 21],
    ),
    (
        b"void h(int a, object o = OBJECT_SELF); int m = 1, n;",
        &[1, 3, 6, 9, 12, 13, 15, 17],
    ),
    (
        b"struct P f(float x = -1.5) { struct P p; }",
        &[2, 4, 8, 11, 13],
    ),
];

#[test]
fn trees(rt: HostRuntime) {
    for (source, places) in TREES {
        match tree_of(rt.alloc(), source) {
            Ok(tree) => {
                assert!(rt; has_places(&tree, places));
                drop(tree);
            }
            Err(_fault) => assert!(rt; false),
        }
    }
}

/// Each script with the place of its fault.
const FAULTS: [(&[u8], u32); 15] = [
    (b"void main() { int 5; }", 6),
    (b"void main() { int a; a + 1 = 2; }", 11),
    (b"void main() {", 5),
    (b"void main() { else; }", 5),
    (b"void main() { if (a) int b; }", 9),
    (b"void main() { case 1: }", 5),
    (b"void main() { switch (a) default: ; }", 9),
    (b"void main() { do ; while (a) }", 11),
    (b"void main() { f(a,); }", 9),
    (b"void main() { a ? b : c; }", 6),
    (b"int a[2];", 2),
    (b"int", 1),
    (b"struct P { };", 3),
    (b"const int C = +1;", 4),
    (b"#include \"a\"", 0),
];

#[test]
fn faults(rt: HostRuntime) {
    for (source, place) in FAULTS {
        assert_eq!(rt; syntax_of(rt.alloc(), source), Some(place), "{place}");
    }
}

/// Whether a unit is one function with an `if` without `else`, whose statement is an `if` with one.
fn inner_has_else(tree: &Tree) -> bool {
    let [
        Item::Function {
            body: Some(body),
            ..
        },
    ] = tree.items.as_slice()
    else {
        return false;
    };
    match body.as_slice() {
        [Stmt::If { then, .. }] => match then.as_ref() {
            Stmt::IfElse { .. } => true,
            _ => false,
        },
        _ => false,
    }
}

#[test]
fn nearest_if(rt: HostRuntime) {
    match tree_of(
        rt.alloc(),
        b"void f() { if (1) if (0) g(1); else g(2); }".as_slice(),
    ) {
        Ok(tree) => {
            assert!(rt; inner_has_else(&tree) && tree.count == 25);
            drop(tree);
        }
        Err(_fault) => assert!(rt; false),
    }
}

/// The int that is a script's first global's first value.
fn first_int(tree: &Tree) -> Option<i32> {
    match tree.items.as_slice() {
        [Item::Global { names, .. }, ..] => match names.as_slice() {
            [name, ..] => match &name.value {
                Some(Expr::Int { value, .. }) => Some(*value),
                _ => None,
            },
            [] => None,
        },
        _ => None,
    }
}

#[test]
fn literals(rt: HostRuntime) {
    for (source, value) in [
        (b"int g = 0;".as_slice(), 0),
        (b"int g = 0x80000000;", i32::MIN),
        (b"int g = 4294967295;", -1),
    ] {
        match tree_of(rt.alloc(), source) {
            Ok(tree) => {
                assert_eq!(rt; first_int(&tree), Some(value));
                drop(tree);
            }
            Err(_fault) => assert!(rt; false),
        }
    }
}

#[test]
fn nest(rt: HostRuntime) {
    let open = [b'('; 257];
    assert_eq!(rt; nested_of(rt.alloc(), &open), Some(256));
    assert_eq!(rt; syntax_of(rt.alloc(), &open[..256]), Some(0));
}
