//! The most cells of a struct, a frame and the globals.
use crate::units::{Row, first_unlike_built_in};
use std::test::*;
use typing_rules::FaultKind;

const LIMITS: &[Row] = &[
    (
        b"struct H { int x0, x1, x2, x3, x4, x5, x6, x7, x8, x9, x10, x11, x12, x13, x14, \
          x15, x16, x17, x18, x19, x20, x21, x22, x23, x24, x25, x26, x27, x28, x29, x30, \
          x31, x32; }; struct Q { struct H a, b; }; void main() { }",
        Some((FaultKind::Cells, 79)),
    ),
    (
        b"struct P { int x0, x1, x2, x3, x4, x5, x6, x7, x8, x9, x10, x11, x12, x13, x14, \
          x15, x16, x17, x18, x19, x20, x21, x22, x23, x24, x25, x26, x27, x28, x29, x30, \
          x31, x32, x33, x34, x35, x36, x37, x38, x39, x40, x41, x42, x43, x44, x45, x46, \
          x47, x48, x49, x50, x51, x52, x53, x54, x55, x56, x57, x58, x59, x60, x61, x62, \
          x63; }; struct Q { struct P p; }; void main() { }",
        None,
    ),
    (
        b"struct P { int x0, x1, x2, x3, x4, x5, x6, x7, x8, x9, x10, x11, x12, x13, x14, \
          x15, x16, x17, x18, x19, x20, x21, x22, x23, x24, x25, x26, x27, x28, x29, x30, \
          x31, x32, x33, x34, x35, x36, x37, x38, x39, x40, x41, x42, x43, x44, x45, x46, \
          x47, x48, x49, x50, x51, x52, x53, x54, x55, x56, x57, x58, x59, x60, x61, x62, \
          x63; }; struct Q { struct P p; int x; }; void main() { }",
        Some((FaultKind::Cells, 142)),
    ),
    // 4,000 cells of a frame.
    (
        b"struct P { int x0, x1, x2, x3, x4, x5, x6, x7, x8, x9, x10, x11, x12, x13, x14, \
          x15, x16, x17, x18, x19, x20, x21, x22, x23, x24, x25, x26, x27, x28, x29, x30, \
          x31, x32, x33, x34, x35, x36, x37, x38, x39, x40, x41, x42, x43, x44, x45, x46, \
          x47, x48, x49, x50, x51, x52, x53, x54, x55, x56, x57, x58, x59, x60, x61, x62, \
          x63; }; void main() { struct P p0, p1, p2, p3, p4, p5, p6, p7, p8, p9, p10, p11, \
          p12, p13, p14, p15, p16, p17, p18, p19, p20, p21, p22, p23, p24, p25, p26, p27, \
          p28, p29, p30, p31, p32, p33, p34, p35, p36, p37, p38, p39, p40, p41, p42, p43, \
          p44, p45, p46, p47, p48, p49, p50, p51, p52, p53, p54, p55, p56, p57, p58, p59, \
          p60, p61; int n0, n1, n2, n3, n4, n5, n6, n7, n8, n9, n10, n11, n12, n13, n14, n15, \
          n16, n17, n18, n19, n20, n21, n22, n23, n24, n25, n26, n27, n28, n29, n30, n31; }",
        None,
    ),
    (
        b"struct P { int x0, x1, x2, x3, x4, x5, x6, x7, x8, x9, x10, x11, x12, x13, x14, \
          x15, x16, x17, x18, x19, x20, x21, x22, x23, x24, x25, x26, x27, x28, x29, x30, \
          x31, x32, x33, x34, x35, x36, x37, x38, x39, x40, x41, x42, x43, x44, x45, x46, \
          x47, x48, x49, x50, x51, x52, x53, x54, x55, x56, x57, x58, x59, x60, x61, x62, \
          x63; }; void main() { struct P p0, p1, p2, p3, p4, p5, p6, p7, p8, p9, p10, p11, \
          p12, p13, p14, p15, p16, p17, p18, p19, p20, p21, p22, p23, p24, p25, p26, p27, \
          p28, p29, p30, p31, p32, p33, p34, p35, p36, p37, p38, p39, p40, p41, p42, p43, \
          p44, p45, p46, p47, p48, p49, p50, p51, p52, p53, p54, p55, p56, p57, p58, p59, \
          p60, p61; int n0, n1, n2, n3, n4, n5, n6, n7, n8, n9, n10, n11, n12, n13, n14, n15, \
          n16, n17, n18, n19, n20, n21, n22, n23, n24, n25, n26, n27, n28, n29, n30, n31, z; }",
        Some((FaultKind::Cells, 330)),
    ),
    (
        b"struct P { int x0, x1, x2, x3, x4, x5, x6, x7, x8, x9, x10, x11, x12, x13, x14, \
          x15, x16, x17, x18, x19, x20, x21, x22, x23, x24, x25, x26, x27, x28, x29, x30, \
          x31, x32, x33, x34, x35, x36, x37, x38, x39, x40, x41, x42, x43, x44, x45, x46, \
          x47, x48, x49, x50, x51, x52, x53, x54, x55, x56, x57, x58, x59, x60, x61, x62, \
          x63; }; void main() { struct P p0, p1, p2, p3, p4, p5, p6, p7, p8, p9, p10, p11, \
          p12, p13, p14, p15, p16, p17, p18, p19, p20, p21, p22, p23, p24, p25, p26, p27, \
          p28, p29, p30, p31, p32, p33, p34, p35, p36, p37, p38, p39, p40, p41, p42, p43, \
          p44, p45, p46, p47, p48, p49, p50, p51, p52, p53, p54, p55, p56, p57, p58, p59, \
          p60, p61; int n0, n1, n2, n3, n4, n5, n6, n7, n8, n9, n10, n11, n12, n13, n14, n15, \
          n16, n17, n18, n19, n20, n21, n22, n23, n24, n25, n26, n27, n28, n29, n30, n31; \
          switch (1) { } }",
        Some((FaultKind::Cells, 330)),
    ),
    (
        b"struct P { int x0, x1, x2, x3, x4, x5, x6, x7, x8, x9, x10, x11, x12, x13, x14, \
          x15, x16, x17, x18, x19, x20, x21, x22, x23, x24, x25, x26, x27, x28, x29, x30, \
          x31, x32, x33, x34, x35, x36, x37, x38, x39, x40, x41, x42, x43, x44, x45, x46, \
          x47, x48, x49, x50, x51, x52, x53, x54, x55, x56, x57, x58, x59, x60, x61, x62, \
          x63; }; void main() { struct P p0, p1, p2, p3, p4, p5, p6, p7, p8, p9, p10, p11, \
          p12, p13, p14, p15, p16, p17, p18, p19, p20, p21, p22, p23, p24, p25, p26, p27, \
          p28, p29, p30, p31, p32, p33, p34, p35, p36, p37, p38, p39, p40, p41, p42, p43, \
          p44, p45, p46, p47, p48, p49, p50, p51, p52, p53, p54, p55, p56, p57, p58, p59, \
          p60, p61; int n0, n1, n2, n3, n4, n5, n6, n7, n8, n9, n10, n11, n12, n13, n14, n15, \
          n16, n17, n18, n19, n20, n21, n22, n23, n24, n25, n26, n27, n28, n29, n30; switch \
          (1) { case 1: int z; } }",
        Some((FaultKind::Cells, 337)),
    ),
    (
        b"struct P { int x0, x1, x2, x3, x4, x5, x6, x7, x8, x9, x10, x11, x12, x13, x14, \
          x15, x16, x17, x18, x19, x20, x21, x22, x23, x24, x25, x26, x27, x28, x29, x30, \
          x31, x32, x33, x34, x35, x36, x37, x38, x39, x40, x41, x42, x43, x44, x45, x46, \
          x47, x48, x49, x50, x51, x52, x53, x54, x55, x56, x57, x58, x59, x60, x61, x62, \
          x63; }; void main() { { struct P p0, p1, p2, p3, p4, p5, p6, p7, p8, p9, p10, p11, \
          p12, p13, p14, p15, p16, p17, p18, p19, p20, p21, p22, p23, p24, p25, p26, p27, \
          p28, p29, p30, p31, p32, p33, p34, p35, p36, p37, p38, p39, p40, p41, p42, p43, \
          p44, p45, p46, p47, p48, p49, p50, p51, p52, p53, p54, p55, p56, p57, p58, p59, \
          p60, p61; } { struct P p0, p1, p2, p3, p4, p5, p6, p7, p8, p9, p10, p11, p12, p13, \
          p14, p15, p16, p17, p18, p19, p20, p21, p22, p23, p24, p25, p26, p27, p28, p29, \
          p30, p31, p32, p33, p34, p35, p36, p37, p38, p39, p40, p41, p42, p43, p44, p45, \
          p46, p47, p48, p49, p50, p51, p52, p53, p54, p55, p56, p57, p58, p59, p60, p61; } }",
        None,
    ),
    // Parameters of a prototype count too.
    (
        b"struct P { int x0, x1, x2, x3, x4, x5, x6, x7, x8, x9, x10, x11, x12, x13, x14, \
          x15, x16, x17, x18, x19, x20, x21, x22, x23, x24, x25, x26, x27, x28, x29, x30, \
          x31, x32, x33, x34, x35, x36, x37, x38, x39, x40, x41, x42, x43, x44, x45, x46, \
          x47, x48, x49, x50, x51, x52, x53, x54, x55, x56, x57, x58, x59, x60, x61, x62, \
          x63; }; void f(struct P p0, struct P p1, struct P p2, struct P p3, struct P p4, \
          struct P p5, struct P p6, struct P p7, struct P p8, struct P p9, struct P p10, \
          struct P p11, struct P p12, struct P p13, struct P p14, struct P p15, struct P p16, \
          struct P p17, struct P p18, struct P p19, struct P p20, struct P p21, struct P p22, \
          struct P p23, struct P p24, struct P p25, struct P p26, struct P p27, struct P p28, \
          struct P p29, struct P p30, struct P p31, struct P p32, struct P p33, struct P p34, \
          struct P p35, struct P p36, struct P p37, struct P p38, struct P p39, struct P p40, \
          struct P p41, struct P p42, struct P p43, struct P p44, struct P p45, struct P p46, \
          struct P p47, struct P p48, struct P p49, struct P p50, struct P p51, struct P p52, \
          struct P p53, struct P p54, struct P p55, struct P p56, struct P p57, struct P p58, \
          struct P p59, struct P p60, struct P p61, struct P z); void main() { }",
        Some((FaultKind::Cells, 385)),
    ),
    (
        b"struct P { int x0, x1, x2, x3, x4, x5, x6, x7, x8, x9, x10, x11, x12, x13, x14, \
          x15, x16, x17, x18, x19, x20, x21, x22, x23, x24, x25, x26, x27, x28, x29, x30, \
          x31, x32, x33, x34, x35, x36, x37, x38, x39, x40, x41, x42, x43, x44, x45, x46, \
          x47, x48, x49, x50, x51, x52, x53, x54, x55, x56, x57, x58, x59, x60, x61, x62, \
          x63; }; void f(struct P p0, struct P p1, struct P p2, struct P p3, struct P p4, \
          struct P p5, struct P p6, struct P p7, struct P p8, struct P p9, struct P p10, \
          struct P p11, struct P p12, struct P p13, struct P p14, struct P p15, struct P p16, \
          struct P p17, struct P p18, struct P p19, struct P p20, struct P p21, struct P p22, \
          struct P p23, struct P p24, struct P p25, struct P p26, struct P p27, struct P p28, \
          struct P p29, struct P p30, struct P p31, struct P p32, struct P p33, struct P p34, \
          struct P p35, struct P p36, struct P p37, struct P p38, struct P p39, struct P p40, \
          struct P p41, struct P p42, struct P p43, struct P p44, struct P p45, struct P p46, \
          struct P p47, struct P p48, struct P p49, struct P p50, struct P p51, struct P p52, \
          struct P p53, struct P p54, struct P p55, struct P p56, struct P p57, struct P p58, \
          struct P p59, struct P p60, struct P p61) { int n0, n1, n2, n3, n4, n5, n6, n7, n8, \
          n9, n10, n11, n12, n13, n14, n15, n16, n17, n18, n19, n20, n21, n22, n23, n24, n25, \
          n26, n27, n28, n29, n30, n31; } void main() { }",
        None,
    ),
    (
        b"struct P { int x0, x1, x2, x3, x4, x5, x6, x7, x8, x9, x10, x11, x12, x13, x14, \
          x15, x16, x17, x18, x19, x20, x21, x22, x23, x24, x25, x26, x27, x28, x29, x30, \
          x31, x32, x33, x34, x35, x36, x37, x38, x39, x40, x41, x42, x43, x44, x45, x46, \
          x47, x48, x49, x50, x51, x52, x53, x54, x55, x56, x57, x58, x59, x60, x61, x62, \
          x63; }; void f(struct P p0, struct P p1, struct P p2, struct P p3, struct P p4, \
          struct P p5, struct P p6, struct P p7, struct P p8, struct P p9, struct P p10, \
          struct P p11, struct P p12, struct P p13, struct P p14, struct P p15, struct P p16, \
          struct P p17, struct P p18, struct P p19, struct P p20, struct P p21, struct P p22, \
          struct P p23, struct P p24, struct P p25, struct P p26, struct P p27, struct P p28, \
          struct P p29, struct P p30, struct P p31, struct P p32, struct P p33, struct P p34, \
          struct P p35, struct P p36, struct P p37, struct P p38, struct P p39, struct P p40, \
          struct P p41, struct P p42, struct P p43, struct P p44, struct P p45, struct P p46, \
          struct P p47, struct P p48, struct P p49, struct P p50, struct P p51, struct P p52, \
          struct P p53, struct P p54, struct P p55, struct P p56, struct P p57, struct P p58, \
          struct P p59, struct P p60, struct P p61) { int n0, n1, n2, n3, n4, n5, n6, n7, n8, \
          n9, n10, n11, n12, n13, n14, n15, n16, n17, n18, n19, n20, n21, n22, n23, n24, n25, \
          n26, n27, n28, n29, n30, n31, z; } void main() { }",
        Some((FaultKind::Cells, 451)),
    ),
    (
        b"struct P { int x0, x1, x2, x3, x4, x5, x6, x7, x8, x9, x10, x11, x12, x13, x14, \
          x15, x16, x17, x18, x19, x20, x21, x22, x23, x24, x25, x26, x27, x28, x29, x30, \
          x31, x32, x33, x34, x35, x36, x37, x38, x39, x40, x41, x42, x43, x44, x45, x46, \
          x47, x48, x49, x50, x51, x52, x53, x54, x55, x56, x57, x58, x59, x60, x61, x62, \
          x63; }; struct P p0, p1, p2, p3, p4, p5, p6, p7, p8, p9, p10, p11, p12, p13, p14, \
          p15, p16, p17, p18, p19, p20, p21, p22, p23, p24, p25, p26, p27, p28, p29, p30, \
          p31, p32, p33, p34, p35, p36, p37, p38, p39, p40, p41, p42, p43, p44, p45, p46, \
          p47, p48, p49, p50, p51, p52, p53, p54, p55, p56, p57, p58, p59, p60, p61; int n0, \
          n1, n2, n3, n4, n5, n6, n7, n8, n9, n10, n11, n12, n13, n14, n15, n16, n17, n18, \
          n19, n20, n21, n22, n23, n24, n25, n26, n27, n28, n29, n30, n31; void main() { }",
        None,
    ),
    (
        b"struct P { int x0, x1, x2, x3, x4, x5, x6, x7, x8, x9, x10, x11, x12, x13, x14, \
          x15, x16, x17, x18, x19, x20, x21, x22, x23, x24, x25, x26, x27, x28, x29, x30, \
          x31, x32, x33, x34, x35, x36, x37, x38, x39, x40, x41, x42, x43, x44, x45, x46, \
          x47, x48, x49, x50, x51, x52, x53, x54, x55, x56, x57, x58, x59, x60, x61, x62, \
          x63; }; struct P p0, p1, p2, p3, p4, p5, p6, p7, p8, p9, p10, p11, p12, p13, p14, \
          p15, p16, p17, p18, p19, p20, p21, p22, p23, p24, p25, p26, p27, p28, p29, p30, \
          p31, p32, p33, p34, p35, p36, p37, p38, p39, p40, p41, p42, p43, p44, p45, p46, \
          p47, p48, p49, p50, p51, p52, p53, p54, p55, p56, p57, p58, p59, p60, p61; int n0, \
          n1, n2, n3, n4, n5, n6, n7, n8, n9, n10, n11, n12, n13, n14, n15, n16, n17, n18, \
          n19, n20, n21, n22, n23, n24, n25, n26, n27, n28, n29, n30, n31, z; void main() { }",
        Some((FaultKind::Cells, 325)),
    ),
    // A second name and a wrong type come before the cells, a parameter without default too.
    (
        b"struct A { int a, b, c, d, e, f, g, h; }; struct B { struct A a, b, c, d, e, f, g, \
          h; }; struct C { struct B a; int a; }; void main() { }",
        Some((FaultKind::Redeclared, 53)),
    ),
    (
        b"struct A { int a, b, c, d, e, f, g, h; }; struct B { struct A a, b, c, d, e, f, g, \
          h; }; void main() { struct B p0, p1, p2, p3, p4, p5, p6, p7, p8, p9, p10, p11, p12, \
          p13, p14, p15, p16, p17, p18, p19, p20, p21, p22, p23, p24, p25, p26, p27, p28, p29, \
          p30, p31, p32, p33, p34, p35, p36, p37, p38, p39, p40, p41, p42, p43, p44, p45, p46, \
          p47, p48, p49, p50, p51, p52, p53, p54, p55, p56, p57, p58, p59, p60, p61; struct A \
          q, r, s, t; int p0; }",
        Some((FaultKind::Redeclared, 187)),
    ),
    (
        b"struct A { int a, b, c, d, e, f, g, h; }; struct B { struct A a, b, c, d, e, f, g, \
          h; }; void main() { struct B p0, p1, p2, p3, p4, p5, p6, p7, p8, p9, p10, p11, p12, \
          p13, p14, p15, p16, p17, p18, p19, p20, p21, p22, p23, p24, p25, p26, p27, p28, p29, \
          p30, p31, p32, p33, p34, p35, p36, p37, p38, p39, p40, p41, p42, p43, p44, p45, p46, \
          p47, p48, p49, p50, p51, p52, p53, p54, p55, p56, p57, p58, p59, p60, p61; struct A \
          q, r, s, t; int z = \"s\"; }",
        Some((FaultKind::Mismatch, 187)),
    ),
    (
        b"struct A { int a, b, c, d, e, f, g, h; }; struct B { struct A a, b, c, d, e, f, g, \
          h; }; struct B p0, p1, p2, p3, p4, p5, p6, p7, p8, p9, p10, p11, p12, p13, p14, p15, \
          p16, p17, p18, p19, p20, p21, p22, p23, p24, p25, p26, p27, p28, p29, p30, p31, p32, \
          p33, p34, p35, p36, p37, p38, p39, p40, p41, p42, p43, p44, p45, p46, p47, p48, p49, \
          p50, p51, p52, p53, p54, p55, p56, p57, p58, p59, p60, p61; struct A q, r, s, t; int \
          p0; void main() { }",
        Some((FaultKind::Redeclared, 182)),
    ),
    (
        b"struct A { int a, b, c, d, e, f, g, h; }; struct B { struct A a, b, c, d, e, f, g, \
          h; }; struct B p0, p1, p2, p3, p4, p5, p6, p7, p8, p9, p10, p11, p12, p13, p14, p15, \
          p16, p17, p18, p19, p20, p21, p22, p23, p24, p25, p26, p27, p28, p29, p30, p31, p32, \
          p33, p34, p35, p36, p37, p38, p39, p40, p41, p42, p43, p44, p45, p46, p47, p48, p49, \
          p50, p51, p52, p53, p54, p55, p56, p57, p58, p59, p60, p61; struct A q, r, s, t; int \
          z = \"s\"; void main() { }",
        Some((FaultKind::Mismatch, 182)),
    ),
    (
        b"struct A { int a, b, c, d, e, f, g, h; }; struct B { struct A a, b, c, d, e, f, g, \
          h; }; void main() { struct B p0, p1, p2, p3, p4, p5, p6, p7, p8, p9, p10, p11, p12, \
          p13, p14, p15, p16, p17, p18, p19, p20, p21, p22, p23, p24, p25, p26, p27, p28, p29, \
          p30, p31, p32, p33, p34, p35, p36, p37, p38, p39, p40, p41, p42, p43, p44, p45, p46, \
          p47, p48, p49, p50, p51, p52, p53, p54, p55, p56, p57, p58, p59, p60, p61; struct A \
          q, r, s, t; switch (\"s\") { } }",
        Some((FaultKind::Mismatch, 186)),
    ),
    (
        b"struct A { int a, b, c, d, e, f, g, h; }; struct B { struct A a, b, c, d, e, f, g, \
          h; }; void f(struct B p0, struct B p1, struct B p2, struct B p3, struct B p4, struct \
          B p5, struct B p6, struct B p7, struct B p8, struct B p9, struct B p10, struct B \
          p11, struct B p12, struct B p13, struct B p14, struct B p15, struct B p16, struct B \
          p17, struct B p18, struct B p19, struct B p20, struct B p21, struct B p22, struct B \
          p23, struct B p24, struct B p25, struct B p26, struct B p27, struct B p28, struct B \
          p29, struct B p30, struct B p31, struct B p32, struct B p33, struct B p34, struct B \
          p35, struct B p36, struct B p37, struct B p38, struct B p39, struct B p40, struct B \
          p41, struct B p42, struct B p43, struct B p44, struct B p45, struct B p46, struct B \
          p47, struct B p48, struct B p49, struct B p50, struct B p51, struct B p52, struct B \
          p53, struct B p54, struct B p55, struct B p56, struct B p57, struct B p58, struct B \
          p59, struct B p60, struct B p61, struct A q, struct A r, struct A s, struct A t, int \
          p0); void main() { }",
        Some((FaultKind::Redeclared, 312)),
    ),
    (
        b"struct A { int a, b, c, d, e, f, g, h; }; struct B { struct A a, b, c, d, e, f, g, \
          h; }; void f(struct B p0, struct B p1, struct B p2, struct B p3, struct B p4, struct \
          B p5, struct B p6, struct B p7, struct B p8, struct B p9, struct B p10, struct B \
          p11, struct B p12, struct B p13, struct B p14, struct B p15, struct B p16, struct B \
          p17, struct B p18, struct B p19, struct B p20, struct B p21, struct B p22, struct B \
          p23, struct B p24, struct B p25, struct B p26, struct B p27, struct B p28, struct B \
          p29, struct B p30, struct B p31, struct B p32, struct B p33, struct B p34, struct B \
          p35, struct B p36, struct B p37, struct B p38, struct B p39, struct B p40, struct B \
          p41, struct B p42, struct B p43, struct B p44, struct B p45, struct B p46, struct B \
          p47, struct B p48, struct B p49, struct B p50, struct B p51, struct B p52, struct B \
          p53, struct B p54, struct B p55, struct B p56, struct B p57, struct B p58, struct B \
          p59, struct B p60, struct B p61, struct B z = 1); void main() { }",
        Some((FaultKind::Mismatch, 296)),
    ),
    (
        b"struct A { int a, b, c, d, e, f, g, h; }; struct B { struct A a, b, c, d, e, f, g, \
          h; }; void f(struct B p0, struct B p1, struct B p2, struct B p3, struct B p4, struct \
          B p5, struct B p6, struct B p7, struct B p8, struct B p9, struct B p10, struct B \
          p11, struct B p12, struct B p13, struct B p14, struct B p15, struct B p16, struct B \
          p17, struct B p18, struct B p19, struct B p20, struct B p21, struct B p22, struct B \
          p23, struct B p24, struct B p25, struct B p26, struct B p27, struct B p28, struct B \
          p29, struct B p30, struct B p31, struct B p32, struct B p33, struct B p34, struct B \
          p35, struct B p36, struct B p37, struct B p38, struct B p39, struct B p40, struct B \
          p41, struct B p42, struct B p43, struct B p44, struct B p45, struct B p46, struct B \
          p47, struct B p48, struct B p49, struct B p50, struct B p51, struct B p52, struct B \
          p53, struct B p54, struct B p55, struct B p56, struct B p57, struct B p58, struct B \
          p59, struct B p60, struct B p61, struct A q, struct A r, struct A s, int a, int b, \
          int c, int d, int e, int f, int g, int h = 1, int z); void main() { }",
        Some((FaultKind::Arity, 334)),
    ),
];

#[test]
fn limits(rt: HostRuntime) -> Result<(), Fail> {
    assert_eq!(rt; first_unlike_built_in(rt.alloc(), LIMITS)?, 0);
    Ok(())
}
