//! Statements, switches, and ways out of functions.
use crate::compile::{Row, first_other};
use std::test::*;

const STATEMENTS: &[Row] = &[
    (
        b"void main() { if (1) PrintInteger(2); }",
        b"JSR 00 @21\nRETN 00\n\
          CONST 03 1\nJZ 00 @44\nCONST 03 2\nACTION 00 4 1\n\
          RETN 00\n",
    ),
    (
        b"void main() { if (1) PrintInteger(2); else PrintInteger(3); }",
        b"JSR 00 @21\nRETN 00\n\
          CONST 03 1\nJZ 00 @50\nCONST 03 2\nACTION 00 4 1\nJMP 00 @61\n\
          CONST 03 3\nACTION 00 4 1\n\
          RETN 00\n",
    ),
    (
        b"void main() { int n; if (n == 1) PrintInteger(1); else if (n == 2) PrintInteger(2); \
          else PrintInteger(3); }",
        b"JSR 00 @21\nRETN 00\n\
          RSADD 03\nCPTOPSP 01 -4 4\nCONST 03 1\nEQUAL 20\nJZ 00 @62\nCONST 03 1\n\
          ACTION 00 4 1\nJMP 00 @112\n\
          CPTOPSP 01 -4 4\nCONST 03 2\nEQUAL 20\nJZ 00 @101\nCONST 03 2\nACTION 00 4 1\n\
          JMP 00 @112\n\
          CONST 03 3\nACTION 00 4 1\n\
          MOVSP 00 -4\nRETN 00\n",
    ),
    (
        b"void main() { if (1) if (2) ; else PrintInteger(3); }",
        b"JSR 00 @21\nRETN 00\n\
          CONST 03 1\nJZ 00 @62\nCONST 03 2\nJZ 00 @51\nJMP 00 @62\n\
          CONST 03 3\nACTION 00 4 1\n\
          RETN 00\n",
    ),
    (
        b"void main() { if (1) { int a; } else { string b; int c; } }",
        b"JSR 00 @21\nRETN 00\n\
          CONST 03 1\nJZ 00 @47\nRSADD 03\nMOVSP 00 -4\nJMP 00 @57\n\
          RSADD 05\nRSADD 03\nMOVSP 00 -8\n\
          RETN 00\n",
    ),
    (
        b"void main() { int n = 3; while (n) n--; }",
        b"JSR 00 @21\nRETN 00\n\
          CONST 03 3\n\
          CPTOPSP 01 -4 4\nJZ 00 @67\nCPTOPSP 01 -4 4\nDECISP 03 -8\nMOVSP 00 -4\nJMP 00 @27\n\
          MOVSP 00 -4\nRETN 00\n",
    ),
    (
        b"void main() { while (1) { int a; if (a) break; string s; if (a) continue; } }",
        b"JSR 00 @21\nRETN 00\n\
          CONST 03 1\nJZ 00 @101\nRSADD 03\nCPTOPSP 01 -4 4\nJZ 00 @61\nMOVSP 00 -4\n\
          JMP 00 @101\n\
          RSADD 05\nCPTOPSP 01 -8 4\nJZ 00 @89\nMOVSP 00 -8\nJMP 00 @21\n\
          MOVSP 00 -8\nJMP 00 @21\n\
          RETN 00\n",
    ),
    (
        b"void main() { int n; do { n++; if (n == 2) continue; if (n == 3) break; } while (n \
          < 5); }",
        b"JSR 00 @21\nRETN 00\n\
          RSADD 03\n\
          CPTOPSP 01 -4 4\nINCISP 03 -8\nMOVSP 00 -4\nCPTOPSP 01 -4 4\nCONST 03 2\nEQUAL 20\n\
          JZ 00 @71\nJMP 00 @99\n\
          CPTOPSP 01 -4 4\nCONST 03 3\nEQUAL 20\nJZ 00 @99\nJMP 00 @121\n\
          CPTOPSP 01 -4 4\nCONST 03 5\nLT 20\nJNZ 00 @23\n\
          MOVSP 00 -4\nRETN 00\n",
    ),
    (
        b"void main() { int i; for (i = 0; i < 3; i++) PrintInteger(i); }",
        b"JSR 00 @21\nRETN 00\n\
          RSADD 03\nCONST 03 0\nCPDOWNSP 01 -8 4\nMOVSP 00 -4\n\
          CPTOPSP 01 -4 4\nCONST 03 3\nLT 20\nJZ 00 @104\nCPTOPSP 01 -4 4\nACTION 00 4 1\n\
          CPTOPSP 01 -4 4\nINCISP 03 -8\nMOVSP 00 -4\nJMP 00 @43\n\
          MOVSP 00 -4\nRETN 00\n",
    ),
    (
        b"void main() { for (;;) break; }",
        b"JSR 00 @21\nRETN 00\n\
          CONST 03 1\nJZ 00 @45\nJMP 00 @45\nJMP 00 @21\n\
          RETN 00\n",
    ),
    (
        b"void main() { int i; for (; i < 3; ++i) { int k; if (i == 1) continue; k = i; } }",
        b"JSR 00 @21\nRETN 00\n\
          RSADD 03\n\
          CPTOPSP 01 -4 4\nCONST 03 3\nLT 20\nJZ 00 @135\nRSADD 03\nCPTOPSP 01 -8 4\n\
          CONST 03 1\nEQUAL 20\nJZ 00 @81\nMOVSP 00 -4\nJMP 00 @109\n\
          CPTOPSP 01 -8 4\nCPDOWNSP 01 -8 4\nMOVSP 00 -4\nMOVSP 00 -4\n\
          INCISP 03 -4\nCPTOPSP 01 -4 4\nMOVSP 00 -4\nJMP 00 @23\n\
          MOVSP 00 -4\nRETN 00\n",
    ),
    (
        b"void f() {} void main() { for (f(); 1; f()) ; }",
        b"JSR 00 @23\nRETN 00\n\
          RETN 00\n\
          JSR 00 @21\n\
          CONST 03 1\nJZ 00 @53\nJSR 00 @21\nJMP 00 @29\n\
          RETN 00\n",
    ),
    (
        b"void main() { while (1) { while (2) break; break; } }",
        b"JSR 00 @21\nRETN 00\n\
          CONST 03 1\nJZ 00 @69\n\
          CONST 03 2\nJZ 00 @57\nJMP 00 @57\nJMP 00 @33\n\
          JMP 00 @69\nJMP 00 @21\n\
          RETN 00\n",
    ),
    (
        b"void main() { { int a; { int b, c; { } } } }",
        b"JSR 00 @21\nRETN 00\n\
          RSADD 03\nRSADD 03\nRSADD 03\nMOVSP 00 -8\nMOVSP 00 -4\nRETN 00\n",
    ),
    (
        b"void main() { ; return; PrintInteger(1); }",
        b"JSR 00 @21\nRETN 00\n\
          RETN 00\nCONST 03 1\nACTION 00 4 1\nRETN 00\n",
    ),
    (
        b"void main() { int a = 1, b = a, c; }",
        b"JSR 00 @21\nRETN 00\n\
          CONST 03 1\nCPTOPSP 01 -4 4\nRSADD 03\nMOVSP 00 -12\nRETN 00\n",
    ),
    (
        b"void main() { do ; while (0); do { int a; break; } while (1); }",
        b"JSR 00 @21\nRETN 00\n\
          CONST 03 0\nJNZ 00 @21\n\
          RSADD 03\nMOVSP 00 -4\nJMP 00 @65\nMOVSP 00 -4\nCONST 03 1\nJNZ 00 @33\n\
          RETN 00\n",
    ),
];

const SWITCHES: &[Row] = &[
    (
        b"void main() { switch (1) {} }",
        b"JSR 00 @21\nRETN 00\n\
          CONST 03 1\nJMP 00 @33\n\
          MOVSP 00 -4\nRETN 00\n",
    ),
    (
        b"void main() { switch (2) { case 1: PrintInteger(1); default: PrintInteger(9); case \
          -2: PrintInteger(2); } }",
        b"JSR 00 @21\nRETN 00\n\
          CONST 03 2\nCPTOPSP 01 -4 4\nCONST 03 1\nEQUAL 20\nJNZ 00 @77\nCPTOPSP 01 -4 4\n\
          CONST 03 -2\nEQUAL 20\nJNZ 00 @99\nJMP 00 @88\n\
          CONST 03 1\nACTION 00 4 1\n\
          CONST 03 9\nACTION 00 4 1\n\
          CONST 03 2\nACTION 00 4 1\nMOVSP 00 -4\nRETN 00\n",
    ),
    (
        b"void main() { int n; switch (n) { case 1: case 2: PrintInteger(1); break; case 3: \
          break; } }",
        b"JSR 00 @21\nRETN 00\n\
          RSADD 03\nCPTOPSP 01 -4 4\nCPTOPSP 01 -4 4\nCONST 03 1\nEQUAL 20\nJNZ 00 @103\n\
          CPTOPSP 01 -4 4\nCONST 03 2\nEQUAL 20\nJNZ 00 @103\nCPTOPSP 01 -4 4\nCONST 03 3\n\
          EQUAL 20\nJNZ 00 @120\nJMP 00 @126\n\
          CONST 03 1\nACTION 00 4 1\nJMP 00 @126\n\
          JMP 00 @126\n\
          MOVSP 00 -4\nMOVSP 00 -4\nRETN 00\n",
    ),
    (
        b"void main() { switch (1) { default: int a; a = 2; break; } }",
        b"JSR 00 @21\nRETN 00\n\
          CONST 03 1\nJMP 00 @33\n\
          RSADD 03\nCONST 03 2\nCPDOWNSP 01 -8 4\nMOVSP 00 -4\nMOVSP 00 -4\nJMP 00 @73\n\
          MOVSP 00 -4\n\
          MOVSP 00 -4\nRETN 00\n",
    ),
    (
        b"void main() { int i; while (i < 9) { int k; switch (i) { case 1: k = 2; break; case \
          2: { string s; continue; } default: i++; } if (k) break; } }",
        b"JSR 00 @21\nRETN 00\n\
          RSADD 03\n\
          CPTOPSP 01 -4 4\nCONST 03 9\nLT 20\nJZ 00 @215\nRSADD 03\nCPTOPSP 01 -8 4\n\
          CPTOPSP 01 -4 4\nCONST 03 1\nEQUAL 20\nJNZ 00 @105\nCPTOPSP 01 -4 4\nCONST 03 2\n\
          EQUAL 20\nJNZ 00 @131\nJMP 00 @151\n\
          CONST 03 2\nCPDOWNSP 01 -12 4\nMOVSP 00 -4\nJMP 00 @171\n\
          RSADD 05\nMOVSP 00 -12\nJMP 00 @23\nMOVSP 00 -4\n\
          CPTOPSP 01 -12 4\nINCISP 03 -16\nMOVSP 00 -4\n\
          MOVSP 00 -4\nCPTOPSP 01 -4 4\nJZ 00 @203\nMOVSP 00 -4\nJMP 00 @215\n\
          MOVSP 00 -4\nJMP 00 @23\n\
          MOVSP 00 -4\nRETN 00\n",
    ),
    (
        b"int f(int n) { switch (n) { case 1: return 10; default: { int k = n; return k; } } \
          } void main() { PrintInteger(f(1)); }",
        b"JSR 00 @131\nRETN 00\n\
          CPTOPSP 01 -4 4\nCPTOPSP 01 -4 4\nCONST 03 1\nEQUAL 20\nJNZ 00 @57\nJMP 00 @79\n\
          CONST 03 10\nCPDOWNSP 01 -16 4\nMOVSP 00 -12\nRETN 00\n\
          CPTOPSP 01 -8 4\nCPTOPSP 01 -4 4\nCPDOWNSP 01 -20 4\nMOVSP 00 -16\nRETN 00\n\
          MOVSP 00 -4\nMOVSP 00 -4\nMOVSP 00 -4\nRETN 00\n\
          RSADD 03\nCONST 03 1\nJSR 00 @21\nACTION 00 4 1\nRETN 00\n",
    ),
    (
        b"void main() { switch (1) { case 1: switch (2) { case 1: break; } break; } }",
        b"JSR 00 @21\nRETN 00\n\
          CONST 03 1\nCPTOPSP 01 -4 4\nCONST 03 1\nEQUAL 20\nJNZ 00 @55\nJMP 00 @107\n\
          CONST 03 2\nCPTOPSP 01 -4 4\nCONST 03 1\nEQUAL 20\nJNZ 00 @89\nJMP 00 @95\n\
          JMP 00 @95\n\
          MOVSP 00 -4\nJMP 00 @107\n\
          MOVSP 00 -4\nRETN 00\n",
    ),
    (
        b"const int N = 7; void main() { switch (1) { case N: case TRUE: ; } }",
        b"JSR 00 @21\nRETN 00\n\
          CONST 03 1\nCPTOPSP 01 -4 4\nCONST 03 7\nEQUAL 20\nJNZ 00 @77\nCPTOPSP 01 -4 4\n\
          CONST 03 1\nEQUAL 20\nJNZ 00 @77\nJMP 00 @77\n\
          MOVSP 00 -4\nRETN 00\n",
    ),
    (
        b"void f(string s) { switch (1) { case 1: int a; return; } } void main() { f(\"x\"); }",
        b"JSR 00 @85\nRETN 00\n\
          CONST 03 1\nCPTOPSP 01 -4 4\nCONST 03 1\nEQUAL 20\nJNZ 00 @55\nJMP 00 @71\n\
          RSADD 03\nMOVSP 00 -12\nRETN 00\nMOVSP 00 -4\n\
          MOVSP 00 -4\nMOVSP 00 -4\nRETN 00\n\
          CONST 05 \"x\"\nJSR 00 @21\nRETN 00\n",
    ),
    (
        b"void main() { int i; for (; i < 4; i++) switch (i) { case 2: continue; case 3: \
          break; } }",
        b"JSR 00 @21\nRETN 00\n\
          RSADD 03\n\
          CPTOPSP 01 -4 4\nCONST 03 4\nLT 20\nJZ 00 @153\nCPTOPSP 01 -4 4\nCPTOPSP 01 -4 4\n\
          CONST 03 2\nEQUAL 20\nJNZ 00 @103\nCPTOPSP 01 -4 4\nCONST 03 3\nEQUAL 20\n\
          JNZ 00 @115\nJMP 00 @121\n\
          MOVSP 00 -4\nJMP 00 @127\n\
          JMP 00 @121\n\
          MOVSP 00 -4\n\
          CPTOPSP 01 -4 4\nINCISP 03 -8\nMOVSP 00 -4\nJMP 00 @23\n\
          MOVSP 00 -4\nRETN 00\n",
    ),
];

const RETURNS: &[Row] = &[
    (
        b"void main() { int a; string s; return; }",
        b"JSR 00 @21\nRETN 00\n\
          RSADD 03\nRSADD 05\nMOVSP 00 -8\nRETN 00\nMOVSP 00 -8\nRETN 00\n",
    ),
    (
        b"struct P { int x; int y; object o; }; struct P f(int n) { int k; { struct P p; \
          return p; } } void main() { f(1); }",
        b"JSR 00 @73\nRETN 00\n\
          RSADD 03\nRSADD 03\nRSADD 03\nRSADD 06\nCPTOPSP 01 -12 12\nCPDOWNSP 01 -44 12\n\
          MOVSP 00 -32\nRETN 00\nMOVSP 00 -12\nMOVSP 00 -4\nMOVSP 00 -4\nRETN 00\n\
          RSADD 03\nRSADD 03\nRSADD 06\nCONST 03 1\nJSR 00 @21\nMOVSP 00 -12\nRETN 00\n",
    ),
    (
        b"int f() { while (1) { int a; return a; } return 2; } void main() { f(); }",
        b"JSR 00 @95\nRETN 00\n\
          CONST 03 1\nJZ 00 @71\nRSADD 03\nCPTOPSP 01 -4 4\nCPDOWNSP 01 -12 4\nMOVSP 00 -8\n\
          RETN 00\nMOVSP 00 -4\nJMP 00 @21\n\
          CONST 03 2\nCPDOWNSP 01 -8 4\nMOVSP 00 -4\nRETN 00\nRETN 00\n\
          RSADD 03\nJSR 00 @21\nMOVSP 00 -4\nRETN 00\n",
    ),
    (
        b"int f() { do { break; return 1; } while (1); } void main() { f(); }",
        b"JSR 00 @63\nRETN 00\n\
          JMP 00 @61\nCONST 03 1\nCPDOWNSP 01 -8 4\nMOVSP 00 -4\nRETN 00\nCONST 03 1\n\
          JNZ 00 @21\n\
          RETN 00\n\
          RSADD 03\nJSR 00 @21\nMOVSP 00 -4\nRETN 00\n",
    ),
    (
        b"int g() { return 1; } int f(int n) { return g(); } void main() { f(2); }",
        b"JSR 00 @77\nRETN 00\n\
          CONST 03 1\nCPDOWNSP 01 -8 4\nMOVSP 00 -4\nRETN 00\nRETN 00\n\
          RSADD 03\nJSR 00 @21\nCPDOWNSP 01 -12 4\nMOVSP 00 -8\nRETN 00\nMOVSP 00 -4\n\
          RETN 00\n\
          RSADD 03\nCONST 03 2\nJSR 00 @45\nMOVSP 00 -4\nRETN 00\n",
    ),
    (
        b"void f(int a, string b) { int c; if (a) return; c = 1; } void main() { f(1, \"x\"); \
          }",
        b"JSR 00 @79\nRETN 00\n\
          RSADD 03\nCPTOPSP 01 -8 4\nJZ 00 @45\nMOVSP 00 -12\nRETN 00\n\
          CONST 03 1\nCPDOWNSP 01 -8 4\nMOVSP 00 -4\nMOVSP 00 -4\nMOVSP 00 -8\nRETN 00\n\
          CONST 05 \"x\"\nCONST 03 1\nJSR 00 @21\nRETN 00\n",
    ),
];

#[test]
fn statements(rt: HostRuntime) -> Result<(), Fail> {
    assert_eq!(rt; first_other(rt.alloc(), STATEMENTS)?, STATEMENTS.len());
    Ok(())
}

#[test]
fn switches(rt: HostRuntime) -> Result<(), Fail> {
    assert_eq!(rt; first_other(rt.alloc(), SWITCHES)?, SWITCHES.len());
    Ok(())
}

#[test]
fn returns(rt: HostRuntime) -> Result<(), Fail> {
    assert_eq!(rt; first_other(rt.alloc(), RETURNS)?, RETURNS.len());
    Ok(())
}
