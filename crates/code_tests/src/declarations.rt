//! Starts of files, literals and defaults, and the places of variables.
use crate::compile::{Row, first_other};
use std::test::*;

const STARTS: &[Row] = &[
    (
        b"void main() {}",
        b"JSR 00 @21\nRETN 00\n\
          RETN 00\n",
    ),
    (
        b"int StartingConditional() { return 3; }",
        b"RSADD 03\nJSR 00 @29\nMOVSP 00 -4\nRETN 00\n\
          CONST 03 3\nCPDOWNSP 01 -8 4\nMOVSP 00 -4\nRETN 00\nRETN 00\n",
    ),
    (
        b"int StartingConditional() { return 1; } void main() {}",
        b"JSR 00 @45\nRETN 00\n\
          CONST 03 1\nCPDOWNSP 01 -8 4\nMOVSP 00 -4\nRETN 00\nRETN 00\n\
          RETN 00\n",
    ),
    (
        b"int g; void main() {}",
        b"JSR 00 @21\nRETN 00\n\
          RSADD 03\nSAVEBP 00\nJSR 00 @41\nRESTOREBP 00\nMOVSP 00 -4\nRETN 00\n\
          RETN 00\n",
    ),
    (
        b"int g = 7; int StartingConditional() { return g; }",
        b"JSR 00 @21\nRETN 00\n\
          CONST 03 7\nSAVEBP 00\nRSADD 03\nJSR 00 @53\nMOVSP 00 -4\nRESTOREBP 00\n\
          MOVSP 00 -4\nRETN 00\n\
          CPTOPBP 01 -4 4\nCPDOWNSP 01 -8 4\nMOVSP 00 -4\nRETN 00\nRETN 00\n",
    ),
    (
        b"int a = 1; int b = a + 2; string s; object o = OBJECT_SELF; void main() {}",
        b"JSR 00 @21\nRETN 00\n\
          CONST 03 1\nCPTOPSP 01 -4 4\nCONST 03 2\nADD 20\nRSADD 05\nCONST 06 0\nSAVEBP 00\n\
          JSR 00 @69\nRESTOREBP 00\nMOVSP 00 -16\nRETN 00\n\
          RETN 00\n",
    ),
    (
        b"int a, b = 5, c = a; void main() {}",
        b"JSR 00 @21\nRETN 00\n\
          RSADD 03\nCONST 03 5\nCPTOPSP 01 -8 4\nSAVEBP 00\nJSR 00 @55\nRESTOREBP 00\n\
          MOVSP 00 -12\nRETN 00\n\
          RETN 00\n",
    ),
    (
        b"struct P { int x; string s; }; struct P p; struct P q = p; void main() {}",
        b"JSR 00 @21\nRETN 00\n\
          RSADD 03\nRSADD 05\nCPTOPSP 01 -8 8\nSAVEBP 00\nJSR 00 @51\nRESTOREBP 00\n\
          MOVSP 00 -16\nRETN 00\n\
          RETN 00\n",
    ),
    (
        b"int n = Random(6); int m = n++; int k = n = m; void main() {}",
        b"JSR 00 @21\nRETN 00\n\
          CONST 03 6\nACTION 00 0 1\nCPTOPSP 01 -4 4\nINCISP 03 -8\nCPTOPSP 01 -4 4\n\
          CPDOWNSP 01 -12 4\nSAVEBP 00\nJSR 00 @80\nRESTOREBP 00\nMOVSP 00 -12\nRETN 00\n\
          RETN 00\n",
    ),
    (
        b"void b(); void a() { b(); } void b() {} void main() { a(); }",
        b"JSR 00 @31\nRETN 00\n\
          JSR 00 @29\nRETN 00\n\
          RETN 00\n\
          JSR 00 @21\nRETN 00\n",
    ),
    (
        b"int f(int n) { return n; } void main() {}",
        b"JSR 00 @53\nRETN 00\n\
          CPTOPSP 01 -4 4\nCPDOWNSP 01 -12 4\nMOVSP 00 -8\nRETN 00\nMOVSP 00 -4\nRETN 00\n\
          RETN 00\n",
    ),
    (
        b"effect e; event v; void main() {}",
        b"JSR 00 @21\nRETN 00\n\
          RSADD 10\nRSADD 11\nSAVEBP 00\nJSR 00 @43\nRESTOREBP 00\nMOVSP 00 -8\nRETN 00\n\
          RETN 00\n",
    ),
];

const LITERALS: &[Row] = &[
    (
        b"void main() { PrintInteger(2 + 3); }",
        b"JSR 00 @21\nRETN 00\n\
          CONST 03 2\nCONST 03 3\nADD 20\nACTION 00 4 1\nRETN 00\n",
    ),
    (
        b"void main() { PrintObject(OBJECT_INVALID); }",
        b"JSR 00 @21\nRETN 00\n\
          CONST 06 1\nACTION 00 5 1\nRETN 00\n",
    ),
    (
        b"void main() { PrintInteger(4294967295); PrintInteger(0x7fffffff); PrintInteger(0); }",
        b"JSR 00 @21\nRETN 00\n\
          CONST 03 -1\nACTION 00 4 1\nCONST 03 2147483647\nACTION 00 4 1\nCONST 03 0\n\
          ACTION 00 4 1\nRETN 00\n",
    ),
    (
        b"void main() { PrintString(\"a\\x41\\n\\\"\\\\\"); PrintString(\"\"); }",
        b"JSR 00 @21\nRETN 00\n\
          CONST 05 \"aA\\n\\x22\\\\\"\nACTION 00 1 1\nCONST 05 \"\"\nACTION 00 1 1\nRETN 00\n",
    ),
    (
        b"void main() { PrintObject(OBJECT_SELF); PrintInteger(DURATION_TYPE_PERMANENT); \
          PrintInteger(TRUE); }",
        b"JSR 00 @21\nRETN 00\n\
          CONST 06 0\nACTION 00 5 1\nCONST 03 2\nACTION 00 4 1\nCONST 03 1\nACTION 00 4 1\n\
          RETN 00\n",
    ),
    (
        b"const int N = -5; const string S = \"s\"; void main() { PrintInteger(N); \
          PrintString(S); PrintInteger(-5); }",
        b"JSR 00 @21\nRETN 00\n\
          CONST 03 -5\nACTION 00 4 1\nCONST 05 \"s\"\nACTION 00 1 1\nCONST 03 5\nNEG 03\n\
          ACTION 00 4 1\nRETN 00\n",
    ),
    (
        b"void main() { ExecuteScript(\"a\"); EffectDamage(7); SpeakString(\"x\"); \
          SetCommandable(TRUE); }",
        b"JSR 00 @21\nRETN 00\n\
          CONST 06 0\nCONST 05 \"a\"\nACTION 00 8 2\nCONST 03 0\nCONST 03 8\nCONST 03 7\n\
          ACTION 00 25 3\nMOVSP 00 -4\nCONST 03 0\nCONST 05 \"x\"\nACTION 00 13 2\n\
          CONST 06 0\nCONST 03 1\nACTION 00 27 2\nRETN 00\n",
    ),
    (
        b"void f(int a, string s = \"d\", object o = OBJECT_INVALID, int n = -3) {} void \
          main() { f(1); f(2, \"e\"); }",
        b"JSR 00 @29\nRETN 00\n\
          MOVSP 00 -16\nRETN 00\n\
          CONST 03 -3\nCONST 06 1\nCONST 05 \"d\"\nCONST 03 1\nJSR 00 @21\nCONST 03 -3\n\
          CONST 06 1\nCONST 05 \"e\"\nCONST 03 2\nJSR 00 @21\nRETN 00\n",
    ),
    (
        b"void f(int a = 1); void f(int a = 2) {} void main() { f(); f(3); }",
        b"JSR 00 @29\nRETN 00\n\
          MOVSP 00 -4\nRETN 00\n\
          CONST 03 1\nJSR 00 @21\nCONST 03 3\nJSR 00 @21\nRETN 00\n",
    ),
    (
        b"const int C = 9; void f(int a = C, int b = FALSE) {} void main() { f(); }",
        b"JSR 00 @29\nRETN 00\n\
          MOVSP 00 -8\nRETN 00\n\
          CONST 03 0\nCONST 03 9\nJSR 00 @21\nRETN 00\n",
    ),
];

const PLACES: &[Row] = &[
    (
        b"void main() { int a; string b; object c; PrintObject(c); PrintString(b); \
          PrintInteger(a); }",
        b"JSR 00 @21\nRETN 00\n\
          RSADD 03\nRSADD 05\nRSADD 06\nCPTOPSP 01 -4 4\nACTION 00 5 1\nCPTOPSP 01 -8 4\n\
          ACTION 00 1 1\nCPTOPSP 01 -12 4\nACTION 00 4 1\nMOVSP 00 -12\nRETN 00\n",
    ),
    (
        b"void main() { object o; string s; SetLocalInt(o, s, 5); }",
        b"JSR 00 @21\nRETN 00\n\
          RSADD 06\nRSADD 05\nCONST 03 5\nCPTOPSP 01 -8 4\nCPTOPSP 01 -16 4\nACTION 00 18 3\n\
          MOVSP 00 -8\nRETN 00\n",
    ),
    (
        b"void f(int a, string b) { PrintInteger(a); PrintString(b); } void main() { f(1, \
          \"x\"); }",
        b"JSR 00 @55\nRETN 00\n\
          CPTOPSP 01 -4 4\nACTION 00 4 1\nCPTOPSP 01 -8 4\nACTION 00 1 1\nMOVSP 00 -8\n\
          RETN 00\n\
          CONST 05 \"x\"\nCONST 03 1\nJSR 00 @21\nRETN 00\n",
    ),
    (
        b"void f(int a) { int b = a; { int c = b; a = c; } } void main() { f(1); }",
        b"JSR 00 @79\nRETN 00\n\
          CPTOPSP 01 -4 4\nCPTOPSP 01 -4 4\nCPTOPSP 01 -4 4\nCPDOWNSP 01 -16 4\nMOVSP 00 -4\n\
          MOVSP 00 -4\nMOVSP 00 -4\nMOVSP 00 -4\nRETN 00\n\
          CONST 03 1\nJSR 00 @21\nRETN 00\n",
    ),
    (
        b"int a, b; void main() { int c; c = b; b = c; a = 5; }",
        b"JSR 00 @21\nRETN 00\n\
          RSADD 03\nRSADD 03\nSAVEBP 00\nJSR 00 @43\nRESTOREBP 00\nMOVSP 00 -8\nRETN 00\n\
          RSADD 03\nCPTOPBP 01 -4 4\nCPDOWNSP 01 -8 4\nMOVSP 00 -4\nCPTOPSP 01 -4 4\n\
          CPDOWNBP 01 -4 4\nMOVSP 00 -4\nCONST 03 5\nCPDOWNBP 01 -8 4\nMOVSP 00 -4\n\
          MOVSP 00 -4\nRETN 00\n",
    ),
    (
        b"int a = 1; void main() { PrintInteger(a); int a = 2; PrintInteger(a); { int a = a; \
          PrintInteger(a); } }",
        b"JSR 00 @21\nRETN 00\n\
          CONST 03 1\nSAVEBP 00\nJSR 00 @45\nRESTOREBP 00\nMOVSP 00 -4\nRETN 00\n\
          CPTOPBP 01 -4 4\nACTION 00 4 1\nCONST 03 2\nCPTOPSP 01 -4 4\nACTION 00 4 1\n\
          CPTOPSP 01 -4 4\nCPTOPSP 01 -4 4\nACTION 00 4 1\nMOVSP 00 -4\nMOVSP 00 -4\nRETN 00\n",
    ),
    (
        b"struct P { int x; string s; object o; }; void main() { struct P p; int n; struct P \
          q = p; p = q; }",
        b"JSR 00 @21\nRETN 00\n\
          RSADD 03\nRSADD 05\nRSADD 06\nRSADD 03\nCPTOPSP 01 -16 12\nCPTOPSP 01 -12 12\n\
          CPDOWNSP 01 -40 12\nMOVSP 00 -12\nMOVSP 00 -28\nRETN 00\n",
    ),
    (
        b"void main() { effect e; event v; e = EffectHeal(3); v = EventUserDefined(4); }",
        b"JSR 00 @21\nRETN 00\n\
          RSADD 10\nRSADD 11\nCONST 03 3\nACTION 00 26 1\nCPDOWNSP 01 -12 4\nMOVSP 00 -4\n\
          CONST 03 4\nACTION 00 38 1\nCPDOWNSP 01 -8 4\nMOVSP 00 -4\nMOVSP 00 -8\nRETN 00\n",
    ),
    (
        b"void main() { { int a = 1; } { string b = \"x\"; PrintString(b); } }",
        b"JSR 00 @21\nRETN 00\n\
          CONST 03 1\nMOVSP 00 -4\nCONST 05 \"x\"\nCPTOPSP 01 -4 4\nACTION 00 1 1\n\
          MOVSP 00 -4\nRETN 00\n",
    ),
    (
        b"struct P { int x; int y; }; struct P p; string s; void f(struct P q) { p = q; s = \
          \"a\"; } void main() { f(p); }",
        b"JSR 00 @21\nRETN 00\n\
          RSADD 03\nRSADD 03\nRSADD 05\nSAVEBP 00\nJSR 00 @94\nRESTOREBP 00\nMOVSP 00 -12\n\
          RETN 00\n\
          CPTOPSP 01 -8 8\nCPDOWNBP 01 -12 8\nMOVSP 00 -8\nCONST 05 \"a\"\nCPDOWNBP 01 -4 4\n\
          MOVSP 00 -4\nMOVSP 00 -8\nRETN 00\n\
          CPTOPBP 01 -12 8\nJSR 00 @45\nRETN 00\n",
    ),
];

#[test]
fn starts(rt: HostRuntime) -> Result<(), Fail> {
    assert_eq!(rt; first_other(rt.alloc(), STARTS)?, STARTS.len());
    Ok(())
}

#[test]
fn literals(rt: HostRuntime) -> Result<(), Fail> {
    assert_eq!(rt; first_other(rt.alloc(), LITERALS)?, LITERALS.len());
    Ok(())
}

#[test]
fn places(rt: HostRuntime) -> Result<(), Fail> {
    assert_eq!(rt; first_other(rt.alloc(), PLACES)?, PLACES.len());
    Ok(())
}
