//! Operators, assignments, members, calls, and actions that are passed.
use crate::compile::{Row, first_other};
use std::test::*;

const OPERATORS: &[Row] = &[
    (
        b"void main() { 1 | 2; 1 ^ 2; 1 & 2; 1 == 2; 1 != 2; 1 >= 2; 1 > 2; 1 < 2; 1 <= 2; }",
        b"JSR 00 @21\nRETN 00\n\
          CONST 03 1\nCONST 03 2\nINCOR 20\nMOVSP 00 -4\nCONST 03 1\nCONST 03 2\nEXCOR 20\n\
          MOVSP 00 -4\nCONST 03 1\nCONST 03 2\nBOOLAND 20\nMOVSP 00 -4\nCONST 03 1\n\
          CONST 03 2\nEQUAL 20\nMOVSP 00 -4\nCONST 03 1\nCONST 03 2\nNEQUAL 20\nMOVSP 00 -4\n\
          CONST 03 1\nCONST 03 2\nGEQ 20\nMOVSP 00 -4\nCONST 03 1\nCONST 03 2\nGT 20\n\
          MOVSP 00 -4\nCONST 03 1\nCONST 03 2\nLT 20\nMOVSP 00 -4\nCONST 03 1\nCONST 03 2\n\
          LEQ 20\nMOVSP 00 -4\nRETN 00\n",
    ),
    (
        b"void main() { 1 << 2; 1 >> 2; 1 >>> 2; 1 + 2; 1 - 2; 1 * 2; 1 / 2; 1 % 2; }",
        b"JSR 00 @21\nRETN 00\n\
          CONST 03 1\nCONST 03 2\nSHLEFT 20\nMOVSP 00 -4\nCONST 03 1\nCONST 03 2\nSHRIGHT 20\n\
          MOVSP 00 -4\nCONST 03 1\nCONST 03 2\nUSHRIGHT 20\nMOVSP 00 -4\nCONST 03 1\n\
          CONST 03 2\nADD 20\nMOVSP 00 -4\nCONST 03 1\nCONST 03 2\nSUB 20\nMOVSP 00 -4\n\
          CONST 03 1\nCONST 03 2\nMUL 20\nMOVSP 00 -4\nCONST 03 1\nCONST 03 2\nDIV 20\n\
          MOVSP 00 -4\nCONST 03 1\nCONST 03 2\nMOD 20\nMOVSP 00 -4\nRETN 00\n",
    ),
    (
        b"void main() { int a; -a; ~a; !a; - -a; !~a; }",
        b"JSR 00 @21\nRETN 00\n\
          RSADD 03\nCPTOPSP 01 -4 4\nNEG 03\nMOVSP 00 -4\nCPTOPSP 01 -4 4\nCOMP 03\n\
          MOVSP 00 -4\nCPTOPSP 01 -4 4\nNOT 03\nMOVSP 00 -4\nCPTOPSP 01 -4 4\nNEG 03\nNEG 03\n\
          MOVSP 00 -4\nCPTOPSP 01 -4 4\nCOMP 03\nNOT 03\nMOVSP 00 -4\nMOVSP 00 -4\nRETN 00\n",
    ),
    (
        b"void main() { string s; s + \"b\"; s == \"b\"; s != s; }",
        b"JSR 00 @21\nRETN 00\n\
          RSADD 05\nCPTOPSP 01 -4 4\nCONST 05 \"b\"\nADD 23\nMOVSP 00 -4\nCPTOPSP 01 -4 4\n\
          CONST 05 \"b\"\nEQUAL 23\nMOVSP 00 -4\nCPTOPSP 01 -4 4\nCPTOPSP 01 -8 4\nNEQUAL 23\n\
          MOVSP 00 -4\nMOVSP 00 -4\nRETN 00\n",
    ),
    (
        b"void main() { object o; effect e; event v; o == OBJECT_SELF; e != e; v == v; o != \
          o; e == e; v != v; }",
        b"JSR 00 @21\nRETN 00\n\
          RSADD 06\nRSADD 10\nRSADD 11\nCPTOPSP 01 -12 4\nCONST 06 0\nEQUAL 22\nMOVSP 00 -4\n\
          CPTOPSP 01 -8 4\nCPTOPSP 01 -12 4\nNEQUAL 30\nMOVSP 00 -4\nCPTOPSP 01 -4 4\n\
          CPTOPSP 01 -8 4\nEQUAL 31\nMOVSP 00 -4\nCPTOPSP 01 -12 4\nCPTOPSP 01 -16 4\n\
          NEQUAL 22\nMOVSP 00 -4\nCPTOPSP 01 -8 4\nCPTOPSP 01 -12 4\nEQUAL 30\nMOVSP 00 -4\n\
          CPTOPSP 01 -4 4\nCPTOPSP 01 -8 4\nNEQUAL 31\nMOVSP 00 -4\nMOVSP 00 -12\nRETN 00\n",
    ),
    (
        b"struct P { int x; string s; }; struct Q { int x; }; void main() { int n; struct P \
          p; struct Q q; p == p; p != p; q == q; }",
        b"JSR 00 @21\nRETN 00\n\
          RSADD 03\nRSADD 03\nRSADD 05\nRSADD 03\nCPTOPSP 01 -12 8\nCPTOPSP 01 -20 8\n\
          EQUAL 24 8\nMOVSP 00 -4\nCPTOPSP 01 -12 8\nCPTOPSP 01 -20 8\nNEQUAL 24 8\n\
          MOVSP 00 -4\nCPTOPSP 01 -4 4\nCPTOPSP 01 -8 4\nEQUAL 24 4\nMOVSP 00 -4\n\
          MOVSP 00 -16\nRETN 00\n",
    ),
    (
        b"void main() { int a, b, c; a - (b - c) - a * b; }",
        b"JSR 00 @21\nRETN 00\n\
          RSADD 03\nRSADD 03\nRSADD 03\nCPTOPSP 01 -12 4\nCPTOPSP 01 -12 4\nCPTOPSP 01 -12 4\n\
          SUB 20\nSUB 20\nCPTOPSP 01 -16 4\nCPTOPSP 01 -16 4\nMUL 20\nSUB 20\nMOVSP 00 -4\n\
          MOVSP 00 -12\nRETN 00\n",
    ),
    (
        b"void main() { int a, b; a && b; }",
        b"JSR 00 @21\nRETN 00\n\
          RSADD 03\nRSADD 03\nCPTOPSP 01 -8 4\nCPTOPSP 01 -4 4\nJZ 00 @57\nCPTOPSP 01 -8 4\n\
          LOGAND 20\n\
          MOVSP 00 -4\nMOVSP 00 -8\nRETN 00\n",
    ),
    (
        b"void main() { int a, b; a || b; }",
        b"JSR 00 @21\nRETN 00\n\
          RSADD 03\nRSADD 03\nCPTOPSP 01 -8 4\nCPTOPSP 01 -4 4\nJZ 00 @61\nCONST 03 1\n\
          LOGOR 20\nJMP 00 @71\n\
          CPTOPSP 01 -8 4\nLOGOR 20\n\
          MOVSP 00 -4\nMOVSP 00 -8\nRETN 00\n",
    ),
    (
        b"void main() { int a; a && 1 || a && 2; }",
        b"JSR 00 @21\nRETN 00\n\
          RSADD 03\nCPTOPSP 01 -4 4\nCPTOPSP 01 -4 4\nJZ 00 @53\nCONST 03 1\nLOGAND 20\n\
          CPTOPSP 01 -4 4\nJZ 00 @81\nCONST 03 1\nLOGOR 20\nJMP 00 @113\n\
          CPTOPSP 01 -8 4\nCPTOPSP 01 -4 4\nJZ 00 @111\nCONST 03 2\nLOGAND 20\n\
          LOGOR 20\n\
          MOVSP 00 -4\nMOVSP 00 -4\nRETN 00\n",
    ),
    (
        b"void main() { 1 + 2 * 3 << 4 & 5 == 6 | 7 < 8; }",
        b"JSR 00 @21\nRETN 00\n\
          CONST 03 1\nCONST 03 2\nCONST 03 3\nMUL 20\nADD 20\nCONST 03 4\nSHLEFT 20\n\
          CONST 03 5\nCONST 03 6\nEQUAL 20\nBOOLAND 20\nCONST 03 7\nCONST 03 8\nLT 20\n\
          INCOR 20\nMOVSP 00 -4\nRETN 00\n",
    ),
];

const ASSIGNMENTS: &[Row] = &[
    (
        b"void main() { int a, b; a = b = 4; }",
        b"JSR 00 @21\nRETN 00\n\
          RSADD 03\nRSADD 03\nCONST 03 4\nCPDOWNSP 01 -8 4\nCPDOWNSP 01 -12 4\nMOVSP 00 -4\n\
          MOVSP 00 -8\nRETN 00\n",
    ),
    (
        b"void main() { int a; a += 1; a -= 2; a *= 3; a /= 4; a %= 5; }",
        b"JSR 00 @21\nRETN 00\n\
          RSADD 03\nCPTOPSP 01 -4 4\nCONST 03 1\nADD 20\nCPDOWNSP 01 -8 4\nMOVSP 00 -4\n\
          CPTOPSP 01 -4 4\nCONST 03 2\nSUB 20\nCPDOWNSP 01 -8 4\nMOVSP 00 -4\n\
          CPTOPSP 01 -4 4\nCONST 03 3\nMUL 20\nCPDOWNSP 01 -8 4\nMOVSP 00 -4\n\
          CPTOPSP 01 -4 4\nCONST 03 4\nDIV 20\nCPDOWNSP 01 -8 4\nMOVSP 00 -4\n\
          CPTOPSP 01 -4 4\nCONST 03 5\nMOD 20\nCPDOWNSP 01 -8 4\nMOVSP 00 -4\nMOVSP 00 -4\n\
          RETN 00\n",
    ),
    (
        b"void main() { int a; a &= 1; a |= 2; a ^= 3; a <<= 4; a >>= 5; a >>>= 6; }",
        b"JSR 00 @21\nRETN 00\n\
          RSADD 03\nCPTOPSP 01 -4 4\nCONST 03 1\nBOOLAND 20\nCPDOWNSP 01 -8 4\nMOVSP 00 -4\n\
          CPTOPSP 01 -4 4\nCONST 03 2\nINCOR 20\nCPDOWNSP 01 -8 4\nMOVSP 00 -4\n\
          CPTOPSP 01 -4 4\nCONST 03 3\nEXCOR 20\nCPDOWNSP 01 -8 4\nMOVSP 00 -4\n\
          CPTOPSP 01 -4 4\nCONST 03 4\nSHLEFT 20\nCPDOWNSP 01 -8 4\nMOVSP 00 -4\n\
          CPTOPSP 01 -4 4\nCONST 03 5\nSHRIGHT 20\nCPDOWNSP 01 -8 4\nMOVSP 00 -4\n\
          CPTOPSP 01 -4 4\nCONST 03 6\nUSHRIGHT 20\nCPDOWNSP 01 -8 4\nMOVSP 00 -4\n\
          MOVSP 00 -4\nRETN 00\n",
    ),
    (
        b"string s; int g; void main() { s += \"a\"; g -= 2; }",
        b"JSR 00 @21\nRETN 00\n\
          RSADD 05\nRSADD 03\nSAVEBP 00\nJSR 00 @43\nRESTOREBP 00\nMOVSP 00 -8\nRETN 00\n\
          CPTOPBP 01 -8 4\nCONST 05 \"a\"\nADD 23\nCPDOWNBP 01 -8 4\nMOVSP 00 -4\n\
          CPTOPBP 01 -4 4\nCONST 03 2\nSUB 20\nCPDOWNBP 01 -4 4\nMOVSP 00 -4\nRETN 00\n",
    ),
    (
        b"void main() { int a; a += a = 5; }",
        b"JSR 00 @21\nRETN 00\n\
          RSADD 03\nCPTOPSP 01 -4 4\nCONST 03 5\nCPDOWNSP 01 -12 4\nADD 20\nCPDOWNSP 01 -8 4\n\
          MOVSP 00 -4\nMOVSP 00 -4\nRETN 00\n",
    ),
    (
        b"void main() { int a; ++a; --a; a++; a--; }",
        b"JSR 00 @21\nRETN 00\n\
          RSADD 03\nINCISP 03 -4\nCPTOPSP 01 -4 4\nMOVSP 00 -4\nDECISP 03 -4\n\
          CPTOPSP 01 -4 4\nMOVSP 00 -4\nCPTOPSP 01 -4 4\nINCISP 03 -8\nMOVSP 00 -4\n\
          CPTOPSP 01 -4 4\nDECISP 03 -8\nMOVSP 00 -4\nMOVSP 00 -4\nRETN 00\n",
    ),
    (
        b"int a, b; void main() { ++a; --b; a++; b--; }",
        b"JSR 00 @21\nRETN 00\n\
          RSADD 03\nRSADD 03\nSAVEBP 00\nJSR 00 @43\nRESTOREBP 00\nMOVSP 00 -8\nRETN 00\n\
          INCIBP 03 -8\nCPTOPBP 01 -8 4\nMOVSP 00 -4\nDECIBP 03 -4\nCPTOPBP 01 -4 4\n\
          MOVSP 00 -4\nCPTOPBP 01 -8 4\nINCIBP 03 -8\nMOVSP 00 -4\nCPTOPBP 01 -4 4\n\
          DECIBP 03 -4\nMOVSP 00 -4\nRETN 00\n",
    ),
    (
        b"void main() { int a; int b = a++ + ++a; }",
        b"JSR 00 @21\nRETN 00\n\
          RSADD 03\nCPTOPSP 01 -4 4\nINCISP 03 -8\nINCISP 03 -8\nCPTOPSP 01 -8 4\nADD 20\n\
          MOVSP 00 -8\nRETN 00\n",
    ),
    (
        b"int g; void main() { int a; a + (g = a); }",
        b"JSR 00 @21\nRETN 00\n\
          RSADD 03\nSAVEBP 00\nJSR 00 @41\nRESTOREBP 00\nMOVSP 00 -4\nRETN 00\n\
          RSADD 03\nCPTOPSP 01 -4 4\nCPTOPSP 01 -8 4\nCPDOWNBP 01 -4 4\nADD 20\nMOVSP 00 -4\n\
          MOVSP 00 -4\nRETN 00\n",
    ),
    (
        b"void main() { string s = \"a\"; s += s + \"b\"; }",
        b"JSR 00 @21\nRETN 00\n\
          CONST 05 \"a\"\nCPTOPSP 01 -4 4\nCPTOPSP 01 -8 4\nCONST 05 \"b\"\nADD 23\nADD 23\n\
          CPDOWNSP 01 -8 4\nMOVSP 00 -4\nMOVSP 00 -4\nRETN 00\n",
    ),
];

const MEMBERS: &[Row] = &[
    (
        b"struct P { int x; string s; int y; }; void main() { int n; struct P p; p.x = 1; p.s \
          = \"a\"; p.y = p.x; n = p.y; }",
        b"JSR 00 @21\nRETN 00\n\
          RSADD 03\nRSADD 03\nRSADD 05\nRSADD 03\nCONST 03 1\nCPDOWNSP 01 -16 4\nMOVSP 00 -4\n\
          CONST 05 \"a\"\nCPDOWNSP 01 -12 4\nMOVSP 00 -4\nCPTOPSP 01 -12 4\nCPDOWNSP 01 -8 4\n\
          MOVSP 00 -4\nCPTOPSP 01 -4 4\nCPDOWNSP 01 -20 4\nMOVSP 00 -4\nMOVSP 00 -16\n\
          RETN 00\n",
    ),
    (
        b"struct P { int x; int y; }; struct Q { string s; struct P p; object o; }; void \
          main() { struct Q q; struct P r = q.p; q.p = r; q.p.y = 3; PrintObject(q.o); }",
        b"JSR 00 @21\nRETN 00\n\
          RSADD 05\nRSADD 03\nRSADD 03\nRSADD 06\nCPTOPSP 01 -12 8\nCPTOPSP 01 -8 8\n\
          CPDOWNSP 01 -28 8\nMOVSP 00 -8\nCONST 03 3\nCPDOWNSP 01 -20 4\nMOVSP 00 -4\n\
          CPTOPSP 01 -12 4\nACTION 00 5 1\nMOVSP 00 -24\nRETN 00\n",
    ),
    (
        b"struct P { int x; string s; }; int n; struct P p; void main() { p.s = \"a\"; n = \
          p.x; ++p.x; p.x--; }",
        b"JSR 00 @21\nRETN 00\n\
          RSADD 03\nRSADD 03\nRSADD 05\nSAVEBP 00\nJSR 00 @45\nRESTOREBP 00\nMOVSP 00 -12\n\
          RETN 00\n\
          CONST 05 \"a\"\nCPDOWNBP 01 -4 4\nMOVSP 00 -4\nCPTOPBP 01 -8 4\nCPDOWNBP 01 -12 4\n\
          MOVSP 00 -4\nINCIBP 03 -8\nCPTOPBP 01 -8 4\nMOVSP 00 -4\nCPTOPBP 01 -8 4\n\
          DECIBP 03 -8\nMOVSP 00 -4\nRETN 00\n",
    ),
    (
        b"struct P { int x; int y; }; void main() { struct P p; p.y += 2; ++p.x; p.y++; (p).x \
          = 5; }",
        b"JSR 00 @21\nRETN 00\n\
          RSADD 03\nRSADD 03\nCPTOPSP 01 -4 4\nCONST 03 2\nADD 20\nCPDOWNSP 01 -8 4\n\
          MOVSP 00 -4\nINCISP 03 -8\nCPTOPSP 01 -8 4\nMOVSP 00 -4\nCPTOPSP 01 -4 4\n\
          INCISP 03 -8\nMOVSP 00 -4\nCONST 03 5\nCPDOWNSP 01 -12 4\nMOVSP 00 -4\nMOVSP 00 -8\n\
          RETN 00\n",
    ),
    (
        b"struct P { int x; string s; }; void f(int n, struct P p, int m) { \
          PrintInteger(p.x); PrintString(p.s); PrintInteger(n); } void main() { struct P p; \
          f(1, p, 2); }",
        b"JSR 00 @68\nRETN 00\n\
          CPTOPSP 01 -12 4\nACTION 00 4 1\nCPTOPSP 01 -8 4\nACTION 00 1 1\nCPTOPSP 01 -4 4\n\
          ACTION 00 4 1\nMOVSP 00 -16\nRETN 00\n\
          RSADD 03\nRSADD 05\nCONST 03 2\nCPTOPSP 01 -12 8\nCONST 03 1\nJSR 00 @21\n\
          MOVSP 00 -8\nRETN 00\n",
    ),
    (
        b"struct P { int x; string s; int y; }; struct P Make() { struct P p; return p; } \
          void main() { PrintInteger(Make().y); PrintString(Make().s); }",
        b"JSR 00 @59\nRETN 00\n\
          RSADD 03\nRSADD 05\nRSADD 03\nCPTOPSP 01 -12 12\nCPDOWNSP 01 -36 12\nMOVSP 00 -24\n\
          RETN 00\nMOVSP 00 -12\nRETN 00\n\
          RSADD 03\nRSADD 05\nRSADD 03\nJSR 00 @21\nDESTRUCT 01 12 8 4\nACTION 00 4 1\n\
          RSADD 03\nRSADD 05\nRSADD 03\nJSR 00 @21\nDESTRUCT 01 12 4 4\nACTION 00 1 1\n\
          RETN 00\n",
    ),
    (
        b"struct P { int x; string s; }; struct Q { int n; struct P p; }; struct Q Make() { \
          struct Q q; return q; } void main() { struct P p = Make().p; \
          PrintString(Make().p.s); }",
        b"JSR 00 @59\nRETN 00\n\
          RSADD 03\nRSADD 03\nRSADD 05\nCPTOPSP 01 -12 12\nCPDOWNSP 01 -36 12\nMOVSP 00 -24\n\
          RETN 00\nMOVSP 00 -12\nRETN 00\n\
          RSADD 03\nRSADD 03\nRSADD 05\nJSR 00 @21\nDESTRUCT 01 12 4 8\nRSADD 03\nRSADD 03\n\
          RSADD 05\nJSR 00 @21\nDESTRUCT 01 12 4 8\nDESTRUCT 01 8 4 4\nACTION 00 1 1\n\
          MOVSP 00 -8\nRETN 00\n",
    ),
    (
        b"struct P { int x; int y; }; void main() { struct P p, q; PrintInteger((p = q).y); }",
        b"JSR 00 @21\nRETN 00\n\
          RSADD 03\nRSADD 03\nRSADD 03\nRSADD 03\nCPTOPSP 01 -8 8\nCPDOWNSP 01 -24 8\n\
          DESTRUCT 01 8 4 4\nACTION 00 4 1\nMOVSP 00 -16\nRETN 00\n",
    ),
    (
        b"struct P { int x; int y; }; struct Q { struct P a, b; }; struct Q q; void main() { \
          q.a = q.b; q.b.y *= q.a.y; }",
        b"JSR 00 @21\nRETN 00\n\
          RSADD 03\nRSADD 03\nRSADD 03\nRSADD 03\nSAVEBP 00\nJSR 00 @47\nRESTOREBP 00\n\
          MOVSP 00 -16\nRETN 00\n\
          CPTOPBP 01 -8 8\nCPDOWNBP 01 -16 8\nMOVSP 00 -8\nCPTOPBP 01 -4 4\nCPTOPBP 01 -12 4\n\
          MUL 20\nCPDOWNBP 01 -4 4\nMOVSP 00 -4\nRETN 00\n",
    ),
];

const CALLS: &[Row] = &[
    (
        b"void f(int a, string b, object c) {} void main() { f(1, \"b\", OBJECT_SELF); }",
        b"JSR 00 @29\nRETN 00\n\
          MOVSP 00 -12\nRETN 00\n\
          CONST 06 0\nCONST 05 \"b\"\nCONST 03 1\nJSR 00 @21\nRETN 00\n",
    ),
    (
        b"int f() { return 2; } void main() { int n = f() + f(); f(); }",
        b"JSR 00 @45\nRETN 00\n\
          CONST 03 2\nCPDOWNSP 01 -8 4\nMOVSP 00 -4\nRETN 00\nRETN 00\n\
          RSADD 03\nJSR 00 @21\nRSADD 03\nJSR 00 @21\nADD 20\nRSADD 03\nJSR 00 @21\n\
          MOVSP 00 -4\nMOVSP 00 -4\nRETN 00\n",
    ),
    (
        b"int f(int a, int b) { return a; } void main() { int n = 1; n = f(n, 2); }",
        b"JSR 00 @53\nRETN 00\n\
          CPTOPSP 01 -4 4\nCPDOWNSP 01 -16 4\nMOVSP 00 -12\nRETN 00\nMOVSP 00 -8\nRETN 00\n\
          CONST 03 1\nRSADD 03\nCONST 03 2\nCPTOPSP 01 -12 4\nJSR 00 @21\nCPDOWNSP 01 -8 4\n\
          MOVSP 00 -4\nMOVSP 00 -4\nRETN 00\n",
    ),
    (
        b"int f(int a, int b) { return b; } void main() { PrintInteger(f(f(1, 2), f(3, 4))); }",
        b"JSR 00 @53\nRETN 00\n\
          CPTOPSP 01 -8 4\nCPDOWNSP 01 -16 4\nMOVSP 00 -12\nRETN 00\nMOVSP 00 -8\nRETN 00\n\
          RSADD 03\nRSADD 03\nCONST 03 4\nCONST 03 3\nJSR 00 @21\nRSADD 03\nCONST 03 2\n\
          CONST 03 1\nJSR 00 @21\nJSR 00 @21\nACTION 00 4 1\nRETN 00\n",
    ),
    (
        b"struct P { int x; string s; }; struct P Make(int n) { struct P p; p.x = n; return \
          p; } struct P Same(struct P p) { return p; } void main() { \
          PrintInteger(Same(Same(Make(4))).x); }",
        b"JSR 00 @117\nRETN 00\n\
          RSADD 03\nRSADD 05\nCPTOPSP 01 -12 4\nCPDOWNSP 01 -12 4\nMOVSP 00 -4\n\
          CPTOPSP 01 -8 8\nCPDOWNSP 01 -28 8\nMOVSP 00 -20\nRETN 00\nMOVSP 00 -8\n\
          MOVSP 00 -4\nRETN 00\n\
          CPTOPSP 01 -8 8\nCPDOWNSP 01 -24 8\nMOVSP 00 -16\nRETN 00\nMOVSP 00 -8\nRETN 00\n\
          RSADD 03\nRSADD 05\nRSADD 03\nRSADD 05\nRSADD 03\nRSADD 05\nCONST 03 4\nJSR 00 @21\n\
          JSR 00 @85\nJSR 00 @85\nDESTRUCT 01 8 0 4\nACTION 00 4 1\nRETN 00\n",
    ),
    (
        b"int f(int n) { if (n == 0) return 1; return n * f(n - 1); } void main() { \
          PrintInteger(f(5)); }",
        b"JSR 00 @123\nRETN 00\n\
          CPTOPSP 01 -4 4\nCONST 03 0\nEQUAL 20\nJZ 00 @65\nCONST 03 1\nCPDOWNSP 01 -12 4\n\
          MOVSP 00 -8\nRETN 00\n\
          CPTOPSP 01 -4 4\nRSADD 03\nCPTOPSP 01 -12 4\nCONST 03 1\nSUB 20\nJSR 00 @21\n\
          MUL 20\nCPDOWNSP 01 -12 4\nMOVSP 00 -8\nRETN 00\nMOVSP 00 -4\nRETN 00\n\
          RSADD 03\nCONST 03 5\nJSR 00 @21\nACTION 00 4 1\nRETN 00\n",
    ),
    (
        b"void b(int n); void a(int n) { if (n) b(n - 1); } void b(int n) { if (n) a(n - 2); \
          } void main() { a(3); }",
        b"JSR 00 @109\nRETN 00\n\
          CPTOPSP 01 -4 4\nJZ 00 @57\nCPTOPSP 01 -4 4\nCONST 03 1\nSUB 20\nJSR 00 @65\n\
          MOVSP 00 -4\nRETN 00\n\
          CPTOPSP 01 -4 4\nJZ 00 @101\nCPTOPSP 01 -4 4\nCONST 03 2\nSUB 20\nJSR 00 @21\n\
          MOVSP 00 -4\nRETN 00\n\
          CONST 03 3\nJSR 00 @21\nRETN 00\n",
    ),
    (
        b"void main() { PrintString(GetSubString(\"abc\", Random(2), 1)); }",
        b"JSR 00 @21\nRETN 00\n\
          CONST 03 1\nCONST 03 2\nACTION 00 0 1\nCONST 05 \"abc\"\nACTION 00 35 3\n\
          ACTION 00 1 1\nRETN 00\n",
    ),
    (
        b"void main() { EffectHeal(1); Random(2); GetTag(OBJECT_SELF); EventUserDefined(3); }",
        b"JSR 00 @21\nRETN 00\n\
          CONST 03 1\nACTION 00 26 1\nMOVSP 00 -4\nCONST 03 2\nACTION 00 0 1\nMOVSP 00 -4\n\
          CONST 06 0\nACTION 00 15 1\nMOVSP 00 -4\nCONST 03 3\nACTION 00 38 1\nMOVSP 00 -4\n\
          RETN 00\n",
    ),
    (
        b"string s() { return \"\"; } object o() { return OBJECT_INVALID; } effect e() { \
          effect x; return x; } event v() { event x; return x; } void main() { s(); o(); e(); \
          v(); }",
        b"JSR 00 @135\nRETN 00\n\
          CONST 05 \"\"\nCPDOWNSP 01 -8 4\nMOVSP 00 -4\nRETN 00\nRETN 00\n\
          CONST 06 1\nCPDOWNSP 01 -8 4\nMOVSP 00 -4\nRETN 00\nRETN 00\n\
          RSADD 10\nCPTOPSP 01 -4 4\nCPDOWNSP 01 -12 4\nMOVSP 00 -8\nRETN 00\nMOVSP 00 -4\n\
          RETN 00\n\
          RSADD 11\nCPTOPSP 01 -4 4\nCPDOWNSP 01 -12 4\nMOVSP 00 -8\nRETN 00\nMOVSP 00 -4\n\
          RETN 00\n\
          RSADD 05\nJSR 00 @21\nMOVSP 00 -4\nRSADD 06\nJSR 00 @43\nMOVSP 00 -4\nRSADD 10\n\
          JSR 00 @67\nMOVSP 00 -4\nRSADD 11\nJSR 00 @101\nMOVSP 00 -4\nRETN 00\n",
    ),
    (
        b"struct P { int x; object o; }; struct P f(struct P a, struct P b) { return a; } \
          void main() { struct P p; p = f(f(p, p), p); f(p, p); }",
        b"JSR 00 @53\nRETN 00\n\
          CPTOPSP 01 -8 8\nCPDOWNSP 01 -32 8\nMOVSP 00 -24\nRETN 00\nMOVSP 00 -16\nRETN 00\n\
          RSADD 03\nRSADD 06\nRSADD 03\nRSADD 06\nCPTOPSP 01 -16 8\nRSADD 03\nRSADD 06\n\
          CPTOPSP 01 -32 8\nCPTOPSP 01 -40 8\nJSR 00 @21\nJSR 00 @21\nCPDOWNSP 01 -16 8\n\
          MOVSP 00 -8\nRSADD 03\nRSADD 06\nCPTOPSP 01 -16 8\nCPTOPSP 01 -24 8\nJSR 00 @21\n\
          MOVSP 00 -8\nMOVSP 00 -8\nRETN 00\n",
    ),
    (
        b"int g = 2; int f(int n) { return n + g; } void main() { g = f(g); }",
        b"JSR 00 @21\nRETN 00\n\
          CONST 03 2\nSAVEBP 00\nJSR 00 @87\nRESTOREBP 00\nMOVSP 00 -4\nRETN 00\n\
          CPTOPSP 01 -4 4\nCPTOPBP 01 -4 4\nADD 20\nCPDOWNSP 01 -12 4\nMOVSP 00 -8\nRETN 00\n\
          MOVSP 00 -4\nRETN 00\n\
          RSADD 03\nCPTOPBP 01 -4 4\nJSR 00 @45\nCPDOWNBP 01 -4 4\nMOVSP 00 -4\nRETN 00\n",
    ),
    (
        b"void main() { effect e = EffectDamage(1, 2); ApplyEffectToObject(0, e, \
          OBJECT_SELF); }",
        b"JSR 00 @21\nRETN 00\n\
          CONST 03 0\nCONST 03 2\nCONST 03 1\nACTION 00 25 3\nCONST 03 0\nCONST 06 0\n\
          CPTOPSP 01 -12 4\nCONST 03 0\nACTION 00 23 4\nMOVSP 00 -4\nRETN 00\n",
    ),
];

const ACTIONS: &[Row] = &[
    (
        b"void main() { int n = 3; DelayCommand(1000, PrintInteger(n)); }",
        b"JSR 00 @21\nRETN 00\n\
          CONST 03 3\nSTORE_STATE 10 0 4\nJMP 00 @58\nCPTOPSP 01 -4 4\nACTION 00 4 1\n\
          RETN 00\n\
          CONST 03 1000\nACTION 00 7 2\nMOVSP 00 -4\nRETN 00\n",
    ),
    (
        b"int g; string h; void main() { object o; AssignCommand(o, SpeakString(h)); }",
        b"JSR 00 @21\nRETN 00\n\
          RSADD 03\nRSADD 05\nSAVEBP 00\nJSR 00 @43\nRESTOREBP 00\nMOVSP 00 -8\nRETN 00\n\
          RSADD 06\nSTORE_STATE 10 8 4\nJMP 00 @82\nCONST 03 0\nCPTOPBP 01 -4 4\n\
          ACTION 00 13 2\nRETN 00\n\
          CPTOPSP 01 -4 4\nACTION 00 6 2\nMOVSP 00 -4\nRETN 00\n",
    ),
    (
        b"void f(int a, int b) {} void main() { int x; int y; ActionDoCommand(f(x, y)); }",
        b"JSR 00 @29\nRETN 00\n\
          MOVSP 00 -8\nRETN 00\n\
          RSADD 03\nRSADD 03\nSTORE_STATE 10 0 8\nJMP 00 @73\nCPTOPSP 01 -4 4\n\
          CPTOPSP 01 -12 4\nJSR 00 @21\nRETN 00\n\
          ACTION 00 10 1\nMOVSP 00 -8\nRETN 00\n",
    ),
    (
        b"void main() { int n; DelayCommand(1, DelayCommand(n, PrintInteger(n))); }",
        b"JSR 00 @21\nRETN 00\n\
          RSADD 03\nSTORE_STATE 10 0 4\nJMP 00 @85\nSTORE_STATE 10 0 4\nJMP 00 @70\n\
          CPTOPSP 01 -4 4\nACTION 00 4 1\nRETN 00\n\
          CPTOPSP 01 -4 4\nACTION 00 7 2\nRETN 00\n\
          CONST 03 1\nACTION 00 7 2\nMOVSP 00 -4\nRETN 00\n",
    ),
    (
        b"int f(int a) { DelayCommand(a, PrintInteger(a)); return a; } void main() { f(1); }",
        b"JSR 00 @97\nRETN 00\n\
          STORE_STATE 10 0 4\nJMP 00 @52\nCPTOPSP 01 -4 4\nACTION 00 4 1\nRETN 00\n\
          CPTOPSP 01 -4 4\nACTION 00 7 2\nCPTOPSP 01 -4 4\nCPDOWNSP 01 -12 4\nMOVSP 00 -8\n\
          RETN 00\nMOVSP 00 -4\nRETN 00\n\
          RSADD 03\nCONST 03 1\nJSR 00 @21\nMOVSP 00 -4\nRETN 00\n",
    ),
    (
        b"void main() { switch (1) { case 1: DelayCommand(2, PrintInteger(3)); } }",
        b"JSR 00 @21\nRETN 00\n\
          CONST 03 1\nCPTOPSP 01 -4 4\nCONST 03 1\nEQUAL 20\nJNZ 00 @55\nJMP 00 @95\n\
          STORE_STATE 10 0 4\nJMP 00 @84\nCONST 03 3\nACTION 00 4 1\nRETN 00\n\
          CONST 03 2\nACTION 00 7 2\n\
          MOVSP 00 -4\nRETN 00\n",
    ),
    (
        b"struct P { int x; string s; }; struct P g; void main() { struct P p; \
          DelayCommand(1, PrintString(p.s)); DelayCommand(g.x, PrintString(g.s)); }",
        b"JSR 00 @21\nRETN 00\n\
          RSADD 03\nRSADD 05\nSAVEBP 00\nJSR 00 @43\nRESTOREBP 00\nMOVSP 00 -8\nRETN 00\n\
          RSADD 03\nRSADD 05\nSTORE_STATE 10 8 8\nJMP 00 @78\nCPTOPSP 01 -4 4\nACTION 00 1 1\n\
          RETN 00\n\
          CONST 03 1\nACTION 00 7 2\nSTORE_STATE 10 8 8\nJMP 00 @120\nCPTOPBP 01 -4 4\n\
          ACTION 00 1 1\nRETN 00\n\
          CPTOPBP 01 -8 4\nACTION 00 7 2\nMOVSP 00 -8\nRETN 00\n",
    ),
    (
        b"void main() { AssignCommand(OBJECT_SELF, ClearAllActions()); }",
        b"JSR 00 @21\nRETN 00\n\
          STORE_STATE 10 0 0\nJMP 00 @50\nCONST 03 0\nACTION 00 9 1\nRETN 00\n\
          CONST 06 0\nACTION 00 6 2\nRETN 00\n",
    ),
    (
        b"void f(string s) { int n; if (n) { object o; AssignCommand(o, f(s)); } } void \
          main() { f(\"a\"); }",
        b"JSR 00 @104\nRETN 00\n\
          RSADD 03\nCPTOPSP 01 -4 4\nJZ 00 @90\nRSADD 06\nSTORE_STATE 10 0 12\nJMP 00 @71\n\
          CPTOPSP 01 -12 4\nJSR 00 @21\nRETN 00\n\
          CPTOPSP 01 -4 4\nACTION 00 6 2\nMOVSP 00 -4\n\
          MOVSP 00 -4\nMOVSP 00 -4\nRETN 00\n\
          CONST 05 \"a\"\nJSR 00 @21\nRETN 00\n",
    ),
];

#[test]
fn operators(rt: HostRuntime) -> Result<(), Fail> {
    assert_eq!(rt; first_other(rt.alloc(), OPERATORS)?, OPERATORS.len());
    Ok(())
}

#[test]
fn assignments(rt: HostRuntime) -> Result<(), Fail> {
    assert_eq!(rt; first_other(rt.alloc(), ASSIGNMENTS)?, ASSIGNMENTS.len());
    Ok(())
}

#[test]
fn members(rt: HostRuntime) -> Result<(), Fail> {
    assert_eq!(rt; first_other(rt.alloc(), MEMBERS)?, MEMBERS.len());
    Ok(())
}

#[test]
fn calls(rt: HostRuntime) -> Result<(), Fail> {
    assert_eq!(rt; first_other(rt.alloc(), CALLS)?, CALLS.len());
    Ok(())
}

#[test]
fn actions(rt: HostRuntime) -> Result<(), Fail> {
    assert_eq!(rt; first_other(rt.alloc(), ACTIONS)?, ACTIONS.len());
    Ok(())
}
