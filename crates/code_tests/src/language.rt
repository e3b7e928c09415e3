//! Scripts of docs/LANGUAGE.md with their listings, by `docs/language/make`.
use crate::compile::{Row, first_other};
use std::test::*;

const LANGUAGE: &[Row] = &[
    (
        b"void main()\n\
          {\n\
          int n = 1;\n\
          DelayCommand(1000, PrintInteger(n));\n\
          n = 2;\n\
          PrintInteger(n);\n\
          }\n",
        b"JSR 00 @21\n\
          RETN 00\n\
          CONST 03 1\n\
          STORE_STATE 10 0 4\n\
          JMP 00 @58\n\
          CPTOPSP 01 -4 4\n\
          ACTION 00 4 1\n\
          RETN 00\n\
          CONST 03 1000\n\
          ACTION 00 7 2\n\
          CONST 03 2\n\
          CPDOWNSP 01 -8 4\n\
          MOVSP 00 -4\n\
          CPTOPSP 01 -4 4\n\
          ACTION 00 4 1\n\
          MOVSP 00 -4\n\
          RETN 00\n",
    ),
    (
        b"void main()\n\
          {\n\
          int n;\n\
          PrintInteger(n && n++);\n\
          PrintInteger(n);\n\
          }\n",
        b"JSR 00 @21\n\
          RETN 00\n\
          RSADD 03\n\
          CPTOPSP 01 -4 4\n\
          CPTOPSP 01 -4 4\n\
          JZ 00 @61\n\
          CPTOPSP 01 -8 4\n\
          INCISP 03 -12\n\
          LOGAND 20\n\
          ACTION 00 4 1\n\
          CPTOPSP 01 -4 4\n\
          ACTION 00 4 1\n\
          MOVSP 00 -4\n\
          RETN 00\n",
    ),
    (
        b"void main()\n\
          {\n\
          int n = 2;\n\
          n += n = 5;\n\
          PrintInteger(n);\n\
          }\n",
        b"JSR 00 @21\n\
          RETN 00\n\
          CONST 03 2\n\
          CPTOPSP 01 -4 4\n\
          CONST 03 5\n\
          CPDOWNSP 01 -12 4\n\
          ADD 20\n\
          CPDOWNSP 01 -8 4\n\
          MOVSP 00 -4\n\
          CPTOPSP 01 -4 4\n\
          ACTION 00 4 1\n\
          MOVSP 00 -4\n\
          RETN 00\n",
    ),
    (
        b"int g;\n\
          \n\
          void main()\n\
          {\n\
          int n;\n\
          g = n = 4;\n\
          PrintInteger(g + n);\n\
          }\n",
        b"JSR 00 @21\n\
          RETN 00\n\
          RSADD 03\n\
          SAVEBP 00\n\
          JSR 00 @41\n\
          RESTOREBP 00\n\
          MOVSP 00 -4\n\
          RETN 00\n\
          RSADD 03\n\
          CONST 03 4\n\
          CPDOWNSP 01 -8 4\n\
          CPDOWNBP 01 -4 4\n\
          MOVSP 00 -4\n\
          CPTOPBP 01 -4 4\n\
          CPTOPSP 01 -8 4\n\
          ADD 20\n\
          ACTION 00 4 1\n\
          MOVSP 00 -4\n\
          RETN 00\n",
    ),
    (
        b"void main()\n\
          {\n\
          PrintInteger(-2);\n\
          PrintInteger(~2);\n\
          PrintInteger(!2);\n\
          }\n",
        b"JSR 00 @21\n\
          RETN 00\n\
          CONST 03 2\n\
          NEG 03\n\
          ACTION 00 4 1\n\
          CONST 03 2\n\
          COMP 03\n\
          ACTION 00 4 1\n\
          CONST 03 2\n\
          NOT 03\n\
          ACTION 00 4 1\n\
          RETN 00\n",
    ),
    (
        b"void main()\n\
          {\n\
          PrintInteger(7 - 2 * 3);\n\
          PrintString(\"a\" + \"b\");\n\
          PrintInteger(1 / 0);\n\
          PrintInteger(8);\n\
          }\n",
        b"JSR 00 @21\n\
          RETN 00\n\
          CONST 03 7\n\
          CONST 03 2\n\
          CONST 03 3\n\
          MUL 20\n\
          SUB 20\n\
          ACTION 00 4 1\n\
          CONST 05 \"a\"\n\
          CONST 05 \"b\"\n\
          ADD 23\n\
          ACTION 00 1 1\n\
          CONST 03 1\n\
          CONST 03 0\n\
          DIV 20\n\
          ACTION 00 4 1\n\
          CONST 03 8\n\
          ACTION 00 4 1\n\
          RETN 00\n",
    ),
    (
        b"void main()\n\
          {\n\
          int n = 1;\n\
          { int n = 2; PrintInteger(n); }\n\
          PrintInteger(n);\n\
          }\n",
        b"JSR 00 @21\n\
          RETN 00\n\
          CONST 03 1\n\
          CONST 03 2\n\
          CPTOPSP 01 -4 4\n\
          ACTION 00 4 1\n\
          MOVSP 00 -4\n\
          CPTOPSP 01 -4 4\n\
          ACTION 00 4 1\n\
          MOVSP 00 -4\n\
          RETN 00\n",
    ),
    (
        b"int f(int a, int b = 3) { return a - b; }\n\
          \n\
          void main()\n\
          {\n\
          int n = 1;\n\
          PrintInteger(f(n, n = 5));\n\
          PrintInteger(f(n));\n\
          }\n",
        b"JSR 00 @63\n\
          RETN 00\n\
          CPTOPSP 01 -4 4\n\
          CPTOPSP 01 -12 4\n\
          SUB 20\n\
          CPDOWNSP 01 -16 4\n\
          MOVSP 00 -12\n\
          RETN 00\n\
          MOVSP 00 -8\n\
          RETN 00\n\
          CONST 03 1\n\
          RSADD 03\n\
          CONST 03 5\n\
          CPDOWNSP 01 -12 4\n\
          CPTOPSP 01 -12 4\n\
          JSR 00 @21\n\
          ACTION 00 4 1\n\
          RSADD 03\n\
          CONST 03 3\n\
          CPTOPSP 01 -12 4\n\
          JSR 00 @21\n\
          ACTION 00 4 1\n\
          MOVSP 00 -4\n\
          RETN 00\n",
    ),
    (
        b"int StartingConditional()\n\
          {\n\
          PrintInteger(1);\n\
          return FALSE;\n\
          }\n",
        b"RSADD 03\n\
          JSR 00 @29\n\
          MOVSP 00 -4\n\
          RETN 00\n\
          CONST 03 1\n\
          ACTION 00 4 1\n\
          CONST 03 0\n\
          CPDOWNSP 01 -8 4\n\
          MOVSP 00 -4\n\
          RETN 00\n\
          RETN 00\n",
    ),
    (
        b"const int K = -3;\n\
          const string S = \"a\";\n\
          \n\
          void main()\n\
          {\n\
          PrintInteger(K);\n\
          PrintString(S);\n\
          }\n",
        b"JSR 00 @21\n\
          RETN 00\n\
          CONST 03 -3\n\
          ACTION 00 4 1\n\
          CONST 05 \"a\"\n\
          ACTION 00 1 1\n\
          RETN 00\n",
    ),
    (
        b"void main()\n\
          {\n\
          int n = 1;\n\
          PrintInteger(n++);\n\
          PrintInteger(--n);\n\
          }\n",
        b"JSR 00 @21\n\
          RETN 00\n\
          CONST 03 1\n\
          CPTOPSP 01 -4 4\n\
          INCISP 03 -8\n\
          ACTION 00 4 1\n\
          DECISP 03 -4\n\
          CPTOPSP 01 -4 4\n\
          ACTION 00 4 1\n\
          MOVSP 00 -4\n\
          RETN 00\n",
    ),
    (
        b"struct P { int n; string s; };\n\
          \n\
          void main()\n\
          {\n\
          int a = 4, b;\n\
          struct P p;\n\
          PrintInteger(a + b + p.n);\n\
          }\n",
        b"JSR 00 @21\n\
          RETN 00\n\
          CONST 03 4\n\
          RSADD 03\n\
          RSADD 03\n\
          RSADD 05\n\
          CPTOPSP 01 -16 4\n\
          CPTOPSP 01 -16 4\n\
          ADD 20\n\
          CPTOPSP 01 -12 4\n\
          ADD 20\n\
          ACTION 00 4 1\n\
          MOVSP 00 -16\n\
          RETN 00\n",
    ),
    (
        b"void F(int a, int b = 7);\n\
          \n\
          void main() { F(1); }\n\
          \n\
          void F(int a, int b = 9) { PrintInteger(b); }\n",
        b"JSR 00 @21\n\
          RETN 00\n\
          CONST 03 7\n\
          CONST 03 1\n\
          JSR 00 @41\n\
          RETN 00\n\
          CPTOPSP 01 -8 4\n\
          ACTION 00 4 1\n\
          MOVSP 00 -8\n\
          RETN 00\n",
    ),
    (
        b"void main()\n\
          {\n\
          int n = 5;\n\
          do n++; while (n < 2);\n\
          PrintInteger(n);\n\
          }\n",
        b"JSR 00 @21\n\
          RETN 00\n\
          CONST 03 5\n\
          CPTOPSP 01 -4 4\n\
          INCISP 03 -8\n\
          MOVSP 00 -4\n\
          CPTOPSP 01 -4 4\n\
          CONST 03 2\n\
          LT 20\n\
          JNZ 00 @27\n\
          CPTOPSP 01 -4 4\n\
          ACTION 00 4 1\n\
          MOVSP 00 -4\n\
          RETN 00\n",
    ),
    (
        b"void main()\n\
          {\n\
          1 + 2;\n\
          abs(-6);\n\
          PrintInteger(3);\n\
          ;\n\
          }\n",
        b"JSR 00 @21\n\
          RETN 00\n\
          CONST 03 1\n\
          CONST 03 2\n\
          ADD 20\n\
          MOVSP 00 -4\n\
          CONST 03 6\n\
          NEG 03\n\
          ACTION 00 28 1\n\
          MOVSP 00 -4\n\
          CONST 03 3\n\
          ACTION 00 4 1\n\
          RETN 00\n",
    ),
    (
        b"void main()\n\
          {\n\
          int n;\n\
          if (n) PrintInteger(1);\n\
          else PrintInteger(2);\n\
          }\n",
        b"JSR 00 @21\n\
          RETN 00\n\
          RSADD 03\n\
          CPTOPSP 01 -4 4\n\
          JZ 00 @54\n\
          CONST 03 1\n\
          ACTION 00 4 1\n\
          JMP 00 @65\n\
          CONST 03 2\n\
          ACTION 00 4 1\n\
          MOVSP 00 -4\n\
          RETN 00\n",
    ),
    (
        b"void main()\n\
          {\n\
          SpeakString(\"hello\");\n\
          PrintInteger(abs(-6));\n\
          ExecuteScript(\"other\");\n\
          }\n",
        b"JSR 00 @21\n\
          RETN 00\n\
          CONST 03 0\n\
          CONST 05 \"hello\"\n\
          ACTION 00 13 2\n\
          CONST 03 6\n\
          NEG 03\n\
          ACTION 00 28 1\n\
          ACTION 00 4 1\n\
          CONST 06 0\n\
          CONST 05 \"other\"\n\
          ACTION 00 8 2\n\
          RETN 00\n",
    ),
    (
        b"struct P { int x, y; };\n\
          \n\
          void main()\n\
          {\n\
          struct P p, q;\n\
          q.y = 1;\n\
          PrintInteger(p == q);\n\
          PrintInteger(\"a\" != \"b\");\n\
          }\n",
        b"JSR 00 @21\n\
          RETN 00\n\
          RSADD 03\n\
          RSADD 03\n\
          RSADD 03\n\
          RSADD 03\n\
          CONST 03 1\n\
          CPDOWNSP 01 -8 4\n\
          MOVSP 00 -4\n\
          CPTOPSP 01 -16 8\n\
          CPTOPSP 01 -16 8\n\
          EQUAL 24 8\n\
          ACTION 00 4 1\n\
          CONST 05 \"a\"\n\
          CONST 05 \"b\"\n\
          NEQUAL 23\n\
          ACTION 00 4 1\n\
          MOVSP 00 -16\n\
          RETN 00\n",
    ),
    (
        b"void main()\n\
          {\n\
          int n;\n\
          for (n = 1; n < 3; n++) PrintInteger(n);\n\
          }\n",
        b"JSR 00 @21\n\
          RETN 00\n\
          RSADD 03\n\
          CONST 03 1\n\
          CPDOWNSP 01 -8 4\n\
          MOVSP 00 -4\n\
          CPTOPSP 01 -4 4\n\
          CONST 03 3\n\
          LT 20\n\
          JZ 00 @104\n\
          CPTOPSP 01 -4 4\n\
          ACTION 00 4 1\n\
          CPTOPSP 01 -4 4\n\
          INCISP 03 -8\n\
          MOVSP 00 -4\n\
          JMP 00 @43\n\
          MOVSP 00 -4\n\
          RETN 00\n",
    ),
    (
        b"void F(int a, int b);\n\
          \n\
          void main() { F(1, 2); }\n\
          \n\
          void F(int a, int b)\n\
          {\n\
          int n = a - b;\n\
          PrintInteger(n);\n\
          }\n",
        b"JSR 00 @21\n\
          RETN 00\n\
          CONST 03 2\n\
          CONST 03 1\n\
          JSR 00 @41\n\
          RETN 00\n\
          CPTOPSP 01 -4 4\n\
          CPTOPSP 01 -12 4\n\
          SUB 20\n\
          CPTOPSP 01 -4 4\n\
          ACTION 00 4 1\n\
          MOVSP 00 -4\n\
          MOVSP 00 -8\n\
          RETN 00\n",
    ),
    (
        b"int g = 1;\n\
          int h = g + 1;\n\
          \n\
          void main() { PrintInteger(h); }\n",
        b"JSR 00 @21\n\
          RETN 00\n\
          CONST 03 1\n\
          CPTOPSP 01 -4 4\n\
          CONST 03 1\n\
          ADD 20\n\
          SAVEBP 00\n\
          JSR 00 @61\n\
          RESTOREBP 00\n\
          MOVSP 00 -8\n\
          RETN 00\n\
          CPTOPBP 01 -4 4\n\
          ACTION 00 4 1\n\
          RETN 00\n",
    ),
    (
        b"void main()\n\
          {\n\
          int n;\n\
          if (n == 0) PrintInteger(1);\n\
          }\n",
        b"JSR 00 @21\n\
          RETN 00\n\
          RSADD 03\n\
          CPTOPSP 01 -4 4\n\
          CONST 03 0\n\
          EQUAL 20\n\
          JZ 00 @56\n\
          CONST 03 1\n\
          ACTION 00 4 1\n\
          MOVSP 00 -4\n\
          RETN 00\n",
    ),
    (
        b"void main()\n\
          {\n\
          int n;\n\
          while (1)\n\
          {\n\
          int m = n++;\n\
          if (m == 0) continue;\n\
          break;\n\
          }\n\
          PrintInteger(n);\n\
          }\n",
        b"JSR 00 @21\n\
          RETN 00\n\
          RSADD 03\n\
          CONST 03 1\n\
          JZ 00 @107\n\
          CPTOPSP 01 -4 4\n\
          INCISP 03 -8\n\
          CPTOPSP 01 -4 4\n\
          CONST 03 0\n\
          EQUAL 20\n\
          JZ 00 @83\n\
          MOVSP 00 -4\n\
          JMP 00 @23\n\
          MOVSP 00 -4\n\
          JMP 00 @107\n\
          MOVSP 00 -4\n\
          JMP 00 @23\n\
          CPTOPSP 01 -4 4\n\
          ACTION 00 4 1\n\
          MOVSP 00 -4\n\
          RETN 00\n",
    ),
    (
        b"void main()\n\
          {\n\
          PrintInteger(7);\n\
          PrintString(\"a\");\n\
          PrintObject(OBJECT_SELF);\n\
          }\n",
        b"JSR 00 @21\n\
          RETN 00\n\
          CONST 03 7\n\
          ACTION 00 4 1\n\
          CONST 05 \"a\"\n\
          ACTION 00 1 1\n\
          CONST 06 0\n\
          ACTION 00 5 1\n\
          RETN 00\n",
    ),
    (
        b"void F() { PrintInteger(1); }\n\
          \n\
          void main() { F(); }\n",
        b"JSR 00 @34\n\
          RETN 00\n\
          CONST 03 1\n\
          ACTION 00 4 1\n\
          RETN 00\n\
          JSR 00 @21\n\
          RETN 00\n",
    ),
    (
        b"struct P { int x, y; };\n\
          \n\
          struct P Make(int n)\n\
          {\n\
          struct P p;\n\
          p.y = n;\n\
          return p;\n\
          }\n\
          \n\
          void main() { PrintInteger(Make(4).y); }\n",
        b"JSR 00 @85\n\
          RETN 00\n\
          RSADD 03\n\
          RSADD 03\n\
          CPTOPSP 01 -12 4\n\
          CPDOWNSP 01 -8 4\n\
          MOVSP 00 -4\n\
          CPTOPSP 01 -8 8\n\
          CPDOWNSP 01 -28 8\n\
          MOVSP 00 -20\n\
          RETN 00\n\
          MOVSP 00 -8\n\
          MOVSP 00 -4\n\
          RETN 00\n\
          RSADD 03\n\
          RSADD 03\n\
          CONST 03 4\n\
          JSR 00 @21\n\
          DESTRUCT 01 8 4 4\n\
          ACTION 00 4 1\n\
          RETN 00\n",
    ),
    (
        b"int g = 5;\n\
          \n\
          void main()\n\
          {\n\
          int n = 6;\n\
          PrintInteger(g);\n\
          PrintInteger(n);\n\
          PrintInteger(TRUE);\n\
          }\n",
        b"JSR 00 @21\n\
          RETN 00\n\
          CONST 03 5\n\
          SAVEBP 00\n\
          JSR 00 @45\n\
          RESTOREBP 00\n\
          MOVSP 00 -4\n\
          RETN 00\n\
          CONST 03 6\n\
          CPTOPBP 01 -4 4\n\
          ACTION 00 4 1\n\
          CPTOPSP 01 -4 4\n\
          ACTION 00 4 1\n\
          CONST 03 1\n\
          ACTION 00 4 1\n\
          MOVSP 00 -4\n\
          RETN 00\n",
    ),
    (
        b"void main()\n\
          {\n\
          int n = 3;\n\
          PrintInteger(n || n++);\n\
          PrintInteger(n);\n\
          }\n",
        b"JSR 00 @21\n\
          RETN 00\n\
          CONST 03 3\n\
          CPTOPSP 01 -4 4\n\
          CPTOPSP 01 -4 4\n\
          JZ 00 @63\n\
          CONST 03 1\n\
          LOGOR 20\n\
          JMP 00 @79\n\
          CPTOPSP 01 -8 4\n\
          INCISP 03 -12\n\
          LOGOR 20\n\
          ACTION 00 4 1\n\
          CPTOPSP 01 -4 4\n\
          ACTION 00 4 1\n\
          MOVSP 00 -4\n\
          RETN 00\n",
    ),
    (
        b"int f(int a)\n\
          {\n\
          int n = a + 1;\n\
          return n;\n\
          }\n\
          \n\
          void main() { PrintInteger(f(2)); }\n",
        b"JSR 00 @75\n\
          RETN 00\n\
          CPTOPSP 01 -4 4\n\
          CONST 03 1\n\
          ADD 20\n\
          CPTOPSP 01 -4 4\n\
          CPDOWNSP 01 -16 4\n\
          MOVSP 00 -12\n\
          RETN 00\n\
          MOVSP 00 -4\n\
          MOVSP 00 -4\n\
          RETN 00\n\
          RSADD 03\n\
          CONST 03 2\n\
          JSR 00 @21\n\
          ACTION 00 4 1\n\
          RETN 00\n",
    ),
    (
        b"struct P { int x, y; };\n\
          struct Q { struct P p; string s; };\n\
          \n\
          void main()\n\
          {\n\
          struct Q q;\n\
          q.p.y = 5;\n\
          struct P p = q.p;\n\
          PrintInteger(p.y);\n\
          }\n",
        b"JSR 00 @21\n\
          RETN 00\n\
          RSADD 03\n\
          RSADD 03\n\
          RSADD 05\n\
          CONST 03 5\n\
          CPDOWNSP 01 -12 4\n\
          MOVSP 00 -4\n\
          CPTOPSP 01 -12 8\n\
          CPTOPSP 01 -4 4\n\
          ACTION 00 4 1\n\
          MOVSP 00 -20\n\
          RETN 00\n",
    ),
    (
        b"void main()\n\
          {\n\
          switch (2)\n\
          {\n\
          case 1: PrintInteger(1);\n\
          case 2: PrintInteger(2);\n\
          default: PrintInteger(3);\n\
          }\n\
          }\n",
        b"JSR 00 @21\n\
          RETN 00\n\
          CONST 03 2\n\
          CPTOPSP 01 -4 4\n\
          CONST 03 1\n\
          EQUAL 20\n\
          JNZ 00 @77\n\
          CPTOPSP 01 -4 4\n\
          CONST 03 2\n\
          EQUAL 20\n\
          JNZ 00 @88\n\
          JMP 00 @99\n\
          CONST 03 1\n\
          ACTION 00 4 1\n\
          CONST 03 2\n\
          ACTION 00 4 1\n\
          CONST 03 3\n\
          ACTION 00 4 1\n\
          MOVSP 00 -4\n\
          RETN 00\n",
    ),
    (
        b"void main()\n\
          {\n\
          int n;\n\
          while (n < 2) n++;\n\
          PrintInteger(n);\n\
          }\n",
        b"JSR 00 @21\n\
          RETN 00\n\
          RSADD 03\n\
          CPTOPSP 01 -4 4\n\
          CONST 03 2\n\
          LT 20\n\
          JZ 00 @71\n\
          CPTOPSP 01 -4 4\n\
          INCISP 03 -8\n\
          MOVSP 00 -4\n\
          JMP 00 @23\n\
          CPTOPSP 01 -4 4\n\
          ACTION 00 4 1\n\
          MOVSP 00 -4\n\
          RETN 00\n",
    ),
];

#[test]
fn language(rt: HostRuntime) -> Result<(), Fail> {
    assert_eq!(rt; first_other(rt.alloc(), LANGUAGE)?, LANGUAGE.len());
    Ok(())
}
