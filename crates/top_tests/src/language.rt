//! Scripts of docs/LANGUAGE.md and what they print, by `docs/language/make`.

/// Scripts and all that `run - p` prints, where the play is done.
pub const PLAYS: &[(&str, &str)] = &[
    (
        "void main()\n\
          {\n\
          int n = 1;\n\
          DelayCommand(1000, PrintInteger(n));\n\
          n = 2;\n\
          PrintInteger(n);\n\
          }\n",
        "0 #0 print 2\n\
          1000 #0 print 1\n\
          end done clock 1000 entries 2 instructions 17\n",
    ),
    (
        "void main()\n\
          {\n\
          int n;\n\
          PrintInteger(n && n++);\n\
          PrintInteger(n);\n\
          }\n",
        "0 #0 print 0\n\
          0 #0 print 0\n\
          end done clock 0 entries 1 instructions 11\n",
    ),
    (
        "void main()\n\
          {\n\
          int n = 2;\n\
          n += n = 5;\n\
          PrintInteger(n);\n\
          }\n",
        "0 #0 print 7\n\
          end done clock 0 entries 1 instructions 13\n",
    ),
    (
        "int g;\n\
          \n\
          void main()\n\
          {\n\
          int n;\n\
          g = n = 4;\n\
          PrintInteger(g + n);\n\
          }\n",
        "0 #0 print 8\n\
          end done clock 0 entries 1 instructions 19\n",
    ),
    (
        "void main()\n\
          {\n\
          PrintInteger(-2);\n\
          PrintInteger(~2);\n\
          PrintInteger(!2);\n\
          }\n",
        "0 #0 print -2\n\
          0 #0 print -3\n\
          0 #0 print 0\n\
          end done clock 0 entries 1 instructions 12\n",
    ),
    (
        "void main()\n\
          {\n\
          PrintInteger(7 - 2 * 3);\n\
          PrintString(\"a\" + \"b\");\n\
          PrintInteger(1 / 0);\n\
          PrintInteger(8);\n\
          }\n",
        "0 #0 print 1\n\
          0 #0 print ab\n\
          0 #0 fault divide\n\
          end done clock 0 entries 1 instructions 14\n",
    ),
    (
        "void main()\n\
          {\n\
          int n = 1;\n\
          { int n = 2; PrintInteger(n); }\n\
          PrintInteger(n);\n\
          }\n",
        "0 #0 print 2\n\
          0 #0 print 1\n\
          end done clock 0 entries 1 instructions 11\n",
    ),
    (
        "int f(int a, int b = 3) { return a - b; }\n\
          \n\
          void main()\n\
          {\n\
          int n = 1;\n\
          PrintInteger(f(n, n = 5));\n\
          PrintInteger(f(n));\n\
          }\n",
        "0 #0 print 0\n\
          0 #0 print 2\n\
          end done clock 0 entries 1 instructions 28\n",
    ),
    (
        "int StartingConditional()\n\
          {\n\
          PrintInteger(1);\n\
          return FALSE;\n\
          }\n",
        "0 #0 print 1\n\
          end done clock 0 entries 1 instructions 10\n",
    ),
    (
        "const int K = -3;\n\
          const string S = \"a\";\n\
          \n\
          void main()\n\
          {\n\
          PrintInteger(K);\n\
          PrintString(S);\n\
          }\n",
        "0 #0 print -3\n\
          0 #0 print a\n\
          end done clock 0 entries 1 instructions 7\n",
    ),
    (
        "void main()\n\
          {\n\
          int n = 1;\n\
          PrintInteger(n++);\n\
          PrintInteger(--n);\n\
          }\n",
        "0 #0 print 1\n\
          0 #0 print 1\n\
          end done clock 0 entries 1 instructions 11\n",
    ),
    (
        "struct P { int n; string s; };\n\
          \n\
          void main()\n\
          {\n\
          int a = 4, b;\n\
          struct P p;\n\
          PrintInteger(a + b + p.n);\n\
          }\n",
        "0 #0 print 4\n\
          end done clock 0 entries 1 instructions 14\n",
    ),
    (
        "void F(int a, int b = 7);\n\
          \n\
          void main() { F(1); }\n\
          \n\
          void F(int a, int b = 9) { PrintInteger(b); }\n",
        "0 #0 print 7\n\
          end done clock 0 entries 1 instructions 10\n",
    ),
    (
        "void main()\n\
          {\n\
          int n = 5;\n\
          do n++; while (n < 2);\n\
          PrintInteger(n);\n\
          }\n",
        "0 #0 print 6\n\
          end done clock 0 entries 1 instructions 14\n",
    ),
    (
        "void main()\n\
          {\n\
          1 + 2;\n\
          abs(-6);\n\
          PrintInteger(3);\n\
          ;\n\
          }\n",
        "0 #0 print 3\n\
          end done clock 0 entries 1 instructions 13\n",
    ),
    (
        "void main()\n\
          {\n\
          int n;\n\
          if (n) PrintInteger(1);\n\
          else PrintInteger(2);\n\
          }\n",
        "0 #0 print 2\n\
          end done clock 0 entries 1 instructions 9\n",
    ),
    (
        "void main()\n\
          {\n\
          SpeakString(\"hello\");\n\
          PrintInteger(abs(-6));\n\
          ExecuteScript(\"other\");\n\
          }\n",
        "0 #0 speak hello\n\
          0 #0 print 6\n\
          0 #0 noscript other\n\
          end done clock 0 entries 1 instructions 13\n",
    ),
    (
        "struct P { int x, y; };\n\
          \n\
          void main()\n\
          {\n\
          struct P p, q;\n\
          q.y = 1;\n\
          PrintInteger(p == q);\n\
          PrintInteger(\"a\" != \"b\");\n\
          }\n",
        "0 #0 print 0\n\
          0 #0 print 1\n\
          end done clock 0 entries 1 instructions 19\n",
    ),
    (
        "void main()\n\
          {\n\
          int n;\n\
          for (n = 1; n < 3; n++) PrintInteger(n);\n\
          }\n",
        "0 #0 print 1\n\
          0 #0 print 2\n\
          end done clock 0 entries 1 instructions 32\n",
    ),
    (
        "void F(int a, int b);\n\
          \n\
          void main() { F(1, 2); }\n\
          \n\
          void F(int a, int b)\n\
          {\n\
          int n = a - b;\n\
          PrintInteger(n);\n\
          }\n",
        "0 #0 print -1\n\
          end done clock 0 entries 1 instructions 14\n",
    ),
    (
        "int g = 1;\n\
          int h = g + 1;\n\
          \n\
          void main() { PrintInteger(h); }\n",
        "0 #0 print 2\n\
          end done clock 0 entries 1 instructions 14\n",
    ),
    (
        "void main()\n\
          {\n\
          int n;\n\
          if (n == 0) PrintInteger(1);\n\
          }\n",
        "0 #0 print 1\n\
          end done clock 0 entries 1 instructions 11\n",
    ),
    (
        "void main()\n\
          {\n\
          int n;\n\
          while (1)\n\
          {\n\
          int m = n++;\n\
          if (m == 0) continue;\n\
          break;\n\
          }\n\
          PrintInteger(n);\n\
          }\n",
        "0 #0 print 2\n\
          end done clock 0 entries 1 instructions 27\n",
    ),
    (
        "void main()\n\
          {\n\
          PrintInteger(7);\n\
          PrintString(\"a\");\n\
          PrintObject(OBJECT_SELF);\n\
          }\n",
        "0 #0 print 7\n\
          0 #0 print a\n\
          0 #0 print #0\n\
          end done clock 0 entries 1 instructions 9\n",
    ),
    (
        "void F() { PrintInteger(1); }\n\
          \n\
          void main() { F(); }\n",
        "0 #0 print 1\n\
          end done clock 0 entries 1 instructions 7\n",
    ),
    (
        "struct P { int x, y; };\n\
          \n\
          struct P Make(int n)\n\
          {\n\
          struct P p;\n\
          p.y = n;\n\
          return p;\n\
          }\n\
          \n\
          void main() { PrintInteger(Make(4).y); }\n",
        "0 #0 print 4\n\
          end done clock 0 entries 1 instructions 18\n",
    ),
    (
        "int g = 5;\n\
          \n\
          void main()\n\
          {\n\
          int n = 6;\n\
          PrintInteger(g);\n\
          PrintInteger(n);\n\
          PrintInteger(TRUE);\n\
          }\n",
        "0 #0 print 5\n\
          0 #0 print 6\n\
          0 #0 print 1\n\
          end done clock 0 entries 1 instructions 17\n",
    ),
    (
        "void main()\n\
          {\n\
          int n = 3;\n\
          PrintInteger(n || n++);\n\
          PrintInteger(n);\n\
          }\n",
        "0 #0 print 1\n\
          0 #0 print 3\n\
          end done clock 0 entries 1 instructions 14\n",
    ),
    (
        "int f(int a)\n\
          {\n\
          int n = a + 1;\n\
          return n;\n\
          }\n\
          \n\
          void main() { PrintInteger(f(2)); }\n",
        "0 #0 print 3\n\
          end done clock 0 entries 1 instructions 14\n",
    ),
    (
        "struct P { int x, y; };\n\
          struct Q { struct P p; string s; };\n\
          \n\
          void main()\n\
          {\n\
          struct Q q;\n\
          q.p.y = 5;\n\
          struct P p = q.p;\n\
          PrintInteger(p.y);\n\
          }\n",
        "0 #0 print 5\n\
          end done clock 0 entries 1 instructions 13\n",
    ),
    (
        "void main()\n\
          {\n\
          switch (2)\n\
          {\n\
          case 1: PrintInteger(1);\n\
          case 2: PrintInteger(2);\n\
          default: PrintInteger(3);\n\
          }\n\
          }\n",
        "0 #0 print 2\n\
          0 #0 print 3\n\
          end done clock 0 entries 1 instructions 17\n",
    ),
    (
        "void main()\n\
          {\n\
          int n;\n\
          while (n < 2) n++;\n\
          PrintInteger(n);\n\
          }\n",
        "0 #0 print 2\n\
          end done clock 0 entries 1 instructions 27\n",
    ),
];
