//! Small scripts whose answers follow from the language alone, worked out by hand: each operator at
//! its edges, what is evaluated and in which order, jumps, structs, defaults, recursion, captures.

/// Scripts and the lines that `run - p` prints before the end, where the play is done.
pub const SCRIPTS: &[(&str, &str)] = &[
    // Division and remainder cut towards zero.
    (
        "void main() { PrintInteger(7 / 2); PrintInteger(-7 / 2); PrintInteger(7 / -2); \
            PrintInteger(-7 % 2); PrintInteger(7 % -2); PrintInteger(-7 % -2); }",
        "0 #0 print 3\n0 #0 print -3\n0 #0 print -3\n0 #0 print -1\n0 #0 print 1\n\
            0 #0 print -1\n",
    ),
    // The least int.
    (
        "void main() { int n = -2147483647 - 1; PrintInteger(n / -1); PrintInteger(n % -1); \
            PrintInteger(-n); PrintInteger(n - 1); PrintInteger(n * -1); }",
        "0 #0 print -2147483648\n0 #0 print 0\n0 #0 print -2147483648\n\
            0 #0 print 2147483647\n0 #0 print -2147483648\n",
    ),
    // A count of a shift goes by its last five bits.
    (
        "void main() { PrintInteger(1 << 31); PrintInteger(1 << 33); PrintInteger(1 << -1); \
            PrintInteger(-1 >> 33); PrintInteger(-8 >> 1); PrintInteger(-1 >>> 31); \
            PrintInteger(-1 >>> 32); }",
        "0 #0 print -2147483648\n0 #0 print 2\n0 #0 print -2147483648\n0 #0 print -1\n\
            0 #0 print -4\n0 #0 print 1\n0 #0 print -1\n",
    ),
    // Bits.
    (
        "void main() { PrintInteger(12 & 10); PrintInteger(12 | 10); PrintInteger(12 ^ 10); \
            PrintInteger(~0); PrintInteger(~5); }",
        "0 #0 print 8\n0 #0 print 14\n0 #0 print 6\n0 #0 print -1\n0 #0 print -6\n",
    ),
    // Comparisons.
    (
        "void main() { PrintInteger(2 < 3); PrintInteger(3 <= 3); PrintInteger(-4 > 4); \
            PrintInteger(4 >= 4); PrintInteger(4 == 5); PrintInteger(4 != 5); }",
        "0 #0 print 1\n0 #0 print 1\n0 #0 print 0\n0 #0 print 1\n0 #0 print 0\n\
            0 #0 print 1\n",
    ),
    // Any number but 0 is true.
    (
        "void main() { PrintInteger(!0); PrintInteger(!7); PrintInteger(2 && 4); PrintInteger(2 \
            && 0); PrintInteger(0 || 5); PrintInteger(0 || 0); }",
        "0 #0 print 1\n0 #0 print 0\n0 #0 print 1\n0 #0 print 0\n0 #0 print 1\n\
            0 #0 print 0\n",
    ),
    // A side that isn't needed isn't evaluated.
    (
        "int f(int n) { PrintInteger(n); return n; } void main() { PrintInteger(f(0) && f(1)); \
            PrintInteger(f(2) && f(3)); PrintInteger(f(4) || f(5)); PrintInteger(f(0) || f(6)); }",
        "0 #0 print 0\n0 #0 print 0\n0 #0 print 2\n0 #0 print 3\n0 #0 print 1\n\
            0 #0 print 4\n0 #0 print 1\n0 #0 print 0\n0 #0 print 6\n0 #0 print 1\n",
    ),
    // Precedence.
    (
        "void main() { PrintInteger(1 + 2 * 3 - 4 / 2); PrintInteger(1 << 2 + 1); PrintInteger(5 \
            & 3 == 1); PrintInteger(1 | 2 ^ 3 & 1); PrintInteger(-2 - -3); PrintInteger(10 - 4 - \
            3); }",
        "0 #0 print 5\n0 #0 print 8\n0 #0 print 0\n0 #0 print 3\n0 #0 print 1\n\
            0 #0 print 3\n",
    ),
    // Fall-through, and `continue` through a `switch`.
    (
        "void main() { int i; for (i = 0; i < 5; i++) { switch (i) { case 1: continue; case 2: \
            PrintInteger(20); case 3: PrintInteger(30); break; default: PrintInteger(i); } \
            PrintInteger(100 + i); } }",
        "0 #0 print 0\n0 #0 print 100\n0 #0 print 20\n0 #0 print 30\n0 #0 print 102\n\
            0 #0 print 30\n0 #0 print 103\n0 #0 print 4\n0 #0 print 104\n",
    ),
    // `continue` in `do` and `while`.
    (
        "void main() { int i; do { i++; if (i == 2) continue; if (i == 4) break; \
            PrintInteger(i); } while (i < 9); PrintInteger(i); while (i > 0) { i = i - 3; if (i \
            == 1) continue; PrintInteger(i); } }",
        "0 #0 print 1\n0 #0 print 3\n0 #0 print 4\n0 #0 print -2\n",
    ),
    // Structs in structs, copied and compared.
    (
        "struct A { int x; string s; }; struct B { struct A a; int y; struct A b; }; void main() \
            { struct B p; struct B q; p.a.x = 1; p.b.s = \"z\"; p.y = 2; q = p; q.a.x = 5; \
            PrintInteger(p.a.x); PrintInteger(q.a.x); PrintInteger(q.y); PrintString(q.b.s + \
            p.a.s + \".\"); PrintInteger(p == q); q.a.x = 1; PrintInteger(p == q); PrintInteger(p \
            != q); PrintInteger(p.a == p.b); }",
        "0 #0 print 1\n0 #0 print 5\n0 #0 print 2\n0 #0 print z.\n0 #0 print 0\n\
            0 #0 print 1\n0 #0 print 0\n0 #0 print 0\n",
    ),
    // Structs in and out of a function.
    (
        "struct P { int x; int y; }; struct P Swap(struct P p) { int t = p.x; p.x = p.y; p.y = \
            t; return p; } void main() { struct P p; p.x = 3; p.y = 4; struct P q = Swap(p); \
            PrintInteger(q.x); PrintInteger(q.y); PrintInteger(p.x); \
            PrintInteger(Swap(Swap(p)).y); }",
        "0 #0 print 4\n0 #0 print 3\n0 #0 print 3\n0 #0 print 4\n",
    ),
    // Defaults.
    (
        "const int N = 4; int Sum(int a, int b = N, int c = -1) { return a * 100 + b * 10 + c; } \
            void main() { PrintInteger(Sum(1)); PrintInteger(Sum(1, 2)); PrintInteger(Sum(1, 2, \
            3)); }",
        "0 #0 print 139\n0 #0 print 119\n0 #0 print 123\n",
    ),
    // Functions that call each other.
    (
        "int IsOdd(int n); int IsEven(int n) { if (n == 0) return 1; return IsOdd(n - 1); } int \
            IsOdd(int n) { if (n == 0) return 0; return IsEven(n - 1); } int Fact(int n) { if (n \
            < 2) return 1; return n * Fact(n - 1); } void main() { PrintInteger(Fact(10)); \
            PrintInteger(IsEven(7)); PrintInteger(IsOdd(7)); }",
        "0 #0 print 3628800\n0 #0 print 0\n0 #0 print 1\n",
    ),
    // A loop's captures.
    (
        "void main() { int i; for (i = 0; i < 3; i++) DelayCommand(10 * (3 - i), \
            PrintInteger(i)); PrintInteger(i); }",
        "0 #0 print 3\n10 #0 print 2\n20 #0 print 1\n30 #0 print 0\n",
    ),
    // A captured parameter.
    (
        "void Later(int n) { if (n == 0) return; PrintInteger(n); DelayCommand(5, Later(n - 1)); \
            } void main() { DelayCommand(1, Later(3)); }",
        "1 #0 print 3\n6 #0 print 2\n11 #0 print 1\n",
    ),
    // Assignments with an operator; the left side is read first.
    (
        "int g = 10; int Twice() { g += 1; return g * 2; } void main() { g += 5; g -= 3; g *= 4; \
            g /= 5; g %= 7; PrintInteger(g); g = 3; g += Twice(); PrintInteger(g); }",
        "0 #0 print 2\n0 #0 print 11\n",
    ),
    // Steps before and after.
    (
        "void main() { int i = 5; PrintInteger(i++); PrintInteger(i); PrintInteger(++i); \
            PrintInteger(i--); PrintInteger(--i); }",
        "0 #0 print 5\n0 #0 print 6\n0 #0 print 7\n0 #0 print 7\n0 #0 print 5\n",
    ),
    // Strings.
    (
        "void main() { PrintInteger(\"a\" + \"b\" == \"ab\"); PrintInteger(\"\" == \"\"); \
            PrintInteger(\"a\" != \"b\"); PrintString(\"ab\" + IntToString(-5)); string s; s += \
            \"x\"; s += \"y\"; PrintString(s); }",
        "0 #0 print 1\n0 #0 print 1\n0 #0 print 1\n0 #0 print ab-5\n0 #0 print xy\n",
    ),
    // Arguments are evaluated from the last on, operands from the left one on.
    (
        "int f(int n) { PrintInteger(n); return n; } int Sub(int a, int b) { return a - b; } \
            void main() { PrintInteger(Sub(f(1), f(2))); PrintInteger(f(5) - f(3)); }",
        "0 #0 print 2\n0 #0 print 1\n0 #0 print -1\n0 #0 print 5\n0 #0 print 3\n\
            0 #0 print 2\n",
    ),
    // What hides what.
    (
        "void main() { int n = 1; { int n = 2; PrintInteger(n); n = 3; } PrintInteger(n); if (n) \
            { int m = n + 1; PrintInteger(m); } }",
        "0 #0 print 2\n0 #0 print 1\n0 #0 print 2\n",
    ),
    // `switch` in `switch`, a constant, no case that fits.
    (
        "const int K = -3; int g; void main() { switch (-3) { case 1: PrintInteger(1); case K: \
            PrintInteger(2); switch (5) { case 5: PrintInteger(6); break; } PrintInteger(7); \
            break; case 9: PrintInteger(8); } switch (4) { case 1: PrintInteger(9); } \
            PrintInteger(10); }",
        "0 #0 print 2\n0 #0 print 6\n0 #0 print 7\n0 #0 print 10\n",
    ),
    // Returns out of loops.
    (
        "int Find(int n) { int i; while (TRUE) { i++; if (i * i >= n) { do { return i; } while \
            (0); } } return -1; } void Quiet(int n) { if (n) return; PrintInteger(n); } void \
            main() { PrintInteger(Find(50)); Quiet(1); Quiet(0); }",
        "0 #0 print 8\n0 #0 print 0\n",
    ),
    // Assignments as values.
    (
        "int g; void main() { int a; int b; a = b = g = 3; PrintInteger(a + b + g); a = (b = 5) \
            + 1; PrintInteger(a * 10 + b); a <<= 1; PrintInteger(a); a >>= 2; PrintInteger(a); a \
            |= 8; a &= 10; a ^= 1; PrintInteger(a); a >>>= 1; PrintInteger(a); }",
        "0 #0 print 9\n0 #0 print 65\n0 #0 print 12\n0 #0 print 3\n0 #0 print 11\n\
            0 #0 print 5\n",
    ),
    // Objects and hexadecimal numbers.
    (
        "void main() { PrintInteger(OBJECT_SELF == OBJECT_INVALID); PrintInteger(0x10 + 0xFf); \
            object o = GetObjectByTag(\"none\"); PrintObject(o); PrintInteger(o == \
            OBJECT_INVALID); }",
        "0 #0 print 1\n0 #0 print 271\n0 #0 print #0\n0 #0 print 1\n",
    ),
    // A division by zero ends an entry; what it deferred runs.
    (
        "int f(int n) { return n - 1; } void main() { int n = 2; DelayCommand(1, PrintInteger(10 \
            / f(n))); n = 1; DelayCommand(2, PrintInteger(7)); PrintInteger(10 % f(n)); }",
        "0 #0 fault divide\n1 #0 print 10\n2 #0 print 7\n",
    ),
    // Captured structs.
    (
        "struct P { int x; int y; }; void Show(struct P p) { PrintInteger(p.x * 10 + p.y); } \
            void main() { struct P p; p.x = 1; DelayCommand(3, Show(p)); p.y = 2; DelayCommand(4, \
            Show(p)); p.x = 9; Show(p); }",
        "0 #0 print 92\n3 #0 print 10\n4 #0 print 12\n",
    ),
    // Globals captured, and changed by a deferred action.
    (
        "int g = 1; void Up() { g++; PrintInteger(g); } void main() { DelayCommand(1, Up()); g = \
            5; DelayCommand(1, Up()); g = 7; Up(); }",
        "0 #0 print 8\n1 #0 print 2\n1 #0 print 6\n",
    ),
];
