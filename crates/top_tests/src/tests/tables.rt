//! Files, and how a report on each is answered.

/// Files of one procedure that returns at once, and the report.
pub const REPORTED: [(&str, &str); 16] = [
    (
        "int second(int a, int b) { return b; }",
        "ok\nsecond a.c 1\n pre emp\n post emp ret=b\ntotal 1 1 0\n",
    ),
    (
        "int first(int a, int b) { return a; }",
        "ok\nfirst a.c 1\n pre emp\n post emp ret=a\ntotal 1 1 0\n",
    ),
    (
        "int most(int a) { return 2147483647; }",
        "ok\nmost a.c 1\n pre emp\n post emp ret=2147483647\ntotal 1 1 0\n",
    ),
    (
        "int zero(void) { return 0; }",
        "ok\nzero a.c 1\n pre emp\n post emp ret=0\ntotal 1 1 0\n",
    ),
    (
        "int ten() { return 10; }",
        "ok\nten a.c 1\n pre emp\n post emp ret=10\ntotal 1 1 0\n",
    ),
    (
        "int\tf\n(\tint a\r\n,\tint\nb)\x0c{\treturn\nb\n;}\n",
        "ok\nf a.c 1\n pre emp\n post emp ret=b\ntotal 1 1 0\n",
    ),
    (
        "\n\n  int third(int x){return x;}",
        "ok\nthird a.c 3\n pre emp\n post emp ret=x\ntotal 1 1 0\n",
    ),
    (
        "int e(int a,int b,int c,int d,int f,int g,int h,int i){return i;}",
        "ok\ne a.c 1\n pre emp\n post emp ret=i\ntotal 1 1 0\n",
    ),
    (
        "int f(int a) { return (a); }",
        "ok\nf a.c 1\n pre emp\n post emp ret=a\ntotal 1 1 0\n",
    ),
    (
        "/* one */ int f(int a) { return a; } // two",
        "ok\nf a.c 1\n pre emp\n post emp ret=a\ntotal 1 1 0\n",
    ),
    (
        "int f(int a) { ; { } return a; a = 1; }",
        "ok\nf a.c 1\n pre emp\n post emp ret=a\ntotal 1 1 0\n",
    ),
    (
        "struct s { int a; }; struct s *g(struct s *p) { return p; }",
        "ok\ng a.c 1\n pre emp\n post emp ret=p\ntotal 1 1 0\n",
    ),
    (
        "#include <stdlib.h>\ntypedef struct s { int a; } s;\ns *n(void) { return NULL; }",
        "ok\nn a.c 3\n pre emp\n post emp ret=0\ntotal 1 1 0\n",
    ),
    (
        "int g(int a); int f(int a) { return a; }",
        "ok\nf a.c 1\n pre emp\n post emp ret=a\ntotal 1 1 0\n",
    ),
    (
        "void h(int a) { }",
        "ok\nh a.c 1\n pre emp\n post emp\ntotal 1 1 0\n",
    ),
    (
        "void h(void) { return; }",
        "ok\nh a.c 1\n pre emp\n post emp\ntotal 1 1 0\n",
    ),
];

/// Files of no procedure, and of several, and the report.
pub const REPORTED_TOGETHER: [(&str, &str); 5] = [
    ("", "ok\ntotal 0 0 0\n"),
    ("struct s { int a; };\n", "ok\ntotal 0 0 0\n"),
    (
        "int f(int a) { return a; } int g(int a) { return 7; }",
        "ok\nf a.c 1\n pre emp\n post emp ret=a\ng a.c 1\n pre emp\n post emp ret=7\ntotal 2 2 0\n",
    ),
    (
        "// one\n\nint f(int a) { return a; }\n\n/* two\n lines */ void g(void) {\n}\n",
        "ok\nf a.c 3\n pre emp\n post emp ret=a\ng a.c 6\n pre emp\n post emp\ntotal 2 2 0\n",
    ),
    (
        "void b(void) { }\nint\na(int x)\n{\n  return x;\n}\nvoid c(int y) { return; }\n",
        "ok\nb a.c 1\n pre emp\n post emp\na a.c 2\n pre emp\n post emp ret=x\nc a.c 7\n pre emp\n post emp\ntotal 3 3 0\n",
    ),
];

/// Files of a few commands, and the report.
pub const ANALYSED: [(&str, &str); 9] = [
    (
        "int f(int a) { return a + 1; }",
        "ok\nf a.c 1\n pre emp\n post emp ret=?1\ntotal 1 1 0\n",
    ),
    (
        "\n\nint f(int a) { return -a; }",
        "ok\nf a.c 3\n pre emp\n post emp ret=?1\ntotal 1 1 0\n",
    ),
    (
        "int f(int a) { return -1; }",
        "ok\nf a.c 1\n pre emp\n post emp ret=-1\ntotal 1 1 0\n",
    ),
    (
        "int f(int a) { return !a; }",
        "ok\nf a.c 1\n pre emp\n post a!=0 ret=0\n post a=0 ret=1\ntotal 1 1 0\n",
    ),
    (
        "int f(int a) { if (a) return 1; return 0; }",
        "ok\nf a.c 1\n pre emp\n post a!=0 ret=1\n post a=0 ret=0\ntotal 1 1 0\n",
    ),
    (
        "int f(void) { }",
        "ok\nf a.c 1\n pre emp\n post emp ret=?1\ntotal 1 1 0\n",
    ),
    (
        "int f(void) { int b; return b; }",
        "ok\nf a.c 1\n pre emp\n post emp ret=?1\ntotal 1 1 0\n",
    ),
    (
        "struct s { int v; }; int g(struct s *p) { return p->v; }",
        "ok\ng a.c 1\n pre p|->s(v:$1)\n post p|->s(v:$1) ret=$1\ntotal 1 1 0\n",
    ),
    (
        "int f(int a) { return a; } int g(int a) { return f(a); }",
        "ok\nf a.c 1\n pre emp\n post emp ret=a\ng a.c 1\n pre emp\n post emp ret=a\ntotal 2 2 0\n",
    ),
];

/// Files on one line that are refused, and the code.
pub const REFUSED: [(&str, u16); 20] = [
    ("int f(void) { return 'a'; }", 101),
    ("/* x", 102),
    ("int f(void) { return 2147483648; }", 103),
    ("int f(void) { return 01; }", 103),
    ("#define A 1", 104),
    ("hello", 111),
    ("int f(void) { return 1 }", 111),
    ("int while(int a) { return a; }", 111),
    ("int f(void) { return y; }", 121),
    ("void f(void) { return 1; }", 122),
    ("int f(void) { return 1; } int f(void) { return 2; }", 123),
    ("int f(int a, int a) { return a; }", 123),
    (
        "int f(int a) { return a; } int g(void) { return f(); }",
        124,
    ),
    ("struct s { int a; }; struct s { int b; };", 125),
    ("int f(void) { int a = 1 + f(); return a; }", 126),
    // Of two, the first by stage.
    ("int f(void) { return y; } /* x", 102),
    ("int f(void) { return y; } int", 111),
    (
        "int f(int a,int b,int c,int d,int e,int g,int h,int i,int j){return k;}",
        121,
    ),
    (
        "int f(int a,int b,int c,int d,int e,int g,int h,int i,int j){return a;}",
        133,
    ),
    (
        "int f(int a) { return -a; } int g(int a,int b,int c,int d,int e,int h,int i,int j,int k){return a;}",
        133,
    ),
];

/// Files that are refused, the line, and the code.
pub const REFUSED_BELOW: [(&str, u32, u16); 11] = [
    ("int f(void) {\n  return 'a';\n}\n", 2, 101),
    ("\n\n/* x\n\n", 3, 102),
    ("int f(int a) {\n  return a\n}\n", 3, 111),
    ("int f(void) {\n  return\n  y;\n}\n", 3, 121),
    (
        "struct s { int a; };\nvoid f(struct s *p) {\n  int b;\n  b = p;\n}",
        4,
        122,
    ),
    (
        "int f(void) { return 1; }\nint\nf(void) { return 2; }\n",
        3,
        123,
    ),
    (
        "int g(int a);\nint f(void) {\n  g(1,\n    2);\n  return 1;\n}",
        3,
        124,
    ),
    ("struct s { int a; };\nstruct s { int b; };", 2, 125),
    ("int f(int a) {\n  a = 1;\n  a = f(1) + 1;\n}", 3, 126),
    (
        "int k(int a) { return a; }\nint\nf(int a,int b,int c,int d,int e,int g,int h,int i,\nint j){return a;}",
        2,
        133,
    ),
    (
        "int k(int a) { return a; }\ntypedef\nstruct s { int a,b,c,d,e,f,g,h,i,j,k,l,m,n,o,p,\nq; } t;",
        2,
        134,
    ),
];

/// A text in pieces, and how often each stands there.
pub type Pieces<'a> = &'a [(&'a str, usize)];

/// Files that are too long, and the code.
pub const TOO_LONG: [(Pieces, u16); 5] = [
    (&[("int ", 1), ("a", 65), ("(void) { return 1; }", 1)], 105),
    (
        &[
            ("int f(void) { return ", 1),
            ("(", 70),
            ("1", 1),
            (")", 70),
            ("; }", 1),
        ],
        112,
    ),
    (
        &[("int f(int a) { ", 1), ("a = 1; ", 520), ("return a; }", 1)],
        131,
    ),
    (&[("void f(int a) { ", 1), ("a = 1; ", 512), ("}", 1)], 131),
    (
        &[("int f(int a) { return a", 1), (" + a", 17), ("; }", 1)],
        132,
    ),
];

/// Files as long as they may be, and the report.
pub const LONGEST: [(Pieces, &str); 2] = [
    // With the node that closes the body, 512 nodes.
    (
        &[("void f(int a) { ", 1), ("a = 1; ", 511), ("}", 1)],
        "ok\nf a.c 1\n pre emp\n post emp\ntotal 1 1 0\n",
    ),
    // Each addition takes a temporary.
    (
        &[("int f(int a) { return a", 1), (" + a", 16), ("; }", 1)],
        "ok\nf a.c 1\n pre emp\n post emp ret=?1\ntotal 1 1 0\n",
    ),
];

/// As many variables as a procedure may have.
const LOCALS: &str =
    "int b; int c; int d; int e; int f; int g; int h; int i; int j; int k; int l; int m; int n; int o; int p; int q; \
    int r; int s; int t; int u; int v; int w; int x; int y; int z; int A; int B; int C; int D; int E; int F; int G; ";

/// As many fields as a structure may have.
const FIELDS: &str =
    "int a; int b; int c; int d; int e; int f; int g; int h; int i; int j; int k; int l; int m; int n; int o; int p; ";

/// Files with as many variables or fields as there may be, and the report.
pub const LARGEST: [(Pieces, &str); 2] = [
    (
        &[("void f(void) { ", 1), (LOCALS, 1), ("}", 1)],
        "ok\nf a.c 1\n pre emp\n post emp\ntotal 1 1 0\n",
    ),
    (
        &[("struct s { ", 1), (FIELDS, 1), ("};", 1)],
        "ok\ntotal 0 0 0\n",
    ),
];

/// Files with one more, and the code.
pub const TOO_LARGE: [(Pieces, u16); 2] = [
    (&[("void f(void) { int a; ", 1), (LOCALS, 1), ("}", 1)], 132),
    (&[("struct s { ", 1), (FIELDS, 1), ("int q; };", 1)], 134),
];
