//! Sessions of several commands, each with its replies and the status that goes with them; and lines that are no command.

use heapan_top::Status;

/// Streams, their replies, and how the call ends.
pub const SESSIONS: [(&str, &str, Status); 20] = [
    ("", "", Status::Done),
    ("report", "total 0 0 0\n", Status::Done),
    ("\n\nstart\nreport\n\n", "ok\ntotal 0 0 0\n", Status::Done),
    // Each report is of the files that are present at it.
    (
        "put a.c 133
struct node { int data; struct node *next; };
int get(struct node *x) { return x->data; }
int peek(struct node *x) { return get(x); }report
put a.c 140
struct node { int data; struct node *next; };
int get(struct node *x) {/* c */ return x->data; }
int peek(struct node *x) { return get(x); }show get
drop a.c
report
",
        "ok
get a.c 2
 pre x|->node(data:$1,next:$2)
 post x|->node(data:$1,next:$2) ret=$1
peek a.c 3
 pre x|->node(data:$1,next:$2)
 post x|->node(data:$1,next:$2) ret=$1
total 2 2 0
ok
get a.c 2
 pre x|->node(data:$1,next:$2)
 post x|->node(data:$1,next:$2) ret=$1
ok
total 0 0 0
",
        Status::Done,
    ),
    // A callee stands in another file; its own file is behind that of the caller by name.
    (
        "put b.c 24
int id(int a){return a;}put a.c 46
int id(int a);
int f(int b) { return id(b); }
report
",
        "ok
ok
f a.c 2
 pre emp
 post emp ret=b
id b.c 1
 pre emp
 post emp ret=a
total 2 2 0
",
        Status::Done,
    ),
    // Two files define one name: the second by the files' names is refused.
    (
        "put b.c 24
int id(int a){return a;}put a.c 24
int id(int a){return a;}start
drop a.c
start
",
        "ok\nok\nrefused b.c 1 123\nok\nok\n",
        Status::Done,
    ),
    // A refused project is refused at each command that asks for what it means.
    (
        "put a.c 25
int f(void) { return y; }report
show f
start
gen 4
drop a.c
gen 4
",
        "ok
refused a.c 1 121
refused a.c 1 121
refused a.c 1 121
refused a.c 1 121
ok
total 4 8 0
",
        Status::Done,
    ),
    // Nothing is read behind the command to end.
    (
        "put a.c 89
struct node { int data; struct node *next; };
int get(struct node *x) { return x->data; }show get
show put
quit
report
hello
",
        "ok
get a.c 2
 pre x|->node(data:$1,next:$2)
 post x|->node(data:$1,next:$2) ret=$1
error 146
",
        Status::Done,
    ),
    // A generated file beside another.
    (
        "put a.c 24
int id(int a){return a;}gen 4
show g3
",
        "ok
total 5 9 0
g3 gen.c 5
 pre x=0
 post x=0
 pre x|->cell(v:$1,n:0)
 post x|->cell(v:$1,n:0)
 pre ls[cell.n](x,0)
 post ls[cell.n](x,0)
",
        Status::Done,
    ),
    // The input ends inside the bytes of a file.
    (
        "put a.c 30\nint id(int a){return a;}",
        "malformed 1 0\n",
        Status::Refused {
            command: 1,
            offset: 0,
        },
    ),
    (
        "drop x\nhello\n",
        "error 145\nmalformed 2 7\n",
        Status::Refused {
            command: 2,
            offset: 7,
        },
    ),
    // A file's bytes count in the offset.
    (
        "put a.c 24\nint id(int a){return a;}report\nReport\n",
        "ok\nid a.c 1\n pre emp\n post emp ret=a\ntotal 1 1 0\nmalformed 3 42\n",
        Status::Refused {
            command: 3,
            offset: 42,
        },
    ),
    // There is no store to save to.
    (
        "report\nsave\nreport\n",
        "total 0 0 0\nerror 147\ntotal 0 0 0\n",
        Status::Done,
    ),
    // The last report decides how the call ends, and only a report does.
    (
        "put a.c 36\nvoid g(int a);void f(void) { g(1); }report\ngen 4\nshow f\n",
        "ok\nf a.c 1\n none no-path 1 callee\ntotal 1 0 1\ntotal 5 8 1\nf a.c 1\n none no-path 1 callee\n",
        Status::Unproven,
    ),
    (
        "put a.c 36\nvoid g(int a);void f(void) { g(1); }report\ndrop a.c\nreport\n",
        "ok\nf a.c 1\n none no-path 1 callee\ntotal 1 0 1\nok\ntotal 0 0 0\n",
        Status::Done,
    ),
    (
        "put a.c 36\nvoid g(int a);void f(void) { g(1); }report\nquit\nreport\n",
        "ok\nf a.c 1\n none no-path 1 callee\ntotal 1 0 1\n",
        Status::Unproven,
    ),
    // A component of three. Only the first returns at once; each round then finds what returns behind one call more.
    (
        "put a.c 117
void f1(int x); void f0(int x) { if (x) f1(x); }
void f2(int x); void f1(int x) { f2(x); }
void f2(int x) { f0(x); }
report
",
        "ok
f0 a.c 1
 pre emp
 post x=0
f1 a.c 2
 pre emp
 post x=0
f2 a.c 3
 pre emp
 post x=0
total 3 3 0
",
        Status::Done,
    ),
    // Of eight, the eighth round still finds one more, so the rounds are spent; of seven it finds what the seventh did.
    (
        "put a.c 327
void f1(int x); void f0(int x) { if (x) f1(x); }
void f2(int x); void f1(int x) { f2(x); }
void f3(int x); void f2(int x) { f3(x); }
void f4(int x); void f3(int x) { f4(x); }
void f5(int x); void f4(int x) { f5(x); }
void f6(int x); void f5(int x) { f6(x); }
void f7(int x); void f6(int x) { f7(x); }
void f7(int x) { f0(x); }
report
",
        "ok
f0 a.c 1
 none spent rounds 8
f1 a.c 2
 none spent rounds 8
f2 a.c 3
 none spent rounds 8
f3 a.c 4
 none spent rounds 8
f4 a.c 5
 none spent rounds 8
f5 a.c 6
 none spent rounds 8
f6 a.c 7
 none spent rounds 8
f7 a.c 8
 none spent rounds 8
total 8 0 8
",
        Status::Unproven,
    ),
    (
        "put a.c 285
void f1(int x); void f0(int x) { if (x) f1(x); }
void f2(int x); void f1(int x) { f2(x); }
void f3(int x); void f2(int x) { f3(x); }
void f4(int x); void f3(int x) { f4(x); }
void f5(int x); void f4(int x) { f5(x); }
void f6(int x); void f5(int x) { f6(x); }
void f6(int x) { f0(x); }
report
",
        "ok
f0 a.c 1
 pre emp
 post x=0
f1 a.c 2
 pre emp
 post x=0
f2 a.c 3
 pre emp
 post x=0
f3 a.c 4
 pre emp
 post x=0
f4 a.c 5
 pre emp
 post x=0
f5 a.c 6
 pre emp
 post x=0
f6 a.c 7
 pre emp
 post x=0
total 7 7 0
",
        Status::Done,
    ),
    // A name of 64 bytes, of every kind that may stand in it.
    (
        "put aZ09._-/aaaaaaaaaaaaaaaaaaaaaaaaaaaaaaaaaaaaaaaaaaaaaaaaaaaaaaaa 5\nhelloreport",
        "ok\nrefused aZ09._-/aaaaaaaaaaaaaaaaaaaaaaaaaaaaaaaaaaaaaaaaaaaaaaaaaaaaaaaa 1 111\n",
        Status::Done,
    ),
];

/// Lines that are no command, or ask for more bytes than there are.
pub const MALFORMED: [&str; 15] = [
    "hello",
    "Report",
    "report ",
    "report\r\n",
    "put a.c 6\nhello",
    "put a.c  5\nhello",
    "put  a.c 5\nhello",
    "put a.c 05\nhello",
    "put a.c +5\nhello",
    "put a.c 5 \nhello",
    "put a.c \nhello",
    "put  5\nhello",
    "put a;c 5\nhello",
    "put aaaaaaaaaaaaaaaaaaaaaaaaaaaaaaaaaaaaaaaaaaaaaaaaaaaaaaaaaaaaaaaaa 5\nhello",
    "gen 0",
];
