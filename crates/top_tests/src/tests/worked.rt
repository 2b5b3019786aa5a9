//! Files whose reports were worked by hand, each with the reply and the status that goes with it.

use super::calls::{Call, SESSION, Stream};
use heapan_top::Status;
use stack_module::STACK;

/// Files that are put as `a.c`.
pub const WORKED: [(&str, &str, Status); 14] = [
    // A field is read.
    (
        "struct node { int data; struct node *next; };
int get(struct node *x) { return x->data; }",
        "ok
get a.c 2
 pre x|->node(data:$1,next:$2)
 post x|->node(data:$1,next:$2) ret=$1
total 1 1 0
",
        Status::Done,
    ),
    // What malloc gives may be null.
    (
        "struct node { int data; struct node *next; };
struct node *mk(int a) {
struct node *n = malloc(sizeof(struct node));
n->data = a;
return n; }",
        "ok
mk a.c 2
 none failed 4 null
total 1 0 1
",
        Status::Unproven,
    ),
    // What was freed is read.
    (
        "struct node { int data; struct node *next; };
int bad(struct node *x) { free(x); return x->data; }",
        "ok
bad a.c 2
 none no-path 2 null
total 1 0 1
",
        Status::Unproven,
    ),
    // A new cell may have the address of one that was freed.
    (
        "struct node { int data; struct node *next; };
int reuse(struct node *x) { free(x); struct node *y = malloc(sizeof(struct node)); if (x == y) return 1; return 0; }",
        "ok
reuse a.c 2
 pre x=0
 post x=0 ret=1
 post x=0 * junk ret=0 leak
 pre x|->node(data:$1,next:$2)
 post x=0 ret=1
 post x|->node(data:?1,next:?2) ret=1
 post junk ret=0 leak
total 1 2 0
",
        Status::Done,
    ),
    // One cell is written, another read.
    (
        "struct node { int data; struct node *next; };
int set(struct node *x, struct node *y) { x->data = 1; return y->data; }",
        "ok
set a.c 2
 pre x|->node(data:$1,next:$2) * y|->node(data:$3,next:$4)
 post x|->node(data:1,next:$2) * y|->node(data:$3,next:$4) ret=$3
total 1 1 0
",
        Status::Done,
    ),
    // A list is walked.
    (
        "struct node { int data; struct node *next; };
void walk(struct node *x) { while (x) { x = x->next; } }",
        "ok
walk a.c 2
 pre x=0
 post x=0
 pre x|->node(data:$1,next:0)
 post x|->node(data:$1,next:0)
 pre ls[node.next](x,0)
 post ls[node.next](x,0)
total 1 3 0
",
        Status::Done,
    ),
    // A list is freed.
    (
        "struct node { int data; struct node *next; };
void clear(struct node *x) { while (x) { struct node *t = x->next; free(x); x = t; } }",
        "ok
clear a.c 2
 pre x=0
 post x=0
 pre x|->node(data:$1,next:0)
 post emp
 pre ls[node.next](x,0)
 post emp
total 1 3 0
",
        Status::Done,
    ),
    // A fault in one of three procedures that call one another.
    (
        "struct node { int data; struct node *next; };
int g(int n);
int h(int n);
int f(int n) { if (n < 1) return 0; return g(n - 1); }
int g(int n) { if (n < 1) return h(n); return f(n - 1); }
int h(int n) { struct node *p = malloc(sizeof(struct node)); p->data = n; return f(n); }",
        "ok
f a.c 4
 none failed 4 callee
g a.c 5
 none failed 5 callee
h a.c 6
 none failed 6 null
total 3 0 3
",
        Status::Unproven,
    ),
    // The length of a list, by recursion.
    (
        "struct node { int data; struct node *next; };
int len(struct node *x) { if (x == NULL) return 0; int n = len(x->next); return n + 1; }",
        "ok
len a.c 2
 pre x=0
 post x=0 ret=?1
 pre x|->node(data:$1,next:0)
 post x|->node(data:$1,next:0) ret=?1
 pre ls[node.next](x,0)
 post ls[node.next](x,0) ret=?1
total 1 3 0
",
        Status::Done,
    ),
    // Sixteen states at one node.
    (
        "int pick(int a) { int r = 0; if (a == 1) r = 1; else if (a == 2) r = 2; else if (a == 3) r = 3; else if (a == 4) r = 4; else if (a == 5) r = 5; else if (a == 6) r = 6; else if (a == 7) r = 7; else if (a == 8) r = 8; else if (a == 9) r = 9; else if (a == 10) r = 10; else if (a == 11) r = 11; else if (a == 12) r = 12; else if (a == 13) r = 13; else if (a == 14) r = 14; else if (a == 15) r = 15; return r; }",
        "ok
pick a.c 1
 pre emp
 post a=1 ret=1
 post a=2 ret=2
 post a=3 ret=3
 post a=4 ret=4
 post a=5 ret=5
 post a=6 ret=6
 post a=7 ret=7
 post a=8 ret=8
 post a=9 ret=9
 post a=10 ret=10
 post a=11 ret=11
 post a=12 ret=12
 post a=13 ret=13
 post a=14 ret=14
 post a!=1 * a!=2 * a!=3 * a!=4 * a!=5 * a!=6 * a!=7 * a!=8 * a!=9 * a!=10 * a!=11 * a!=12 * a!=13 * a!=14 * a!=15 ret=0
 post a=15 ret=15
total 1 1 0
",
        Status::Done,
    ),
    // Seventeen.
    (
        "int pick(int a) { int r = 0; if (a == 1) r = 1; else if (a == 2) r = 2; else if (a == 3) r = 3; else if (a == 4) r = 4; else if (a == 5) r = 5; else if (a == 6) r = 6; else if (a == 7) r = 7; else if (a == 8) r = 8; else if (a == 9) r = 9; else if (a == 10) r = 10; else if (a == 11) r = 11; else if (a == 12) r = 12; else if (a == 13) r = 13; else if (a == 14) r = 14; else if (a == 15) r = 15; else if (a == 16) r = 16; return r; }",
        "ok
pick a.c 1
 none spent states 17
total 1 0 1
",
        Status::Unproven,
    ),
    // A procedure without a body is called.
    (
        "void ext(int a);
void f(void) { ext(1); }",
        "ok
f a.c 2
 none no-path 2 callee
total 1 0 1
",
        Status::Unproven,
    ),
    // A loop without an end.
    (
        "void spin(void) { while (1) { } }",
        "ok
spin a.c 1
 none no-path endless
total 1 0 1
",
        Status::Unproven,
    ),
    // A sum is any number.
    (
        "int f(int a) { int b = a + 1; if (b == 3) return 1; return 0; }",
        "ok
f a.c 1
 pre emp
 post emp ret=1
 post emp ret=0
total 1 1 0
",
        Status::Done,
    ),
];

/// A session that puts the stack module as `stack.c`, with these bytes behind it.
pub fn with_stack(behind: &'static [u8]) -> Call<'static> {
    Call {
        stream: Stream::Put("stack.c", STACK, behind),
        ..SESSION
    }
}

/// What a report on it is answered.
pub const STACK_REPLY: &str = "ok
make stack.c 13
 pre emp
 post emp ret=0
 post ?1|->stack(head:0,size:0) ret=?1
empty stack.c 21
 pre q|->stack(head:$1,size:$2)
 post $2=0 * q|->stack(head:$1,size:0) ret=1
 post $2!=0 * q|->stack(head:$1,size:$2) ret=0
push stack.c 25
 pre q|->stack(head:$1,size:$2)
 post q|->stack(head:$1,size:$2) ret=0
 post q|->stack(head:?1,size:?2) * ?1|->node(data:v,next:$1) ret=1
pop stack.c 35
 pre q|->stack(head:0,size:$1)
 post q|->stack(head:0,size:$1) ret=0
 pre q|->stack(head:$1,size:$2) * $1|->node(data:$3,next:$4)
 post q|->stack(head:$4,size:?1) ret=$3
clear stack.c 45
 pre q|->stack(head:0,size:$1)
 post q|->stack(head:0,size:0)
 pre q|->stack(head:$1,size:$2) * $1|->node(data:$3,next:0)
 post q|->stack(head:0,size:0)
 pre q|->stack(head:$1,size:$2) * ls[node.next]($1,0)
 post q|->stack(head:0,size:0)
length stack.c 54
 pre n=0
 post n=0 ret=?1
 pre n|->node(data:$1,next:0)
 post n|->node(data:$1,next:0) ret=?1
 pre ls[node.next](n,0)
 post ls[node.next](n,0) ret=?1
count stack.c 60
 pre q|->stack(head:0,size:$1)
 post q|->stack(head:0,size:$1) ret=?1
 pre q|->stack(head:$1,size:$2) * $1|->node(data:$3,next:0)
 post q|->stack(head:$1,size:$2) * $1|->node(data:$3,next:0) ret=?1
 pre q|->stack(head:$1,size:$2) * ls[node.next]($1,0)
 post q|->stack(head:$1,size:$2) * ls[node.next]($1,0) ret=?1
destroy stack.c 64
 pre q|->stack(head:0,size:$1)
 post emp
 pre q|->stack(head:$1,size:$2) * $1|->node(data:$3,next:0)
 post emp
 pre q|->stack(head:$1,size:$2) * ls[node.next]($1,0)
 post emp
total 8 17 0
";
