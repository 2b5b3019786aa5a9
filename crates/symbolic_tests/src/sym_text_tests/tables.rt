//! The texts of the tests, worked by hand from the grammar. Each line is a text; `@` marks the place where it is refused, and a
//! line without it is accepted.

/// Texts over these parameters and structures.
#[derive(Clone, Copy)]
pub struct Table<'a> {
    pub params: &'a [&'a str],
    /// Each structure as its name and then the names of its fields.
    pub structs: &'a [&'a [&'a str]],
    /// Texts of heaps.
    pub heaps: &'a str,
    /// Texts of posts with their result.
    pub posts: &'a str,
}

/// Texts of the summaries of procedures.
pub const PRINTED: &[Table] = &[
    IDENTITY,
    LISTS,
    TWO_CELLS,
    TESTS,
    STACK_MADE,
    STACK_READ,
    STACK_PUSHED,
    STACK_MEASURED,
];

/// Texts that leave the grammar.
pub const REFUSED: &[Table] = &[LIKE_NAMES, WORDS_AS_NAMES, BARE];

/// A procedure that returns its argument.
const IDENTITY: Table<'static> = Table {
    params: &["a"],
    structs: &[],
    heaps: "emp
",
    posts: "emp ret=a
",
};

/// Procedures that read a list, free it, walk it and measure it.
const LISTS: Table<'static> = Table {
    params: &["x"],
    structs: &[&["node", "data", "next"]],
    heaps: "emp
x=0
x|->node(data:$1,next:$2)
x|->node(data:$1,next:0)
ls[node.next](x,0)
x!=0 * ls[node.next](x,0)
$1!=0 * ls[node.next](x,0)
",
    posts: "x|->node(data:$1,next:$2) ret=$1
x|->node(data:$1,next:$2) ret=$2
x=0 ret=1
x!=0 ret=0
x=0 * junk ret=0
x|->node(data:?1,next:?2) ret=1
junk ret=0
x=0 ret=?1
x|->node(data:$1,next:0) ret=?1
ls[node.next](x,0) ret=?1
x|->node(data:$1,next:0) ret=1
x|->node(data:$1,next:0) ret=0
x|->node(data:?1,next:?2) * ls[node.next](?2,0) ret=1
x|->node(data:?1,next:?2) * ls[node.next](?2,0) ret=0
",
};

/// A procedure that writes one cell and reads another.
const TWO_CELLS: Table<'static> = Table {
    params: &["x", "y"],
    structs: &[&["node", "data", "next"]],
    heaps: "x|->node(data:$1,next:$2) * y|->node(data:$3,next:$4)
",
    posts: "x|->node(data:1,next:$2) * y|->node(data:$3,next:$4) ret=$3
",
};

/// A procedure that tests its argument fifteen times.
const TESTS: Table<'static> = Table {
    params: &["a"],
    structs: &[],
    heaps: "emp
",
    posts: "a=1 ret=1
a=2 ret=2
a=3 ret=3
a=4 ret=4
a=5 ret=5
a=6 ret=6
a=7 ret=7
a=8 ret=8
a=9 ret=9
a=10 ret=10
a=11 ret=11
a=12 ret=12
a=13 ret=13
a=14 ret=14
a!=1 * a!=2 * a!=3 * a!=4 * a!=5 * a!=6 * a!=7 * a!=8 * a!=9 * a!=10 * a!=11 * a!=12 * a!=13 * a!=14 * a!=15 ret=0
a=15 ret=15
",
};

/// A stack is made.
const STACK_MADE: Table<'static> = Table {
    params: &[],
    structs: &[&["node", "data", "next"], &["stack", "head", "size"]],
    heaps: "emp
",
    posts: "emp ret=0
?1|->stack(head:0,size:0) ret=?1
",
};

/// A stack is read, popped, cleared and destroyed.
const STACK_READ: Table<'static> = Table {
    params: &["q"],
    structs: &[&["node", "data", "next"], &["stack", "head", "size"]],
    heaps: "emp
q|->stack(head:$1,size:$2)
q|->stack(head:0,size:$1)
q|->stack(head:0,size:0)
q|->stack(head:$1,size:$2) * $1|->node(data:$3,next:$4)
q|->stack(head:$1,size:$2) * $1|->node(data:$3,next:0)
q|->stack(head:$1,size:$2) * ls[node.next]($1,0)
",
    posts: "$2=0 * q|->stack(head:$1,size:0) ret=1
$2!=0 * q|->stack(head:$1,size:$2) ret=0
q|->stack(head:0,size:$1) ret=0
q|->stack(head:$4,size:?1) ret=$3
q|->stack(head:0,size:$1) ret=?1
q|->stack(head:$1,size:$2) * $1|->node(data:$3,next:0) ret=?1
q|->stack(head:$1,size:$2) * ls[node.next]($1,0) ret=?1
",
};

/// A value is pushed.
const STACK_PUSHED: Table<'static> = Table {
    params: &["q", "v"],
    structs: &[&["node", "data", "next"], &["stack", "head", "size"]],
    heaps: "q|->stack(head:$1,size:$2)
",
    posts: "q|->stack(head:$1,size:$2) ret=0
q|->stack(head:?1,size:?2) * ?1|->node(data:v,next:$1) ret=1
",
};

/// The length of a stack's list.
const STACK_MEASURED: Table<'static> = Table {
    params: &["n"],
    structs: &[&["node", "data", "next"], &["stack", "head", "size"]],
    heaps: "n=0
n|->node(data:$1,next:0)
ls[node.next](n,0)
",
    posts: "n=0 ret=?1
n|->node(data:$1,next:0) ret=?1
ls[node.next](n,0) ret=?1
",
};

/// Names that begin with one another, a parameter `ls`, and structures with two fields, one and none.
const LIKE_NAMES: Table<'static> = Table {
    params: &["x", "xy", "ls"],
    structs: &[&["node", "data", "next"], &["no", "a"], &["leaf"]],
    heaps: "emp
x=0
x!=0 * ls[node.next](x,0)
x|->node(data:$1,next:0)
x|->node(data:?1,next:?2) * ls[node.next](?2,0)
x|->node(data:$1,next:$2) * xy|->node(data:$3,next:$4)
x|->node(data:1,next:$2) * xy|->node(data:$3,next:$4)
x=0 * junk
junk * junk
ls=0 * ls|->leaf()
ls[no.a](ls,x)
ls[node.data](x,0)
$32768=?32768 * -2147483648!=2147483647
@
e@
em@x
emp@=0
emp@ * x=0
emp@ * emp
@ emp
x@
x@,
x@z=0
xy@z=0
@q=0
@X=0
@_=0
l@=0
ls@x=0
x=@
x=@=0
x=0@=0
x=@é
x=-@
x=214748364@8
x!@0
x!=@
x=0 @
x=0 *@
x=0 *@x=0
x=0 * @
x=0 * @ x=0
x=0 @ * x=0
x=0@* x=0
x=0 * @emp
junk * @emp
ls[@
ls[n@x.a](0,0)
ls[no@[
ls[@leaf.
ls[node@](x,0)
ls[node.n@xt](x,0)
ls[node.next]@ (x,0)
ls[node.next](@,0)
ls[node.next](x@)
ls[node.next](x,0@
ls[node.next](x,0) * x@=0
x|@=
x|-@
x|->n@d(
x|->node@[
x|->node@s(
x|->node(@next:0,data:0)
x|->node(data:0@)
x|->node(data:0,@)
x|->node(data:0,next:0@,
x|->node(data:0,next:0)@x
x|->node(data:0,next:0) * $1@=0
x|->leaf(@x
$@0=0
?@0=0
$3276@9=0
?3276@9=0
$1@a=0
-@0=0
-@x=0
214748364@8=0
-214748364@9=0
0@1=0
1@x=0
@+1=0
junk * x@=0
junk @x
junk@x
junk@=0
",
    posts: "emp ret=0
x=0 * junk ret=0
x|->node(data:?1,next:?2) ret=?1
@
emp@
emp @* x=0
emp ret=@
x=0 @  * x=0 ret=0
x=0 r@
x=0 ret@ =0
x=0 ret=0@ 
x=0 ret=xy@z
x=0 ret=0@ * x=0
junk * x@=0 ret=0
",
};

/// Parameters that are called as the words of the grammar are.
const WORDS_AS_NAMES: Table<'static> = Table {
    params: &["emp", "junk", "ret"],
    structs: &[&["node", "data", "next"], &["leaf"]],
    heaps: "emp
junk
emp=0
junk=0
ret=0
emp=junk * junk!=ret * junk
emp!=emp * emp|->leaf()
junk * junk|->leaf() * junk
ret|->node(data:emp,next:junk)
ls[node.next](emp,junk)
emp@,
emp@ * ret=0
ret@
ret@ =0
junk@,
junk * emp@
junk * emp@=0
junk * junk@=0
junk * ret@=0
",
    posts: "emp ret=emp
junk ret=junk
ret=0 ret=ret
emp=0 ret=junk
ret=0@
ret=0 re@d
ret=0 ret=re@
emp ret=em@x
ret=0 ret=0@ ret=0
",
};

/// One parameter, and no structure: few texts go on.
const BARE: Table<'static> = Table {
    params: &["x"],
    structs: &[],
    heaps: "x=0 * junk
junk * junk
x@|->
junk * @x=0
junk * @0=0
@ls
",
    posts: "",
};
