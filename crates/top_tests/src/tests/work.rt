//! Streams, and what is done for their replies: `R` where another program is present, `C` where a component is claimed, `P` where it is
//! answered. A comment within a line changes no component, and where a callee is changed but its specs stay, its caller is not solved
//! again. What is shown has its own component solved, and those that it calls. Procedures that call each other are one component. What was
//! asked of a program is solved for that program, though another was met before.
use super::calls::Stream;

/// A procedure that reads a cell, and one that calls it.
const PEEK: &[u8] =
    b"struct node { int data; struct node *next; };\nint get(struct node *x) { return x->data; }\nint peek(struct node *x) { return get(x); }\n";

/// The same, with a comment, and with a local.
pub const PEEKS: &[(&str, &[u8])] = &[
    ("a.c", PEEK),
    (
        "a.c",
        b"struct node { int data; struct node *next; };\nint get(struct node *x) { /* c */ return x->data; }\nint peek(struct node *x) { return get(x); }\n",
    ),
    (
        "a.c",
        b"struct node { int data; struct node *next; };\nint get(struct node *x) { int d = x->data; return d; }\nint peek(struct node *x) { return get(x); }\n",
    ),
];

/// Two procedures that call each other.
const PAIR: &[u8] =
    b"int g(int k);\nint f(int k) { if (k == 0) { return k; } return g(k - 1); }\nint g(int k) { if (k == 0) { return k; } return f(k - 1); }\n";

pub const CHANGED_AND_BACK: &[u8] =
    b"put a.c 89\nstruct node { int data; struct node *next; };\nint get(struct node *x) { return x->data; }\nstart\nput a.c 102\nstruct node { int data; struct node *next; };\nvoid walk(struct node *x) { while (x) { x = x->next; } }\nstart\nput a.c 89\nstruct node { int data; struct node *next; };\nint get(struct node *x) { return x->data; }\nreport\n";

pub const WORK: [(Stream, &[u8]); 7] = [
    (Stream::Reports(PEEKS), b"RCPCPRCP"),
    (Stream::Of(CHANGED_AND_BACK), b"RRRCP"),
    (Stream::Put("a.c", PEEK, b"start\n"), b"R"),
    (Stream::Put("a.c", PEEK, b"show get\n"), b"RCP"),
    (
        Stream::Put("a.c", PEEK, b"show get\nshow peek\nshow get\n"),
        b"RCPCP",
    ),
    (Stream::Put("a.c", PEEK, b"show gone\n"), b""),
    (Stream::Put("a.c", PAIR, b"report\nreport\n"), b"RCP"),
];
