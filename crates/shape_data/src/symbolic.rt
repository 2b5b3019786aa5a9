//! Symbolic heaps with list segments (Distefano, O'Hearn, Yang, TACAS 2006), and the specs and certificates of
//! procedures that are made of them (Calcagno, Distefano, O'Hearn, Yang, JACM 58(6), 2011). It stands on names
//! and rows; what a heap means is `Holds` and `Meets`, in the crates above, and `==` and `clone` are exact.
//!
//! Variables are numbers. With k parameters, parameter i is `Var(i)` and the further logical variable written
//! `$n`, n from 1, is `Var(k + n - 1)`. Existential variables begin at [`FIRST_EXISTENTIAL`]: `?n`, n from 1, is
//! `Var(65_535 + n)`.
use crate::name::Name;
use crate::row::Row;

/// The greatest logical variable. A logical variable means the same in a precondition and in its posts.
pub const LAST_LOGICAL: u32 = 65_535;

/// The least existential variable, `?1`. An existential variable means some value, within one heap, state or post.
pub const FIRST_EXISTENTIAL: u32 = 65_536;

/// An expression.
#[derive(Clone, Copy, PartialEq, Eq, PartialOrd, Ord, Debug)]
pub enum Exp {
    /// A variable: logical up to [`LAST_LOGICAL`], existential from [`FIRST_EXISTENTIAL`].
    Var(u32),
    /// This number. 0 is null too.
    Const(i32),
}

/// A part of the memory. `kind` is the name of a structure.
#[derive(Clone, PartialEq, Eq, PartialOrd, Ord, Drop, Debug)]
pub enum Atom {
    /// One structure at this address, with one value for each of its fields, in their order.
    Points {
        at: Exp,
        kind: Name,
        fields: Row<Exp>,
    },
    /// A list of structures, which may be empty, from `from` to `to`: each holds the address of the next, and the
    /// last one `to`, in the field `link`, an index into the structure's fields.
    Seg {
        kind: Name,
        link: u32,
        from: Exp,
        to: Exp,
    },
    /// Any memory, of which nothing is known.
    Junk,
}

/// A fact of numbers.
#[derive(Clone, Copy, PartialEq, Eq, PartialOrd, Ord, Debug)]
pub enum Fact {
    /// The two are equal.
    Eq(Exp, Exp),
    /// The two differ.
    Ne(Exp, Exp),
}

/// A symbolic heap: all its facts hold, and the memory is divided among its atoms.
#[derive(Clone, PartialEq, Eq, Drop, Debug)]
pub struct SymHeap {
    pub pure: Row<Fact>,
    pub spatial: Row<Atom>,
}

/// A symbolic state at a node: one value for each slot, and the heap.
#[derive(Clone, PartialEq, Eq, Drop, Debug)]
pub struct SymState {
    pub locals: Row<Exp>,
    pub heap: SymHeap,
}

/// What may hold when a procedure returns: its result, and the heap.
#[derive(Clone, PartialEq, Eq, Drop, Debug)]
pub struct Post {
    pub ret: Exp,
    pub heap: SymHeap,
}

/// A spec: from the precondition each run that returns meets one of the posts.
#[derive(Clone, PartialEq, Eq, Drop, Debug)]
pub struct Spec {
    pub pre: SymHeap,
    pub posts: Row<Post>,
}

/// The certificate of a spec, which a checker can test.
#[derive(Clone, PartialEq, Eq, Drop, Debug)]
pub struct Cert {
    /// For each node of the procedure, the states in which it may be.
    pub nodes: Row<Row<SymState>>,
    /// The ways in which the procedure may return.
    pub exits: Row<Post>,
}
