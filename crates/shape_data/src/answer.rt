//! Keys and answers. A key is everything on which the analysis of a component depends, a component being
//! procedures that call one another or one procedure alone; an answer is what the analysis says of it. They stand
//! on programs and symbolic heaps; that `==` is exact is what lets an answer be used again for an equal key.
//!
//! A `line` here counts as that of a node, from 0 at the line of the procedure's first token.
use crate::name::Name;
use crate::program::{Flow, StructDef};
use crate::row::Row;
use crate::symbolic::{Cert, Spec};
use std::sync::Arc;

/// What goes wrong at a command, concretely or in the analysis. The machine's faults are the first four.
#[derive(Clone, Copy, PartialEq, Eq, Debug)]
pub enum Fault {
    /// An access at null.
    Null,
    /// An access at an address that is not live, or that the precondition doesn't own.
    Unowned,
    /// An access to a structure of another kind.
    Kind,
    /// A call of a procedure that is not defined, or none of whose specs fits.
    Callee,
    /// A result that no state of the certificate covers, or no post.
    Cover,
    /// A candidate precondition in which two sources are the same or one is no variable.
    Alias,
    /// More states at a node than the limit.
    States,
    /// More parts of a heap than the limit.
    Parts,
    /// More turns than the limit.
    Turns,
}

/// What was used up.
#[derive(Clone, Copy, PartialEq, Eq, Debug)]
pub enum Budget {
    /// The turns of one annotation.
    Turns,
    /// The states of one node.
    States,
    /// The parts, atoms and facts, of one heap.
    Parts,
    /// The rounds of one recursive component.
    Rounds,
}

/// Why a procedure has no spec.
#[derive(Clone, Copy, PartialEq, Eq, Debug)]
pub enum Reason {
    /// No precondition was found; the first path was dropped here, for this.
    NoPath { fault: Fault, line: u32 },
    /// No precondition was found, and no path was dropped: no path returns.
    Endless,
    /// The first precondition that was found failed here, for this.
    Failed { fault: Fault, line: u32 },
    /// A budget was used up, at this count of it.
    Spent { what: Budget, count: u32 },
}

/// What the analysis says of one procedure.
#[derive(Clone, PartialEq, Eq, Drop, Debug)]
pub struct ProcSummary {
    pub name: Name,
    pub specs: Row<Spec>,
    /// One certificate for each spec, in their order.
    pub certs: Row<Cert>,
    /// Why there is no spec, where there is none.
    pub reason: Option<Reason>,
}

/// What the analysis says of a key's procedures: one summary for each, in the key's order.
#[derive(Clone, PartialEq, Eq, Drop, Debug)]
pub struct Answer {
    /// True exactly of an answer that was read from a store.
    pub stored: bool,
    pub procs: Row<ProcSummary>,
}

/// A procedure outside the component that one of its members calls.
#[derive(Clone, PartialEq, Eq, Drop, Debug)]
pub struct Callee {
    pub name: Name,
    pub params: Row<Name>,
    pub specs: Row<Spec>,
}

/// Everything on which a component's answer depends.
#[derive(Clone, PartialEq, Eq, Drop, Debug)]
pub struct Key {
    /// Whether a member can call itself, directly or not.
    pub recursive: bool,
    /// The members, in order of their names.
    pub procs: Row<Flow>,
    /// The structures that are used.
    pub structs: Row<StructDef>,
    /// The procedures outside that are called, with their specs.
    pub callees: Row<Callee>,
}

/// A key with its answer, both shared. Contracts read them as what they hold, `kept.key.value` and
/// `kept.answer.value`; an `Arc` has an address too, so two of them are compared by
/// [`is_same_shared`](crate::is_same_shared).
#[derive(Clone, PartialEq, Eq, Drop, Debug)]
pub struct Kept {
    pub key: Arc<Key>,
    pub answer: Arc<Answer>,
}
