//! The configurations of the concrete machine and what its steps answer; the step itself is a crate's above. They
//! stand on names and rows. Every claim about memory safety is in the end one about these types.
use crate::answer::Fault;
use crate::name::Name;
use crate::row::Row;

/// A whole number, wide enough for each `i32` and each address: an int, or an address, 0 being null.
pub type Value = i128;

/// What the world decides at a step: each step uses one choice, and only `Any` and `New` look at it.
#[derive(Clone, PartialEq, Eq, Drop, Debug)]
pub enum Choice {
    /// `New` gives null.
    Null,
    /// `New` gives this address, at which nothing is live, with these values in the fields.
    Cell { at: Value, fields: Row<Value> },
    /// `Any` gives this value.
    Value(Value),
    /// For the other commands.
    Go,
}

/// A live structure of the heap.
#[derive(Clone, PartialEq, Eq, Drop, Debug)]
pub struct Cell {
    /// Its address, which is positive.
    pub at: Value,
    /// The name of the structure.
    pub kind: Name,
    /// One value for each of its fields, in their order.
    pub fields: Row<Value>,
}

/// A call that has not returned.
#[derive(Clone, PartialEq, Eq, Drop, Debug)]
pub struct Frame {
    /// The procedure, an index into the program's `procs`.
    pub proc: u32,
    /// The node that runs next, an index into the procedure's `nodes`.
    pub node: u32,
    /// One value for each slot.
    pub locals: Row<Value>,
    /// The caller's slot that gets the result, if one does.
    pub to: Option<u32>,
}

/// The state of the machine.
#[derive(Clone, PartialEq, Eq, Drop, Debug)]
pub struct Config {
    /// The frames, the one that runs last.
    pub stack: Row<Frame>,
    /// The cells, in rising order of address.
    pub heap: Row<Cell>,
}

/// Where a step leads.
#[derive(Clone, PartialEq, Eq, Drop, Debug)]
pub enum Stepped {
    /// To this configuration.
    On(Config),
    /// The last frame ended, with this result.
    Returned { value: Value, heap: Row<Cell> },
    /// A fault, at this line of the file, counted from 1.
    Fault { line: u32, fault: Fault },
    /// The choice is none that the command allows.
    BadChoice,
}

/// Where a list of steps leads.
#[derive(Clone, PartialEq, Eq, Drop, Debug)]
pub enum Outcome {
    /// The choices came to an end in this configuration.
    Running(Config),
    /// The run returned, with this result.
    Returned { value: Value, heap: Row<Cell> },
    /// A fault, at this line of the file, counted from 1.
    Fault { line: u32, fault: Fault },
    /// The choice of this index, from 0, is none that its command allows.
    BadChoice { index: u32 },
}
