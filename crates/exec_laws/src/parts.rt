//! What an execution of a node is told, and what comes of it.
use shape_data::Row;
use shape_data::answer::{Callee, Fault};
use shape_data::symbolic::{Post, SymState};
use sym_canon::Pair;

/// Whether all that a command needs must be there.
#[derive(Clone, Copy, PartialEq, Eq, Debug)]
pub enum Mode {
    /// Execution of a state: nothing may be missing, and one case that is dropped is a failure of the whole.
    Strict,
    /// Execution of a pair in the search for preconditions: what is missing joins the missing heap, and a case that is dropped ends
    /// its own path alone.
    Search,
}

/// The specs that calls may use. A name is looked for among the component's own procedures first.
#[derive(Drop, Debug)]
pub struct Table {
    pub own: Row<Callee>,
    pub outer: Row<Callee>,
    /// Whether a call of an own procedure without a spec that fits has no state in strict execution, in place of a fault.
    pub cut: bool,
}

/// One way in which a cell comes to stand at an address.
#[derive(Drop, Debug)]
pub enum Exposed {
    /// The cell stands there.
    Shown(Pair),
    /// There is none, for this.
    Lacking(Fault),
}

/// One thing that comes of a command.
#[derive(Drop, Debug)]
pub enum Case {
    /// It goes on at a node.
    On { node: u32, pair: Pair },
    /// It leaves the procedure. The result is the one local of the pair's state.
    Leaves { pair: Pair },
    /// The path is dropped, for this.
    Drops { fault: Fault },
}

/// What comes of a strict execution of a node.
#[derive(Drop, Debug)]
pub enum Step {
    /// The states that it goes on with, each with its node, and the posts that it leaves with, both in the order of the cases.
    Next {
        next: Row<(u32, SymState)>,
        exits: Row<Post>,
    },
    /// The fault of the first case that is dropped. The line counts as that of a node.
    Fail {
        fault: Fault,
        line: u32,
    },
}
