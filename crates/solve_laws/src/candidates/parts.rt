//! What comes of a search for preconditions.
use shape_data::Row;
use shape_data::answer::Fault;
use shape_data::symbolic::SymHeap;

/// Why a path was dropped, and where.
#[derive(Clone, Copy, PartialEq, Eq, Debug)]
pub struct Dropped {
    pub fault: Fault,
    /// The line of the node, which counts as that of a node.
    pub line: u32,
}

/// What comes of a search for preconditions.
#[derive(Drop, Debug)]
pub struct Found {
    /// The candidates, at most eight, in the order in which they were found.
    pub pres: Row<SymHeap>,
    /// Why the first path was dropped, if one was.
    pub first_drop: Option<Dropped>,
}
