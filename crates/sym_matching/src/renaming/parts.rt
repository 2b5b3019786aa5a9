//! What renaming is made with.
use shape_data::Row;
use shape_data::symbolic::{Exp, SymHeap};

/// Different variables, and a new number for each.
#[derive(Drop, Debug)]
pub struct Numbers {
    pub variables: Row<u32>,
    pub numbers: Row<u32>,
}

/// A precondition for a match in the caller.
#[derive(Drop, Debug)]
pub struct CalledPre {
    /// The new numbers of its variables and of the parameters.
    pub numbers: Numbers,
    /// The precondition in them.
    pub pre: SymHeap,
    /// The parameters, bound to the arguments.
    pub bound: Row<(u32, Exp)>,
    /// The other variables, which the match may bind.
    pub flexible: Row<u32>,
}
