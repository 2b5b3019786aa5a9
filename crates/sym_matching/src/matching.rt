//! Where a match stands, and what comes of it.
use shape_data::Row;
use shape_data::symbolic::{Atom, Exp, SymHeap};

/// Whether all that is wanted must be there.
#[derive(Clone, Copy, PartialEq, Eq, Debug)]
pub enum Mode {
    /// Nothing may be missing.
    Subtract,
    /// Parts that speak of logical variables and constants alone may be missing.
    Abduce,
}

/// That a wanted expression is equal to one of the heap, still to be shown. `number` is that of the wanted part.
#[derive(Clone, Copy, Debug)]
pub struct Owed {
    pub number: u32,
    pub want: Exp,
    pub have: Exp,
}

/// A wanted atom with its number among the wanted parts.
#[derive(Drop, Debug)]
pub struct Wanted {
    pub number: u32,
    pub atom: Atom,
}

/// Where a match stands.
#[derive(Drop, Debug)]
pub struct Matching {
    /// What is left of the heap.
    pub left: Row<Atom>,
    /// What was taken; of an unfolded segment its cell. Missing atoms stand here too.
    pub gone: Row<Atom>,
    /// What is missing.
    pub missing: SymHeap,
    /// The expressions that variables of the wanted heap have.
    pub binding: Row<(u32, Exp)>,
    /// The facts that fields left over.
    pub owed: Row<Owed>,
    /// The variables that new existential variables avoid.
    pub used: Row<u32>,
    /// The number of the next new logical variable.
    pub next: u32,
}

/// What comes of a wanted part: the match goes on, or is stuck on the part of this number.
#[derive(Drop, Debug)]
pub enum Turned {
    On(Matching),
    Stuck(u32),
}

/// What comes of a subtraction.
#[derive(PartialEq, Eq, Drop, Debug)]
pub enum Sub {
    /// The wanted heap, under the binding, is in the heap beside the frame.
    Match {
        frame: SymHeap,
        binding: Row<(u32, Exp)>,
    },
    /// The wanted part of this number was not found. Atoms are numbered from 0, then the facts.
    NoMatch {
        wanted: u32,
    },
}

/// What comes of an abduction.
#[derive(PartialEq, Eq, Drop, Debug)]
pub enum Abd {
    /// The wanted heap, under the binding, is in the heap with the missing part, beside the frame.
    Found {
        missing: SymHeap,
        frame: SymHeap,
        binding: Row<(u32, Exp)>,
    },
    /// The wanted part of this number was neither found nor could it be missing.
    NoMatch {
        wanted: u32,
    },
}
