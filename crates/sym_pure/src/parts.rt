//! What the normal form is made with.
use shape_data::Row;
use shape_data::symbolic::{Atom, Exp, SymState};

/// A solved equation: a variable, and the expression that stands in its place.
#[derive(Clone, Copy, Debug)]
pub struct Solved {
    pub variable: u32,
    pub by: Exp,
}

/// The solved equations, and the atoms that are left where no segment is known to be empty.
#[derive(Drop, Debug)]
pub struct Settled {
    pub solved: Row<Solved>,
    pub atoms: Row<Atom>,
}

/// What the normal form of a state is.
#[derive(PartialEq, Eq, Drop, Debug)]
pub enum Normal {
    /// This state, which means the same.
    Is(SymState),
    /// The state contradicts itself: nothing meets it.
    Contradiction,
}
