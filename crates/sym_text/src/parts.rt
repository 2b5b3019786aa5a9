//! The parts of a heap.
use shape_data::symbolic::{Atom, Fact};

/// A part of a heap, or `emp`.
#[derive(Drop, Debug)]
pub enum Part {
    Fact(Fact),
    Atom(Atom),
    Nothing,
}

/// A part, and the text behind it.
pub type ReadPart<'a> = (Part, &'a [u8]);
