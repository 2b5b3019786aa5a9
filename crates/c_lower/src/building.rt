//! What is found in a program so far.
use c_types_names::first_refusal::FirstRefusal;
use shape_data::Row;
use shape_data::program::Proc;

/// What is found in a program so far: what is too large and comes first, and the first procedures, at most `most` of them, of which those
/// that are too large may be left out.
#[derive(Drop)]
pub struct Building {
    pub first: FirstRefusal,
    pub most: usize,
    pub procs: Row<Proc>,
}
