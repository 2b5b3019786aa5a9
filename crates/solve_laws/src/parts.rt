//! What was found for a procedure, and what became of it.
use crate::candidates::Found;
use shape_data::Row;
use shape_data::answer::Reason;
use shape_data::symbolic::{Cert, Spec};

/// What became of a candidate.
#[derive(Drop, Debug)]
pub enum Trial {
    /// It stands, as a spec with its certificate.
    Stands { spec: Spec, cert: Cert },
    /// It fell, for this.
    Fell { why: Reason },
}

/// What was found for a procedure, and what became of each candidate, in their order.
#[derive(Drop, Debug)]
pub struct Attempt {
    pub found: Found,
    pub trials: Row<Trial>,
}
