//! The search for preconditions, as a definition with its laws: pairs of a missing heap and a state are executed from the empty missing
//! heap, first in first out, and the missing heap at each exit is a candidate (bi-abduction: Calcagno, Distefano, O'Hearn and Yang, JACM
//! 58(6), 2011). No code runs here. Of a candidate it is claimed that some heap meets it, and not that it is safe: each is annotated
//! again, without abduction.

pub mod examples;
pub mod laws;
mod parts;

pub use parts::{Dropped, Found};
