//! The steps that the rules of matching are made of: reading the wanted heap's expressions, binding, taking, unfolding with new
//! variables, and saying that a part is missing, unless that is a contradiction. Its functions answer values of this crate's
//! definitions; the rules themselves are in `matching`.

pub mod missing;
pub mod reading;
pub mod steps;
