//! What programs of worked rows share: the rows, which are lines of standard input, their parts and words, and why a row has no answer.
//! It stands on `std` alone.
#![tactic(auto)]

mod fault;
mod lines;
pub mod parts;

pub use fault::Fault;
pub use lines::count_rows;
