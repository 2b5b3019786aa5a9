//! Matching: finding a wanted heap in a heap, all of which must be there (subtraction) or parts of which may be missing
//! (abduction). It stands on the definitions of `sym_matching`, with whose mode it has one code for both: each function
//! answers the value of its definition. Subtraction, abduction and coverings are calls of the crates above.
#![tactic(auto)]

pub mod atoms;
mod cells;
pub mod facts;
pub mod matches;
mod missing_cells;
mod segments;
mod wanted_cells;

pub use matches::find;
