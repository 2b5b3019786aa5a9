//! Normal and canonical forms together: the normal form of a pair of a missing heap and a state, and what the canonical form
//! of something normal keeps. It stands on `sym_pure` and `sym_canon`, and serves abstraction, execution and the search.
#![tactic(auto)]

pub mod laws;
mod pairs;

pub use pairs::pair_form;
