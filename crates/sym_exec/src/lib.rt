//! Symbolic execution of one node: strict execution of a state, and the search's of a pair of a missing heap and a state. Each call
//! answers the value of its definition in `exec_laws`, whose laws say what that means; this crate stands on those definitions, on
//! `exec_cells` for values and cells, and on the code of matching and of renaming apart for calls.
#![tactic(auto)]

mod branching;
mod calls;
mod stepping;

pub use stepping::{exec, search_cases};
