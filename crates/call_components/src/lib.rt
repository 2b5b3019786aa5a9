//! The components of a graph of calls, as code: the classes of numbers that call one another, callees first. One walk finds the
//! classes (`search`), and they are listed in the order of the definitions in `component_keys`, which each answer meets.
#![tactic(auto)]

pub mod calls;
pub mod classes;
pub mod graph;
pub mod listing;
pub mod marks;
pub mod order;
pub mod places;
pub mod reach;
pub mod search;
pub mod waiting;

pub use graph::is_call_graph;
pub use listing::components;
