//! The components of a program by the places of its procedures, and the keys under which they are analysed, as code. Each answer is
//! that of the definitions in `component_keys`.
#![tactic(auto)]

pub mod callees;
pub mod keys;
pub mod outside;
pub mod programs;
pub mod rows;
mod structure_index;
pub mod structures;

pub use callees::{callee_of, callee_with, calls_of, specs_of, summary_of};
pub use keys::{are_flows, is_key_of, key_of};
pub use programs::components_of;
pub use rows::{Component, Outer, Structures};
pub use structures::structures_of;
