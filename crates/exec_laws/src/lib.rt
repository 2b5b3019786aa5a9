//! Symbolic execution of one node, as definitions and laws: strict, of a state; and in the search for preconditions, of a pair of a
//! missing heap and a state. The types here are shared by the definitions in `specs/` and the code of the crates above; no code runs
//! here. The law of strict execution, in [`laws`], stands on the laws of matching, of normal and canonical forms, and on what
//! `sound_laws` says of commands. The other modules are instances of the definitions, by computation.
#![tactic(auto)]

pub mod examples;
pub mod laws;
mod parts;
pub mod rows;
pub mod search_instances;
pub mod strict_instances;

pub use parts::{Case, Exposed, Mode, Step, Table};
