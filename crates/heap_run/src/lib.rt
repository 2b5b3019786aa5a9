//! The concrete machine: what a program in flow form does, step by step, under a list of choices. It stands on the
//! definitions `step` and `run` of `shape_data`, which its calls are proved to compute, and carries the promise that a
//! printed fault can be replayed.
#![tactic(auto)]

mod cells;
mod commands;
mod conditions;
mod frames;
mod numbers;
mod steps;

pub use conditions::can_start;
pub use shape_data::machine::{Outcome, Stepped};
pub use steps::{run, start, step};
