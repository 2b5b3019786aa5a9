//! Lowering as definitions: the flow form of a program of the C subset, and what is too large for it. No code that runs.
#![tactic(auto)]

pub mod laws;
