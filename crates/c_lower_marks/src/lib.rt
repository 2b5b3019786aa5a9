//! The marks of loop heads: what abstraction may forget there. It stands on the definitions of `c_lower_rules`.
#![tactic(auto)]

mod assigned;
mod marking;

pub use marking::mark;
