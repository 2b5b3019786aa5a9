//! The typing rules of the C subset: which types the expressions of a program have, and what is refused. Definitions and
//! their laws; no code that runs.
#![tactic(auto)]

mod at;
pub mod laws;

pub use at::At;
