//! Samples: a concrete heap that meets a symbolic one, with numbers for its parameters. It stands on the normal form of `sym_pure`; so
//! no precondition that has a sample is empty.
#![tactic(auto)]

mod cells;
pub mod laws;
mod numbers;
mod parts;
mod samples;
mod starts;

pub use parts::Sample;
pub use samples::sample;
pub use starts::has_plain_sources;
