//! Expressions as code of the flow form, at a place of a procedure's body: each is emitted in one of its uses as the piece that the
//! definitions of `c_lower_rules` say.
#![tactic(auto)]

pub mod context;
pub mod members;
pub mod operators;
mod params;
pub mod site;
pub mod slots;
pub mod values;

pub use params::param_count;
