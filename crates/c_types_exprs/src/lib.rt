//! The types of expressions, and what the typing rules of `c_types_rules` refuse in them. It stands on the names of `c_types_names`.
#![tactic(auto)]

pub mod all_kinds;
pub mod exprs;
pub mod refusals;
pub mod value_types;
