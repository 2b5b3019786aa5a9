//! Statements of C programs: what the typing rules of `c_types_rules` refuse in them, which types their expressions have, and which
//! variables stand behind them. It stands on `c_types_names`.
#![tactic(auto)]

pub mod finding;
pub mod locals;
pub mod simples;
pub mod stmts;
