//! Abstraction of symbolic states at loop heads and at exits, as definitions and laws: each of its four rules, their
//! repetition, and the steps on pairs of the search. It stands on the normal and the canonical form; the code is in
//! `sym_abstract`.
#![tactic(auto)]

pub mod instances;
pub mod laws;
