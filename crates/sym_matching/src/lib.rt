//! Matching of symbolic heaps, as definitions and laws: taking a wanted heap out of a heap (subtraction), finding what is
//! missing for that (abduction), and when one state or post covers another. The types here are shared by the definitions in
//! `specs/` and the code of the crates above. The laws in [`laws`] say what a match means for heaps; those in [`rooms`], that
//! new variables have 32-bit numbers. Code is in two rooms: variables are renamed apart in [`renaming`], and [`rule_steps`] has
//! the steps that the rules in `matching` are made of.
#![tactic(auto)]

pub mod answers;
pub mod examples;
pub mod laws;
mod matching;
pub mod renaming;
pub mod rooms;
pub mod rule_steps;

pub use matching::{Abd, Matching, Mode, Owed, Sub, Turned, Wanted};
