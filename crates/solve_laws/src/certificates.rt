//! When the certificates of an answer are inductive, and why its specs are then valid; no code runs here. A certificate lists symbolic
//! states for each node of a procedure. Five rules, in `specs/Certificates/Inductive`, say that execution, abstraction and covering lead
//! from them to listed ones alone. The law of soundness, in [`soundness`], stands on what `sound_laws` shows of states by what meets them,
//! and on the laws of execution, abstraction and covering.
//!
//! The definitions in `specs/Certificates/` are read in this order: `Coverings`, `Coming` (what comes to a node or an exit), `Inductive`
//! (the rules), `Gaps` (the first place that fails), `Laws`.

pub mod examples;
pub mod gaps;
pub mod limits;
mod parts;
pub mod results;
pub mod soundness;

pub use parts::{Gap, SpecGap};
