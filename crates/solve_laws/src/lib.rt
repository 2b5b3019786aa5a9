//! Solving a component, as a definition with its laws: the candidates of its procedures are annotated; in a recursive component in
//! rounds, then strictly, and what is then not inductive is dropped. No code runs here. The laws, in [`laws`]: the answer is inductive
//! for its key, so each of its specs is valid in every program in which the key stands; it is well formed; and a procedure without a
//! spec has a reason. What it is made of stands in rooms of its own: [`certificates`] (when they are inductive, and soundness),
//! [`annotation`] and [`candidates`] (the search for them), and [`limits`] (that what is solved can be stored).
#![tactic(auto)]

pub mod annotation;
pub mod candidates;
pub mod certificates;
pub mod examples;
pub mod laws;
pub mod limits;
mod parts;

pub use parts::{Attempt, Trial};
