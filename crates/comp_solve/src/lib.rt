//! Solves a component: candidates of its procedures are searched for and annotated; in a recursive component in rounds, then strictly,
//! and what is then not inductive is dropped. It computes the definition of `solve_laws`, whose laws say that the answer is inductive,
//! over the code of the search, of annotation and of the check of certificates. In [`job`] it is the job of the workers.
#![tactic(auto)]

mod attempts;
pub mod job;
mod passes;
mod rounds;
mod solving;
mod standing;
mod summaries;
mod tables;

pub use solving::solve;
