//! Why certificates are sound; no code runs here. A certificate lists symbolic states for each node of a procedure. Where each of
//! them leads to listed ones again, and calls use specs that are valid or are claimed by certificates themselves, all that is
//! claimed is valid, through loops, calls under frames, and recursion. States are executed, abstracted and compared in the crates above:
//! here nothing is said of that but which locals and heaps meet a state, and where a command leads from them.
//!
//! The definitions in `specs/` are read in this order: `Commands` (what a command does), `Leading` (where states lead), `Stacks` (a call
//! on top of frames that wait), `Procedures`, `Certificates` (the law of claims), `Answers` (soundness of a key's answer), `BottomUp`,
//! `Beside`.
#![tactic(auto)]

pub mod answers;
pub mod certificates;
pub mod examples;
pub mod frames;
pub mod leading;
pub mod procedures;
pub mod stacks;
