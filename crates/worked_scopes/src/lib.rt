//! What the texts of worked rows are over, parameters and structures that are made of texts themselves, and the heaps, posts and states
//! of such texts. It stands on `sym_text`, which reads them.
#![tactic(auto)]

pub mod names;
mod scope;
pub mod structures;

pub use scope::Scope;
