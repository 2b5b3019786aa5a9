//! The grammar of the C subset: syntax trees, which words each spells, and the laws of that grammar. No code runs but that of
//! [`tokens`], which cuts a text into the words of the grammar.
#![tactic(auto)]

mod class;
pub mod laws;
pub mod tokens;

pub use class::Class;
