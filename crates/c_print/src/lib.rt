//! Prints C: the words of a syntax tree, each with a space behind it, as `c_grammar`'s `specs/Printing` says. What is
//! printed reads back as the same file, up to places (`c_grammar::laws::round_trip`).
#![tactic(auto)]

mod expressions;
mod items;
mod statements;
mod types;
mod words;

pub use items::print;
