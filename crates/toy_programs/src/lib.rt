//! Small programs for tests, with their keys and answers, made of plain values. The tests of components, keys, claims, the book and
//! the pool stand on it; nothing of the program does.
#![tactic(auto)]

pub mod answers;
pub mod keys;
pub mod programs;
