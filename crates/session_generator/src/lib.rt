//! The generated file of a number: so many procedures over one list structure, which read a cell, walk a list, or call
//! the procedure two before. It is what the command `gen` puts, and a ready-made input for tests of size; what it is stands
//! in `specs/`.
#![tactic(auto)]

pub mod lines;

pub use lines::generate;
