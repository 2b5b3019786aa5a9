//! What comes to a node and to an exit of a procedure, and whether what is listed there covers it: code that the search for preconditions,
//! annotation and the checker of certificates share. It stands on the definitions of `solve_laws::certificates`.
#![tactic(auto)]

pub mod coming;
pub mod coverings;

pub use coming::Task;
