//! The answers of a program's components over loaded entries, made plainly on one thread, callees first: the first loaded entry with the
//! key, or else solving it, has the answer. It stands on the definitions of `bottom_up`, and is for whoever has no answers of workers
//! that agree with the entries. The laws, in [`laws`]: the entries of a store are right for their keys, and what is known over them can be
//! stored.

mod aims;
mod answers;
mod keys;
pub mod laws;

pub use answers::plain;
pub use comp_solve::job::laws::agreed_are_looked_up;
pub use comp_solve::job::{SolveJob, StoredAnswers};
