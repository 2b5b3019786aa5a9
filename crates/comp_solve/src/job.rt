//! The job of the analysis. It answers a key with the answer of the first loaded entry that has it, else by solving it
//! (`specs/Job/Solves`). The answer is within the limits of a store. What is said of claims over any job holds so of the analysis.

pub mod laws;
mod solve_job;
mod stored;

pub use solve_job::SolveJob;
pub use stored::StoredAnswers;
