//! Checks certificates: whether an answer is inductive for its key, and where it is not. Nothing is searched for; each state of a
//! certificate is executed once, and what comes of it compared with the certificate. It stands on the definitions of
//! `solve_laws::certificates`, whose law says that the specs of what passes are valid, and on the code of execution and of
//! `certificate_steps`.
#![tactic(auto)]

mod answers;
mod gaps;

pub use answers::{check_answer, first_gap, table_of};
pub use certificate_steps::Task;
pub use gaps::spec_gap;
pub use solve_laws::certificates::{Gap, SpecGap};
