//! The reply to each command of a session, over the files that are present. The definition, in `specs/Answers`, goes by what the files are:
//! a program, of which each component is answered from the loaded entries or analysed, or refused. It stands on the project, on the
//! analysis of a whole program at a desk ([`plain_answers`]), and on the texts of reports.
#![tactic(auto)]

pub mod known;
pub mod laws;
pub mod plain_answers;
pub mod project_read;
pub mod reply;
pub mod session;
pub mod texts;
pub mod told;

pub use plain_answers::{SolveJob, StoredAnswers, plain};
pub use reply::Reply;
pub use session::Session;
