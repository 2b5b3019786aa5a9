//! The one call that does everything: it reads commands, analyses the files that they put, writes the replies, feeds reporters, and saves
//! what is known where it is asked to.
#![tactic(auto)]

pub mod laws;
mod leading;
mod opening;
mod outcome;
mod session;
mod status;
mod turns;

pub use loaded_answers::{LoadedAnswers, agrees};
pub use outcome::Outcome;
pub use session::run;
pub use session_replies::{StoredAnswers, plain};
pub use status::Status;
