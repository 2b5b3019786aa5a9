//! The core of the claims: jobs and what their answers mean, claims that must be spent, and the log of events. What a log means, and
//! what holds after every legal one, stands in `claim_laws`; nothing here knows of heaps.
#![tactic(auto)]

pub mod event;
pub mod job;
pub mod sizes;

pub use claim_laws::{Meaning, Published, Seen};
pub use event::Event;
pub use job::{Claim, Job, Solved, Tally};
pub use sizes::{has_key_sizes, has_program_sizes};
