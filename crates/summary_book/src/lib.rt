//! The book of claims: the present program, a slot for each component that was answered, the outstanding claims and the log of all
//! that was done. Contracts see a book as its log and the marks of the components that are settled; its type keeps that the
//! log is legal, and each call appends its events and answers what the world after the log says. Nothing here knows of heaps.
#![tactic(auto)]

pub mod aims;
pub mod answers;
pub mod book;
mod handing;
mod known_callees;
mod meeting;
mod outstanding;
mod parts;
mod places;
mod publishing;
pub mod rows;
mod settled;
mod turns;

pub use aims::Aim;
pub use answers::{Met, Next};
pub use book::Book;
pub use claim_core::{Claim, Event, Job, Meaning, Published, Seen, Solved, Tally};
