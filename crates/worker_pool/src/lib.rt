//! Workers beside a leader, over one book of claims under a lock. A leader makes programs present (`start`) and asks for the entries of
//! an aim (`settle`); it and the workers claim, solve and publish. The type of what the lock holds keeps that the book's log is legal
//! and that two ledgers count its Publish events: the sum of all threads' solves is their number when all have joined, and the leader
//! has seen no more of them than there are.
#![tactic(auto)]

mod counted;
pub mod desk;
mod ended;
pub mod entries;
mod locked;
pub mod pool;
pub mod shares;
mod turn;

pub use desk::Desk;
pub use io_ports::{Gate, OpenGate};
pub use pool::{Joined, Leader, run_pool};
pub use shares::Hands;
