//! The commands of a session, read from a source. A line says what is asked for ([`line`]), a line and the bytes behind
//! it are a command, and [`next_command`] takes one command after another, whatever the pieces in which the source gives
//! its bytes. It stands on sources alone; which commands a stream has is defined in `specs/`.
#![tactic(auto)]

pub mod ahead;
pub mod command;
pub mod laws;
pub mod lines;
pub mod names;
pub mod reading;
pub mod session;

pub use command::{Command, Line, Taken};
pub use session::{Commands, next_command};
