//! What a call of the program answers.
use crate::status::Status;
use claim_core::Event;
use reporters::Reporter;

/// How it ended, what was done for it, and the reporters that stay.
#[derive(Drop)]
pub struct Outcome {
    /// How it ended.
    pub status: Status,
    /// Each program that was met, each claim of a component and its end, in order.
    pub log: Vec<Event>,
    /// How many answers were published.
    pub solves: u64,
    /// Those of the reporters that want more, in their order.
    pub reporters: Vec<Box<dyn Reporter + Send>>,
}
