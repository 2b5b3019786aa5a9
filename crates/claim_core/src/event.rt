//! The events of a log.
use shape_data::answer::{Answer, Key};
use shape_data::program::Program;
use std::sync::Arc;

/// What was done with the book. Contracts read it as an event of the definitions, by `event_of`.
#[derive(Drop)]
pub enum Event {
    /// Another program is present, and the revision has the next number.
    Revise {
        revision: u64,
        program: Arc<Program>,
    },
    /// A component was handed out under its key. Claims are numbered from 1.
    Claim {
        number: u64,
        worker: u64,
        component: u32,
        key: Arc<Key>,
    },
    /// An answer came to a claim; `kept` says whether it became its component's.
    Publish {
        number: u64,
        answer: Arc<Answer>,
        kept: bool,
    },
    /// A claim ended without an answer.
    GiveBack {
        number: u64,
    },
}
