//! Reporters: whoever is told of each summary, one entry after another. A reporter says which entries it has taken, where it tells
//! them, and counts its faults; one that asks to stop, or refuses an entry, is offered no more. It stands on the data alone, and on
//! the counts of faults of `io_ports`.
#![tactic(auto)]

pub mod count;
pub mod feeding;
pub mod memory;
pub mod reporter;
pub mod shared;

pub use count::CountReporter;
pub use feeding::feed_all;
pub use memory::MemoryReporter;
pub use reporter::{Entry, Go, Reporter, TakeFault};
pub use shared::SharedSummary;
