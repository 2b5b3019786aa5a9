//! The text of a report: the block of a procedure, whatever its summary, the total line, and both for a whole program. The texts
//! are defined in `specs/Report`; those of symbolic heaps are `sym_text`'s.
#![tactic(auto)]

pub mod blocks;
pub mod laws;
pub mod reasons;
pub mod reports;
pub mod summed;
pub mod totals;

pub use blocks::{block, push_block};
pub use reports::push_report;
pub use summed::HasSummary;
pub use sym_text::push_decimal;
pub use totals::{count_none, push_total, total};
