//! Code of the flow form as it is emitted: nodes whose ways on may still be open, and the temporaries that they use. What is emitted
//! is a piece of `c_lower_rules`'s definitions; how pieces are put together is said there, and proved here once for each way.
#![tactic(auto)]

pub mod draft_list;
pub mod drafts;
pub mod loops;
pub mod output;
pub mod temps;
mod type_numbers;
pub mod uses;
pub mod visible_slots;
