//! Answers that were loaded from a store, found by their keys; and whether entries agree with them. What is found is defined in
//! `specs/Lookup`: the answer of the first entry with the key. It knows nothing of where the entries come from.
#![tactic(auto)]

mod agreeing;
mod answers;
mod keys;

pub use agreeing::agrees;
pub use answers::LoadedAnswers;
