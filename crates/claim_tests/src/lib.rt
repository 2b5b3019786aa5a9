//! Tests of components, keys, claims, and the book. Tests alone: beside the libraries they would have these proved a second time.
#![tactic(auto)]

#[cfg(test)]
mod call_components_tests;
#[cfg(test)]
mod claim_core_tests;
#[cfg(test)]
mod claim_replay_tests;
#[cfg(test)]
mod composed_keys_tests;
#[cfg(test)]
mod summary_book_tests;
