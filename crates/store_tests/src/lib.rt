//! Tests of the stored forms of keys and answers, and of stores. Tests alone: beside the library they would have it proved a second time.
#![tactic(auto)]

#[cfg(test)]
mod summary_json_tests;
#[cfg(test)]
mod summary_store_tests;
