//! Tests of the data that all share, and of its JSON form. Tests alone: beside the libraries they would have these proved a second time.
#![tactic(auto)]

#[cfg(test)]
mod exact_tests;
#[cfg(test)]
mod flow_json_tests;
#[cfg(test)]
mod shape_data_tests;
