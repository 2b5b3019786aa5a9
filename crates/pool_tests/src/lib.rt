//! Tests of the worker pool over a toy job. Tests alone: beside the libraries they would have these proved a second time.
#![tactic(auto)]

#[cfg(test)]
mod worker_pool_tests;
