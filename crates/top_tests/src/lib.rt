//! Tests of the whole program over memory. Tests alone: beside the library they would have it proved a second time.
#![tactic(auto)]

#[cfg(test)]
mod tests;
