//! Tests of the machine, of what symbolic crates share, of renamings, and of texts. Tests alone: beside the libraries they would have these
//! proved a second time.
#![tactic(auto)]

#[cfg(test)]
mod heap_run_tests;
#[cfg(test)]
mod report_text_tests;
#[cfg(test)]
mod sym_parts_tests;
#[cfg(test)]
mod sym_renaming_tests;
#[cfg(test)]
mod sym_text_tests;
