//! Tests of certificates, candidates, annotation, and solving. Tests alone: beside the libraries they would have these proved a second
//! time.
#![tactic(auto)]

#[cfg(test)]
mod comp_solve_tests;
#[cfg(test)]
mod post_gen_tests;
#[cfg(test)]
mod pre_gen_tests;
#[cfg(test)]
mod solve_job_tests;
#[cfg(test)]
mod texts;
#[cfg(test)]
mod told;
#[cfg(test)]
mod triple_check_tests;
