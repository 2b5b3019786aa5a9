//! Tests of the front end, beside the rows that `front_rows` reads. Tests alone: beside the libraries they would have these proved a second
//! time.
#![tactic(auto)]

#[cfg(test)]
mod c_front_tests;
#[cfg(test)]
mod c_lower_emit_tests;
#[cfg(test)]
mod c_lower_marks_tests;
#[cfg(test)]
mod c_lower_sizes_tests;
#[cfg(test)]
mod c_tokens_tests;
#[cfg(test)]
mod c_types_tests;
#[cfg(test)]
mod project_form_tests;
