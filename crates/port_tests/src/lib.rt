//! Tests of ports and reporters, of the commands of a session, and of generated files. Tests alone: beside the libraries they would have
//! these proved a second time.
#![tactic(auto)]

#[cfg(test)]
mod io_ports_tests;
#[cfg(test)]
mod keepers_tests;
#[cfg(test)]
mod reporters_tests;
#[cfg(test)]
mod session_generator_tests;
#[cfg(test)]
mod session_lines_tests;
