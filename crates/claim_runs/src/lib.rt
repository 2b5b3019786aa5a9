//! The book beside the world: a long run of calls drawn from a fixed seed, and after each call what the book answers is what the
//! world of its log holds, computed straight by the definitions. Tests alone, beside `claim_tests` for their size.
#![tactic(auto)]

#[cfg(test)]
mod draws;
#[cfg(test)]
mod tests;
