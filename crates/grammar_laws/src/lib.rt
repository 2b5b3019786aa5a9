//! Grammars in extended Backus-Naur form that are read from the left with one word of lookahead (LL(1)): what they
//! derive, how they are read, and that the reading is exact, within so many levels of nesting. Laws alone, over numbered
//! classes of words; no code that runs. The lemmas in `proofs/` are there for the crates above.
#![tactic(auto)]

pub mod laws;
