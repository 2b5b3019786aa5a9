//! That what a book collects of settled components is what is known of them. Where each entry has the answer that its key is given, be it
//! loaded or solved, the slots hold the very keys and answers that answering every component anew, callees first, would give. The law, in
//! [`laws`], stands on how components stand (`claim_laws`) and on what is known of a program (`bottom_up`); no code runs here.
#![tactic(auto)]

pub mod laws;
