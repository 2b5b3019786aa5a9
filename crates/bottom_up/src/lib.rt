//! The summaries of a whole program. Its components are answered one after the other, callees first, each under the key that is made of
//! what was answered for its callees, by the first loaded entry with that key or else by solving it: so `specs/BottomUp` defines it, and
//! where the summaries stand among answers that are at hand is found here. The laws, in [`laws`]: where what is loaded is right for its
//! keys, each spec of each procedure is valid in the program; and where it is what solving gives, nothing but marks differs from an
//! analysis from nothing.
#![tactic(auto)]

pub mod kept;
pub mod laws;
pub mod places;

pub use kept::{summary_of, summary_places};
pub use places::Place;
