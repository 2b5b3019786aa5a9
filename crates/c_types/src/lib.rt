//! Types of C programs: whether a program keeps the typing rules of `c_types_rules`, and then which types its expressions have.
#![tactic(auto)]

mod checker;
mod defs;
mod fault;
pub mod fields;
mod heads;
mod items;
pub mod laws;
mod names;
mod structures;
mod typed;

pub use checker::{check, kinds_of};
pub use fault::UnitsFault;
pub use typed::{TypeFault, Typed};
