//! Abstraction of symbolic states at loop heads and at exits, which makes the states of a loop finitely many. It stands on the
//! definitions and laws of `abstraction_laws`: each call answers the definition's value, and that the value is weaker than what
//! was given is said there.
#![tactic(auto)]

mod forgetting;
mod heads;
mod joining;
mod losing;
mod occurrences;
mod pairs;
mod reaching;
mod repeating;
mod rooms;

pub use heads::{abstract_exit, abstract_head, post_of};
pub use pairs::{abstract_pair, abstract_pre};
pub use rooms::{have_few_fields, is_within_room};
