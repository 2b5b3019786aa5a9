//! Taking a symbolic heap out of another (subtraction), and whether a state or a post covers another. It stands on the match of
//! crate `matching`, in which nothing may be missing; each call answers the value of the definition in `sym_matching`, and
//! what that means for heaps is said there.
#![tactic(auto)]

mod covering;
pub mod laws;
pub mod sizes;
mod subtracting;

pub use covering::{covers_post, covers_state};
pub use subtracting::{subtract, subtract_avoiding};
