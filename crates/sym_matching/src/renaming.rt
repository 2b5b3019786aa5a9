//! Renaming apart: numbers for the variables of a callee's spec, or of a state that is to cover another, that are free in the caller or
//! the other state; and a spec's posts read in the caller. Calls in symbolic execution and coverings stand on it. What is
//! renamed so means the same, by [`laws`].

mod apart;
mod calls;
mod coverings;
pub mod laws;
pub mod new_variables;
mod parts;
pub mod reading;
pub mod sizes;
pub mod variables;

pub use apart::numbers_apart;
pub use calls::{called_pre, post_in_caller};
pub use coverings::{existentials, state_apart};
pub use parts::{CalledPre, Numbers};
pub use reading::{Bound, bound_exp};
