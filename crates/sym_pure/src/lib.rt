//! The pure part of the symbolic core: the normal form of a state, whether a state is normal, and what is known to
//! differ. It stands on the shared code and the laws of `sym_parts`; that the meaning is kept, and
//! what a form is, is said by the laws in [`laws`].
#![tactic(auto)]

mod contradictions;
mod emptying;
mod equations;
pub mod laws;
mod normality;
mod normals;
mod parts;
mod redundancy;
mod solving;
mod sources;

pub use equations::read_through;
pub use normality::{is_normal, is_normal_heap};
pub use normals::normal;
pub use parts::{Normal, Settled, Solved};
pub use redundancy::has_junk;
pub use sources::differs;
