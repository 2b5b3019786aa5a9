//! Lowering: a program that keeps the typing rules as a program in flow form. It puts whole bodies together (parameters, statements,
//! what closes them, and a first node where a run begins), and refuses what is too large for that form. It stands on the definitions
//! of `c_lower_rules`.
#![tactic(auto)]

pub mod body;
mod building;
mod closing;
mod emitted_body;
mod fault;
mod fields;
mod items;
mod locals;
mod lowering;
mod procs;
mod sizes;
mod slots;

pub use body::{Body, lower_body};
pub use fault::LowerFault;
pub use lowering::lower;
