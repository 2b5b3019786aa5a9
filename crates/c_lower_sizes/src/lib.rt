//! How many nodes the code of a body has, and how many locals it declares, from its syntax tree alone. It stands on the
//! definitions of `c_lower_rules`; its laws say that these are the nodes and locals of the flow form.
#![tactic(auto)]

mod counts;
mod exprs;
pub mod laws;
mod locals;
mod simples;
mod stmts;

pub use counts::MOST_COUNTED;
pub use locals::local_count;
pub use stmts::body_size;
