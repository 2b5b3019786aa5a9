//! What the symbolic crates share: tests of expressions, the addresses of cells, whether a variable occurs, and a
//! function used on each expression of an atom, a fact, a heap, a state. Copies are `shape_data::copy_of`. The laws on which
//! those crates stand are in two rooms: [`shapes`], of the definitions of `shape_data`, and [`laws`], of symbolic heaps.
#![tactic(auto)]

pub mod addresses;
pub mod expressions;
pub mod laws;
pub mod mapping;
pub mod occurs;
pub mod shapes;

pub use addresses::{cell_address, cell_addresses, has_cell_at};
pub use expressions::{has_double, is_among, is_same_exp};
pub use mapping::{
    Mapping, map_atom, map_atoms, map_exps, map_fact, map_facts, map_heap, map_post, map_state,
};
pub use occurs::{
    is_one_of, occurs_in, occurs_in_atom, occurs_in_exp, occurs_in_exps, occurs_in_fact,
};
