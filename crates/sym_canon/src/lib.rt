//! The canonical form of a state, of a post, and of a pair of a missing heap and a state: atoms in the order in which a
//! search from the parameters and the locals comes to them, variables numbered as they come into sight, facts sorted.
//! It stands on the shared code and the laws of `sym_parts`; that the meaning is kept is said in [`laws`].
#![tactic(auto)]

mod facts;
pub mod laws;
mod numbering;
mod pairs;
mod parts;
mod placing;
mod sights;
mod states;

pub use pairs::{canon_pair, without_locals};
pub use parts::Pair;
pub use placing::{is_cell_at, is_segment_from, place_of_cell};
pub use states::{as_state, canon_post, canon_state};
