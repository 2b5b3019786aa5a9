//! Preconditions that a procedure may have: pairs of a missing heap and a state are executed from the empty missing heap, first in
//! first out, and the missing heap at each exit is a candidate (bi-abduction: Calcagno, Distefano, O'Hearn and Yang, JACM 58(6), 2011).
//! It stands on the definitions of `solve_laws::candidates`, and on the code of execution, of abstraction and of the forms. A candidate
//! is not claimed to be safe: each is executed again, without abduction.
#![tactic(auto)]

mod coming;
mod searching;
mod turning;

pub use solve_laws::candidates::laws::candidates_are_well_formed;
pub use solve_laws::candidates::{Dropped, Found};
pub use turning::candidates;
