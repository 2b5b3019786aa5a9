//! The data types of the analyser and what they mean: names, programs in flow form, symbolic heaps, keys and answers, and the
//! configurations of the concrete machine; heaps, the machine, symbolic heaps and valid specs as definitions (`specs/`), and the tests of
//! well-formedness. It stands on std alone. Each type that is compared or copied has the law that `==` and `clone` are exact ([`Exact`]),
//! which is what makes "the same key" and "the same answer" mean what they say.
#![tactic(auto)]

pub mod answer;
pub mod exact;
mod flows;
mod heaps;
pub mod machine;
pub mod name;
pub mod names;
pub mod program;
pub mod row;
pub mod symbolic;
pub mod well_formed;

pub use exact::{Exact, copy_of, is_same, is_same_shared, share};
pub use flows::{are_params, are_structs, struct_of};
pub use name::Name;
pub use row::Row;
pub use well_formed::{well_formed_answer, well_formed_key, well_formed_program};
