//! Texts of symbolic heaps and of posts, written and read. The text of a heap over given parameters and structures is a function
//! of the heap (`specs/Text`), which is written for each heap whose atoms have the shape of their structures (`specs/Shape`); the grammar
//! is the set of these texts, for the well-formed heaps of at most 4,000 parts, and for posts with their result (`specs/Grammar`). A text
//! of the grammar is read as the one heap that has it, and any other is refused at the length of its longest prefix that begins one. It
//! stands on `shape_data`, and prints numbers with `itoa`.
#![tactic(auto)]

mod cells;
mod exps;
mod fault;
mod heaps;
pub mod laws;
mod leads;
mod numbers;
mod parts;
mod printing;
mod reading;
mod starts;
mod words;

pub use fault::BadSpec;
pub use heaps::{read_heap, read_post};
pub use printing::{print_heap, print_post, push_decimal, push_exp, push_heap, push_post};
