//! A C file's text and its syntax tree, each from the other: [`read_unit`] reads, and [`print`] writes. What is printed of a
//! file reads back as that file, up to places.
#![tactic(auto)]

mod reading;

pub use c_grammar::tokens::ReadFault;
pub use c_print::print;
pub use reading::read_unit;
