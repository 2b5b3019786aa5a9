//! Reads types, declarators and expressions of the C subset (C11 6.5, 6.7), and the words that they stand in: the class of each
//! token (`classes`), a cursor over the words that are left (`Words`), and the smallest readers. Contracts see a cursor as the
//! list of words that are left; each function gives what the reader of its name gives in c_grammar's `specs/Readers`, by the
//! definition `Reads`. `c_parse` makes the parser of statements and items of it.
#![tactic(auto)]

mod classify;
pub mod exprs;
mod fault;
pub mod parts;
pub mod types;
mod words;

pub use c_grammar::Class;
pub use classify::classes;
pub use fault::SyntaxFault;
pub use words::{Words, is_open};
