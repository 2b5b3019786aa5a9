//! The parser of the C subset (C11 6.5 to 6.9). Its call `parse` gives the syntax tree that the words of a text spell, or the
//! place where they are refused. Each function below it gives what the reader of its name gives in c_grammar's
//! `specs/Readers`; only statements within statements recurse, a level at a time.
#![tactic(auto)]

mod file;
mod flat_stmts;
mod heads;
mod items;
mod locals;
mod simple;
mod stmts;

pub use c_parse_exprs::SyntaxFault;
pub use file::parse;
