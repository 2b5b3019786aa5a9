//! Symbolic execution of a command as far as it neither branches nor calls, over a pair of a missing heap and a state: values are put into
//! slots or returned, and cells exposed (unfolded from a segment or, in the search, added to the missing heap), read, written, made and
//! freed. Beside these, what all commands share: forms of pairs, new variables, facts. Whatever has a definition in `exec_laws` answers its
//! value. Branches, calls and the execution of a node as a whole are in `sym_exec`.
#![tactic(auto)]

pub mod cells;
mod exposing;
pub mod pairs;
pub mod setting;
pub mod values;
