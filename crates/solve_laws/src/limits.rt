//! That what is solved is within the limits of a store: at most 96 parts in a heap, eight specs, sixteen states at a node, and
//! variables `$n` and `?n` with n at most 32,768. No code runs here. Execution and abstraction make no logical variable, and the
//! canonical form gives the variables of a state the first numbers; so a small program's states have small numbers. The laws, in
//! [`laws`], carry that through annotation, the search for candidates and solving.

pub mod laws;
