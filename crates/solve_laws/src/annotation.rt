//! Annotation of a precondition, as a definition with its laws: the states that come to the nodes of a procedure are listed, first in
//! first out, until nothing new comes; the posts are taken from the exits, and all that is listed is the certificate. No code runs
//! here. It stands on what [`certificates`](crate::certificates) says of how states come to a node and of coverings; its law, in
//! [`laws`], is that what it gives is inductive.

pub mod examples;
pub mod laws;
mod parts;

pub use parts::Annotated;
