//! Gates, which are entered between a claim and its solving.
use std::sync::Wait;

/// Is entered with the number of a claim before its key is solved. It may wait, and answers nothing.
pub trait Gate {
    /// Lets the claim pass, at once or later.
    fn enter<R: Wait>(&self, rt: &R, claim: u64);
}

/// A gate that lets every claim pass at once.
#[derive(Clone, Copy)]
pub struct OpenGate;

impl Gate for OpenGate {
    fn enter<R: Wait>(&self, _rt: &R, _claim: u64) {}
}
