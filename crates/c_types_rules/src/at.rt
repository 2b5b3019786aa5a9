//! Places in a program of several files.
use c_grammar::tokens::Refusal;

/// A refusal in one of several files. The unit is the file's number, from 0.
#[derive(Clone, Copy, Debug)]
pub struct At {
    pub unit: u32,
    pub refusal: Refusal,
}
