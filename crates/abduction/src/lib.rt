//! Finding a wanted symbolic heap in another, parts of which may be missing (abduction): what is missing, what is left over and
//! what the wanted heap's variables stand for. It stands on the match of crate `matching`; the call answers the value of the
//! definition in `sym_matching`, and says what that means for heaps.
#![tactic(auto)]

mod abducing;

pub use abducing::{biabduce, biabduce_avoiding};
