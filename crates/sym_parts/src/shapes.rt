//! Laws that show the definitions of `shape_data` usable, each the contract of a public function that does
//! nothing: sums of heaps, what symbolic heaps mean, the frame law, a step is never stuck, runs,
//! procedures that return at once, and worked examples by computation. The lemmas in `proofs/ShapesLemmas/` are there for the
//! crates above.

pub mod examples;
pub mod frames;
pub mod heaps;
pub mod meaning;
pub mod refutations;
pub mod returns;
pub mod runs;
pub mod steps;
pub mod structures;
