//! Laws of symbolic heaps, each the contract of a public function that does nothing; no code runs here. They
//! stand on the laws of sums, chains and meanings in [`shapes`](crate::shapes). The crates above
//! cite the lemmas in `proofs/LawsLemmas/`.

pub mod cells;
pub mod instances;
pub mod junk;
pub mod mapping;
pub mod order;
pub mod segments;
