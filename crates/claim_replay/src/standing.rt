//! How components stand: what they are due, and by which slot they are settled.
use shape_data::answer::Key;

/// How a component stands in a world.
#[derive(Drop)]
pub struct Standing {
    /// The key that it is due, where all its callees are settled.
    pub due: Option<Key>,
    /// The place of the slot by which it is settled.
    pub settled: Option<usize>,
}
