//! What a book keeps in rows.
use composed_keys::{Component, Structures};
use shape_data::program::Program;
use std::sync::Arc;

/// The present program, with what is made of it once.
#[derive(Drop)]
pub struct Parts {
    pub program: Arc<Program>,
    pub structures: Structures,
    /// Its components, callees first.
    pub components: Vec<Component>,
    /// For each component the numbers of the components that it calls.
    pub calls: Vec<Vec<u32>>,
}

/// The slot of a component.
#[derive(Clone, Copy)]
pub struct SlotRow {
    /// The number of its claim.
    pub claim: u64,
    /// The place in the log where the component was claimed, with the key.
    pub claimed: usize,
    /// The place in the log where the answer was published.
    pub published: usize,
    /// Whether the key is the component's over the key's own callees.
    pub fits: bool,
}

/// An outstanding claim.
#[derive(Clone, Copy)]
pub struct OutRow {
    /// Its number.
    pub number: u64,
    /// The place in the log where the component was claimed, with the key.
    pub claimed: usize,
    /// The number of the component with the key's members in the present program, if there is one.
    pub here: Option<u32>,
    /// Whether the key is that component's over the key's own callees.
    pub fits: bool,
}
