//! The world of claims, as data.
use shape_data::answer::{Answer, Key};
use shape_data::program::Program;
use shape_data::{Name, Row};
use std::sync::Arc;

/// What was answered for a component.
#[derive(Drop)]
pub struct Slot {
    /// The names of its procedures, in order.
    pub members: Row<Name>,
    /// The number of the claim.
    pub claim: u64,
    pub key: Arc<Key>,
    pub answer: Arc<Answer>,
}

/// An outstanding claim.
#[derive(Drop)]
pub struct Out {
    pub number: u64,
    pub worker: u64,
    /// The place of the component in the program of the claim's revision.
    pub component: u32,
    pub revision: u64,
    pub key: Arc<Key>,
}

/// Which program is present, what is known of its components, and which claims are outstanding. Contracts read it as a world of the
/// definitions, by `world_value`.
#[derive(Drop)]
pub struct World {
    pub revision: u64,
    pub program: Arc<Program>,
    /// In order of their claims' numbers.
    pub slots: Row<Slot>,
    /// In order of their numbers.
    pub out: Row<Out>,
    /// How many claims were made; they are numbered from 1.
    pub made: u64,
}
