//! A world with the components of its program.
use crate::world::World;
use composed_keys::{Component, Structures};

/// A world, the components of its program, callees first, and the program's structures by their places. That they belong together is
/// `IsWhole`, which [`first`](crate::first) gives and [`apply`](crate::apply) keeps.
#[derive(Drop)]
pub struct Present {
    pub world: World,
    pub rows: Vec<Component>,
    pub structures: Structures,
}
