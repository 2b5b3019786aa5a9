//! Loops among the nodes of a procedure.

use crate::visible_slots::VisibleSlots;

/// A loop of a procedure's nodes: the place of its head, which is the first of its nodes, the place behind the last of them, and the
/// slots of the variables in scope at its head.
#[derive(Drop)]
pub struct Loop {
    pub head: u32,
    pub past: u32,
    pub visible: VisibleSlots,
}
