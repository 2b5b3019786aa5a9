//! Marks, and nodes with them.
ghost use Rattle.std.specs.Prelude.{◌≡◌, ◌<◌, ◌≤◌, ◌&&◌, false, not, IfOk, map, length, get_or};
ghost use Rattle.c_lower_rules.specs.Marks.{is_int, is_listed, assigned_in, slots_that, loops_at, mark_by, marked};
ghost use Rattle.c_lower_emit.specs.Seen.{loop_seen};
ghost use Rattle.c_lower_marks.specs.Placed.{marks_from, with_marks};

use crate::assigned::assigned_flags;
use c_lower_emit::loops::Loop;
use c_lower_emit::visible_slots::VisibleSlots;
use shape_data::Row;
use shape_data::program::{HeadMark, Node, Ty};
use std::alloc::{AllocError, Global};

/// Whether the type is int.
fn is_int(kind: &Ty) -> bool
    ensures { result ≡ is_int kind.now }
{
    match kind {
        Ty::Int => true,
        Ty::Ptr(_) => false,
        Ty::Void => false,
    }
}

/// Whether the type is int and the flag of the slot is set.
fn is_flagged_int(flags: &[bool], slot: usize, kind: &Ty) -> bool
    requires { slot < length flags.now }
    ensures { result ≡ (is_int kind.now && get_or flags.now slot false) }
{
    is_int(kind) && flags[slot]
}

/// The int slots that a node of some of the loops assigns.
fn ints(
    alloc: Global,
    slots: &[Ty],
    nodes: &[Node],
    loops: &[&Loop],
) -> Result<Row<u32>, AllocError>
    requires { length slots.now < 4294967296 }
    ensures { IfOk result (λ ints. ints
        ≡ slots_that (λ slot kind. is_int kind && assigned_in nodes.now (map (λ one. loop_seen one.now) loops.now) slot) 0 slots.now) }
{
    let flags = assigned_flags(alloc, nodes, loops, slots.len())?;
    let mut ints = Vec::new(alloc);
    for (slot, kind) in slots.iter().enumerate() {
        if is_flagged_int(flags.as_slice(), slot, kind) {
            ints.push(slot as u32)?;
        }
    }
    Ok(Row::from_vec(ints))
}

/// The slots that hold no variable in scope.
fn dead(alloc: Global, slots: &[Ty], visible: &VisibleSlots) -> Result<Row<u32>, AllocError>
    requires { length slots.now < 4294967296 }
    ensures { IfOk result (λ dead. dead ≡ slots_that (λ slot kind. not (is_listed visible.now slot)) 0 slots.now) }
{
    let mut dead = Vec::new(alloc);
    for (slot, _kind) in slots.iter().enumerate() {
        if !visible.contains(slot as u32) {
            dead.push(slot as u32)?;
        }
    }
    Ok(Row::from_vec(dead))
}

/// The loops that have their head at the place.
fn loops_at<'a>(alloc: Global, loops: &'a [Loop], place: usize) -> Result<Vec<&'a Loop>, AllocError>
    ensures { IfOk result (λ found. map (λ one. loop_seen one.now) found.items ≡ loops_at place (map loop_seen loops.now)) }
{
    let mut found = Vec::new(alloc);
    for one in loops {
        if one.head as usize == place {
            found.push(one)?;
        }
    }
    Ok(found)
}

/// The mark that the loops that have their head at a node give it, if there are any.
fn mark_by(
    alloc: Global,
    slots: &[Ty],
    nodes: &[Node],
    loops: &[&Loop],
) -> Result<Option<HeadMark>, AllocError>
    requires { length slots.now < 4294967296 }
    ensures { IfOk result (λ mark. mark ≡ mark_by slots.now nodes.now (map (λ one. loop_seen one.now) loops.now)) }
{
    match loops {
        [] => Ok(None),
        [first, ..] => Ok(Some(HeadMark {
            ints: ints(alloc, slots, nodes, loops)?,
            dead: dead(alloc, slots, &first.visible)?,
        })),
    }
}

/// The mark of the place, if it is the head of a loop.
fn mark_at(
    alloc: Global,
    slots: &[Ty],
    nodes: &[Node],
    loops: &[Loop],
    place: usize,
) -> Result<Option<HeadMark>, AllocError>
    requires { length slots.now < 4294967296 }
    ensures { IfOk result (λ mark. mark ≡ mark_by slots.now nodes.now (loops_at place (map loop_seen loops.now))) }
{
    let found = loops_at(alloc, loops, place)?;
    mark_by(alloc, slots, nodes, found.as_slice())
}

/// The mark of each node's place.
fn marks(
    alloc: Global,
    slots: &[Ty],
    nodes: &[Node],
    loops: &[Loop],
) -> Result<Vec<Option<HeadMark>>, AllocError>
    requires { length slots.now < 4294967296 }
    ensures { IfOk result (λ marks. marks.items ≡ marks_from slots.now nodes.now (map loop_seen loops.now) 0 nodes.now) }
{
    let mut marks = Vec::new(alloc);
    for (place, _node) in nodes.iter().enumerate() {
        marks.push(mark_at(alloc, slots, nodes, loops, place)?)?;
    }
    Ok(marks)
}

/// The nodes with these marks, one for each.
fn with_marks(mut nodes: Vec<Node>, marks: Vec<Option<HeadMark>>) -> Vec<Node>
    requires { length marks.items ≤ length nodes.items }
    ensures { result.items ≡ with_marks marks.items nodes.items }
{
    let mut place = 0;
    for mark in marks {
        nodes[place].head = mark;
        place += 1;
    }
    nodes
}

/// The nodes of a procedure with the marks of loop heads. `slots` are the types of its slots; the loops may come in any order, and may
/// share a head. A node that is the head of no loop gets no mark, whatever mark it had.
///
/// # Errors
///
/// Want of memory.
pub fn mark(
    alloc: Global,
    slots: &[Ty],
    loops: &[Loop],
    nodes: Vec<Node>,
) -> Result<Vec<Node>, AllocError>
    requires countable { length slots.now < 4294967296 }
    ensures { IfOk result (λ out. out.items ≡ marked slots.now (map loop_seen loops.now) nodes.items) }
{
    let marks = marks(alloc, slots, nodes.as_slice(), loops)?;
    Ok(with_marks(nodes, marks))
}
