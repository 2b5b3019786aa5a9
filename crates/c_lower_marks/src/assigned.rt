//! Which slots the nodes of loops assign.
ghost use Rattle.std.specs.Prelude.{ℕ, false, ◌≡◌, IfOk, map, take, drop, replicate};
ghost use Rattle.c_lower_rules.specs.Marks.{goes_to, assigns, assigned, nodes_of, assigned_in};
ghost use Rattle.c_lower_emit.specs.Seen.{loop_seen};
ghost use Rattle.c_lower_marks.specs.Flagged.{flagged};

use c_lower_emit::loops::Loop;
use shape_data::program::{Cmd, Node};
use std::alloc::{AllocError, Global};

/// The slot that the command assigns, if it assigns one.
fn assigned_slot(cmd: &Cmd) -> Option<u32>
    ensures { (slot : ℕ) → goes_to result slot ≡ assigns cmd.now slot }
{
    match cmd {
        Cmd::Copy { to, .. } => Some(*to),
        Cmd::Arith { to, .. } => Some(*to),
        Cmd::Any { to, .. } => Some(*to),
        Cmd::Load { to, .. } => Some(*to),
        Cmd::Store { .. } => None,
        Cmd::New { to, .. } => Some(*to),
        Cmd::Free { .. } => None,
        Cmd::Call { to, .. } => *to,
        Cmd::Branch { .. } => None,
        Cmd::Return { .. } => None,
    }
}

/// Sets the flag of a slot, if there is a slot and it has a flag.
fn flag_slot(flags: &mut [bool], slot: Option<u32>)
    ensures { flags.new ≡ flagged (goes_to slot) 0 flags.old }
{
    if let Some(slot) = slot {
        let place = slot as usize;
        if place < flags.len() {
            flags[place] = true;
        }
    }
}

/// Sets the flags of the slots that some node assigns.
fn flag_nodes(flags: &mut [bool], nodes: &[Node])
    ensures { flags.new ≡ flagged (assigned nodes.now) 0 flags.old }
{
    for node in nodes {
        flag_slot(flags, assigned_slot(&node.cmd));
    }
}

/// The nodes from a place on.
fn nodes_behind(nodes: &[Node], place: usize) -> &[Node]
    ensures { result.now ≡ drop place nodes.now }
{
    if place < nodes.len() {
        return &nodes[place..];
    }
    &[]
}

/// So many nodes, or all where they are fewer.
fn first_nodes(nodes: &[Node], count: usize) -> &[Node]
    ensures { result.now ≡ take count nodes.now }
{
    if count < nodes.len() {
        return &nodes[..count];
    }
    nodes
}

/// The nodes of a loop, of all nodes.
fn nodes_of<'a>(nodes: &'a [Node], one: &Loop) -> &'a [Node]
    ensures { result.now ≡ nodes_of nodes.now (loop_seen one.now) }
{
    let behind = nodes_behind(nodes, one.head as usize);
    first_nodes(behind, one.past.saturating_sub(one.head) as usize)
}

/// Sets the flags of the slots that a node of some of the loops assigns.
fn flag_loops(flags: &mut [bool], nodes: &[Node], loops: &[&Loop])
    ensures { flags.new ≡ flagged (assigned_in nodes.now (map (λ one. loop_seen one.now) loops.now)) 0 flags.old }
{
    for one in loops {
        flag_nodes(flags, nodes_of(nodes, one));
    }
}

/// A flag for each of so many slots, which says whether a node of some of the loops assigns it.
pub fn assigned_flags(
    alloc: Global,
    nodes: &[Node],
    loops: &[&Loop],
    count: usize,
) -> Result<Vec<bool>, AllocError>
    ensures { IfOk result (λ flags. flags.items
        ≡ flagged (assigned_in nodes.now (map (λ one. loop_seen one.now) loops.now)) 0 (replicate count false)) }
{
    let mut flags = vec![in alloc; false; count]?;
    flag_loops(flags.as_mut_slice(), nodes, loops);
    Ok(flags)
}
