//! How states and exits are listed: what comes is left out where a listed one covers it, and there is room for a limited number at each
//! node, and of exits.
ghost use Rattle.std.specs.Prelude.{◌≡◌, ◌<◌, ◌≤◌, [], length, ltb, map, IfOk, OnOk};
ghost use Rattle.solve_laws.specs.Annotation.Annotation.{empty_listing as empty_listing_of};
ghost use Rattle.solve_laws.specs.Annotation.Listing.{
  MOST_PARTS as most_parts,
  exit_comes as exit_comes_of,
  parts_of,
  state_comes as state_comes_of,
  with_exit,
  with_state,
};
ghost use Rattle.solve_laws.specs.Certificates.Conditions.{IsTask, IsTaskPost, IsTaskState};
ghost use Rattle.post_gen.specs.Conditions.{IsListing};
ghost use Rattle.post_gen.specs.InListing.{course_of, listing_in};
ghost use Rattle.certificate_steps.specs.InTask.{task_in};

use certificate_steps::Task;
use certificate_steps::coverings::{is_covered, is_post_covered};
use shape_data::answer::{Budget, Fault};
use shape_data::symbolic::{Post, SymHeap, SymState};
use shape_data::{Row, copy_of};
use std::alloc::{AllocError, Global};
use std::collections::VecDeque;

/// The most parts of a heap, atoms and facts.
const MOST_PARTS: usize = 96;

/// The most states of a node, and the most exits.
const MOST_STATES: usize = 16;

/// A heap has too many parts.
const PARTS_SPENT: Ended = Ended::Spent {
    what: Budget::Parts,
    count: 97,
};

/// There is no room for one more state or exit.
const STATES_SPENT: Ended = Ended::Spent {
    what: Budget::States,
    count: 17,
};

/// What was listed so far.
#[derive(Drop)]
pub struct Listing {
    /// The states of each node.
    pub nodes: Vec<Row<SymState>>,
    pub exits: Row<Post>,
    /// The states whose turn is still to come, each with its node.
    pub queue: VecDeque<(u32, SymState)>,
}

/// How an annotation ends with no posts.
#[derive(Clone, Copy, PartialEq, Eq, Debug)]
pub enum Ended {
    /// The execution of a state fails.
    Fail { fault: Fault, line: u32 },
    /// A budget was used up, at this count.
    Spent { what: Budget, count: u32 },
}

/// A row without states for each node.
fn empty_nodes(alloc: Global, task: &Task) -> Result<Vec<Row<SymState>>, AllocError>
    ensures { IfOk result (λ nodes. nodes.items ≡ map (λ node. []) task.now.flow.now.nodes) }
{
    let mut nodes = Vec::new(alloc);
    for _node in task.flow.nodes.as_slice() {
        nodes.push(Row::new(alloc))?;
    }
    Ok(nodes)
}

/// Nothing is listed.
pub fn empty_listing(alloc: Global, task: &Task) -> Result<Listing, AllocError>
    ensures { IfOk result (λ listing. listing_in listing ≡ empty_listing_of (task_in task.now)) }
{
    Ok(Listing {
        nodes: empty_nodes(alloc, task)?,
        exits: Row::new(alloc),
        queue: VecDeque::new(alloc),
    })
}

/// Whether a heap has too many parts.
fn is_too_large(heap: &SymHeap) -> bool
    requires { parts_of heap.now ≤ 4000 }
    ensures { result ≡ ltb most_parts (parts_of heap.now) }
{
    heap.pure.len() + heap.spatial.len() > MOST_PARTS
}

/// Lists a state at a node, and queues it.
fn list_state(listing: &mut Listing, node: u32, state: SymState) -> Result<(), AllocError>
    requires { node < length listing.old.nodes.items }
    ensures { OnOk result (listing_in listing.new ≡ with_state node state (listing_in listing.old)) }
{
    let again = copy_of(&state)?;
    listing.nodes[node as usize].push(again)?;
    listing.queue.push_back((node, state))?;
    Ok(())
}

/// A state comes to a node. It is left out where a listed state covers it; else it is listed and queued, if it isn't too large and
/// there is room.
pub fn state_comes(
    alloc: Global,
    task: &Task,
    listing: &mut Listing,
    node: u32,
    state: SymState,
) -> Result<Option<Ended>, AllocError>
    requires task { IsTask (task_in task.now) }
    requires listing { IsListing (task_in task.now) (listing_in listing.old) }
    requires node { node < length task.now.flow.now.nodes }
    requires state { IsTaskState (task_in task.now) state }
    ensures value { IfOk result (λ ended. course_of ended (listing_in listing.new) ≡ state_comes_of node state (listing_in listing.old)) }
    ensures listing { OnOk result (IsListing (task_in task.now) (listing_in listing.new)) }
{
    if is_too_large(&state.heap) {
        return Ok(Some(PARTS_SPENT));
    }
    let states = listing.nodes[node as usize].as_slice();
    if is_covered(alloc, states, &state)? {
        return Ok(None);
    }
    if states.len() >= MOST_STATES {
        return Ok(Some(STATES_SPENT));
    }
    list_state(listing, node, state)?;
    Ok(None)
}

/// Lists an exit.
fn list_exit(listing: &mut Listing, post: Post) -> Result<(), AllocError>
    ensures { OnOk result (listing_in listing.new ≡ with_exit post (listing_in listing.old)) }
{
    listing.exits.push(post)?;
    Ok(())
}

/// An exit comes, likewise; it has no turn.
pub fn exit_comes(
    alloc: Global,
    task: &Task,
    listing: &mut Listing,
    post: Post,
) -> Result<Option<Ended>, AllocError>
    requires task { IsTask (task_in task.now) }
    requires listing { IsListing (task_in task.now) (listing_in listing.old) }
    requires post { IsTaskPost (task_in task.now) post }
    ensures value { IfOk result (λ ended. course_of ended (listing_in listing.new) ≡ exit_comes_of post (listing_in listing.old)) }
    ensures listing { OnOk result (IsListing (task_in task.now) (listing_in listing.new)) }
{
    if is_too_large(&post.heap) {
        return Ok(Some(PARTS_SPENT));
    }
    let exits = listing.exits.as_slice();
    if is_post_covered(alloc, exits, &post)? {
        return Ok(None);
    }
    if exits.len() >= MOST_STATES {
        return Ok(Some(STATES_SPENT));
    }
    list_exit(listing, post)?;
    Ok(None)
}
