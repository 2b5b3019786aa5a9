//! Annotation of a precondition: the start state comes to node 0, there are turns, and the posts are taken from the exits.
ghost use Rattle.std.specs.Prelude.{◌≡◌, length, All, IfOk, OnOk};
ghost use Rattle.shape_data.specs.WellFormed.{IsSymHeap};
ghost use Rattle.subtraction.specs.Conditions.{IsPostWithinSizes};
ghost use Rattle.solve_laws.specs.Annotation.Annotation.{
  all_done as all_done_of,
  annotate as annotate_of,
  empty_listing as empty_listing_of,
  kept as kept_of,
  started as started_by,
};
ghost use Rattle.solve_laws.specs.Certificates.Conditions.{IsTask};
ghost use Rattle.solve_laws.specs.Certificates.Limits.{analysable};
ghost use Rattle.post_gen.specs.Conditions.{IsListing};
ghost use Rattle.post_gen.specs.InListing.{annotated_by, annotated_of, course_of, listing_in};
ghost use Rattle.certificate_steps.specs.InTask.{task_in};

use crate::listing::{Ended, Listing, empty_listing, state_comes};
use crate::turns::turns;
use certificate_steps::Task;
use certificate_steps::coming::start_at_node;
use certificate_steps::coverings::is_post_covered;
use shape_data::symbolic::{Cert, Post, SymHeap};
use shape_data::{Row, copy_of};
use solve_laws::annotation::Annotated;
use std::alloc::{AllocError, Global};

/// The most turns.
const MOST_TURNS: u32 = 2048;

/// The start state comes to node 0.
fn start(
    alloc: Global,
    task: &Task,
    pre: &SymHeap,
    listing: &mut Listing,
) -> Result<Option<Ended>, AllocError>
    requires task { IsTask (task_in task.now) }
    requires pre { IsSymHeap analysable task.now.structs.now (length task.now.flow.now.params) pre.now }
    requires listing { listing_in listing.old ≡ empty_listing_of (task_in task.now) }
    ensures value { IfOk result (λ ended. course_of ended (listing_in listing.new) ≡ started_by (task_in task.now) pre.now) }
    ensures listing { OnOk result (IsListing (task_in task.now) (listing_in listing.new)) }
{
    match start_at_node(alloc, task, pre)? {
        None => Ok(None),
        Some(state) => state_comes(alloc, task, listing, 0, state),
    }
}

/// The start state comes to node 0, and then there are turns.
fn list_all(
    alloc: Global,
    task: &Task,
    pre: &SymHeap,
    listing: &mut Listing,
) -> Result<Option<Ended>, AllocError>
    requires task { IsTask (task_in task.now) }
    requires pre { IsSymHeap analysable task.now.structs.now (length task.now.flow.now.params) pre.now }
    requires listing { listing_in listing.old ≡ empty_listing_of (task_in task.now) }
    ensures value { IfOk result (λ ended. annotated_of ended (listing_in listing.new) ≡ annotate_of (task_in task.now) pre.now) }
    ensures listing { OnOk result (IsListing (task_in task.now) (listing_in listing.new)) }
{
    if let Some(ended) = start(alloc, task, pre, listing)? {
        return Ok(Some(ended));
    }
    turns(alloc, task, listing, MOST_TURNS)
}

/// The exits that no later kept one covers, in their own order.
fn kept(alloc: Global, exits: &[Post]) -> Result<Row<Post>, AllocError>
    requires { All IsPostWithinSizes exits.now }
    ensures { IfOk result (λ posts. posts ≡ kept_of exits.now) }
{
    let mut posts = Row::new(alloc);
    for place in (0..exits.len()).rev() {
        let post = &exits[place];
        if !is_post_covered(alloc, posts.as_slice(), post)? {
            posts.insert(0, copy_of(post)?)?;
        }
    }
    Ok(posts)
}

/// The posts, and the certificate of all that is listed.
fn all_done(alloc: Global, listing: Listing) -> Result<Annotated, AllocError>
    requires { All IsPostWithinSizes listing.exits }
    ensures { IfOk result (λ made. made ≡ all_done_of (listing_in listing)) }
{
    let posts = kept(alloc, listing.exits.as_slice())?;
    let Listing { nodes, exits, .. } = listing;
    Ok(Annotated::Done {
        posts,
        cert: Cert {
            nodes: Row::from_vec(nodes),
            exits,
        },
    })
}

/// How it ended.
fn annotated(ended: Ended) -> Annotated
    ensures { result ≡ annotated_by ended }
{
    match ended {
        Ended::Fail { fault, line } => Annotated::Fail { fault, line },
        Ended::Spent { what, count } => Annotated::Spent { what, count },
    }
}

/// Annotates a precondition. States are executed strictly, first in first out, from the start state of the procedure; what comes of
/// them is abstracted at the heads of loops and at the exits, left out where a listed state or exit covers it, and else listed.
/// `Done`: no execution fails; the posts, which are the exits without those that a later kept one covers, and the certificate of all
/// that is listed, which is inductive. `Fail`: the fault and the line of the first state whose execution fails. `Spent`: a budget was
/// used up, at this count: a heap has more than 96 parts, a node more than 16 states, there are more than 16 exits (`States` too), or
/// a state still waits after 2,048 turns. The only error is want of memory.
pub fn annotate(alloc: Global, task: &Task, pre: &SymHeap) -> Result<Annotated, AllocError>
    requires task { IsTask (task_in task.now) }
    requires pre { IsSymHeap analysable task.now.structs.now (length task.now.flow.now.params) pre.now }
    ensures { IfOk result (λ made. made ≡ annotate_of (task_in task.now) pre.now) }
{
    let mut listing = empty_listing(alloc, task)?;
    match list_all(alloc, task, pre, &mut listing)? {
        None => all_done(alloc, listing),
        Some(ended) => Ok(annotated(ended)),
    }
}
