//! Turns: the first state of the queue is executed, and what comes of it is abstracted and comes to its node or to the exits.
ghost use Rattle.std.specs.Prelude.{◌≡◌, ◌<◌, length, All, IfOk, OnOk};
ghost use Rattle.solve_laws.specs.Annotation.Annotation.{
  after_step as after_step_of,
  post_comes as post_comes_of,
  result_comes as result_comes_of,
  turn_of as turn_by,
  turns as turns_of,
};
ghost use Rattle.solve_laws.specs.Annotation.Listing.{all_come};
ghost use Rattle.solve_laws.specs.Certificates.Conditions.{
  AreNexts,
  GoesOnWithin,
  IsGivenState,
  IsGivenStep,
  IsTask,
  IsTaskPost,
  IsTaskState,
};
ghost use Rattle.post_gen.specs.Conditions.{AreWithin, IsListing};
ghost use Rattle.post_gen.specs.InListing.{annotated_of, course_of, listing_in};
ghost use Rattle.certificate_steps.specs.InTask.{task_in};

use crate::listing::{Ended, Listing, exit_comes, state_comes};
use certificate_steps::Task;
use certificate_steps::coming::{at_exit, at_node};
use exec_laws::Step;
use shape_data::answer::Budget;
use shape_data::symbolic::{Post, SymState};
use std::alloc::{AllocError, Global};
use sym_exec::exec;

/// A state that an execution gave is abstracted, and comes to its node.
fn result_comes(
    alloc: Global,
    task: &Task,
    listing: &mut Listing,
    node: u32,
    state: &SymState,
) -> Result<Option<Ended>, AllocError>
    requires task { IsTask (task_in task.now) }
    requires listing { IsListing (task_in task.now) (listing_in listing.old) }
    requires node { node < length task.now.flow.now.nodes }
    requires state { IsTaskState (task_in task.now) state.now }
    ensures value { IfOk result (λ ended. course_of ended (listing_in listing.new)
        ≡ result_comes_of (task_in task.now) (node, state.now) (listing_in listing.old)) }
    ensures listing { OnOk result (IsListing (task_in task.now) (listing_in listing.new)) }
{
    match at_node(alloc, task, node, state)? {
        None => Ok(None),
        Some(form) => state_comes(alloc, task, listing, node, form),
    }
}

/// States that an execution gave come in order.
fn results_come(
    alloc: Global,
    task: &Task,
    listing: &mut Listing,
    nexts: &[(u32, SymState)],
) -> Result<Option<Ended>, AllocError>
    requires task { IsTask (task_in task.now) }
    requires listing { IsListing (task_in task.now) (listing_in listing.old) }
    requires nexts { AreNexts (task_in task.now) nexts.now }
    requires within { AreWithin (task_in task.now) nexts.now }
    ensures value { IfOk result (λ ended. course_of ended (listing_in listing.new)
        ≡ all_come (result_comes_of (task_in task.now)) nexts.now (listing_in listing.old)) }
    ensures listing { OnOk result (IsListing (task_in task.now) (listing_in listing.new)) }
{
    for next in nexts {
        if let Some(ended) = result_comes(alloc, task, listing, next.0, &next.1)? {
            return Ok(Some(ended));
        }
    }
    Ok(None)
}

/// A post that an execution gave is abstracted, and comes to the exits.
fn post_comes(
    alloc: Global,
    task: &Task,
    listing: &mut Listing,
    post: &Post,
) -> Result<Option<Ended>, AllocError>
    requires task { IsTask (task_in task.now) }
    requires listing { IsListing (task_in task.now) (listing_in listing.old) }
    requires post { IsTaskPost (task_in task.now) post.now }
    ensures value { IfOk result (λ ended. course_of ended (listing_in listing.new)
        ≡ post_comes_of (task_in task.now) post.now (listing_in listing.old)) }
    ensures listing { OnOk result (IsListing (task_in task.now) (listing_in listing.new)) }
{
    match at_exit(alloc, task, post)? {
        None => Ok(None),
        Some(form) => exit_comes(alloc, task, listing, form),
    }
}

/// Posts that an execution gave come in order.
fn posts_come(
    alloc: Global,
    task: &Task,
    listing: &mut Listing,
    posts: &[Post],
) -> Result<Option<Ended>, AllocError>
    requires task { IsTask (task_in task.now) }
    requires listing { IsListing (task_in task.now) (listing_in listing.old) }
    requires posts { All (IsTaskPost (task_in task.now)) posts.now }
    ensures value { IfOk result (λ ended. course_of ended (listing_in listing.new)
        ≡ all_come (post_comes_of (task_in task.now)) posts.now (listing_in listing.old)) }
    ensures listing { OnOk result (IsListing (task_in task.now) (listing_in listing.new)) }
{
    for post in posts {
        if let Some(ended) = post_comes(alloc, task, listing, post)? {
            return Ok(Some(ended));
        }
    }
    Ok(None)
}

/// What an execution gave comes in order; a failure ends the annotation.
fn after_step(
    alloc: Global,
    task: &Task,
    listing: &mut Listing,
    step: &Step,
) -> Result<Option<Ended>, AllocError>
    requires task { IsTask (task_in task.now) }
    requires listing { IsListing (task_in task.now) (listing_in listing.old) }
    requires step { IsGivenStep (task_in task.now) step.now }
    requires within { GoesOnWithin (task_in task.now) step.now }
    ensures value { IfOk result (λ ended. course_of ended (listing_in listing.new)
        ≡ after_step_of (task_in task.now) step.now (listing_in listing.old)) }
    ensures listing { OnOk result (IsListing (task_in task.now) (listing_in listing.new)) }
{
    match step {
        Step::Fail { fault, line } => Ok(Some(Ended::Fail {
            fault: *fault,
            line: *line,
        })),
        Step::Next { next, exits } => {
            if let Some(ended) = results_come(alloc, task, listing, next.as_slice())? {
                return Ok(Some(ended));
            }
            posts_come(alloc, task, listing, exits.as_slice())
        }
    }
}

/// The turn of a state at a node.
fn turn_of(
    alloc: Global,
    task: &Task,
    listing: &mut Listing,
    node: u32,
    state: &SymState,
) -> Result<Option<Ended>, AllocError>
    requires task { IsTask (task_in task.now) }
    requires listing { IsListing (task_in task.now) (listing_in listing.old) }
    requires state { IsGivenState (task_in task.now) state.now }
    ensures value { IfOk result (λ ended. course_of ended (listing_in listing.new)
        ≡ turn_by (task_in task.now) node state.now (listing_in listing.old)) }
    ensures listing { OnOk result (IsListing (task_in task.now) (listing_in listing.new)) }
{
    let step = exec(alloc, task.flow, task.structs, node, state, task.table)?;
    after_step(alloc, task, listing, &step)
}

/// Turns until no state waits, at most so many.
pub fn turns(
    alloc: Global,
    task: &Task,
    listing: &mut Listing,
    most: u32,
) -> Result<Option<Ended>, AllocError>
    requires task { IsTask (task_in task.now) }
    requires listing { IsListing (task_in task.now) (listing_in listing.old) }
    ensures value { IfOk result (λ ended. annotated_of ended (listing_in listing.new)
        ≡ turns_of most (task_in task.now) (listing_in listing.old)) }
    ensures listing { OnOk result (IsListing (task_in task.now) (listing_in listing.new)) }
{
    for _turn in 0..most {
        let Some((node, state)) = listing.queue.pop_front() else {
            return Ok(None);
        };
        if let Some(ended) = turn_of(alloc, task, listing, node, &state)? {
            return Ok(Some(ended));
        }
    }
    if listing.queue.is_empty() {
        return Ok(None);
    }
    Ok(Some(Ended::Spent {
        what: Budget::Turns,
        count: 2049,
    }))
}
