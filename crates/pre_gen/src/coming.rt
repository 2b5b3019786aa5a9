//! How pairs come to a node: abstracted at the head of a loop. And how the missing heap at an exit becomes a candidate. None is a
//! contradiction, which is left out.
ghost use Rattle.std.specs.Prelude.{◌≡◌, ◌<◌, ◌^◌, length, IfOk};
ghost use Rattle.sym_parts.specs.Shapes.Symbolic.{emp as emp_heap};
ghost use Rattle.abstraction_laws.specs.Pairs.{beside_nothing as beside_nothing_of};
ghost use Rattle.abstraction_laws.specs.Rooms.{HaveFewFields};
ghost use Rattle.solve_laws.specs.Certificates.Conditions.{IsTask};
ghost use Rattle.certificate_steps.specs.InTask.{task_in};
ghost use Rattle.solve_laws.specs.Candidates.Coming.{
  candidate_of as candidate_of_missing,
  in_form as in_form_of,
  pair_at_node as pair_at_node_of,
  start_pair as start_pair_of,
  start_pair_at_node as start_pair_at_node_of,
};
ghost use Rattle.solve_laws.specs.Candidates.Conditions.{IsPairWithinRoom};

use certificate_steps::Task;
use certificate_steps::coming::start_form;
use shape_data::Row;
use shape_data::symbolic::{SymHeap, SymState};
use std::alloc::{AllocError, Global};
use sym_abstract::{abstract_pair, abstract_pre};
use sym_canon::{Pair, canon_pair};
use sym_forms::pair_form;

/// How many parameters there are.
fn params_of(task: &Task) -> u32
    requires { length task.now.flow.now.params < 2 ^ 32 }
    ensures { result ≡ length task.now.flow.now.params }
{
    task.flow.params.len() as u32
}

/// The heap without facts and atoms.
fn emp(alloc: Global) -> SymHeap
    ensures { result ≡ emp_heap }
{
    SymHeap {
        pure: Row::new(alloc),
        spatial: Row::new(alloc),
    }
}

/// A pair that comes to the node at a place: abstracted, where that is the head of a loop.
pub fn pair_at_node(
    alloc: Global,
    task: &Task,
    at: u32,
    pair: Pair,
) -> Result<Option<Pair>, AllocError>
    requires task { IsTask (task_in task.now) }
    requires pair { IsPairWithinRoom pair }
    ensures { IfOk result (λ made. made ≡ pair_at_node_of (task_in task.now) at pair) }
{
    match task.flow.nodes.get(at as usize) {
        None => Ok(Some(pair)),
        Some(node) => match &node.head {
            None => Ok(Some(pair)),
            Some(mark) => abstract_pair(alloc, &pair, task.flow, mark, task.structs),
        },
    }
}

/// The start pair: nothing is missing, beside the start state of the empty heap.
fn start_pair(alloc: Global, task: &Task, start: &SymState) -> Result<Pair, AllocError>
    requires { length task.now.flow.now.params < 2 ^ 32 }
    ensures { IfOk result (λ pair. pair ≡ start_pair_of (task_in task.now) start.now) }
{
    let missing = emp(alloc);
    canon_pair(alloc, &missing, start, params_of(task))
}

/// The start pair, which comes to node 0.
pub fn start_pair_at_node(alloc: Global, task: &Task) -> Result<Option<Pair>, AllocError>
    requires { IsTask (task_in task.now) }
    ensures { IfOk result (λ made. made ≡ start_pair_at_node_of (task_in task.now)) }
{
    let pre = emp(alloc);
    match start_form(alloc, task.flow, &pre)? {
        None => Ok(None),
        Some(start) => {
            let pair = start_pair(alloc, task, &start)?;
            pair_at_node(alloc, task, 0, pair)
        }
    }
}

/// A missing heap beside a state that says nothing.
fn beside_nothing(alloc: Global, missing: SymHeap) -> Pair
    ensures { result ≡ beside_nothing_of missing }
{
    Pair {
        missing,
        state: SymState {
            locals: Row::new(alloc),
            heap: emp(alloc),
        },
    }
}

/// A missing heap in normal and canonical form.
fn in_form(alloc: Global, params: u32, missing: SymHeap) -> Result<Option<SymHeap>, AllocError>
    ensures { IfOk result (λ form. form ≡ in_form_of params missing) }
{
    let pair = beside_nothing(alloc, missing);
    match pair_form(alloc, params, &pair)? {
        None => Ok(None),
        Some(form) => {
            let canonical = canon_pair(alloc, &form.missing, &form.state, params)?;
            Ok(Some(canonical.missing))
        }
    }
}

/// A missing heap at an exit as a candidate: joined, in a recursive component.
pub fn candidate_of(
    alloc: Global,
    task: &Task,
    missing: SymHeap,
) -> Result<Option<SymHeap>, AllocError>
    requires params { length task.now.flow.now.params < 2 ^ 32 }
    requires few { HaveFewFields missing.spatial }
    ensures { IfOk result (λ pre. pre ≡ candidate_of_missing (task_in task.now) missing) }
{
    let params = params_of(task);
    if task.recursive {
        abstract_pre(alloc, &missing, params)
    } else {
        in_form(alloc, params, missing)
    }
}
