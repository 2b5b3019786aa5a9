//! The first place at which the certificate of a spec fails.
ghost use Rattle.std.specs.Prelude.{◌≡◌, false, All, IfOk};
ghost use Rattle.std.specs.List.{list_all};
ghost use Rattle.std.specs.declared.option.Option.TheVariants.{Some};
ghost use Rattle.sound_laws.specs.Certificates.{states_at};
ghost use Rattle.solve_laws.specs.Certificates.Coverings.{is_covered as is_covered_by};
ghost use Rattle.solve_laws.specs.Certificates.Gaps.{
  first_found,
  is_exit_covered as is_exit_covered_by,
  is_next_covered as is_next_covered_by,
  node_gap as node_gap_of,
  spec_gap as spec_gap_of,
  start_gap as start_gap_of,
  state_gap as state_gap_of,
  step_gap as step_gap_of,
  uncovered_unless,
};
ghost use Rattle.solve_laws.specs.Certificates.Conditions.{
  AreNexts,
  IsGivenState,
  IsGivenStep,
  IsTask,
  IsTaskCert,
  IsTaskPost,
  IsTaskSpec,
  IsTaskState,
};
ghost use Rattle.certificate_steps.specs.InTask.{task_in};
ghost use Rattle.triple_check.specs.Steps.{do_posts_cover as posts_cover_by};

use certificate_steps::Task;
use certificate_steps::coming::{
    at_exit, at_node, line_at, normal_post, normal_state, start_at_node,
};
use certificate_steps::coverings::{is_covered, is_post_covered};
use exec_laws::Step;
use shape_data::answer::Fault;
use shape_data::symbolic::{Cert, Post, Spec, SymState};
use solve_laws::certificates::SpecGap;
use std::alloc::{AllocError, Global};
use sym_exec::exec;

/// The gap at a node where something is not covered.
fn uncovered(task: &Task, at: u32) -> SpecGap
    ensures { Some result ≡ uncovered_unless false (task_in task.now) at }
{
    SpecGap {
        fault: Fault::Cover,
        line: line_at(task, at),
    }
}

/// Whether a certificate state at a node covers the state.
fn is_covered_at(
    alloc: Global,
    task: &Task,
    cert: &Cert,
    at: u32,
    state: &SymState,
) -> Result<bool, AllocError>
    requires task { IsTask (task_in task.now) }
    requires cert { IsTaskCert (task_in task.now) cert.now }
    requires state { IsTaskState (task_in task.now) state.now }
    ensures { IfOk result (λ covered. covered ≡ is_covered_by (states_at cert.now at) state.now) }
{
    match cert.nodes.get(at as usize) {
        None => Ok(false),
        Some(states) => is_covered(alloc, states.as_slice(), state),
    }
}

/// Whether a state that comes to a node is covered there.
fn is_next_covered(
    alloc: Global,
    task: &Task,
    cert: &Cert,
    at: u32,
    state: &SymState,
) -> Result<bool, AllocError>
    requires task { IsTask (task_in task.now) }
    requires cert { IsTaskCert (task_in task.now) cert.now }
    requires state { IsTaskState (task_in task.now) state.now }
    ensures { IfOk result (λ covered. covered ≡ is_next_covered_by (task_in task.now) cert.now (at, state.now)) }
{
    match at_node(alloc, task, at, state)? {
        None => Ok(true),
        Some(form) => is_covered_at(alloc, task, cert, at, &form),
    }
}

/// Whether each state that comes to its node is covered there.
fn are_nexts_covered(
    alloc: Global,
    task: &Task,
    cert: &Cert,
    nexts: &[(u32, SymState)],
) -> Result<bool, AllocError>
    requires task { IsTask (task_in task.now) }
    requires cert { IsTaskCert (task_in task.now) cert.now }
    requires nexts { AreNexts (task_in task.now) nexts.now }
    ensures { IfOk result (λ covered. covered ≡ list_all (is_next_covered_by (task_in task.now) cert.now) nexts.now) }
{
    for next in nexts {
        if !is_next_covered(alloc, task, cert, next.0, &next.1)? {
            return Ok(false);
        }
    }
    Ok(true)
}

/// Whether an exit is covered by a certificate exit.
fn is_exit_covered(alloc: Global, task: &Task, cert: &Cert, exit: &Post) -> Result<bool, AllocError>
    requires task { IsTask (task_in task.now) }
    requires cert { IsTaskCert (task_in task.now) cert.now }
    requires exit { IsTaskPost (task_in task.now) exit.now }
    ensures { IfOk result (λ covered. covered ≡ is_exit_covered_by (task_in task.now) cert.now exit.now) }
{
    match at_exit(alloc, task, exit)? {
        None => Ok(true),
        Some(form) => is_post_covered(alloc, cert.exits.as_slice(), &form),
    }
}

/// Whether each exit is covered by a certificate exit.
fn are_exits_covered(
    alloc: Global,
    task: &Task,
    cert: &Cert,
    exits: &[Post],
) -> Result<bool, AllocError>
    requires task { IsTask (task_in task.now) }
    requires cert { IsTaskCert (task_in task.now) cert.now }
    requires exits { All (IsTaskPost (task_in task.now)) exits.now }
    ensures { IfOk result (λ covered. covered ≡ list_all (is_exit_covered_by (task_in task.now) cert.now) exits.now) }
{
    for exit in exits {
        if !is_exit_covered(alloc, task, cert, exit)? {
            return Ok(false);
        }
    }
    Ok(true)
}

/// The gap that an execution leaves: it fails, or something that it gives is not covered.
fn step_gap(
    alloc: Global,
    task: &Task,
    cert: &Cert,
    at: u32,
    step: &Step,
) -> Result<Option<SpecGap>, AllocError>
    requires task { IsTask (task_in task.now) }
    requires cert { IsTaskCert (task_in task.now) cert.now }
    requires step { IsGivenStep (task_in task.now) step.now }
    ensures { IfOk result (λ gap. gap ≡ step_gap_of (task_in task.now) cert.now at step.now) }
{
    match step {
        Step::Fail { fault, line } => Ok(Some(SpecGap {
            fault: *fault,
            line: *line,
        })),
        Step::Next { next, exits } => {
            if !are_nexts_covered(alloc, task, cert, next.as_slice())? {
                return Ok(Some(uncovered(task, at)));
            }
            if !are_exits_covered(alloc, task, cert, exits.as_slice())? {
                return Ok(Some(uncovered(task, at)));
            }
            Ok(None)
        }
    }
}

/// The gap that the execution of a certificate state leaves, which is brought to normal form first.
fn state_gap(
    alloc: Global,
    task: &Task,
    cert: &Cert,
    at: u32,
    state: &SymState,
) -> Result<Option<SpecGap>, AllocError>
    requires task { IsTask (task_in task.now) }
    requires cert { IsTaskCert (task_in task.now) cert.now }
    requires state { IsGivenState (task_in task.now) state.now }
    ensures { IfOk result (λ gap. gap ≡ state_gap_of (task_in task.now) cert.now at state.now) }
{
    match normal_state(alloc, state)? {
        None => Ok(None),
        Some(form) => {
            let step = exec(alloc, task.flow, task.structs, at, &form, task.table)?;
            step_gap(alloc, task, cert, at, &step)
        }
    }
}

/// The first gap at the states of a node.
#[tactic(auto, using(crate::proofs::Turns::found_turns))]
fn node_gap(
    alloc: Global,
    task: &Task,
    cert: &Cert,
    at: u32,
    states: &[SymState],
) -> Result<Option<SpecGap>, AllocError>
    requires task { IsTask (task_in task.now) }
    requires cert { IsTaskCert (task_in task.now) cert.now }
    requires states { All (IsGivenState (task_in task.now)) states.now }
    ensures { IfOk result (λ gap. gap ≡ node_gap_of (task_in task.now) cert.now at states.now) }
{
    for state in states {
        if let Some(gap) = state_gap(alloc, task, cert, at, state)? {
            return Ok(Some(gap));
        }
    }
    Ok(None)
}

/// The first gap at the states of a certificate, by node.
#[tactic(auto, using(crate::proofs::Turns::found_turns))]
fn states_gap(alloc: Global, task: &Task, cert: &Cert) -> Result<Option<SpecGap>, AllocError>
    requires task { IsTask (task_in task.now) }
    requires cert { IsTaskCert (task_in task.now) cert.now }
    ensures { IfOk result (λ gap. gap ≡ first_found (node_gap_of (task_in task.now) cert.now) 0 cert.now.nodes) }
{
    let nodes = cert.nodes.as_slice();
    for (at, states) in nodes.iter().enumerate() {
        if let Some(gap) = node_gap(alloc, task, cert, at as u32, states.as_slice())? {
            return Ok(Some(gap));
        }
    }
    Ok(None)
}

/// Whether the start state is covered at node 0.
fn is_start_covered(
    alloc: Global,
    task: &Task,
    spec: &Spec,
    cert: &Cert,
) -> Result<bool, AllocError>
    requires task { IsTask (task_in task.now) }
    requires spec { IsTaskSpec (task_in task.now) spec.now }
    requires cert { IsTaskCert (task_in task.now) cert.now }
    ensures { IfOk result (λ covered. start_gap_of (task_in task.now) spec.now cert.now ≡ uncovered_unless covered (task_in task.now) 0) }
{
    match start_at_node(alloc, task, &spec.pre)? {
        None => Ok(true),
        Some(start) => is_covered_at(alloc, task, cert, 0, &start),
    }
}

/// Whether a post covers a certificate exit, in normal form.
fn does_post_cover(alloc: Global, task: &Task, spec: &Spec, exit: &Post) -> Result<bool, AllocError>
    requires task { IsTask (task_in task.now) }
    requires spec { IsTaskSpec (task_in task.now) spec.now }
    requires exit { IsTaskPost (task_in task.now) exit.now }
    ensures { IfOk result (λ covered. covered ≡ posts_cover_by spec.now exit.now) }
{
    match normal_post(alloc, exit)? {
        None => Ok(true),
        Some(form) => is_post_covered(alloc, spec.posts.as_slice(), &form),
    }
}

/// Whether posts cover all certificate exits.
fn do_posts_cover(alloc: Global, task: &Task, spec: &Spec, cert: &Cert) -> Result<bool, AllocError>
    requires task { IsTask (task_in task.now) }
    requires spec { IsTaskSpec (task_in task.now) spec.now }
    requires cert { IsTaskCert (task_in task.now) cert.now }
    ensures { IfOk result (λ covered. covered ≡ list_all (posts_cover_by spec.now) cert.now.exits) }
{
    for exit in cert.exits.as_slice() {
        if !does_post_cover(alloc, task, spec, exit)? {
            return Ok(false);
        }
    }
    Ok(true)
}

/// The first gap of a spec's certificate: at the entry, at the states by node and place, at the posts. Heaps that are given have at
/// most 96 parts. The only error is want of memory.
pub fn spec_gap(
    alloc: Global,
    task: &Task,
    spec: &Spec,
    cert: &Cert,
) -> Result<Option<SpecGap>, AllocError>
    requires task { IsTask (task_in task.now) }
    requires spec { IsTaskSpec (task_in task.now) spec.now }
    requires cert { IsTaskCert (task_in task.now) cert.now }
    ensures { IfOk result (λ gap. gap ≡ spec_gap_of (task_in task.now) spec.now cert.now) }
{
    if !is_start_covered(alloc, task, spec, cert)? {
        return Ok(Some(uncovered(task, 0)));
    }
    if let Some(gap) = states_gap(alloc, task, cert)? {
        return Ok(Some(gap));
    }
    if !do_posts_cover(alloc, task, spec, cert)? {
        return Ok(Some(uncovered(task, 0)));
    }
    Ok(None)
}
