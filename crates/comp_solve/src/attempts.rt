//! The candidates of a procedure, each annotated.
ghost use Rattle.std.specs.Prelude.{◌≡◌, length, map, All, IfOk};
ghost use Rattle.shape_data.specs.WellFormed.{IsSymHeap};
ghost use Rattle.solve_laws.specs.Certificates.Conditions.{IsTask};
ghost use Rattle.solve_laws.specs.Certificates.Limits.{analysable};
ghost use Rattle.certificate_steps.specs.InTask.{task_in};
ghost use Rattle.solve_laws.specs.Attempts.{attempt as attempt_of, trial_of as trial_of_pre, try as try_of};
ghost use Rattle.solve_laws.specs.Solving.{attempts_under as attempts_under_of};
ghost use Rattle.solve_laws.specs.Standing.{AreTasks};

use certificate_steps::Task;
use exec_laws::Table;
use post_gen::{Annotated, annotate};
use pre_gen::{candidates, candidates_are_well_formed};
use shape_data::answer::{Key, Reason};
use shape_data::symbolic::{Spec, SymHeap};
use shape_data::{Row, copy_of};
use solve_laws::{Attempt, Trial};
use std::alloc::{AllocError, Global};

/// What became of a precondition.
fn trial_of(pre: SymHeap, annotated: Annotated) -> Trial
    ensures { result ≡ trial_of_pre pre annotated }
{
    match annotated {
        Annotated::Done { posts, cert } => Trial::Stands {
            spec: Spec { pre, posts },
            cert,
        },
        Annotated::Fail { fault, line } => Trial::Fell {
            why: Reason::Failed { fault, line },
        },
        Annotated::Spent { what, count } => Trial::Fell {
            why: Reason::Spent { what, count },
        },
    }
}

/// A precondition is annotated.
pub fn try_pre(alloc: Global, task: &Task, pre: &SymHeap) -> Result<Trial, AllocError>
    requires task { IsTask (task_in task.now) }
    requires pre { IsSymHeap analysable task.now.structs.now (length task.now.flow.now.params) pre.now }
    ensures { IfOk result (λ trial. trial ≡ try_of (task_in task.now) pre.now) }
{
    let annotated = annotate(alloc, task, pre)?;
    Ok(trial_of(copy_of(pre)?, annotated))
}

/// Each of these preconditions is annotated.
#[tactic(auto, using(crate::proofs::Turns::map_turns))]
fn trials_of(alloc: Global, task: &Task, pres: &[SymHeap]) -> Result<Row<Trial>, AllocError>
    requires task { IsTask (task_in task.now) }
    requires pres { All (IsSymHeap analysable task.now.structs.now (length task.now.flow.now.params)) pres.now }
    ensures { IfOk result (λ trials. trials ≡ map (try_of (task_in task.now)) pres.now) }
{
    let mut trials = Row::new(alloc);
    for pre in pres {
        trials.push(try_pre(alloc, task, pre)?)?;
    }
    Ok(trials)
}

/// The candidates of a procedure, each annotated.
fn attempt(alloc: Global, task: &Task) -> Result<Attempt, AllocError>
    requires { IsTask (task_in task.now) }
    ensures { IfOk result (λ one. one ≡ attempt_of (task_in task.now)) }
{
    candidates_are_well_formed();
    let found = candidates(alloc, task)?;
    let trials = trials_of(alloc, task, found.pres.as_slice())?;
    Ok(Attempt { found, trials })
}

/// The candidates of each procedure, annotated under a table.
#[tactic(auto, using(crate::proofs::Turns::map_turns))]
pub fn attempts_under(alloc: Global, key: &Key, table: &Table) -> Result<Row<Attempt>, AllocError>
    requires { AreTasks key.now table.now }
    ensures { IfOk result (λ attempts. attempts ≡ attempts_under_of key.now table.now) }
{
    let flows = key.procs.as_slice();
    let mut attempts = Row::new(alloc);
    for flow in flows {
        let task = Task {
            flow,
            structs: key.structs.as_slice(),
            table,
            recursive: key.recursive,
        };
        attempts.push(attempt(alloc, &task)?)?;
    }
    Ok(attempts)
}
