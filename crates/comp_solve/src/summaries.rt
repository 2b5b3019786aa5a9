//! Summaries of procedures: what stands, or the reason why nothing does.
ghost use Rattle.std.specs.Prelude.{◌≡◌, length, map, IfOk};
ghost use Rattle.solve_laws.specs.Attempts.{
  no_path as no_path_of,
  reason_of as reason_of_one,
  summaries_of as summaries_of_all,
  summary_of as summary_of_one,
  why_none as why_none_of,
};
ghost use Rattle.solve_laws.specs.Solving.{without_specs as without_specs_of};

use crate::rounds::MOST_ROUNDS;
use crate::standing::{certs_in, specs_in};
use pre_gen::{Dropped, Found};
use shape_data::answer::{Budget, ProcSummary, Reason};
use shape_data::program::Flow;
use shape_data::symbolic::Spec;
use shape_data::{Row, copy_of};
use solve_laws::{Attempt, Trial};
use std::alloc::{AllocError, Global};

/// Why there is no candidate.
fn no_path(first_drop: Option<Dropped>) -> Reason
    ensures { result ≡ no_path_of first_drop }
{
    match first_drop {
        Some(dropped) => Reason::NoPath {
            fault: dropped.fault,
            line: dropped.line,
        },
        None => Reason::Endless,
    }
}

/// Why a procedure has no spec: it has no candidate, or its first candidate fell.
fn why_none(found: &Found, trials: &[Trial]) -> Option<Reason>
    ensures { result ≡ why_none_of found.now trials.now }
{
    match trials {
        [] => Some(no_path(found.first_drop)),
        [Trial::Fell { why }, ..] => Some(*why),
        [Trial::Stands { .. }, ..] => None,
    }
}

/// The reason, where there is no spec.
fn reason_of(one: &Attempt, specs: &[Spec]) -> Option<Reason>
    ensures { result ≡ reason_of_one one.now specs.now }
{
    match specs {
        [] => why_none(&one.found, one.trials.as_slice()),
        [_, ..] => None,
    }
}

/// The summary of a procedure.
fn summary_of(alloc: Global, flow: &Flow, one: &Attempt) -> Result<ProcSummary, AllocError>
    ensures { IfOk result (λ summary. summary ≡ summary_of_one flow.now one.now) }
{
    let specs = specs_in(alloc, one)?;
    let reason = reason_of(one, specs.as_slice());
    Ok(ProcSummary {
        name: copy_of(&flow.name)?,
        specs,
        certs: certs_in(alloc, one)?,
        reason,
    })
}

/// The summaries of all procedures.
#[tactic(auto, using(crate::proofs::Turns::summary_turns))]
pub fn summaries_of(
    alloc: Global,
    flows: &[Flow],
    attempts: &[Attempt],
) -> Result<Row<ProcSummary>, AllocError>
    requires { length attempts.now ≡ length flows.now }
    ensures { IfOk result (λ summaries. summaries ≡ summaries_of_all flows.now attempts.now) }
{
    let mut summaries = Row::new(alloc);
    for place in 0..flows.len() {
        summaries.push(summary_of(alloc, &flows[place], &attempts[place])?)?;
    }
    Ok(summaries)
}

/// The summary of a procedure without specs, since the rounds were spent.
fn without_specs(alloc: Global, flow: &Flow) -> Result<ProcSummary, AllocError>
    ensures { IfOk result (λ summary. summary ≡ without_specs_of flow.now) }
{
    Ok(ProcSummary {
        name: copy_of(&flow.name)?,
        specs: Row::new(alloc),
        certs: Row::new(alloc),
        reason: Some(Reason::Spent {
            what: Budget::Rounds,
            count: MOST_ROUNDS,
        }),
    })
}

/// The same for each procedure.
#[tactic(auto, using(crate::proofs::Turns::map_turns))]
pub fn all_without_specs(alloc: Global, flows: &[Flow]) -> Result<Row<ProcSummary>, AllocError>
    ensures { IfOk result (λ summaries. summaries ≡ map without_specs_of flows.now) }
{
    let mut summaries = Row::new(alloc);
    for flow in flows {
        summaries.push(without_specs(alloc, flow)?)?;
    }
    Ok(summaries)
}
