//! Solving a key: alone, or together in rounds.
ghost use Rattle.std.specs.Prelude.{◌≡◌, All, IfOk, IfSome};
ghost use Rattle.shape_data.specs.WellFormed.{HasReason, IsAnswer, IsKey};
ghost use Rattle.solve_laws.specs.Certificates.Inductive.{Inductive};
ghost use Rattle.solve_laws.specs.Certificates.Limits.{analysable};
ghost use Rattle.solve_laws.specs.Solving.{
  after_rounds as after_rounds_of,
  solve as solve_of,
  solve_alone as solve_alone_of,
  solve_together as solve_together_of,
  summaries_by,
};
ghost use Rattle.solve_laws.specs.Standing.{AreFormed};

use crate::attempts::attempts_under;
use crate::passes::{all_passes, strictly};
use crate::rounds::rounds;
use crate::summaries::{all_without_specs, summaries_of};
use crate::tables::table_alone;
use shape_data::Row;
use shape_data::answer::{Answer, Key, ProcSummary};
use solve_laws::Attempt;
use solve_laws::laws::{
    solved_has_reasons, solved_is_inductive, solved_is_well_formed, standing_is_well_formed,
};
use std::alloc::{AllocError, Global};

/// Not recursive: by the strict table without own specs.
fn solve_alone(alloc: Global, key: &Key) -> Result<Row<ProcSummary>, AllocError>
    requires { IsKey analysable key.now }
    ensures { IfOk result (λ summaries. summaries ≡ solve_alone_of key.now) }
{
    standing_is_well_formed();
    let table = table_alone(alloc, key)?;
    let attempts = attempts_under(alloc, key, &table)?;
    summaries_of(alloc, key.procs.as_slice(), attempts.as_slice())
}

/// After the rounds: strict annotation, then passes. No procedure has a spec where the rounds were spent.
fn after_rounds(
    alloc: Global,
    key: &Key,
    found: Option<Row<Attempt>>,
) -> Result<Row<ProcSummary>, AllocError>
    requires key { IsKey analysable key.now }
    requires formed { IfSome found (AreFormed key.now) }
    ensures { IfOk result (λ summaries. summaries ≡ after_rounds_of key.now found) }
{
    match found {
        None => all_without_specs(alloc, key.procs.as_slice()),
        Some(attempts) => {
            let annotated = strictly(alloc, key, attempts.as_slice())?;
            let standing = all_passes(alloc, key, annotated)?;
            summaries_of(alloc, key.procs.as_slice(), standing.as_slice())
        }
    }
}

/// Recursive: the rounds, and what comes after them.
fn solve_together(alloc: Global, key: &Key) -> Result<Row<ProcSummary>, AllocError>
    requires { IsKey analysable key.now }
    ensures { IfOk result (λ summaries. summaries ≡ solve_together_of key.now) }
{
    let found = rounds(alloc, key)?;
    after_rounds(alloc, key, found)
}

/// The summaries of the key's procedures.
fn summaries(alloc: Global, key: &Key) -> Result<Row<ProcSummary>, AllocError>
    requires { IsKey analysable key.now }
    ensures { IfOk result (λ procs. procs ≡ summaries_by key.now.recursive key.now) }
{
    if key.recursive {
        return solve_together(alloc, key);
    }
    solve_alone(alloc, key)
}

/// Solves a key: the candidates of its procedures, each annotated. In a recursive component candidates and annotations are repeated
/// with the specs of the round before, until these stay the same; then each spec is annotated strictly, and those that are not
/// inductive are dropped until all are. The answer is inductive: each spec has a certificate that passes the check. A procedure
/// without a spec has the reason: its first dropped path, or none; what its first candidate failed for; or the budget that was spent,
/// after eight rounds at the latest. Heaps of the key's callees have at most 96 parts. The only error is want of memory.
pub fn solve(alloc: Global, key: &Key) -> Result<Answer, AllocError>
    requires { IsKey analysable key.now }
    ensures value { IfOk result (λ answer. answer ≡ solve_of key.now) }
    ensures inductive { IfOk result (λ answer. Inductive key.now answer) }
    ensures formed { IfOk result (λ answer. IsAnswer analysable key.now answer) }
    ensures reasons { IfOk result (λ answer. All HasReason answer.procs) }
{
    solved_is_inductive();
    solved_is_well_formed();
    solved_has_reasons();
    let procs = summaries(alloc, key)?;
    Ok(Answer {
        stored: false,
        procs,
    })
}
