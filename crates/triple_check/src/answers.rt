//! Whether an answer is inductive for its key, and the first place at which it is not.
ghost use Rattle.std.specs.Prelude.{◌≡◌, ◌↔◌, length, IfOk, IsTrue};
ghost use Rattle.shape_data.specs.declared.program.Program.{Program};
ghost use Rattle.shape_data.specs.WellFormed.{IsAnswer, IsKey};
ghost use Rattle.sound_laws.specs.Answers.{AreValidIn, StandsIn, own_callees as own_callees_of};
ghost use Rattle.solve_laws.specs.Certificates.Gaps.{first_gap as first_gap_of, summary_gap as summary_gap_of};
ghost use Rattle.solve_laws.specs.Certificates.Inductive.{Inductive, table_of as table_of_answer};
ghost use Rattle.solve_laws.specs.Certificates.Limits.{analysable};
ghost use Rattle.solve_laws.specs.Certificates.Conditions.{IsTask, IsTaskSummary};
ghost use Rattle.certificate_steps.specs.InTask.{task_in};

use crate::gaps::spec_gap;
use certificate_steps::Task;
use exec_laws::Table;
use shape_data::answer::{Answer, Callee, Key, ProcSummary};
use shape_data::program::Flow;
use shape_data::{Row, copy_of};
use solve_laws::certificates::{Gap, SpecGap};
use std::alloc::{AllocError, Global};

/// A procedure with the specs of its summary, as a callee.
fn callee_with(flow: &Flow, summary: &ProcSummary) -> Result<Callee, AllocError>
    ensures { IfOk result (λ callee. callee ≡ record { name = flow.now.name; params = flow.now.params; specs = summary.now.specs }) }
{
    Ok(Callee {
        name: copy_of(&flow.name)?,
        params: copy_of(&flow.params)?,
        specs: copy_of(&summary.specs)?,
    })
}

/// The procedures of a key with the specs of an answer.
#[tactic(auto, using(crate::proofs::Turns::own_turns))]
fn own_callees(
    alloc: Global,
    flows: &[Flow],
    summaries: &[ProcSummary],
) -> Result<Row<Callee>, AllocError>
    requires { length summaries.now ≡ length flows.now }
    ensures { IfOk result (λ callees. callees ≡ own_callees_of flows.now summaries.now) }
{
    let mut callees = Row::new(alloc);
    for place in 0..flows.len() {
        callees.push(callee_with(&flows[place], &summaries[place])?)?;
    }
    Ok(callees)
}

/// The strict table of a key and an answer: the answer's specs within the component, and those of the key's callees. The only error is
/// want of memory.
pub fn table_of(alloc: Global, key: &Key, answer: &Answer) -> Result<Table, AllocError>
    requires { length answer.now.procs ≡ length key.now.procs }
    ensures { IfOk result (λ table. table ≡ table_of_answer key.now answer.now) }
{
    Ok(Table {
        own: own_callees(alloc, key.procs.as_slice(), answer.procs.as_slice())?,
        outer: copy_of(&key.callees)?,
        cut: false,
    })
}

/// The gap of a spec with its place.
fn placed(proc: u32, spec: u32, gap: SpecGap) -> Gap
    ensures { result ≡ record { proc = proc; spec = spec; line = gap.line; fault = gap.fault } }
{
    Gap {
        proc,
        spec,
        line: gap.line,
        fault: gap.fault,
    }
}

/// The first gap of a procedure, by spec.
#[tactic(auto, using(crate::proofs::Turns::pair_turns))]
fn summary_gap(
    alloc: Global,
    task: &Task,
    proc: u32,
    summary: &ProcSummary,
) -> Result<Option<Gap>, AllocError>
    requires task { IsTask (task_in task.now) }
    requires summary { IsTaskSummary (task_in task.now) summary.now }
    ensures { IfOk result (λ gap. gap ≡ summary_gap_of (task_in task.now) proc summary.now) }
{
    let specs = summary.specs.as_slice();
    let certs = summary.certs.as_slice();
    for place in 0..specs.len() {
        if let Some(gap) = spec_gap(alloc, task, &specs[place], &certs[place])? {
            return Ok(Some(placed(proc, place as u32, gap)));
        }
    }
    Ok(None)
}

/// The first gap of the procedures from a table on.
#[tactic(auto, using(crate::proofs::Turns::pair_turns))]
fn gap_under(
    alloc: Global,
    key: &Key,
    answer: &Answer,
    table: &Table,
) -> Result<Option<Gap>, AllocError>
    requires key { IsKey analysable key.now }
    requires answer { IsAnswer analysable key.now answer.now }
    requires table { table.now ≡ table_of_answer key.now answer.now }
    ensures { IfOk result (λ gap. gap ≡ first_gap_of key.now answer.now) }
{
    let flows = key.procs.as_slice();
    let summaries = answer.procs.as_slice();
    for place in 0..flows.len() {
        let task = Task {
            flow: &flows[place],
            structs: key.structs.as_slice(),
            table,
            recursive: key.recursive,
        };
        if let Some(gap) = summary_gap(alloc, &task, place as u32, &summaries[place])? {
            return Ok(Some(gap));
        }
    }
    Ok(None)
}

/// The first place at which an answer is not inductive for its key: by procedure and spec, and within a spec the entry, then the
/// states by node and place, then the posts. There is none exactly where the answer is inductive. Each heap has at most 96 parts. The
/// only error is want of memory.
pub fn first_gap(alloc: Global, key: &Key, answer: &Answer) -> Result<Option<Gap>, AllocError>
    requires key { IsKey analysable key.now }
    requires answer { IsAnswer analysable key.now answer.now }
    ensures { IfOk result (λ gap. gap ≡ first_gap_of key.now answer.now) }
{
    let table = table_of(alloc, key, answer)?;
    gap_under(alloc, key, answer, &table)
}

/// Whether an answer is inductive for its key. Then each of its specs is valid in every program in which the key stands. Each heap has
/// at most 96 parts. The only error is want of memory.
pub fn check_answer(alloc: Global, key: &Key, answer: &Answer) -> Result<bool, AllocError>
    requires key { IsKey analysable key.now }
    requires answer { IsAnswer analysable key.now answer.now }
    ensures exact { IfOk result (λ yes. IsTrue yes ↔ Inductive key.now answer.now) }
    ensures sound { IfOk result (λ yes. IsTrue yes → (program : Program) → StandsIn program key.now
        → AreValidIn program key.now answer.now) }
{
    match first_gap(alloc, key, answer)? {
        None => Ok(true),
        Some(_) => Ok(false),
    }
}
