//! Answers to keys: so many specs for each procedure, each of which says that no run from the empty heap returns (few of these programs
//! are such), or none at all.
ghost use Rattle.std.specs.Prelude.{◌≡◌, [], false, All, IfOk};
ghost use Rattle.shape_data.specs.WellFormed.{storable as within, AreSummaries, HasReason, IsStorableAnswer, IsSummary};

use shape_data::answer::{Answer, Key, ProcSummary, Reason};
use shape_data::program::Flow;
use shape_data::symbolic::{Cert, Spec, SymHeap, SymState};
use shape_data::{Row, copy_of, well_formed_answer};
use std::alloc::{AllocError, Global};
use std::sync::Arc;

/// From the empty heap no run returns.
fn spec(alloc: Global) -> Spec {
    let pre = SymHeap {
        pure: Row::new(alloc),
        spatial: Row::new(alloc),
    };
    Spec {
        pre,
        posts: Row::new(alloc),
    }
}

/// So many times the spec of the empty heap.
pub(crate) fn specs(alloc: Global, count: u32) -> Result<Row<Spec>, AllocError> {
    let mut specs = Row::new(alloc);
    for _ in 0..count {
        specs.push(spec(alloc))?;
    }
    Ok(specs)
}

/// A certificate with no state.
fn cert(alloc: Global, flow: &Flow) -> Result<Cert, AllocError> {
    let mut nodes = Row::new(alloc);
    for _node in flow.nodes.as_slice() {
        let states: Row<SymState> = Row::new(alloc);
        nodes.push(states)?;
    }
    Ok(Cert {
        nodes,
        exits: Row::new(alloc),
    })
}

fn certs(alloc: Global, flow: &Flow, count: u32) -> Result<Row<Cert>, AllocError> {
    let mut certs = Row::new(alloc);
    for _ in 0..count {
        certs.push(cert(alloc, flow)?)?;
    }
    Ok(certs)
}

/// The summary of a procedure with so many specs.
pub fn summary(alloc: Global, flow: &Flow, count: u32) -> Result<ProcSummary, AllocError> {
    Ok(ProcSummary {
        name: copy_of(&flow.name)?,
        specs: specs(alloc, count)?,
        certs: certs(alloc, flow, count)?,
        reason: Some(Reason::Endless),
    })
}

fn summaries(alloc: Global, flows: &[Flow], count: u32) -> Result<Row<ProcSummary>, AllocError> {
    let mut summaries = Row::new(alloc);
    for flow in flows {
        summaries.push(summary(alloc, flow, count)?)?;
    }
    Ok(summaries)
}

/// The answer to a key with so many specs for each procedure. Where these are more than a store holds, the error is the same as for
/// want of memory.
pub fn answer(alloc: Global, key: &Key, count: u32) -> Result<Arc<Answer>, AllocError>
    ensures stored { IfOk result (λ answer. answer.value.stored ≡ false) }
    ensures storable { IfOk result (λ answer. IsStorableAnswer key.now answer.value) }
{
    let answer = Answer {
        stored: false,
        procs: summaries(alloc, &key.procs, count)?,
    };
    if !well_formed_answer(key, &answer) {
        return Err(AllocError);
    }
    Ok(Arc::new(alloc, answer)?)
}

fn silent_summary(alloc: Global, flow: &Flow) -> Result<ProcSummary, AllocError>
    ensures is { IfOk result (λ summary. (structs : _) → IsSummary within structs flow.now summary) }
    ensures reason { IfOk result HasReason }
    ensures silent { IfOk result (λ summary. summary.specs ≡ []) }
{
    Ok(ProcSummary {
        name: copy_of(&flow.name)?,
        specs: Row::new(alloc),
        certs: Row::new(alloc),
        reason: Some(Reason::Endless),
    })
}

fn silent_summaries(alloc: Global, flows: &[Flow]) -> Result<Row<ProcSummary>, AllocError>
    ensures are { IfOk result (λ summaries. (structs : _) → AreSummaries within structs flows.now summaries) }
    ensures reasons { IfOk result (All HasReason) }
    ensures silent { IfOk result (All (λ summary. summary.specs ≡ [])) }
{
    let mut summaries = Row::new(alloc);
    for flow in flows {
        summaries.push(silent_summary(alloc, flow)?)?;
    }
    Ok(summaries)
}

/// The answer to a key that has no spec for any procedure.
pub fn silent_answer(alloc: Global, key: &Key) -> Result<Arc<Answer>, AllocError>
    ensures stored { IfOk result (λ answer. answer.value.stored ≡ false) }
    ensures storable { IfOk result (λ answer. IsStorableAnswer key.now answer.value) }
    ensures silent { IfOk result (λ answer. All (λ summary. summary.specs ≡ []) answer.value.procs) }
{
    let answer = Answer {
        stored: false,
        procs: silent_summaries(alloc, &key.procs)?,
    };
    Ok(Arc::new(alloc, answer)?)
}
