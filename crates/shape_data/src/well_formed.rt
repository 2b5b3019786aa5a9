//! The three tests of well-formedness: of a program, of a key, and of an answer for a key. Each is true
//! exactly where the definition holds, takes no memory and never fails. Keys and answers are tested within
//! the limits of a store, from which they may come.
ghost use Rattle.std.specs.Prelude.{◌≢◌, ◌↔◌, All, IsTrue};
ghost use Rattle.shape_data.specs.WellFormed.{
  storable as within,
  HasLines,
  FitCalls,
  IsFlow,
  IsProgram,
  IsCallee,
  AreInNameOrder,
  AreKeyProcs,
  AreCallees,
  FitKeyCalls,
  IsStorableKey,
  IsSummary,
  AreSummaries,
  HasReason,
  IsStorableAnswer,
};

use crate::answer::{Answer, Callee, Key, ProcSummary};
use crate::flows::{are_params, are_structs, fit_calls, is_countable, is_flow};
use crate::heaps::{MOST_SPECS, are_specs, is_cert};
use crate::names::{Callable, have_different_names, is_c_name, is_unused};
use crate::program::{Flow, Proc, Program, StructDef};
use std::cmp::Ordering;

fn has_lines(proc: &Proc) -> bool
    ensures { IsTrue result ↔ HasLines proc.now }
{
    let last = u32::MAX - proc.line;
    proc.flow
        .nodes
        .as_slice()
        .iter()
        .all(|node| node.line <= last)
}

fn have_flows(structs: &[StructDef], procs: &[Proc]) -> bool
    ensures { IsTrue result ↔ All (λ proc. IsFlow structs.now proc.flow) procs.now }
{
    procs.iter().all(|proc| is_flow(structs, &proc.flow))
}

fn have_lines(procs: &[Proc]) -> bool
    ensures { IsTrue result ↔ All HasLines procs.now }
{
    procs.iter().all(|proc| has_lines(proc))
}

/// Whether the calls of procedures of a program fit the procedures that it lists.
fn procs_fit_calls(listed: &[Proc], procs: &[Proc]) -> bool
    ensures { IsTrue result ↔ All (λ proc. FitCalls (λ one. one.flow.name) (λ one. one.flow.params) listed.now proc.flow) procs.now }
{
    procs.iter().all(|proc| fit_calls(listed, &proc.flow))
}

/// Whether the calls of flows fit what is listed.
fn flows_fit_calls<T: Callable>(listed: &[T], flows: &[Flow]) -> bool
    ensures { IsTrue result ↔ All (FitCalls T.name_of T.params_of listed.now) flows.now }
{
    flows.iter().all(|flow| fit_calls(listed, flow))
}

/// Whether a program is well formed: what it names is there, its names are C names and differ, its calls fit
/// the procedures that they call, and its lines are 32-bit numbers.
pub fn well_formed_program(program: &Program) -> bool
    ensures { IsTrue result ↔ IsProgram program.now }
{
    let structs = program.structs.as_slice();
    let procs = program.procs.as_slice();
    are_structs(structs)
        && is_countable(procs)
        && have_flows(structs, procs)
        && have_lines(procs)
        && have_different_names(procs)
        && procs_fit_calls(procs, procs)
}

fn is_callee(structs: &[StructDef], callee: &Callee) -> bool
    ensures { IsTrue result ↔ IsCallee within structs.now callee.now }
{
    let params = callee.params.as_slice();
    let specs = callee.specs.as_slice();
    is_c_name(callee.name.as_bytes())
        && are_params(params)
        && specs.len() <= MOST_SPECS
        && are_specs(structs, params.len(), specs)
}

fn are_callees(structs: &[StructDef], callees: &[Callee]) -> bool
    ensures { IsTrue result ↔ AreCallees within structs.now callees.now }
{
    is_countable(callees)
        && callees.iter().all(|callee| is_callee(structs, callee))
        && have_different_names(callees)
}

/// Whether each flow's name is below the next one's.
fn are_in_name_order(flows: &[Flow]) -> bool
    ensures { IsTrue result ↔ AreInNameOrder flows.now }
{
    for place in 1..flows.len() {
        if flows[place - 1].name.cmp(&flows[place].name) != Ordering::Less {
            return false;
        }
    }
    true
}

fn are_key_procs(structs: &[StructDef], flows: &[Flow]) -> bool
    ensures { IsTrue result ↔ AreKeyProcs structs.now flows.now }
{
    !flows.is_empty()
        && is_countable(flows)
        && flows.iter().all(|flow| is_flow(structs, flow))
        && are_in_name_order(flows)
}

/// Whether no flow has the name of a callee.
fn are_apart(flows: &[Flow], callees: &[Callee]) -> bool
    ensures { IsTrue result ↔ All (λ flow. All (λ callee. flow.name ≢ callee.name) callees.now) flows.now }
{
    flows.iter().all(|flow| is_unused(&flow.name, callees))
}

fn fit_key_calls(flows: &[Flow], callees: &[Callee]) -> bool
    ensures { IsTrue result ↔ FitKeyCalls flows.now callees.now }
{
    flows_fit_calls(flows, flows) && flows_fit_calls(callees, flows)
}

/// Whether a key is well formed within the limits of a store: at least one procedure, in name order, and
/// callees with other names; each heap has at most 96 parts, each `$n` and `?n` an n of at most 32,768, and
/// each callee at most 8 specs.
pub fn well_formed_key(key: &Key) -> bool
    ensures { IsTrue result ↔ IsStorableKey key.now }
{
    let structs = key.structs.as_slice();
    let procs = key.procs.as_slice();
    let callees = key.callees.as_slice();
    are_structs(structs)
        && are_key_procs(structs, procs)
        && are_callees(structs, callees)
        && are_apart(procs, callees)
        && fit_key_calls(procs, callees)
}

fn is_summary(structs: &[StructDef], flow: &Flow, summary: &ProcSummary) -> bool
    ensures { IsTrue result ↔ IsSummary within structs.now flow.now summary.now }
{
    let specs = summary.specs.as_slice();
    let certs = summary.certs.as_slice();
    summary.name == flow.name
        && specs.len() <= MOST_SPECS
        && are_specs(structs, flow.params.len(), specs)
        && certs.len() == specs.len()
        && certs.iter().all(|cert| is_cert(structs, flow, cert))
}

/// Whether there is one summary for each flow, in order.
fn are_summaries(structs: &[StructDef], flows: &[Flow], summaries: &[ProcSummary]) -> bool
    ensures { IsTrue result ↔ AreSummaries within structs.now flows.now summaries.now }
{
    if flows.len() != summaries.len() {
        return false;
    }
    for place in 0..flows.len() {
        if !is_summary(structs, &flows[place], &summaries[place]) {
            return false;
        }
    }
    true
}

fn has_reason(summary: &ProcSummary) -> bool
    ensures { IsTrue result ↔ HasReason summary.now }
{
    summary.specs.len() > 0 || summary.reason.is_some()
}

fn have_reasons(summaries: &[ProcSummary]) -> bool
    ensures { IsTrue result ↔ All HasReason summaries.now }
{
    summaries.iter().all(|summary| has_reason(summary))
}

/// Whether an answer is well formed for a key within the limits of a store: one summary for each procedure
/// of the key, in its order and with its name, one certificate for each spec, heaps and variables as for a
/// key, at most 8 specs, 16 states of a node and 16 exits; and a procedure without a spec has a reason.
pub fn well_formed_answer(key: &Key, answer: &Answer) -> bool
    ensures { IsTrue result ↔ IsStorableAnswer key.now answer.now }
{
    let summaries = answer.procs.as_slice();
    are_summaries(key.structs.as_slice(), key.procs.as_slice(), summaries)
        && have_reasons(summaries)
}
