//! Which components a component calls, and procedures as callees.
ghost use Rattle.std.specs.Prelude.{◌≡◌, map, nat_eq, IfOk};
ghost use Rattle.std.specs.List.{find};
ghost use Rattle.std.specs.Option.{option_copied};
ghost use Rattle.std.specs.Cmp.Lexicographic.{pointwise};
ghost use Rattle.call_components.specs.Reaching.{rows};
ghost use Rattle.component_keys.specs.Keys.{specs_in};
ghost use Rattle.composed_keys.specs.Callees.{known_as};
ghost use Rattle.composed_keys.specs.declared.rows.Component.{Component as ComponentRow};
ghost use Rattle.composed_keys.specs.declared.rows.Outer.{Outer as OuterRow};

use crate::rows::{Component, Outer};
use shape_data::answer::{Answer, Callee, ProcSummary};
use shape_data::program::Flow;
use shape_data::symbolic::Spec;
use shape_data::{Name, Row, copy_of};
use std::alloc::{AllocError, Global};

/// The numbers of the components of procedures outside.
fn called(alloc: Global, outer: &[Outer]) -> Result<Vec<u32>, AllocError>
    ensures { IfOk result (λ numbers. numbers.items ≡ map (λ (one : OuterRow). one.component) outer.now) }
{
    outer.iter().map(|one| one.component).collect(alloc)
}

/// For each component the numbers of the components that it calls. The only error is want of memory.
pub fn calls_of(alloc: Global, components: &[Component]) -> Result<Vec<Vec<u32>>, AllocError>
    ensures { IfOk result (λ calls. rows calls.items
        ≡ map (λ (row : ComponentRow). map (λ (one : OuterRow). one.component) row.outer.items) components.now) }
{
    let mut calls = Vec::with_capacity(alloc, components.len())?;
    for component in components {
        calls.push(called(alloc, &component.outer)?)?;
    }
    Ok(calls)
}

/// What an answer says of the procedure of a name, if it says anything of it.
pub fn summary_of<'a>(answer: &'a Answer, name: &Name) -> Option<&'a ProcSummary>
    ensures { option_copied result ≡ find (λ summary. pointwise nat_eq summary.name name.now) answer.now.procs }
{
    answer.procs.iter().find(|summary| summary.name == *name)
}

/// The specs that an answer has for the procedure of a name; none where it says nothing of it. The only error is want of memory.
pub fn specs_of(alloc: Global, answer: &Answer, name: &Name) -> Result<Row<Spec>, AllocError>
    ensures { IfOk result (λ specs. specs ≡ specs_in answer.now name.now) }
{
    match summary_of(answer, name) {
        Some(summary) => copy_of(&summary.specs),
        None => Ok(Row::new(alloc)),
    }
}

/// A procedure as a callee, with these specs. The only error is want of memory.
pub fn callee_with(flow: &Flow, specs: Row<Spec>) -> Result<Callee, AllocError>
    ensures { IfOk result (λ callee. callee ≡ record { name = flow.now.name; params = flow.now.params; specs = specs }) }
{
    Ok(Callee {
        name: copy_of(&flow.name)?,
        params: copy_of(&flow.params)?,
        specs,
    })
}

/// A procedure as a callee, with the specs that an answer has for it. The only error is want of memory.
pub fn callee_of(alloc: Global, flow: &Flow, answer: &Answer) -> Result<Callee, AllocError>
    ensures { IfOk result (λ callee. callee ≡ known_as flow.now answer.now) }
{
    let specs = specs_of(alloc, answer, &flow.name)?;
    callee_with(flow, specs)
}
