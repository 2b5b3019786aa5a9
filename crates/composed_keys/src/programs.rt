//! The components of a program by the numbers of its procedures: who calls whom, by name, and for each component whom it calls
//! outside of itself. It takes time in proportion to the procedures and the calls, times a logarithm, beside what the order of the
//! components takes.
ghost use Rattle.std.specs.Prelude.{◌≡◌, ◌<◌, map, length, All, IfOk};
ghost use Rattle.std.specs.List.{filter_map};
ghost use Rattle.call_components.specs.Reaching.{rows};
ghost use Rattle.component_keys.specs.Components.{by_name};
ghost use Rattle.component_keys.specs.Keys.{flows_of, program_components};
ghost use Rattle.component_keys.specs.Laws.{IsCallGraph};
ghost use Rattle.composed_keys.specs.Programs.{ArePlaces, ArePut, called_in};
ghost use Rattle.composed_keys.specs.Rows.{AreRowsOf, AreWithin, component_value};
ghost use Rattle.shape_data.specs.WellFormed.{IsProgram};

use crate::outside::rows_of;
use crate::rows::Component;
use call_components::listing::ordered_components;
use call_components::order::{first_named, in_order};
use shape_data::program::{Cmd, Flow, Node, Proc, Program};
use shape_data::{Name, copy_of};
use std::alloc::{AllocError, Global};

/// The names of procedures.
fn names_in(alloc: Global, procs: &[Proc]) -> Result<Vec<Name>, AllocError>
    ensures { IfOk result (λ names. names.items ≡ map (λ proc. proc.flow.name) procs.now) }
{
    let mut names = Vec::with_capacity(alloc, procs.len())?;
    for proc in procs {
        names.push(copy_of(&proc.flow.name)?)?;
    }
    Ok(names)
}

/// The place of the procedure that a command calls.
fn called_number(names: &[Name], order: &[u32], node: &Node) -> Option<u32>
    requires { order.now ≡ by_name names.now (length names.now) }
    ensures { result ≡ called_in names.now node.now }
{
    match &node.cmd {
        Cmd::Call { callee, .. } => first_named(names, order, callee),
        _ => None,
    }
}

/// The places of the procedures that a procedure calls.
fn called_numbers(
    alloc: Global,
    names: &[Name],
    order: &[u32],
    flow: &Flow,
) -> Result<Vec<u32>, AllocError>
    requires { order.now ≡ by_name names.now (length names.now) }
    ensures { IfOk result (λ calls. calls.items ≡ filter_map (called_in names.now) flow.now.nodes) }
{
    flow.nodes
        .iter()
        .filter_map(|node| called_number(names, order, node))
        .collect(alloc)
}

/// Who calls whom, by places.
fn calls_in(
    alloc: Global,
    names: &[Name],
    order: &[u32],
    procs: &[Proc],
) -> Result<Vec<Vec<u32>>, AllocError>
    requires { order.now ≡ by_name names.now (length names.now) }
    ensures { IfOk result (λ calls. rows calls.items ≡ map (λ proc. filter_map (called_in names.now) proc.flow.nodes) procs.now) }
{
    let mut calls = Vec::with_capacity(alloc, procs.len())?;
    for proc in procs {
        calls.push(called_numbers(alloc, names, order, &proc.flow)?)?;
    }
    Ok(calls)
}

/// Writes the value at each of the places.
#[tactic(auto, using(crate::proofs::Placed::more_put))]
fn put_all(numbers: &[u32], value: u32, places: &mut Vec<u32>)
    requires { All (λ number. number < length places.old.items) numbers.now }
    ensures lengths { length places.new.items ≡ length places.old.items }
    ensures put { ArePut numbers.now value places.old.items places.new.items }
{
    for number in numbers {
        places[*number as usize] = value;
    }
}

/// The place of each procedure's component.
fn places_of(alloc: Global, count: usize, all: &[Vec<u32>]) -> Result<Vec<u32>, AllocError>
    requires few { length all.now < 4294967296 }
    requires within { All (λ class. All (λ number. number < count) class.items) all.now }
    ensures { IfOk result (λ places. ArePlaces count (rows all.now) 0 places.items) }
{
    let mut places = vec![in alloc; all.len() as u32; count]?;
    for place in (0..all.len()).rev() {
        put_all(&all[place], place as u32, &mut places);
    }
    Ok(places)
}

/// The components of a graph of calls, callees first.
fn components_in(
    alloc: Global,
    names: &[Name],
    order: &[u32],
    calls: &[Vec<u32>],
) -> Result<Vec<Component>, AllocError>
    requires small { length names.now < 4294967296 }
    requires graph { IsCallGraph names.now (rows calls.now) }
    requires order { order.now ≡ by_name names.now (length names.now) }
    ensures { IfOk result (λ made. AreRowsOf names.now (rows calls.now) made.items) }
{
    let all = ordered_components(alloc, names, calls, order)?;
    let places = places_of(alloc, calls.len(), &all)?;
    rows_of(alloc, calls, &places, order, all)
}

/// The components of a program, callees first.
pub fn components_of(alloc: Global, program: &Program) -> Result<Vec<Component>, AllocError>
    requires { IsProgram program.now }
    ensures are { IfOk result (λ made. map (component_value (flows_of program.now)) made.items ≡ program_components program.now) }
    ensures within { IfOk result (λ made. AreWithin (length program.now.procs) made.items) }
{
    let procs = program.procs.as_slice();
    let names = names_in(alloc, procs)?;
    let order = in_order(alloc, &names)?;
    let calls = calls_in(alloc, &names, &order, procs)?;
    components_in(alloc, &names, &order, &calls)
}
