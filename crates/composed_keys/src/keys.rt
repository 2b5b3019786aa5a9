//! Keys made of components.
ghost use Rattle.std.specs.Prelude.{◌≡◌, ◌<◌, ◌↔◌, IsTrue, length, All, IfOk, slice_get};
ghost use Rattle.std.specs.List.{filter_map, list_any};
ghost use Rattle.component_keys.specs.Keys.{flows_of, key_over};
ghost use Rattle.composed_keys.specs.Used.{AreStructures};
ghost use Rattle.composed_keys.specs.Calling.{calls_any, names_any};

use crate::rows::Structures;
use crate::structures::used;
use shape_data::answer::{Callee, Key};
use shape_data::program::{Cmd, Flow, Node, Program};
use shape_data::{Name, Row, copy_of, is_same};
use std::alloc::{AllocError, Global};

/// The procedures at these places.
pub fn flows_at(alloc: Global, program: &Program, members: &[u32]) -> Result<Row<Flow>, AllocError>
    requires { All (λ number. number < length program.now.procs) members.now }
    ensures { IfOk result (λ flows. flows ≡ filter_map (slice_get (flows_of program.now)) members.now) }
{
    let mut flows = Row::new(alloc);
    for number in members {
        flows.push(copy_of(&program.procs[*number as usize].flow)?)?;
    }
    Ok(flows)
}

/// Whether one of the procedures has the name.
fn is_among(flows: &[Flow], name: &Name) -> bool
    ensures { result ≡ names_any flows.now name.now }
{
    flows.iter().any(|flow| flow.name == *name)
}

/// Whether a node calls one of the procedures.
fn calls_one(flows: &[Flow], node: &Node) -> bool
    ensures { result ≡ calls_any flows.now node.now.cmd }
{
    match &node.cmd {
        Cmd::Call { callee, .. } => is_among(flows, callee),
        _ => false,
    }
}

/// Whether a node of a procedure calls one of the procedures.
fn has_call(flows: &[Flow], flow: &Flow) -> bool
    ensures { result ≡ list_any (λ node. calls_any flows.now node.cmd) flow.now.nodes }
{
    flow.nodes.iter().any(|node| calls_one(flows, node))
}

/// Whether one of the procedures calls one of them.
fn call_themselves(flows: &[Flow]) -> bool
    ensures { result ≡ list_any (λ flow. list_any (λ node. calls_any flows.now node.cmd) flow.nodes) flows.now }
{
    flows.iter().any(|flow| has_call(flows, flow))
}

/// The key of the procedures at these places, over what is known of their callees.
pub fn key_of(
    alloc: Global,
    program: &Program,
    structures: &Structures,
    members: &[u32],
    callees: Row<Callee>,
) -> Result<Key, AllocError>
    requires members { All (λ number. number < length program.now.procs) members.now }
    requires structures { AreStructures program.now.structs structures.now }
    ensures { IfOk result (λ key. key ≡ key_over program.now.structs (filter_map (slice_get (flows_of program.now)) members.now) callees) }
{
    let procs = flows_at(alloc, program, members)?;
    let structs = used(alloc, &program.structs, structures, &procs, &callees)?;
    Ok(Key {
        recursive: call_themselves(&procs),
        procs,
        structs,
        callees,
    })
}

/// Whether these are the procedures at these places.
pub fn are_flows(program: &Program, members: &[u32], flows: &[Flow]) -> bool
    requires { All (λ number. number < length program.now.procs) members.now }
    ensures { IsTrue result ↔ (flows.now ≡ filter_map (slice_get (flows_of program.now)) members.now) }
{
    if flows.len() != members.len() {
        return false;
    }
    for (place, number) in members.iter().enumerate() {
        if !is_same(&flows[place], &program.procs[*number as usize].flow) {
            return false;
        }
    }
    true
}

/// Whether a key is that of the procedures at these places, over its own callees.
pub fn is_key_of(
    alloc: Global,
    program: &Program,
    structures: &Structures,
    members: &[u32],
    key: &Key,
) -> Result<bool, AllocError>
    requires members { All (λ number. number < length program.now.procs) members.now }
    requires structures { AreStructures program.now.structs structures.now }
    ensures { IfOk result (λ is. IsTrue is
        ↔ (key.now ≡ key_over program.now.structs (filter_map (slice_get (flows_of program.now)) members.now) key.now.callees)) }
{
    if !are_flows(program, members, &key.procs) {
        return Ok(false);
    }
    let structs = used(
        alloc,
        &program.structs,
        structures,
        &key.procs,
        &key.callees,
    )?;
    let recursive = call_themselves(&key.procs);
    if !is_same(&key.recursive, &recursive) {
        return Ok(false);
    }
    Ok(is_same(&key.structs, &structs))
}
