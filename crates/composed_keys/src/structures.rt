//! The structures that procedures and their callees' specs name, by their places in the program. Each name is looked up by a binary
//! search, in time in proportion to a logarithm of the number of structures.
ghost use Rattle.std.specs.Prelude.{◌≡◌, ◌<◌, ◌++◌, [], ◌∷◌, map, length, All, IfOk, OnOk, slice_get};
ghost use Rattle.std.specs.List.{filter, filter_map, flat_map};
ghost use Rattle.call_components.specs.Reaching.{marked, rows};
ghost use Rattle.component_keys.specs.Structures.{
  atom_struct,
  command_struct,
  named_by_callee,
  named_by_flow,
  named_by_heap,
  named_by_spec,
  named_numbers,
  pointed_by,
  pointed_rows,
  struct_numbers,
  structs_used,
  type_struct,
};
ghost use Rattle.composed_keys.specs.Used.{AreStructures, noted};

use crate::rows::Structures;
use crate::structure_index::StructureIndex;
use call_components::order::in_order;
use call_components::reach::{is_marked, reach};
use shape_data::answer::Callee;
use shape_data::program::{Cmd, Flow, Node, StructDef, Ty};
use shape_data::symbolic::{Atom, Post, Spec, SymHeap};
use shape_data::{Name, Row, copy_of};
use std::alloc::{AllocError, Global};

/// Puts the place of a structure behind.
fn note(structs: &StructureIndex, name: &Name, numbers: &mut Vec<u32>) -> Result<(), AllocError>
    ensures { OnOk result (numbers.new.items ≡ numbers.old.items ++ struct_numbers structs.now (name.now ∷ [])) }
{
    if let Some(number) = structs.number_of(name) {
        numbers.push(number)?;
    }
    Ok(())
}

/// Puts the place of the structure that a type points to behind.
fn note_type(structs: &StructureIndex, ty: &Ty, numbers: &mut Vec<u32>) -> Result<(), AllocError>
    ensures { OnOk result (numbers.new.items ≡ noted structs.now numbers.old.items (type_struct ty.now)) }
{
    match ty {
        Ty::Ptr(name) => note(structs, name, numbers),
        Ty::Int => Ok(()),
        Ty::Void => Ok(()),
    }
}

/// Puts the place of the structure that a command names behind.
fn note_node(
    structs: &StructureIndex,
    node: &Node,
    numbers: &mut Vec<u32>,
) -> Result<(), AllocError>
    ensures { OnOk result (numbers.new.items ≡ noted structs.now numbers.old.items (command_struct node.now.cmd)) }
{
    match &node.cmd {
        Cmd::Any { ty, .. } => note_type(structs, ty, numbers),
        Cmd::Load { kind, .. } => note(structs, kind, numbers),
        Cmd::Store { kind, .. } => note(structs, kind, numbers),
        Cmd::New { kind, .. } => note(structs, kind, numbers),
        Cmd::Free { kind, .. } => note(structs, kind, numbers),
        Cmd::Copy { .. } => Ok(()),
        Cmd::Arith { .. } => Ok(()),
        Cmd::Call { .. } => Ok(()),
        Cmd::Branch { .. } => Ok(()),
        Cmd::Return { .. } => Ok(()),
    }
}

/// Puts the place of the structure of an atom behind.
fn note_atom(
    structs: &StructureIndex,
    atom: &Atom,
    numbers: &mut Vec<u32>,
) -> Result<(), AllocError>
    ensures { OnOk result (numbers.new.items ≡ noted structs.now numbers.old.items (atom_struct atom.now)) }
{
    match atom {
        Atom::Points { kind, .. } => note(structs, kind, numbers),
        Atom::Seg { kind, .. } => note(structs, kind, numbers),
        Atom::Junk => Ok(()),
    }
}

/// Puts the places of the structures that types point to behind.
fn note_types(
    structs: &StructureIndex,
    types: &[Ty],
    numbers: &mut Vec<u32>,
) -> Result<(), AllocError>
    ensures { OnOk result (numbers.new.items ≡ numbers.old.items ++ struct_numbers structs.now (filter_map type_struct types.now)) }
{
    for ty in types {
        note_type(structs, ty, numbers)?;
    }
    Ok(())
}

/// Puts the places of the structures that a procedure names behind.
fn note_flow(
    structs: &StructureIndex,
    flow: &Flow,
    numbers: &mut Vec<u32>,
) -> Result<(), AllocError>
    ensures { OnOk result (numbers.new.items ≡ numbers.old.items ++ struct_numbers structs.now (named_by_flow flow.now)) }
{
    note_types(structs, &flow.slots, numbers)?;
    note_type(structs, &flow.ret, numbers)?;
    note_nodes(structs, &flow.nodes, numbers)
}

fn note_nodes(
    structs: &StructureIndex,
    nodes: &[Node],
    numbers: &mut Vec<u32>,
) -> Result<(), AllocError>
    ensures { OnOk result
        (numbers.new.items ≡ numbers.old.items ++ struct_numbers structs.now (filter_map (λ node. command_struct node.cmd) nodes.now)) }
{
    for node in nodes {
        note_node(structs, node, numbers)?;
    }
    Ok(())
}

fn note_heap(
    structs: &StructureIndex,
    heap: &SymHeap,
    numbers: &mut Vec<u32>,
) -> Result<(), AllocError>
    ensures { OnOk result (numbers.new.items ≡ numbers.old.items ++ struct_numbers structs.now (named_by_heap heap.now)) }
{
    let atoms = heap.spatial.as_slice();
    for atom in atoms {
        note_atom(structs, atom, numbers)?;
    }
    Ok(())
}

fn note_posts(
    structs: &StructureIndex,
    posts: &[Post],
    numbers: &mut Vec<u32>,
) -> Result<(), AllocError>
    ensures { OnOk result
        (numbers.new.items ≡ numbers.old.items ++ struct_numbers structs.now (flat_map (λ post. named_by_heap post.heap) posts.now)) }
{
    for post in posts {
        note_heap(structs, &post.heap, numbers)?;
    }
    Ok(())
}

fn note_spec(
    structs: &StructureIndex,
    spec: &Spec,
    numbers: &mut Vec<u32>,
) -> Result<(), AllocError>
    ensures { OnOk result (numbers.new.items ≡ numbers.old.items ++ struct_numbers structs.now (named_by_spec spec.now)) }
{
    note_heap(structs, &spec.pre, numbers)?;
    note_posts(structs, &spec.posts, numbers)
}

fn note_callee(
    structs: &StructureIndex,
    callee: &Callee,
    numbers: &mut Vec<u32>,
) -> Result<(), AllocError>
    ensures { OnOk result (numbers.new.items ≡ numbers.old.items ++ struct_numbers structs.now (named_by_callee callee.now)) }
{
    let specs = callee.specs.as_slice();
    for spec in specs {
        note_spec(structs, spec, numbers)?;
    }
    Ok(())
}

fn note_flows(
    structs: &StructureIndex,
    flows: &[Flow],
    numbers: &mut Vec<u32>,
) -> Result<(), AllocError>
    ensures { OnOk result (numbers.new.items ≡ numbers.old.items ++ struct_numbers structs.now (flat_map named_by_flow flows.now)) }
{
    for flow in flows {
        note_flow(structs, flow, numbers)?;
    }
    Ok(())
}

fn note_callees(
    structs: &StructureIndex,
    callees: &[Callee],
    numbers: &mut Vec<u32>,
) -> Result<(), AllocError>
    ensures { OnOk result (numbers.new.items ≡ numbers.old.items ++ struct_numbers structs.now (flat_map named_by_callee callees.now)) }
{
    for callee in callees {
        note_callee(structs, callee, numbers)?;
    }
    Ok(())
}

/// The places of the structures that the procedures or the callees' specs name.
fn named(
    alloc: Global,
    structs: &StructureIndex,
    flows: &[Flow],
    callees: &[Callee],
) -> Result<Vec<u32>, AllocError>
    ensures { IfOk result (λ numbers. numbers.items ≡ named_numbers structs.now flows.now callees.now) }
{
    let mut numbers = Vec::new(alloc);
    note_flows(structs, flows, &mut numbers)?;
    note_callees(structs, callees, &mut numbers)?;
    Ok(numbers)
}

/// The places of the structures that a structure's fields point to.
fn pointed(alloc: Global, structs: &StructureIndex, def: &StructDef) -> Result<Vec<u32>, AllocError>
    ensures { IfOk result (λ numbers. numbers.items ≡ pointed_by structs.now def.now) }
{
    let mut numbers = Vec::new(alloc);
    let fields = def.fields.as_slice();
    for field in fields {
        note_type(structs, &field.ty, &mut numbers)?;
    }
    Ok(numbers)
}

/// Whom the fields of each structure point to.
fn pointed_of(alloc: Global, structs: &StructureIndex) -> Result<Vec<Vec<u32>>, AllocError>
    ensures { IfOk result (λ pointed. rows pointed.items ≡ pointed_rows structs.now) }
{
    let defs = structs.as_slice();
    let mut all = Vec::with_capacity(alloc, defs.len())?;
    for def in defs {
        all.push(pointed(alloc, structs, def)?)?;
    }
    Ok(all)
}

/// The names of structures.
fn names_in(alloc: Global, structs: &[StructDef]) -> Result<Vec<Name>, AllocError>
    ensures { IfOk result (λ names. names.items ≡ map (λ def. def.name) structs.now) }
{
    let mut names = Vec::with_capacity(alloc, structs.len())?;
    for def in structs {
        names.push(copy_of(&def.name)?)?;
    }
    Ok(names)
}

/// The structures of a program by their places. It takes time in proportion to the structures and their fields, times a logarithm.
pub fn structures_of(alloc: Global, structs: &[StructDef]) -> Result<Structures, AllocError>
    requires { length structs.now < 4294967296 }
    ensures { IfOk result (AreStructures structs.now) }
{
    let names = names_in(alloc, structs)?;
    let order = in_order(alloc, &names)?;
    let index = StructureIndex::new(structs, &names, &order);
    let pointed = pointed_of(alloc, &index)?;
    Ok(Structures {
        pointed,
        names,
        order,
    })
}

/// The structures at the marked places, in order of their names.
fn marked_structs(
    alloc: Global,
    structs: &[StructDef],
    order: &[u32],
    marks: &[bool],
) -> Result<Row<StructDef>, AllocError>
    requires { All (λ number. number < length structs.now) order.now }
    ensures { IfOk result (λ used. used ≡ filter_map (slice_get structs.now) (filter (marked marks.now) order.now)) }
{
    let mut used = Row::new(alloc);
    for number in order {
        if is_marked(marks, *number as usize) {
            used.push(copy_of(&structs[*number as usize])?)?;
        }
    }
    Ok(used)
}

/// The structures used by procedures with these callees, in order of their names. It takes time in proportion to the structures and
/// their fields, and to the names in the procedures and the specs, times a logarithm of the number of structures.
pub fn used(
    alloc: Global,
    structs: &[StructDef],
    table: &Structures,
    flows: &[Flow],
    callees: &[Callee],
) -> Result<Row<StructDef>, AllocError>
    requires { AreStructures structs.now table.now }
    ensures { IfOk result (λ used. used ≡ structs_used structs.now flows.now callees.now) }
{
    let index = StructureIndex::new(structs, &table.names, &table.order);
    let numbers = named(alloc, &index, flows, callees)?;
    let marks = reach(alloc, &table.pointed, &numbers)?;
    marked_structs(alloc, structs, &table.order, &marks)
}
