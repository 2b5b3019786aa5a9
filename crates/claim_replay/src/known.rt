//! How the components of a world stand, computed one after the other by the definitions.
ghost use Rattle.std.specs.Prelude.{◌≡◌, ◌<◌, map, length, All, IfOk};
ghost use Rattle.std.specs.List.{filter_map};
ghost use Rattle.std.specs.Option.{option_map};
ghost use Rattle.std.specs.Prelude.{slice_get};
ghost use Rattle.call_components.specs.Tables.{at_place};
ghost use Rattle.claim_replay.specs.Values.{AreKnownFor, IsPresent, given_row, given_rows, place_settled, slot_value};
ghost use Rattle.claim_laws.specs.World.{settled_by, slot_of};
ghost use Rattle.component_keys.specs.Components.{same_names};
ghost use Rattle.component_keys.specs.Keys.{flows_of, key_over, names_of, specs_in};
ghost use Rattle.component_keys.specs.Tests.{key_test};
ghost use Rattle.composed_keys.specs.Used.{AreStructures};

use crate::standing::Standing;
use crate::world::Slot;
use composed_keys::{Component, Outer, Structures, key_of};
use shape_data::answer::{Answer, Callee, Key};
use shape_data::program::{Flow, Program};
use shape_data::symbolic::Spec;
use shape_data::{Name, Row, copy_of, is_same};
use std::alloc::{AllocError, Global};

/// Whether two keys are the same.
pub fn same_key(one: &Key, other: &Key) -> bool
    ensures { result ≡ key_test.0 one.now other.now }
{
    is_same(one, other)
}

/// Whether two lists of names are the same.
pub fn are_same_names(one: &[Name], other: &[Name]) -> bool
    ensures { result ≡ same_names one.now other.now }
{
    one == other
}

/// The specs that an answer has for a procedure.
fn specs_of(alloc: Global, answer: &Answer, name: &Name) -> Result<Row<Spec>, AllocError>
    ensures { IfOk result (λ specs. specs ≡ specs_in answer.now name.now) }
{
    match answer.procs.iter().find(|summary| summary.name == *name) {
        Some(summary) => Ok(copy_of(&summary.specs)?),
        None => Ok(Row::new(alloc)),
    }
}

/// A procedure as a callee, with the specs that an answer has for it.
fn callee_of(alloc: Global, flow: &Flow, answer: &Answer) -> Result<Callee, AllocError>
    ensures { IfOk result (λ callee. callee
        ≡ record { name = flow.now.name; params = flow.now.params; specs = specs_in answer.now flow.now.name }) }
{
    Ok(Callee {
        name: copy_of(&flow.name)?,
        params: copy_of(&flow.params)?,
        specs: specs_of(alloc, answer, &flow.name)?,
    })
}

/// The place of the slot by which the component of a place is settled.
fn settled_place(known: &[Standing], place: u32) -> Option<usize>
    ensures { result ≡ place_settled (slice_get known.now place) }
{
    match known.get(place as usize) {
        Some(standing) => standing.settled,
        None => None,
    }
}

/// A callee, where its component is settled.
fn given_one(
    alloc: Global,
    program: &Program,
    slots: &[Slot],
    known: &[Standing],
    outer: &Outer,
) -> Result<Option<Callee>, AllocError>
    requires { outer.now.number < length program.now.procs }
    ensures { IfOk result (λ callee. callee ≡ given_row (flows_of program.now) (map slot_value slots.now) known.now outer.now) }
{
    let Some(place) = settled_place(known, outer.component) else {
        return Ok(None);
    };
    let Some(slot) = slots.get(place) else {
        return Ok(None);
    };
    let flow = &program.procs[outer.number as usize].flow;
    Ok(Some(callee_of(alloc, flow, &slot.answer)?))
}

/// The callees of a component, where all their components are settled.
fn given(
    alloc: Global,
    program: &Program,
    slots: &[Slot],
    known: &[Standing],
    outer: &[Outer],
) -> Result<Option<Row<Callee>>, AllocError>
    requires { All (λ outer. outer.number < length program.now.procs) outer.now }
    ensures { IfOk result (λ callees. callees ≡ given_rows (flows_of program.now) (map slot_value slots.now) known.now outer.now) }
{
    let mut callees = Row::new(alloc);
    for one in outer {
        match given_one(alloc, program, slots, known, one)? {
            Some(callee) => callees.push(callee)?,
            None => return Ok(None),
        }
    }
    Ok(Some(callees))
}

/// The names of the procedures at these places.
pub fn names_at(alloc: Global, program: &Program, members: &[u32]) -> Result<Row<Name>, AllocError>
    requires { All (λ number. number < length program.now.procs) members.now }
    ensures { IfOk result (λ names. names ≡ names_of (filter_map (slice_get (flows_of program.now)) members.now)) }
{
    let mut names = Row::new(alloc);
    for number in members {
        names.push(copy_of(&program.procs[*number as usize].flow.name)?)?;
    }
    Ok(names)
}

/// The place of the slot of these members.
pub fn slot_place(slots: &[Slot], members: &[Name]) -> Option<usize>
    ensures { at_place (map slot_value slots.now) result ≡ slot_of (map slot_value slots.now) members.now }
{
    for (place, slot) in slots.iter().enumerate() {
        if are_same_names(&slot.members, members) {
            return Some(place);
        }
    }
    None
}

/// The place of a slot, where its key is the one that is due.
fn settling(slots: &[Slot], place: Option<usize>, due: &Option<Key>) -> Option<usize>
    ensures { at_place (map slot_value slots.now) result ≡ settled_by (at_place (map slot_value slots.now) place) due.now }
{
    let Some(place) = place else {
        return None;
    };
    let Some(due) = due else {
        return None;
    };
    let Some(slot) = slots.get(place) else {
        return None;
    };
    if same_key(&slot.key, due) {
        Some(place)
    } else {
        None
    }
}

/// How a component stands, over how those before it stand.
fn standing_of(
    alloc: Global,
    program: &Program,
    structures: &Structures,
    slots: &[Slot],
    known: &[Standing],
    row: &Component,
) -> Result<Standing, AllocError>
    requires structures { AreStructures program.now.structs structures.now }
    requires members { All (λ number. number < length program.now.procs) row.now.members.items }
    requires outer { All (λ outer. outer.number < length program.now.procs) row.now.outer.items }
    ensures due { IfOk result (λ standing. standing.due
        ≡ option_map (key_over program.now.structs (filter_map (slice_get (flows_of program.now)) row.now.members.items))
        (given_rows (flows_of program.now) (map slot_value slots.now) known.now row.now.outer.items)) }
    ensures settled { IfOk result (λ standing. at_place (map slot_value slots.now) standing.settled
        ≡ settled_by (slot_of (map slot_value slots.now) (names_of (filter_map (slice_get (flows_of program.now)) row.now.members.items)))
        standing.due) }
{
    let names = names_at(alloc, program, &row.members)?;
    let callees = given(alloc, program, slots, known, &row.outer)?;
    let due = match callees {
        Some(callees) => Some(key_of(alloc, program, structures, &row.members, callees)?),
        None => None,
    };
    let settled = settling(slots, slot_place(slots, &names), &due);
    Ok(Standing { due, settled })
}

/// How the components of a program stand, where these are the slots.
pub fn standings(
    alloc: Global,
    program: &Program,
    rows: &[Component],
    structures: &Structures,
    slots: &[Slot],
) -> Result<Vec<Standing>, AllocError>
    requires { IsPresent program.now rows.now structures.now }
    ensures len { IfOk result (λ known. length known.items ≡ length rows.now) }
    ensures are { IfOk result (λ known. AreKnownFor program.now (map slot_value slots.now) known.items) }
{
    let mut known = Vec::with_capacity(alloc, rows.len())?;
    for row in rows {
        let standing = standing_of(alloc, program, structures, slots, &known, row)?;
        known.push(standing)?;
    }
    Ok(known)
}
