//! The world after a log. Components, keys and how components stand are computed anew for each event, straight by the definitions.
ghost use Rattle.std.specs.Prelude.{◌≡◌, ◌+◌, ◌<◌, ◌≤◌, ◌==◌, map, length, insert, is_some, position, All, IfOk, IfSome, Some, slice_get};
ghost use Rattle.std.specs.List.{filter, filter_map, list_any};
ghost use Rattle.call_components.specs.Tables.{at_place};
ghost use Rattle.claim_core.specs.Told.{event_of, events_of};
ghost use Rattle.claim_replay.specs.Values.{
  AreKnown,
  IsFormed,
  IsWhole,
  due_is,
  is_of_rows,
  out_value,
  outcome_by,
  row_names,
  slot_value,
  world_value,
};
ghost use Rattle.claim_laws.specs.Logs.{first_world, replay};
ghost use Rattle.claim_laws.specs.World.{
  Event as Named,
  after,
  but,
  is_claimable,
  is_kept_outcome,
  out_of,
  outcome,
  put_slot,
  slot_for,
  slots_with,
  standing_at,
  standings,
  without,
};
ghost use Rattle.component_keys.specs.Components.{same_names};
ghost use Rattle.component_keys.specs.Keys.{flows_of, names_of};
ghost use Rattle.component_keys.specs.Tests.{flows_test, key_test, program_test};
ghost use Rattle.shape_data.specs.WellFormed.{IsProgram};

use crate::known::{are_same_names, names_at, same_key, slot_place, standings as standings_of};
use crate::present::Present;
use crate::standing::Standing;
use crate::world::{Out, Slot, World};
use claim_core::{Event, Published, Seen};
use composed_keys::keys::flows_at;
use composed_keys::{Component, components_of, structures_of};
use shape_data::answer::{Answer, Key};
use shape_data::exact::share;
use shape_data::program::{Flow, Program};
use shape_data::{Name, Row, copy_of, is_same};
use std::alloc::{AllocError, Global};
use std::sync::Arc;

/// Whether a number is the next one.
fn is_next(number: u64, last: u64) -> bool
    ensures { result ≡ (number == last + 1) }
{
    last < u64::MAX && number == last + 1
}

/// Whether two programs are the same.
fn same_program(one: &Program, other: &Program) -> bool
    ensures { result ≡ program_test.0 one.now other.now }
{
    is_same(one, other)
}

/// Whether two lists of procedures are the same.
fn same_flows(one: &Row<Flow>, other: &Row<Flow>) -> bool
    ensures { result ≡ flows_test.0 one.now other.now }
{
    is_same(one, other)
}

/// The first world: the empty program, revision 0 and nothing else.
pub fn first(alloc: Global) -> Result<Present, AllocError>
    ensures world { IfOk result (λ present. world_value present.world ≡ first_world) }
    ensures whole { IfOk result IsWhole }
{
    let program = Program {
        structs: Row::new(alloc),
        procs: Row::new(alloc),
    };
    let rows = components_of(alloc, &program)?;
    let structures = structures_of(alloc, &program.structs)?;
    let world = World {
        revision: 0,
        program: Arc::new(alloc, program)?,
        slots: Row::new(alloc),
        out: Row::new(alloc),
        made: 0,
    };
    Ok(Present {
        world,
        rows,
        structures,
    })
}

/// Whether a slot is of a component of a program.
fn is_of_program(
    alloc: Global,
    program: &Program,
    rows: &[Component],
    slot: &Slot,
) -> Result<bool, AllocError>
    requires { All (λ row. All (λ number. number < length program.now.procs) row.members.items) rows.now }
    ensures { IfOk result (λ is.
        is ≡ list_any (λ row. same_names (names_of (filter_map (slice_get (flows_of program.now)) row.members.items)) slot.now.members)
        rows.now) }
{
    for row in rows {
        let names = names_at(alloc, program, &row.members)?;
        if are_same_names(&names, &slot.members) {
            return Ok(true);
        }
    }
    Ok(false)
}

/// The slots of components of a program.
fn present_slots(
    alloc: Global,
    program: &Program,
    rows: &[Component],
    slots: Row<Slot>,
) -> Result<Row<Slot>, AllocError>
    requires { All (λ row. All (λ number. number < length program.now.procs) row.members.items) rows.now }
    ensures { IfOk result (λ kept. map slot_value kept ≡ filter (is_of_rows program.now rows.now) (map slot_value slots)) }
{
    let mut kept = Row::new(alloc);
    for slot in slots.into_vec() {
        if is_of_program(alloc, program, rows, &slot)? {
            kept.push(slot)?;
        }
    }
    Ok(kept)
}

/// The claims but the one of a number.
fn others(alloc: Global, out: Row<Out>, number: u64) -> Result<Row<Out>, AllocError>
    ensures { IfOk result (λ kept. map out_value kept ≡ without (map out_value out) number) }
{
    let mut kept = Row::new(alloc);
    for claim in out.into_vec() {
        if claim.number != number {
            kept.push(claim)?;
        }
    }
    Ok(kept)
}

/// The slots but those of these members.
fn slots_but(alloc: Global, slots: Row<Slot>, members: &[Name]) -> Result<Row<Slot>, AllocError>
    ensures { IfOk result (λ kept. map slot_value kept ≡ but (map slot_value slots) members.now) }
{
    let mut kept = Row::new(alloc);
    for slot in slots.into_vec() {
        if !are_same_names(&slot.members, members) {
            kept.push(slot)?;
        }
    }
    Ok(kept)
}

/// The place behind the slots of no later claims.
fn place_for(slots: &[Slot], claim: u64) -> usize
    ensures within { result ≤ length slots.now }
    ensures put { (slot : Slot) → slot.claim ≡ claim
        → map slot_value (insert slots.now result slot) ≡ put_slot (slot_value slot) (map slot_value slots.now) }
{
    for (place, slot) in slots.iter().enumerate() {
        if claim < slot.claim {
            return place;
        }
    }
    slots.len()
}

/// The place of the claim of a number.
fn claim_place(out: &[Out], number: u64) -> Option<usize>
    ensures within { IfSome result (λ place. place < length out.now) }
    ensures claim { at_place (map out_value out.now) result ≡ out_of (map out_value out.now) number }
{
    for (place, claim) in out.iter().enumerate() {
        if claim.number == number {
            return Some(place);
        }
    }
    None
}

/// Whether a claim holds the key.
fn holds_key(claim: &Out, key: &Key) -> bool
    ensures { result ≡ key_test.0 claim.now.key.value key.now }
{
    same_key(&claim.key, key)
}

/// Whether one of the claims holds the key.
fn one_holds_key(out: &[Out], key: &Key) -> bool
    ensures { result ≡ list_any (λ claim. key_test.0 claim.key.value key.now) out.now }
{
    out.iter().any(|claim| holds_key(claim, key))
}

/// Whether an outstanding claim holds the key.
fn has_key(out: &[Out], key: &Key) -> bool
    ensures { result ≡ list_any (λ claim. key_test.0 claim.key key.now) (map out_value out.now) }
{
    one_holds_key(out, key)
}

/// The names of procedures.
fn names_in(alloc: Global, flows: &[Flow]) -> Result<Row<Name>, AllocError>
    ensures { IfOk result (λ names. names ≡ names_of flows.now) }
{
    let mut names = Row::new(alloc);
    for flow in flows {
        names.push(copy_of(&flow.name)?)?;
    }
    Ok(names)
}

/// How the components of a world stand.
fn known_in(alloc: Global, present: &Present) -> Result<Vec<Standing>, AllocError>
    requires { IsWhole present.now }
    ensures rows { IfOk result (λ known. length known.items ≡ length present.now.rows.items) }
    ensures len { IfOk result (λ known. length known.items ≡ length (standings (world_value present.now.world))) }
    ensures are { IfOk result (λ known. AreKnown (world_value present.now.world) known.items) }
{
    let program: &Program = &present.world.program;
    standings_of(
        alloc,
        program,
        &present.rows,
        &present.structures,
        &present.world.slots,
    )
}

/// Whether a component is settled, by the place of its slot.
fn is_settled(slots: &[Slot], standing: &Standing) -> bool
    ensures { result ≡ is_some (at_place (map slot_value slots.now) standing.now.settled) }
{
    match standing.settled {
        Some(place) => place < slots.len(),
        None => false,
    }
}

/// Whether a component is due the key.
fn is_due(standing: &Standing, key: &Key) -> bool
    ensures { result ≡ due_is standing.now.due key.now }
{
    match &standing.due {
        Some(due) => same_key(due, key),
        None => false,
    }
}

/// Whether a component is unsettled and due the key.
fn may_be_claimed(
    alloc: Global,
    present: &Present,
    component: u32,
    key: &Key,
) -> Result<bool, AllocError>
    requires { IsWhole present.now }
    ensures { IfOk result (λ may. may ≡ is_claimable (standing_at (world_value present.now.world) component) key.now) }
{
    let known = known_in(alloc, present)?;
    match known.get(component as usize) {
        Some(standing) => {
            Ok(!is_settled(&present.world.slots, standing) && is_due(standing, key))
        }
        None => Ok(false),
    }
}

/// The place of the component of these members.
fn row_place(
    alloc: Global,
    program: &Program,
    rows: &[Component],
    members: &[Name],
) -> Result<Option<usize>, AllocError>
    requires { All (λ row. All (λ number. number < length program.now.procs) row.members.items) rows.now }
    ensures within { IfOk result (λ found. IfSome found (λ place. place < length rows.now)) }
    ensures first { IfOk result (λ found. found ≡ position (λ row. same_names (row_names program.now row) members.now) rows.now) }
{
    for (place, row) in rows.iter().enumerate() {
        let names = names_at(alloc, program, &row.members)?;
        if are_same_names(&names, members) {
            return Ok(Some(place));
        }
    }
    Ok(None)
}

/// What becomes of an answer to a claim, where its component is present.
fn outcome_at(
    alloc: Global,
    present: &Present,
    claim: &Out,
    row: &Component,
    standing: &Standing,
) -> Result<Published, AllocError>
    requires { All (λ number. number < length present.now.world.program.value.procs) row.now.members.items }
    ensures { IfOk result (λ said. said ≡ outcome_by present.now.world claim.now row.now standing.now) }
{
    let slots = present.world.slots.as_slice();
    if let Some(place) = standing.settled {
        if let Some(slot) = slots.get(place) {
            return Ok(Published::Stale(Seen::Settled(slot.claim)));
        }
    }
    if is_due(standing, &claim.key) {
        return Ok(Published::Kept);
    }
    let flows = flows_at(alloc, &present.world.program, &row.members)?;
    if !same_flows(&claim.key.procs, &flows) {
        return Ok(Published::Stale(Seen::Changed(present.world.revision)));
    }
    let names = names_in(alloc, &flows)?;
    if let Some(place) = slot_place(slots, &names) {
        if let Some(slot) = slots.get(place) {
            if claim.number < slot.claim {
                return Ok(Published::Stale(Seen::Later(slot.claim)));
            }
        }
    }
    Ok(Published::Kept)
}

/// What becomes of an answer to a claim.
fn outcome_of(alloc: Global, present: &Present, claim: &Out) -> Result<Published, AllocError>
    requires { IsWhole present.now }
    ensures { IfOk result (λ said. said ≡ outcome (world_value present.now.world) (out_value claim.now)) }
{
    let names = names_in(alloc, &claim.key.procs)?;
    let Some(place) = row_place(alloc, &present.world.program, &present.rows, &names)? else {
        return Ok(Published::Stale(Seen::Gone(present.world.revision)));
    };
    let known = known_in(alloc, present)?;
    outcome_at(alloc, present, claim, &present.rows[place], &known[place])
}

/// Another program is present, where it is another and the revision is the next one.
fn revise(
    alloc: Global,
    present: Present,
    revision: u64,
    program: &Arc<Program>,
) -> Result<Present, AllocError>
    requires whole { IsWhole present }
    requires formed { IsProgram program.now.value }
    ensures world { IfOk result (λ later. world_value later.world
        ≡ after (world_value present.world) (Named.Revise revision program.now.value)) }
    ensures whole { IfOk result IsWhole }
{
    if same_program(program, &present.world.program) || !is_next(revision, present.world.revision) {
        return Ok(present);
    }
    let rows = components_of(alloc, program)?;
    let structures = structures_of(alloc, &program.structs)?;
    let Present {
        world,
        rows: _rows,
        structures: _structures,
    } = present;
    let World {
        revision: _,
        program: _program,
        slots,
        out,
        made,
    } = world;
    let slots = present_slots(alloc, program, &rows, slots)?;
    let world = World {
        revision,
        program: share(program)?,
        slots,
        out,
        made,
    };
    Ok(Present {
        world,
        rows,
        structures,
    })
}

/// A component is handed out, where it may be.
fn claim(
    alloc: Global,
    mut present: Present,
    number: u64,
    worker: u64,
    component: u32,
    key: &Arc<Key>,
) -> Result<Present, AllocError>
    requires { IsWhole present }
    ensures world { IfOk result (λ later. world_value later.world
        ≡ after (world_value present.world) (Named.Claim number worker component key.now.value)) }
    ensures whole { IfOk result IsWhole }
{
    if !is_next(number, present.world.made)
        || has_key(&present.world.out, key)
        || !may_be_claimed(alloc, &present, component, key)?
    {
        return Ok(present);
    }
    let claim = Out {
        number,
        worker,
        component,
        revision: present.world.revision,
        key: share(key)?,
    };
    present.world.out.push(claim)?;
    present.world.made = number;
    Ok(present)
}

/// A claim ends, where it is outstanding.
fn give_back(alloc: Global, present: Present, number: u64) -> Result<Present, AllocError>
    requires { IsWhole present }
    ensures world { IfOk result (λ later. world_value later.world ≡ after (world_value present.world) (Named.GiveBack number)) }
    ensures whole { IfOk result IsWhole }
{
    let Some(_) = claim_place(&present.world.out, number) else {
        return Ok(present);
    };
    let Present {
        world,
        rows,
        structures,
    } = present;
    let World {
        revision,
        program,
        slots,
        out,
        made,
    } = world;
    let world = World {
        revision,
        program,
        slots,
        out: others(alloc, out, number)?,
        made,
    };
    Ok(Present {
        world,
        rows,
        structures,
    })
}

/// Whether an answer is its component's from now on.
fn is_kept(said: Published) -> bool
    ensures { result ≡ is_kept_outcome said }
{
    match said {
        Published::Kept => true,
        Published::Stale(_) => false,
    }
}

/// The slots after an answer to a claim, which is kept or not.
fn slots_after(
    alloc: Global,
    slots: Row<Slot>,
    kept: bool,
    claim: &Out,
    answer: &Arc<Answer>,
) -> Result<Row<Slot>, AllocError>
    ensures { IfOk result (λ later. map slot_value later
        ≡ slots_with (map slot_value slots) kept answer.now.value (Some (out_value claim.now))) }
{
    if kept {
        Ok(slots_put(alloc, slots, claim, answer)?)
    } else {
        Ok(slots)
    }
}

/// The slots with an answer to a claim.
fn slots_put(
    alloc: Global,
    slots: Row<Slot>,
    claim: &Out,
    answer: &Arc<Answer>,
) -> Result<Row<Slot>, AllocError>
    ensures { IfOk result (λ later. map slot_value later
        ≡ put_slot (slot_for (out_value claim.now) answer.now.value) (but (map slot_value slots) (names_of claim.now.key.value.procs))) }
{
    let members = names_in(alloc, &claim.key.procs)?;
    let mut kept = slots_but(alloc, slots, &members)?;
    let place = place_for(&kept, claim.number);
    let slot = Slot {
        members,
        claim: claim.number,
        key: share(&claim.key)?,
        answer: share(answer)?,
    };
    kept.insert(place, slot)?;
    Ok(kept)
}

/// An answer comes to a claim, where that is outstanding and the mark is right.
fn publish(
    alloc: Global,
    present: Present,
    number: u64,
    answer: &Arc<Answer>,
    kept: bool,
) -> Result<Present, AllocError>
    requires { IsWhole present }
    ensures world { IfOk result (λ later. world_value later.world
        ≡ after (world_value present.world) (Named.Publish number answer.now.value kept)) }
    ensures whole { IfOk result IsWhole }
{
    let Some(place) = claim_place(&present.world.out, number) else {
        return Ok(present);
    };
    let said = outcome_of(alloc, &present, &present.world.out[place])?;
    if kept != is_kept(said) {
        return Ok(present);
    }
    let Present {
        world,
        rows,
        structures,
    } = present;
    let World {
        revision,
        program,
        slots,
        out,
        made,
    } = world;
    let slots = slots_after(alloc, slots, kept, &out[place], answer)?;
    let world = World {
        revision,
        program,
        slots,
        out: others(alloc, out, number)?,
        made,
    };
    Ok(Present {
        world,
        rows,
        structures,
    })
}

/// The world after an event. One that may not happen changes nothing; whether an answer is right is left aside.
pub fn apply(alloc: Global, present: Present, event: &Event) -> Result<Present, AllocError>
    requires whole { IsWhole present }
    requires formed { IsFormed event.now }
    ensures world { IfOk result (λ later. world_value later.world ≡ after (world_value present.world) (event_of event.now)) }
    ensures whole { IfOk result IsWhole }
{
    match event {
        Event::Revise { revision, program } => revise(alloc, present, *revision, program),
        Event::Claim {
            number,
            worker,
            component,
            key,
        } => claim(alloc, present, *number, *worker, *component, key),
        Event::Publish {
            number,
            answer,
            kept,
        } => publish(alloc, present, *number, answer, *kept),
        Event::GiveBack { number } => give_back(alloc, present, *number),
    }
}

/// The world after a log whose programs are well formed. An event that may not happen changes nothing; whether answers are right is
/// left aside.
pub fn replay(alloc: Global, log: &[Event]) -> Result<World, AllocError>
    requires { All IsFormed log.now }
    ensures { IfOk result (λ world. world_value world ≡ replay (events_of log.now)) }
{
    let mut present = first(alloc)?;
    for event in log {
        present = apply(alloc, present, event)?;
    }
    let Present {
        world,
        rows: _rows,
        structures: _structures,
    } = present;
    Ok(world)
}
