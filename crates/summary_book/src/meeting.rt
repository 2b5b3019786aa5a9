//! What a book keeps of slots and outstanding claims where another program is present. Where both programs have the same structures, the
//! key of a slot that fitted is compared by its procedures alone, and the structures that it uses are not looked up again.
ghost use Rattle.std.specs.Prelude.{◌≡◌, ◌<◌, ◌↔◌, IsTrue, Some, None, IfOk, IfSome, All, length, slice_get};
ghost use Rattle.std.specs.List.{AllZip, filter, filter_map};
ghost use Rattle.claim_core.specs.Told.{events_of};
ghost use Rattle.claim_laws.specs.Logs.{replay};
ghost use Rattle.claim_laws.specs.World.{is_present};
ghost use Rattle.component_keys.specs.Keys.{flows_of, names_of, program_components};
ghost use Rattle.summary_book.specs.Moved.{IsMoved};
ghost use Rattle.summary_book.specs.Rows.{AreParts, AreSlots, IsComposed, IsSight, is_fit_at, place_named};

use crate::places::{key_at, slot_at};
use crate::rows::{OutRow, Parts, SlotRow};
use claim_core::Event;
use composed_keys::{are_flows, is_key_of};
use shape_data::answer::Key;
use shape_data::is_same;
use shape_data::program::{Flow, Program};
use std::alloc::{AllocError, Global};

/// Where a key's members are in a program, and whether it is their component's key over the key's own callees.
#[derive(Clone, Copy)]
pub struct Located {
    pub here: Option<u32>,
    pub fits: bool,
}

/// Whether the procedures at these places have the names of these.
fn have_names(program: &Program, members: &[u32], procs: &[Flow]) -> bool
    requires { All (λ number. number < length program.now.procs) members.now }
    ensures { IsTrue result ↔ (names_of (filter_map (slice_get (flows_of program.now)) members.now) ≡ names_of procs.now) }
{
    if members.len() != procs.len() {
        return false;
    }
    for (place, number) in members.iter().enumerate() {
        if !is_same(
            &program.procs[*number as usize].flow.name,
            &procs[place].name,
        ) {
            return false;
        }
    }
    true
}

/// Whether the component at a place, if there is one, has the members of these names.
fn is_here(parts: &Parts, place: usize, procs: &[Flow]) -> bool
    requires { AreParts parts.now }
    ensures { IsTrue result → place_named (program_components parts.now.program.value) (names_of procs.now) ≡ Some place }
{
    if place >= parts.components.len() {
        return false;
    }
    have_names(&parts.program, &parts.components[place].members, procs)
}

/// The number of the component with the members of these names. The guess is looked at first.
fn place_of(parts: &Parts, guess: usize, procs: &[Flow]) -> Option<usize>
    requires { AreParts parts.now }
    ensures place { result ≡ place_named (program_components parts.now.program.value) (names_of procs.now) }
    ensures within { IfSome result (λ place. place < length parts.now.components.items) }
{
    if is_here(parts, guess, procs) {
        return Some(guess);
    }
    for (place, component) in parts.components.iter().enumerate() {
        if have_names(&parts.program, &component.members, procs) {
            return Some(place);
        }
    }
    None
}

/// Whether a key that is composed over the program's structures is that of the component at a place. Its procedures alone tell.
fn fits_again(parts: &Parts, place: usize, key: &Key) -> bool
    requires parts { AreParts parts.now }
    requires within { place < length parts.now.components.items }
    requires composed { IsComposed parts.now.program.value.structs key.now }
    ensures { result ≡ is_fit_at parts.now.program.value (Some place) key.now }
{
    are_flows(&parts.program, &parts.components[place].members, &key.procs)
}

/// Whether a key is that of the component at a place, over its own callees. Of a key that is known to be composed over the program's
/// structures no more than the procedures are looked at.
fn fits_at(
    alloc: Global,
    parts: &Parts,
    place: usize,
    key: &Key,
    composed: bool,
) -> Result<bool, AllocError>
    requires parts { AreParts parts.now }
    requires within { place < length parts.now.components.items }
    requires composed { IsTrue composed → IsComposed parts.now.program.value.structs key.now }
    ensures { IfOk result (λ fits. fits ≡ is_fit_at parts.now.program.value (Some place) key.now) }
{
    if composed {
        return Ok(fits_again(parts, place, key));
    }
    let members = &parts.components[place].members;
    is_key_of(alloc, &parts.program, &parts.structures, members, key)
}

/// Where a key's members are, and whether the key fits there. It may be known that it is composed over the program's structures.
fn locate(
    alloc: Global,
    parts: &Parts,
    guess: usize,
    key: &Key,
    composed: bool,
) -> Result<Located, AllocError>
    requires parts { AreParts parts.now }
    requires composed { IsTrue composed → IsComposed parts.now.program.value.structs key.now }
    ensures here { IfOk result (λ at. at.here ≡ place_named (program_components parts.now.program.value) (names_of key.now.procs)) }
    ensures fits { IfOk result (λ at. at.fits ≡ is_fit_at parts.now.program.value at.here key.now) }
    ensures within { IfOk result (λ at. IfSome at.here (λ here. here < length parts.now.components.items)) }
{
    match place_of(parts, guess, &key.procs) {
        Some(place) => {
            let fits = fits_at(alloc, parts, place, key, composed)?;
            Ok(Located {
                here: Some(place as u32),
                fits,
            })
        }
        None => Ok(Located {
            here: None,
            fits: false,
        }),
    }
}

/// The slots of the components that are present in another program, too.
pub fn slots_in(
    alloc: Global,
    log: &[Event],
    old: &Parts,
    slots: &[Option<SlotRow>],
    new: &Parts,
) -> Result<Vec<Option<SlotRow>>, AllocError>
    requires sight { IsSight log.now old.now slots.now }
    requires parts { AreParts new.now }
    ensures { IfOk result (λ rows. AreSlots log.now (filter (is_present new.now.program.value) (replay (events_of log.now)).slots)
        new.now.program.value rows.items) }
{
    let same = is_same(&old.program.structs, &new.program.structs);
    let mut kept: Vec<Option<SlotRow>> = vec![in alloc; None; new.components.len()]?;
    for place in 0..slots.len() {
        let Some(row) = slot_at(slots, place) else {
            continue;
        };
        let Some(key) = key_at(log, row.claimed) else {
            continue;
        };
        let at = locate(alloc, new, place, key, same && row.fits)?;
        if let Some(here) = at.here {
            kept[here as usize] = Some(SlotRow {
                claim: row.claim,
                claimed: row.claimed,
                published: row.published,
                fits: at.fits,
            });
        }
    }
    Ok(kept)
}

/// An outstanding claim, where another program is present.
fn out_row_in(alloc: Global, log: &[Event], row: &OutRow, new: &Parts) -> Result<OutRow, AllocError>
    requires { AreParts new.now }
    ensures { IfOk result (λ later. IsMoved log.now new.now.program.value row.now later) }
{
    let guess = match row.here {
        Some(here) => here as usize,
        None => 0,
    };
    let at = match key_at(log, row.claimed) {
        Some(key) => locate(alloc, new, guess, key, false)?,
        None => Located {
            here: None,
            fits: false,
        },
    };
    Ok(OutRow {
        number: row.number,
        claimed: row.claimed,
        here: at.here,
        fits: at.fits,
    })
}

/// The outstanding claims, where another program is present.
pub fn out_in(
    alloc: Global,
    log: &[Event],
    out: &[OutRow],
    new: &Parts,
) -> Result<Vec<OutRow>, AllocError>
    requires { AreParts new.now }
    ensures rows { IfOk result (λ rows. AllZip (IsMoved log.now new.now.program.value) out.now rows.items) }
{
    let mut moved = Vec::with_capacity(alloc, out.len())?;
    for row in out {
        moved.push(out_row_in(alloc, log, row, new)?)?;
    }
    Ok(moved)
}
