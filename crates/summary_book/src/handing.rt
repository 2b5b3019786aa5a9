//! Components that are handed out.
ghost use Rattle.std.specs.Prelude.{◌≡◌, ◌+◌, ◌<◌, ◌≤◌, ◌++◌, [], ◌∷◌, Some, true, IfOk, OnErr, OnOk, length};
ghost use Rattle.std.specs.Vec.{vec_capacity, vec_len};
ghost use Rattle.claim_core.specs.Sizes.{IsJobKey};
ghost use Rattle.claim_core.specs.Told.{events_of};
ghost use Rattle.claim_core.specs.declared.event.Event.TheVariants as told;
ghost use Rattle.claim_laws.specs.Invariant.{IsDueAt};
ghost use Rattle.claim_laws.specs.Logs.{replay};
ghost use Rattle.shape_data.specs.declared.answer.Key.{Key};
ghost use Rattle.summary_book.specs.Rows.{IsSight};

use crate::known_callees::known_callees;
use crate::rows::{OutRow, Parts, SlotRow};
use claim_core::{Claim, Event};
use composed_keys::key_of;
use shape_data::answer::Key;
use shape_data::exact::share;
use std::alloc::{AllocError, Global};
use std::sync::Arc;

/// The key that a component is due.
pub fn due_key(
    alloc: Global,
    parts: &Parts,
    log: &[Event],
    slots: &[Option<SlotRow>],
    place: usize,
) -> Result<Key, AllocError>
    requires sight { IsSight log.now parts.now slots.now }
    requires place { place < length parts.now.components.items }
    requires due { (key : Key) × IsDueAt (replay (events_of log.now)) place key }
    ensures { IfOk result (λ key. IsDueAt (replay (events_of log.now)) place key) }
{
    let component = &parts.components[place];
    let callees = known_callees(alloc, &parts.program, log, slots, &component.outer)?;
    key_of(
        alloc,
        &parts.program,
        &parts.structures,
        &component.members,
        callees,
    )
}

/// Writes a claim down, with room for its end.
pub fn hand_out(
    log: &mut Vec<Event>,
    out: &mut Vec<OutRow>,
    number: u64,
    worker: u64,
    component: u32,
    revision: u64,
    key: Arc<Key>,
) -> Result<Claim, AllocError>
    requires room { vec_len log.old + vec_len out.old ≤ vec_capacity log.old }
    requires key { IsJobKey key.value }
    ensures number { IfOk result (λ claim. claim.number ≡ number) }
    ensures component { IfOk result (λ claim. claim.component ≡ component) }
    ensures revision { IfOk result (λ claim. claim.revision ≡ revision) }
    ensures key { IfOk result (λ claim. claim.key ≡ key.value) }
    ensures log { OnOk result (log.new.items ≡ log.old.items ++ told.Claim number worker component key ∷ []) }
    ensures out { OnOk result
        (out.new.items
        ≡ out.old.items ++ record { number = number; claimed = length log.old.items; here = Some component; fits = true } ∷ []) }
    ensures room { vec_len log.new + vec_len out.new ≤ vec_capacity log.new }
    ensures log_err { OnErr result (log.new.items ≡ log.old.items) }
    ensures out_err { OnErr result (out.new.items ≡ out.old.items) }
{
    let own = share(&key)?;
    log.reserve(out.len() + 2)?;
    out.reserve(1)?;
    let claimed = log.len();
    log.push_reserved(Event::Claim {
        number,
        worker,
        component,
        key,
    });
    out.push_reserved(OutRow {
        number,
        claimed,
        here: Some(component),
        fits: true,
    });
    Ok(Claim::new(number, component, revision, own))
}
