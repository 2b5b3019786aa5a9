//! Outstanding claims by their numbers, and the answers of settled components.
ghost use Rattle.std.specs.Prelude.{◌≡◌, List, Some, IfOk, IsSome, map};
ghost use Rattle.std.specs.Option.{option_map};
ghost use Rattle.std.specs.List.{list_any};
ghost use Rattle.call_components.specs.Reaching.{marked};
ghost use Rattle.claim_core.specs.Told.{events_of};
ghost use Rattle.claim_laws.specs.Logs.{replay};
ghost use Rattle.claim_laws.specs.World.{Out};
ghost use Rattle.shape_data.specs.declared.program.Program.{Program};
ghost use Rattle.summary_book.specs.Next.{IsSettled, slots_by};
ghost use Rattle.summary_book.specs.Held.{IsPlaceOf};
ghost use Rattle.summary_book.specs.Places.{answer_at, key_at};
ghost use Rattle.summary_book.specs.Rows.{AreOut, IsOutRow, IsSight};
ghost use Rattle.summary_book.specs.Views.{is_claim, slot_solution};
ghost use Rattle.claim_core.specs.Views.{solution_of};

use crate::places::{key_at, slot_at};
use crate::rows::{OutRow, Parts, SlotRow};
use call_components::reach::is_marked;
use claim_core::{Claim, Event};
use shape_data::answer::{Answer, Kept, Key};
use shape_data::exact::share;
use shape_data::is_same;
use std::alloc::{AllocError, Global};
use std::sync::Arc;

/// Whether an outstanding claim has the number and the key of this one.
fn is_claim(log: &[Event], row: &OutRow, claim: &Claim) -> bool
    ensures { (program : Program) (out : Out) → IsOutRow log.now program row.now out → result ≡ is_claim claim.now out }
{
    if row.number != claim.number() {
        return false;
    }
    let wanted: &Key = claim.key();
    match key_at(log, row.claimed) {
        Some(key) => is_same(key, wanted),
        None => false,
    }
}

/// Whether one of the outstanding claims has the number and the key of this one.
pub fn holds(log: &[Event], out: &[OutRow], claim: &Claim) -> bool
    ensures { (program : Program) (claims : List Out) → AreOut log.now program out.now claims
        → result ≡ list_any (is_claim claim.now) claims }
{
    for row in out {
        if is_claim(log, row, claim) {
            return true;
        }
    }
    false
}

/// The place of the outstanding claim of a number, where there is one.
pub fn place_of(out: &[OutRow], number: u64) -> usize
    ensures { IsPlaceOf number out.now result }
{
    for (place, row) in out.iter().enumerate() {
        if row.number == number {
            return place;
        }
    }
    out.len()
}

/// The key of a claim, shared.
fn shared_key(log: &[Event], place: usize) -> Option<&Arc<Key>>
    ensures { option_map (λ key. key.now.value) result ≡ key_at log.now place }
{
    match log.get(place) {
        Some(Event::Claim { key, .. }) => Some(key),
        _ => None,
    }
}

/// The answer that was published, shared.
fn shared_answer(log: &[Event], place: usize) -> Option<&Arc<Answer>>
    ensures { option_map (λ answer. answer.now.value) result ≡ answer_at log.now place }
{
    match log.get(place) {
        Some(Event::Publish { answer, .. }) => Some(answer),
        _ => None,
    }
}

/// The key and the answer of a slot.
fn kept_in(log: &[Event], row: &SlotRow) -> Result<Kept, AllocError>
    requires key { IsSome (key_at log.now row.now.claimed) }
    requires answer { IsSome (answer_at log.now row.now.published) }
    ensures key { IfOk result (λ kept. key_at log.now row.now.claimed ≡ Some kept.key.value) }
    ensures answer { IfOk result (λ kept. answer_at log.now row.now.published ≡ Some kept.answer.value) }
{
    let Some(key) = shared_key(log, row.claimed) else {
        unreachable!()
    };
    let Some(answer) = shared_answer(log, row.published) else {
        unreachable!()
    };
    Ok(Kept {
        key: share(key)?,
        answer: share(answer)?,
    })
}

/// The keys and answers of the components that an aim reaches, all of them settled.
pub fn collected(
    alloc: Global,
    parts: &Parts,
    log: &[Event],
    slots: &[Option<SlotRow>],
    aim: &[bool],
) -> Result<Vec<Kept>, AllocError>
    requires sight { IsSight log.now parts.now slots.now }
    requires settled { IsSettled (replay (events_of log.now)) (marked aim.now) }
    ensures { IfOk result (λ kept. map solution_of kept.items
        ≡ map slot_solution (slots_by (replay (events_of log.now)) (marked aim.now))) }
{
    let mut all = Vec::new(alloc);
    for place in 0..parts.components.len() {
        if !is_marked(aim, place) {
            continue;
        }
        let Some(row) = slot_at(slots, place) else {
            unreachable!()
        };
        all.push(kept_in(log, &row)?)?;
    }
    Ok(all)
}
