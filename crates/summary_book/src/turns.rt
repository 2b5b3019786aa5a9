//! The search for the first component that may be claimed: once through the components that an aim reaches, callees first.
ghost use Rattle.std.specs.Prelude.{◌≡◌, ℕ, ◌<◌, Some, None, All, length, true};
ghost use Rattle.std.specs.List.{find};
ghost use Rattle.std.specs.Option.{option_map};
ghost use Rattle.call_components.specs.Reaching.{marked};
ghost use Rattle.claim_core.specs.Told.{events_of};
ghost use Rattle.claim_laws.specs.Invariant.{IsDueAt};
ghost use Rattle.claim_laws.specs.Logs.{replay};
ghost use Rattle.claim_laws.specs.Waits.{IsAim};
ghost use Rattle.claim_laws.specs.World.{Out};
ghost use Rattle.component_keys.specs.Tests.{key_test};
ghost use Rattle.composed_keys.specs.declared.rows.Outer.{Outer as OuterRow};
ghost use Rattle.shape_data.specs.declared.answer.Key.{Key};
ghost use Rattle.summary_book.specs.Rows.{AreMarks, AreOut, IsOutRow, IsSight};
ghost use Rattle.summary_book.specs.Settled.{IsExactAt, IsTurn, StayMarked};
ghost use Rattle.summary_book.specs.Found.{IsAllFound, IsFound, lesser};

use crate::rows::{OutRow, Parts, SlotRow};
use crate::settled::{are_marked, has_known, settling};
use call_components::reach::is_marked;
use claim_core::Event;
use shape_data::is_same;

/// What is found at a component.
pub enum Turn {
    /// It is settled.
    Settled,
    /// It calls a component that is not.
    Blocked,
    /// The claim of this number is for it.
    Out(u64),
    /// It may be claimed.
    Free,
}

/// What is found for an aim.
pub enum Found {
    /// The first component that may be claimed.
    Free(usize),
    /// None, and the least claim by which one is out.
    Waits(u64),
    /// Each is settled.
    All,
}

/// Whether an outstanding claim holds the key that a component is due.
pub fn holds_due(
    parts: &Parts,
    log: &[Event],
    slots: &[Option<SlotRow>],
    row: &OutRow,
    place: usize,
) -> bool
    requires sight { IsSight log.now parts.now slots.now }
    requires place { place < length parts.now.components.items }
    ensures { (key : Key) (claim : Out) → IsDueAt (replay (events_of log.now)) place key
        → IsOutRow log.now parts.now.program.value row.now claim → result ≡ key_test.0 claim.key key }
{
    let here = Some(place as u32);
    if !is_same(&row.here, &here) {
        return false;
    }
    if !row.fits {
        return false;
    }
    let component = &parts.components[place];
    has_known(parts, log, slots, &component.outer, row.claimed)
}

/// The number of the outstanding claim that holds the key that a component is due, if there is one.
fn holder(
    parts: &Parts,
    log: &[Event],
    slots: &[Option<SlotRow>],
    out: &[OutRow],
    place: usize,
) -> Option<u64>
    requires sight { IsSight log.now parts.now slots.now }
    requires out { AreOut log.now parts.now.program.value out.now (replay (events_of log.now)).out }
    requires place { place < length parts.now.components.items }
    ensures { (key : Key) → IsDueAt (replay (events_of log.now)) place key
        → result ≡ option_map (λ claim. claim.number) (find (λ claim. key_test.0 claim.key key) (replay (events_of log.now)).out) }
{
    for row in out {
        if holds_due(parts, log, slots, row, place) {
            return Some(row.number);
        }
    }
    None
}

/// What is found at a component, where the settled ones that it calls are marked.
fn turn_of(
    parts: &Parts,
    log: &[Event],
    slots: &[Option<SlotRow>],
    marks: &[bool],
    out: &[OutRow],
    place: usize,
) -> Turn
    requires sight { IsSight log.now parts.now slots.now }
    requires marks { AreMarks (replay (events_of log.now)) marks.now }
    requires exact { IsExactAt (replay (events_of log.now)) marks.now place }
    requires out { AreOut log.now parts.now.program.value out.now (replay (events_of log.now)).out }
    requires place { place < length parts.now.components.items }
    ensures { IsTurn (replay (events_of log.now)) place result }
{
    let component = &parts.components[place];
    if !are_marked(marks, &component.outer) {
        return Turn::Blocked;
    }
    if settling(parts, log, slots, marks, place).is_some() {
        return Turn::Settled;
    }
    match holder(parts, log, slots, out, place) {
        Some(number) => Turn::Out(number),
        None => Turn::Free,
    }
}

/// The lesser of two numbers, the first of which may be missing.
fn lesser(least: Option<u64>, number: u64) -> u64
    ensures { result ≡ lesser least number }
{
    match least {
        Some(other) => other.min(number),
        None => number,
    }
}

/// Looks through the components that the aim reaches up to the first that may be claimed, and marks those that are settled.
pub fn first_free(
    parts: &Parts,
    log: &[Event],
    slots: &[Option<SlotRow>],
    marks: &mut Vec<bool>,
    out: &[OutRow],
    aim: &[bool],
) -> Found
    requires sight { IsSight log.now parts.now slots.now }
    requires marks { AreMarks (replay (events_of log.now)) marks.old.items }
    requires out { AreOut log.now parts.now.program.value out.now (replay (events_of log.now)).out }
    requires aim { IsAim (replay (events_of log.now)) (marked aim.now) }
    ensures marks { AreMarks (replay (events_of log.now)) marks.new.items }
    ensures stay { StayMarked marks.old.items marks.new.items }
    ensures found { IsFound (replay (events_of log.now)) (marked aim.now) result }
    ensures all { IsAllFound result → (place : ℕ) → place < length parts.now.components.items → marked aim.now place ≡ true
        → marked marks.new.items place ≡ true }
{
    let mut least: Option<u64> = None;
    for place in 0..parts.components.len() {
        if !is_marked(aim, place) {
            continue;
        }
        if is_marked(marks, place) {
            continue;
        }
        match turn_of(parts, log, slots, marks, out, place) {
            Turn::Settled => marks[place] = true,
            Turn::Blocked => {}
            Turn::Out(number) => least = Some(lesser(least, number)),
            Turn::Free => return Found::Free(place),
        }
    }
    match least {
        Some(claim) => Found::Waits(claim),
        None => Found::All,
    }
}
