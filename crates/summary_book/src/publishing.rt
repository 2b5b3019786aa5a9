//! What becomes of an answer.
ghost use Rattle.std.specs.Prelude.{◌≡◌, ℕ, ◌<◌, Some, IfSome, All, is_some, length, slice_get, true};
ghost use Rattle.std.specs.List.{filter_map};
ghost use Rattle.claim_core.specs.Told.{events_of};
ghost use Rattle.call_components.specs.Reaching.{marked};
ghost use Rattle.claim_laws.specs.Logs.{replay, settled_at};
ghost use Rattle.claim_laws.specs.World.{Out, is_due, is_kept_outcome, outcome, standing_at};
ghost use Rattle.component_keys.specs.Keys.{flows_of};
ghost use Rattle.shape_data.specs.declared.answer.Key.{Key};
ghost use Rattle.component_keys.specs.Tests.{flows_test};
ghost use Rattle.summary_book.specs.Moved.{outcome_by_row, with_slot};
ghost use Rattle.summary_book.specs.Places.{key_at};
ghost use Rattle.summary_book.specs.Rows.{AreMarks, IsOutRow, IsSight};
ghost use Rattle.summary_book.specs.Settled.{AreExact, IsExactAt, StayMarked, due_in};

use crate::places::{key_at, slot_at};
use crate::rows::{OutRow, Parts, SlotRow};
use crate::settled::{are_marked, look_at, mark_settled, settling};
use crate::turns::holds_due;
use claim_core::{Event, Published, Seen};
use composed_keys::are_flows;
use shape_data::program::Program;

/// Whether an answer was kept.
pub fn is_kept(published: Published) -> bool
    ensures { result ≡ is_kept_outcome published }
{
    match published {
        Published::Kept => true,
        Published::Stale(_) => false,
    }
}

/// Whether the key of a claim is over the procedures at these places.
fn has_flows(program: &Program, log: &[Event], members: &[u32], claimed: usize) -> bool
    requires { All (λ number. number < length program.now.procs) members.now }
    ensures { (key : Key) → key_at log.now claimed ≡ Some key
        → result ≡ flows_test.0 key.procs (filter_map (slice_get (flows_of program.now)) members.now) }
{
    match key_at(log, claimed) {
        Some(key) => are_flows(program, members, &key.procs),
        None => false,
    }
}

/// What becomes of an answer to the claim of a number, by the slot of its component.
fn outcome_by_slot(slot: Option<SlotRow>, number: u64) -> Published
    ensures { result ≡ outcome_by_row slot number }
{
    match slot {
        Some(row) => {
            if number < row.claim {
                return Published::Stale(Seen::Later(row.claim));
            }
            Published::Kept
        }
        None => Published::Kept,
    }
}

/// Whether the key of an outstanding claim is what a component is due, where the settled ones that it calls are marked.
fn is_due(
    parts: &Parts,
    log: &[Event],
    slots: &[Option<SlotRow>],
    marks: &[bool],
    row: &OutRow,
    place: usize,
) -> bool
    requires sight { IsSight log.now parts.now slots.now }
    requires marks { AreMarks (replay (events_of log.now)) marks.now }
    requires exact { IsExactAt (replay (events_of log.now)) marks.now place }
    requires place { place < length parts.now.components.items }
    ensures { (claim : Out) → IsOutRow log.now parts.now.program.value row.now claim
        → result ≡ is_due (due_in (standing_at (replay (events_of log.now)) place)) claim.key }
{
    let component = &parts.components[place];
    if !are_marked(marks, &component.outer) {
        return false;
    }
    holds_due(parts, log, slots, row, place)
}

/// What becomes of an answer to an outstanding claim, in the order of cases.
pub fn outcome(
    parts: &Parts,
    log: &[Event],
    slots: &[Option<SlotRow>],
    marks: &mut Vec<bool>,
    row: &OutRow,
    revision: u64,
) -> Published
    requires sight { IsSight log.now parts.now slots.now }
    requires marks { AreMarks (replay (events_of log.now)) marks.old.items }
    requires place { IfSome row.now.here (λ here. here < length parts.now.components.items) }
    requires revision { revision ≡ (replay (events_of log.now)).revision }
    ensures marks { AreMarks (replay (events_of log.now)) marks.new.items }
    ensures stay { StayMarked marks.old.items marks.new.items }
    ensures exact { (place : ℕ) → row.now.here ≡ Some place → AreExact (replay (events_of log.now)) marks.new.items place }
    ensures outcome { (claim : Out) → IsOutRow log.now parts.now.program.value row.now claim
        → result ≡ outcome (replay (events_of log.now)) claim }
{
    let Some(here) = row.here else {
        return Published::Stale(Seen::Gone(revision));
    };
    let place = here as usize;
    mark_settled(parts, log, slots, marks, place);
    if let Some(claim) = settling(parts, log, slots, marks, place) {
        return Published::Stale(Seen::Settled(claim));
    }
    if is_due(parts, log, slots, marks, row, place) {
        return Published::Kept;
    }
    let component = &parts.components[place];
    if !has_flows(&parts.program, log, &component.members, row.claimed) {
        return Published::Stale(Seen::Changed(revision));
    }
    outcome_by_slot(slot_at(slots, place), row.number)
}

/// Puts the slot of the component for which the claim was, with the answer at a place of the log.
pub fn keep(slots: &mut Vec<Option<SlotRow>>, row: &OutRow, place: usize)
    requires { IfSome row.now.here (λ here. here < length slots.old.items) }
    ensures { slots.new.items ≡ with_slot slots.old.items row.now place }
{
    if let Some(here) = row.here {
        slots[here as usize] = Some(SlotRow {
            claim: row.number,
            claimed: row.claimed,
            published: place,
            fits: row.fits,
        });
    }
}

/// Marks the component for which a claim was, if it is settled and those that it calls are marked.
pub fn mark(
    parts: &Parts,
    log: &[Event],
    slots: &[Option<SlotRow>],
    marks: &mut Vec<bool>,
    here: Option<u32>,
)
    requires sight { IsSight log.now parts.now slots.now }
    requires marks { AreMarks (replay (events_of log.now)) marks.old.items }
    requires place { IfSome here (λ here. here < length parts.now.components.items) }
    ensures marks { AreMarks (replay (events_of log.now)) marks.new.items }
    ensures stay { StayMarked marks.old.items marks.new.items }
    ensures found { (place : ℕ) → here ≡ Some place → IsExactAt (replay (events_of log.now)) marks.old.items place
        → is_some (settled_at (replay (events_of log.now)) place) ≡ true → marked marks.new.items place ≡ true }
{
    if let Some(here) = here {
        look_at(parts, log, slots, marks, here as usize);
    }
}
