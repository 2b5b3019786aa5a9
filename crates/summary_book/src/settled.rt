//! Which components are settled. It takes no memory: a slot's key is compared with what its component is due part by part.
ghost use Rattle.std.specs.Prelude.{◌≡◌, ◌+◌, ◌<◌, ◌≤◌, ◌↔◌, IsTrue, IfSome, Some, length, All, is_some, true};
ghost use Rattle.std.specs.List.{list_all};
ghost use Rattle.std.specs.Option.{option_map};
ghost use Rattle.call_components.specs.Reaching.{marked};
ghost use Rattle.claim_core.specs.Told.{events_of};
ghost use Rattle.claim_laws.specs.Logs.{replay, settled_at};
ghost use Rattle.composed_keys.specs.declared.rows.Outer.{Outer as OuterRow};
ghost use Rattle.summary_book.specs.Book.{count_marked};
ghost use Rattle.summary_book.specs.Rows.{AreMarks, IsSight};
ghost use Rattle.summary_book.specs.Places.{key_at};
ghost use Rattle.summary_book.specs.Settled.{AreExact, HasKnown, IsExactAt, StayMarked};

use crate::known_callees::are_known;
use crate::places::{key_at, slot_at};
use crate::rows::{Parts, SlotRow};
use call_components::reach::is_marked;
use claim_core::Event;
use composed_keys::Outer;

/// How many places are marked.
pub fn count_set(marks: &[bool]) -> usize
    ensures { result ≡ count_marked marks.now }
{
    marks.iter().filter(|mark| **mark).count()
}

/// Whether the components of all these procedures are marked.
pub fn are_marked(marks: &[bool], outer: &[Outer]) -> bool
    ensures { result ≡ list_all (λ (one : OuterRow). marked marks.now one.component) outer.now }
{
    outer
        .iter()
        .all(|one| is_marked(marks, one.component as usize))
}

/// Whether the key of a claim has the callees that a component has now, with their specs.
pub fn has_known(
    parts: &Parts,
    log: &[Event],
    slots: &[Option<SlotRow>],
    outer: &[Outer],
    claimed: usize,
) -> bool
    requires { All (λ (one : OuterRow). one.number < length parts.now.program.value.procs) outer.now }
    ensures { IsTrue result ↔ HasKnown parts.now.program.value log.now slots.now outer.now (key_at log.now claimed) }
{
    match key_at(log, claimed) {
        Some(key) => are_known(&parts.program, log, slots, outer, &key.callees),
        None => false,
    }
}

/// The number of the claim of a component's slot, where the component is settled. It may be None of a settled component only where
/// one that it calls is settled and not marked.
pub fn settling(
    parts: &Parts,
    log: &[Event],
    slots: &[Option<SlotRow>],
    marks: &[bool],
    place: usize,
) -> Option<u64>
    requires sight { IsSight log.now parts.now slots.now }
    requires marks { AreMarks (replay (events_of log.now)) marks.now }
    requires place { place < length parts.now.components.items }
    ensures sound { IfSome result (λ claim. option_map (λ slot. slot.claim) (settled_at (replay (events_of log.now)) place) ≡ Some claim) }
    ensures exact { IsExactAt (replay (events_of log.now)) marks.now place
        → result ≡ option_map (λ slot. slot.claim) (settled_at (replay (events_of log.now)) place) }
{
    let component = &parts.components[place];
    if !are_marked(marks, &component.outer) {
        return None;
    }
    let Some(row) = slot_at(slots, place) else {
        return None;
    };
    if !row.fits {
        return None;
    }
    if has_known(parts, log, slots, &component.outer, row.claimed) {
        return Some(row.claim);
    }
    None
}

/// Marks a component, if it is settled and those that it calls are marked.
pub fn look_at(
    parts: &Parts,
    log: &[Event],
    slots: &[Option<SlotRow>],
    marks: &mut Vec<bool>,
    place: usize,
)
    requires sight { IsSight log.now parts.now slots.now }
    requires marks { AreMarks (replay (events_of log.now)) marks.old.items }
    requires place { place < length parts.now.components.items }
    ensures marks { AreMarks (replay (events_of log.now)) marks.new.items }
    ensures stay { StayMarked marks.old.items marks.new.items }
    ensures found { IsExactAt (replay (events_of log.now)) marks.old.items place
        → is_some (settled_at (replay (events_of log.now)) place) ≡ true → marked marks.new.items place ≡ true }
    ensures exact { AreExact (replay (events_of log.now)) marks.old.items place
        → AreExact (replay (events_of log.now)) marks.new.items (place + 1) }
{
    if is_marked(marks, place) {
        return;
    }
    if settling(parts, log, slots, marks, place).is_some() {
        marks[place] = true;
    }
}

/// Marks the settled ones of the components before a place.
pub fn mark_settled(
    parts: &Parts,
    log: &[Event],
    slots: &[Option<SlotRow>],
    marks: &mut Vec<bool>,
    end: usize,
)
    requires sight { IsSight log.now parts.now slots.now }
    requires marks { AreMarks (replay (events_of log.now)) marks.old.items }
    requires end { end ≤ length parts.now.components.items }
    ensures exact { AreExact (replay (events_of log.now)) marks.new.items end }
    ensures stay { StayMarked marks.old.items marks.new.items }
{
    for place in 0..end {
        look_at(parts, log, slots, marks, place);
    }
}
