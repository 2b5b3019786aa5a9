//! Keys and answers by their places in the log.
ghost use Rattle.std.specs.Prelude.{◌≡◌, None, slice_index_or};
ghost use Rattle.std.specs.Option.{option_copied};
ghost use Rattle.summary_book.specs.Places.{answer_at, key_at};
ghost use Rattle.summary_book.specs.Rows.{row_answer};

use crate::rows::SlotRow;
use claim_core::Event;
use shape_data::answer::{Answer, Key};

/// The key of the claim at a place of the log.
pub fn key_at(log: &[Event], place: usize) -> Option<&Key>
    ensures { option_copied result ≡ key_at log.now place }
{
    match log.get(place) {
        Some(Event::Claim { key, .. }) => Some(key),
        _ => None,
    }
}

/// The answer that was published at a place of the log.
pub fn answer_at(log: &[Event], place: usize) -> Option<&Answer>
    ensures { option_copied result ≡ answer_at log.now place }
{
    match log.get(place) {
        Some(Event::Publish { answer, .. }) => Some(answer),
        _ => None,
    }
}

/// The slot of a component, if it has one.
pub fn slot_at(slots: &[Option<SlotRow>], place: usize) -> Option<SlotRow>
    ensures { result ≡ slice_index_or slots.now place None }
{
    match slots.get(place) {
        Some(slot) => *slot,
        None => None,
    }
}

/// The answer of a slot.
pub fn row_answer(log: &[Event], slot: Option<SlotRow>) -> Option<&Answer>
    ensures { option_copied result ≡ row_answer log.now slot }
{
    match slot {
        Some(row) => answer_at(log, row.published),
        None => None,
    }
}
