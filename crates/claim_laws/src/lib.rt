//! Claims of components as a log of events, as definitions (`specs/`): the world, which events may happen in it, what they do, and
//! which logs are legal. Laws over every legal log, each the contract of a public function that does nothing; no code runs here. It
//! stands on the components and keys of `component_keys`, and knows nothing of heaps.
#![tactic(auto)]

ghost use Rattle.claim_laws.specs.Claims.{
  ClaimedArePresent,
  ClaimedOnce,
  ClaimedWhereNew,
  SettledStays,
  SlotsSolve,
  SlotsWerePublished,
  StandingsAreAsDefined,
};
ghost use Rattle.claim_laws.specs.Invariant.{WorldsAreKept};
ghost use Rattle.claim_laws.specs.Waits.{WaitsOnOut};

pub mod published;

pub use published::{Published, Seen};

/// What answers mean. The meaning belongs to the type and not to a value of it, since a value behind a lock is known by its type
/// alone.
pub trait Meaning {
    ghost use Rattle.shape_data.specs.declared.answer.Answer.{Answer};
    ghost use Rattle.shape_data.specs.declared.answer.Key.{Key};

    /// The answer is right for the key.
    ghost solves: { Key → Answer → Type 0 };
}

/// What holds of claims after every legal log.
pub fn claims_hold<J: Meaning>()
    ensures solved { SlotsSolve J.solves }
    ensures published { SlotsWerePublished }
    ensures settled { SettledStays }
    ensures once { ClaimedOnce J.solves }
    ensures present { ClaimedArePresent J.solves }
    ensures new { ClaimedWhereNew J.solves }
{}

/// What each event keeps, so that it holds of the world after every log.
pub fn worlds_are_kept()
    ensures { WorldsAreKept }
{}

/// That a component is settled, and what it is due, are what the words say: its due key is made of what its callees are settled
/// with, and it is settled exactly by a slot for that key.
pub fn standings_are_as_defined()
    ensures { StandingsAreAsDefined }
{}

/// Where no component of an aim can be claimed, each unsettled one is out or stands above one that is out.
pub fn waits_on_out()
    ensures { WaitsOnOut }
{}
