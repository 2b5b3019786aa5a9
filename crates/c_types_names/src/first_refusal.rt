//! The first refusal of those that are found.
ghost use Rattle.std.specs.Prelude.{◌≡◌};
ghost use Rattle.c_types_rules.specs.Programs.{stands_before, is_no_later, first_by};
ghost use Rattle.c_types_rules.specs.Types.{unless as unless_of};
ghost use Rattle.c_types_names.specs.FirstRefusal.{with_refusals, with_refusal};

use c_grammar::tokens::{Place, Refusal};
use c_types_rules::At;

/// The first of the refusals that were found so far, and the number of the file that is looked at.
#[derive(Clone, Copy, Debug)]
pub struct FirstRefusal {
    pub unit: u32,
    pub found: Option<At>,
}

/// Whether the one number is less, or they are equal and what follows says so.
fn stands_before(one: u32, other: u32, otherwise: bool) -> bool
    ensures { result ≡ stands_before one other otherwise }
{
    one < other || (one == other && otherwise)
}

/// Whether the one is no later than the other.
fn is_no_later(one: At, other: At) -> bool
    ensures { result ≡ is_no_later one other }
{
    let codes = one.refusal.code <= other.refusal.code;
    let columns = stands_before(one.refusal.column, other.refusal.column, codes);
    let lines = stands_before(one.refusal.line, other.refusal.line, columns);
    stands_before(one.unit, other.unit, lines)
}

/// The one, or the other where that is earlier.
fn first_of_two(one: At, other: At) -> At
    ensures { result ≡ first_by (is_no_later one other) one other }
{
    if is_no_later(one, other) { one } else { other }
}

impl FirstRefusal {
    /// Takes in one more refusal: of it and the one that was found before, the earlier one is the first now.
    fn add(&mut self, refusal: Refusal)
        ensures { self.new ≡ with_refusal self.old refusal }
    {
        let one = At {
            unit: self.unit,
            refusal,
        };
        self.found = match self.found {
            None => Some(one),
            Some(found) => Some(first_of_two(found, one)),
        };
    }

    /// Refuses the place, unless what a rule asks for holds.
    #[tactic(auto, unfolding(crate::specs::FirstRefusal::with_refusals))]
    pub fn unless(&mut self, holds: bool, place: Place, code: u16)
        ensures { self.new ≡ with_refusals self.old (unless_of holds place code) }
    {
        if !holds {
            self.add(place.refusal(code));
        }
    }
}
