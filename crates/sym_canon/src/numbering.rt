//! Numbers for variables: the first that was seen has the first number, and so on.
ghost use Rattle.std.specs.Prelude.{◌≡◌, ◌+◌, ◌^◌, ◌<◌, ◌≤◌, ◌==◌, IfSome, length, position};

use shape_data::symbolic::Exp;
use sym_parts::Mapping;

/// The place of a variable in the list.
fn place_in(seen: &[u32], x: u32) -> Option<usize>
    ensures first { result ≡ position (λ y. x == y) seen.now }
    ensures within { IfSome result (λ place. place < length seen.now) }
{
    seen.iter().position(|y| x == *y)
}

/// The variables that were seen, in order, and the number of the first of them.
#[derive(Drop)]
pub struct Numbers {
    pub first: u32,
    pub seen: Vec<u32>,
    ghost fit: { first + length seen.items ≤ 2 ^ 32 },
}

impl Numbers {
    ghost use Rattle.std.specs.Prelude.{All, true};
    ghost use Rattle.sym_parts.specs.Laws.Fresh.{are_different};
    ghost use Rattle.sym_canon.specs.Numbering.{numbered};

    /// Numbers for these variables, which are different and none below the first number. There are never more of them than
    /// numbers of 32 bits.
    pub fn from(first: u32, seen: Vec<u32>) -> Self
        requires different { are_different seen.items ≡ true }
        requires from { All (λ x. first ≤ x) seen.items }
        ensures first { result.first ≡ first }
        ensures seen { result.seen.items ≡ seen.items }
    {
        Numbers { first, seen }
    }

    /// The number of a variable: that of its place; a variable that was not seen keeps its own.
    fn number_of(&self, x: u32) -> u32
        ensures { result ≡ numbered self.now.first self.now.seen.items x }
    {
        match place_in(self.seen.as_slice(), x) {
            Some(place) => self.first + place as u32,
            None => x,
        }
    }
}

impl Mapping for Numbers {
    ghost use Rattle.sym_canon.specs.Numbering.{with_number};

    ghost image = { λ numbers e. with_number numbers.first numbers.seen.items e };

    fn image_of(&self, e: Exp) -> Exp {
        match e {
            Exp::Var(x) => Exp::Var(self.number_of(x)),
            Exp::Const(_) => e,
        }
    }
}
