//! Which procedures are too large.
ghost use Rattle.std.specs.Prelude.{◌≡◌, ◌<◌, ◌≤◌};
ghost use Rattle.c_types_names.specs.FirstRefusal.{with_refusals};
ghost use Rattle.c_lower.specs.Sized.{refusals_of, all_fit};

use c_tree::Place;
use c_types_names::first_refusal::FirstRefusal;

/// Most nodes of a procedure.
pub const MOST_NODES: u32 = 512;

/// Most parameters and other locals of a procedure together.
const MOST_LOCALS: u32 = 32;

/// Most temporaries of a procedure.
const MOST_TEMPORARIES: usize = 16;

/// Most parameters of a procedure.
const MOST_PARAMETERS: u32 = 8;

/// A procedure with too many nodes.
pub const NODES: u16 = 131;

/// A procedure with too many slots.
const SLOTS: u16 = 132;

/// A procedure with too many parameters.
const PARAMETERS: u16 = 133;

/// How many nodes, parameters, other locals and temporaries a procedure has.
#[derive(Clone, Copy)]
pub struct Sizes {
    pub nodes: usize,
    pub params: u32,
    pub locals: u32,
    pub temps: usize,
}

impl Sizes {
    /// Whether none is too large.
    pub fn fit(self) -> bool
        requires params { self.params < 2147483648 }
        requires locals { self.locals ≤ 512 }
        ensures { result ≡ all_fit self }
    {
        self.nodes <= MOST_NODES as usize
            && self.params + self.locals <= MOST_LOCALS
            && self.temps <= MOST_TEMPORARIES
            && self.params <= MOST_PARAMETERS
    }

    /// Refuses each that is too large.
    #[tactic(auto, using(c_types_names::proofs::FirstRefusals::more_refusals))]
    pub fn refuse(self, place: Place, first: &mut FirstRefusal)
        requires params { self.params < 2147483648 }
        requires locals { self.locals ≤ 512 }
        ensures { first.new ≡ with_refusals first.old (refusals_of self place) }
    {
        first.unless(self.nodes <= MOST_NODES as usize, place, NODES);
        first.unless(self.params + self.locals <= MOST_LOCALS, place, SLOTS);
        first.unless(self.temps <= MOST_TEMPORARIES, place, SLOTS);
        first.unless(self.params <= MOST_PARAMETERS, place, PARAMETERS);
    }
}
