//! What the canonical form is made with.
use shape_data::Exact;
use shape_data::symbolic::{SymHeap, SymState};

/// Which variables are numbered.
#[derive(Clone, Copy, Debug)]
pub enum Variables {
    /// The existential ones.
    Existential,
    /// The logical ones that are none of so many parameters.
    Further(u32),
}

/// What a path needs beside what it was given, and the state that it comes to. Logical variables mean the same in both.
#[derive(Clone, PartialEq, Eq, Drop, Debug)]
pub struct Pair {
    pub missing: SymHeap,
    pub state: SymState,
}

impl Exact for Pair {
    ghost use Rattle.sym_canon.specs.contracts.parts.Pair.{struct, the_propositions};
    ghost use Rattle.shape_data.specs.Exact.{and_copied, and_same, last_copied, last_same, struct_copied, struct_same};
    ghost use Rattle.shape_data.specs.contracts.exact.symbolic.SymHeapExact.TheImpl.Laws.{
      eq_is_same-law as heap_same,
      clone_is_same-law as heap_copied,
    };
    ghost use Rattle.shape_data.specs.contracts.exact.symbolic.SymStateExact.TheImpl.Laws.{
      eq_is_same-law as state_same,
      clone_is_same-law as state_copied,
    };

    ghost eq_is_same = { struct_same struct the_propositions
        (and_same heap_same
        (last_same state_same)) };

    ghost clone_is_same = { struct_copied struct the_propositions
        (and_copied heap_copied
        (last_copied state_copied)) };
}
