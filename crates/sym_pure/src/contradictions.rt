//! What contradicts itself.
ghost use Rattle.std.specs.Prelude.{◌≡◌};
ghost use Rattle.sym_pure.specs.Contradictions.{
  do_sources_clash as do_sources_clash_of,
  has_clash as has_clash_of,
  has_same_sides as has_same_sides_of,
};

use crate::sources::{has_double_source, is_source};
use shape_data::symbolic::{Atom, Exp, Fact, SymHeap};
use sym_parts::is_same_exp;

/// Whether a disequality of an expression and itself is written.
fn has_same_sides(facts: &[Fact]) -> bool
    ensures { result ≡ has_same_sides_of facts.now }
{
    for fact in facts {
        if let Fact::Ne(left, right) = *fact {
            if is_same_exp(left, right) {
                return true;
            }
        }
    }
    false
}

/// Whether a source is 0, or two sources are equal.
fn do_sources_clash(facts: &[Fact], atoms: &[Atom]) -> bool
    ensures { result ≡ do_sources_clash_of facts.now atoms.now }
{
    is_source(facts, atoms, Exp::Const(0)) || has_double_source(facts, atoms)
}

/// Whether facts and atoms contradict one another.
pub fn has_clash(facts: &[Fact], atoms: &[Atom]) -> bool
    ensures { result ≡ has_clash_of facts.now atoms.now }
{
    has_same_sides(facts) || do_sources_clash(facts, atoms)
}

/// Whether the heap contradicts itself.
pub fn contradicts_itself(heap: &SymHeap) -> bool
    ensures { result ≡ has_clash_of heap.now.pure heap.now.spatial }
{
    has_clash(heap.pure.as_slice(), heap.spatial.as_slice())
}
