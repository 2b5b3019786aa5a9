//! The sources of a heap, and what is known to differ. Nothing here takes memory.
ghost use Rattle.std.specs.Prelude.{◌≡◌};
ghost use Rattle.sym_parts.specs.Laws.Expressions.{are_two as are_two_of, has_double as has_double_of, is_among as is_among_of};
ghost use Rattle.sym_pure.specs.Sources.{
  are_unequal_constants as are_unequal_of,
  differs as differs_of,
  do_ends_differ as do_ends_differ_of,
  is_written as is_written_of,
  is_zero_and_source as is_zero_and_source_of,
  source_of as source_of_atom,
  sources as sources_of,
};

use shape_data::symbolic::{Atom, Exp, Fact, SymHeap};
use sym_parts::is_same_exp;

/// Whether the two are unequal constants.
fn are_unequal_constants(left: Exp, right: Exp) -> bool
    ensures { result ≡ are_unequal_of left right }
{
    match (left, right) {
        (Exp::Const(m), Exp::Const(n)) => m != n,
        _ => false,
    }
}

/// Whether a disequality of the two is written, either way round.
pub fn is_written(facts: &[Fact], e: Exp, f: Exp) -> bool
    ensures { result ≡ is_written_of facts.now e f }
{
    for fact in facts {
        if let Fact::Ne(left, right) = *fact {
            if is_same_exp(left, e) && is_same_exp(right, f)
                || is_same_exp(left, f) && is_same_exp(right, e)
            {
                return true;
            }
        }
    }
    false
}

/// Whether the ends of a segment differ.
fn do_ends_differ(facts: &[Fact], from: Exp, to: Exp) -> bool
    ensures { result ≡ do_ends_differ_of facts.now from to }
{
    are_unequal_constants(from, to) || is_written(facts, from, to)
}

/// The source of an atom, if it has one.
fn source_of(facts: &[Fact], atom: &Atom) -> Option<Exp>
    ensures { result ≡ source_of_atom facts.now atom.now }
{
    match atom {
        Atom::Points { at, .. } => Some(*at),
        Atom::Seg { from, to, .. } => {
            if do_ends_differ(facts, *from, *to) {
                Some(*from)
            } else {
                None
            }
        }
        Atom::Junk => None,
    }
}

/// Whether the expression is a source.
pub fn is_source(facts: &[Fact], atoms: &[Atom], e: Exp) -> bool
    ensures { result ≡ is_among_of e (sources_of facts.now atoms.now) }
{
    for atom in atoms {
        if let Some(source) = source_of(facts, atom) {
            if is_same_exp(e, source) {
                return true;
            }
        }
    }
    false
}

/// Whether two sources are the same.
pub fn has_double_source(facts: &[Fact], atoms: &[Atom]) -> bool
    ensures { result ≡ has_double_of (sources_of facts.now atoms.now) }
{
    match atoms {
        [] => false,
        [first, others @ ..] => {
            let here = match source_of(facts, first) {
                Some(source) => is_source(facts, others, source),
                None => false,
            };
            here || has_double_source(facts, others)
        }
    }
}

/// Whether the two are sources of two atoms.
fn are_two_sources(facts: &[Fact], atoms: &[Atom], e: Exp, f: Exp) -> bool
    ensures { result ≡ are_two_of e f (sources_of facts.now atoms.now) }
{
    match atoms {
        [] => false,
        [first, others @ ..] => {
            let here = match source_of(facts, first) {
                Some(source) => {
                    is_same_exp(e, source) && is_source(facts, others, f)
                        || is_same_exp(f, source) && is_source(facts, others, e)
                }
                None => false,
            };
            here || are_two_sources(facts, others, e, f)
        }
    }
}

/// Whether the first is 0 and the second a source.
fn is_zero_and_source(heap: &SymHeap, e: Exp, f: Exp) -> bool
    ensures { result ≡ is_zero_and_source_of heap.now e f }
{
    is_same_exp(e, Exp::Const(0)) && is_source(heap.pure.as_slice(), heap.spatial.as_slice(), f)
}

/// Whether the two are known to differ: they have different values wherever the heap holds.
pub fn differs(heap: &SymHeap, e: Exp, f: Exp) -> bool
    ensures { result ≡ differs_of heap.now e f }
{
    let facts = heap.pure.as_slice();
    are_unequal_constants(e, f)
        || is_written(facts, e, f)
        || is_zero_and_source(heap, e, f)
        || is_zero_and_source(heap, f, e)
        || are_two_sources(facts, heap.spatial.as_slice(), e, f)
}
