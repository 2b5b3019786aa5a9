//! Tests of what the calls ask of their arguments: variables below 2^31, at most 4,000 parts, and cells of at most 32,768 fields. All
//! that is well formed is so.
ghost use Rattle.std.specs.Prelude.{◌↔◌, ◌+◌, ◌<◌, ◌≤◌, All, IsTrue, length};
ghost use Rattle.sym_parts.specs.Laws.Each.{EachInAtom, EachInFact, EachInHeap};
ghost use Rattle.sym_matching.specs.Rooms.{IsSmall, IsWithinSizes, fields_of};
ghost use Rattle.sym_matching.specs.Renaming.Sizes.{AreSmall, IsSmallBinding};

use shape_data::symbolic::{Atom, Exp, Fact, SymHeap};

/// All variables are below this one.
const LIMIT: u32 = 2_147_483_648;

/// The most parts of a heap.
const MOST_PARTS: usize = 4_000;

/// The most fields of a cell.
const MOST_FIELDS: usize = 32_768;

/// Whether the variable of an expression is below 2^31.
pub fn is_small(e: Exp) -> bool
    ensures { IsTrue result ↔ IsSmall e }
{
    match e {
        Exp::Var(x) => x < LIMIT,
        Exp::Const(_) => true,
    }
}

/// Whether the variables of expressions are below 2^31.
pub fn are_small(list: &[Exp]) -> bool
    ensures { IsTrue result ↔ All IsSmall list.now }
{
    list.iter().all(|e| is_small(*e))
}

fn is_small_fact(fact: Fact) -> bool
    ensures { IsTrue result ↔ EachInFact IsSmall fact }
{
    match fact {
        Fact::Eq(left, right) => is_small(left) && is_small(right),
        Fact::Ne(left, right) => is_small(left) && is_small(right),
    }
}

fn is_small_atom(atom: &Atom) -> bool
    ensures { IsTrue result ↔ EachInAtom IsSmall atom.now }
{
    match atom {
        Atom::Points { at, fields, .. } => is_small(*at) && are_small(fields.as_slice()),
        Atom::Seg { from, to, .. } => is_small(*from) && is_small(*to),
        Atom::Junk => true,
    }
}

fn is_small_heap(heap: &SymHeap) -> bool
    ensures { IsTrue result ↔ EachInHeap IsSmall heap.now }
{
    heap.pure.as_slice().iter().all(|fact| is_small_fact(*fact))
        && heap
            .spatial
            .as_slice()
            .iter()
            .all(|atom| is_small_atom(atom))
}

fn is_narrow(atom: &Atom) -> bool
    ensures { IsTrue result ↔ (fields_of atom.now ≤ 32768) }
{
    match atom {
        Atom::Points { fields, .. } => fields.len() <= MOST_FIELDS,
        Atom::Seg { .. } => true,
        Atom::Junk => true,
    }
}

fn are_narrow(atoms: &[Atom]) -> bool
    ensures { IsTrue result ↔ All (λ atom. fields_of atom ≤ 32768) atoms.now }
{
    atoms.iter().all(|atom| is_narrow(atom))
}

fn has_few_parts(heap: &SymHeap) -> bool
    ensures { IsTrue result ↔ (length heap.now.pure + length heap.now.spatial ≤ 4000) }
{
    let facts = heap.pure.len();
    let atoms = heap.spatial.len();
    facts <= MOST_PARTS && atoms <= MOST_PARTS - facts
}

/// Whether a heap is within the sizes.
pub fn is_within_sizes(heap: &SymHeap) -> bool
    ensures { IsTrue result ↔ IsWithinSizes heap.now }
{
    is_small_heap(heap) && has_few_parts(heap) && are_narrow(heap.spatial.as_slice())
}

/// Whether variables are below 2^31.
pub fn are_small_variables(names: &[u32]) -> bool
    ensures { IsTrue result ↔ AreSmall names.now }
{
    names.iter().all(|x| *x < LIMIT)
}

fn is_small_bound(x: u32, e: Exp) -> bool
    ensures { IsTrue result ↔ ((x < 2147483648) × IsSmall e) }
{
    x < LIMIT && is_small(e)
}

/// Whether the variables of a binding are below 2^31: those that are bound, and those of their expressions.
pub fn is_small_binding(binding: &[(u32, Exp)]) -> bool
    ensures { IsTrue result ↔ IsSmallBinding binding.now }
{
    binding.iter().all(|bound| is_small_bound(bound.0, bound.1))
}
