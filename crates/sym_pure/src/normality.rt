//! Whether a state or a heap is normal, by a test that rewrites nothing and takes no memory.
ghost use Rattle.std.specs.Prelude.{◌≡◌, ◌≤◌, []};
ghost use Rattle.std.specs.List.{list_all, list_any};
ghost use Rattle.sym_parts.specs.Laws.Addresses.{addresses};
ghost use Rattle.sym_pure.specs.Emptying.{is_empty as is_empty_of};
ghost use Rattle.sym_pure.specs.IsNormal.{
  are_in_order as are_in_order_of,
  are_normal_atoms as are_normal_atoms_of,
  are_normal_facts as are_normal_facts_of,
  has_redundant as has_redundant_of,
  has_two_junk as has_two_junk_of,
  is_below as is_below_of,
  is_disequality as is_disequality_of,
  is_normal as is_normal_of,
  is_normal_heap as is_normal_heap_of,
  is_read as is_read_of,
  is_read_atom as is_read_atom_of,
  is_read_fact as is_read_fact_of,
  is_solved_in as is_solved_in_of,
};

use crate::contradictions::contradicts_itself;
use crate::emptying::is_plain;
use crate::redundancy::{has_junk, is_junk, is_redundant};
use shape_data::symbolic::{Atom, Exp, FIRST_EXISTENTIAL, Fact, SymHeap, SymState};

/// Whether the expression is a constant, or a variable below this one.
fn is_below(variable: u32, e: Exp) -> bool
    ensures { result ≡ is_below_of variable e }
{
    match e {
        Exp::Var(y) => y < variable,
        Exp::Const(_) => true,
    }
}

/// Whether the variable has an equation among the facts.
fn is_solved_in(facts: &[Fact], variable: u32) -> bool
    ensures { result ≡ is_solved_in_of facts.now variable }
{
    for fact in facts {
        if let Fact::Eq(Exp::Var(y), _) = *fact {
            if variable == y {
                return true;
            }
        }
    }
    false
}

/// Whether the expression is not a variable that has an equation.
fn is_read(facts: &[Fact], e: Exp) -> bool
    ensures { result ≡ is_read_of facts.now e }
{
    match e {
        Exp::Var(x) => !is_solved_in(facts, x),
        Exp::Const(_) => true,
    }
}

/// Whether the fact's right side, and of a disequality the left one too, are read.
fn is_read_fact(facts: &[Fact], fact: Fact) -> bool
    ensures { result ≡ is_read_fact_of facts.now fact }
{
    match fact {
        Fact::Eq(_, right) => is_read(facts, right),
        Fact::Ne(left, right) => is_read(facts, left) && is_read(facts, right),
    }
}

fn are_read_facts(facts: &[Fact], some: &[Fact]) -> bool
    ensures { result ≡ list_all (is_read_fact_of facts.now) some.now }
{
    some.iter().all(|fact| is_read_fact(facts, *fact))
}

fn are_read(facts: &[Fact], list: &[Exp]) -> bool
    ensures { result ≡ list_all (is_read_of facts.now) list.now }
{
    list.iter().all(|e| is_read(facts, *e))
}

/// Whether the atom's expressions are read.
fn is_read_atom(facts: &[Fact], atom: &Atom) -> bool
    ensures { result ≡ is_read_atom_of facts.now atom.now }
{
    match atom {
        Atom::Points { at, fields, .. } => {
            is_read(facts, *at) && are_read(facts, fields.as_slice())
        }
        Atom::Seg { from, to, .. } => is_read(facts, *from) && is_read(facts, *to),
        Atom::Junk => true,
    }
}

fn are_read_atoms(facts: &[Fact], atoms: &[Atom]) -> bool
    ensures { result ≡ list_all (is_read_atom_of facts.now) atoms.now }
{
    atoms.iter().all(|atom| is_read_atom(facts, atom))
}

/// Whether the fact is a disequality.
fn is_disequality(fact: Fact) -> bool
    ensures { result ≡ is_disequality_of fact }
{
    match fact {
        Fact::Eq(_, _) => false,
        Fact::Ne(_, _) => true,
    }
}

fn are_disequalities(facts: &[Fact]) -> bool
    ensures { result ≡ list_all is_disequality_of facts.now }
{
    facts.iter().all(|fact| is_disequality(*fact))
}

/// Whether the facts are equations of logical variables from this one on, each for something below, in the order
/// of the variables, and then disequalities.
fn are_in_order(low: u32, facts: &[Fact]) -> bool
    requires { low ≤ 65536 }
    ensures { result ≡ are_in_order_of low facts.now }
{
    match facts {
        [] => true,
        [Fact::Ne(_, _), others @ ..] => are_disequalities(others),
        [Fact::Eq(Exp::Const(_), _), ..] => false,
        [Fact::Eq(Exp::Var(x), right), others @ ..] => {
            low <= *x
                && *x < FIRST_EXISTENTIAL
                && is_below(*x, *right)
                && are_in_order(*x + 1, others)
        }
    }
}

/// Whether a disequality is redundant beside those behind it.
fn has_redundant(atoms: &[Atom], facts: &[Fact]) -> bool
    ensures { result ≡ has_redundant_of (addresses atoms.now) facts.now }
{
    match facts {
        [] => false,
        [Fact::Eq(_, _), others @ ..] => has_redundant(atoms, others),
        [Fact::Ne(left, right), others @ ..] => {
            is_redundant(atoms, others, *left, *right) || has_redundant(atoms, others)
        }
    }
}

/// Whether the atom is a segment that starts at 0 or at the address of a cell.
fn is_empty(atoms: &[Atom], atom: &Atom) -> bool
    ensures { result ≡ is_empty_of [] (addresses atoms.now) atom.now }
{
    match atom {
        Atom::Seg { from, .. } => is_plain(atoms, *from),
        _ => false,
    }
}

fn has_empty(atoms: &[Atom]) -> bool
    ensures { result ≡ list_any (is_empty_of [] (addresses atoms.now)) atoms.now }
{
    atoms.iter().any(|atom| is_empty(atoms, atom))
}

/// Whether there are two Junk.
fn has_two_junk(atoms: &[Atom]) -> bool
    ensures { result ≡ has_two_junk_of atoms.now }
{
    match atoms {
        [] => false,
        [first, others @ ..] => is_junk(first) && has_junk(others) || has_two_junk(others),
    }
}

fn are_normal_facts(heap: &SymHeap) -> bool
    ensures { result ≡ are_normal_facts_of heap.now }
{
    let facts = heap.pure.as_slice();
    are_in_order(0, facts)
        && are_read_facts(facts, facts)
        && !has_redundant(heap.spatial.as_slice(), facts)
}

fn are_normal_atoms(heap: &SymHeap) -> bool
    ensures { result ≡ are_normal_atoms_of heap.now }
{
    let atoms = heap.spatial.as_slice();
    are_read_atoms(heap.pure.as_slice(), atoms) && !has_empty(atoms) && !has_two_junk(atoms)
}

/// Whether a heap is normal: the four rules have nothing to do on it.
pub fn is_normal_heap(heap: &SymHeap) -> bool
    ensures { result ≡ is_normal_heap_of heap.now }
{
    are_normal_facts(heap) && are_normal_atoms(heap) && !contradicts_itself(heap)
}

/// Whether a state is normal: it is its own normal form.
pub fn is_normal(state: &SymState) -> bool
    ensures { result ≡ is_normal_of state.now }
{
    is_normal_heap(&state.heap) && are_read(state.heap.pure.as_slice(), state.locals.as_slice())
}
