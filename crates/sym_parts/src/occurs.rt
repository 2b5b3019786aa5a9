//! Whether a variable occurs.
ghost use Rattle.std.specs.Prelude.{◌≡◌};
ghost use Rattle.std.specs.List.{list_any};
ghost use Rattle.sym_parts.specs.Laws.Fresh.{
  is_one_of as is_one_of_list,
  is_variable,
  occurs_in as occurs_in_heap_of,
  occurs_in_atom as occurs_in_atom_of,
  occurs_in_fact as occurs_in_fact_of,
};

use shape_data::symbolic::{Atom, Exp, Fact, SymHeap};

/// Whether the number, of a variable or of a slot, is in the list.
pub fn is_one_of(list: &[u32], x: u32) -> bool
    ensures { result ≡ is_one_of_list list.now x }
{
    list.iter().any(|y| x == *y)
}

/// Whether the expression is the variable.
pub fn occurs_in_exp(variable: u32, e: Exp) -> bool
    ensures { result ≡ is_variable variable e }
{
    match e {
        Exp::Var(x) => variable == x,
        Exp::Const(_) => false,
    }
}

/// Whether the variable is one of the expressions.
pub fn occurs_in_exps(variable: u32, list: &[Exp]) -> bool
    ensures { result ≡ list_any (is_variable variable) list.now }
{
    list.iter().any(|e| occurs_in_exp(variable, *e))
}

/// Whether the variable occurs in an atom.
pub fn occurs_in_atom(variable: u32, atom: &Atom) -> bool
    ensures { result ≡ occurs_in_atom_of variable atom.now }
{
    match atom {
        Atom::Points { at, fields, .. } => {
            occurs_in_exp(variable, *at) || occurs_in_exps(variable, fields.as_slice())
        }
        Atom::Seg { from, to, .. } => {
            occurs_in_exp(variable, *from) || occurs_in_exp(variable, *to)
        }
        Atom::Junk => false,
    }
}

/// Whether the variable occurs in a fact.
pub fn occurs_in_fact(variable: u32, fact: Fact) -> bool
    ensures { result ≡ occurs_in_fact_of variable fact }
{
    match fact {
        Fact::Eq(left, right) => occurs_in_exp(variable, left) || occurs_in_exp(variable, right),
        Fact::Ne(left, right) => occurs_in_exp(variable, left) || occurs_in_exp(variable, right),
    }
}

fn occurs_in_facts(variable: u32, facts: &[Fact]) -> bool
    ensures { result ≡ list_any (occurs_in_fact_of variable) facts.now }
{
    facts.iter().any(|fact| occurs_in_fact(variable, *fact))
}

fn occurs_in_atoms(variable: u32, atoms: &[Atom]) -> bool
    ensures { result ≡ list_any (occurs_in_atom_of variable) atoms.now }
{
    atoms.iter().any(|atom| occurs_in_atom(variable, atom))
}

/// Whether the variable occurs in a symbolic heap.
pub fn occurs_in(variable: u32, heap: &SymHeap) -> bool
    ensures { result ≡ occurs_in_heap_of variable heap.now }
{
    occurs_in_facts(variable, heap.pure.as_slice())
        || occurs_in_atoms(variable, heap.spatial.as_slice())
}
