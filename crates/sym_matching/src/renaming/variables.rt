//! The variables of heaps, states, posts and bindings, put behind others in order of occurrence: what new variables avoid, and what
//! gets new numbers.
ghost use Rattle.std.specs.Prelude.{◌≡◌, ◌++◌, ◌∷◌, [], IfOk};
ghost use Rattle.sym_canon.specs.Numbering.{sides};
ghost use Rattle.sym_canon.specs.Placing.{exps_of};
ghost use Rattle.sym_matching.specs.Variables.{with_atoms, with_binding, with_exps, with_facts, with_heap, with_state, with_variable};

use shape_data::symbolic::{Atom, Exp, Fact, Post, SymHeap, SymState};
use std::alloc::AllocError;

/// Puts the variable of an expression behind others.
pub fn add_variable(names: &mut Vec<u32>, e: Exp) -> Result<(), AllocError>
    ensures { IfOk result (λ _. names.new.items ≡ with_variable names.old.items e) }
{
    if let Exp::Var(x) = e {
        names.push(x)?;
    }
    Ok(())
}

/// Puts the variables of expressions behind others.
pub fn add_exps(names: &mut Vec<u32>, list: &[Exp]) -> Result<(), AllocError>
    ensures { IfOk result (λ _. names.new.items ≡ with_exps names.old.items list.now) }
{
    for e in list {
        add_variable(names, *e)?;
    }
    Ok(())
}

/// Puts the variables of a fact behind others.
fn add_fact(names: &mut Vec<u32>, fact: Fact) -> Result<(), AllocError>
    ensures { IfOk result (λ _. names.new.items ≡ with_exps names.old.items (sides fact)) }
{
    match fact {
        Fact::Eq(left, right) => {
            add_variable(names, left)?;
            add_variable(names, right)
        }
        Fact::Ne(left, right) => {
            add_variable(names, left)?;
            add_variable(names, right)
        }
    }
}

/// Puts the variables of facts behind others.
fn add_facts(names: &mut Vec<u32>, facts: &[Fact]) -> Result<(), AllocError>
    ensures { IfOk result (λ _. names.new.items ≡ with_facts names.old.items facts.now) }
{
    for fact in facts {
        add_fact(names, *fact)?;
    }
    Ok(())
}

/// Puts the variables of an atom behind others: its source's, then those of its fields or its end.
fn add_atom(names: &mut Vec<u32>, atom: &Atom) -> Result<(), AllocError>
    ensures { IfOk result (λ _. names.new.items ≡ with_exps names.old.items (exps_of atom.now)) }
{
    match atom {
        Atom::Points { at, fields, .. } => {
            add_variable(names, *at)?;
            add_exps(names, fields.as_slice())
        }
        Atom::Seg { from, to, .. } => {
            add_variable(names, *from)?;
            add_variable(names, *to)
        }
        Atom::Junk => Ok(()),
    }
}

/// Puts the variables of atoms behind others.
fn add_atoms(names: &mut Vec<u32>, atoms: &[Atom]) -> Result<(), AllocError>
    ensures { IfOk result (λ _. names.new.items ≡ with_atoms names.old.items atoms.now) }
{
    for atom in atoms {
        add_atom(names, atom)?;
    }
    Ok(())
}

/// Puts the variables of a heap behind others: the facts', then the atoms'.
pub fn add_heap(names: &mut Vec<u32>, heap: &SymHeap) -> Result<(), AllocError>
    ensures { IfOk result (λ _. names.new.items ≡ with_heap names.old.items heap.now) }
{
    add_facts(names, heap.pure.as_slice())?;
    add_atoms(names, heap.spatial.as_slice())
}

/// Puts the variables of a state behind others: the locals', then the heap's.
pub fn add_state(names: &mut Vec<u32>, state: &SymState) -> Result<(), AllocError>
    ensures { IfOk result (λ _. names.new.items ≡ with_state names.old.items state.now) }
{
    add_exps(names, state.locals.as_slice())?;
    add_heap(names, &state.heap)
}

/// Puts the variables of a post behind others: its result's, then the heap's.
pub fn add_post(names: &mut Vec<u32>, post: &Post) -> Result<(), AllocError>
    ensures { IfOk result (λ _. names.new.items ≡ with_heap (with_variable names.old.items post.now.ret) post.now.heap) }
{
    add_variable(names, post.ret)?;
    add_heap(names, &post.heap)
}

/// Puts a variable and that of an expression behind others.
fn add_bound(names: &mut Vec<u32>, x: u32, e: Exp) -> Result<(), AllocError>
    ensures { IfOk result (λ _. names.new.items ≡ with_variable (names.old.items ++ x ∷ []) e) }
{
    names.push(x)?;
    add_variable(names, e)
}

/// Puts the variables of a binding behind others: those that are bound, each before that of its expression.
pub fn add_binding(names: &mut Vec<u32>, binding: &[(u32, Exp)]) -> Result<(), AllocError>
    ensures { IfOk result (λ _. names.new.items ≡ with_binding names.old.items binding.now) }
{
    for bound in binding {
        add_bound(names, bound.0, bound.1)?;
    }
    Ok(())
}
