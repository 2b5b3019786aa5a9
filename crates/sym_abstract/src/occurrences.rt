//! How often variables stand in expressions, up to three times: whether one stands anywhere, and whether it stands just twice,
//! is then asked of a map.
ghost use Rattle.std.specs.Prelude.{◌≡◌, [], ◌∷◌, ◌++◌, IfOk, leb};
ghost use Rattle.sym_canon.specs.Numbering.{sides};
ghost use Rattle.sym_canon.specs.Placing.{all_lead_to, exps_of, leads_to};
ghost use Rattle.abstraction_laws.specs.Occurrences.{exps_of_atoms, exps_of_facts, exps_of_heap};
ghost use Rattle.sym_abstract.specs.Counted.{Adds, Counts, counted};

use shape_data::symbolic::{Atom, Exp, Fact, SymHeap};
use std::alloc::{AllocError, Global};
use std::collections::HashMap;

/// For each variable, how often it was counted; 3 stands for more too.
pub type Times = HashMap<u32, u8>;

/// How often a variable was counted, up to three times.
pub fn times(counts: &Times, x: u32) -> u8
    ensures { result ≡ counted counts.now x }
{
    counts.get(&x).copied().unwrap_or(0)
}

/// Whether a variable was counted.
pub fn is_counted(counts: &Times, x: u32) -> bool
    ensures { result ≡ leb 1 (counted counts.now x) }
{
    1 <= times(counts, x)
}

/// Counts an expression, if it is a variable.
fn count(counts: &mut Times, e: Exp) -> Result<(), AllocError>
    ensures { IfOk result (λ _. Adds counts.old counts.new (e ∷ [])) }
{
    if let Exp::Var(x) = e {
        let before = times(counts, x);
        if before < 3 {
            counts.insert(x, before + 1)?;
        }
    }
    Ok(())
}

/// Counts expressions.
pub fn count_exps(counts: &mut Times, list: &[Exp]) -> Result<(), AllocError>
    ensures { IfOk result (λ _. Adds counts.old counts.new list.now) }
{
    for e in list {
        count(counts, *e)?;
    }
    Ok(())
}

/// Counts the fields of a cell, or the end of a segment.
fn count_lead(counts: &mut Times, atom: &Atom) -> Result<(), AllocError>
    ensures { IfOk result (λ _. Adds counts.old counts.new (leads_to atom.now)) }
{
    match atom {
        Atom::Points { fields, .. } => count_exps(counts, fields.as_slice()),
        Atom::Seg { to, .. } => count(counts, *to),
        Atom::Junk => Ok(()),
    }
}

/// Counts what atoms lead to.
pub fn count_leads(counts: &mut Times, atoms: &[Atom]) -> Result<(), AllocError>
    ensures { IfOk result (λ _. Adds counts.old counts.new (all_lead_to atoms.now)) }
{
    for atom in atoms {
        count_lead(counts, atom)?;
    }
    Ok(())
}

/// Counts the expressions of an atom.
fn count_atom(counts: &mut Times, atom: &Atom) -> Result<(), AllocError>
    ensures { IfOk result (λ _. Adds counts.old counts.new (exps_of atom.now)) }
{
    match atom {
        Atom::Points { at, fields, .. } => {
            count(counts, *at)?;
            count_exps(counts, fields.as_slice())
        }
        Atom::Seg { from, to, .. } => {
            count(counts, *from)?;
            count(counts, *to)
        }
        Atom::Junk => Ok(()),
    }
}

/// Counts the expressions of atoms.
pub fn count_atoms(counts: &mut Times, atoms: &[Atom]) -> Result<(), AllocError>
    ensures { IfOk result (λ _. Adds counts.old counts.new (exps_of_atoms atoms.now)) }
{
    for atom in atoms {
        count_atom(counts, atom)?;
    }
    Ok(())
}

/// Counts the sides of a fact.
fn count_fact(counts: &mut Times, fact: Fact) -> Result<(), AllocError>
    ensures { IfOk result (λ _. Adds counts.old counts.new (sides fact)) }
{
    match fact {
        Fact::Eq(left, right) => {
            count(counts, left)?;
            count(counts, right)
        }
        Fact::Ne(left, right) => {
            count(counts, left)?;
            count(counts, right)
        }
    }
}

/// Counts the sides of facts.
fn count_facts(counts: &mut Times, facts: &[Fact]) -> Result<(), AllocError>
    ensures { IfOk result (λ _. Adds counts.old counts.new (exps_of_facts facts.now)) }
{
    for fact in facts {
        count_fact(counts, *fact)?;
    }
    Ok(())
}

/// The counts of expressions.
pub fn times_of_exps(alloc: Global, list: &[Exp]) -> Result<Times, AllocError>
    ensures { IfOk result (λ counts. Counts counts list.now) }
{
    let mut counts = HashMap::new(alloc);
    count_exps(&mut counts, list)?;
    Ok(counts)
}

/// The counts of atoms' expressions.
pub fn times_of_atoms(alloc: Global, atoms: &[Atom]) -> Result<Times, AllocError>
    ensures { IfOk result (λ counts. Counts counts (exps_of_atoms atoms.now)) }
{
    let mut counts = HashMap::new(alloc);
    count_atoms(&mut counts, atoms)?;
    Ok(counts)
}

/// The counts of some expressions and of atoms' expressions.
pub fn times_of_both(alloc: Global, list: &[Exp], atoms: &[Atom]) -> Result<Times, AllocError>
    ensures { IfOk result (λ counts. Counts counts (list.now ++ exps_of_atoms atoms.now)) }
{
    let mut counts = HashMap::new(alloc);
    count_exps(&mut counts, list)?;
    count_atoms(&mut counts, atoms)?;
    Ok(counts)
}

/// The counts of a heap's expressions.
pub fn times_of_heap(alloc: Global, heap: &SymHeap) -> Result<Times, AllocError>
    ensures { IfOk result (λ counts. Counts counts (exps_of_heap heap.now)) }
{
    let mut counts = HashMap::new(alloc);
    count_atoms(&mut counts, heap.spatial.as_slice())?;
    count_facts(&mut counts, heap.pure.as_slice())?;
    Ok(counts)
}
