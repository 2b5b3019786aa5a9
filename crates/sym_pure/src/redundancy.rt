//! What says nothing new goes.
ghost use Rattle.std.specs.Prelude.{◌≡◌, ◌&&◌, ◌||◌, IfOk};
ghost use Rattle.std.specs.List.{list_any};
ghost use Rattle.sym_parts.specs.Laws.Addresses.{addresses};
ghost use Rattle.sym_parts.specs.Laws.Junks.{is_junk as is_junk_of};
ghost use Rattle.sym_pure.specs.Emptying.{is_plain as is_plain_of};
ghost use Rattle.sym_pure.specs.Redundancy.{
  are_constants as are_constants_of,
  is_redundant as is_redundant_of,
  needed as needed_of,
  one_junk as one_junk_of,
  with_needed,
  with_one_junk,
};

use crate::emptying::is_plain;
use crate::sources::is_written;
use shape_data::symbolic::{Atom, Exp, Fact};
use std::alloc::{AllocError, Global};

/// Whether both are constants.
fn are_constants(left: Exp, right: Exp) -> bool
    ensures { result ≡ are_constants_of left right }
{
    match (left, right) {
        (Exp::Const(_), Exp::Const(_)) => true,
        _ => false,
    }
}

/// Whether both are 0 or addresses of cells.
fn are_plain(atoms: &[Atom], left: Exp, right: Exp) -> bool
    ensures { result ≡ (is_plain_of (addresses atoms.now) left && is_plain_of (addresses atoms.now) right) }
{
    is_plain(atoms, left) && is_plain(atoms, right)
}

/// Whether a disequality says nothing new beside these atoms and facts.
pub fn is_redundant(atoms: &[Atom], kept: &[Fact], left: Exp, right: Exp) -> bool
    ensures { result ≡ is_redundant_of (addresses atoms.now) kept.now left right }
{
    are_constants(left, right) || are_plain(atoms, left, right) || is_written(kept, left, right)
}

/// Puts a disequality behind the facts, unless it is redundant.
fn add_needed(kept: &mut Vec<Fact>, atoms: &[Atom], left: Exp, right: Exp) -> Result<(), AllocError>
    ensures { IfOk result (λ _. kept.new.items ≡ with_needed (addresses atoms.now) kept.old.items left right) }
{
    if !is_redundant(atoms, kept.as_slice(), left, right) {
        kept.push(Fact::Ne(left, right))?;
    }
    Ok(())
}

/// The disequalities that are not redundant, behind the equations.
pub fn needed(atoms: &[Atom], facts: &[Fact], equations: Vec<Fact>) -> Result<Vec<Fact>, AllocError>
    ensures { IfOk result (λ all. all.items ≡ needed_of (addresses atoms.now) facts.now equations.items) }
{
    let mut kept = equations;
    for fact in facts {
        if let Fact::Ne(left, right) = *fact {
            add_needed(&mut kept, atoms, left, right)?;
        }
    }
    Ok(kept)
}

/// Whether the atom is Junk.
pub fn is_junk(atom: &Atom) -> bool
    ensures { result ≡ is_junk_of atom.now }
{
    match atom {
        Atom::Junk => true,
        _ => false,
    }
}

/// Whether Junk is among the atoms.
pub fn has_junk(atoms: &[Atom]) -> bool
    ensures { result ≡ list_any is_junk_of atoms.now }
{
    atoms.iter().any(|atom| is_junk(atom))
}

/// Puts an atom behind the others, unless it is Junk and Junk was seen; whether Junk was seen then.
fn add_one(kept: &mut Vec<Atom>, seen: bool, atom: Atom) -> Result<bool, AllocError>
    ensures added { IfOk result (λ _. kept.new.items ≡ with_one_junk kept.old.items seen atom) }
    ensures seen { IfOk result (λ now. now ≡ (seen || is_junk_of atom)) }
{
    let junk = is_junk(&atom);
    if !(junk && seen) {
        kept.push(atom)?;
    }
    Ok(seen || junk)
}

/// The first of several Junk, and all other atoms.
#[tactic(auto, using(crate::proofs::JunkSteps::junk_steps))]
pub fn one_junk(alloc: Global, atoms: Vec<Atom>) -> Result<Vec<Atom>, AllocError>
    ensures { IfOk result (λ all. all.items ≡ one_junk_of atoms.items) }
{
    let mut kept = Vec::new(alloc);
    let mut seen = false;
    for atom in atoms {
        seen = add_one(&mut kept, seen, atom)?;
    }
    Ok(kept)
}
