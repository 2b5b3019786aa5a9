//! Second rule: what is reached stays, other atoms become Junk.
ghost use Rattle.std.specs.Prelude.{◌≡◌, IfOk, filter, not};
ghost use Rattle.std.specs.List.{list_all};
ghost use Rattle.abstraction_laws.specs.Reaching.{keep_reached as keep_reached_of, seen_from as seen_from_of};
ghost use Rattle.sym_abstract.specs.Counted.{Counts, is_kept_by, is_reached_by};

use crate::occurrences::{Times, count_leads, is_counted, times_of_exps};
use shape_data::symbolic::{Atom, Exp, FIRST_EXISTENTIAL};
use shape_data::{Row, copy_of};
use std::alloc::{AllocError, Global};

/// Whether the expression is reached: it is a constant, a logical variable, or one of those seen.
fn is_reached(seen: &Times, e: Exp) -> bool
    ensures { result ≡ is_reached_by seen.now e }
{
    match e {
        Exp::Var(x) => x < FIRST_EXISTENTIAL || is_counted(seen, x),
        Exp::Const(_) => true,
    }
}

/// Whether the atom's source is reached. Junk has none, and stays.
fn is_kept(seen: &Times, atom: &Atom) -> bool
    ensures { result ≡ is_kept_by seen.now atom.now }
{
    match atom {
        Atom::Points { at, .. } => is_reached(seen, *at),
        Atom::Seg { from, .. } => is_reached(seen, *from),
        Atom::Junk => true,
    }
}

/// Atoms whose sources are reached, and the others.
#[derive(Drop)]
struct Parted {
    kept: Vec<Atom>,
    left: Vec<Atom>,
}

/// Parts atoms by whether their sources are reached.
fn part(alloc: Global, seen: &Times, atoms: Vec<Atom>) -> Result<Parted, AllocError>
    ensures kept { IfOk result (λ parted. parted.kept.items ≡ filter (is_kept_by seen.now) atoms.items) }
    ensures left { IfOk result (λ parted. parted.left.items ≡ filter (λ atom. not (is_kept_by seen.now atom)) atoms.items) }
{
    let mut kept = Vec::new(alloc);
    let mut left = Vec::new(alloc);
    for atom in atoms {
        if is_kept(seen, &atom) {
            kept.push(atom)?;
        } else {
            left.push(atom)?;
        }
    }
    Ok(Parted { kept, left })
}

/// What is seen from the locals: they, and what stands in the fields or the end of each atom whose source is reached.
fn seen_from(alloc: Global, locals: &[Exp], atoms: Vec<Atom>) -> Result<Times, AllocError>
    ensures { IfOk result (λ seen. Counts seen (seen_from_of locals.now atoms.items)) }
{
    let turns = atoms.len();
    let mut seen = times_of_exps(alloc, locals)?;
    let mut left = atoms;
    for turn in 0..turns {
        let parted = part(alloc, &seen, left)?;
        left = parted.left;
        if parted.kept.as_slice().is_empty() {
            break;
        }
        count_leads(&mut seen, parted.kept.as_slice())?;
    }
    Ok(seen)
}

/// Whether the sources of all atoms are reached.
fn are_kept(seen: &Times, atoms: &[Atom]) -> bool
    ensures { result ≡ list_all (is_kept_by seen.now) atoms.now }
{
    atoms.iter().all(|atom| is_kept(seen, atom))
}

/// The atoms that are reached from the locals; where another one goes, Junk is added.
pub fn keep_reached(
    alloc: Global,
    locals: &[Exp],
    atoms: Row<Atom>,
) -> Result<Vec<Atom>, AllocError>
    ensures { IfOk result (λ made. made.items ≡ keep_reached_of locals.now atoms) }
{
    let seen = seen_from(alloc, locals, copy_of(&atoms)?.into_vec())?;
    let atoms = atoms.into_vec();
    if are_kept(&seen, atoms.as_slice()) {
        return Ok(atoms);
    }
    let mut kept = part(alloc, &seen, atoms)?.kept;
    kept.push(Atom::Junk)?;
    Ok(kept)
}
