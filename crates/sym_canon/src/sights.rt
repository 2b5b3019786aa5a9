//! Variables in the order in which they come into sight.
ghost use Rattle.std.specs.Prelude.{◌≡◌, IfOk};
ghost use Rattle.sym_canon.specs.Canonical.{sight_state as sight_state_of};
ghost use Rattle.sym_canon.specs.Numbering.{
  is_numbered as is_numbered_of,
  sight as sight_of,
  sight_atoms as sight_atoms_of,
  sight_facts as sight_facts_of,
  sides,
  with_sight,
};
ghost use Rattle.sym_canon.specs.Placing.{exps_of};

use crate::parts::Variables;
use shape_data::symbolic::{Atom, Exp, FIRST_EXISTENTIAL, Fact, SymState};
use std::alloc::AllocError;
use sym_parts::is_one_of;

/// Whether the variable is one of those that are numbered.
fn is_numbered(which: Variables, x: u32) -> bool
    ensures { result ≡ is_numbered_of which x }
{
    match which {
        Variables::Existential => FIRST_EXISTENTIAL <= x,
        Variables::Further(params) => params <= x && x < FIRST_EXISTENTIAL,
    }
}

/// Puts the variable of an expression behind those that were seen, if it is numbered and new.
fn see(seen: &mut Vec<u32>, which: Variables, e: Exp) -> Result<(), AllocError>
    ensures { IfOk result (λ _. seen.new.items ≡ with_sight which seen.old.items e) }
{
    if let Exp::Var(x) = e {
        if is_numbered(which, x) && !is_one_of(seen.as_slice(), x) {
            seen.push(x)?;
        }
    }
    Ok(())
}

/// Puts the variables of expressions behind those that were seen.
fn see_exps(seen: &mut Vec<u32>, which: Variables, list: &[Exp]) -> Result<(), AllocError>
    ensures { IfOk result (λ _. seen.new.items ≡ sight_of which list.now seen.old.items) }
{
    for e in list {
        see(seen, which, *e)?;
    }
    Ok(())
}

/// Puts the variables of an atom behind those that were seen: its source's, then those of its fields or its end.
fn see_atom(seen: &mut Vec<u32>, which: Variables, atom: &Atom) -> Result<(), AllocError>
    ensures { IfOk result (λ _. seen.new.items ≡ sight_of which (exps_of atom.now) seen.old.items) }
{
    match atom {
        Atom::Points { at, fields, .. } => {
            see(seen, which, *at)?;
            see_exps(seen, which, fields.as_slice())
        }
        Atom::Seg { from, to, .. } => {
            see(seen, which, *from)?;
            see(seen, which, *to)
        }
        Atom::Junk => Ok(()),
    }
}

/// Puts the variables of atoms behind those that were seen.
fn see_atoms(seen: &mut Vec<u32>, which: Variables, atoms: &[Atom]) -> Result<(), AllocError>
    ensures { IfOk result (λ _. seen.new.items ≡ sight_atoms_of which atoms.now seen.old.items) }
{
    for atom in atoms {
        see_atom(seen, which, atom)?;
    }
    Ok(())
}

/// Puts the variables of a fact behind those that were seen.
fn see_fact(seen: &mut Vec<u32>, which: Variables, fact: Fact) -> Result<(), AllocError>
    ensures { IfOk result (λ _. seen.new.items ≡ sight_of which (sides fact) seen.old.items) }
{
    match fact {
        Fact::Eq(left, right) => {
            see(seen, which, left)?;
            see(seen, which, right)
        }
        Fact::Ne(left, right) => {
            see(seen, which, left)?;
            see(seen, which, right)
        }
    }
}

/// Puts the variables of facts behind those that were seen.
fn see_facts(seen: &mut Vec<u32>, which: Variables, facts: &[Fact]) -> Result<(), AllocError>
    ensures { IfOk result (λ _. seen.new.items ≡ sight_facts_of which facts.now seen.old.items) }
{
    for fact in facts {
        see_fact(seen, which, *fact)?;
    }
    Ok(())
}

/// Puts the variables of a state behind those that were seen: the locals', the atoms', the facts'.
pub fn see_state(seen: &mut Vec<u32>, which: Variables, state: &SymState) -> Result<(), AllocError>
    ensures { IfOk result (λ _. seen.new.items ≡ sight_state_of which state.now seen.old.items) }
{
    see_exps(seen, which, state.locals.as_slice())?;
    see_atoms(seen, which, state.heap.spatial.as_slice())?;
    see_facts(seen, which, state.heap.pure.as_slice())
}
