//! The addresses at which cells stand.
ghost use Rattle.std.specs.Prelude.{◌≡◌, IfOk};
ghost use Rattle.sym_parts.specs.Laws.Addresses.{address_of, addresses};
ghost use Rattle.sym_parts.specs.Laws.Expressions.{is_among};

use crate::expressions::is_same_exp;
use shape_data::symbolic::{Atom, Exp};
use std::alloc::{AllocError, Global};

/// The address of an atom's cell, if it is a cell.
pub fn cell_address(atom: &Atom) -> Option<Exp>
    ensures { result ≡ address_of atom.now }
{
    match atom {
        Atom::Points { at, .. } => Some(*at),
        _ => None,
    }
}

/// The addresses of the cells, one for each, in order.
pub fn cell_addresses(alloc: Global, atoms: &[Atom]) -> Result<Vec<Exp>, AllocError>
    ensures { IfOk result (λ cells. cells.items ≡ addresses atoms.now) }
{
    let mut cells = Vec::new(alloc);
    for atom in atoms {
        if let Some(at) = cell_address(atom) {
            cells.push(at)?;
        }
    }
    Ok(cells)
}

/// Whether the atoms have a cell at the expression.
pub fn has_cell_at(atoms: &[Atom], e: Exp) -> bool
    ensures { result ≡ is_among e (addresses atoms.now) }
{
    for atom in atoms {
        if let Some(at) = cell_address(atom) {
            if is_same_exp(e, at) {
                return true;
            }
        }
    }
    false
}
