//! Segments that are known to be empty go, and their ends are equal.
ghost use Rattle.std.specs.Prelude.{◌≡◌, ◌<◌, IfOk, IfSome, length, map, remove, slice_get};
ghost use Rattle.std.specs.declared.option.Option.TheVariants.{Some};
ghost use Rattle.sym_parts.specs.Laws.Addresses.{addresses};
ghost use Rattle.sym_parts.specs.Laws.Expressions.{is_among};
ghost use Rattle.sym_parts.specs.Laws.Mapped.{on_atom};
ghost use Rattle.sym_pure.specs.Emptying.{
  is_empty as is_empty_of,
  is_plain as is_plain_of,
  place_of_empty as place_of,
  settle as settle_of,
  with_equal_ends as with_equal_ends_of,
};
ghost use Rattle.sym_pure.specs.Solving.{read as read_of};

use crate::parts::{Settled, Solved};
use crate::solving::{read, with_equation};
use shape_data::Row;
use shape_data::symbolic::{Atom, Exp};
use std::alloc::AllocError;
use sym_parts::{cell_address, has_cell_at, is_same_exp};

/// Whether the expression is 0 or the address of a cell.
pub fn is_plain(atoms: &[Atom], e: Exp) -> bool
    ensures { result ≡ is_plain_of (addresses atoms.now) e }
{
    is_same_exp(e, Exp::Const(0)) || has_cell_at(atoms, e)
}

/// Whether the address of a cell, read through the solved equations, is the expression.
fn has_read_cell_at(solved: &[Solved], atoms: &[Atom], e: Exp) -> bool
    ensures { result ≡ is_among e (addresses (map (on_atom (read_of solved.now)) atoms.now)) }
{
    for atom in atoms {
        if let Some(at) = cell_address(atom) {
            if is_same_exp(e, read(solved, at)) {
                return true;
            }
        }
    }
    false
}

/// Whether the atom is a segment that starts at 0 or at the address of a cell, all being read.
fn is_empty(solved: &[Solved], atoms: &[Atom], atom: &Atom) -> bool
    ensures { result ≡ is_empty_of solved.now (addresses (map (on_atom (read_of solved.now)) atoms.now)) atom.now }
{
    match atom {
        Atom::Seg { from, .. } => {
            let start = read(solved, *from);
            is_same_exp(start, Exp::Const(0)) || has_read_cell_at(solved, atoms, start)
        }
        _ => false,
    }
}

/// The place of the first such segment.
fn place_of_empty(solved: &[Solved], atoms: &[Atom]) -> Option<usize>
    ensures first { result ≡ place_of solved.now atoms.now }
    ensures within { IfSome result (λ place. place < length atoms.now) }
{
    atoms.iter().position(|atom| is_empty(solved, atoms, atom))
}

/// The ends of a segment made equal; None is a contradiction.
fn with_equal_ends(solved: Row<Solved>, segment: &Atom) -> Result<Option<Row<Solved>>, AllocError>
    ensures { IfOk result (λ more. more ≡ with_equal_ends_of solved (Some segment.now)) }
{
    match segment {
        Atom::Seg { from, to, .. } => with_equation(solved, *from, *to),
        _ => Ok(Some(solved)),
    }
}

/// Takes the segment at a place out, and makes its ends equal; None is a contradiction.
fn empty_at(
    solved: Row<Solved>,
    atoms: &mut Row<Atom>,
    place: usize,
) -> Result<Option<Row<Solved>>, AllocError>
    requires { place < length atoms.old }
    ensures ends { IfOk result (λ more. more ≡ with_equal_ends_of solved (slice_get atoms.old place)) }
    ensures gone { atoms.new ≡ remove atoms.old place }
{
    let segment = atoms.remove(place);
    with_equal_ends(solved, &segment)
}

/// The solved equations and the atoms, after all such segments have gone; None is a contradiction.
pub fn settle(solved: Row<Solved>, atoms: Row<Atom>) -> Result<Option<Settled>, AllocError>
    ensures { IfOk result (λ settled. settled ≡ settle_of (length atoms) solved atoms) }
{
    let turns = atoms.len();
    let mut current = solved;
    let mut left = atoms;
    for _turn in 0..turns {
        match place_of_empty(current.as_slice(), left.as_slice()) {
            None => {
                return Ok(Some(Settled {
                    solved: current,
                    atoms: left,
                }));
            }
            Some(place) => match empty_at(current, &mut left, place)? {
                Some(more) => current = more,
                None => return Ok(None),
            },
        }
    }
    Ok(Some(Settled {
        solved: current,
        atoms: left,
    }))
}
