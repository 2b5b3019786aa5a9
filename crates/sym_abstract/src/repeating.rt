//! The second to the fourth rule, again and again until nothing changes.
ghost use Rattle.std.specs.Prelude.{◌≡◌, IfOk, filter, length};
ghost use Rattle.sym_parts.specs.Laws.Junks.{is_other as is_other_of};
ghost use Rattle.abstraction_laws.specs.Rooms.{HaveFewFields};
ghost use Rattle.abstraction_laws.specs.Repeating.{
  join_inner as join_inner_of,
  reduce as reduce_of,
  reduce_once as reduce_once_of,
  size_of as size_of_heap,
};

use crate::joining::{Middle, join_first};
use crate::losing::lose;
use crate::reaching::keep_reached;
use shape_data::Row;
use shape_data::symbolic::{Atom, Exp, FIRST_EXISTENTIAL, SymHeap};
use std::alloc::{AllocError, Global};
use sym_parts::is_among;

/// The existential variables that are in no local.
#[derive(Clone, Copy)]
struct Inner<'a> {
    locals: &'a [Exp],
}

impl Middle for Inner<'_> {
    ghost use Rattle.abstraction_laws.specs.Repeating.{is_inner};

    ghost may = { λ inner x. is_inner inner.locals.now x };

    fn may_be(&self, x: u32) -> bool {
        FIRST_EXISTENTIAL <= x && !is_among(Exp::Var(x), self.locals)
    }
}

/// The third rule, where it is used.
fn join_inner(
    alloc: Global,
    joins: bool,
    locals: &[Exp],
    atoms: Vec<Atom>,
) -> Result<Vec<Atom>, AllocError>
    requires few { HaveFewFields atoms.items }
    ensures { IfOk result (λ made. made.items ≡ join_inner_of joins locals.now atoms.items) }
{
    if joins {
        join_first(alloc, &Inner { locals }, atoms)
    } else {
        Ok(atoms)
    }
}

/// The rules once, one after the other.
fn reduce_once(
    alloc: Global,
    joins: bool,
    locals: &[Exp],
    heap: SymHeap,
) -> Result<SymHeap, AllocError>
    requires few { HaveFewFields heap.spatial }
    ensures { IfOk result (λ made. made ≡ reduce_once_of joins locals.now heap) }
{
    let kept = keep_reached(alloc, locals, heap.spatial)?;
    let atoms = join_inner(alloc, joins, locals, kept)?;
    let pure = lose(alloc, locals, atoms.as_slice(), heap.pure.as_slice())?;
    Ok(SymHeap {
        pure: Row::from_vec(pure),
        spatial: Row::from_vec(atoms),
    })
}

fn is_other(atom: &Atom) -> bool
    ensures { result ≡ is_other_of atom.now }
{
    match atom {
        Atom::Junk => false,
        _ => true,
    }
}

fn count_others(atoms: &[Atom]) -> usize
    ensures { result ≡ length (filter is_other_of atoms.now) }
{
    atoms.iter().filter(|atom| is_other(*atom)).count()
}

/// The number of the heap's facts and of its atoms other than Junk.
fn size_of(heap: &SymHeap) -> u128
    ensures { result ≡ size_of_heap heap.now }
{
    count_others(heap.spatial.as_slice()) as u128 + heap.pure.len() as u128
}

/// The second to the fourth rule, until nothing changes. Where they change the heap, its size falls; so nothing has changed where
/// the size stays.
pub fn reduce(
    alloc: Global,
    joins: bool,
    locals: &[Exp],
    heap: SymHeap,
) -> Result<SymHeap, AllocError>
    requires few { HaveFewFields heap.spatial }
    ensures { IfOk result (λ made. made ≡ reduce_of joins locals.now heap) }
{
    let mut heap = heap;
    let mut size = size_of(&heap);
    loop {
        heap = reduce_once(alloc, joins, locals, heap)?;
        let left = size_of(&heap);
        if left == size {
            return Ok(heap);
        }
        size = left;
    }
}
