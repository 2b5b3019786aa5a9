//! Tests of what abstraction needs of sizes. They are true of each well-formed state, post and heap.
ghost use Rattle.std.specs.Prelude.{◌≡◌, ◌+◌, ◌↔◌, IsTrue, min};
ghost use Rattle.sym_forms.specs.Sizes.{fields_in};
ghost use Rattle.abstraction_laws.specs.Rooms.{HasRoom, HaveFewFields, IsWithinRoom};

use crate::forgetting::{fields_of, first_new};
use shape_data::symbolic::{Atom, Exp, SymHeap};

/// The most that a 32-bit number can count to, less the logical variables.
const MOST: u64 = 4_294_901_760;

/// The fields of the cells and a number, or a greater number than the most.
fn fields_and(first: u64, atoms: &[Atom]) -> u64
    ensures { result ≡ min 4294901761 (first + fields_in atoms.now) }
{
    let mut all = first.min(MOST + 1);
    for atom in atoms {
        all = all.saturating_add(fields_of(atom)).min(MOST + 1);
    }
    all
}

/// Whether locals and a heap have room for the numbers of new variables.
fn has_room(locals: &[Exp], heap: &SymHeap) -> bool
    ensures { IsTrue result ↔ HasRoom (record { locals = locals.now; heap = heap.now }) }
{
    let first = first_new(locals, heap) + locals.len() as u64;
    fields_and(first, heap.spatial.as_slice()) <= MOST
}

/// Whether no cell has more fields than a structure may have. True of each well-formed heap.
pub fn have_few_fields(atoms: &[Atom]) -> bool
    ensures { IsTrue result ↔ HaveFewFields atoms.now }
{
    atoms.iter().all(|atom| fields_of(atom) <= 32_768)
}

/// Whether locals, or a result, and a heap have the sizes that abstraction needs. True of each well-formed state and post.
pub fn is_within_room(locals: &[Exp], heap: &SymHeap) -> bool
    ensures { IsTrue result ↔ IsWithinRoom (record { locals = locals.now; heap = heap.now }) }
{
    has_room(locals, heap) && have_few_fields(heap.spatial.as_slice())
}
