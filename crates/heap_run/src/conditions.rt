//! The test of what a run's start asks for: a procedure that takes as many arguments, and a heap over the program's
//! structures.
ghost use Rattle.std.specs.Prelude.{◌≡◌, ◌↔◌, pos, length, slice_get, IsTrue};
ghost use Rattle.std.specs.Option.{IsSomeAnd};
ghost use Rattle.shape_data.specs.Heap.{AreRising, HasShape, HaveShapes, IsHeap};

use shape_data::machine::{Cell, Value};
use shape_data::program::{Program, StructDef};
use shape_data::struct_of;

/// Whether each address is above the one before it, and the first is positive.
fn are_rising(heap: &[Cell]) -> bool
    ensures { IsTrue result ↔ AreRising (pos 0) heap.now }
{
    let mut low = 0;
    for cell in heap {
        if cell.at <= low {
            return false;
        }
        low = cell.at;
    }
    true
}

fn has_shape(structs: &[StructDef], cell: &Cell) -> bool
    ensures { IsTrue result ↔ HasShape structs.now cell.now }
{
    match struct_of(structs, &cell.kind) {
        Some(def) => cell.fields.len() == def.fields.len(),
        None => false,
    }
}

fn have_shapes(structs: &[StructDef], heap: &[Cell]) -> bool
    ensures { IsTrue result ↔ HaveShapes structs.now heap.now }
{
    for cell in heap {
        if !has_shape(structs, cell) {
            return false;
        }
    }
    true
}

fn is_heap(structs: &[StructDef], heap: &[Cell]) -> bool
    ensures { IsTrue result ↔ IsHeap structs.now heap.now }
{
    are_rising(heap) && have_shapes(structs, heap)
}

fn takes(program: &Program, proc: u32, args: &[Value]) -> bool
    ensures { IsTrue result ↔ IsSomeAnd (slice_get program.now.procs proc) (λ found. length args.now ≡ length found.flow.params) }
{
    match program.procs.get(proc as usize) {
        Some(found) => args.len() == found.flow.params.len(),
        None => false,
    }
}

/// Whether [`crate::start`] may be called with these: the procedure is there and takes that many arguments, and the
/// cells stand at rising positive addresses, each with one number for each field of a structure of the program.
pub fn can_start(program: &Program, proc: u32, args: &[Value], heap: &[Cell]) -> bool
    ensures { IsTrue result
        ↔ (IsSomeAnd (slice_get program.now.procs proc) (λ found. length args.now ≡ length found.flow.params)
        × IsHeap program.now.structs heap.now) }
{
    takes(program, proc, args) && is_heap(&program.structs, heap)
}
