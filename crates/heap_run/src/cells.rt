//! Cells of a heap by their addresses: to look for one, to write a number into it, to put one in and to take one out.
//! They stand on the order of the addresses, and carry the rows of `Load`, `Store`, `New` and `Free`.
ghost use Rattle.std.specs.Prelude.{◌≡◌, ◌<◌, pos, length, is_some, OnOk, OnErr, slice_get};
ghost use Rattle.std.specs.Option.{IsSomeAnd, IfSome, option_copied};
ghost use Rattle.shape_data.specs.Heap.{cell_at, put, with_field, without, AreRising};
ghost use Rattle.shape_data.specs.Machine.{can_be_new as is_new_cell, fit_struct as are_numbers_of};
ghost use Rattle.heap_run.specs.Access.{IsAccess};
ghost use Rattle.heap_run.specs.Places.{IsPlace};

use crate::numbers::are_of_fields;
use shape_data::answer::Fault;
use shape_data::machine::{Cell, Value};
use shape_data::program::{Program, StructDef};
use shape_data::{Name, Row, struct_of};
use std::alloc::AllocError;

/// The place of the cell at an address; as an error the place at which a cell with that address would stand.
fn place_of(heap: &[Cell], at: Value) -> Result<usize, usize>
    requires { AreRising (pos 0) heap.now }
    ensures { IsPlace heap.now at result }
{
    heap.binary_search_by_key(&at, |cell| cell.at)
}

/// Whether an address has a cell.
fn is_live(heap: &[Cell], at: Value) -> bool
    requires { AreRising (pos 0) heap.now }
    ensures { result ≡ is_some (cell_at heap.now at) }
{
    place_of(heap, at).is_ok()
}

/// The place of the structure of a kind at an address, or the fault of an access to it (C11 6.5.2.3).
pub fn access(heap: &[Cell], at: Value, kind: &Name) -> Result<usize, Fault>
    requires { AreRising (pos 0) heap.now }
    ensures { IsAccess heap.now at kind.now result }
{
    if at == 0 {
        return Err(Fault::Null);
    }
    match place_of(heap, at) {
        Ok(place) => {
            if heap[place].kind == *kind {
                Ok(place)
            } else {
                Err(Fault::Kind)
            }
        }
        Err(_) => Err(Fault::Unowned),
    }
}

/// The heap with a number in a field of the cell at a place.
pub fn with_number(heap: Row<Cell>, place: usize, field: usize, value: Value) -> Row<Cell>
    requires rising { AreRising (pos 0) heap }
    requires there { IsSomeAnd (slice_get heap place) (λ cell. field < length cell.fields) }
    ensures { IfSome (slice_get heap place) (λ cell. result ≡ with_field heap cell.at field value) }
{
    let mut cells = heap.into_vec();
    cells[place].fields.set(field, value);
    Row::from_vec(cells)
}

/// Whether there is one number for each field of the structure, if it is there, each one of its field's type.
fn fit_struct(values: &[Value], def: Option<&StructDef>) -> bool
    ensures { result ≡ are_numbers_of values.now (option_copied def.entry) }
{
    match def {
        Some(def) => are_of_fields(&def.fields, values),
        None => false,
    }
}

/// Whether a new cell of a kind may have this address and these numbers (C11 7.22.3.4).
pub fn can_be_new(
    program: &Program,
    heap: &[Cell],
    kind: &Name,
    at: Value,
    fields: &[Value],
) -> bool
    requires { AreRising (pos 0) heap.now }
    ensures { result ≡ is_new_cell program.now heap.now kind.now at fields.now }
{
    0 < at && !is_live(heap, at) && fit_struct(fields, struct_of(&program.structs, kind))
}

/// Puts a cell at its address, which has none yet.
pub fn put_cell(heap: &mut Row<Cell>, cell: Cell) -> Result<(), AllocError>
    requires rising { AreRising (pos 0) heap.old }
    requires unowned { cell_at heap.old cell.at ≡ None }
    ensures ok { OnOk result (heap.new ≡ put cell heap.old) }
    ensures err { OnErr result (heap.new ≡ heap.old) }
{
    let place = match place_of(heap, cell.at) {
        Ok(_) => unreachable!(),
        Err(place) => place,
    };
    heap.insert(place, cell)
}

/// Takes the cell at an address out, and says whether there was one.
pub fn take_cell(heap: &mut Row<Cell>, at: Value) -> bool
    requires { AreRising (pos 0) heap.old }
    ensures taken { result ≡ is_some (cell_at heap.old at) }
    ensures rest { heap.new ≡ without at heap.old }
{
    match place_of(heap, at) {
        Ok(place) => {
            let _ = heap.remove(place);
            true
        }
        Err(_) => false,
    }
}
