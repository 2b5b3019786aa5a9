//! The cells of atoms, put together in rising order of address.
ghost use Rattle.std.specs.Prelude.{◌≡◌, ◌<◌, ◌≤◌, IfOk, MatchResult, int_lt, length, map, pos, slice_set};
ghost use Rattle.std.specs.List.{insert};
ghost use Rattle.std.specs.Ordering.{int_eq};
ghost use Rattle.shape_data.specs.Heap.{put as put_of, struct_named};
ghost use Rattle.shape_data.specs.declared.machine.Cell.{Cell as AnyCell};
ghost use Rattle.shape_data.specs.declared.program.Field.{Field as AnyField};
ghost use Rattle.sym_samples.specs.Samples.{cell_of as cell_of_atom, heap_of as heap_of_atoms, number_of, zeros as zeros_of};

use crate::numbers::{value_of, values_of};
use shape_data::machine::{Cell, Value};
use shape_data::program::{Field, StructDef};
use shape_data::symbolic::{Atom, Fact, SymHeap};
use shape_data::{Name, Row, copy_of, struct_of};
use std::alloc::{AllocError, Global};

/// A 0 for each field.
fn blank(alloc: Global, fields: &[Field]) -> Result<Row<Value>, AllocError>
    ensures { IfOk result (λ all. all ≡ map (λ (field : AnyField). pos 0) fields.now) }
{
    let mut all = Row::new(alloc);
    for field in fields {
        all.push(0)?;
    }
    Ok(all)
}

/// A 0 for each field of a structure.
fn zeros(alloc: Global, structs: &[StructDef], kind: &Name) -> Result<Row<Value>, AllocError>
    ensures { IfOk result (λ all. all ≡ zeros_of (struct_named structs.now kind.now)) }
{
    match struct_of(structs, kind) {
        Some(def) => blank(alloc, def.fields.as_slice()),
        None => Ok(Row::new(alloc)),
    }
}

/// The fields of a segment's cell: the link holds this number, and the others 0.
fn link_fields(
    alloc: Global,
    structs: &[StructDef],
    kind: &Name,
    link: u32,
    to: Value,
) -> Result<Row<Value>, AllocError>
    ensures { IfOk result (λ all. all ≡ slice_set (zeros_of (struct_named structs.now kind.now)) link to) }
{
    let mut all = zeros(alloc, structs, kind)?;
    let place = link as usize;
    if place < all.len() {
        all.set(place, to);
    }
    Ok(all)
}

/// The cell of an atom.
fn cell_of(
    alloc: Global,
    structs: &[StructDef],
    facts: &[Fact],
    atom: &Atom,
) -> Result<Option<Cell>, AllocError>
    ensures { IfOk result (λ cell. cell ≡ cell_of_atom structs.now (number_of facts.now) atom.now) }
{
    match atom {
        Atom::Points { at, kind, fields } => Ok(Some(Cell {
            at: value_of(facts, *at),
            kind: copy_of(kind)?,
            fields: values_of(alloc, facts, fields.as_slice())?,
        })),
        Atom::Seg {
            kind,
            link,
            from,
            to,
        } => Ok(Some(Cell {
            at: value_of(facts, *from),
            kind: copy_of(kind)?,
            fields: link_fields(alloc, structs, kind, *link, value_of(facts, *to))?,
        })),
        Atom::Junk => Ok(None),
    }
}

/// Whether an address is before a cell.
fn is_before(at: Value, cell: &Cell) -> bool
    ensures { result ≡ int_lt at cell.now.at }
{
    at < cell.at
}

/// Whether a cell stands at an address.
fn is_at(at: Value, cell: &Cell) -> bool
    ensures { result ≡ int_eq cell.now.at at }
{
    cell.at == at
}

/// The place of the cell at an address; as an error the place at which a cell with that address would stand.
fn place_of(heap: &[Cell], at: Value) -> Result<usize, usize>
    ensures within { MatchResult result (λ place. place < length heap.now) (λ place. place ≤ length heap.now) }
    ensures puts { MatchResult result
        (λ place. (cell : AnyCell) → cell.at ≡ at → put_of cell heap.now ≡ slice_set heap.now place cell)
        (λ place. (cell : AnyCell) → cell.at ≡ at → put_of cell heap.now ≡ insert heap.now place cell) }
{
    for place in 0..heap.len() {
        let here = &heap[place];
        if is_before(at, here) {
            return Err(place);
        }
        if is_at(at, here) {
            return Ok(place);
        }
    }
    Err(heap.len())
}

/// Puts a cell at its address.
fn put(heap: &mut Row<Cell>, cell: Cell) -> Result<(), AllocError>
    ensures { IfOk result (λ _. heap.new ≡ put_of cell heap.old) }
{
    match place_of(heap.as_slice(), cell.at) {
        Ok(place) => {
            heap.set(place, cell);
            Ok(())
        }
        Err(place) => heap.insert(place, cell),
    }
}

/// The cells of atoms.
fn heap_of(
    alloc: Global,
    structs: &[StructDef],
    facts: &[Fact],
    atoms: &[Atom],
) -> Result<Row<Cell>, AllocError>
    ensures { IfOk result (λ heap. heap ≡ heap_of_atoms structs.now (number_of facts.now) atoms.now) }
{
    let [first, others @ ..] = atoms else {
        return Ok(Row::new(alloc));
    };
    let mut heap = heap_of(alloc, structs, facts, others)?;
    if let Some(cell) = cell_of(alloc, structs, facts, first)? {
        put(&mut heap, cell)?;
    }
    Ok(heap)
}

/// The cells of a heap's atoms.
pub fn heap_of_all(
    alloc: Global,
    structs: &[StructDef],
    pre: &SymHeap,
) -> Result<Row<Cell>, AllocError>
    ensures { IfOk result (λ heap. heap ≡ heap_of_atoms structs.now (number_of pre.now.pure) pre.now.spatial) }
{
    heap_of(alloc, structs, pre.pure.as_slice(), pre.spatial.as_slice())
}
