//! The machine's changes of a heap, as sums.
ghost use Rattle.sym_parts.specs.Laws.CellSums.{PutIsSum, WithoutIsRest, WrittenIsSum};

/// A new cell beside a heap makes the heap with the cell put in.
pub fn put_is_sum()
    ensures { PutIsSum }
{}

/// A heap of a cell and others, without the cell, is the others.
pub fn without_is_rest()
    ensures { WithoutIsRest }
{}

/// A number written into a field of a cell is written into the heap of the cell and others.
pub fn written_is_sum()
    ensures { WrittenIsSum }
{}
