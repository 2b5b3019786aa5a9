//! Samples.
ghost use Rattle.std.specs.Prelude.{◌≡◌, ◌↔◌, All, true, IfOk, IfSome, IsSome};
ghost use Rattle.shape_data.specs.Meaning.{Meets};
ghost use Rattle.sym_samples.specs.Laws.{IsShaped};
ghost use Rattle.sym_samples.specs.Samples.{has_sample as has_sample_of, number_of, numbers_from};

use crate::cells::heap_of_all;
use crate::numbers::{heap_has_bits, parameter_values};
use crate::parts::Sample;
use crate::starts::has_sample;
use shape_data::Row;
use shape_data::machine::Cell;
use shape_data::program::StructDef;
use shape_data::symbolic::SymHeap;
use std::alloc::{AllocError, Global};

/// A heap that meets a heap that has a sample.
fn met_by(alloc: Global, pre: &SymHeap, structs: &[StructDef]) -> Result<Row<Cell>, AllocError>
    requires shaped { All (IsShaped structs.now) pre.now.spatial }
    requires has { has_sample_of pre.now ≡ true }
    ensures { IfOk result (λ heap. Meets structs.now (number_of pre.now.pure) heap pre.now) }
{
    heap_has_bits(pre);
    heap_of_all(alloc, structs, pre)
}

/// A heap that meets a precondition, with the values of its so many parameters, exactly where the precondition is normal, and the
/// addresses of its cells and the starts of its segments are pairwise distinct variables.
///
/// The heap meets it where each variable that an equation solves has the value of the equation's other side, and every other one
/// 4,294,967,296 and its own number. Each segment has one cell, `junk` has none. The atoms have the shapes of their structures, as
/// those of each well-formed heap. The only error is want of memory.
pub fn sample(
    alloc: Global,
    pre: &SymHeap,
    params: u32,
    structs: &[StructDef],
) -> Result<Option<Sample>, AllocError>
    requires { All (IsShaped structs.now) pre.now.spatial }
    ensures some { IfOk result (λ found. IsSome found ↔ (has_sample_of pre.now ≡ true)) }
    ensures values { IfOk result (λ found. IfSome found (λ sample. sample.values ≡ numbers_from pre.now.pure params 0)) }
    ensures meets { IfOk result (λ found. IfSome found (λ sample. Meets structs.now (number_of pre.now.pure) sample.heap pre.now)) }
{
    if !has_sample(alloc, pre)? {
        return Ok(None);
    }
    Ok(Some(Sample {
        values: parameter_values(alloc, pre.pure.as_slice(), params)?,
        heap: met_by(alloc, pre, structs)?,
    }))
}
