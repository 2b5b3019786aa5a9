//! Who calls whom, by numbers: a row of callees for each number.
ghost use Rattle.std.specs.Prelude.{◌≡◌, [], replicate, IfOk};
ghost use Rattle.call_components.specs.Reaching.{rows};
ghost use Rattle.component_keys.specs.Components.{calls_of};

use std::alloc::{AllocError, Global};

/// Whom a number calls.
pub fn callees_of(calls: &[Vec<u32>], number: u32) -> &[u32]
    ensures { result.now ≡ calls_of (rows calls.now) number }
{
    match calls.get(number as usize) {
        Some(row) => row.as_slice(),
        None => &[],
    }
}

/// So many empty rows. The only error is want of memory.
pub fn empty_rows<T: Drop>(alloc: Global, count: usize) -> Result<Vec<Vec<T>>, AllocError>
    ensures { IfOk result (λ made. rows made.items ≡ replicate count []) }
{
    let mut made: Vec<Vec<T>> = Vec::with_capacity(alloc, count)?;
    for _number in 0..count {
        made.push(Vec::new(alloc))?;
    }
    Ok(made)
}
