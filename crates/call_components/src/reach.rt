//! Who is reached by calls: a walk with a list of what is still to do.
ghost use Rattle.std.specs.Prelude.{◌≡◌, ◌<◌, length, All, OnOk, IfOk};
ghost use Rattle.call_components.specs.Reaching.{AreDefined, AreMarked, AreReached, marked, rows};

use std::alloc::{AllocError, Global};

/// Whether a number is marked. What is outside is not.
pub fn is_marked(marks: &[bool], number: usize) -> bool
    ensures { result ≡ marked marks.now number }
{
    match marks.get(number) {
        Some(mark) => *mark,
        None => false,
    }
}

/// Marks each of the row; those that were not marked are still to do.
#[tactic(auto, using(crate::proofs::Marking::row_old, crate::proofs::Marking::row_new))]
pub fn mark_row(row: &[u32], marks: &mut Vec<bool>, todo: &mut Vec<u32>) -> Result<(), AllocError>
    requires { All (λ number. number < length marks.old.items) row.now }
    ensures { OnOk result (AreMarked row.now marks.old.items todo.old.items marks.new.items todo.new.items) }
{
    for number in row {
        let number = *number;
        if !marks[number as usize] {
            marks[number as usize] = true;
            todo.push(number)?;
        }
    }
    Ok(())
}

/// Marks the numbers and all that they call, directly or not. `calls` has a row for each number. It takes time in proportion to the
/// numbers and the rows' lengths.
pub fn reach(alloc: Global, calls: &[Vec<u32>], starts: &[u32]) -> Result<Vec<bool>, AllocError>
    requires starts { All (λ number. number < length calls.now) starts.now }
    requires defined { AreDefined (rows calls.now) }
    ensures { IfOk result (λ marks. AreReached (rows calls.now) starts.now marks.items) }
{
    let mut marks = vec![in alloc; false; calls.len()]?;
    let mut todo: Vec<u32> = Vec::new(alloc);
    mark_row(starts, &mut marks, &mut todo)?;
    while let Some(number) = todo.pop() {
        mark_row(&calls[number as usize], &mut marks, &mut todo)?;
    }
    Ok(marks)
}
