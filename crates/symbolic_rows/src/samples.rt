//! Rows of samples.
use crate::rows::PARAMS;
use shape_data::machine::{Cell, Value};
use std::alloc::{AllocError, Global};
use sym_samples::laws::well_formed_heaps_are_shaped;
use sym_samples::{Sample, sample};
use worked_rows::Fault;
use worked_rows::parts::{part, text};
use worked_scopes::Scope;

/// Puts numbers behind a text, with a byte behind each.
fn push_numbers(
    alloc: Global,
    text: &mut Vec<u8>,
    numbers: &[Value],
    behind: u8,
) -> Result<(), AllocError> {
    for number in numbers {
        let digits = format!(in alloc; "{number}")?;
        text.extend_from_slice(digits.as_bytes())?;
        text.push(behind)?;
    }
    Ok(())
}

/// Puts a cell behind a text: its address, `:`, its kind, and its fields in brackets, with `,` behind each.
fn push_cell(alloc: Global, text: &mut Vec<u8>, cell: &Cell) -> Result<(), AllocError> {
    push_numbers(alloc, text, &[cell.at], b':')?;
    text.extend_from_slice(cell.kind.as_bytes())?;
    text.push(b'(')?;
    push_numbers(alloc, text, cell.fields.as_slice(), b',')?;
    text.extend_from_slice(b") ")?;
    Ok(())
}

/// The text of a sample: its values, and then its cells.
fn text_of(alloc: Global, sample: &Sample) -> Result<Vec<u8>, AllocError> {
    let mut text = Vec::new(alloc);
    push_numbers(alloc, &mut text, sample.values.as_slice(), b' ')?;
    for cell in sample.heap.as_slice() {
        push_cell(alloc, &mut text, cell)?;
    }
    Ok(text)
}

/// The sample of the row's heap, if it has one.
fn sample_of(alloc: Global, scope: &Scope, row: &str) -> Result<Option<Sample>, Fault> {
    let pre = scope.heap(alloc, text(row, "sample"))?;
    well_formed_heaps_are_shaped();
    Ok(sample(alloc, &pre, PARAMS, scope.program.structs.as_slice())?)
}

/// Whether the sample is what the row tells.
fn is_told(alloc: Global, sample: &Sample, row: &str) -> Result<bool, Fault> {
    let found = text_of(alloc, sample)?;
    match (found.as_slice().strip_suffix(b" "), part(row, "gives")) {
        (Some(shown), Some(told)) => Ok(shown == told.as_bytes()),
        _ => Ok(false),
    }
}

/// Whether the heap of the row has the sample that the row tells, or has none.
pub fn samples(rt: &impl Print, alloc: Global, scope: &Scope, row: &str) -> Result<bool, Fault> {
    match sample_of(alloc, scope, row)? {
        None => Ok(part(row, "none").is_some()),
        Some(found) => {
            let agrees = is_told(alloc, &found, row)?;
            if !agrees {
                println!(rt; "{found:?}")?;
            }
            Ok(agrees)
        }
    }
}
