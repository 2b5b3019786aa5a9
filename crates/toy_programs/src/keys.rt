//! Keys of one procedure.
use crate::answers::specs;
use crate::programs::{Sketch, flow, name_of};
use shape_data::Row;
use shape_data::answer::{Callee, Key};
use shape_data::program::Flow;
use std::alloc::{AllocError, Global};
use std::sync::Arc;

fn callee(alloc: Global, letter: u8, count: u32) -> Result<Callee, AllocError> {
    Ok(Callee {
        name: name_of(alloc, letter)?,
        params: Row::new(alloc),
        specs: specs(alloc, count)?,
    })
}

fn callees(alloc: Global, known: &[(u8, u32)]) -> Result<Row<Callee>, AllocError> {
    let mut callees = Row::new(alloc);
    for (letter, count) in known {
        callees.push(callee(alloc, *letter, *count)?)?;
    }
    Ok(callees)
}

fn members(alloc: Global, sketch: Sketch) -> Result<Row<Flow>, AllocError> {
    let mut procs = Row::new(alloc);
    procs.push(flow(alloc, sketch)?)?;
    Ok(procs)
}

/// The key of a procedure alone: of each other one that is known, its letter and how many specs of the empty heap it has.
pub fn key(alloc: Global, sketch: Sketch, known: &[(u8, u32)]) -> Result<Arc<Key>, AllocError> {
    let key = Key {
        recursive: false,
        procs: members(alloc, sketch)?,
        structs: Row::new(alloc),
        callees: callees(alloc, known)?,
    };
    Ok(Arc::new(alloc, key)?)
}
