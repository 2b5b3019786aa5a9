//! What a sample is.
use shape_data::Row;
use shape_data::machine::{Cell, Value};

/// Numbers for the parameters, in their order, and a heap.
#[derive(Drop, Debug)]
pub struct Sample {
    pub values: Row<Value>,
    pub heap: Row<Cell>,
}
