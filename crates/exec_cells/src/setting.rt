//! What stays the same through an execution.
use exec_laws::{Mode, Table};
use shape_data::program::StructDef;

/// The mode, how many parameters the procedure has, the structures, and the specs that calls may use.
#[derive(Clone, Copy)]
pub struct Setting<'a> {
    pub mode: Mode,
    pub params: u32,
    pub structs: &'a [StructDef],
    pub table: &'a Table,
}
