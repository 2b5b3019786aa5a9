//! What the files that are present are: a program, or refused.
use project_form::Refused;
use shape_data::program::Program;
use std::sync::Arc;

/// What files are.
#[derive(Drop)]
pub enum Found {
    /// They are refused there.
    NoProgram(Refused),
    /// They are this program.
    Whole(Arc<Program>),
}
