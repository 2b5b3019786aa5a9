//! The files of a project, and the program that they are. A project keeps for each file the syntax tree of its bytes once they
//! were read, so that a file that was changed is read again alone; types and lowering are those of all files together. The files
//! and their order are defined in `specs/Files`, the marks on kept trees in `specs/Kept`, and the program in `specs/Reads`.
#![tactic(auto)]

mod fault;
mod file;
mod files;
pub mod laws;
mod project;
mod reading;
mod whole;

pub use fault::{ProgramFault, PutFault, Refused};
pub use project::Project;
