//! Why a row has no answer.
use std::alloc::AllocError;
use std::io;

/// Why a row has no answer.
#[derive(Clone, Copy, Drop, Debug)]
pub enum Fault {
    /// It is no row.
    Row,
    /// Its text of C is refused.
    Refused,
    /// A text in it is no heap or post, from this byte on.
    Text(u32),
    /// What was found could not be printed.
    Output,
    OutOfMemory,
}

impl From<AllocError> for Fault {
    fn from(_: AllocError) -> Fault {
        Fault::OutOfMemory
    }
}

impl From<io::Error> for Fault {
    fn from(_: io::Error) -> Fault {
        Fault::Output
    }
}
