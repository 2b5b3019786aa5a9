//! Why a file is not put, and why files are no program.
use shape_data::Name;
use std::alloc::{AllocError, AllocFailed};

/// Why a file is not put.
#[derive(Clone, Copy, PartialEq, Eq, Debug)]
pub enum PutFault {
    /// 143: it has more than 1,048,576 bytes; 141: there are 256 others; 144: all together would have more than 4,194,304 bytes.
    Code(u16),
    OutOfMemory,
}

impl From<AllocError> for PutFault {
    ghost use Rattle.std.specs.Prelude.{◌≡◌};
    ghost use Rattle.project_form.specs.declared.fault.PutFault.TheVariants.{OutOfMemory};

    ghost from_gives = { λ _ given. given ≡ OutOfMemory };

    fn from(_error: AllocError) -> PutFault {
        PutFault::OutOfMemory
    }
}

impl<T: Drop> From<AllocFailed<T>> for PutFault {
    ghost use Rattle.std.specs.Prelude.{◌≡◌};
    ghost use Rattle.project_form.specs.declared.fault.PutFault.TheVariants.{OutOfMemory};

    ghost from_gives = { λ _ given. given ≡ OutOfMemory };

    fn from(_error: AllocFailed<T>) -> PutFault {
        PutFault::OutOfMemory
    }
}

/// Where a program is refused: the file, the line, from 1, and the code.
#[derive(Drop, Debug)]
pub struct Refused {
    pub file: Name,
    pub line: u32,
    pub code: u16,
}

/// Why files are no program.
#[derive(Drop, Debug)]
pub enum ProgramFault {
    Refused(Refused),
    OutOfMemory,
}

impl From<AllocError> for ProgramFault {
    ghost use Rattle.std.specs.Prelude.{◌≡◌};
    ghost use Rattle.project_form.specs.declared.fault.ProgramFault.TheVariants.{OutOfMemory};

    ghost from_gives = { λ _ given. given ≡ OutOfMemory };

    fn from(_error: AllocError) -> ProgramFault {
        ProgramFault::OutOfMemory
    }
}

impl<T: Drop> From<AllocFailed<T>> for ProgramFault {
    ghost use Rattle.std.specs.Prelude.{◌≡◌};
    ghost use Rattle.project_form.specs.declared.fault.ProgramFault.TheVariants.{OutOfMemory};

    ghost from_gives = { λ _ given. given ≡ OutOfMemory };

    fn from(_error: AllocFailed<T>) -> ProgramFault {
        ProgramFault::OutOfMemory
    }
}
