//! Why units are refused.
use c_types_rules::At;
use std::alloc::{AllocError, AllocFailed};

/// Why units are refused: the first refusal in the order of the text, of types or else of lowering, with its unit; or want of memory.
#[derive(Clone, Copy, Debug)]
pub enum UnitsFault {
    Refused(At),
    OutOfMemory,
}

impl From<AllocError> for UnitsFault {
    ghost use Rattle.std.specs.Prelude.{◌≡◌};
    ghost use Rattle.c_types.specs.declared.fault.UnitsFault.TheVariants.{OutOfMemory};

    ghost from_gives = { λ _ fault. fault ≡ OutOfMemory };

    fn from(_error: AllocError) -> UnitsFault {
        UnitsFault::OutOfMemory
    }
}

impl<T: Drop> From<AllocFailed<T>> for UnitsFault {
    ghost use Rattle.std.specs.Prelude.{◌≡◌};
    ghost use Rattle.c_types.specs.declared.fault.UnitsFault.TheVariants.{OutOfMemory};

    ghost from_gives = { λ _ fault. fault ≡ OutOfMemory };

    fn from(_error: AllocFailed<T>) -> UnitsFault {
        UnitsFault::OutOfMemory
    }
}
