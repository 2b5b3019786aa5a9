//! Why a text is not read.
use crate::tokens::places::Refusal;
use std::alloc::{AllocError, AllocFailed};

/// Why a text is not read: where it is refused first, by tokens (codes 101 to 105, as [`TokenFault`](crate::tokens::TokenFault) has
/// them) or else by syntax (111 and 112); or want of memory.
#[derive(Clone, Copy, Debug)]
pub enum ReadFault {
    Refused(Refusal),
    OutOfMemory,
}

impl From<AllocError> for ReadFault {
    ghost use Rattle.std.specs.Prelude.{◌≡◌};
    ghost use Rattle.c_grammar.specs.declared.tokens.fault.ReadFault.TheVariants.{OutOfMemory};

    ghost from_gives = { λ _ fault. fault ≡ OutOfMemory };

    fn from(_error: AllocError) -> ReadFault {
        ReadFault::OutOfMemory
    }
}

impl<T: Drop> From<AllocFailed<T>> for ReadFault {
    ghost use Rattle.std.specs.Prelude.{◌≡◌};
    ghost use Rattle.c_grammar.specs.declared.tokens.fault.ReadFault.TheVariants.{OutOfMemory};

    ghost from_gives = { λ _ fault. fault ≡ OutOfMemory };

    fn from(_error: AllocFailed<T>) -> ReadFault {
        ReadFault::OutOfMemory
    }
}
