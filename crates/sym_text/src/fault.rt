//! Why a text is not read: as callers see it, with an offset from the front, and as the readers of its parts tell it, with
//! the number of bytes that are left.

ghost use Rattle.std.specs.Prelude.{◌≡◌, ◌<◌};
ghost use Rattle.sym_text.specs.Outcome.{IsWithin, bad_of};

use std::alloc::AllocError;

/// Why a text gives no heap or post.
#[derive(Clone, Copy, PartialEq, Eq, Drop, Debug)]
pub enum BadSpec {
    /// The text is not of the grammar. The offset, in bytes, is the length of the longest prefix of the text that begins some
    /// text of the grammar: from 0 to the length of the text, which it is where the text only ends too early.
    At { offset: u32 },
    /// Memory wanted.
    OutOfMemory,
}

/// Why a reader stopped.
#[derive(Clone, Copy, Drop, Debug)]
pub enum Fault {
    /// The reader stopped with so many bytes left of the text: with the first of them it can't go on, or none is left where
    /// one is needed.
    Refused { left: usize },
    /// Memory wanted.
    OutOfMemory,
}

impl From<AllocError> for Fault {
    ghost use Rattle.std.specs.Prelude.{◌≡◌};
    ghost use Rattle.sym_text.specs.declared.fault.Fault.TheVariants.{OutOfMemory as no_memory};

    ghost from_gives = { λ _ fault. fault ≡ no_memory };

    fn from(_: AllocError) -> Self {
        Fault::OutOfMemory
    }
}

/// What callers are told of a fault in a text of this length in bytes: the offset is what stands before the bytes left.
pub fn bad_spec(len: usize, fault: Fault) -> BadSpec
    requires short { len < 4294967296 }
    requires within { IsWithin fault len }
    ensures { result ≡ bad_of len fault }
{
    match fault {
        Fault::Refused { left } => BadSpec::At {
            offset: (len - left) as u32,
        },
        Fault::OutOfMemory => BadSpec::OutOfMemory,
    }
}
