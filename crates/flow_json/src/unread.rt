//! Why a value is not read.
use std::alloc::AllocError;

/// Why a value gives no thing.
#[derive(Clone, Copy, PartialEq, Eq, Drop, Debug)]
pub enum Unread {
    /// The value is not of the form.
    NotOfForm,
    /// Memory wanted.
    OutOfMemory,
}

impl From<AllocError> for Unread {
    ghost use Rattle.std.specs.Prelude.{◌≡◌};
    ghost use Rattle.flow_json.specs.declared.unread.Unread.TheVariants.{OutOfMemory as no_memory};

    ghost from_gives = { λ _ fault. fault ≡ no_memory };

    fn from(_: AllocError) -> Self {
        Unread::OutOfMemory
    }
}
