//! A keeper of bytes under paths, as a store on a disk: what is under a path is read whole, or replaced whole. It
//! counts its faults, and a path is never left with anything but its old or its new bytes.
ghost use Rattle.std.specs.Prelude.{◌≡◌, ◌≢◌, ◌⊎◌, ℕ, List, ◌≤◌, IfOk, OnOk, OnErr, IfSome};
ghost use Rattle.std.specs.declared.option.Option.{Option};
ghost use Rattle.io_ports.specs.Places.{now_has, IsHeld, IsWithin};
ghost use Rattle.io_ports.specs.Counts.{Rose};

use std::alloc::Global;

/// The most bytes that are read from under a path.
pub const MOST_HELD: usize = 67_108_864;

/// What a reading found under a path.
#[derive(Drop, Debug)]
pub enum Held {
    /// There is no such path.
    Absent,
    /// It has more bytes than are read.
    TooLong,
    /// All its bytes.
    Bytes(Vec<u8>),
}

/// Why nothing was read, or why it is not known that the bytes were replaced.
#[derive(Clone, Copy, PartialEq, Eq, Debug)]
pub enum KeepFault {
    Failed,
    OutOfMemory,
}

/// Keeps bytes under paths, and counts its faults.
pub trait Keeper {
    /// What the keeper has under a path, where it tells that: bytes, or none where it has no such path.
    ghost kept: { Self → List ℕ → Option (Option (List ℕ)) };

    /// How many calls failed.
    ghost faults: { Self → ℕ };

    /// All bytes under a path. Want of memory may come at any call.
    fn read_all(&mut self, alloc: Global, path: &str) -> Result<Held, KeepFault>
        ensures held { IfOk result (λ held. IfSome (kept self.old path.now) (λ there. IsHeld there held)) }
        ensures within { IfOk result (λ held. IsWithin held) }
        ensures same { (any : List ℕ) → kept self.new any ≡ kept self.old any }

        ensures never_falls { faults self.old ≤ faults self.new }
        ensures cause { result ≡ Err KeepFault.Failed → Rose (faults self.old) (faults self.new) };

    /// Puts these bytes under a path in place of what it had. Want of memory may come at any call, and changes
    /// nothing; where the call failed, the path has its old or the new bytes.
    fn replace(&mut self, alloc: Global, path: &str, bytes: &[u8]) -> Result<(), KeepFault>
        ensures replaced { OnOk result (kept self.new path.now ≡ now_has bytes.now (kept self.old path.now)) }
        ensures old_or_new { OnErr result ((kept self.new path.now ≡ kept self.old path.now)
            ⊎ (kept self.new path.now ≡ now_has bytes.now (kept self.old path.now))) }
        ensures memory { result ≡ Err KeepFault.OutOfMemory →
            kept self.new path.now ≡ kept self.old path.now }
        ensures others { (other : List ℕ) → other ≢ path.now → kept self.new other ≡ kept self.old other }

        ensures never_falls { faults self.old ≤ faults self.new }
        ensures cause { result ≡ Err KeepFault.Failed → Rose (faults self.old) (faults self.new) };
}
