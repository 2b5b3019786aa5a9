//! What becomes of an answer that is published.

/// Why an answer was not kept.
#[derive(Clone, Copy, PartialEq, Eq, Debug)]
pub enum Seen {
    /// The component is not present; the present revision.
    Gone(u64),
    /// The component's procedures are others now; the present revision.
    Changed(u64),
    /// The component is settled; the number of its slot's claim.
    Settled(u64),
    /// The component's slot is of a later claim; the number of that claim.
    Later(u64),
}

/// What became of an answer.
#[derive(Clone, Copy, PartialEq, Eq, Debug)]
pub enum Published {
    /// It is its component's answer from now on.
    Kept,
    /// It came too late.
    Stale(Seen),
}
