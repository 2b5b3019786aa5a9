//! What one hold of the lock gives the leader.
use claim_core::Claim;
use shape_data::answer::Kept;

/// What the leader does next.
pub enum Turn {
    /// It has the entries that it asked for.
    Done(Vec<Kept>),
    /// It solves this claim.
    Yours(Claim),
    /// It waits until a claim has ended: the least one by which a component of its aim is out.
    Waits {
        /// The number of the claim.
        claim: u64,
    },
}
