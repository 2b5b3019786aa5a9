//! What the book answers.
use claim_core::Claim;

/// What came of a program that was met.
#[derive(Clone, Copy, PartialEq, Eq, Debug)]
pub enum Met {
    /// It is the present one.
    Same,
    /// It was another one and is the present one now; the new revision.
    Revised(u64),
}

/// What is to be done next for an aim.
pub enum Next {
    /// This component, which was handed out. The claim is the book's, and its key is one that a job may be asked for.
    Yours(Claim),
    /// Nothing until a claim has ended: the least one by which a component of the aim is out.
    Waits {
        /// The number of the claim.
        claim: u64,
    },
    /// Nothing: each component of the aim is settled.
    All,
}
