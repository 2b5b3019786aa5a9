//! What threads hold beside the lock: their shares of the two ledgers, each with its amount as a number.
ghost use Rattle.std.specs.Prelude.{◌≡◌, ◌≤◌};

use std::marker::Model;
use std::sync::ledger;
use std::sync::ledger::{Ledger, Share};

/// A thread's share of the ledger of solves.
#[derive(Drop)]
pub struct SolveShare<A: Ledger> {
    pub(crate) count: u64,
    pub(crate) share: Share<A>,
    ghost one_part: { share.parts ≡ 1 },
    ghost counted: { share.amount ≡ count },
}

impl<A: Ledger> SolveShare<A> {
    /// A share of nothing yet.
    pub(crate) fn new(share: Share<A>) -> Self
        requires parts { share.parts ≡ 1 }
        requires amount { share.amount ≡ 0 }
        ensures { result.count ≡ 0 }
    {
        SolveShare { count: 0, share }
    }
}

/// What the leader holds: the number of Publish events that it has seen, and the one share of the ledger that counts them. Contracts see
/// the number.
#[derive(Drop)]
pub struct Hands<B: Ledger> {
    seen: u64,
    share: Share<B>,
}

impl<B: Ledger> Model for Hands<B> {
    ghost use Rattle.std.specs.Prelude.{◌≡◌};
    ghost use Rattle.worker_pool.specs.Hands.{Seen};

    ghost Value = { Seen };

    ghost view = { λ hands. record { seen = hands.seen } };

    ghost invariant = { λ hands. (B.parts ≡ 1) × (hands.share.parts ≡ 1) × (hands.share.amount ≡ hands.seen) };
}

impl<B: Ledger> Hands<B> {
    /// Hands that have seen nothing.
    pub(crate) fn new(share: Share<B>) -> Self
        requires whole { B.parts ≡ 1 }
        requires parts { share.parts ≡ 1 }
        requires amount { share.amount ≡ 0 }
        ensures { result.seen ≡ 0 }
    {
        Hands { seen: 0, share }
    }

    /// The number that was seen, and the share.
    pub(crate) fn into_parts(self) -> (u64, Share<B>)
        ensures seen { result.0 ≡ self.seen }
        ensures share { result.1.amount ≡ self.seen }
    {
        let Hands { seen, share } = self;
        (seen, share)
    }

    /// Raises the number to that of all Publish events, and the ledger's total with it.
    pub(crate) fn look(&mut self, total: &mut ledger::Book<B>, number: u64)
        requires { total.old.total ≤ number }
        ensures seen { self.new.seen ≡ number }
        ensures rises { self.old.seen ≤ self.new.seen }
        ensures total { total.new.total ≡ number }
    {
        total.audit(&mut self.share);
        total.add(&mut self.share, number - self.seen);
        self.seen = number;
    }
}
