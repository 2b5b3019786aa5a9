//! The end of a pool: the book and its ledgers, once all threads have joined.
ghost use Rattle.std.specs.Prelude.{◌≡◌, ◌+◌, ◌≤◌, []};
ghost use Rattle.claim_laws.specs.Logs.{IsLegal, published, replay};

use crate::counted::Counted;
use crate::shares::{Hands, SolveShare};
use claim_core::Meaning;
use std::sync::ledger;
use std::sync::ledger::{Ledger, Share};
use summary_book::Book;

/// The book with the shares of the ledger of solves that came back.
#[derive(Drop)]
pub struct Ended<J: Meaning, A: Ledger, B: Ledger> {
    counted: Counted<J, A>,
    count: u64,
    pub(crate) share: Share<A>,
    seen: ledger::Book<B>,
    ghost share_is: { share.amount ≡ count },
    ghost seen_within: { seen.total ≤ counted.number },
}

impl<J: Meaning, A: Ledger, B: Ledger> Ended<J, A, B> {
    /// The book with the leader's share.
    pub fn new(counted: Counted<J, A>, count: u64, share: Share<A>, seen: ledger::Book<B>) -> Self
        requires share { share.amount ≡ count }
        requires seen { seen.total ≤ counted.number }
        ensures { result.share.parts ≡ share.parts }
    {
        Ended {
            counted,
            count,
            share,
            seen,
        }
    }

    /// Takes a worker's share back.
    pub fn gather(&mut self, worker: SolveShare<A>)
        ensures { self.new.share.parts ≡ self.old.share.parts + 1 }
    {
        let Ended {
            counted,
            count,
            share,
            seen: _,
        } = self;
        let SolveShare {
            count: more,
            share: part,
        } = worker;
        share.merge(part);
        counted.solves.audit(share);
        let _most = counted.number;
        *count += more;
    }

    /// Gives back what is still outstanding, and answers the book, the sum of all solves and the number of Publish events that the
    /// leader has seen.
    pub fn finish(self, hands: Hands<B>) -> (Book<J>, u64, u64)
        requires { self.share.parts ≡ A.parts }
        ensures out { (replay result.0.log).out ≡ [] }
        ensures legal { IsLegal J.solves result.0.log }
        ensures solves { result.1 ≡ published result.0.log }
        ensures within { result.2 ≤ published result.0.log }
        ensures seen { result.2 ≡ hands.seen }
    {
        let Ended {
            mut counted,
            count,
            mut share,
            seen: mut total,
        } = self;
        let (seen, mut mark) = hands.into_parts();
        counted.solves.audit(&mut share);
        total.audit(&mut mark);
        counted.sweep();
        let book = counted.into_book();
        (book, count, seen)
    }
}
