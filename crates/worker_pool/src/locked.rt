//! What the lock holds.
ghost use Rattle.std.specs.Prelude.{◌≡◌, ◌≤◌, ◌++◌, true, false, IfOk, OnErr, OnOk, map, vec_len};
ghost use Rattle.claim_laws.specs.Logs.{published, replay};
ghost use Rattle.shape_data.specs.Sizes.{HasProgramSizes};
ghost use Rattle.shape_data.specs.WellFormed.{IsProgram};
ghost use Rattle.summary_book.specs.Aims.{aimed};
ghost use Rattle.summary_book.specs.Book.{met_by};
ghost use Rattle.summary_book.specs.declared.aims.Aim.TheVariants.{All};
ghost use Rattle.summary_book.specs.Next.{IsNext, IsSettled, events_by, slots_by};
ghost use Rattle.summary_book.specs.Views.{slot_solution};
ghost use Rattle.claim_core.specs.Views.{solution_of};
ghost use Rattle.worker_pool.specs.Ended.{IsGivenBack, IsPublished};
ghost use Rattle.worker_pool.specs.Entries.{AreEntries};
ghost use Rattle.worker_pool.specs.Turns.{GoesOn, IsMetAtMost, IsTurn, leader, met_log, next_in};

use crate::counted::Counted;
use crate::ended::Ended;
use crate::shares::{Hands, SolveShare};
use crate::turn::Turn;
use claim_core::{Claim, Meaning, Solved, Tally};
use shape_data::answer::Kept;
use shape_data::program::Program;
use std::alloc::{AllocError, Global};
use std::sync::ledger::Ledger;
use std::sync::{Arc, Condvar, ledger};
use summary_book::{Aim, Met, Next};

/// The number under which the leader claims. Workers have the numbers from 1 on.
const LEADER: u64 = 0;

/// The book, whether workers are to end, the leader's share of the ledger of solves, and the ledger of seen publishes. Whenever the lock
/// is free, the book is what its log makes and that log is legal, which is the book's own type; the total of the ledger of solves is the
/// number of Publish events, and that of the ledger of seen publishes is at most this number.
#[derive(Drop)]
pub struct Locked<J: Meaning, A: Ledger, B: Ledger> {
    counted: Counted<J, A>,
    closed: bool,
    own: SolveShare<A>,
    seen: ledger::Book<B>,
    ghost seen_within: { seen.total ≤ counted.number },
}

impl<J: Meaning, A: Ledger, B: Ledger> Locked<J, A, B> {
    /// A book with nothing done.
    pub fn new(counted: Counted<J, A>, own: SolveShare<A>, seen: ledger::Book<B>) -> Self
        requires { seen.total ≡ 0 }
        ensures { result.closed ≡ false }
    {
        Locked {
            counted,
            closed: false,
            own,
            seen,
        }
    }

    /// Whether workers are to end.
    pub fn is_closed(&self) -> bool
        ensures { result ≡ self.now.closed }
    {
        self.closed
    }

    /// Workers are to end.
    pub fn close(&mut self)
        ensures closed { self.new.closed ≡ true }
        ensures log { self.new.counted.book.log ≡ self.old.counted.book.log }
    {
        self.closed = true;
    }

    /// Makes a program the present one.
    pub fn meet(&mut self, alloc: Global, program: &Arc<Program>) -> Result<Met, AllocError>
        requires formed { IsProgram program.now.value }
        requires sizes { HasProgramSizes program.now.value }
        ensures met { IfOk result (λ met. met ≡ met_by (replay self.old.counted.book.log) program.now.value) }
        ensures log { OnOk result (self.new.counted.book.log ≡ met_log self.old.counted.book.log program.now.value) }
        ensures program { OnOk result ((replay self.new.counted.book.log).program ≡ program.now.value) }
        ensures err { OnErr result (self.new.counted.book.log ≡ self.old.counted.book.log) }
        ensures closed { self.new.closed ≡ self.old.closed }
    {
        self.counted.meet(alloc, program)
    }

    /// Hands out the next component of all.
    pub fn next(&mut self, alloc: Global, worker: u64) -> Result<Next, AllocError>
        ensures next { IfOk result
            (λ next. IsNext (replay self.old.counted.book.log) (aimed (replay self.old.counted.book.log).program All) next) }
        ensures log { IfOk result (λ next. self.new.counted.book.log ≡ self.old.counted.book.log ++ events_by worker next) }
        ensures err { OnErr result (self.new.counted.book.log ≡ self.old.counted.book.log) }
        ensures closed { self.new.closed ≡ self.old.closed }
    {
        self.counted.next(alloc, worker, &Aim::All)
    }

    /// Publishes a worker's answer.
    pub fn publish(
        &mut self,
        claim: Claim,
        solved: Solved<J>,
        tally: &mut Tally,
        mine: &mut SolveShare<A>,
    )
        requires key { solved.key ≡ claim.key }
        requires tally { tally.old ≡ 1 }
        ensures log { IsPublished self.old.counted.book.log self.new.counted.book.log claim solved.answer }
        ensures tally { tally.new ≡ 0 }
        ensures closed { self.new.closed ≡ self.old.closed }
    {
        self.counted.publish(claim, solved, tally, mine);
    }

    /// Publishes the leader's answer.
    pub fn publish_own(&mut self, claim: Claim, solved: Solved<J>, tally: &mut Tally)
        requires key { solved.key ≡ claim.key }
        requires tally { tally.old ≡ 1 }
        ensures log { IsPublished self.old.counted.book.log self.new.counted.book.log claim solved.answer }
        ensures tally { tally.new ≡ 0 }
        ensures closed { self.new.closed ≡ self.old.closed }
    {
        let Locked {
            counted,
            closed: _,
            own,
            seen: _,
        } = self;
        counted.publish(claim, solved, tally, own);
    }

    /// Ends a claim without an answer.
    pub fn give_back(&mut self, claim: Claim)
        ensures log { IsGivenBack self.old.counted.book.log self.new.counted.book.log claim }
        ensures closed { self.new.closed ≡ self.old.closed }
    {
        self.counted.give_back(claim);
    }

    /// One hold of the leader, which wants the entries of an aim in a program: the program is met, and what is next for the aim is
    /// asked for. Where nothing is left, the entries are collected. Whoever waits is woken where the program was another one.
    pub fn turn(
        &mut self,
        alloc: Global,
        program: &Arc<Program>,
        aim: &Aim,
        hands: &mut Hands<B>,
        bell: &Condvar,
    ) -> Result<Turn, AllocError>
        requires formed { IsProgram program.now.value }
        requires sizes { HasProgramSizes program.now.value }
        ensures program { OnOk result ((replay self.new.counted.book.log).program ≡ program.now.value) }
        ensures log { IfOk result (λ turn.
            self.new.counted.book.log ≡ met_log self.old.counted.book.log program.now.value ++ events_by leader (next_in turn)) }
        ensures next { IfOk result (λ turn.
            IsNext (replay (met_log self.old.counted.book.log program.now.value)) (aimed program.now.value aim.now) (next_in turn)) }
        ensures turn { IfOk result (λ turn.
            IsTurn J.solves (met_log self.old.counted.book.log program.now.value) program.now.value aim.now hands.new.seen turn) }
        ensures rises { hands.old.seen ≤ hands.new.seen }
        ensures err { OnErr result (IsMetAtMost self.old.counted.book.log self.new.counted.book.log program.now.value) }
        ensures closed { self.new.closed ≡ self.old.closed }
    {
        if self.meet(alloc, program)? != Met::Same {
            bell.notify_all();
        }
        match self.counted.next(alloc, LEADER, aim)? {
            Next::Yours(claim) => Ok(Turn::Yours(claim)),
            Next::Waits { claim } => Ok(Turn::Waits { claim }),
            Next::All => Ok(Turn::Done(self.collect(alloc, aim, hands)?)),
        }
    }

    /// A further hold of the leader, which has published an answer since it met the program: what is next is asked for at once, and the
    /// program is met again where nothing is left. To meet it compares all of the program, which each claim need not pay for.
    pub fn further_turn(
        &mut self,
        alloc: Global,
        program: &Arc<Program>,
        aim: &Aim,
        hands: &mut Hands<B>,
        bell: &Condvar,
    ) -> Result<Turn, AllocError>
        requires formed { IsProgram program.now.value }
        requires sizes { HasProgramSizes program.now.value }
        ensures turn { IfOk result (λ turn.
            IsTurn J.solves (met_log self.old.counted.book.log program.now.value) program.now.value aim.now hands.new.seen turn) }
        ensures goes { IfOk result
            (λ turn. GoesOn self.old.counted.book.log self.new.counted.book.log program.now.value aim.now turn) }
        ensures rises { hands.old.seen ≤ hands.new.seen }
        ensures err { OnErr result (IsMetAtMost self.old.counted.book.log self.new.counted.book.log program.now.value) }
        ensures closed { self.new.closed ≡ self.old.closed }
    {
        match self.counted.next(alloc, LEADER, aim)? {
            Next::Yours(claim) => Ok(Turn::Yours(claim)),
            Next::Waits { claim } => Ok(Turn::Waits { claim }),
            Next::All => self.turn(alloc, program, aim, hands, bell),
        }
    }

    /// Collects the entries of a settled aim in the present program, and counts all that was published as seen.
    fn collect(
        &mut self,
        alloc: Global,
        aim: &Aim,
        hands: &mut Hands<B>,
    ) -> Result<Vec<Kept>, AllocError>
        requires { IsSettled (replay self.old.counted.book.log) (aimed (replay self.old.counted.book.log).program aim.now) }
        ensures entries { IfOk result
            (λ kept. AreEntries J.solves (replay self.old.counted.book.log).program aim.now kept.items) }
        ensures slots { IfOk result (λ kept. map solution_of kept.items
            ≡ map slot_solution (slots_by (replay self.old.counted.book.log) (aimed (replay self.old.counted.book.log).program aim.now))) }
        ensures count { IfOk result (λ kept. vec_len kept ≤ hands.new.seen) }
        ensures seen { OnOk result (hands.new.seen ≡ published self.old.counted.book.log) }
        ensures rises { hands.old.seen ≤ hands.new.seen }
        ensures log { self.new.counted.book.log ≡ self.old.counted.book.log }
        ensures closed { self.new.closed ≡ self.old.closed }
    {
        let kept = self.counted.entries(alloc, aim)?;
        self.look(hands);
        Ok(kept)
    }

    /// Raises what the leader has seen to the number of Publish events.
    fn look(&mut self, hands: &mut Hands<B>)
        ensures seen { hands.new.seen ≡ self.old.counted.number }
        ensures rises { hands.old.seen ≤ hands.new.seen }
        ensures log { self.new.counted.book.log ≡ self.old.counted.book.log }
        ensures closed { self.new.closed ≡ self.old.closed }
    {
        hands.look(&mut self.seen, self.counted.number);
    }

    /// The book and the shares, once no thread has the lock any more.
    pub fn into_ended(self) -> Ended<J, A, B>
        ensures { result.share.parts ≡ 1 }
    {
        let Locked {
            counted,
            closed: _,
            own,
            seen,
        } = self;
        let SolveShare { count, share } = own;
        Ended::new(counted, count, share, seen)
    }
}
