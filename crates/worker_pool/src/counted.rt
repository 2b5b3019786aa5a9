//! The book with the number of its Publish events. Each call of the book that the pool makes is made here.
ghost use Rattle.std.specs.Prelude.{◌≡◌, ◌<◌, ◌≤◌, ◌^◌, ◌++◌, [], IfOk, OnErr, map, vec_len};
ghost use Rattle.claim_laws.specs.Logs.{IsLegal, published, replay};
ghost use Rattle.claim_laws.specs.World.{Event as Happening};
ghost use Rattle.shape_data.specs.Sizes.{HasProgramSizes};
ghost use Rattle.shape_data.specs.WellFormed.{IsProgram};
ghost use Rattle.summary_book.specs.Aims.{aimed};
ghost use Rattle.summary_book.specs.Book.{met_by, met_events};
ghost use Rattle.summary_book.specs.Next.{IsNext, IsSettled, events_by, slots_by};
ghost use Rattle.summary_book.specs.Views.{slot_solution};
ghost use Rattle.claim_core.specs.Views.{solution_of};
ghost use Rattle.worker_pool.specs.Ended.{IsGivenBack, IsPublished};
ghost use Rattle.worker_pool.specs.Entries.{AreEntries};

use crate::shares::SolveShare;
use claim_core::{Claim, Meaning, Solved, Tally};
use shape_data::answer::Kept;
use shape_data::program::Program;
use std::alloc::{AllocError, Global};
use std::sync::ledger::Ledger;
use std::sync::{Arc, ledger};
use summary_book::{Aim, Book, Met, Next};

/// A book with the number of its Publish events, which is the total of the ledger of solves.
#[derive(Drop)]
pub struct Counted<J: Meaning, A: Ledger> {
    pub(crate) book: Book<J>,
    pub(crate) number: u64,
    pub(crate) solves: ledger::Book<A>,
    ghost number_is: { number ≡ published book.log },
    ghost total_is: { solves.total ≡ published book.log },
}

/// A log has fewer events than there are numbers.
fn published_fits<J: Meaning>(book: &Book<J>)
    ensures { published book.now.log < 2 ^ 64 }
{
    let _count = book.log().len();
}

impl<J: Meaning, A: Ledger> Counted<J, A> {
    /// A book with nothing done.
    pub fn new(book: Book<J>, solves: ledger::Book<A>) -> Self
        requires log { book.log ≡ [] }
        requires total { solves.total ≡ 0 }
        ensures { result.number ≡ 0 }
    {
        Counted {
            book,
            number: 0,
            solves,
        }
    }

    /// Makes a program the present one.
    pub fn meet(&mut self, alloc: Global, program: &Arc<Program>) -> Result<Met, AllocError>
        requires formed { IsProgram program.now.value }
        requires sizes { HasProgramSizes program.now.value }
        ensures met { IfOk result (λ met. met ≡ met_by (replay self.old.book.log) program.now.value) }
        ensures log { IfOk result (λ met. self.new.book.log ≡ self.old.book.log ++ met_events program.now.value met) }
        ensures err { OnErr result (self.new.book.log ≡ self.old.book.log) }
        ensures number { self.new.number ≡ self.old.number }
    {
        self.book.meet(alloc, program)
    }

    /// Hands out the next component of an aim.
    pub fn next(&mut self, alloc: Global, worker: u64, aim: &Aim) -> Result<Next, AllocError>
        ensures next { IfOk result (λ next. IsNext (replay self.old.book.log) (aimed (replay self.old.book.log).program aim.now) next) }
        ensures log { IfOk result (λ next. self.new.book.log ≡ self.old.book.log ++ events_by worker next) }
        ensures err { OnErr result (self.new.book.log ≡ self.old.book.log) }
        ensures number { self.new.number ≡ self.old.number }
    {
        self.book.next(alloc, worker, aim)
    }

    /// Ends a claim with its answer and books the solve in the thread's share, where the claim is the book's.
    #[tactic(auto, using(crate::proofs::Counting::published_more))]
    pub fn publish(
        &mut self,
        claim: Claim,
        solved: Solved<J>,
        tally: &mut Tally,
        mine: &mut SolveShare<A>,
    )
        requires key { solved.key ≡ claim.key }
        requires tally { tally.old ≡ 1 }
        ensures log { IsPublished self.old.book.log self.new.book.log claim solved.answer }
        ensures number { self.old.number ≤ self.new.number }
        ensures tally { tally.new ≡ 0 }
    {
        if !self.book.holds(&claim) {
            let _key = claim.forget();
            tally.clear();
            return;
        }
        let Counted {
            book,
            number,
            solves,
        } = self;
        let SolveShare { count, share } = mine;
        book.publish(claim, solved);
        solves.add(share, tally.count());
        solves.audit(share);
        published_fits(book);
        *number += tally.count();
        *count += tally.count();
        tally.clear();
    }

    /// Ends a claim without an answer, where it is the book's.
    #[tactic(auto, using(crate::proofs::Counting::published_given))]
    pub fn give_back(&mut self, claim: Claim)
        ensures log { IsGivenBack self.old.book.log self.new.book.log claim }
        ensures number { self.new.number ≡ self.old.number }
    {
        if self.book.holds(&claim) {
            self.book.give_back(claim);
        } else {
            let _key = claim.forget();
        }
    }

    /// Gives back what is outstanding.
    pub fn sweep(&mut self)
        ensures log { self.new.book.log ≡ self.old.book.log ++ map (λ out. Happening.GiveBack out.number) (replay self.old.book.log).out }
        ensures out { (replay self.new.book.log).out ≡ [] }
        ensures number { self.new.number ≡ self.old.number }
        ensures total { self.new.solves.total ≡ self.old.solves.total }
    {
        self.book.sweep();
    }

    /// The entries of an aim that is settled. There are no more of them than Publish events.
    pub fn entries(&self, alloc: Global, aim: &Aim) -> Result<Vec<Kept>, AllocError>
        requires { IsSettled (replay self.now.book.log) (aimed (replay self.now.book.log).program aim.now) }
        ensures entries { IfOk result (λ kept. AreEntries J.solves (replay self.now.book.log).program aim.now kept.items) }
        ensures slots { IfOk result (λ kept. map solution_of kept.items
            ≡ map slot_solution (slots_by (replay self.now.book.log) (aimed (replay self.now.book.log).program aim.now))) }
        ensures count { IfOk result (λ kept. vec_len kept ≤ self.now.number) }
    {
        let _events = self.book.log();
        self.book.collect(alloc, aim)
    }

    /// The book.
    pub fn into_book(self) -> Book<J>
        ensures book { result ≡ self.book }
        ensures legal { IsLegal J.solves result.log }
        ensures number { self.number ≡ published result.log }
        ensures total { self.solves.total ≡ published result.log }
    {
        let Counted {
            book,
            number: _,
            solves: _,
        } = self;
        let _events = book.log();
        book
    }
}
