//! The desk: the lock with its condition variable, and what threads do at it.
//!
//! Who finds nothing to do waits on the condition variable. No wake-up is lost. What somebody waits for is a change of the book or the
//! closing of the desk, and both are made under the lock. Who waits has looked under the lock and lets it go only as it begins to
//! wait, so a change comes either before the look, which sees it, or after the wait has begun; and each change that can give others
//! something to do is followed by a ring that wakes all who wait: another program (`start`, `Locked::turn`), an answer or a give-back,
//! and the closing. A claim gives nobody else anything to do, so it does not ring. Who is woken looks again.
ghost use Rattle.std.specs.Prelude.{◌≤◌, IfOk, vec_len};
ghost use Rattle.shape_data.specs.Sizes.{HasProgramSizes};
ghost use Rattle.shape_data.specs.WellFormed.{IsProgram};
ghost use Rattle.worker_pool.specs.Entries.{AreEntries};

use crate::locked::Locked;
use crate::shares::{Hands, SolveShare};
use crate::turn::Turn;
use claim_core::{Claim, Job, Tally};
use io_ports::Gate;
use shape_data::answer::Kept;
use shape_data::program::Program;
use std::alloc::{AllocError, Global};
use std::sync::ledger::Ledger;
use std::sync::{Arc, Condvar, Mutex, Wait};
use summary_book::{Aim, Next};

/// The book under its lock, the job and the gate, which all threads share.
#[derive(Drop)]
pub struct Desk<'g, J: Job + Drop, G: Gate, A: Ledger, B: Ledger> {
    locked: Mutex<Locked<J, A, B>>,
    bell: Condvar,
    job: J,
    gate: &'g G,
}

impl<'g, J: Job + Drop, G: Gate, A: Ledger, B: Ledger> Desk<'g, J, G, A, B> {
    pub(crate) fn new(locked: Locked<J, A, B>, job: J, gate: &'g G) -> Self {
        Desk {
            locked: Mutex::new(locked),
            bell: Condvar::new(),
            job,
            gate,
        }
    }

    /// The gate that each claim's solving enters.
    pub fn gate(&self) -> &'g G {
        self.gate
    }

    /// Makes a program the present one, and wakes the workers.
    pub fn start<R: Wait>(
        &self,
        rt: &R,
        alloc: Global,
        program: &Arc<Program>,
    ) -> Result<(), AllocError>
        requires formed { IsProgram program.now.value }
        requires sizes { HasProgramSizes program.now.value }
    {
        self.locked.lock(rt).meet(alloc, program)?;
        self.bell.notify_all();
        Ok(())
    }

    /// The entries of the components that an aim reaches in a program, callees first, each with its composed key
    /// (`entries_are_composed`). The leader solves beside the workers until they are settled. At `Err` it holds no claim.
    pub fn settle<R: Wait>(
        &self,
        rt: &R,
        alloc: Global,
        program: &Arc<Program>,
        aim: &Aim,
        hands: &mut Hands<B>,
    ) -> Result<Vec<Kept>, AllocError>
        requires formed { IsProgram program.now.value }
        requires sizes { HasProgramSizes program.now.value }
        ensures entries { IfOk result (λ kept. AreEntries J.solves program.now.value aim.now kept.items) }
        ensures count { IfOk result (λ kept. vec_len kept ≤ hands.new.seen) }
        ensures rises { hands.old.seen ≤ hands.new.seen }
    {
        let mut tally = Tally::new();
        let mut guard = self.locked.lock(rt);
        let mut turn = guard.turn(alloc, program, aim, hands, &self.bell)?;
        for _ in rt.forever() {
            match turn {
                Turn::Done(kept) => return Ok(kept),
                Turn::Waits { claim: _ } => {
                    guard = self.bell.wait(rt, guard);
                    turn = guard.further_turn(alloc, program, aim, hands, &self.bell)?;
                }
                Turn::Yours(claim) => {
                    drop(guard);
                    self.gate.enter(rt, claim.number());
                    match self.job.solve(alloc, claim.key(), &mut tally) {
                        Ok(solved) => {
                            guard = self.locked.lock(rt);
                            guard.publish_own(claim, solved, &mut tally);
                            self.bell.notify_all();
                            turn = guard.further_turn(alloc, program, aim, hands, &self.bell)?;
                        }
                        Err(error) => {
                            self.hand_back(rt, claim);
                            return Err(error);
                        }
                    }
                }
            }
        }
        unreachable!()
    }

    /// Ends the workers.
    pub(crate) fn close<R: Wait>(&self, rt: &R) {
        self.locked.lock(rt).close();
        self.bell.notify_all();
    }

    /// A worker's loop, until the desk is closed or memory is wanting.
    pub(crate) fn work<R: Wait>(
        &self,
        rt: &R,
        alloc: Global,
        worker: u64,
        mine: &mut SolveShare<A>,
    ) {
        let mut tally = Tally::new();
        for _ in rt.forever() {
            let Some(claim) = self.take(rt, alloc, worker) else {
                return;
            };
            self.gate.enter(rt, claim.number());
            match self.job.solve(alloc, claim.key(), &mut tally) {
                Ok(solved) => {
                    self.locked
                        .lock(rt)
                        .publish(claim, solved, &mut tally, mine);
                    self.bell.notify_all();
                }
                Err(_) => {
                    self.hand_back(rt, claim);
                    return;
                }
            }
        }
    }

    /// A worker's next claim; none where the desk is closed or memory is wanting.
    fn take<R: Wait>(&self, rt: &R, alloc: Global, worker: u64) -> Option<Claim> {
        let mut guard = self.locked.lock(rt);
        for _ in rt.forever() {
            if guard.is_closed() {
                return None;
            }
            match guard.next(alloc, worker) {
                Ok(Next::Yours(claim)) => return Some(claim),
                Ok(Next::Waits { claim: _ } | Next::All) => guard = self.bell.wait(rt, guard),
                Err(_) => return None,
            }
        }
        unreachable!()
    }

    /// Ends a claim without an answer.
    fn hand_back<R: Wait>(&self, rt: &R, claim: Claim) {
        self.locked.lock(rt).give_back(claim);
        self.bell.notify_all();
    }

    /// What the lock held, once no other thread has the desk.
    pub(crate) fn into_locked(self) -> Locked<J, A, B> {
        let Desk {
            locked,
            bell: _,
            job: _,
            gate: _,
        } = self;
        locked.into_inner()
    }
}
