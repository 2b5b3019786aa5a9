//! The pool: a leader and workers at one desk, and what they leave.
ghost use Rattle.std.specs.Prelude.{◌≡◌, ℕ, ◌+◌, ◌≤◌, [], IfOk, OnErr};
ghost use Rattle.claim_laws.specs.Logs.{IsLegal, published, replay};

use crate::counted::Counted;
use crate::desk::Desk;
use crate::locked::Locked;
use crate::shares::{Hands, SolveShare};
use claim_core::Job;
use io_ports::Gate;
use std::alloc::{AllocError, Global};
use std::marker::Brand;
use std::sync::Wait;
use std::sync::ledger::{Blank, Ledger};
use std::thread;
use std::thread::{Threads, join_mut};
use summary_book::Book;

/// What leads a pool.
pub trait Leader<J: Job + Drop, G: Gate> {
    /// What a run says of the leader before and after it, and of the number of Publish events that it has seen. A leader that holds
    /// references says here that they are the same afterwards (by their `ghost_name`), or nothing is known of what they lead to.
    ghost led: { Self → Self → ℕ → Type 0 };

    /// Does its work at the desk, beside the workers.
    fn lead<R: Wait, A: Ledger, B: Ledger>(
        &mut self,
        rt: &R,
        alloc: Global,
        desk: &Desk<'_, J, G, A, B>,
        hands: &mut Hands<B>,
    )
        ensures { led self.old self.new hands.new.seen };
}

/// What a pool leaves: the book, the sum of all threads' shares of the solves, and how many Publish events the leader has seen.
#[derive(Drop)]
pub struct Joined<J: Job> {
    pub book: Book<J>,
    pub solves: u64,
    pub seen: u64,
}

/// Runs the leader beside so many workers over a book with nothing done. At `Err` the leader has not begun.
pub fn run_pool<
    R: Threads + Wait + Sync,
    J: Job + Drop + Send + Sync,
    G: Gate + Sync,
    L: Leader<J, G>,
>(
    rt: &R,
    alloc: Global,
    workers: u32,
    job: J,
    gate: &G,
    book: Book<J>,
    leader: &mut L,
) -> Result<Joined<J>, AllocError>
    requires { book.log ≡ [] }
    ensures legal { IfOk result (λ joined. IsLegal J.solves joined.book.log) }
    ensures out { IfOk result (λ joined. (replay joined.book.log).out ≡ []) }
    ensures solves { IfOk result (λ joined. joined.solves ≡ published joined.book.log) }
    ensures seen { IfOk result (λ joined. joined.seen ≤ published joined.book.log) }
    ensures led { IfOk result (λ joined. L.led leader.old leader.new joined.seen) }
    ensures err { OnErr result (leader.new ≡ leader.old) }
{
    let solves = Blank::new(workers as u64 + 1);
    let seen = Blank::new(1);
    pool::<R, J, G, L, Brand, Brand>(rt, alloc, workers, job, gate, book, leader, solves, seen)
}

/// The pool over its two ledgers.
fn pool<
    R: Threads + Wait + Sync,
    J: Job + Drop + Send + Sync,
    G: Gate + Sync,
    L: Leader<J, G>,
    A: Ledger + Send + Sync,
    B: Ledger + Send + Sync,
>(
    rt: &R,
    alloc: Global,
    workers: u32,
    job: J,
    gate: &G,
    book: Book<J>,
    leader: &mut L,
    solves: Blank,
    seen: Blank,
) -> Result<Joined<J>, AllocError>
    requires log { book.log ≡ [] }
    requires solves { (solves.name ≡ A.name) × (solves.parts ≡ A.parts) × (A.parts ≡ workers + 1) }
    requires seen { (seen.name ≡ B.name) × (seen.parts ≡ B.parts) × (B.parts ≡ 1) }
    ensures legal { IfOk result (λ joined. IsLegal J.solves joined.book.log) }
    ensures out { IfOk result (λ joined. (replay joined.book.log).out ≡ []) }
    ensures solves { IfOk result (λ joined. joined.solves ≡ published joined.book.log) }
    ensures seen { IfOk result (λ joined. joined.seen ≤ published joined.book.log) }
    ensures led { IfOk result (λ joined. L.led leader.old leader.new joined.seen) }
    ensures err { OnErr result (leader.new ≡ leader.old) }
{
    let (solves, mut rest) = solves.open::<A>();
    let (seen, mark) = seen.open::<B>();
    let mut shares = Vec::with_capacity(alloc, workers as usize)?;
    for placed in 0..workers {
        shares.push_reserved(SolveShare::new(rest.split_off(1, 0)));
    }
    let mut hands = Hands::new(mark);
    let counted = Counted::new(book, solves);
    let locked = Locked::new(counted, SolveShare::new(rest), seen);
    let desk = Desk::new(locked, job, gate);
    run_all(rt, alloc, &desk, shares.as_mut_slice(), leader, &mut hands);
    let mut ended = desk.into_locked().into_ended();
    while let Some(share) = shares.pop() {
        ended.gather(share);
    }
    let (book, solves, seen) = ended.finish(hands);
    Ok(Joined { book, solves, seen })
}

/// Runs the leader and the workers, and joins them. The workers come first: where no thread can be made, the first closure runs last,
/// and then the leader has closed the desk before a worker begins.
fn run_all<
    R: Threads + Wait + Sync,
    J: Job + Drop + Send + Sync,
    G: Gate + Sync,
    L: Leader<J, G>,
    A: Ledger + Send + Sync,
    B: Ledger + Send + Sync,
>(
    rt: &R,
    alloc: Global,
    desk: &Desk<'_, J, G, A, B>,
    shares: &mut [SolveShare<A>],
    leader: &mut L,
    hands: &mut Hands<B>,
)
    ensures { L.led leader.old leader.new hands.new.seen }
{
    let mut one = ||
        ensures { L.led leader.entry.now leader.exit.now hands.exit.now.seen }
    { lead_all(rt, alloc, desk, leader, hands) };
    let mut others = || work_all(rt, alloc, desk, shares);
    join_mut(rt, &mut others, &mut one);
}

/// Lets the leader work, and then ends the workers.
fn lead_all<R: Wait, J: Job + Drop, G: Gate, L: Leader<J, G>, A: Ledger, B: Ledger>(
    rt: &R,
    alloc: Global,
    desk: &Desk<'_, J, G, A, B>,
    leader: &mut L,
    hands: &mut Hands<B>,
)
    ensures { L.led leader.old leader.new hands.new.seen }
{
    leader.lead(rt, alloc, desk, hands);
    desk.close(rt);
}

/// Runs the workers, each in a thread of its own as far as threads can be made.
fn work_all<
    R: Threads + Wait + Sync,
    J: Job + Drop + Send + Sync,
    G: Gate + Sync,
    A: Ledger + Send + Sync,
    B: Ledger + Send + Sync,
>(rt: &R, alloc: Global, desk: &Desk<'_, J, G, A, B>, shares: &mut [SolveShare<A>]) {
    if shares.is_empty() {
        return;
    }
    let threads = shares.len();
    thread::for_each_mut(
        rt,
        shares,
        threads,
        &|place, share| desk.work(rt, alloc, place as u64 + 1, share),
    );
}
